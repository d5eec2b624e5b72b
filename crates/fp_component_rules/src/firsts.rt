ghost use Rattle.std.specs.Prelude.{◌≡◌, ◌||◌, ℕ, List, [], map, not, IfOk, OnOk};
ghost use Rattle.std.specs.Str.{bytes_eq};
ghost use Rattle.fp_base.specs.NameSets.{has_name};
ghost use Rattle.fp_component_rules.specs.Firsts.{has_port, with_port};

use fp_base::NoMemory;
use fp_written_parts::WrittenPort;
use std::alloc::Global;
use std::collections::BTreeSet;
use std::marker::Model;

/// Ports in order, each of another name.
#[derive(Drop)]
pub struct FirstPorts<'a> {
    ports: Vec<&'a WrittenPort>,
    names: BTreeSet<&'a str>,
}

impl<'a> Model for FirstPorts<'a> {
    ghost use Rattle.std.specs.Prelude.{List, map};
    ghost use Rattle.std.specs.Coded.{coded_list};
    ghost use Rattle.fp_written_parts.specs.declared.port.WrittenPort.{WrittenPort as Written};
    ghost use Rattle.fp_written_parts.specs.contracts.port.WrittenPort as written;
    ghost use Rattle.fp_component_rules.specs.Noted.{AreNames};

    ghost Value = { List Written };

    ghost coded = { coded_list written.the_row.coded };

    ghost view = { λ firsts. map (λ port. port.now) firsts.ports.items };

    ghost invariant = { λ firsts. AreNames (map (λ port. port.now) firsts.ports.items) firsts.names };
}

impl<'a> FirstPorts<'a> {
    /// Takes no memory.
    pub fn new(alloc: Global) -> FirstPorts<'a>
        ensures { result ≡ [] }
    {
        FirstPorts {
            ports: Vec::new(alloc),
            names: BTreeSet::new(alloc),
        }
    }

    pub fn ports(&self) -> &[&'a WrittenPort]
        ensures { map (λ port. port.now) result.now ≡ self.now }
    {
        self.ports.as_slice()
    }

    /// Whether there is a port with the name of this one.
    pub fn has_name_of(&self, port: &'a WrittenPort) -> bool
        ensures { result ≡ has_port port.now.name self.now }
    {
        self.names.contains(&port.name.as_str())
    }

    /// With a port more, unless one of its name is there.
    pub fn with(self, port: &'a WrittenPort) -> Result<FirstPorts<'a>, NoMemory>
        ensures { IfOk result (λ firsts. firsts ≡ with_port port.now self.entry) }
    {
        let FirstPorts {
            mut ports,
            mut names,
        } = self;
        let added = note(&mut names, port.name.as_str())?;
        if added {
            ports.push(port)?;
            Ok(FirstPorts { ports, names })
        } else {
            Ok(FirstPorts { ports, names })
        }
    }
}

/// Notes a name; the answer is whether it wasn't there.
fn note<'a>(names: &mut BTreeSet<&'a str>, name: &'a str) -> Result<bool, NoMemory>
    ensures added { IfOk result (λ added. added ≡ not (has_name names.old name.now)) }
    ensures names { OnOk result ((q : List ℕ) → has_name names.new q ≡ (has_name names.old q || bytes_eq q name.now)) }
{
    let added = names.insert(name)?;
    Ok(added)
}
