ghost use Rattle.std.specs.Prelude.{◌≡◌, ◌++◌, ◌∷◌, [], length, IfOk, MatchBool};
ghost use Rattle.fp_meaning.specs.Broken.{HasEarlier, IsTwice};
ghost use Rattle.fp_base.specs.Least.{InSome, IsLeast};
ghost use Rattle.fp_names.specs.Tree.{IsTable, Within};

use crate::tree::{Node, enter, root_of, roots, say};
use fp_base::{NoMemory, Refusal, Rule, lesser, refusal_if};
use fp_meaning::Definition;
use std::alloc::Global;

/// The tree of the names of definitions, and the least name that is defined twice.
#[derive(Drop)]
pub struct Table {
    pub nodes: Vec<Node>,
    pub twice: Option<Refusal>,
}

/// The table of definitions.
pub fn table_of(alloc: Global, definitions: &[Definition]) -> Result<Table, NoMemory>
    ensures table { IfOk result (λ table. IsTable definitions.now table.nodes.items) }
    ensures twice { IfOk result (λ table. IsLeast (InSome (IsTwice definitions.now) definitions.now) table.twice) }
{
    let mut nodes = roots(alloc)?;
    let mut twice = None;
    for (number, definition) in definitions.iter().enumerate() {
        let again = add(alloc, &mut nodes, &definitions[..number], definition)?;
        twice = lesser(
            twice,
            refusal_if(again, Rule::DefinedTwice, definition.place),
        );
    }
    Ok(Table { nodes, twice })
}

/// Adds a definition to the table of those before. Whether one of these has its group and qualified name.
fn add(
    alloc: Global,
    nodes: &mut Vec<Node>,
    before: &[Definition],
    definition: &Definition,
) -> Result<bool, NoMemory>
    requires { IsTable before.now nodes.old.items }
    ensures table { IfOk result (λ again. IsTable (before.now ++ definition.now ∷ []) nodes.new.items) }
    ensures again { IfOk result (λ again. MatchBool again (HasEarlier before.now definition.now) (HasEarlier before.now definition.now → ⊥)) }
{
    let number = number_behind(before)?;
    let at = enter_all(alloc, nodes, before, definition)?;
    Ok(say(nodes, at, number))
}

/// The number of the next definition. Want of memory where so many have none.
fn number_behind(before: &[Definition]) -> Result<u32, NoMemory>
    ensures { IfOk result (λ number. number ≡ length before.now) }
{
    match u32::try_from(before.len()) {
        Ok(number) => Ok(number),
        Err(_) => Err(NoMemory),
    }
}

/// Enters the names of a definition. The node of the last.
fn enter_all(
    alloc: Global,
    nodes: &mut Vec<Node>,
    before: &[Definition],
    definition: &Definition,
) -> Result<usize, NoMemory>
    requires { IsTable before.now nodes.old.items }
    ensures { IfOk result (λ at. Within (before.now ++ definition.now ∷ []) before.now nodes.new.items definition.now.group definition.now.name at) }
{
    let _ = before;
    let mut at = root_of(definition.group);
    for name in definition.name.as_slice() {
        at = enter(alloc, nodes, at, name)?;
    }
    Ok(at)
}
