ghost use Rattle.std.specs.Prelude.{◌≡◌, true};
ghost use Rattle.std.specs.List.{list_all};
ghost use Rattle.fp_tables.specs.Components.{is_from_1_to};
ghost use Rattle.fp_tables.specs.Instances as instances;
ghost use Rattle.fp_tables.specs.Names.{numbers_differ};
ghost use Rattle.fp_tables.specs.Positions.{link_lies, wire_lies};
ghost use Rattle.fp_tables.specs.Sound.{each_port, IsSoundWith};
ghost use Rattle.fp_tables.specs.declared.model.Model.{Model};
ghost use Rattle.fp_tables.specs.declared.topology.Topology.{Topology};
ghost use Rattle.fp_numbering.specs.Answers.{AreNumbered};
ghost use Rattle.fp_numbering.specs.Links.{LinksAreSound};

/// The two numbers of each wire are below the sizes of its ports, where each port has one number at least.
pub fn numbered_below_sizes()
    ensures { (m : Model) (o : Topology) → AreNumbered m o.links o.wires → list_all (link_lies m) o.links ≡ true → each_port (λ p. is_from_1_to 1024 p.size) m ≡ true
        → list_all (instances.is_numbered_below_sizes m o) o.wires ≡ true }
{}

/// No two wires begin at one port of one instance with one number.
pub fn beginnings_differ()
    ensures { (m : Model) (o : Topology) → AreNumbered m o.links o.wires → instances.beginnings_differ m o ≡ true }
{}

/// The ports of wires are ports, where those of the connections are.
pub fn wires_lie()
    ensures { (m : Model) (o : Topology) → AreNumbered m o.links o.wires → list_all (link_lies m) o.links ≡ true → list_all (wire_lies m) o.wires ≡ true }
{}

/// Wires join members of the topology, from outputs to inputs of one definition, where the connections do.
pub fn wires_are_as_links()
    ensures members { (m : Model) (o : Topology) → AreNumbered m o.links o.wires → LinksAreSound m o → list_all (instances.joins_members m o) o.wires ≡ true }
    ensures directions { (m : Model) (o : Topology) → AreNumbered m o.links o.wires → LinksAreSound m o → list_all (instances.goes_from_output_to_input m o) o.wires ≡ true }
    ensures definitions { (m : Model) (o : Topology) → AreNumbered m o.links o.wires → LinksAreSound m o → list_all (instances.joins_one_definition m o) o.wires ≡ true }
{}

/// A topology is sound with the numbers of its sound connections.
pub fn with_numbers_sound()
    ensures { (m : Model) (o : Topology) → AreNumbered m o.links o.wires → numbers_differ o.instances ≡ true → LinksAreSound m o → each_port (λ p. is_from_1_to 1024 p.size) m ≡ true
        → IsSoundWith m o }
{}
