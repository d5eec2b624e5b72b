ghost use Rattle.std.specs.Prelude.{List};
ghost use Rattle.fp_base.specs.Least.{IsUnbroken};
ghost use Rattle.fp_written_parts.specs.declared.member.WrittenComponent.{WrittenComponent};
ghost use Rattle.fp_written_parts.specs.declared.member.WrittenInterface.{WrittenInterface};
ghost use Rattle.fp_component_rules.specs.Broken.{ComponentsBroken};
ghost use Rattle.fp_component_rules.specs.Consistent.{AreConsistent};

/// Where no rule on wholes is broken, imports are on no cycle, names and special kinds are apart, passive components have nothing that waits, and matches
/// name two ports of one size.
pub fn unbroken_are_consistent()
    ensures { (interfaces : List WrittenInterface) (components : List WrittenComponent) → IsUnbroken (ComponentsBroken interfaces components) → AreConsistent interfaces components }
{}
