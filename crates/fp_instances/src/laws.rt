ghost use Rattle.std.specs.Prelude.{◌≡◌, ℕ, List, Some, slice_get};
ghost use Rattle.fp_base.specs.Least.{IsUnbroken};
ghost use Rattle.fp_instances.specs.Broken.{InstancesBroken};
ghost use Rattle.fp_instances.specs.Numbers.{AreWithin};
ghost use Rattle.fp_tables.specs.declared.component.Component.{Component};
ghost use Rattle.fp_written_parts.specs.Given.{InstanceHasNumbers};
ghost use Rattle.fp_written_parts.specs.declared.instance.WrittenInstance.{WrittenInstance};

/// Where instances break no rule, and each expression has a number, the numbers have the sizes that they have in a model.
pub fn unbroken_are_within()
    ensures { (components : List Component) (written : List WrittenInstance) → IsUnbroken (InstancesBroken components written)
        → ((k : ℕ) (w : WrittenInstance) → slice_get written k ≡ Some w → InstanceHasNumbers w) → AreWithin written }
{}
