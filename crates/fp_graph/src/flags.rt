ghost use Rattle.std.specs.Prelude.{◌≡◌, ◌<◌, Some, length, slice_get};

/// Whether a vertex is flagged.
pub fn is_flagged(flags: &[bool], vertex: usize) -> bool
    requires { vertex < length flags.now }
    ensures { slice_get flags.now vertex ≡ Some result }
{
    flags[vertex]
}
