ghost use Rattle.std.specs.Prelude.{◌≡◌, ℕ, List, Some, slice_get};
ghost use Rattle.fp_base.specs.Least.{IsUnbroken};
ghost use Rattle.fp_meaning.specs.declared.item.Item.{Item};
ghost use Rattle.fp_type_formats.specs.Broken.{BrokenByFormats};
ghost use Rattle.fp_type_formats.specs.Readable.{AreReadable};

/// Where formats break no rule, each reads as pieces, and these take the values that it is the format of.
pub fn unbroken_formats_read()
    ensures { (is : List Item) → IsUnbroken (BrokenByFormats is) → (k : ℕ) (i : Item) → slice_get is k ≡ Some i → AreReadable is i }
{}
