ghost use Rattle.std.specs.Prelude.{◌≡◌, flat_map, map, IfOk};
ghost use Rattle.fp_base.specs.Least.{InSome, IsLeast};
ghost use Rattle.fp_consts.specs.Marked.{AreValues};
ghost use Rattle.fp_meaning.specs.declared.group.Group.TheVariants.{Kind};
ghost use Rattle.fp_meaning.specs.Meaning.{AreMeanings};
ghost use Rattle.fp_meaning.specs.Layout as layout;
ghost use Rattle.fp_meaning.specs.Names.{definitions, definitions_of, mentions, uses_of};
ghost use Rattle.fp_meaning.specs.Origins.{expressions};
ghost use Rattle.fp_meaning.specs.Uses.{BrokenByChains};
ghost use Rattle.fp_type_forms.specs.Resolved.{AreItemsOf, AreResolved};
ghost use Rattle.fp_type_forms.specs.Written.{AreWritten, types_of};
ghost use Rattle.fp_type_sizes.specs.Found.{AreExtents};
ghost use Rattle.fp_type_sizes.specs.Large.{IsTypeLarge};
ghost use Rattle.fp_types.specs.Faults.{IsBadDefault};
ghost use Rattle.fp_tree.specs.declared.source.Source.{Source as Files};
ghost use Rattle.fp_source_types.specs.Broken.{TypesBroken, WholesBroken};
ghost use Rattle.fp_source_types.specs.Measured.{IsMeasured};
ghost use Rattle.fp_source_types.specs.Places.{default_place, name_place};
ghost use Rattle.fp_source_types.specs.Typed.{AreTypesOf};

use crate::marks::TypeMarks;
use crate::measuring::{Measured, measured_in};
use crate::places::{default_places, name_places};
use fp_base::{NoMemory, Refusal, Value, lesser};
use fp_layout::{definitions_in, lay_out};
use fp_meaning::{Item, Marks};
use fp_tree::{Source, Uses};
use fp_type_forms::form_faults_in;
use fp_type_sizes::{TypeExtent, WrittenType, large_types};
use fp_types::{bad_defaults, given};
use fp_uses::{Users, chain_faults, sorted_uses};
use std::alloc::Global;

/// The types of a source, each where its form and its default exist, and the least rule that they break, from what its uses mean and the
/// values of its expressions. A rule that needs a missing value isn't broken for want of it.
pub fn types_all(
    alloc: Global,
    source: &Source,
    uses: &Uses,
    marks: &Marks,
) -> Result<TypeMarks, NoMemory>
    requires meanings { AreMeanings (definitions source.now) (mentions source.now) uses.now.meanings }
    requires values { AreValues source.now (expressions source.now) marks.now.at }
    ensures at { IfOk result (λ types. AreTypesOf source.now types.at) }
    ensures first { IfOk result (λ types. IsLeast (TypesBroken source.now) types.first) }
{
    types_from(alloc, source, uses, marks.at.as_slice())
}

/// The same from the values alone.
pub fn types_from(
    alloc: Global,
    source: &Source,
    uses: &Uses,
    values: &[Option<Value>],
) -> Result<TypeMarks, NoMemory>
    requires meanings { AreMeanings (definitions source.now) (mentions source.now) uses.now.meanings }
    requires values { AreValues source.now (expressions source.now) values.now }
    ensures at { IfOk result (λ types. AreTypesOf source.now types.at) }
    ensures first { IfOk result (λ types. IsLeast (TypesBroken source.now) types.first) }
{
    let layout = lay_out(alloc, source)?;
    let items = layout.items();
    types_in(alloc, items, uses, values)
}

/// The types of a source that is laid out flat: the same from its items.
pub fn types_in(
    alloc: Global,
    items: &[Item],
    uses: &Uses,
    values: &[Option<Value>],
) -> Result<TypeMarks, NoMemory>
    requires meanings { AreMeanings (flat_map definitions_of items.now) (flat_map uses_of items.now) uses.now.meanings }
    ensures at { IfOk result (λ types. (source : Files) → AreItemsOf source items.now uses.now.meanings values.now → AreTypesOf source types.at) }
    ensures first { IfOk result (λ types. (source : Files) → AreItemsOf source items.now uses.now.meanings values.now → IsLeast (TypesBroken source) types.first) }
{
    let measured = measured_in(alloc, items, uses, values)?;
    let types = types_measured(alloc, items, uses, values, &measured)?;
    Ok(types)
}

/// The same where what is written of the types is measured already.
pub fn types_measured(
    alloc: Global,
    items: &[Item],
    uses: &Uses,
    values: &[Option<Value>],
    measured: &Measured,
) -> Result<TypeMarks, NoMemory>
    requires meanings { AreMeanings (flat_map definitions_of items.now) (flat_map uses_of items.now) uses.now.meanings }
    requires measured { IsMeasured measured.now }
    ensures at { IfOk result (λ types. (source : Files) → AreWritten source measured.now.written → AreTypesOf source types.at) }
    ensures first { IfOk result (λ types. (source : Files) → items.now ≡ layout.items source → AreResolved source values.now measured.now.resolutions items.now 0 → AreWritten source measured.now.written → IsLeast (TypesBroken source) types.first) }
{
    let types = measured.written.as_slice();
    let sizes = measured.extents.as_slice();
    let resolutions = measured.resolutions.as_slice();
    let parts = form_faults_in(alloc, items, sizes, resolutions, values)?;
    let wholes = wholes_broken(alloc, items, uses, types, sizes)?;
    let first = lesser(parts, wholes);
    let found = measured.defaults.as_slice();
    let at = given(alloc, types, found)?;
    Ok(TypeMarks { at, first })
}

/// The least rule that types break each as a whole, by their names, their sizes and their defaults.
fn wholes_broken(
    alloc: Global,
    items: &[Item],
    uses: &Uses,
    types: &[WrittenType],
    sizes: &[Option<TypeExtent>],
) -> Result<Option<Refusal>, NoMemory>
    requires meanings { AreMeanings (flat_map definitions_of items.now) (flat_map uses_of items.now) uses.now.meanings }
    requires sizes { AreExtents types.now sizes.now }
    ensures { IfOk result (IsLeast (WholesBroken items.now types.now)) }
{
    let chains = chains_broken(alloc, items, uses)?;
    let large = sizes_broken(alloc, items, types, sizes)?;
    let unfit = defaults_broken(alloc, items, types, sizes)?;
    let of_values = lesser(large, unfit);
    Ok(lesser(chains, of_values))
}

/// The least of the cycles, and of the chains that are too long, of types.
fn chains_broken(alloc: Global, items: &[Item], uses: &Uses) -> Result<Option<Refusal>, NoMemory>
    requires { AreMeanings (flat_map definitions_of items.now) (flat_map uses_of items.now) uses.now.meanings }
    ensures { IfOk result (IsLeast (BrokenByChains items.now Kind)) }
{
    let chained = sorted_uses(alloc, items, uses)?;
    let row = definitions_in(alloc, items)?;
    let definitions = row.as_slice();
    Ok(chain_faults(definitions, &chained, Users::Types))
}

/// The first type that is too large.
fn sizes_broken(
    alloc: Global,
    items: &[Item],
    types: &[WrittenType],
    sizes: &[Option<TypeExtent>],
) -> Result<Option<Refusal>, NoMemory>
    requires { AreExtents types.now sizes.now }
    ensures { IfOk result (IsLeast (InSome (IsTypeLarge types.now) (map name_place (flat_map types_of items.now)))) }
{
    let row = name_places(alloc, items)?;
    let places = row.as_slice();
    if places.len() > u32::MAX as usize {
        return Err(NoMemory);
    }
    Ok(large_types(types, sizes, places))
}

/// The first default that doesn't convert to its type.
fn defaults_broken(
    alloc: Global,
    items: &[Item],
    types: &[WrittenType],
    sizes: &[Option<TypeExtent>],
) -> Result<Option<Refusal>, NoMemory>
    requires { AreExtents types.now sizes.now }
    ensures { IfOk result (IsLeast (InSome (IsBadDefault types.now) (map default_place (flat_map types_of items.now)))) }
{
    let row = default_places(alloc, items)?;
    let places = row.as_slice();
    if places.len() > u32::MAX as usize {
        return Err(NoMemory);
    }
    Ok(bad_defaults(types, sizes, places))
}
