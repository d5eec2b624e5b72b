ghost use Rattle.std.specs.Prelude.{◌≡◌, ◌||◌, ℕ, List, IfOk, OnOk};
ghost use Rattle.std.specs.Str.{bytes_eq};
ghost use Rattle.fp_base.specs.Least.{InSome, IsLeast};
ghost use Rattle.fp_base.specs.NameSets.{has_name};
ghost use Rattle.fp_tree.specs.declared.expression.Assignment.{Assignment as Given};
ghost use Rattle.fp_tree.specs.declared.part.Field.{Field as Member};
ghost use Rattle.fp_type_forms.specs.Broken.{RepeatsName};
ghost use Rattle.fp_type_forms.specs.Tested.{name_fault};

use fp_base::{NoMemory, Refusal, Rule, lesser, refusal_if};
use fp_tables::see;
use fp_tree::{Assignment, Field, Name};
use std::alloc::Global;
use std::collections::BTreeSet;

/// The least member of a struct type with the name of an earlier one.
pub fn repeated_field(alloc: Global, fields: &[Field]) -> Result<Option<Refusal>, NoMemory>
    ensures { IfOk result (IsLeast (InSome (RepeatsName (λ (m : Member). m.name) fields.now) fields.now)) }
{
    let mut seen = BTreeSet::new(alloc);
    let mut first = None;
    for field in fields {
        let again = note(&mut seen, &field.name)?;
        first = lesser(first, again);
    }
    Ok(first)
}

/// The least member of a struct expression with the name of an earlier one.
pub fn repeated_name(alloc: Global, members: &[Assignment]) -> Result<Option<Refusal>, NoMemory>
    ensures { IfOk result (IsLeast (InSome (RepeatsName (λ (m : Given). m.name) members.now) members.now)) }
{
    let mut seen = BTreeSet::new(alloc);
    let mut first = None;
    for member in members {
        let again = note(&mut seen, &member.name)?;
        first = lesser(first, again);
    }
    Ok(first)
}

/// What is broken at a name that was noted before; it is noted from here on.
fn note<'a>(seen: &mut BTreeSet<&'a str>, name: &'a Name) -> Result<Option<Refusal>, NoMemory>
    ensures again { IfOk result (λ again. again ≡ name_fault (has_name seen.old name.now.text) name.now.at.first) }
    ensures seen { OnOk result ((q : List ℕ) → has_name seen.new q ≡ (has_name seen.old q || bytes_eq q name.now.text)) }
{
    let again = see(seen, name.text.as_str())?;
    Ok(refusal_if(again, Rule::BadMember, name.at.first))
}
