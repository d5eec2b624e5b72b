ghost use Rattle.std.specs.Prelude.{◌≡◌, ◌<◌, ◌^◌, true, IfOk, OnOk, length};
ghost use Rattle.fp_base.specs.Least.{IsUnbroken};
ghost use Rattle.fp_consts.specs.Marked.{AreValues};
ghost use Rattle.fp_meaning.specs.Broken.{BrokenByDefinitions};
ghost use Rattle.fp_meaning.specs.Meaning.{AreMeanings};
ghost use Rattle.fp_meaning.specs.Names.{definitions, mentions};
ghost use Rattle.fp_meaning.specs.Origins.{expressions};
ghost use Rattle.fp_source_types.specs.Listed.{EnumsHaveConstants};
ghost use Rattle.fp_type_sizes.specs.Earlier.{uses_earlier as each_uses_earlier};
ghost use Rattle.fp_type_sizes.specs.Found.{IsTypeOrder};

use crate::models::source_of;
use fp_base::{NoMemory, Refusal, Row, Value};
use fp_consts::{evaluate, evaluate_all};
use fp_names::{Names, collect, uses};
use fp_source_types::{resolve_types, types_all};
use fp_tables::{Kind, TypeDef};
use fp_tree::{Source, Uses};
use fp_type_formats::format_faults;
use fp_type_forms::{form_faults, part_faults, types_written};
use fp_type_sizes::{WrittenType, extents, own_order, uses_earlier};
use fp_types::{convert, defaults, types_of};
use fp_uses::use_faults;
use std::alloc::Global;
use std::test::Fail;

const TYPES: &str = "constant a = 2
array A = [a] U8 default [3, 4]
enum E { X, Y }
";

const TWO_NUMBERS: &str = "enum E { A = 1, B = 1 }\n";

const CYCLE: &str = "array A = [2] A\n";

const BRACE: &str = "array A = [2] U8 format \"{\"\n";

// More than any source here has.
const MOST_TYPES: usize = 100;

fn names_of(alloc: Global, source: &Source) -> Result<Names, NoMemory>
    ensures names { IfOk result (λ names. names ≡ definitions source.now) }
    ensures once { OnOk result (IsUnbroken (BrokenByDefinitions source.now)) }
{
    match collect(alloc, source) {
        Ok(names) => Ok(names),
        Err(_) => Err(NoMemory),
    }
}

fn uses_of(alloc: Global, source: &Source) -> Result<Uses, NoMemory>
    ensures once { OnOk result (IsUnbroken (BrokenByDefinitions source.now)) }
    ensures meanings { IfOk result (λ uses. AreMeanings (definitions source.now) (mentions source.now) uses.meanings) }
{
    let names = names_of(alloc, source)?;
    match uses(alloc, source, &names) {
        Ok(uses) => Ok(uses),
        Err(_) => Err(NoMemory),
    }
}

// ---- types, none of which uses a later one

fn order_of(alloc: Global, types: &[WrittenType]) -> Result<Vec<usize>, NoMemory>
    ensures few { OnOk result (length types.now < 2 ^ 32) }
    ensures earlier { OnOk result (each_uses_earlier types.now ≡ true) }
    ensures order { IfOk result (λ order. IsTypeOrder types.now order.items) }
{
    let earlier = uses_earlier(types);
    if !earlier || types.len() > MOST_TYPES {
        return Err(NoMemory);
    }
    own_order(alloc, types)
}

fn form_fault(
    alloc: Global,
    source: &Source,
    uses: &Uses,
    marks: &[Option<Value>],
) -> Result<Option<Refusal>, NoMemory>
    requires meanings { AreMeanings (definitions source.now) (mentions source.now) uses.now.meanings }
    requires values { AreValues source.now (expressions source.now) marks.now }
{
    let written = types_written(alloc, source, uses, marks)?;
    let order = order_of(alloc, written.as_slice())?;
    let sizes = extents(alloc, written.as_slice(), order.as_slice())?;
    form_faults(alloc, source, uses, marks, sizes.as_slice())
}

/// What a number becomes in the first type.
fn converted(
    alloc: Global,
    types: &[WrittenType],
    number: i128,
) -> Result<Option<Value>, NoMemory> {
    let order = order_of(alloc, types)?;
    let sizes = extents(alloc, types, order.as_slice())?;
    let known = defaults(alloc, types, sizes.as_slice(), order.as_slice())?;
    let value = Value::Int(number);
    match convert(
        alloc,
        types,
        sizes.as_slice(),
        known.as_slice(),
        &value,
        Kind::Named(0),
    ) {
        Ok(value) => Ok(Some(value)),
        Err(_) => Ok(None),
    }
}

/// The default of the last type.
fn last_default(alloc: Global, types: &[WrittenType]) -> Result<Option<Value>, NoMemory> {
    let order = order_of(alloc, types)?;
    let given = types_of(alloc, types, order.as_slice())?;
    match given.as_slice().last() {
        Some(Some(last)) => Ok(Some(last.default.copy(alloc)?)),
        _ => Ok(None),
    }
}

// ---- what a source breaks

/// Line and column of what a source breaks first.
type Fault = Option<(u32, u32)>;

fn told(refusal: Option<Refusal>) -> Fault {
    refusal.map(|refusal| (refusal.place.line, refusal.place.column))
}

/// What is broken by the uses of a source, by the parts of its types, and by what is written of them.
fn faults_with(alloc: Global, source: &Source, uses: &Uses) -> Result<[Fault; 3], NoMemory>
    requires { AreMeanings (definitions source.now) (mentions source.now) uses.now.meanings }
{
    let of_uses = use_faults(alloc, source, uses)?;
    let marks = evaluate_all(alloc, source, uses)?;
    let of_parts = part_faults(alloc, source, uses, marks.at.as_slice())?;
    let of_forms = form_fault(alloc, source, uses, marks.at.as_slice())?;
    Ok([told(of_uses), told(of_parts), told(of_forms)])
}

fn faults_of(alloc: Global, text: &str) -> Result<[Fault; 3], NoMemory> {
    let source = source_of(alloc, text)?;
    let uses = uses_of(alloc, &source)?;
    faults_with(alloc, &source, &uses)
}

fn format_fault(alloc: Global, text: &str) -> Result<Fault, NoMemory> {
    let source = source_of(alloc, text)?;
    let names = names_of(alloc, &source)?;
    Ok(told(format_faults(alloc, &source, &names)?))
}

#[test]
fn the_first_fault_is_found(rt: HostRuntime) -> Result<(), Fail> {
    let alloc = rt.alloc();
    assert_eq!(rt; faults_of(alloc, TYPES)?, [None, None, None]);
    assert_eq!(rt; faults_of(alloc, CYCLE)?, [Some((1, 7)), None, None]);
    assert_eq!(rt;
        faults_of(alloc, TWO_NUMBERS)?,
        [None, Some((1, 17)), Some((1, 17))]
    );
    assert_eq!(rt; format_fault(alloc, TYPES)?, None);
    assert_eq!(rt; format_fault(alloc, BRACE)?, Some((1, 25)));
    Ok(())
}

// ---- what a source gives

fn written_in(alloc: Global, source: &Source, uses: &Uses) -> Result<Row<WrittenType>, NoMemory>
    requires { AreMeanings (definitions source.now) (mentions source.now) uses.now.meanings }
{
    let marks = evaluate_all(alloc, source, uses)?;
    types_written(alloc, source, uses, marks.at.as_slice())
}

fn written_of(alloc: Global, text: &str) -> Result<Row<WrittenType>, NoMemory> {
    let source = source_of(alloc, text)?;
    let uses = uses_of(alloc, &source)?;
    written_in(alloc, &source, &uses)
}

fn is_text(alloc: Global, value: &Value, text: &str) -> Result<bool, NoMemory> {
    let mut out = Row::new(alloc);
    value.print(alloc, &mut out)?;
    Ok(out.as_slice() == text.as_bytes())
}

#[test]
fn values_become_those_of_types(rt: HostRuntime) -> Result<(), Fail> {
    let alloc = rt.alloc();
    let types = written_of(alloc, TYPES)?;
    let value = converted(alloc, types.as_slice(), 7)?.ok_or("a value")?;
    assert!(rt; is_text(alloc, &value, "[7, 7]")?);
    assert!(rt; converted(alloc, types.as_slice(), 256)?.is_none());
    let last = last_default(alloc, types.as_slice())?.ok_or("a default")?;
    assert!(rt; is_text(alloc, &last, "X")?);
    Ok(())
}

/// How many types a source has that exist, where it breaks no rule of types.
fn count_with(alloc: Global, source: &Source, uses: &Uses) -> Result<Option<usize>, NoMemory>
    requires { AreMeanings (definitions source.now) (mentions source.now) uses.now.meanings }
{
    let marks = evaluate_all(alloc, source, uses)?;
    let types = types_all(alloc, source, uses, &marks)?;
    if types.first.is_some() {
        return Ok(None);
    }
    Ok(Some(types.at.iter().filter(|it| it.is_some()).count()))
}

/// The types of a source.
fn types_with(alloc: Global, source: &Source, uses: &Uses) -> Result<Row<TypeDef>, NoMemory>
    requires names { IsUnbroken (BrokenByDefinitions source.now) }
    requires meanings { AreMeanings (definitions source.now) (mentions source.now) uses.now.meanings }
    requires enumerations { EnumsHaveConstants source.now }
{
    let Ok(values) = evaluate(alloc, source, uses) else {
        return Err(NoMemory);
    };
    match resolve_types(alloc, source, uses, &values) {
        Ok(types) => Ok(types),
        Err(_) => Err(NoMemory),
    }
}

fn types_in(alloc: Global, source: &Source) -> Result<(Option<usize>, Row<TypeDef>), NoMemory>
    requires { EnumsHaveConstants source.now }
{
    let uses = uses_of(alloc, source)?;
    let count = count_with(alloc, source, &uses)?;
    let types = types_with(alloc, source, &uses)?;
    Ok((count, types))
}

fn types_of_text(alloc: Global, text: &str) -> Result<(Option<usize>, Row<TypeDef>), NoMemory> {
    let source = source_of(alloc, text)?;
    types_in(alloc, &source)
}

#[test]
fn types_are_resolved(rt: HostRuntime) -> Result<(), Fail> {
    let (count, types) = types_of_text(rt.alloc(), TYPES)?;
    assert_eq!(rt; count, Some(2));
    assert_eq!(rt; types.len(), 2);
    let first = types.get(0).ok_or("a type")?;
    assert_eq!(rt; first.name.as_str(), "A");
    assert!(rt; is_text(rt.alloc(), &first.default, "[3, 4]")?);
    Ok(())
}
