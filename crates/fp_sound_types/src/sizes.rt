ghost use Rattle.std.specs.Prelude.{◌≡◌, min, max};
ghost use Rattle.std.specs.List.{fold, sum_by};
ghost use Rattle.fp_base.specs.declared.value.MemberValue.{MemberValue};
ghost use Rattle.fp_tables.specs.Types.{leaves, levels, is_of_size};

use fp_base::{MemberValue, Value};

/// The first number of leaves that a value may not have.
const MANY_LEAVES: u32 = 65_537;

/// The first number of levels that a value may not have.
const MANY_LEVELS: u32 = 65;

/// How many leaves a value has, or that they are many.
#[cycle(leaves)]
fn leaves(value: &Value) -> u32
    ensures { result ≡ min (leaves value.now) 65537 }
{
    match value {
        Value::Array(items) => items_leaves(items.as_slice()).max(1),
        Value::Struct(parts) => parts_leaves(parts.as_slice()).max(1),
        _ => 1,
    }
}

#[cycle(leaves)]
fn items_leaves(items: &[Value]) -> u32
    ensures { result ≡ min (sum_by leaves items.now) 65537 }
{
    let mut count = 0;
    for item in items {
        count = (count + leaves(item)).min(MANY_LEAVES);
    }
    count
}

#[cycle(leaves)]
fn parts_leaves(parts: &[MemberValue]) -> u32
    ensures { result ≡ min (sum_by (λ (part : MemberValue). leaves part.value) parts.now) 65537 }
{
    let mut count = 0;
    for part in parts {
        count = (count + leaves(&part.value)).min(MANY_LEAVES);
    }
    count
}

/// How many levels a value has, or that they are many.
#[cycle(levels)]
fn levels(value: &Value) -> u32
    ensures { result ≡ min (levels value.now) 65 }
{
    match value {
        Value::Array(items) => (items_levels(items.as_slice()) + 1).min(MANY_LEVELS),
        Value::Struct(parts) => (parts_levels(parts.as_slice()) + 1).min(MANY_LEVELS),
        _ => 1,
    }
}

#[cycle(levels)]
fn items_levels(items: &[Value]) -> u32
    ensures { result ≡ min (fold (λ most value. max most (levels value)) 0 items.now) 65 }
{
    let mut most = 0;
    for item in items {
        most = levels(item).max(most);
    }
    most
}

#[cycle(levels)]
fn parts_levels(parts: &[MemberValue]) -> u32
    ensures { result ≡ min (fold (λ most (part : MemberValue). max most (levels part.value)) 0 parts.now) 65 }
{
    let mut most = 0;
    for part in parts {
        most = levels(&part.value).max(most);
    }
    most
}

/// Whether a value has at most 65,536 leaves and 64 levels.
pub fn is_of_size(value: &Value) -> bool
    ensures { result ≡ is_of_size value.now }
{
    leaves(value) < MANY_LEAVES && levels(value) < MANY_LEVELS
}
