ghost use Rattle.std.specs.Prelude.{◌≡◌, ◌↔◌, IsTrue, IfOk};

use crate::memory::NoMemory;
use crate::row::Row;
use crate::text::Text;
use std::alloc::Global;

/// A value of the language.
#[cycle(value)]
#[derive(Drop)]
pub enum Value {
    Int(i128),
    Bool(bool),
    Text(Text),
    /// The constant `constant` of the enum with the qualified name `of`, which stands for `number`.
    Enumerated {
        of: Text,
        constant: Text,
        number: i128,
    },
    Array(Row<Value>),
    Struct(Row<MemberValue>),
    /// The one value of an abstract type.
    Opaque,
}

/// A member of a struct value.
#[cycle(value)]
#[derive(Drop)]
pub struct MemberValue {
    pub name: Text,
    pub value: Value,
}

impl Value {
    /// Whether two values are equal; an enumerated constant by its enum, its name and its number.
    #[cycle(same)]
    pub fn same(&self, other: &Value) -> bool
        ensures { IsTrue result ↔ (self.now ≡ other.now) }
    {
        match (self, other) {
            (Value::Int(left), Value::Int(right)) => *left == *right,
            (Value::Bool(left), Value::Bool(right)) => *left == *right,
            (Value::Text(left), Value::Text(right)) => left.same(right),
            (
                Value::Enumerated {
                    of: left_of,
                    constant: left,
                    number: left_number,
                },
                Value::Enumerated {
                    of: right_of,
                    constant: right,
                    number: right_number,
                },
            ) => left_of.same(right_of) && left.same(right) && *left_number == *right_number,
            (Value::Array(left), Value::Array(right)) => same_items(
                left.as_slice(),
                right.as_slice(),
            ),
            (Value::Struct(left), Value::Struct(right)) => same_parts(
                left.as_slice(),
                right.as_slice(),
            ),
            (Value::Opaque, Value::Opaque) => true,
            _ => false,
        }
    }

    #[cycle(copy)]
    pub fn copy(&self, alloc: Global) -> Result<Value, NoMemory>
        ensures { IfOk result (λ value. value ≡ self.now) }
    {
        match self {
            Value::Int(number) => Ok(Value::Int(*number)),
            Value::Bool(truth) => Ok(Value::Bool(*truth)),
            Value::Text(text) => Ok(Value::Text(text.copy(alloc)?)),
            Value::Enumerated {
                of,
                constant,
                number,
            } => {
                let of = of.copy(alloc)?;
                let constant = constant.copy(alloc)?;
                Ok(Value::Enumerated {
                    of,
                    constant,
                    number: *number,
                })
            }
            Value::Array(items) => Ok(Value::Array(copy_items(alloc, items.as_slice())?)),
            Value::Struct(parts) => Ok(Value::Struct(copy_parts(alloc, parts.as_slice())?)),
            Value::Opaque => Ok(Value::Opaque),
        }
    }
}

#[cycle(same)]
fn same_items(left: &[Value], right: &[Value]) -> bool
    ensures { IsTrue result ↔ (left.now ≡ right.now) }
{
    if left.len() != right.len() {
        return false;
    }
    for (item, other) in left.iter().zip(right) {
        if !item.same(other) {
            return false;
        }
    }
    true
}

#[cycle(same)]
fn same_parts(left: &[MemberValue], right: &[MemberValue]) -> bool
    ensures { IsTrue result ↔ (left.now ≡ right.now) }
{
    if left.len() != right.len() {
        return false;
    }
    for (part, other) in left.iter().zip(right) {
        if !(part.name.same(&other.name) && part.value.same(&other.value)) {
            return false;
        }
    }
    true
}

#[cycle(copy)]
fn copy_items(alloc: Global, items: &[Value]) -> Result<Row<Value>, NoMemory>
    ensures { IfOk result (λ row. row ≡ items.now) }
{
    let mut row = Row::new(alloc);
    for item in items {
        row.push(item.copy(alloc)?)?;
    }
    Ok(row)
}

#[cycle(copy)]
fn copy_parts(alloc: Global, parts: &[MemberValue]) -> Result<Row<MemberValue>, NoMemory>
    ensures { IfOk result (λ row. row ≡ parts.now) }
{
    let mut row = Row::new(alloc);
    for part in parts {
        let name = part.name.copy(alloc)?;
        let value = part.value.copy(alloc)?;
        row.push(MemberValue { name, value })?;
    }
    Ok(row)
}
