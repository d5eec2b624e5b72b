ghost use Rattle.std.specs.Prelude.{◌≡◌, ℕ, List, IfOk, map};
ghost use Rattle.fp_tables.specs.Names.{texts_differ, numbers_differ};

use fp_base::{NoMemory, Row, Text};
use fp_tables::{
    Channel, Command, Constant, Event, Field, Formal, Instance, Named, Numbered, Param, Port,
    Running, TypeDef, all_differ, numbers_differ,
};
use std::alloc::Global;

/// What has a name.
pub trait Called {
    ghost name_of: { Self → List ℕ };

    fn name(&self) -> &Text
        ensures { result.now ≡ name_of self.now };
}

impl Called for Port {
    ghost name_of = { λ called. called.name };

    fn name(&self) -> &Text {
        &self.name
    }
}

impl Called for Command {
    ghost name_of = { λ called. called.name };

    fn name(&self) -> &Text {
        &self.name
    }
}

impl Called for Event {
    ghost name_of = { λ called. called.name };

    fn name(&self) -> &Text {
        &self.name
    }
}

impl Called for Channel {
    ghost name_of = { λ called. called.name };

    fn name(&self) -> &Text {
        &self.name
    }
}

impl Called for Param {
    ghost name_of = { λ called. called.name };

    fn name(&self) -> &Text {
        &self.name
    }
}

impl Called for Running {
    ghost name_of = { λ called. called.name };

    fn name(&self) -> &Text {
        &self.name
    }
}

impl Called for Formal {
    ghost name_of = { λ called. called.name };

    fn name(&self) -> &Text {
        &self.name
    }
}

impl Called for Field {
    ghost name_of = { λ called. called.name };

    fn name(&self) -> &Text {
        &self.name
    }
}

impl Called for Constant {
    ghost name_of = { λ called. called.name };

    fn name(&self) -> &Text {
        &self.name
    }
}

impl Called for TypeDef {
    ghost name_of = { λ called. called.name };

    fn name(&self) -> &Text {
        &self.name
    }
}

impl Called for Named {
    ghost name_of = { λ called. called.name };

    fn name(&self) -> &Text {
        &self.name
    }
}

impl Called for Instance {
    ghost name_of = { λ called. called.name };

    fn name(&self) -> &Text {
        &self.name
    }
}

/// Whether no two have one name.
pub fn names_differ<T: Called>(alloc: Global, items: &Row<T>) -> Result<bool, NoMemory>
    ensures { IfOk result (λ differ. differ ≡ texts_differ (map T.name_of items.now)) }
{
    let names = names_of(alloc, items.as_slice())?;
    all_differ(alloc, names)
}

fn names_of<'a, T: Called>(alloc: Global, items: &'a [T]) -> Result<Vec<&'a str>, NoMemory>
    ensures { IfOk result (λ names. map (λ name. name.now) names.items ≡ map T.name_of items.now) }
{
    let mut names = Vec::with_capacity(alloc, items.len())?;
    for item in items {
        names.push(item.name().as_str())?;
    }
    Ok(names)
}

/// Whether no two have one opcode or id.
pub fn ids_differ<T: Numbered>(alloc: Global, items: &Row<T>) -> Result<bool, NoMemory>
    ensures { IfOk result (λ differ. differ ≡ numbers_differ (map T.number_of items.now)) }
{
    let numbers = numbers_of(alloc, items.as_slice())?;
    numbers_differ(alloc, numbers)
}

fn numbers_of<T: Numbered>(alloc: Global, items: &[T]) -> Result<Vec<u32>, NoMemory>
    ensures { IfOk result (λ numbers. numbers.items ≡ map T.number_of items.now) }
{
    let mut numbers = Vec::with_capacity(alloc, items.len())?;
    for item in items {
        numbers.push(item.number())?;
    }
    Ok(numbers)
}
