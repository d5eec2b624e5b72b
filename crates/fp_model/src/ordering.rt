ghost use Rattle.std.specs.Prelude.{◌≡◌, ◌+◌, ◌++◌, ◌∷◌, [], IfOk, List};
ghost use Rattle.fp_meaning.specs.declared.item.Item.{Item as Laid};
ghost use Rattle.fp_meaning.specs.Read.{read};
ghost use Rattle.fp_tables.specs.declared.model.Item.TheVariants.{Component, Instance, Machine, Topology};
ghost use Rattle.fp_model.specs.Counted.{counted, counted_model, none_before, order_by, order_by_model, order_from};
ghost use Rattle.fp_model.specs.Definitions.{order_behind};

use fp_base::{NoMemory, Row};
use fp_meaning::{Item, ModelDef};
use fp_tables::Item as Ordered;
use fp_tree::Def;
use std::alloc::Global;

/// How many definitions of each sort stand before an item.
#[derive(Clone, Copy)]
pub struct Counts {
    pub constants: u32,
    pub kinds: u32,
    pub ports: u32,
    pub components: u32,
    pub machines: u32,
    pub instances: u32,
    pub topologies: u32,
}

/// The definitions among items, in their order. Want of memory where so many of one sort have no number.
pub fn order_among(alloc: Global, items: &[Item]) -> Result<Row<Ordered>, NoMemory>
    ensures { IfOk result (λ row. row ≡ order_behind [] items.now) }
{
    ordered(alloc, items)
}

fn ordered(alloc: Global, items: &[Item]) -> Result<Row<Ordered>, NoMemory>
    ensures { IfOk result (λ row. row ≡ order_from none_before items.now) }
{
    let mut found = Row::new(alloc);
    let mut counts = none_before();
    for item in items {
        counts = add_item(item, counts, &mut found)?;
    }
    Ok(found)
}

fn none_before() -> Counts
    ensures { result ≡ none_before }
{
    Counts {
        constants: 0,
        kinds: 0,
        ports: 0,
        components: 0,
        machines: 0,
        instances: 0,
        topologies: 0,
    }
}

fn add_item(item: &Item, before: Counts, found: &mut Row<Ordered>) -> Result<Counts, NoMemory>
    ensures { IfOk result (λ after. (later : List Laid) → found.old ++ order_from before (item.now ∷ later) ≡ found.new ++ order_from after later) }
{
    match item {
        Item::Defined(sited) => add_definition(sited.definition(), before, found),
        Item::Enumerated(_) => Ok(before),
        Item::Declared(declared) => add_declared(declared.definition(), before, found),
        Item::Used { .. } => Ok(before),
        Item::Written { .. } => Ok(before),
    }
}

fn add_definition(
    definition: &Def,
    before: Counts,
    found: &mut Row<Ordered>,
) -> Result<Counts, NoMemory>
    ensures found { IfOk result (λ after. found.new ≡ found.old ++ order_by before definition.now ∷ []) }
    ensures counts { IfOk result (λ after. after ≡ counted before definition.now) }
{
    found.push(order_by(definition, before))?;
    counted(definition, before)
}

/// What is declared is listed, but for interfaces.
fn add_declared(
    definition: ModelDef,
    before: Counts,
    found: &mut Row<Ordered>,
) -> Result<Counts, NoMemory>
    ensures found { IfOk result (λ after. found.new ≡ found.old ++ order_by_model before (read definition.entry)) }
    ensures counts { IfOk result (λ after. after ≡ counted_model before (read definition.entry)) }
{
    match definition {
        ModelDef::Machine(_) => add_machine(before, found),
        ModelDef::Component(_) => add_component(before, found),
        ModelDef::Interface(_) => Ok(before),
        ModelDef::Instance(_) => add_instance(before, found),
        ModelDef::Topology(_) => add_topology(before, found),
    }
}

fn add_component(before: Counts, found: &mut Row<Ordered>) -> Result<Counts, NoMemory>
    ensures found { IfOk result (λ after. found.new ≡ found.old ++ Component before.components ∷ []) }
    ensures counts { IfOk result (λ after. after ≡ record before { components = before.components + 1 }) }
{
    found.push(Ordered::Component(before.components))?;
    let components = one_more(before.components)?;
    Ok(Counts {
        components,
        ..before
    })
}

fn add_machine(before: Counts, found: &mut Row<Ordered>) -> Result<Counts, NoMemory>
    ensures found { IfOk result (λ after. found.new ≡ found.old ++ Machine before.machines ∷ []) }
    ensures counts { IfOk result (λ after. after ≡ record before { machines = before.machines + 1 }) }
{
    found.push(Ordered::Machine(before.machines))?;
    let machines = one_more(before.machines)?;
    Ok(Counts { machines, ..before })
}

fn add_instance(before: Counts, found: &mut Row<Ordered>) -> Result<Counts, NoMemory>
    ensures found { IfOk result (λ after. found.new ≡ found.old ++ Instance before.instances ∷ []) }
    ensures counts { IfOk result (λ after. after ≡ record before { instances = before.instances + 1 }) }
{
    found.push(Ordered::Instance(before.instances))?;
    let instances = one_more(before.instances)?;
    Ok(Counts {
        instances,
        ..before
    })
}

fn add_topology(before: Counts, found: &mut Row<Ordered>) -> Result<Counts, NoMemory>
    ensures found { IfOk result (λ after. found.new ≡ found.old ++ Topology before.topologies ∷ []) }
    ensures counts { IfOk result (λ after. after ≡ record before { topologies = before.topologies + 1 }) }
{
    found.push(Ordered::Topology(before.topologies))?;
    let topologies = one_more(before.topologies)?;
    Ok(Counts {
        topologies,
        ..before
    })
}

fn order_by(definition: &Def, before: Counts) -> Ordered
    ensures { result ≡ order_by before definition.now }
{
    match definition {
        Def::Constant(_) => Ordered::Constant(before.constants),
        Def::Abstract(_) => Ordered::Kind(before.kinds),
        Def::Alias(_) => Ordered::Kind(before.kinds),
        Def::Array(_) => Ordered::Kind(before.kinds),
        Def::Struct(_) => Ordered::Kind(before.kinds),
        Def::Enum(_) => Ordered::Kind(before.kinds),
        Def::Port(_) => Ordered::Port(before.ports),
    }
}

fn counted(definition: &Def, before: Counts) -> Result<Counts, NoMemory>
    ensures { IfOk result (λ after. after ≡ counted before definition.now) }
{
    match definition {
        Def::Constant(_) => with_constant(before),
        Def::Abstract(_) => with_kind(before),
        Def::Alias(_) => with_kind(before),
        Def::Array(_) => with_kind(before),
        Def::Struct(_) => with_kind(before),
        Def::Enum(_) => with_kind(before),
        Def::Port(_) => with_port(before),
    }
}

fn with_constant(before: Counts) -> Result<Counts, NoMemory>
    ensures { IfOk result (λ after. after ≡ record before { constants = before.constants + 1 }) }
{
    let constants = one_more(before.constants)?;
    Ok(Counts {
        constants,
        ..before
    })
}

fn with_kind(before: Counts) -> Result<Counts, NoMemory>
    ensures { IfOk result (λ after. after ≡ record before { kinds = before.kinds + 1 }) }
{
    let kinds = one_more(before.kinds)?;
    Ok(Counts { kinds, ..before })
}

fn with_port(before: Counts) -> Result<Counts, NoMemory>
    ensures { IfOk result (λ after. after ≡ record before { ports = before.ports + 1 }) }
{
    let ports = one_more(before.ports)?;
    Ok(Counts { ports, ..before })
}

fn one_more(count: u32) -> Result<u32, NoMemory>
    ensures { IfOk result (λ more. more ≡ count + 1) }
{
    match count.checked_add(1) {
        Some(more) => Ok(more),
        None => Err(NoMemory),
    }
}
