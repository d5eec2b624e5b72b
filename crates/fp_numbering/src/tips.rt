ghost use Rattle.std.specs.Prelude.{◌≡◌, IfOk, true};
ghost use Rattle.fp_numbering.specs.Ends.{size_of, from_tip, to_tip, tips_of};

use fp_base::{NoMemory, Place, Row};
use fp_tables::{Link, Model, Written};
use std::alloc::Global;

/// An end of a connection: its port and that port's size, the instance at the other end, whether the connection begins here, the written number,
/// whether the connection is left out of matches, and its place.
#[derive(Clone, Copy)]
pub struct Tip {
    pub instance: u32,
    pub port: u32,
    pub size: u32,
    pub other: u32,
    pub begins: bool,
    pub written: Option<Written>,
    pub unmatched: bool,
    pub at: Place,
}

/// The size of a port of an instance, 0 where there is none.
pub fn size_of(model: &Model, instance: u32, port: u32) -> u32
    ensures { result ≡ size_of model.now instance port }
{
    let Some(instance) = model.instances.get(instance as usize) else {
        return 0;
    };
    let Some(component) = model.components.get(instance.component as usize) else {
        return 0;
    };
    match component.ports.get(port as usize) {
        Some(port) => port.size,
        None => 0,
    }
}

fn from_tip(model: &Model, link: Link) -> Tip
    ensures { result ≡ from_tip model.now link }
{
    Tip {
        instance: link.from,
        port: link.from_port,
        size: size_of(model, link.from, link.from_port),
        other: link.to,
        begins: true,
        written: link.from_number,
        unmatched: link.unmatched,
        at: link.at,
    }
}

fn to_tip(model: &Model, link: Link) -> Tip
    ensures { result ≡ to_tip model.now link }
{
    Tip {
        instance: link.to,
        port: link.to_port,
        size: size_of(model, link.to, link.to_port),
        other: link.from,
        begins: false,
        written: link.to_number,
        unmatched: link.unmatched,
        at: link.at,
    }
}

/// The ends of connections in their order.
pub fn tips_of(alloc: Global, model: &Model, links: &[Link]) -> Result<Row<Tip>, NoMemory>
    ensures { IfOk result (λ tips. tips ≡ tips_of model.now links.now) }
{
    let mut tips = Row::new(alloc);
    for link in links {
        tips.push(from_tip(model, *link))?;
        tips.push(to_tip(model, *link))?;
    }
    Ok(tips)
}
