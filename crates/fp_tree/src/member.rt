use crate::component::{Component, Interface};
use crate::definition::Def;
use crate::instance::Instance;
use crate::machine::Machine;
use crate::name::{Name, Qual, Str};
use crate::topology::Topology;
use fp_base::{Row, Span, Text};

/// What one file holds.
#[derive(Drop)]
pub struct Unit {
    pub members: Row<Member>,
}

/// A member of a file or of a module.
#[cycle(member)]
#[derive(Drop)]
pub enum Member {
    Module(Module),
    Def(Def),
    Machine(Machine),
    Component(Component),
    Interface(Interface),
    Instance(Instance),
    Topology(Topology),
    Include(Include),
    Locate(Locate),
}

/// Members under a name.
#[cycle(member)]
#[derive(Drop)]
pub struct Module {
    pub name: Name,
    pub members: Row<Member>,
    pub at: Span,
    pub note: Text,
}

/// A file whose members stand here.
#[derive(Drop)]
pub struct Include {
    pub file: Str,
    pub at: Span,
    pub note: Text,
}

/// Where a definition is to be found.
#[derive(Drop)]
pub struct Locate {
    pub of: Qual,
    pub file: Str,
    pub at: Span,
    pub note: Text,
}
