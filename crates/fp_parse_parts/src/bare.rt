use fp_base::{Row, Span};
use fp_tree::{Component, Def, Instance, Interface, Machine, Member, Name, Qual, Str, Topology};

/// A member without its annotation.
#[derive(Drop)]
pub enum BareMember {
    Module {
        name: Name,
        members: Row<Member>,
        at: Span,
    },
    Def(Def),
    Model(ModelMember),
    Include {
        file: Str,
        at: Span,
    },
    Locate {
        of: Qual,
        file: Str,
        at: Span,
    },
}

/// A member that says what a model is put together from, without its annotation.
#[derive(Drop)]
pub enum ModelMember {
    Machine(Machine),
    Component(Component),
    Interface(Interface),
    Instance(Instance),
    Topology(Topology),
}
