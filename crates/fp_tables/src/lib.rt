//! The resolved model, the tables of a run and its program, what of these is looked up, and what it is that they are sound.
#![tactic(auto)]

mod among;
mod bindings;
mod component;
mod distinct;
mod finding;
mod kind;
mod kinds;
mod lengths;
mod looking_up;
mod machine;
mod model;
mod numbered;
mod program;
mod seen;
mod specials;
mod tables;
mod topology;
mod tops;
mod waiting;

pub use among::is_among;
pub use bindings::Bound;
pub use component::{
    Channel, Command, CommandPart, Component, Event, Full, Limit, Param, Port, Queueing, Role,
    Running, Special, Way,
};
pub use distinct::{all_differ, numbers_differ, set_of};
pub use kind::{Constant, Field, Form, Formal, Kind, PortDef, TypeDef};
pub use kinds::{form_at, is_integer_kind, is_one_kind, same_kind, target};
pub use lengths::{components_are_short, is_short};
pub use machine::{Machine, Named, Node, On, Step, Vertex};
pub use model::{Item, Model};
pub use numbered::Numbered;
pub use program::{Act, Answers, Arg, Caller, Handler, Program, Spot, Verb};
pub use seen::see;
pub use specials::{is_special, place_of_special};
pub use tables::Tables;
pub use topology::{End, Instance, Link, Topology, Wire, Written};
pub use tops::tops_of;
pub use waiting::priorities;
