//! The tree of a source: a struct or an enum for each production of the grammar, with where it stands and its annotation.
#![tactic(auto)]

mod component;
mod definition;
mod dictionary;
mod expression;
mod instance;
mod machine;
mod member;
mod name;
mod part;
mod source;
mod topology;
mod type_name;

pub use component::{
    Component, ComponentKind, Full, General, GeneralKind, Import, Interface, InterfacePart,
    Internal, Match, Part, Running, Special, SpecialKind,
};
pub use definition::{Abstract, Alias, Array, Constant, Def, Enum, Port, Struct};
pub use dictionary::{
    Channel, Color, Command, CommandKind, Event, Limit, Limits, ParamDef, Severity, Update,
};
pub use expression::{Assignment, Expr, Form, Operator};
pub use instance::{Instance, Phase};
pub use machine::{
    ActionUse, Behavior, BehaviorElement, Choice, Do, ElementForm, Goto, Machine, NoteLine,
    OnSignal, Transition, TypedName,
};
pub use member::{Include, Locate, Member, Module, Unit};
pub use name::{Name, Qual, Str};
pub use part::{EnumConst, Field, Formal};
pub use source::{Source, Uses, Values};
pub use topology::{
    Connection, Connections, InstanceUse, Pattern, PatternConnections, PortUse, TMember, Target,
    Topology,
};
pub use type_name::{TypeForm, TypeName};
