//! What is written of ports, components, interfaces, instances and topologies: their members, with the numbers that expressions have and where
//! each thing stands.
#![tactic(auto)]

mod dictionary;
pub mod graphs;
mod instance;
mod member;
mod number;
mod port;
mod topology;

pub use dictionary::{WrittenChannel, WrittenCommand, WrittenEvent, WrittenLimit, WrittenParam};
pub use instance::WrittenInstance;
pub use member::{WrittenComponent, WrittenInterface, WrittenMatch, WrittenMember, WrittenRunning};
pub use number::number_in;
pub use port::{
    Given, QueueWords, WrittenFormal, WrittenImport, WrittenPort, WrittenPortDef, WrittenRole,
};
pub use topology::{
    ImportedTopology, MemberInstance, UsedInstance, WrittenConnection, WrittenDeployment,
    WrittenPattern, WrittenPortUse, WrittenTopology,
};
