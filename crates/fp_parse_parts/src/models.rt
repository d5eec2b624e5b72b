ghost use Rattle.fp_grammar.specs.Parses.{Parses};
ghost use Rattle.fp_parse_pieces.specs.Kinds.{kind};
ghost use Rattle.fp_parse_states.specs.Nested as N;
ghost use Rattle.fp_parse_parts.specs.Models as M;
ghost use Rattle.fp_parse_parts.specs.declared.bare.ModelMember.TheVariants as model;

use crate::bare::ModelMember;
use fp_base::NoMemory;
use fp_lexer::Token;
use fp_lexer::mark::OPEN_BRACE;
use fp_lexer::reserved::{MACHINE, STATE};
use fp_parse_components::{OneComponent, OneInterface};
use fp_parse_pieces::{
    After, AtWord, Behind, Either, Made, Make, Maybe, NodeOf, OneName, Parsed, Piece, Seq,
};
use fp_parse_states::{RestOfBody, machine_read};
use fp_parse_topologies::{OneInstance, OneTopology};
use fp_tree::{Component, Instance, Interface, Machine, Topology};
use std::alloc::Global;

struct OneMachine;

impl Make for OneMachine {
    type Parts = Seq<
        AtWord<STATE>,
        After<MACHINE, Seq<OneName, Maybe<Behind<OPEN_BRACE, RestOfBody>>>>,
    >;

    type Node = Machine;

    ghost made = { N.made_machine };

    fn make(alloc: Global, parts: NodeOf<Self::Parts>) -> Result<Machine, NoMemory> {
        let (word, (name, behavior)) = parts;
        Ok(machine_read(alloc, word, name, behavior))
    }
}

struct MachineMember;

impl Make for MachineMember {
    type Parts = Made<OneMachine>;

    type Node = ModelMember;

    ghost made = { model.Machine };

    fn make(_: Global, machine: Machine) -> Result<ModelMember, NoMemory> {
        Ok(ModelMember::Machine(machine))
    }
}

impl Piece for MachineMember {
    type Node = ModelMember;

    ghost grammar = { M.machine_member };

    fn read(alloc: Global, tokens: &[Token], from: usize, depth: u32) -> Parsed<ModelMember> {
        Made::<MachineMember>::read(alloc, tokens, from, depth)
    }
}

struct ComponentMember;

impl Make for ComponentMember {
    type Parts = OneComponent;

    type Node = ModelMember;

    ghost made = { model.Component };

    fn make(_: Global, component: Component) -> Result<ModelMember, NoMemory> {
        Ok(ModelMember::Component(component))
    }
}

impl Piece for ComponentMember {
    type Node = ModelMember;

    ghost grammar = { M.component_member };

    fn read(alloc: Global, tokens: &[Token], from: usize, depth: u32) -> Parsed<ModelMember> {
        Made::<ComponentMember>::read(alloc, tokens, from, depth)
    }
}

struct InterfaceMember;

impl Make for InterfaceMember {
    type Parts = OneInterface;

    type Node = ModelMember;

    ghost made = { model.Interface };

    fn make(_: Global, interface: Interface) -> Result<ModelMember, NoMemory> {
        Ok(ModelMember::Interface(interface))
    }
}

impl Piece for InterfaceMember {
    type Node = ModelMember;

    ghost grammar = { M.interface_member };

    fn read(alloc: Global, tokens: &[Token], from: usize, depth: u32) -> Parsed<ModelMember> {
        Made::<InterfaceMember>::read(alloc, tokens, from, depth)
    }
}

struct InstanceMember;

impl Make for InstanceMember {
    type Parts = OneInstance;

    type Node = ModelMember;

    ghost made = { model.Instance };

    fn make(_: Global, instance: Instance) -> Result<ModelMember, NoMemory> {
        Ok(ModelMember::Instance(instance))
    }
}

impl Piece for InstanceMember {
    type Node = ModelMember;

    ghost grammar = { M.instance_member };

    fn read(alloc: Global, tokens: &[Token], from: usize, depth: u32) -> Parsed<ModelMember> {
        Made::<InstanceMember>::read(alloc, tokens, from, depth)
    }
}

struct TopologyMember;

impl Make for TopologyMember {
    type Parts = OneTopology;

    type Node = ModelMember;

    ghost made = { model.Topology };

    fn make(_: Global, topology: Topology) -> Result<ModelMember, NoMemory> {
        Ok(ModelMember::Topology(topology))
    }
}

impl Piece for TopologyMember {
    type Node = ModelMember;

    ghost grammar = { M.topology_member };

    fn read(alloc: Global, tokens: &[Token], from: usize, depth: u32) -> Parsed<ModelMember> {
        Made::<TopologyMember>::read(alloc, tokens, from, depth)
    }
}

type OtherModel = Either<InterfaceMember, Either<InstanceMember, TopologyMember>>;

/// Reads a state machine, a component, an interface, an instance or a topology.
pub fn any_model(alloc: Global, tokens: &[Token], from: usize, depth: u32) -> Parsed<ModelMember>
    ensures { Parses kind (M.any_model depth) tokens.now from result }
{
    Either::<MachineMember, Either<ComponentMember, OtherModel>>::read(alloc, tokens, from, depth)
}
