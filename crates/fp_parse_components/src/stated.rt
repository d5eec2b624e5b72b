ghost use Rattle.fp_grammar.specs.Parses.{Parses};
ghost use Rattle.fp_parse_pieces.specs.Kinds.{kind};
ghost use Rattle.std.specs.Prelude.{◌≡◌};
ghost use Rattle.fp_parse_components.specs.Ports as P;
ghost use Rattle.fp_parse_components.specs.Parts as S;

use crate::queue::{QueuePart, QueueWords, span_or};
use fp_base::{Boxed, NoMemory, Span, Text};
use fp_lexer::Token;
use fp_lexer::mark::{COLON, OPEN_BRACE};
use fp_lexer::reserved::{INSTANCE, MACHINE, STATE};
use fp_parse_defs::between;
use fp_parse_pieces::{
    After, AtWord, Behind, Either, Made, Make, Maybe, NodeOf, OneName, Parsed, Piece,
    QualifiedName, Seq,
};
use fp_parse_states::{RestOfBody, machine_read};
use fp_tree::{Behavior, Name, Part, Qual, Running};
use std::alloc::Global;

/// What stands behind `state machine`.
#[derive(Drop)]
pub enum Stated {
    Machine {
        name: Name,
        behavior: Option<Behavior>,
    },
    Running {
        name: Name,
        of: Qual,
        queue: QueueWords,
    },
}

struct MachineBehind;

impl Make for MachineBehind {
    type Parts = Seq<OneName, Maybe<Behind<OPEN_BRACE, RestOfBody>>>;

    type Node = Stated;

    ghost made = { S.made_machine_behind };

    fn make(_: Global, parts: NodeOf<Self::Parts>) -> Result<Stated, NoMemory> {
        let (name, behavior) = parts;
        Ok(Stated::Machine { name, behavior })
    }
}

impl Piece for MachineBehind {
    type Node = Stated;

    ghost grammar = { S.machine_behind };

    fn read(alloc: Global, tokens: &[Token], from: usize, depth: u32) -> Parsed<Stated> {
        Made::<MachineBehind>::read(alloc, tokens, from, depth)
    }
}

struct RunningBehind;

impl Make for RunningBehind {
    type Parts = After<INSTANCE, Seq<OneName, Behind<COLON, Seq<QualifiedName, QueuePart>>>>;

    type Node = Stated;

    ghost made = { S.made_running_behind };

    fn make(_: Global, parts: NodeOf<Self::Parts>) -> Result<Stated, NoMemory> {
        let (name, (of, queue)) = parts;
        Ok(Stated::Running { name, of, queue })
    }
}

impl Piece for RunningBehind {
    type Node = Stated;

    ghost grammar = { S.running_behind };

    fn read(alloc: Global, tokens: &[Token], from: usize, depth: u32) -> Parsed<Stated> {
        Made::<RunningBehind>::read(alloc, tokens, from, depth)
    }
}

fn running_of(alloc: Global, word: Span, name: Name, of: Qual, queue: QueueWords) -> Running
    ensures { result ≡ P.made_running (word, (name, (of, queue))) }
{
    let at = between(word, span_or(of.at, queue.last));
    let note = Text::new(alloc);
    Running {
        name,
        of,
        priority: queue.priority,
        full: queue.full,
        queue_word: queue.first,
        at,
        note,
    }
}

struct WordsFirst;

impl Make for WordsFirst {
    type Parts = Seq<AtWord<STATE>, After<MACHINE, Either<MachineBehind, RunningBehind>>>;

    type Node = Part;

    ghost made = { S.made_stated };

    fn make(alloc: Global, parts: NodeOf<Self::Parts>) -> Result<Part, NoMemory> {
        let (word, stated) = parts;
        match stated {
            Stated::Machine { name, behavior } => {
                let machine = machine_read(alloc, word, name, behavior);
                Ok(Part::Machine(Boxed::new(alloc, machine)?))
            }
            Stated::Running { name, of, queue } => {
                let running = running_of(alloc, word, name, of, queue);
                Ok(Part::Running(Boxed::new(alloc, running)?))
            }
        }
    }
}

/// A state machine or an instance of one. Both begin with the same two words, so these are read first.
pub struct MachineOrRunning;

impl Piece for MachineOrRunning {
    type Node = Part;

    ghost grammar = { S.stated_part };

    fn read(alloc: Global, tokens: &[Token], from: usize, depth: u32) -> Parsed<Part> {
        machine_or_running(alloc, tokens, from, depth)
    }
}

fn machine_or_running(alloc: Global, tokens: &[Token], from: usize, depth: u32) -> Parsed<Part>
    ensures { Parses kind (S.stated_part depth) tokens.now from result }
{
    Made::<WordsFirst>::read(alloc, tokens, from, depth)
}
