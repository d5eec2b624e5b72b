ghost use Rattle.std.specs.Prelude.{◌≡◌, ◌≤◌, ◌<◌, ◌^◌, length};
ghost use Rattle.fp_parse_defs.specs.Reading.{AnswersNode};
ghost use Rattle.fp_parse_states.specs.Nested as N;

use crate::bodies::RestOfBody;
use fp_base::{NoMemory, Row, Span, Stop, Text};
use fp_lexer::Token;
use fp_lexer::mark::OPEN_BRACE;
use fp_lexer::reserved::{MACHINE, STATE};
use fp_parse_defs::{between, parse_node};
use fp_parse_pieces::{After, AtWord, Behind, Made, Make, Maybe, NodeOf, OneName, Seq};
use fp_tree::{Behavior, Machine, Name};
use std::alloc::Global;

fn closing_or(span: Span, behavior: &Option<Behavior>) -> Span
    ensures { result ≡ N.closing_or span behavior.now }
{
    match behavior {
        Some(behavior) => behavior.closing,
        None => span,
    }
}

/// A machine of what was read of it, its first word standing there.
pub fn machine_read(alloc: Global, word: Span, name: Name, behavior: Option<Behavior>) -> Machine
    ensures { result ≡ N.made_machine (word, (name, behavior)) }
{
    let at = between(word, closing_or(name.at, &behavior));
    let note = Text::new(alloc);
    Machine {
        name,
        behavior,
        at,
        note,
    }
}

/// A state machine.
struct OneMachine;

impl Make for OneMachine {
    type Parts = Seq<
        AtWord<STATE>,
        After<MACHINE, Seq<OneName, Maybe<Behind<OPEN_BRACE, RestOfBody>>>>,
    >;

    type Node = Machine;

    ghost made = { N.made_machine };

    fn make(alloc: Global, parts: NodeOf<Self::Parts>) -> Result<Machine, NoMemory> {
        let (word, (name, behavior)) = parts;
        Ok(machine_read(alloc, word, name, behavior))
    }
}

/// Reads a state machine from a position on.
pub fn parse_machine(alloc: Global, tokens: &Row<Token>, from: u32) -> Result<(Machine, u32), Stop>
    requires some { 0 < length tokens.now }
    requires short { length tokens.now < 2 ^ 32 }
    requires within { from ≤ length tokens.now }
    ensures { AnswersNode N.machine tokens.now from result }
{
    parse_node::<Made<OneMachine>>(alloc, tokens, from)
}
