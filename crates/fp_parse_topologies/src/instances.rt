ghost use Rattle.std.specs.Prelude.{◌≡◌, ◌≤◌, ◌<◌, ◌^◌, length};
ghost use Rattle.fp_parse_defs.specs.Reading.{AnswersNode};
ghost use Rattle.fp_parse_topologies.specs.Instances as I;

use fp_base::{NoMemory, Row, Span, Stop, Text};
use fp_lexer::Token;
use fp_lexer::mark::{CLOSE_BRACE, COLON, OPEN_BRACE, SEMICOLON};
use fp_lexer::reserved::{AT, BASE, CPU, ID, INSTANCE, PHASE, PRIORITY, QUEUE, SIZE, STACK, TYPE};
use fp_parse_defs::{Value, between, expr_or, parse_node, text_or};
use fp_parse_pieces::{
    After, AtMark, AtWord, Behind, Element, Listed, Made, Make, Maybe, NodeOf, OneName, OneText,
    Parsed, Piece, QualifiedName, Seq,
};
use fp_tree::{Expr, Instance, Phase, Str};
use std::alloc::Global;

pub struct OnePhase;

impl Make for OnePhase {
    type Parts = Seq<AtWord<PHASE>, Seq<Value, OneText>>;

    type Node = Phase;

    ghost made = { I.made_phase };

    fn make(alloc: Global, parts: NodeOf<Self::Parts>) -> Result<Phase, NoMemory> {
        let (word, (phase, code)) = parts;
        let at = between(word, code.at);
        let note = Text::new(alloc);
        Ok(Phase {
            phase,
            code,
            at,
            note,
        })
    }
}

impl Element for OnePhase {
    type Bare = Made<OnePhase>;

    ghost with_note = { I.phase_with_note };

    fn with_note(node: Phase, note: Text) -> Phase {
        Phase { note, ..node }
    }
}

type Phases = Maybe<Behind<OPEN_BRACE, Seq<Listed<OnePhase, SEMICOLON>, AtMark<CLOSE_BRACE>>>>;

/// The phases and their closing brace, where there is one.
pub struct PhasesPart;

impl Piece for PhasesPart {
    type Node = Option<(Row<Phase>, Span)>;

    ghost grammar = { I.phases_part };

    fn read(alloc: Global, tokens: &[Token], from: usize, depth: u32) -> Parsed<Self::Node> {
        Phases::read(alloc, tokens, from, depth)
    }
}

type TypeAndFile = Seq<Maybe<After<TYPE, OneText>>, Maybe<After<AT, OneText>>>;

/// What implements an instance: a type, and a file.
pub struct Implementation;

impl Piece for Implementation {
    type Node = (Option<Str>, Option<Str>);

    ghost grammar = { λ depth. I.implementation };

    fn read(alloc: Global, tokens: &[Token], from: usize, depth: u32) -> Parsed<Self::Node> {
        TypeAndFile::read(alloc, tokens, from, depth)
    }
}

type QueueAndStack = Seq<
    Maybe<After<QUEUE, After<SIZE, Value>>>,
    Maybe<After<STACK, After<SIZE, Value>>>,
>;

/// The sizes of a queue and of a stack.
pub struct Sizes;

impl Piece for Sizes {
    type Node = (Option<Expr>, Option<Expr>);

    ghost grammar = { I.sizes };

    fn read(alloc: Global, tokens: &[Token], from: usize, depth: u32) -> Parsed<Self::Node> {
        QueueAndStack::read(alloc, tokens, from, depth)
    }
}

type PriorityAndCpu = Seq<Maybe<After<PRIORITY, Value>>, Maybe<After<CPU, Value>>>;

/// How a thread is scheduled: a priority, and a processor.
pub struct Scheduling;

impl Piece for Scheduling {
    type Node = (Option<Expr>, Option<Expr>);

    ghost grammar = { I.scheduling };

    fn read(alloc: Global, tokens: &[Token], from: usize, depth: u32) -> Parsed<Self::Node> {
        PriorityAndCpu::read(alloc, tokens, from, depth)
    }
}

type SettingsNode = (
    (Option<Str>, Option<Str>),
    (
        (Option<Expr>, Option<Expr>),
        ((Option<Expr>, Option<Expr>), Option<(Row<Phase>, Span)>),
    ),
);

/// What may be absent of an instance.
pub struct Settings;

impl Piece for Settings {
    type Node = SettingsNode;

    ghost grammar = { I.settings };

    fn read(alloc: Global, tokens: &[Token], from: usize, depth: u32) -> Parsed<Self::Node> {
        Seq::<Implementation, Seq<Sizes, Seq<Scheduling, PhasesPart>>>::read(
            alloc, tokens, from, depth,
        )
    }
}

/// The phases, and where what is written of the instance ends.
fn phases_behind(alloc: Global, end: Span, found: Option<(Row<Phase>, Span)>) -> (Row<Phase>, Span)
    ensures { result ≡ I.phases_behind end found }
{
    match found {
        Some(found) => found,
        None => (Row::new(alloc), end),
    }
}

/// An instance of a component.
pub struct OneInstance;

impl Make for OneInstance {
    type Parts = Seq<
        AtWord<INSTANCE>,
        Seq<
            OneName,
            Behind<COLON, Seq<QualifiedName, After<BASE, After<ID, Seq<Value, Settings>>>>>,
        >,
    >;

    type Node = Instance;

    ghost made = { I.made_instance };

    fn make(alloc: Global, parts: NodeOf<Self::Parts>) -> Result<Instance, NoMemory> {
        let (word, (name, (of, (base, settings)))) = parts;
        let ((kind, file), ((queue, stack), ((priority, cpu), phases))) = settings;
        let end = text_or(text_or(base.at, &kind), &file);
        let end = expr_or(expr_or(end, &queue), &stack);
        let end = expr_or(expr_or(end, &priority), &cpu);
        let (phases, end) = phases_behind(alloc, end, phases);
        let at = between(word, end);
        let note = Text::new(alloc);
        Ok(Instance {
            name,
            of,
            base,
            kind,
            file,
            queue,
            stack,
            priority,
            cpu,
            phases,
            at,
            note,
        })
    }
}

impl Piece for OneInstance {
    type Node = Instance;

    ghost grammar = { I.component_instance };

    fn read(alloc: Global, tokens: &[Token], from: usize, depth: u32) -> Parsed<Instance> {
        Made::<OneInstance>::read(alloc, tokens, from, depth)
    }
}

/// Reads an instance of a component from a position on.
pub fn parse_instance(
    alloc: Global,
    tokens: &Row<Token>,
    from: u32,
) -> Result<(Instance, u32), Stop>
    requires some { 0 < length tokens.now }
    requires short { length tokens.now < 2 ^ 32 }
    requires within { from ≤ length tokens.now }
    ensures { AnswersNode I.component_instance tokens.now from result }
{
    parse_node::<OneInstance>(alloc, tokens, from)
}
