ghost use Rattle.std.specs.Prelude.{◌≡◌, true, false};
ghost use Rattle.fp_grammar.specs.Parses.{Parses};
ghost use Rattle.fp_parse_pieces.specs.Kinds.{kind};
ghost use Rattle.fp_parse_states.specs.Elements as E;

use crate::head::Head;
use crate::transitions::{OneDo, OneGoto, OneTransition};
use fp_base::{Boxed, NoMemory, Span};
use fp_lexer::Token;
use fp_lexer::mark::{CLOSE_BRACE, COLON, OPEN_BRACE};
use fp_lexer::reserved::{
    ACTION, CHOICE, ELSE, ENTRY, EXIT, GUARD, IF, INITIAL, ON, SIGNAL, STATE,
};
use fp_parse_defs::{OneType, between, type_or};
use fp_parse_pieces::{
    After, AtMark, AtWord, Behind, Either, Made, Make, Maybe, NodeOf, OneName, Parsed, Piece, Seq,
};
use fp_tree::{Choice, Do, ElementForm, Goto, OnSignal, Transition, TypedName};
use std::alloc::Global;

/// A state up to its name.
struct StateHead;

impl Make for StateHead {
    type Parts = Seq<AtWord<STATE>, OneName>;

    type Node = Head;

    ghost made = { E.made_state };

    fn make(_: Global, parts: NodeOf<Self::Parts>) -> Result<Head, NoMemory> {
        let (word, name) = parts;
        let at = between(word, name.at);
        Ok(Head {
            form: ElementForm::State(name),
            at,
        })
    }
}

impl Piece for StateHead {
    type Node = Head;

    ghost grammar = { λ depth. E.state_head };

    fn read(alloc: Global, tokens: &[Token], from: usize, depth: u32) -> Parsed<Head> {
        Made::<StateHead>::read(alloc, tokens, from, depth)
    }
}

struct OneChoice;

impl Make for OneChoice {
    type Parts = Seq<
        AtWord<CHOICE>,
        Seq<
            OneName,
            Behind<
                OPEN_BRACE,
                After<
                    IF,
                    Seq<OneName, Seq<OneGoto, After<ELSE, Seq<OneGoto, AtMark<CLOSE_BRACE>>>>>,
                >,
            >,
        >,
    >;

    type Node = Head;

    ghost made = { E.made_choice };

    fn make(alloc: Global, parts: NodeOf<Self::Parts>) -> Result<Head, NoMemory> {
        let (word, (name, (guard, (met, (unmet, closing))))) = parts;
        let at = between(word, closing);
        let choice = Choice {
            name,
            guard,
            met,
            unmet,
        };
        let form = ElementForm::Choice(Boxed::new(alloc, choice)?);
        Ok(Head { form, at })
    }
}

impl Piece for OneChoice {
    type Node = Head;

    ghost grammar = { λ depth. E.choice };

    fn read(alloc: Global, tokens: &[Token], from: usize, depth: u32) -> Parsed<Head> {
        Made::<OneChoice>::read(alloc, tokens, from, depth)
    }
}

struct OneInitial;

impl Make for OneInitial {
    type Parts = Seq<AtWord<INITIAL>, OneGoto>;

    type Node = Head;

    ghost made = { E.made_initial };

    fn make(alloc: Global, parts: NodeOf<Self::Parts>) -> Result<Head, NoMemory> {
        let (word, goto) = parts;
        let at = between(word, goto.at);
        let form = ElementForm::Initial(Boxed::new(alloc, goto)?);
        Ok(Head { form, at })
    }
}

impl Piece for OneInitial {
    type Node = Head;

    ghost grammar = { λ depth. E.initial };

    fn read(alloc: Global, tokens: &[Token], from: usize, depth: u32) -> Parsed<Head> {
        Made::<OneInitial>::read(alloc, tokens, from, depth)
    }
}

type TypePart = Maybe<Behind<COLON, OneType>>;

struct OneSignal;

impl Make for OneSignal {
    type Parts = Seq<AtWord<SIGNAL>, Seq<OneName, TypePart>>;

    type Node = Head;

    ghost made = { E.made_signal };

    fn make(alloc: Global, parts: NodeOf<Self::Parts>) -> Result<Head, NoMemory> {
        let (word, (name, of)) = parts;
        let at = between(word, type_or(name.at, &of));
        let form = ElementForm::Signal(Boxed::new(alloc, TypedName { name, of })?);
        Ok(Head { form, at })
    }
}

impl Piece for OneSignal {
    type Node = Head;

    ghost grammar = { E.signal };

    fn read(alloc: Global, tokens: &[Token], from: usize, depth: u32) -> Parsed<Head> {
        Made::<OneSignal>::read(alloc, tokens, from, depth)
    }
}

struct OneActionDef;

impl Make for OneActionDef {
    type Parts = Seq<AtWord<ACTION>, Seq<OneName, TypePart>>;

    type Node = Head;

    ghost made = { E.made_action_def };

    fn make(alloc: Global, parts: NodeOf<Self::Parts>) -> Result<Head, NoMemory> {
        let (word, (name, of)) = parts;
        let at = between(word, type_or(name.at, &of));
        let form = ElementForm::Action(Boxed::new(alloc, TypedName { name, of })?);
        Ok(Head { form, at })
    }
}

impl Piece for OneActionDef {
    type Node = Head;

    ghost grammar = { E.action };

    fn read(alloc: Global, tokens: &[Token], from: usize, depth: u32) -> Parsed<Head> {
        Made::<OneActionDef>::read(alloc, tokens, from, depth)
    }
}

struct OneGuard;

impl Make for OneGuard {
    type Parts = Seq<AtWord<GUARD>, Seq<OneName, TypePart>>;

    type Node = Head;

    ghost made = { E.made_guard };

    fn make(alloc: Global, parts: NodeOf<Self::Parts>) -> Result<Head, NoMemory> {
        let (word, (name, of)) = parts;
        let at = between(word, type_or(name.at, &of));
        let form = ElementForm::Guard(Boxed::new(alloc, TypedName { name, of })?);
        Ok(Head { form, at })
    }
}

impl Piece for OneGuard {
    type Node = Head;

    ghost grammar = { E.guard };

    fn read(alloc: Global, tokens: &[Token], from: usize, depth: u32) -> Parsed<Head> {
        Made::<OneGuard>::read(alloc, tokens, from, depth)
    }
}

fn way_at(transition: &Transition) -> Span
    ensures { result ≡ E.way_at transition.now }
{
    match transition {
        Transition::Goto(goto) => goto.at,
        Transition::Do(actions) => actions.at,
    }
}

struct OnOneSignal;

impl Make for OnOneSignal {
    type Parts = Seq<AtWord<ON>, Seq<OneName, Seq<Maybe<After<IF, OneName>>, OneTransition>>>;

    type Node = Head;

    ghost made = { E.made_on };

    fn make(alloc: Global, parts: NodeOf<Self::Parts>) -> Result<Head, NoMemory> {
        let (word, (signal, (guard, transition))) = parts;
        let at = between(word, way_at(&transition));
        let on = OnSignal {
            signal,
            guard,
            transition,
        };
        let form = ElementForm::On(Boxed::new(alloc, on)?);
        Ok(Head { form, at })
    }
}

impl Piece for OnOneSignal {
    type Node = Head;

    ghost grammar = { λ depth. E.on_signal };

    fn read(alloc: Global, tokens: &[Token], from: usize, depth: u32) -> Parsed<Head> {
        Made::<OnOneSignal>::read(alloc, tokens, from, depth)
    }
}

struct OneEntry;

impl Make for OneEntry {
    type Parts = Seq<AtWord<ENTRY>, OneDo>;

    type Node = Head;

    ghost made = { E.made_entry };

    fn make(_: Global, parts: NodeOf<Self::Parts>) -> Result<Head, NoMemory> {
        let (word, actions) = parts;
        let at = between(word, actions.at);
        Ok(Head {
            form: ElementForm::Entry(actions),
            at,
        })
    }
}

impl Piece for OneEntry {
    type Node = Head;

    ghost grammar = { λ depth. E.entry_actions };

    fn read(alloc: Global, tokens: &[Token], from: usize, depth: u32) -> Parsed<Head> {
        Made::<OneEntry>::read(alloc, tokens, from, depth)
    }
}

struct OneExit;

impl Make for OneExit {
    type Parts = Seq<AtWord<EXIT>, OneDo>;

    type Node = Head;

    ghost made = { E.made_exit };

    fn make(_: Global, parts: NodeOf<Self::Parts>) -> Result<Head, NoMemory> {
        let (word, actions) = parts;
        let at = between(word, actions.at);
        Ok(Head {
            form: ElementForm::Exit(actions),
            at,
        })
    }
}

impl Piece for OneExit {
    type Node = Head;

    ghost grammar = { λ depth. E.exit_actions };

    fn read(alloc: Global, tokens: &[Token], from: usize, depth: u32) -> Parsed<Head> {
        Made::<OneExit>::read(alloc, tokens, from, depth)
    }
}

type InState = Either<OnOneSignal, Either<OneEntry, OneExit>>;

type InMachine = Either<OneSignal, Either<OneActionDef, OneGuard>>;

fn in_state(alloc: Global, tokens: &[Token], from: usize, depth: u32) -> Parsed<Head>
    ensures { Parses kind (E.element depth true) tokens.now from result }
{
    Either::<StateHead, Either<OneChoice, Either<OneInitial, InState>>>::read(
        alloc, tokens, from, depth,
    )
}

fn in_machine(alloc: Global, tokens: &[Token], from: usize, depth: u32) -> Parsed<Head>
    ensures { Parses kind (E.element depth false) tokens.now from result }
{
    Either::<StateHead, Either<OneChoice, Either<OneInitial, InMachine>>>::read(
        alloc, tokens, from, depth,
    )
}

/// Reads an element up to where others may stand in it, inside a state or outside.
pub fn element(
    alloc: Global,
    tokens: &[Token],
    from: usize,
    inside: bool,
    depth: u32,
) -> Parsed<Head>
    ensures { Parses kind (E.element depth inside) tokens.now from result }
{
    if inside {
        in_state(alloc, tokens, from, depth)
    } else {
        in_machine(alloc, tokens, from, depth)
    }
}
