ghost use Rattle.fp_grammar.specs.Parses.{Parses};
ghost use Rattle.fp_parse_pieces.specs.Kinds.{kind};
ghost use Rattle.fp_parse_states.specs.Transitions as T;

use fp_base::{NoMemory, Text};
use fp_lexer::Token;
use fp_lexer::mark::{CLOSE_BRACE, COMMA, OPEN_BRACE};
use fp_lexer::reserved::{DO, ENTER};
use fp_parse_defs::between;
use fp_parse_pieces::{
    AtMark, AtWord, Behind, Either, Element, Listed, Made, Make, Maybe, NodeOf, OneName, Parsed,
    Piece, QualifiedName, Seq,
};
use fp_tree::{ActionUse, Do, Goto, Name, Transition};
use std::alloc::Global;

pub struct OneAction;

impl Make for OneAction {
    type Parts = OneName;

    type Node = ActionUse;

    ghost made = { T.made_action };

    fn make(alloc: Global, name: Name) -> Result<ActionUse, NoMemory> {
        let note = Text::new(alloc);
        Ok(ActionUse { name, note })
    }
}

impl Piece for OneAction {
    type Node = ActionUse;

    ghost grammar = { λ depth. T.action_use };

    fn read(alloc: Global, tokens: &[Token], from: usize, depth: u32) -> Parsed<ActionUse> {
        Made::<OneAction>::read(alloc, tokens, from, depth)
    }
}

impl Element for OneAction {
    type Bare = OneAction;

    ghost with_note = { T.action_with_note };

    fn with_note(node: ActionUse, note: Text) -> ActionUse {
        ActionUse { note, ..node }
    }
}

/// What is done.
pub struct OneDo;

impl Make for OneDo {
    type Parts = Seq<
        AtWord<DO>,
        Behind<OPEN_BRACE, Seq<Listed<OneAction, COMMA>, AtMark<CLOSE_BRACE>>>,
    >;

    type Node = Do;

    ghost made = { T.made_do };

    fn make(_: Global, parts: NodeOf<Self::Parts>) -> Result<Do, NoMemory> {
        let (word, (actions, closing)) = parts;
        let at = between(word, closing);
        Ok(Do { actions, at })
    }
}

impl Piece for OneDo {
    type Node = Do;

    ghost grammar = { λ depth. T.do_list };

    fn read(alloc: Global, tokens: &[Token], from: usize, depth: u32) -> Parsed<Do> {
        do_list(alloc, tokens, from, depth)
    }
}

fn do_list(alloc: Global, tokens: &[Token], from: usize, depth: u32) -> Parsed<Do>
    ensures { Parses kind T.do_list tokens.now from result }
{
    Made::<OneDo>::read(alloc, tokens, from, depth)
}

type Entering = Seq<AtWord<ENTER>, QualifiedName>;

/// Where a transition goes, and what is done on the way.
pub struct OneGoto;

impl Make for OneGoto {
    type Parts = Seq<Maybe<OneDo>, Entering>;

    type Node = Goto;

    ghost made = { T.made_goto };

    fn make(_: Global, parts: NodeOf<Self::Parts>) -> Result<Goto, NoMemory> {
        let (actions, (word, target)) = parts;
        let first = match &actions {
            Some(actions) => actions.at,
            None => word,
        };
        let at = between(first, target.at);
        Ok(Goto {
            actions,
            target,
            at,
        })
    }
}

impl Piece for OneGoto {
    type Node = Goto;

    ghost grammar = { λ depth. T.goto };

    fn read(alloc: Global, tokens: &[Token], from: usize, depth: u32) -> Parsed<Goto> {
        goto(alloc, tokens, from, depth)
    }
}

fn goto(alloc: Global, tokens: &[Token], from: usize, depth: u32) -> Parsed<Goto>
    ensures { Parses kind T.goto tokens.now from result }
{
    Made::<OneGoto>::read(alloc, tokens, from, depth)
}

struct DoFirst;

impl Make for DoFirst {
    type Parts = Seq<OneDo, Maybe<Entering>>;

    type Node = Transition;

    ghost made = { T.made_onward };

    fn make(_: Global, parts: NodeOf<Self::Parts>) -> Result<Transition, NoMemory> {
        let (actions, entered) = parts;
        match entered {
            None => Ok(Transition::Do(actions)),
            Some((_, target)) => {
                let at = between(actions.at, target.at);
                let actions = Some(actions);
                Ok(Transition::Goto(Goto {
                    actions,
                    target,
                    at,
                }))
            }
        }
    }
}

struct EnterFirst;

impl Make for EnterFirst {
    type Parts = Entering;

    type Node = Transition;

    ghost made = { T.made_entering };

    fn make(_: Global, parts: NodeOf<Self::Parts>) -> Result<Transition, NoMemory> {
        let (word, target) = parts;
        let at = between(word, target.at);
        Ok(Transition::Goto(Goto {
            actions: None,
            target,
            at,
        }))
    }
}

/// What is done on a signal. Both alternatives may begin with what is done, so this is read first.
pub struct OneTransition;

impl Piece for OneTransition {
    type Node = Transition;

    ghost grammar = { λ depth. T.transition };

    fn read(alloc: Global, tokens: &[Token], from: usize, depth: u32) -> Parsed<Transition> {
        transition(alloc, tokens, from, depth)
    }
}

fn transition(alloc: Global, tokens: &[Token], from: usize, depth: u32) -> Parsed<Transition>
    ensures { Parses kind T.transition tokens.now from result }
{
    Either::<Made<DoFirst>, Made<EnterFirst>>::read(alloc, tokens, from, depth)
}
