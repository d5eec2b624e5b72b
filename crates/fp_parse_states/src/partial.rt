ghost use Rattle.std.specs.Prelude.{◌≡◌, IfOk, reverse, ◌∷◌, [], ◌++◌};
ghost use Rattle.fp_parse_states.specs.Bodies as B;
ghost use Rattle.fp_parse_states.specs.Bodies.{leads};
ghost use Rattle.fp_parse_states.specs.Partial.{body_seen, step_seen};
ghost use Rattle.fp_parse_states.specs.declared.partial.BodyStep.TheVariants as step;
ghost use Rattle.fp_parse_states.specs.declared.head.BodyPiece.TheVariants as piece;

use crate::head::{BodyPiece, Head, LastRead};
use fp_base::{NoMemory, Row, Span, Text};
use fp_tree::{Behavior, BehaviorElement, ElementForm, NoteLine};
use std::alloc::Global;

/// What was read of a body.
#[derive(Drop)]
pub struct PartialBody {
    pub last: LastRead,
    /// The positions of the states that are open, innermost last.
    stack: Row<usize>,
    /// The element that was read last, or closed last.
    latest: usize,
    elements: Row<BehaviorElement>,
    lines: Row<NoteLine>,
}

/// What a piece leads to.
#[derive(Drop)]
pub enum BodyStep {
    On(PartialBody),
    Ends(Behavior),
}

fn read_of(form: &ElementForm) -> LastRead
    ensures { result ≡ B.read_of form.now }
{
    match form {
        ElementForm::State(_) => LastRead::StateName,
        ElementForm::Choice(_) => LastRead::Whole,
        ElementForm::Initial(_) => LastRead::Whole,
        ElementForm::Signal(_) => LastRead::Whole,
        ElementForm::Action(_) => LastRead::Whole,
        ElementForm::Guard(_) => LastRead::Whole,
        ElementForm::On(_) => LastRead::Whole,
        ElementForm::Entry(_) => LastRead::Whole,
        ElementForm::Exit(_) => LastRead::Whole,
    }
}

fn behind_note(last: LastRead) -> LastRead
    ensures { result ≡ B.behind_note last }
{
    match last {
        LastRead::Opening => LastRead::Opening,
        LastRead::Separator => LastRead::Separator,
        LastRead::NoteBefore => LastRead::NoteBefore,
        LastRead::StateName => LastRead::Whole,
        LastRead::Whole => LastRead::Whole,
    }
}

fn innermost(stack: &Row<usize>) -> Option<usize>
    ensures { result ≡ B.innermost (reverse stack.now) }
{
    let count = stack.len();
    if count == 0 {
        return None;
    }
    Some(stack.as_slice()[count - 1])
}

impl PartialBody {
    pub fn new(alloc: Global) -> PartialBody
        ensures { body_seen result ≡ B.nothing_read }
    {
        PartialBody {
            last: LastRead::Opening,
            stack: Row::new(alloc),
            latest: 0,
            elements: Row::new(alloc),
            lines: Row::new(alloc),
        }
    }

    /// Whether a state is open.
    pub fn is_inside(&self) -> bool
        ensures { result ≡ B.is_inside (body_seen self.now).opened }
    {
        !self.stack.is_empty()
    }

    // Begins the body of the state that was named last.
    fn opened(self) -> Result<PartialBody, NoMemory>
        ensures { IfOk result (λ new. step_seen (step.On new) ≡ leads (body_seen self) piece.Open) }
    {
        let PartialBody {
            last: _,
            mut stack,
            latest,
            elements,
            lines,
        } = self;
        stack.push(latest)?;
        Ok(PartialBody {
            last: LastRead::Opening,
            stack,
            latest,
            elements,
            lines,
        })
    }

    // Ends the innermost state that is open, or the body.
    fn closed(self, at: Span) -> BodyStep
        ensures { step_seen result ≡ leads (body_seen self) (piece.Close at) }
    {
        let PartialBody {
            last: _,
            mut stack,
            latest: _,
            elements,
            lines,
        } = self;
        match stack.pop() {
            Some(position) => BodyStep::On(PartialBody {
                last: LastRead::Whole,
                stack,
                latest: position,
                elements,
                lines,
            }),
            None => BodyStep::Ends(Behavior {
                elements,
                lines,
                closing: at,
            }),
        }
    }

    fn separated(self) -> PartialBody
        ensures { step_seen (step.On result) ≡ leads (body_seen self) piece.Separator }
    {
        PartialBody {
            last: LastRead::Separator,
            stack: self.stack,
            latest: self.latest,
            elements: self.elements,
            lines: self.lines,
        }
    }

    fn noted_before(self, line: Text) -> Result<PartialBody, NoMemory>
        ensures { IfOk result (λ new. step_seen (step.On new) ≡ leads (body_seen self) (piece.Before line)) }
    {
        let PartialBody {
            last: _,
            stack,
            latest,
            elements,
            mut lines,
        } = self;
        lines.push(NoteLine {
            of: elements.len(),
            line,
        })?;
        Ok(PartialBody {
            last: LastRead::NoteBefore,
            stack,
            latest,
            elements,
            lines,
        })
    }

    fn noted_after(self, line: Text) -> Result<PartialBody, NoMemory>
        ensures { IfOk result (λ new. step_seen (step.On new) ≡ leads (body_seen self) (piece.After line)) }
    {
        let PartialBody {
            last,
            stack,
            latest,
            elements,
            mut lines,
        } = self;
        lines.push(NoteLine { of: latest, line })?;
        Ok(PartialBody {
            last: behind_note(last),
            stack,
            latest,
            elements,
            lines,
        })
    }

    fn with_element(self, head: Head) -> Result<PartialBody, NoMemory>
        ensures { IfOk result (λ new. step_seen (step.On new) ≡ leads (body_seen self) (piece.Element head)) }
    {
        let PartialBody {
            last: _,
            stack,
            latest: _,
            mut elements,
            lines,
        } = self;
        let Head { form, at } = head;
        let last = read_of(&form);
        let parent = innermost(&stack);
        let latest = elements.len();
        elements.push(BehaviorElement { form, parent, at })?;
        Ok(PartialBody {
            last,
            stack,
            latest,
            elements,
            lines,
        })
    }

    /// Goes on by a piece.
    pub fn led(self, piece: BodyPiece) -> Result<BodyStep, NoMemory>
        ensures { IfOk result (λ step. step_seen step ≡ leads (body_seen self) piece) }
    {
        match piece {
            BodyPiece::Open => Ok(BodyStep::On(self.opened()?)),
            BodyPiece::Close(at) => Ok(self.closed(at)),
            BodyPiece::Separator => Ok(BodyStep::On(self.separated())),
            BodyPiece::Before(line) => Ok(BodyStep::On(self.noted_before(line)?)),
            BodyPiece::After(line) => Ok(BodyStep::On(self.noted_after(line)?)),
            BodyPiece::Element(head) => Ok(BodyStep::On(self.with_element(head)?)),
        }
    }
}
