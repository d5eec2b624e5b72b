ghost use Rattle.std.specs.Prelude.{◌≡◌, ◌<◌, ◌≤◌, true, false, [], ◌∷◌, ◌++◌, Some, IfOk, OnOk, slice_get};
ghost use Rattle.fp_tables.specs.Sound.{IsSoundFor};
ghost use Rattle.fp_events.specs.Actor.{opened_actor};
ghost use Rattle.fp_events.specs.Ends.{is_through};
ghost use Rattle.fp_events.specs.Step.{actor_part};
ghost use Rattle.fp_actor.specs.Acting.{due_of_actor, AnswersDue, IsSameActor, IsToldOf};
ghost use Rattle.fp_actor.specs.Next.{next_of};
ghost use Rattle.fp_actor.specs.Levels.{opening_of};

use crate::handlers::Handlers;
use crate::home::home_of;
use crate::level::{Base, Binding, Level, Position, Source};
use crate::step::is_assert;
use crate::view::View;
use fp_base::{NoMemory, Row};
use fp_events::{Ask, Entry};
use fp_tables::{Program, Tables};
use std::alloc::Global;
use std::marker::Model;

/// What comes next of an actor: an ask, to an instance; nothing, of a caller whose list is through; nothing, of an actor that
/// has halted.
#[derive(Drop)]
pub enum Next {
    Ask { instance: u32, ask: Ask },
    AtEnd,
    Halted,
}

/// An actor: a caller, or the dispatcher of an active instance. Its frames are places in the program and in its trace.
#[derive(Drop)]
pub struct Actor<'a> {
    tables: &'a Tables,
    program: &'a Program,
    handlers: Handlers<'a>,
    number: u32,
    home: Option<u32>,
    levels: Vec<Level>,
    bindings: Vec<Binding>,
    trace: Vec<Entry>,
    halted: bool,
    last: u64,
}

impl<'a> Model for Actor<'a> {
    ghost use Rattle.std.specs.Coded.{codes};
    ghost use Rattle.fp_base.specs.contracts.value.Value as value;
    ghost use Rattle.fp_actor.specs.Acting.{Acting};

    ghost Value = { Acting };

    ghost coded = { Prim.hlevel (codes, value.the_row.coded) };

    ghost use Rattle.fp_actor.specs.Kept.{acting, IsKept};

    ghost view = { acting };

    ghost invariant = { IsKept };
}

impl<'a> Actor<'a> {
    /// The actor of a number at the opening.
    pub fn open(
        alloc: Global,
        tables: &'a Tables,
        program: &'a Program,
        number: u32,
    ) -> Result<Actor<'a>, NoMemory>
        requires { IsSoundFor tables.now.model (Some tables.now.topology) }
        ensures { IfOk result (λ actor. actor ≡ record {
          tables = tables.now;
          program = program.now;
          number = number;
          state = record { thread = opened_actor program.now number; last = 0 };
          trace = [];
          has_room = false;
        }) }
    {
        let handlers = Handlers::of(alloc, program.handlers.as_slice())?;
        let levels = opening_levels(alloc, program, number)?;
        Ok(Actor {
            tables,
            program,
            handlers,
            number,
            home: home_of(tables, program, number),
            levels,
            bindings: Vec::new(alloc),
            trace: Vec::new(alloc),
            halted: false,
            last: 0,
        })
    }

    /// What comes next: the ask that is due after the trace.
    pub fn next(&self, alloc: Global) -> Result<Next, NoMemory>
        ensures { IfOk result (λ next. next ≡ next_of self.now.state.thread.halted (due_of_actor self.now)) }
    {
        if self.halted {
            return Ok(Next::Halted);
        }
        let view = View {
            tables: self.tables,
            program: self.program,
            handlers: &self.handlers,
            number: self.number,
            trace: self.trace.as_slice(),
        };
        let due = view.due(
            alloc,
            self.home,
            self.levels.as_slice(),
            self.bindings.as_slice(),
        )?;
        match due {
            Some((instance, ask)) => Ok(Next::Ask { instance, ask }),
            None => Ok(Next::AtEnd),
        }
    }

    /// Makes room for one entry.
    pub fn reserve(&mut self) -> Result<(), NoMemory>
        ensures room { OnOk result (self.new.has_room ≡ true) }
        ensures same { self.new ≡ record self.old { has_room = self.new.has_room } }
    {
        self.trace.reserve(1)?;
        self.levels.reserve(1)?;
        self.bindings.reserve(1)?;
        Ok(())
    }

    /// Goes on by an entry. It takes no memory.
    pub fn accept(&mut self, entry: Entry)
        requires room { self.old.has_room ≡ true }
        requires answers { AnswersDue self.old entry }
        requires above { self.old.state.last < entry.stamp }
        requires within { entry.stamp ≤ self.old.program.steps }
        ensures state { actor_part self.old.tables self.old.program self.old.number self.old.state entry ≡ Some self.new.state }
        ensures trace { self.new.trace ≡ self.old.trace ++ entry ∷ [] }
        ensures same { IsSameActor self.old self.new }
    {
        let at = self.trace.len();
        self.halted = is_assert(&entry.what);
        self.last = entry.stamp;
        self.trace.push_reserved(entry);
        let view = View {
            tables: self.tables,
            program: self.program,
            handlers: &self.handlers,
            number: self.number,
            trace: self.trace.as_slice(),
        };
        view.follow(&mut self.levels, &mut self.bindings, at);
    }

    pub fn trace(&self) -> &[Entry]
        ensures trace { result.now ≡ self.now.trace }
        ensures told { IsToldOf self.now }
    {
        self.trace.as_slice()
    }

    /// The trace of a run that is over.
    pub fn into_trace(self) -> Row<Entry>
        ensures trace { result ≡ self.entry.trace }
        ensures told { IsToldOf self.entry }
    {
        let Actor { trace, .. } = self;
        Row::from_vec(trace)
    }

    /// The stamp of the last entry, 0 before the first.
    pub fn last(&self) -> u64
        ensures { result ≡ self.now.state.last }
    {
        self.last
    }

    /// Whether it has no frame but a caller's own list, of which no action is left.
    pub fn is_through(&self) -> bool
        ensures { result ≡ is_through self.now.state.thread.frames }
    {
        let view = View {
            tables: self.tables,
            program: self.program,
            handlers: &self.handlers,
            number: self.number,
            trace: self.trace.as_slice(),
        };
        view.is_through(self.levels.as_slice())
    }
}

/// A caller begins with its own list, and a dispatcher with nothing.
fn opening_levels(alloc: Global, program: &Program, number: u32) -> Result<Vec<Level>, NoMemory>
    ensures { IfOk result (λ levels. levels.items ≡ opening_of (slice_get program.now.callers number)) }
{
    let mut levels = Vec::new(alloc);
    if program.callers.get(number as usize).is_some() {
        levels.push(Level {
            base: Base::Own,
            next: Position {
                source: Source::Own,
                list: 0,
                action: 0,
            },
            first: 0,
            past: 0,
        })?;
    }
    Ok(levels)
}
