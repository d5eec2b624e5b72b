ghost use Rattle.std.specs.Prelude.{◌≡◌, ◌≤◌, ◌<◌, ◌++◌, ◌∷◌, [], None, Some, true, IfOk, OnErr};
ghost use Rattle.fp_tables.specs.Sound.{IsSoundFor};
ghost use Rattle.fp_events.specs.Fits.{actor_count, ask_fits};
ghost use Rattle.fp_tables.specs.Acts.{is_placed};
ghost use Rattle.fp_events.specs.Ends.{none_pending};
ghost use Rattle.fp_events.specs.Waits.{waits};
ghost use Rattle.fp_cell.specs.Cells.{opened, IsKeptOf};
ghost use Rattle.fp_cell.specs.Ready.{IsReady};
ghost use Rattle.fp_cell.specs.Replies.{Answered};
ghost use Rattle.fp_cell.specs.Stepping.{Steps, HasSameQueue, inside};

use crate::asking::tell;
use crate::causes::cause;
use crate::opening::{opening_state, setting_of};
use crate::setting::Setting;
use crate::state::State;
use fp_base::{NoMemory, Row};
use fp_events::{Ask, Entry, Why};
use fp_tables::{Program, Tables};
use std::alloc::Global;
use std::marker::Model;
use std::mem;

/// What an instance answers to an ask: its entry; why it has none now; or that the entry's stamp would be above the program's
/// limit.
#[derive(Drop)]
pub enum Reply {
    Stepped(Entry),
    NotYet(Why),
    AtLimit,
}

/// An instance of a running topology.
#[derive(Drop)]
pub struct Cell<'a> {
    setting: Setting<'a>,
    state: State,
    last: u64,
    history: Row<Entry>,
}

impl<'a> Model for Cell<'a> {
    ghost use Rattle.std.specs.Coded.{codes};
    ghost use Rattle.fp_base.specs.contracts.value.Value as value;
    ghost use Rattle.fp_cell.specs.Cells.{Standing};

    ghost Value = { Standing };

    ghost coded = { Prim.hlevel (codes, value.the_row.coded) };

    ghost use Rattle.fp_cell.specs.Kept.{standing, IsKept};

    ghost view = { standing };

    ghost invariant = { IsKept };
}

impl<'a> Cell<'a> {
    /// The cell of an instance at the opening.
    pub fn open(
        alloc: Global,
        tables: &'a Tables,
        program: &'a Program,
        instance: u32,
    ) -> Result<Cell<'a>, NoMemory>
        requires sound { IsSoundFor tables.now.model (Some tables.now.topology) }
        requires placed { is_placed tables.now instance ≡ true }
        ensures { IfOk result (λ cell. cell ≡ opened (record { tables = tables.now; program = program.now; instance = instance })) }
    {
        let setting = setting_of(alloc, tables, program, instance)?;
        let state = opening_state(alloc, tables, instance)?;
        Ok(Cell {
            setting,
            state,
            last: 0,
            history: Row::new(alloc),
        })
    }

    /// Answers an ask of an actor whose last stamp was seen.
    pub fn apply(
        &mut self,
        alloc: Global,
        actor: u32,
        seen: u64,
        ask: &Ask,
    ) -> Result<Reply, NoMemory>
        requires actor { actor < actor_count self.old.seat.tables self.old.seat.program }
        requires askable { ask_fits self.old.seat.tables self.old.seat.program self.old.seat.instance ask.now ≡ true }
        ensures answered { IfOk result (λ reply. Answered self.old actor ask.now seen reply self.new) }
        ensures unchanged { OnErr result (self.new ≡ self.old) }
    {
        if let Some(why) = cause(self.setting.tables, self.setting.instance, &self.state, ask) {
            return Ok(Reply::NotYet(why));
        }
        let newest = self.last.max(seen);
        if u64::from(self.setting.program.steps) <= newest {
            return Ok(Reply::AtLimit);
        }
        let stamp = newest + 1;
        let entry = append(
            alloc,
            &self.setting,
            &mut self.state,
            &mut self.history,
            actor,
            stamp,
            ask,
        )?;
        self.last = stamp;
        Ok(Reply::Stepped(entry))
    }

    pub fn history(&self) -> &Row<Entry>
        ensures history { result.now ≡ self.now.history }
        ensures kept { IsKeptOf self.now }
    {
        &self.history
    }

    /// The history of a run that is over.
    pub fn into_history(self) -> Row<Entry>
        ensures history { result ≡ self.entry.history }
        ensures kept { IsKeptOf self.entry }
    {
        let Cell { history, .. } = self;
        history
    }

    /// Whether no call is pending.
    pub fn is_idle(&self) -> bool
        ensures { result ≡ none_pending self.now.state.inside.pending }
    {
        self.state.calls.is_empty()
    }
}

/// Appends what the instance makes of an ask, with a stamp.
fn append(
    alloc: Global,
    setting: &Setting,
    state: &mut State,
    history: &mut Row<Entry>,
    actor: u32,
    stamp: u64,
    ask: &Ask,
) -> Result<Entry, NoMemory>
    requires ready { IsReady setting.now state.old }
    requires askable { ask_fits setting.now.tables.now setting.now.program.now setting.now.instance ask.now ≡ true }
    requires free { waits setting.now.tables.now setting.now.instance (inside state.old) ask.now ≡ None }
    ensures entry { IfOk result (λ e. e ≡ record { stamp = stamp; actor = actor; instance = setting.now.instance; what = e.what }) }
    ensures step { IfOk result (λ e. Steps setting.now.tables.now setting.now.program.now setting.now.instance actor ask.now (inside state.old) e.what (inside state.new)) }
    ensures history { IfOk result (λ e. history.new ≡ history.old ++ e ∷ []) }
    ensures queue { HasSameQueue state.old state.new }
    ensures state { OnErr result (state.new ≡ state.old) }
    ensures unchanged { OnErr result (history.new ≡ history.old) }
{
    let mut entries = mem::replace(history, Row::new(alloc)).into_vec();
    let entry = push_told(alloc, setting, state, &mut entries, actor, stamp, ask);
    *history = Row::from_vec(entries);
    entry
}

fn push_told(
    alloc: Global,
    setting: &Setting,
    state: &mut State,
    entries: &mut Vec<Entry>,
    actor: u32,
    stamp: u64,
    ask: &Ask,
) -> Result<Entry, NoMemory>
    requires ready { IsReady setting.now state.old }
    requires askable { ask_fits setting.now.tables.now setting.now.program.now setting.now.instance ask.now ≡ true }
    requires free { waits setting.now.tables.now setting.now.instance (inside state.old) ask.now ≡ None }
    ensures entry { IfOk result (λ e. e ≡ record { stamp = stamp; actor = actor; instance = setting.now.instance; what = e.what }) }
    ensures step { IfOk result (λ e. Steps setting.now.tables.now setting.now.program.now setting.now.instance actor ask.now (inside state.old) e.what (inside state.new)) }
    ensures entries { IfOk result (λ e. entries.new.items ≡ entries.old.items ++ e ∷ []) }
    ensures queue { HasSameQueue state.old state.new }
    ensures state { OnErr result (state.new ≡ state.old) }
    ensures unchanged { OnErr result (entries.new.items ≡ entries.old.items) }
{
    // The room comes first: no call that fails follows what the instance does.
    entries.reserve(1)?;
    let (kept, given) = tell(alloc, setting, state, actor, ask)?.into_both();
    let instance = setting.instance;
    let _ = entries.push(Entry {
        stamp,
        actor,
        instance,
        what: kept,
    });
    Ok(Entry {
        stamp,
        actor,
        instance,
        what: given,
    })
}
