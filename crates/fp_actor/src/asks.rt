ghost use Rattle.std.specs.Prelude.{◌≡◌, ℕ, List, [], Some, map, option_map, option_and_then, unwrap_or, slice_get, IfOk};
ghost use Rattle.fp_tables.specs.Specials.{component as component_at, special_wire as wire_of};
ghost use Rattle.fp_tables.specs.Lookup.{Described};
ghost use Rattle.fp_tables.specs.declared.program.Program.{Program};
ghost use Rattle.fp_events.specs.Lookup.{default_of as default_of_kind, result_of};
ghost use Rattle.fp_events.specs.Due.{asks_in, asks_out, sent_from, along as asks_along, at_port, first_value, ends_with};
ghost use Rattle.fp_events.specs.Follows.{returned};
ghost use Rattle.fp_events.specs.declared.event.Point.TheVariants as point;
ghost use Rattle.fp_events.specs.declared.event.Ask.TheVariants as ask;
ghost use Rattle.fp_events.specs.declared.event.Entry.{Entry};
ghost use Rattle.fp_actor.specs.declared.level.Source.{Source};
ghost use Rattle.fp_actor.specs.Entries.{default_of};
ghost use Rattle.fp_actor.specs.Stacked.{opened_in};
ghost use Rattle.fp_actor.specs.Seen.{default_in, instance_of};

use crate::level::{Base, Source};
use crate::values::bind_of;
use crate::view::View;
use fp_base::{NoMemory, Row, Text, Value};
use fp_events::{Arrival, Ask, Entry, Origin, Point, What};
use fp_tables::{Act, End, Formal, Kind, Special, Tables, Verb};
use std::alloc::Global;

/// The default of a type.
fn default_value(alloc: Global, tables: &Tables, kind: Kind) -> Result<Value, NoMemory>
    ensures { IfOk result (λ v. v ≡ default_of_kind tables.now kind) }
{
    match kind {
        Kind::Bool => Ok(Value::Bool(false)),
        Kind::Str { .. } => Ok(Value::Text(Text::new(alloc))),
        Kind::Named(named) => match tables.model().types.get(named as usize) {
            Some(found) => found.default.copy(alloc),
            None => Ok(Value::Int(0)),
        },
        _ => Ok(Value::Int(0)),
    }
}

/// The definition of an instance's port.
fn definition_of(tables: &Tables, instance: u32, port: u32) -> Option<u32>
    ensures { result ≡ option_and_then (λ p. p.of) (slice_get (component_at tables.now instance).ports port) }
{
    match tables.component(instance) {
        Some(component) => match component.ports.get(port as usize) {
            Some(port) => port.of,
            None => None,
        },
        None => None,
    }
}

/// The type of what an instance's port returns.
fn result_kind(tables: &Tables, instance: u32, port: u32) -> Option<Kind>
    ensures { option_map (default_of_kind tables.now) result ≡ result_of tables.now instance port }
{
    match definition_of(tables, instance, port) {
        Some(definition) => match tables.model().ports.get(definition as usize) {
            Some(definition) => definition.result,
            None => None,
        },
        None => None,
    }
}

fn default_result(
    alloc: Global,
    tables: &Tables,
    instance: u32,
    point: Point,
) -> Result<Option<Value>, NoMemory>
    ensures { (program : Program) → IfOk result (λ v. v ≡ returned tables.now program instance point) }
{
    match point {
        Point::Port { port, .. } => match result_kind(tables, instance, port) {
            Some(kind) => Ok(Some(default_value(alloc, tables, kind)?)),
            None => Ok(None),
        },
        _ => Ok(None),
    }
}

fn defaults(alloc: Global, tables: &Tables, formals: &[Formal]) -> Result<Row<Value>, NoMemory>
    ensures { IfOk result (λ vs. vs ≡ map (λ f. default_of_kind tables.now f.kind) formals.now) }
{
    let mut values = Row::with_capacity(alloc, formals.len())?;
    for formal in formals {
        values.push(default_value(alloc, tables, formal.kind)?)?;
    }
    Ok(values)
}

/// Defaults for all parameters of an instance's port.
fn port_defaults(
    alloc: Global,
    tables: &Tables,
    instance: u32,
    port: u32,
) -> Result<Row<Value>, NoMemory>
    ensures { IfOk result (λ vs. vs ≡ unwrap_or (option_map (λ p. map (λ f. default_of_kind tables.now f.kind) p.formals) (slice_get (component_at tables.now instance).ports port)) []) }
{
    match tables.component(instance) {
        Some(component) => match component.ports.get(port as usize) {
            Some(port) => defaults(alloc, tables, port.formals.as_slice()),
            None => Ok(Row::new(alloc)),
        },
        None => Ok(Row::new(alloc)),
    }
}

fn first(with: Row<Value>) -> Value
    ensures { result ≡ first_value with }
{
    let mut values = with.into_vec();
    if values.is_empty() {
        Value::Opaque
    } else {
        values.remove(0)
    }
}

/// The end of a frame, with a value where it returns one.
fn ends(base: Base, instance: u32, value: Option<Value>) -> Option<(u32, Ask)>
    ensures { (t : Described) (program : Program) (n : ℕ) (trace : List Entry) (from : Source)
        → result ≡ ends_with t program (opened_in t program n trace base from) instance value }
{
    match base {
        Base::Inside => None,
        Base::Own => None,
        Base::Arrived(_) => Some((instance, Ask::Leave(value))),
        Base::Taken => Some((instance, Ask::Done)),
    }
}

fn arrives(instance: u32, point: Point, origin: Origin, with: Row<Value>) -> Option<(u32, Ask)>
    ensures { result ≡ Some (instance, ask.Arrive (record { point = point; origin = origin; with = with })) }
{
    Some((
        instance,
        Ask::Arrive(Arrival {
            point,
            origin,
            with,
        }),
    ))
}

fn begins(instance: u32, act: &Act) -> End
    ensures { result ≡ record { instance = instance; port = act.now.subject.port; number = act.now.subject.number } }
{
    End {
        instance,
        port: act.subject.port,
        number: act.subject.number,
    }
}

fn calls(tables: &Tables, from: End, with: Row<Value>) -> Option<(u32, Ask)>
    ensures { (program : Program) → result ≡ asks_along tables.now program from (at_port tables.now program) with }
{
    match tables.wire(from.instance, from.port, from.number) {
        Some(to) => {
            let point = Point::Port {
                port: to.port,
                number: to.number,
            };
            arrives(to.instance, point, Origin::Wire { from, note: None }, with)
        }
        None => None,
    }
}

fn commands(tables: &Tables, from: End, command: u32, with: Row<Value>) -> Option<(u32, Ask)>
    ensures { (program : Program) → result ≡ asks_along tables.now program from (λ to. point.Command command) with }
{
    match tables.wire(from.instance, from.port, from.number) {
        Some(to) => {
            let origin = Origin::Wire { from, note: None };
            arrives(to.instance, Point::Command(command), origin, with)
        }
        None => None,
    }
}

/// What an action of a caller's own list asks.
pub fn caller_asks(act: &Act, with: Row<Value>) -> Option<(u32, Ask)>
    ensures { (t : Described) (program : Program) → result ≡ asks_out t program act.now with act.now.verb }
{
    let to = act.subject;
    match act.verb {
        Verb::Call => {
            let point = Point::Port {
                port: to.port,
                number: to.number,
            };
            arrives(to.instance, point, Origin::Caller, with)
        }
        Verb::Command => arrives(to.instance, Point::Command(act.name), Origin::Caller, with),
        _ => None,
    }
}

impl<'v> View<'v> {
    pub fn instance(&self, source: Source) -> u32
        ensures { result ≡ instance_of self.now source }
    {
        match source {
            Source::Own => 0,
            Source::Entry { entry, .. } => match self.entry(entry) {
                Some(entry) => entry.instance,
                None => 0,
            },
        }
    }

    /// What is returned from a frame where no action returns anything.
    pub fn default(&self, alloc: Global, source: Source) -> Result<Option<Value>, NoMemory>
        ensures { IfOk result (λ v. v ≡ default_in self.now source) }
    {
        match source {
            Source::Own => Ok(None),
            Source::Entry { entry, .. } => match self.entry(entry) {
                Some(entry) => self.default_by_entry(alloc, entry),
                None => Ok(None),
            },
        }
    }

    fn default_by_entry(&self, alloc: Global, entry: &Entry) -> Result<Option<Value>, NoMemory>
        ensures { IfOk result (λ v. v ≡ default_of self.now.tables.now self.now.program.now entry.now.instance entry.now.what) }
    {
        match &entry.what {
            What::Enter(arrival) => {
                default_result(alloc, self.tables, entry.instance, arrival.point)
            }
            What::Guard(arrival) => {
                default_result(alloc, self.tables, entry.instance, arrival.point)
            }
            _ => Ok(None),
        }
    }

    /// A send, where the special port has a wire.
    pub fn sends(
        &self,
        alloc: Global,
        instance: u32,
        from: Special,
        note: &str,
    ) -> Result<Option<(u32, Ask)>, NoMemory>
        ensures { IfOk result (λ d. d ≡ sent_from self.now.tables.now self.now.program.now (wire_of self.now.tables.now instance from) note.now) }
    {
        match self.tables.special_wire(instance, from) {
            Some((from, to)) => {
                let with = port_defaults(alloc, self.tables, to.instance, to.port)?;
                let note = Text::from_str(alloc, note)?;
                let point = Point::Port {
                    port: to.port,
                    number: to.number,
                };
                let origin = Origin::Wire {
                    from,
                    note: Some(note),
                };
                Ok(arrives(to.instance, point, origin, with))
            }
            None => Ok(None),
        }
    }

    /// What an action of a handler asks.
    pub fn handler_asks(
        &self,
        alloc: Global,
        base: Base,
        instance: u32,
        act: &Act,
        with: Row<Value>,
    ) -> Result<Option<(u32, Ask)>, NoMemory>
        ensures { (n : ℕ) (trace : List Entry) (from : Source) → IfOk result (λ d. d ≡ asks_in self.now.tables.now self.now.program.now (opened_in self.now.tables.now self.now.program.now n trace base from) instance act.now with act.now.verb) }
    {
        match act.verb {
            Verb::Call => Ok(calls(self.tables, begins(instance, act), with)),
            Verb::Command => Ok(commands(self.tables, begins(instance, act), act.name, with)),
            Verb::Respond => self.sends(alloc, instance, Special::CmdResp, bind_of(act)),
            Verb::Post => {
                Ok(arrives(instance, Point::Post(act.subject.port), Origin::Own, with))
            }
            Verb::Signal => {
                let point = Point::Signal {
                    running: act.subject.port,
                    signal: act.name,
                };
                Ok(arrives(instance, point, Origin::Own, with))
            }
            Verb::Emit => Ok(Some((
                instance,
                Ask::Emit {
                    event: act.name,
                    with,
                },
            ))),
            Verb::Write => Ok(Some((
                instance,
                Ask::Write {
                    channel: act.name,
                    value: first(with),
                },
            ))),
            Verb::Read => Ok(Some((instance, Ask::Read(act.name)))),
            Verb::Dispatch => Ok(Some((instance, Ask::Dispatch))),
            Verb::Return => Ok(ends(base, instance, Some(first(with)))),
        }
    }
}
