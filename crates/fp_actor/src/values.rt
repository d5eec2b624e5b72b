ghost use Rattle.std.specs.Prelude.{◌≡◌, ◌≤◌, ◌↔◌, ◌++◌, [], List, map, reverse, find, length, option_map, option_and_then, unwrap_or, slice_get, IsTrue, IfOk, None, take, drop, cond, ◌&&◌, ◌∷◌, codes};
ghost use Rattle.std.specs.List.{zip};
ghost use Rattle.std.specs.Option.{option_copied};
ghost use Rattle.fp_tables.specs.Specials.{component as component_at};
ghost use Rattle.fp_base.specs.Same.{same_text};
ghost use Rattle.fp_events.specs.Lookup.{machine as machine_at, names};
ghost use Rattle.fp_events.specs.Due.{value_of, values as values_of};
ghost use Rattle.fp_events.specs.Follows.{bound_name as bound_name_of, handling as handling_of, hooking as hooking_of, performed};
ghost use Rattle.fp_base.specs.declared.value.Value.{Value, Opaque};
ghost use Rattle.fp_tables.specs.declared.program.Program.{Program};
ghost use Rattle.fp_actor.specs.Entries.{value_given, signal_in, lists_of, has_kind_at};
ghost use Rattle.fp_actor.specs.Levels.{IsWithin};
ghost use Rattle.fp_actor.specs.Seen.{action_at, action_of, with_nothing, binding, given_at, value_at, bound_in, named_value, bindings_of};

use crate::level::{Binding, Level, Position, Source};
use crate::lists::Deed;
use crate::view::View;
use fp_base::{NoMemory, Row, Value};
use fp_events::{Entry, Point, What};
use fp_tables::{Act, Arg, Formal, Tables};
use std::alloc::Global;

fn is_same(left: &str, right: &str) -> bool
    ensures { IsTrue result ↔ (left.now ≡ right.now) }
{
    left == right
}

fn same_name(left: &str, right: &str) -> bool
    ensures { result ≡ same_text left.now right.now }
{
    is_same(left, right)
}

/// The name that an action binds, or its identifier.
pub fn bind_of(act: &Act) -> &str
    ensures { result.now ≡ unwrap_or act.now.bind [] }
{
    match &act.bind {
        Some(name) => name.as_str(),
        None => "",
    }
}

fn given_value(alloc: Global, what: &What) -> Result<Value, NoMemory>
    ensures { IfOk result (λ v. v ≡ value_given what.now) }
{
    match what {
        What::Leave(Some(value)) => value.copy(alloc),
        What::Read { value, .. } => value.copy(alloc),
        _ => Ok(Value::Opaque),
    }
}

fn first_value(alloc: Global, point: Point, with: &[Value]) -> Result<Option<Value>, NoMemory>
    ensures { IfOk result (λ v. v ≡ signal_in point with.now) }
{
    match point {
        Point::Signal { .. } => match with.split_first() {
            Some((value, _)) => Ok(Some(value.copy(alloc)?)),
            None => Ok(None),
        },
        _ => Ok(None),
    }
}

/// The value of the first formal of a name.
fn formal_value(
    alloc: Global,
    formals: &[Formal],
    with: &[Value],
    name: &str,
) -> Result<Option<Value>, NoMemory>
    ensures { IfOk result (λ v. v ≡ option_map (λ b. b.1) (find (λ b. same_text b.0 name.now) (zip (map (λ f. f.name) formals.now) with.now))) }
{
    for (formal, value) in formals.iter().zip(with) {
        if same_name(formal.name.as_str(), name) {
            return Ok(Some(value.copy(alloc)?));
        }
    }
    Ok(None)
}

/// The bindings made so far in the first list of a level.
fn made_in(level: Level, bindings: &[Binding]) -> &[Binding]
    requires { IsWithin (length bindings.now) level }
    ensures { result.now ≡ drop level.first (take level.past bindings.now) }
{
    let (made, _) = bindings.split_at(level.past);
    let (_, made) = made.split_at(level.first);
    made
}

fn or_opaque(value: Option<Value>) -> Value
    ensures { result ≡ unwrap_or value Opaque }
{
    match value {
        Some(value) => value,
        None => Value::Opaque,
    }
}

impl<'v> View<'v> {
    pub fn entry(&self, at: usize) -> Option<&Entry>
        ensures { option_copied result ≡ slice_get self.now.trace.now at }
    {
        self.trace.get(at)
    }

    pub fn deed(&self, at: Position) -> Option<Deed<'v>>
        ensures { option_map (action_of self.now) result
            ≡ action_at self.now at }
    {
        match self.list(at.source, at.list) {
            Some(list) => list.get(at.action),
            None => None,
        }
    }

    fn bound_name(&self, at: Position) -> &str
        ensures { result.now ≡ bound_name_of self.now.tables.now self.now.program.now (with_nothing self.now at) }
    {
        match self.deed(at) {
            Some(Deed::Act(act)) => bind_of(act),
            Some(Deed::Send(_)) => "",
            Some(Deed::Advance { .. }) => "",
            None => "",
        }
    }

    /// The place of the value that was bound last to a name.
    fn latest(&self, made: &[Binding], name: &str) -> Option<usize>
        ensures { option_map (given_at self.now) result
            ≡ option_map (λ b. b.1) (find (λ b. same_text b.0 name.now)
            (map (binding self.now) (reverse made.now))) }
    {
        let mut left = made;
        while let Some((last, earlier)) = left.split_last() {
            if same_name(self.bound_name(last.name), name) {
                return Some(last.value);
            }
            left = earlier;
        }
        None
    }

    fn given(&self, alloc: Global, at: usize) -> Result<Value, NoMemory>
        ensures { IfOk result (λ v. v ≡ given_at self.now at) }
    {
        match self.trace.get(at) {
            Some(entry) => given_value(alloc, &entry.what),
            None => Ok(Value::Opaque),
        }
    }

    /// The value of the signal that an entry hands on.
    pub fn signal_value(&self, alloc: Global, at: usize) -> Result<Option<Value>, NoMemory>
        ensures { IfOk result (λ v. v ≡ value_at self.now at) }
    {
        match self.trace.get(at) {
            Some(entry) => match &entry.what {
                What::Enter(arrival) => {
                    first_value(alloc, arrival.point, arrival.with.as_slice())
                }
                What::Guard(arrival) => {
                    first_value(alloc, arrival.point, arrival.with.as_slice())
                }
                What::Take { point, with, .. } => first_value(alloc, *point, with.as_slice()),
                _ => Ok(None),
            },
            None => Ok(None),
        }
    }
}

/// The formals of a place; a signal has none.
fn formals(tables: &Tables, instance: u32, point: Point) -> &[Formal]
    ensures { (program : Program) (with : List Value) → (handling_of tables.now program instance point with).bound ≡ zip (map (λ f. f.name) result.now) with }
{
    match point {
        Point::Port { port, .. } => port_formals(tables, instance, port),
        Point::Post(port) => port_formals(tables, instance, port),
        Point::Command(command) => command_formals(tables, instance, command),
        Point::Signal { .. } => &[],
    }
}

fn port_formals(tables: &Tables, instance: u32, port: u32) -> &[Formal]
    ensures { map (λ f. f.name) result.now ≡ unwrap_or (option_map (λ p. names p.formals) (slice_get (component_at tables.now instance).ports port)) [] }
{
    match tables.component(instance) {
        Some(component) => match component.ports.get(port as usize) {
            Some(port) => port.formals.as_slice(),
            None => &[],
        },
        None => &[],
    }
}

fn command_formals(tables: &Tables, instance: u32, command: u32) -> &[Formal]
    ensures { map (λ f. f.name) result.now ≡ unwrap_or (option_map (λ c. names c.formals) (slice_get (component_at tables.now instance).commands command)) [] }
{
    match tables.component(instance) {
        Some(component) => match component.commands.get(command as usize) {
            Some(command) => command.formals.as_slice(),
            None => &[],
        },
        None => &[],
    }
}

/// Whether an action of a machine instance takes a value.
fn takes_value(tables: &Tables, instance: u32, running: u32, action: u32) -> bool
    ensures { result ≡ has_kind_at (option_and_then (λ m. slice_get m.actions action) (machine_at tables.now instance running)) }
{
    match tables.component(instance) {
        Some(component) => match component.machines.get(running as usize) {
            Some(running) => machine_takes_value(tables, running.machine, action),
            None => false,
        },
        None => false,
    }
}

fn machine_takes_value(tables: &Tables, machine: u32, action: u32) -> bool
    ensures { result ≡ has_kind_at (option_and_then (λ m. slice_get m.actions action) (slice_get tables.now.model.machines machine)) }
{
    match tables.model().machines.get(machine as usize) {
        Some(machine) => match machine.actions.get(action as usize) {
            Some(action) => action.kind.is_some(),
            None => false,
        },
        None => false,
    }
}

impl<'v> View<'v> {
    /// The value that an action of a machine instance takes, where this is its name.
    fn action_value(
        &self,
        alloc: Global,
        takes: bool,
        value: usize,
        name: &str,
    ) -> Result<Option<Value>, NoMemory>
        ensures { IfOk result (λ v. v ≡ cond (takes && same_text (codes "value") name.now) (value_at self.now value) None) }
    {
        if takes & same_name("value", name) {
            self.signal_value(alloc, value)
        } else {
            Ok(None)
        }
    }

    /// The value of a name in the list of an action of a start or a move.
    fn performed_value(
        &self,
        alloc: Global,
        instance: u32,
        running: u32,
        actions: &Row<u32>,
        value: usize,
        list: usize,
        name: &str,
    ) -> Result<Option<Value>, NoMemory>
        ensures { IfOk result (λ v. v ≡ option_map (λ b. b.1) (find (λ b. same_text b.0 name.now) (unwrap_or (option_map (λ d. d.bound)
            (slice_get (performed self.now.tables.now self.now.program.now instance running actions.now (value_at self.now value)) list)) []))) }
    {
        match actions.get(list) {
            Some(action) => {
                let takes = takes_value(self.tables, instance, running, *action);
                self.action_value(alloc, takes, value, name)
            }
            None => Ok(None),
        }
    }

    /// The value of a name among the formals of an arrival or a take.
    fn handled_value(
        &self,
        alloc: Global,
        instance: u32,
        point: Point,
        with: &[Value],
        list: usize,
        name: &str,
    ) -> Result<Option<Value>, NoMemory>
        ensures { IfOk result (λ v. v ≡ option_map (λ b. b.1) (find (λ b. same_text b.0 name.now) (unwrap_or (option_map (λ d. d.bound)
            (slice_get (handling_of self.now.tables.now self.now.program.now instance point with.now ∷ []) list)) []))) }
    {
        if list == 0 {
            formal_value(alloc, formals(self.tables, instance, point), with, name)
        } else {
            Ok(None)
        }
    }

    /// The value of a name among the formals of an arrival that is left to a hook.
    fn hooked_value(
        &self,
        alloc: Global,
        instance: u32,
        point: Point,
        with: &[Value],
        list: usize,
        name: &str,
    ) -> Result<Option<Value>, NoMemory>
        ensures { IfOk result (λ v. v ≡ option_map (λ b. b.1) (find (λ b. same_text b.0 name.now) (unwrap_or (option_map (λ d. d.bound)
            (slice_get (hooking_of self.now.tables.now self.now.program.now instance point with.now ∷ []) list)) []))) }
    {
        self.handled_value(alloc, instance, point, with, list, name)
    }

    /// The value that a name has before any action of a list.
    fn base_value(&self, alloc: Global, at: Position, name: &str) -> Result<Option<Value>, NoMemory>
        ensures { IfOk result (λ v. v ≡ option_map (λ b. b.1) (find (λ b. same_text b.0 name.now)
            (bound_in self.now at))) }
    {
        match at.source {
            Source::Own => Ok(None),
            Source::Entry { entry, value } => match self.entry(entry) {
                Some(entry) => self.value_by_entry(alloc, entry, value, at.list, name),
                None => Ok(None),
            },
        }
    }

    fn value_by_entry(
        &self,
        alloc: Global,
        entry: &Entry,
        value: usize,
        list: usize,
        name: &str,
    ) -> Result<Option<Value>, NoMemory>
        ensures { IfOk result (λ v. v ≡ option_map (λ b. b.1) (find (λ b. same_text b.0 name.now) (unwrap_or (option_map (λ d. d.bound)
            (slice_get (lists_of self.now.tables.now self.now.program.now (value_at self.now value) entry.now.instance entry.now.what) list)) []))) }
    {
        let instance = entry.instance;
        match &entry.what {
            What::Enter(arrival) => {
                self.handled_value(
                    alloc,
                    instance,
                    arrival.point,
                    arrival.with.as_slice(),
                    list,
                    name,
                )
            }
            What::Guard(arrival) => {
                self.handled_value(
                    alloc,
                    instance,
                    arrival.point,
                    arrival.with.as_slice(),
                    list,
                    name,
                )
            }
            What::Take { point, with, .. } => {
                self.handled_value(alloc, instance, *point, with.as_slice(), list, name)
            }
            What::Hooked(arrival) => {
                self.hooked_value(
                    alloc,
                    instance,
                    arrival.point,
                    arrival.with.as_slice(),
                    list,
                    name,
                )
            }
            What::Start {
                running,
                actions,
                ..
            } => self.performed_value(alloc, instance, *running, actions, value, list, name),
            What::Move {
                running,
                actions,
                ..
            } => self.performed_value(alloc, instance, *running, actions, value, list, name),
            _ => Ok(None),
        }
    }

    /// The value of a name in the first list of a level, the one bound last.
    fn bound_value(
        &self,
        alloc: Global,
        level: Level,
        bindings: &[Binding],
        name: &str,
    ) -> Result<Value, NoMemory>
        requires { IsWithin (length bindings.now) level }
        ensures { IfOk result (λ v. v ≡ named_value self.now bindings.now level name.now) }
    {
        let made = made_in(level, bindings);
        match self.latest(made, name) {
            Some(at) => self.given(alloc, at),
            None => self.base_or_opaque(alloc, level.next, name),
        }
    }

    fn base_or_opaque(&self, alloc: Global, at: Position, name: &str) -> Result<Value, NoMemory>
        ensures { IfOk result (λ v. v ≡ unwrap_or (option_map (λ b. b.1) (find (λ b. same_text b.0 name.now)
            (bound_in self.now at))) Opaque) }
    {
        let base = self.base_value(alloc, at, name)?;
        Ok(or_opaque(base))
    }

    fn argument(
        &self,
        alloc: Global,
        level: Level,
        bindings: &[Binding],
        arg: &Arg,
    ) -> Result<Value, NoMemory>
        requires { IsWithin (length bindings.now) level }
        ensures { IfOk result (λ v. v ≡ value_of (bindings_of self.now bindings.now level) arg.now) }
    {
        match arg {
            Arg::Given(value) => value.copy(alloc),
            Arg::Bound(name) => self.bound_value(alloc, level, bindings, name.as_str()),
        }
    }

    /// The values of the arguments of an action at the level's place.
    pub fn arguments(
        &self,
        alloc: Global,
        level: Level,
        bindings: &[Binding],
        args: &[Arg],
    ) -> Result<Row<Value>, NoMemory>
        requires { IsWithin (length bindings.now) level }
        ensures { IfOk result (λ vs. vs ≡ values_of (bindings_of self.now bindings.now level) args.now) }
    {
        let mut values = Row::with_capacity(alloc, args.len())?;
        for arg in args {
            values.push(self.argument(alloc, level, bindings, arg)?)?;
        }
        Ok(values)
    }
}
