ghost use Rattle.std.specs.Prelude.{◌≡◌, ◌+◌, ◌<◌, ◌≤◌, ◌^◌, ℕ, IfOk, MatchBool, Some, length, slice_get, filter};
ghost use Rattle.fp_machine_rules.specs.Forms.{IsLaid, is_signal, is_vertex};
ghost use Rattle.fp_machine_rules.specs.Nested.{Deep, NestsTooDeep, IsTooLarge, AreDepths, IsTooDeepAt};
ghost use Rattle.fp_machine_rules.specs.Leaving.{parent_at};
ghost use Rattle.fp_machine_rules.specs.declared.item.Form.TheVariants.{Declares};
ghost use Rattle.fp_machine_rules.specs.declared.item.Item.{Item};

use crate::item::{Declaration, Form, Item};
use crate::leaving::parent_of;
use crate::reached::{form_of, is_vertex};
use fp_base::NoMemory;
use std::alloc::Global;

/// The most levels of states and choices.
const MOST_LEVELS: usize = 16;

/// The most states and choices, and the most signals.
const MOST: usize = 1_000;

/// Whether a machine nests too deep or has too many states and choices, or too many signals. Nothing recurses.
pub fn is_too_large(alloc: Global, items: &[Item]) -> Result<bool, NoMemory>
    requires laid { IsLaid items.now }
    requires short { length items.now < 2 ^ 32 }
    ensures { IfOk result (λ large. MatchBool large (IsTooLarge items.now) (IsTooLarge items.now → ⊥)) }
{
    let depths = depths_of(alloc, items)?;
    let deep = nests_too_deep(items, &depths);
    let many = vertices_in(items) > MOST;
    let wide = signals_in(items) > MOST;
    Ok(deep | many | wide)
}

fn depths_of(alloc: Global, items: &[Item]) -> Result<Vec<usize>, NoMemory>
    requires laid { IsLaid items.now }
    requires short { length items.now < 2 ^ 32 }
    ensures { IfOk result (λ depths. AreDepths items.now (length items.now) depths.items) }
{
    let mut depths = Vec::with_capacity(alloc, items.len())?;
    for vertex in 0..items.len() {
        let depth = depth_of(items, &depths, vertex as u32);
        depths.push(depth)?;
    }
    Ok(depths)
}

fn depth_of(items: &[Item], depths: &[usize], vertex: u32) -> usize
    requires laid { IsLaid items.now }
    requires within { vertex < length items.now }
    requires short { length items.now < 2 ^ 32 }
    requires before { AreDepths items.now vertex depths.now }
    ensures deep { Deep items.now vertex result }
    ensures small { result ≤ vertex + 1 }
{
    match parent_of(items, vertex) {
        None => 1,
        Some(parent) => depth_at(depths, parent as usize) + 1,
    }
}

fn depth_at(depths: &[usize], parent: usize) -> usize
    requires { parent < length depths.now }
    ensures { slice_get depths.now parent ≡ Some result }
{
    depths[parent]
}

fn nests_too_deep(items: &[Item], depths: &[usize]) -> bool
    requires short { length items.now < 2 ^ 32 }
    requires depths { AreDepths items.now (length items.now) depths.now }
    ensures { MatchBool result (NestsTooDeep items.now) (NestsTooDeep items.now → ⊥) }
{
    for at in 0..items.len() {
        if is_deep_vertex(items, depths, at as u32) {
            return true;
        }
    }
    false
}

fn is_deep_vertex(items: &[Item], depths: &[usize], at: u32) -> bool
    requires within { at < length items.now }
    requires depths { AreDepths items.now (length items.now) depths.now }
    ensures { MatchBool result (IsTooDeepAt items.now at) (IsTooDeepAt items.now at → ⊥) }
{
    let form = form_of(items, at);
    let depth = depth_at(depths, at as usize);
    is_vertex(form) & (depth > MOST_LEVELS)
}

fn vertices_in(items: &[Item]) -> usize
    ensures { result ≡ length (filter (λ (x : Item). is_vertex x.form) items.now) }
{
    items.iter().filter(|item| is_vertex(item.form)).count()
}

fn signals_in(items: &[Item]) -> usize
    ensures { result ≡ length (filter (λ (x : Item). is_signal x.form) items.now) }
{
    items.iter().filter(|item| is_signal(item.form)).count()
}

fn is_signal(form: Form) -> bool
    ensures { result ≡ is_signal form }
{
    match form {
        Form::Declares(declaration) => is_a_signal(declaration),
        Form::State(_) => false,
        Form::Choice { .. } => false,
        Form::Initial(_) => false,
        Form::On { .. } => false,
        Form::Entry => false,
        Form::Exit => false,
    }
}

fn is_a_signal(declaration: Declaration) -> bool
    ensures { result ≡ is_signal (Declares declaration) }
{
    match declaration {
        Declaration::Signal(_) => true,
        Declaration::Action(_) => false,
        Declaration::Guard(_) => false,
    }
}
