ghost use Rattle.std.specs.Prelude.{◌≡◌, ℕ, ◌<◌, ◌≤◌, [], ◌∷◌, List, OnOk, MatchBool, MatchOption, None, Some, length, slice_get};
ghost use Rattle.fp_graph.specs.Graph.{Edge};
ghost use Rattle.fp_graph.specs.Visits.{Stage, state_of, under, moved, entered, with_heads, marked, settled, IsLook, IsRing, IsStep, IsResting, Progress, Seen};

use crate::stretch::Stretch;
use fp_base::NoMemory;

/// How far a vertex is known.
#[derive(Clone, Copy)]
pub enum Mark {
    Unseen,
    /// It was reached, and stands at this place among those that are open.
    Open(usize),
    /// Whether it is on a cycle.
    Done(bool),
}

/// A vertex whose edges are looked at: its place among those that are open, and the next edge.
#[derive(Clone, Copy)]
pub struct Frame {
    pub vertex: usize,
    pub at: usize,
    pub next: usize,
    pub end: usize,
}

/// What an edge leads to.
#[derive(Clone, Copy)]
pub enum Met {
    New(usize),
    Open(usize),
    Nothing,
}

/// A depth-first walk over vertices with a stack of its own. What is open stands in parts of vertices that reach one another, and
/// `heads` has the places where the parts begin.
#[derive(Drop)]
pub struct Walk {
    pub marks: Vec<Mark>,
    pub opened: Vec<usize>,
    pub heads: Vec<usize>,
    pub frames: Vec<Frame>,
    pub order: Vec<usize>,
}

fn mark_of(marks: &[Mark], vertex: usize) -> Option<Mark>
    ensures { result ≡ slice_get marks.now vertex }
{
    marks.get(vertex).copied()
}

pub fn target_at(targets: &[u32], at: usize) -> Option<u32>
    ensures { result ≡ slice_get targets.now at }
{
    targets.get(at).copied()
}

/// What the edge at a place among the targets leads to.
fn look(marks: &[Mark], targets: &[u32], at: usize) -> Met
    ensures { IsLook marks.now targets.now at result }
{
    let Some(target) = target_at(targets, at) else {
        return Met::Nothing;
    };
    let vertex = target as usize;
    match mark_of(marks, vertex) {
        Some(Mark::Unseen) => Met::New(vertex),
        Some(Mark::Open(place)) => Met::Open(place),
        Some(Mark::Done(_)) => Met::Nothing,
        None => Met::Nothing,
    }
}

/// Opens a vertex, as a part of its own.
pub fn enter(walk: &mut Walk, vertex: usize, stretch: Stretch) -> Result<(), NoMemory>
    requires { vertex < length walk.old.marks.items }
    ensures { OnOk result (state_of walk.new ≡ entered vertex stretch (state_of walk.old)) }
{
    let at = walk.opened.len();
    walk.marks[vertex] = Mark::Open(at);
    walk.opened.push(vertex)?;
    walk.heads.push(at)?;
    walk.frames.push(Frame {
        vertex,
        at,
        next: stretch.first,
        end: stretch.end,
    })?;
    Ok(())
}

/// Puts a frame on top.
fn put(walk: &mut Walk, frame: Frame) -> Result<(), NoMemory>
    ensures { OnOk result (state_of walk.new ≡ under frame (state_of walk.old)) }
{
    walk.frames.push(frame)?;
    Ok(())
}

/// Takes the frame on top.
fn taken(walk: &mut Walk) -> Option<Frame>
    ensures { MatchOption result
        ((state_of walk.new ≡ state_of walk.old) × ((state_of walk.old).frames ≡ []))
        (λ frame. state_of walk.old ≡ under frame (state_of walk.new)) }
{
    walk.frames.pop()
}

/// The same frame behind its edge.
fn behind(frame: Frame) -> Frame
    requires { frame.next < frame.end }
    ensures { result ≡ moved frame }
{
    Frame {
        next: frame.next + 1,
        ..frame
    }
}

/// Takes away the last head if it is above a place.
fn pop_above(walk: &mut Walk, place: usize) -> Option<usize>
    ensures { MatchOption result
        ((walk.new ≡ walk.old) × ((head : ℕ) → (rest : List ℕ) → (state_of walk.old).heads ≡ head ∷ rest → head ≤ place))
        (λ head. (state_of walk.old ≡ with_heads (head ∷ (state_of walk.new).heads) (state_of walk.new)) × (place < head)) }
{
    let head = *walk.heads.last()?;
    if head <= place {
        return None;
    }
    walk.heads.pop();
    Some(head)
}

/// Takes away the last head if it is this place.
fn pop_at(walk: &mut Walk, place: usize) -> bool
    ensures { MatchBool result
        (state_of walk.old ≡ with_heads (place ∷ (state_of walk.new).heads) (state_of walk.new))
        ((walk.new ≡ walk.old) × ((rest : List ℕ) → (state_of walk.old).heads ≡ place ∷ rest → ⊥)) }
{
    let Some(head) = walk.heads.last() else {
        return false;
    };
    if *head != place {
        return false;
    }
    walk.heads.pop();
    true
}

fn is_target(targets: &[u32], at: usize, vertex: usize) -> bool
    ensures { MatchBool result (slice_get targets.now at ≡ Some vertex) (slice_get targets.now at ≡ Some vertex → ⊥) }
{
    match target_at(targets, at) {
        Some(target) => target as usize == vertex,
        None => false,
    }
}

/// Whether a vertex is among its own targets.
fn leads_to_itself(stretches: &[Stretch], targets: &[u32], vertex: usize) -> bool
    requires { vertex < length stretches.now }
    ensures { MatchBool result
        (Edge stretches.now targets.now vertex vertex)
        (Edge stretches.now targets.now vertex vertex → ⊥) }
{
    let stretch = stretches[vertex];
    for at in stretch.first..stretch.end {
        if is_target(targets, at, vertex) {
            return true;
        }
    }
    false
}

/// Whether the last part is a ring, which one vertex is only where it leads to itself.
fn is_ring(stretches: &[Stretch], targets: &[u32], count: usize, frame: Frame) -> bool
    requires within { frame.vertex < length stretches.now }
    requires open { frame.at < count }
    ensures { IsRing stretches.now targets.now count frame result }
{
    if frame.at + 1 < count {
        return true;
    }
    leads_to_itself(stretches, targets, frame.vertex)
}

fn mark_all(marks: &mut Vec<Mark>, members: &[usize], cyclic: bool)
    requires { (k v : ℕ) → slice_get members.now k ≡ Some v → v < length marks.old.items }
    ensures { marks.new.items ≡ marked members.now cyclic marks.old.items }
{
    for member in members {
        marks[*member] = Mark::Done(cyclic);
    }
}

/// What is open from a place on is done.
fn settle(walk: &mut Walk, place: usize, cyclic: bool) -> Result<(), NoMemory>
    requires within { (k v : ℕ) → slice_get walk.old.opened.items k ≡ Some v → v < length walk.old.marks.items }
    requires open { place < length walk.old.opened.items }
    ensures { OnOk result (state_of walk.new ≡ settled place (state_of walk.old).heads cyclic (state_of walk.old)) }
{
    let members = &walk.opened[place..];
    mark_all(&mut walk.marks, members, cyclic);
    walk.order.extend_from_slice(members)?;
    walk.opened.truncate(place);
    Ok(())
}

/// Leaves a vertex whose edges were all looked at.
fn leave(
    stretches: &[Stretch],
    targets: &[u32],
    walk: &mut Walk,
    frame: Frame,
) -> Result<(), NoMemory>
    requires stage { Stage stretches.now targets.now None (under frame (state_of walk.old)) }
    requires over { frame.end ≤ frame.next }
    ensures { OnOk result (IsStep stretches.now targets.now (under frame (state_of walk.old)) (state_of walk.new)) }
{
    if pop_at(walk, frame.at) {
        let cyclic = is_ring(stretches, targets, walk.opened.len(), frame);
        return settle(walk, frame.at, cyclic);
    }
    Ok(())
}

/// Looks at the next edge of the vertex on top, or leaves it.
fn advance(
    stretches: &[Stretch],
    targets: &[u32],
    walk: &mut Walk,
    frame: Frame,
) -> Result<(), NoMemory>
    requires { Stage stretches.now targets.now None (under frame (state_of walk.old)) }
    ensures { OnOk result (IsStep stretches.now targets.now (under frame (state_of walk.old)) (state_of walk.new)) }
{
    if frame.next >= frame.end {
        return leave(stretches, targets, walk, frame);
    }
    match look(&walk.marks, targets, frame.next) {
        Met::New(vertex) => {
            put(walk, behind(frame))?;
            enter(walk, vertex, stretches[vertex])
        }
        Met::Open(place) => match pop_above(walk, place) {
            Some(_) => put(walk, frame),
            None => put(walk, behind(frame)),
        },
        Met::Nothing => put(walk, behind(frame)),
    }
}

fn is_unseen(marks: &[Mark], vertex: usize) -> bool
    ensures { MatchBool result (slice_get marks.now vertex ≡ Some Mark.Unseen) (Seen marks.now vertex) }
{
    match mark_of(marks, vertex) {
        Some(Mark::Unseen) => true,
        _ => false,
    }
}

/// Walks over all that a vertex leads to, directly or through others.
pub fn finish(
    stretches: &[Stretch],
    targets: &[u32],
    walk: &mut Walk,
    root: usize,
) -> Result<(), NoMemory>
    requires within { root < length stretches.now }
    requires rests { IsResting stretches.now targets.now (state_of walk.old) }
    ensures rests { OnOk result (IsResting stretches.now targets.now (state_of walk.new)) }
    ensures seen { OnOk result (Progress walk.old.marks.items walk.new.marks.items) }
    ensures here { OnOk result (Seen walk.new.marks.items root) }
{
    if is_unseen(&walk.marks, root) {
        enter(walk, root, stretches[root])?;
        'frames: while let Some(frame) = taken(walk) {
            advance(stretches, targets, walk, frame)?;
        }
    }
    Ok(())
}
