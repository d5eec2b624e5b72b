use crate::place::Place;
use std::alloc::{AllocError, Global};
use std::sync::Wait;
use std::thread;
use std::thread::Threads;

/// How many numbers the caller of the load sends.
const CALLS: u32 = 100;

/// Hands on a number, where there is a place to hand it on to.
fn hand_on<R: Wait>(
    rt: &R,
    places: &[Place],
    actor: usize,
    seen: u64,
    number: u32,
) -> Result<u64, AllocError> {
    match places.get(actor) {
        Some(place) => place.put(rt, actor, seen, number),
        None => Ok(seen),
    }
}

/// The actor 0 calls, and each other one serves at the place before its own number.
fn act<R: Wait>(
    rt: &R,
    places: &[Place],
    actor: usize,
    seen: u64,
    call: u32,
) -> Result<u64, AllocError> {
    let Some(before) = actor.checked_sub(1) else {
        return hand_on(rt, places, 0, seen, call);
    };
    let Some(place) = places.get(before) else {
        return Ok(seen);
    };
    let (stamp, number) = place.take(rt, actor, seen)?;
    let stamp = hand_on(rt, places, actor, stamp, number)?;
    place.end(rt, actor, stamp)
}

fn work<R: Wait>(rt: &R, places: &[Place], actor: usize) -> Result<(), AllocError> {
    let mut seen = 0;
    for call in 0..CALLS {
        seen = act(rt, places, actor, seen, call)?;
    }
    Ok(())
}

fn places_of(alloc: Global, instances: u32) -> Result<Vec<Place>, AllocError> {
    let mut places = Vec::new(alloc);
    for _ in 0..instances {
        places.push(Place::new(alloc)?)?;
    }
    Ok(places)
}

/// The places after a thread for each actor has worked.
fn worked<R: Threads + Wait + Sync>(
    rt: &R,
    alloc: Global,
    instances: u32,
) -> Result<Vec<Place>, AllocError> {
    let places = places_of(alloc, instances)?;
    let shared = places.as_slice();
    let works = |actor: usize| work(rt, shared, actor).is_ok();
    let done = thread::map_indices(rt, alloc, shared.len() + 1, &works)?;
    if done.contains(&false) {
        return Err(AllocError);
    }
    Ok(places)
}

/// The run of a plain program with a thread for each actor: how many entries there are.
pub fn run<R: Threads + Wait + Sync>(
    rt: &R,
    alloc: Global,
    instances: u32,
) -> Result<usize, AllocError> {
    let mut count = 0_usize;
    for place in worked(rt, alloc, instances)? {
        count = count.saturating_add(place.into_lines().len());
    }
    Ok(count)
}
