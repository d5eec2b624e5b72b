ghost use Rattle.std.specs.Prelude.{◌≡◌, ◌<◌, ◌+◌, ◌^◌, None, List, [], drop, option_map, MatchOption, IfSome};
ghost use Rattle.fp_events.specs.Due.{first_action};
ghost use Rattle.fp_events.specs.Follows.{doing};
ghost use Rattle.fp_actor.specs.declared.level.Binding.{Binding};
ghost use Rattle.fp_actor.specs.Levels.{reached, settled as settled_of};
ghost use Rattle.fp_actor.specs.Seen.{found, lists_in, frames, IsFirst, IsBottom};

use crate::level::{Base, Level, Position};
use crate::lists::Deed;
use crate::view::View;

/// An action that is left, at its place.
#[derive(Clone, Copy)]
pub struct Reached<'v> {
    pub at: Position,
    pub deed: Deed<'v>,
}

/// The first action that is left in the innermost frame: its level from there on, and how many levels are below that.
#[derive(Clone, Copy)]
pub struct First<'v> {
    pub below: usize,
    pub level: Level,
    pub deed: Deed<'v>,
}

/// The level that begins the innermost frame, and how many levels are below it.
#[derive(Clone, Copy)]
pub struct Bottom {
    pub below: usize,
    pub level: Level,
}

fn settled(level: Level, at: Position) -> Level
    ensures { result ≡ settled_of level at }
{
    let first = if at.list == level.next.list {
        level.first
    } else {
        level.past
    };
    Level {
        base: level.base,
        next: at,
        first,
        past: level.past,
    }
}

impl<'v> View<'v> {
    /// The first action from a place on.
    fn reach(&self, next: Position) -> Option<Reached<'v>>
        ensures value { option_map (found self.now) result
            ≡ reached (drop next.list (lists_in self.now next.source)) next.list next.action }
        ensures source { IfSome result (λ r. r.at.source ≡ next.source) }
        ensures few { IfSome result (λ r. r.at.action + 1 < 2 ^ 64) }
    {
        let source = next.source;
        let mut list = next.list;
        let mut action = next.action;
        while let Some(actions) = self.list(source, list) {
            if let Some(deed) = actions.get(action) {
                let at = Position {
                    source,
                    list,
                    action,
                };
                return Some(Reached { at, deed });
            }
            list += 1;
            action = 0;
        }
        None
    }

    /// The first action of the innermost frame.
    pub fn first(&self, levels: &[Level]) -> Option<First<'v>>
        ensures { (bindings : List Binding) → MatchOption result
            (first_action (doing (frames self.now bindings levels.now)) ≡ None)
            (IsFirst self.now bindings levels.now) }
    {
        let mut left = levels;
        while let Some((level, below)) = left.split_last() {
            match self.reach(level.next) {
                Some(reached) => {
                    return Some(First {
                        below: below.len(),
                        level: settled(*level, reached.at),
                        deed: reached.deed,
                    });
                }
                None => match level.base {
                    Base::Inside => left = below,
                    _ => return None,
                },
            }
        }
        None
    }

    /// The lowest level of the innermost frame.
    pub fn bottom(&self, levels: &[Level]) -> Option<Bottom>
        ensures { (bindings : List Binding) → MatchOption result
            (levels.now ≡ [])
            (IsBottom self.now bindings levels.now) }
    {
        let mut lowest = None;
        let mut left = levels;
        while let Some((level, below)) = left.split_last() {
            let bottom = Bottom {
                below: below.len(),
                level: *level,
            };
            match level.base {
                Base::Inside => {
                    lowest = Some(bottom);
                    left = below;
                }
                _ => return Some(bottom),
            }
        }
        lowest
    }
}
