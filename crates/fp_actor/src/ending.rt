ghost use Rattle.std.specs.Prelude.{◌≡◌, List};
ghost use Rattle.fp_events.specs.Ends.{is_own, is_through};
ghost use Rattle.fp_actor.specs.declared.level.Binding.{Binding};
ghost use Rattle.fp_actor.specs.Stacked.{frames, opened_in};

use crate::level::{Base, Level};
use crate::view::View;

impl<'v> View<'v> {
    /// Whether the frame that a level begins is a caller's own list.
    fn is_own(&self, level: Level) -> bool
        ensures { result ≡ is_own (opened_in self.now.tables.now self.now.program.now self.now.number self.now.trace.now level.base level.next.source) }
    {
        match level.base {
            Base::Inside => true,
            Base::Own => true,
            Base::Arrived(_) => false,
            Base::Taken => false,
        }
    }

    /// Whether the levels are no frame but a caller's own list, of which no action is left.
    pub fn is_through(&self, levels: &[Level]) -> bool
        ensures { (bindings : List Binding) → result ≡ is_through (frames self.now.tables.now self.now.program.now self.now.number self.now.trace.now bindings levels.now) }
    {
        let Some(bottom) = self.bottom(levels) else {
            return true;
        };
        let alone = bottom.below == 0;
        let own = self.is_own(bottom.level);
        let done = self.first(levels).is_none();
        alone & own & done
    }
}
