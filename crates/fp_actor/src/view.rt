ghost use Rattle.std.specs.Prelude.{◌≡◌, true};
ghost use Rattle.fp_tables.specs.Positions.{lists_are_short};

use crate::handlers::Handlers;
use fp_events::Entry;
use fp_tables::{Program, Tables};

/// What an actor's frames speak of: the tables, the program with its handlers, the actor's number and its trace.
#[derive(Clone, Copy)]
pub struct View<'v> {
    pub tables: &'v Tables,
    pub program: &'v Program,
    pub handlers: &'v Handlers<'v>,
    pub number: u32,
    pub trace: &'v [Entry],
    ghost handlers_are_its: { handlers.now ≡ program.now.handlers },
    ghost are_short: { lists_are_short tables.now.model ≡ true },
}
