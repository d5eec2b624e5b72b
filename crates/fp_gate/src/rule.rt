use crate::booked::Booked;
use crate::view::View;
use atomic_table::{Join, Play, Seat, Split, Table, TableRule};
use std::alloc::Global;
use std::snapshot::Snapshot;

/// The rule of the lock's table: `specs/Rule.antt` has it, sentence by sentence.
pub struct Gate;

impl<T: Booked> TableRule<Option<T>, View<T::Name, T::Item>, Snapshot<T>> for Gate {
    ghost use Rattle.fp_gate.specs.Rule.{Ruled};
    ghost use Rattle.fp_gate.specs.Views.{first_view};

    ghost holds = { λ key. Ruled T.name T.history (T.name key.value) };

    ghost first = { λ key. first_view (T.name key.value) };
}

pub struct Draw;

impl<T: Booked> Play<Option<T>, View<T::Name, T::Item>> for Draw {
    ghost use Rattle.fp_gate.specs.Steps.{drew};

    ghost then = { drew };
}

pub struct Look;

impl<T: Booked> Play<Option<T>, View<T::Name, T::Item>> for Look {
    ghost use Rattle.fp_gate.specs.Steps.{looked};

    ghost then = { looked T.name T.history };
}

pub struct Advance;

impl<T: Booked> Play<Option<T>, View<T::Name, T::Item>> for Advance {
    ghost use Rattle.fp_gate.specs.Steps.{advanced};

    ghost then = { advanced T.history };
}

pub struct Cut;

impl<N, I> Split<View<N, I>> for Cut {
    ghost use Rattle.fp_gate.specs.Steps.{made_one, newcomer};

    ghost left = { made_one };

    ghost right = { newcomer };
}

pub struct Glue;

impl<N, I> Join<View<N, I>> for Glue {
    ghost use Rattle.fp_gate.specs.Views.{spent};
    ghost use Rattle.fp_gate.specs.Steps.{both};

    ghost both = { both };

    ghost spent = { spent };
}

/// Word 0 is `ticket`, word 1 is `serving`, and the one slot has the value.
pub type Board<T> = Table<
    Option<T>,
    View<<T as Booked>::Name, <T as Booked>::Item>,
    Snapshot<T>,
    Gate,
    Global,
>;

pub type Place<T> = Seat<Option<T>, View<<T as Booked>::Name, <T as Booked>::Item>>;
