ghost use Rattle.fp_gate.specs.Words.{CountsModulo};

use crate::booked::Booked;

/// Does nothing: its clause says what the rule makes of the two words, which wrap.
pub fn counts_modulo<T: Booked>()
    ensures { CountsModulo T.name T.history }
{}
