//! A list that only proofs read. It takes no memory, and its functions do nothing at run time.
ghost use Rattle.std.specs.Prelude.{◌≡◌, List, [], ◌∷◌, ◌++◌};
ghost use Rattle.std.specs.Borrow.{ftrue};

use std::marker::{Model, PhantomData};
use std::snapshot::Snapshot;

/// A clause reads the list as `items`.
#[derive(Drop)]
pub struct Listed<M> {
    of: PhantomData<M>,
    pub ghost items: { List M },
}

impl<M> Model for Listed<M> {
    ghost also_owns = { λ _. ftrue };
}

impl<M> Listed<M> {
    pub(crate) fn new() -> Listed<M>
        ensures { result.items ≡ [] }
    {
        Listed { of: PhantomData }
    }

    pub(crate) fn and(_before: &Snapshot<Listed<M>>, _newcomer: &M) -> Listed<M>
        ensures { result.items ≡ _before.now.value.items ++ _newcomer.now ∷ [] }
    {
        Listed { of: PhantomData }
    }
}
