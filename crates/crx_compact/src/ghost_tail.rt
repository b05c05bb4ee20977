//! The tail of the epochs before an open one, which only contracts read.

ghost use Rattle.std.specs.Prelude.{◌≡◌};
ghost use Rattle.std.specs.Borrow.{ftrue};
ghost use Rattle.crx_compact.specs.Placing.{tail_of_history};
ghost use Rattle.crx_compact.specs.Tails.{Tail};

use crate::history::History;
use std::marker::{Model, PhantomData};

/// The tail of the epochs before an open one, whose rows change the history in place. It takes no memory, and
/// its method does nothing at run time.
#[derive(Drop)]
pub struct GhostTail {
    marker: PhantomData<u8>,
    pub ghost tail: { Tail },
}

impl Model for GhostTail {
    ghost also_owns = { λ _. ftrue };
}

impl GhostTail {
    /// Returns a value for contracts only, by which they know what `_history` says of the epochs so far. It
    /// does nothing at run time.
    #[inline(always)]
    pub(crate) fn of(_history: &History) -> GhostTail
        ensures { result.tail ≡ tail_of_history _history.now }
    {
        GhostTail {
            marker: PhantomData,
        }
    }
}
