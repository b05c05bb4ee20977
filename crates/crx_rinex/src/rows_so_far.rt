//! The rows of an epoch that have been read, for contracts only.

ghost use Rattle.std.specs.Prelude.{◌≡◌, ◌++◌, ◌∷◌, [], List};
ghost use Rattle.std.specs.Borrow.{ftrue};
ghost use Rattle.crx_rinex.specs.meaning.Observations.{Row};

use crate::row_buffer::RowBuffer;
use std::marker::{Model, PhantomData};

/// The rows of an epoch that have been read. It takes no memory, and its methods do nothing at run time.
#[derive(Drop)]
pub struct RowsSoFar {
    marker: PhantomData<u8>,
    pub ghost rows: { List Row },
}

impl Model for RowsSoFar {
    ghost also_owns = { λ _. ftrue };
}

impl RowsSoFar {
    /// Returns an empty list of rows, which only contracts read: it has no content at run time.
    pub fn new() -> RowsSoFar
        ensures rows { result.rows ≡ [] }
    {
        RowsSoFar {
            marker: PhantomData,
        }
    }

    /// Adds a row after the others, for contracts only: it does nothing at run time.
    #[inline(always)]
    pub fn add(&mut self, _row: &RowBuffer)
        ensures rows { self.new.rows ≡ self.old.rows ++ _row.now ∷ [] }
    {}
}
