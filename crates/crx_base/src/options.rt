//! The user's choices for a compaction.

ghost use Rattle.std.specs.Prelude.{◌≡◌, ◌-◌, ◌≤◌, ◌++◌, length, replicate, false, true, IsTrue, MatchResult};
ghost use Rattle.crx_base.specs.declared.limits.TheConstants.{DATE_LIMIT};
ghost use Rattle.crx_base.specs.meaning.Choices.{choices_of, is_date};

use crate::limits::DATE_LIMIT;
use std::marker::Model;
use thiserror::Error;

/// The error of a date that has more than [`DATE_LIMIT`] bytes, or a byte outside 32 to 126.
#[derive(Clone, Copy, Debug, PartialEq, Eq, Error)]
#[error("bad date")]
pub struct BadDate;

/// Which epochs are full, whether faults are skipped, and the date in the second line of Compact RINEX 3.0.
/// It takes no memory elsewhere.
#[derive(Clone, Copy)]
pub struct Options {
    every: Option<u32>,
    skip: bool,
    date: [u8; DATE_LIMIT],
    date_len: usize,
}

impl Model for Options {
    ghost use Rattle.std.specs.Prelude.{◌≡◌, ◌-◌, ◌≤◌, ◌++◌, length, take, drop, replicate, true};
    ghost use Rattle.crx_base.specs.meaning.Choices.{Choices, is_date};
    ghost use Rattle.std.proofs.Common.{ap, sym, ◌∙◌, length-take-le, take-append-drop};
    ghost use Rattle.crx_base.specs.declared.limits.TheConstants.{DATE_LIMIT};

    ghost Value = { Choices };

    ghost view = { λ a. record { every = a.every; skip = a.skip; date = take a.date_len a.date } };

    ghost invariant = { λ a. (a.date_len ≤ length a.date) × (drop a.date_len a.date ≡ replicate (DATE_LIMIT - a.date_len) 32)
        × (is_date (take a.date_len a.date) ≡ true) };

    ghost inverse = { λ c. record { every = c.every; skip = c.skip; date = c.date ++ replicate (DATE_LIMIT - length c.date) 32; date_len = length c.date } };

    ghost inverse_ok = { λ a h i. record {
      every = a.every;
      skip = a.skip;
      date = (ap (λ k. take a.date_len a.date ++ replicate (DATE_LIMIT - k) 32) (length-take-le a.date_len a.date h.0)
          ∙ (ap (λ l. take a.date_len a.date ++ l) (sym h.1) ∙ take-append-drop a.date_len a.date)) i;
      date_len = length-take-le a.date_len a.date h.0 i;
    } };
}

/// Returns whether `date` has at most [`DATE_LIMIT`] bytes, each from 32 to 126.
fn is_date(date: &[u8]) -> bool
    ensures { result ≡ is_date date.now }
{
    date.len() <= DATE_LIMIT && date.iter().all(|byte| *byte >= 32 && *byte <= 126)
}

/// Returns `date`, of at most [`DATE_LIMIT`] bytes, padded with blanks to that length; tests no byte of it.
pub fn in_columns(date: &[u8]) -> [u8; DATE_LIMIT]
    requires { length date.now ≤ DATE_LIMIT }
    ensures value { result ≡ date.now ++ replicate (DATE_LIMIT - length date.now) 32 }
{
    let mut columns = [b' '; DATE_LIMIT];
    columns[..date.len()].copy_from_slice(date);
    columns
}

impl Options {
    /// Returns the choices. `every`: an epoch is full if this divides its index, which counts from 0 (`None`
    /// and 0: only if it has to be); `skip`: whether an epoch with a fault is skipped with a warning; `date`:
    /// the text in columns 41 to 60 of the second line.
    ///
    /// Returns `BadDate` if and only if `date` has over [`DATE_LIMIT`] bytes, or one outside 32 to 126.
    pub fn new(every: Option<u32>, skip: bool, date: &[u8]) -> Result<Options, BadDate>
        ensures value { MatchResult result
            (λ o. (o ≡ choices_of every skip date.now) × IsTrue (is_date date.now))
            (λ _. is_date date.now ≡ false) }
    {
        if !is_date(date) {
            return Err(BadDate);
        }
        Ok(Options {
            every: every.filter(|count| *count > 0),
            skip,
            date: in_columns(date),
            date_len: date.len(),
        })
    }

    /// Returns N, at least 1, if every N-th epoch is full; `None` if only the epochs are full that have to
    /// be: the first, and the first after each event or warning.
    pub fn every(&self) -> Option<u32>
        ensures value { result ≡ self.now.every }
    {
        self.every
    }

    /// Returns whether an epoch with a fault is skipped with a warning; otherwise the fault ends the run.
    pub fn skip(&self) -> bool
        ensures value { result ≡ self.now.skip }
    {
        self.skip
    }

    /// Returns the date as passed to [`Options::new`]: at most [`DATE_LIMIT`] bytes, each from 32 to 126.
    pub fn date(&self) -> &[u8]
        ensures value { result.now ≡ self.now.date }
        ensures within { length result.now ≤ DATE_LIMIT }
        ensures fits { is_date result.now ≡ true }
    {
        &self.date[..self.date_len]
    }
}
