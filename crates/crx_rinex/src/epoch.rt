//! Observation epochs. RINEX 3.05, table A3.

ghost use Rattle.std.specs.Prelude.{◌≡◌, ◌≤◌, ◌⊎◌, [], length, true, false, OnOk, IfErr, IfSome, slice_get};
ghost use Rattle.std.specs.Option.{option_copied};
ghost use Rattle.crx_base.specs.declared.limits.TheConstants.{SATELLITES_LIMIT};
ghost use Rattle.crx_header.specs.meaning.EpochColumns.{satellites_of};
ghost use Rattle.crx_rinex.specs.meaning.EpochLines.{IsObservationHead};
ghost use Rattle.crx_rinex.specs.Epochs.{begun, is_full_epoch, with_row};
ghost use Rattle.crx_rinex.specs.meaning.Epochs.{has_satellite, IsSoundEpoch};
ghost use Rattle.crx_rinex.specs.meaning.SatelliteLines.{IsSoundRow};

use crate::epoch_line::EpochLine;
use crate::satellite_row::SatRow;
use crx_base::Fault;
use crx_base::limits::NAME_WIDTH;
use crx_base::memory::{reserve_exact, reserve_keys};
use indexmap::IndexSet;
use std::alloc::Global;
use std::marker::Model;

/// An observation epoch: its line and the rows of its satellites, each satellite once.
#[derive(Drop)]
pub struct Epoch {
    head: EpochLine,
    rows: Vec<SatRow>,
    /// The identifiers of the rows.
    names: IndexSet<[u8; NAME_WIDTH]>,
}

impl Model for Epoch {
    ghost use Rattle.crx_rinex.specs.meaning.Observations.{Epoch as ObservationEpoch};
    ghost use Rattle.std.specs.Prelude.{vec_capacity};
    ghost use Rattle.crx_rinex.specs.Epochs.{AreEpochParts, HasRowsRoom};
    ghost use Rattle.indexmap.specs.IndexSet.{spare};

    ghost Value = { ObservationEpoch };

    ghost view = { λ epoch. record { head = epoch.head.head; clock = epoch.head.clock; rows = epoch.rows.items } };

    ghost invariant = { λ epoch. AreEpochParts epoch.head epoch.names.keys epoch.rows.items
        × HasRowsRoom epoch.head.head epoch.rows.items (vec_capacity epoch.rows) (spare epoch.names) };
}

impl Epoch {
    /// Returns an epoch with this line and no rows yet.
    pub fn new(alloc: Global, head: EpochLine) -> Epoch
        ensures value { result ≡ begun head }
    {
        Epoch {
            head,
            rows: Vec::new(alloc),
            names: IndexSet::new(alloc),
        }
    }

    /// Adds a row after the others. The epoch has to have fewer rows than its line announces.
    ///
    /// Returns `RepeatedSatellite` if the epoch has a row with the same identifier already; otherwise
    /// `OutOfMemory` if it has no rows yet and memory is refused, because the first row reserves memory for
    /// all that the line announces. Either returns the row too, and leaves the epoch unchanged.
    pub fn push(&mut self, row: SatRow) -> Result<(), (SatRow, Fault)>
        requires { is_full_epoch self.old ≡ false }
        ensures ok { OnOk result (self.new ≡ with_row self.old row) }
        ensures new { OnOk result (has_satellite row.name self.old.rows ≡ false) }
        ensures returned { IfErr result (λ refused. (refused.0 ≡ row) × (self.new ≡ self.old)) }
        // The first row reserves memory for all rows that the line announces.
        ensures refused { IfErr result (λ refused.
            ((refused.1 ≡ Fault.RepeatedSatellite) × (has_satellite row.name self.old.rows ≡ true))
            ⊎ ((refused.1 ≡ Fault.OutOfMemory) × (self.old.rows ≡ []))) }
    {
        if self.names.contains(&row.name()) {
            return Err((row, Fault::RepeatedSatellite));
        }
        if self.rows.is_empty() {
            let count = self.head.count();
            if let Err(refused) = reserve_exact(&mut self.rows, count) {
                return Err((row, Fault::from(refused)));
            }
            if let Err(refused) = reserve_keys(&mut self.names, count) {
                return Err((row, Fault::from(refused)));
            }
        }
        self.names.insert(row.name()).unwrap();
        self.rows.push(row).unwrap();
        Ok(())
    }

    /// Returns whether the epoch has all rows that its line announces; `true` from the beginning if it
    /// announces none.
    pub fn is_full(&self) -> bool
        ensures value { result ≡ is_full_epoch self.now }
        ensures sound { IsSoundEpoch self.now }
    {
        self.rows.len() == self.head.count()
    }

    /// Returns the epoch's line.
    pub fn head(&self) -> &EpochLine
        ensures head { result.now.head ≡ self.now.head }
        ensures clock { result.now.clock ≡ self.now.clock }
        ensures count { result.now.count ≡ satellites_of self.now.head }
        ensures sound { IsObservationHead result.now }
    {
        &self.head
    }

    /// Returns the row at place `index`, from 0, or `None` if the epoch has no more than `index` rows.
    pub fn row(&self, index: usize) -> Option<&SatRow>
        ensures value { option_copied result ≡ slice_get self.now.rows index }
        ensures sound { IfSome result (λ row. IsSoundRow row.now) }
        ensures within { length self.now.rows ≤ SATELLITES_LIMIT }
    {
        self.rows.get(index)
    }
}
