//! Epoch lines. RINEX 3.05, table A3, EPOCH record.

ghost use Rattle.std.specs.Prelude.{◌≡◌, None, Some, Ok, Err, MatchResult};
ghost use Rattle.std.specs.Option.{ForSome};
ghost use Rattle.crx_text.specs.meaning.Columns.{columns};
ghost use Rattle.crx_text.specs.Numbers.{IsClock};
ghost use Rattle.crx_base.specs.declared.limits.TheConstants.{HEAD_WIDTH};
ghost use Rattle.crx_rinex.specs.meaning.EpochLines.{head_of, IsObservationHead};
ghost use Rattle.crx_header.specs.meaning.EpochColumns.{epoch_count};
ghost use Rattle.crx_rinex.specs.Heads.{head_line};

use crx_base::Fault;
use crx_base::limits::{CLOCK_WIDTH, HEAD_WIDTH};
use crx_header::epoch_columns::{
    is_event_flag, is_observation_flag, records_in, satellites, satellites_by_count,
};
use crx_header::{after_columns, all_blank, padded};
use crx_text::clock_read;
use crx_text::columns::character;
use std::marker::Model;

/// The first line of an observation epoch: columns 1 to 41, the count of satellites that they hold, and the
/// receiver clock offset.
#[derive(Drop)]
pub struct EpochLine {
    head: [u8; HEAD_WIDTH],
    count: usize,
    clock: Option<i64>,
}

impl Model for EpochLine {
    ghost use Rattle.crx_rinex.specs.meaning.EpochLines.{ObservationHead, IsObservationHead};

    ghost Value = { ObservationHead };

    ghost view = { λ line. record { head = line.head; count = line.count; clock = line.clock } };

    ghost invariant = { λ line. IsObservationHead (record { head = line.head; count = line.count; clock = line.clock }) };
}

impl EpochLine {
    /// Makes a line of `columns`, columns 1 to 41, and `clock`, an offset in units of 10^-12 seconds that has
    /// to fit 15 columns, or none.
    ///
    /// Returns `BadEpoch` unless the columns begin an observation epoch: `>` in column 1, a flag of 0 or 1 in
    /// column 32, a count of satellites within the limit in columns 33 to 35, and only characters from 32 to
    /// 126 other than `&` (RINEX 3.05, table A3).
    pub fn new(columns: [u8; HEAD_WIDTH], clock: Option<i64>) -> Result<EpochLine, Fault>
        requires { ForSome clock IsClock }
        ensures value { MatchResult result
            (λ line. (epoch_count columns ≡ Some line.count) × (line.head ≡ columns) × (line.clock ≡ clock))
            (λ fault. (epoch_count columns ≡ None) × (fault ≡ Fault.BadEpoch)) }
    {
        match satellites(&columns) {
            Some(count) => Ok(EpochLine {
                head: columns,
                count,
                clock,
            }),
            None => Err(Fault::BadEpoch),
        }
    }

    /// Returns columns 1 to 41: `>`, date and time, flag, count of satellites, reserved columns.
    pub fn columns(&self) -> &[u8; HEAD_WIDTH]
        ensures value { result.now ≡ self.now.head }
        ensures sound { IsObservationHead self.now }
    {
        &self.head
    }

    /// Returns how many satellites the line announces.
    pub fn count(&self) -> usize
        ensures value { result ≡ self.now.count }
        ensures sound { IsObservationHead self.now }
    {
        self.count
    }

    /// Returns the receiver clock offset, in units of 10^-12 seconds, or `None` if the line has none.
    pub fn clock(&self) -> Option<i64>
        ensures value { result ≡ self.now.clock }
        ensures sound { IsObservationHead self.now }
    {
        self.clock
    }
}

/// The first line of an event or of an observation epoch.
#[derive(Drop)]
pub enum Head {
    /// An event: its flag, from 2 to 6, and how many records follow it.
    Event {
        /// The flag in column 32.
        flag: u8,
        /// The count of records in columns 33 to 35.
        count: usize,
    },
    /// An observation epoch.
    Epoch(EpochLine),
}

impl Head {
    /// Reads the first line of an event or of an observation epoch (RINEX 3.05, table A3).
    ///
    /// Returns `NotAnEpoch` if column 1 isn't `>`; otherwise `BadEpoch` if the flag in column 32 is none of 0
    /// to 6, if columns 33 to 35 hold no count (blanks are 0 records for an event), or if an observation
    /// epoch has `&` or a character outside 32 to 126 in columns 1 to 41, or more than blanks after column
    /// 56; otherwise `BadClock` if columns 42 to 56 of an observation epoch hold neither blanks nor a number
    /// of format F15.12.
    #[inline(always)]
    #[tactic(auto, using(crate::proofs::HeadColumns::announced, crate::proofs::HeadColumns::unannounced))]
    pub fn read(line: &[u8]) -> Result<Head, Fault>
        ensures value { MatchResult result
            (λ head. head_of line.now ≡ Ok (head_line head))
            (λ fault. head_of line.now ≡ Err fault) }
    {
        if character(line, 1) != b'>' {
            return Err(Fault::NotAnEpoch);
        }
        let flag = character(line, 32);
        if is_event_flag(flag) {
            return match records_in(line) {
                Some(count) => Ok(Head::Event {
                    flag: flag - b'0',
                    count,
                }),
                None => Err(Fault::BadEpoch),
            };
        }
        // A line with another flag is refused before its columns are copied.
        if !is_observation_flag(flag) {
            return Err(Fault::BadEpoch);
        }
        let head = padded(line, 1);
        let Some(count) = satellites_by_count(&head) else {
            return Err(Fault::BadEpoch);
        };
        // Most lines end before the clock's columns: nothing to copy or read there.
        if line.len() <= HEAD_WIDTH {
            let clock = None;
            return Ok(Head::Epoch(EpochLine { head, count, clock }));
        }
        if !all_blank(after_columns(line, HEAD_WIDTH + CLOCK_WIDTH)) {
            return Err(Fault::BadEpoch);
        }
        match clock_read(&padded::<CLOCK_WIDTH>(line, HEAD_WIDTH + 1)) {
            Ok(clock) => Ok(Head::Epoch(EpochLine { head, count, clock })),
            Err(_) => Err(Fault::BadClock),
        }
    }
}
