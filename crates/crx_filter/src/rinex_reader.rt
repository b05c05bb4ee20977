//! RINEX observation files, one line at a time: the kind of each line, the types in force, and the last row.

ghost use Rattle.std.specs.Prelude.{ℕ, List, ◌≡◌, ◌≤◌, length, true};
ghost use Rattle.crx_base.specs.declared.limits.TheConstants.{SATELLITES_LIMIT};
ghost use Rattle.crx_filter.specs.RinexStages.{is_rinex_stage};

use crate::stage::{Stage, counts_types, with_records_left};
use crate::types_lines::{accept_header_line, accept_record};
use crx_base::{Fault, Padded};
use crx_header::Types;
use crx_rinex::{EpochLine, Head, RowBuffer, RowsSoFar, begins_epoch};
use std::alloc::Global;

/// The kind of a valid line that isn't a satellite line.
#[derive(Clone, Copy)]
pub enum RinexStep {
    /// A line that was passed over.
    Nothing,
    /// A header line.
    Header {
        /// Whether it is the first line.
        is_first: bool,
    },
    /// An event's first line.
    Event,
    /// A record of an event.
    Record,
    /// An epoch line; none of the epoch's satellite lines has been read.
    Begun,
}

/// A reader of RINEX, one line at a time. It keeps an epoch's line and its last row. It doesn't look for
/// repeated satellites: its caller does.
#[derive(Drop)]
pub struct RinexReader {
    pub stage: Stage,
    /// The types in force.
    pub(crate) types: Types,
    /// The epoch line of the open epoch, or of the last one.
    pub(crate) head: Option<EpochLine>,
    /// How many rows of this epoch have been read.
    pub(crate) count: usize,
    /// The last row that was read.
    pub(crate) row: RowBuffer,
    /// The rows of this epoch that have been read.
    rows: RowsSoFar,
    ghost consistent: { is_rinex_stage stage head count rows.rows ≡ true },
    ghost few: { length rows.rows ≤ SATELLITES_LIMIT },
}

impl RinexReader {
    ghost use Rattle.std.specs.Prelude.{◌⊎◌, ◌++◌, ◌∷◌, [], Ok, false, OnOk, IfErr};
    ghost use Rattle.crx_base.specs.Padded.{line_in};
    ghost use Rattle.crx_base.specs.meaning.AsRead.{Content};
    ghost use Rattle.crx_header.specs.meaning.EpochColumns.{begins_epoch};
    ghost use Rattle.crx_rinex.specs.meaning.Epochs.{has_satellite};
    ghost use Rattle.crx_rinex.specs.meaning.SatelliteLines.{row_of};
    ghost use Rattle.crx_filter.specs.CompactionByLine.{Written};
    ghost use Rattle.crx_filter.specs.LineByLine.{Rejects, InHeader};
    ghost use Rattle.crx_filter.specs.Memory.{may_reserve};
    ghost use Rattle.crx_filter.specs.RinexStages.{is_open_stage};
    ghost use Rattle.crx_filter.specs.Stages.{is_ended};
    ghost use Rattle.crx_filter.specs.RinexReaders.{reader_phase, made_at, IsSameReader, ReadsRinexLine, TakesRow};

    /// Returns a reader before the first line.
    pub fn new(alloc: Global) -> RinexReader
        ensures phase { reader_phase result ≡ InHeader true }
        ensures types { result.types ≡ [] }
        ensures stage { is_open_stage result.stage ≡ false }
    {
        RinexReader {
            stage: Stage::Header { is_first: true },
            types: Types::new(alloc),
            head: None,
            count: 0,
            row: RowBuffer::new(),
            rows: RowsSoFar::new(),
        }
    }

    /// Reads a line that isn't a satellite line and returns its kind. While the reader is looking for a line
    /// that begins with `>`, and after the end, it passes over others.
    ///
    /// Returns, in the header, the faults of [`header_first`](crx_header::header_first) for the first line,
    /// then `BadTypesLine`; among an event's records `BadTypesLine`, if types lines count there; when an
    /// epoch or an event may begin, the faults of [`Head::read`]. `OutOfMemory` is returned only at a types
    /// line that counts. After a fault the reader is unchanged.
    #[inline(always)]
    pub fn take(&mut self, line: &[u8]) -> Result<RinexStep, Fault>
        requires running { is_ended self.old.stage ≡ false }
        requires closed { is_open_stage self.old.stage ≡ false }
        ensures reads { ReadsRinexLine self.old line.now result self.new }
    {
        match self.stage {
            Stage::Header { is_first } => {
                self.stage = accept_header_line(&mut self.types, is_first, line)?;
                Ok(RinexStep::Header { is_first })
            }
            Stage::Event { left, counted } => {
                accept_record(&mut self.types, counted, line)?;
                self.stage = with_records_left(left.saturating_sub(1), counted);
                Ok(RinexStep::Record)
            }
            Stage::Between => self.begin_unit(line),
            Stage::Looking => {
                if begins_epoch(line) {
                    self.begin_unit(line)
                } else {
                    Ok(RinexStep::Nothing)
                }
            }
            Stage::Closed => Ok(RinexStep::Nothing),
            Stage::Open | Stage::FirstLines { .. } | Stage::Ended(_) => unreachable!(),
        }
    }

    /// Reads a line that has to begin an epoch or an event, and returns `Begun` or `Event`. Returns the
    /// faults of [`Head::read`]; then the reader is unchanged.
    #[inline(always)]
    fn begin_unit(&mut self, line: &[u8]) -> Result<RinexStep, Fault>
        requires stage { (self.old.stage ≡ Stage.Between)
            ⊎ ((self.old.stage ≡ Stage.Looking) × (begins_epoch line.now ≡ true)) }
        ensures reads { ReadsRinexLine self.old line.now result self.new }
    {
        match Head::read(line)? {
            Head::Event { count, .. } => {
                self.stage = with_records_left(count, counts_types(line));
                Ok(RinexStep::Event)
            }
            Head::Epoch(head) => {
                self.stage = if head.count() == 0 {
                    Stage::Between
                } else {
                    Stage::Open
                };
                self.head = Some(head);
                self.count = 0;
                self.rows = RowsSoFar::new();
                Ok(RinexStep::Begun)
            }
        }
    }

    /// Reads a satellite line of the open epoch over the last row. Returns `Truncated` if it begins with `>`,
    /// otherwise the faults of [`RowBuffer::read`], after which the last row may be any. The caller reports a
    /// repeated satellite as `RepeatedSatellite`, and calls [`RinexReader::take_row`] otherwise.
    #[inline(always)]
    pub fn read_row(&mut self, line: Padded<'_>) -> Result<(), Fault>
        requires open { is_open_stage self.old.stage ≡ true }
        ensures ok { OnOk result (row_of self.old.types (line_in line.entry) ≡ Ok self.new.row) }
        ensures row { OnOk result (begins_epoch (line_in line.entry) ≡ false) }
        ensures repeated { (kept : Written) → OnOk result (has_satellite self.new.row.name self.old.rows.rows ≡ true
            → made_at self.old (line_in line.entry) kept ≡ Rejects Fault.RepeatedSatellite) }
        ensures memory { OnOk result (may_reserve false true (reader_phase self.old)
            (Content (line_in line.entry)) ≡ true) }
        ensures refused { (kept : Written) → IfErr result
            (λ fault. made_at self.old (line_in line.entry) kept ≡ Rejects fault) }
        ensures same { IsSameReader self.old self.new }
    {
        if begins_epoch(line.line()) {
            return Err(Fault::Truncated);
        }
        self.row.read(&self.types, line)
    }

    /// Adds the last row to the open epoch. Returns whether it is the epoch's last; then no epoch is open.
    #[inline(always)]
    pub fn take_row(&mut self) -> bool
        requires open { is_open_stage self.old.stage ≡ true }
        ensures takes { (line : List ℕ) (kept : Written) → row_of self.old.types line ≡ Ok self.old.row
            → begins_epoch line ≡ false → has_satellite self.old.row.name self.old.rows.rows ≡ false
            → TakesRow (made_at self.old line kept) result self.old self.new }
        ensures rows { self.new.rows.rows ≡ self.old.rows.rows ++ self.old.row ∷ [] }
        ensures row { self.new.row ≡ self.old.row }
    {
        self.rows.add(&self.row);
        let Some(head) = &self.head else {
            unreachable!()
        };
        let announced = head.count();
        self.count += 1;
        if self.count == announced {
            self.stage = Stage::Between;
            return true;
        }
        false
    }
}
