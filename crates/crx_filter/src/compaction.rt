//! Compaction of RINEX, line by line.

ghost use Rattle.std.specs.Prelude.{◌≡◌, [], Some, IfOk, IfErr, true};
ghost use Rattle.crx_base.specs.Padded.{line_in};
ghost use Rattle.crx_compact.specs.Encoding.{EndsEpoch};
ghost use Rattle.crx_rinex.specs.meaning.EpochLines.{ObservationHead};
ghost use Rattle.crx_filter.specs.CompactionParts.{BelongTogether, HasRefusedRow, HasWholeEpoch, HasWrittenRow};
ghost use Rattle.crx_filter.specs.RinexStages.{is_open_stage};
ghost use Rattle.crx_filter.specs.meaning.Compacted.{is_at_every};

use crate::direction::Direction;
use crate::lender::Lender;
use crate::rinex_reader::{RinexReader, RinexStep};
use crate::stage::Stage;
use crx_base::{Fault, Options, Padded, Refused};
use crx_compact::Encoder;
use crx_lines::Line;
use crx_runs::LineOutput;
use std::alloc::Global;
use std::marker::Model;

/// The state of a compaction between two lines.
#[derive(Drop)]
pub struct Compaction {
    /// How many epochs were accepted.
    index: u64,
    reader: RinexReader,
    encoder: Encoder,
}

/// A compaction into Compact RINEX 3.0. It takes the lines of a RINEX file and lends the compact lines.
///
/// The faults of a line are the faults of [`RinexReader::take`] and [`RinexReader::read_row`],
/// `RepeatedSatellite`, and `OutOfMemory` if a growth was refused, at a types line that counts or in an
/// epoch. At the end the fault is the one of [`Stage::fault_at_end`]. If faults are skipped, only
/// `OutOfMemory`, and the faults in the header and among an event's records, are returned.
pub type Compactor = Lender<Compaction>;

impl Model for Compaction {
    ghost use Rattle.crx_filter.specs.CompactionParts.{BelongTogether, CompactionState};

    ghost Value = { CompactionState };

    ghost view = { λ c. record { index = c.index; reader = c.reader; encoder = c.encoder } };

    ghost invariant = { λ c. BelongTogether c.reader c.encoder };
}

/// Returns whether the epoch `index`, from 0, is full because `every` divides it; 0 and `None` never do.
fn is_at_every(every: Option<u32>, index: u64) -> bool
    ensures { result ≡ is_at_every every index }
{
    match every {
        None => false,
        Some(count) => count > 0 && index % u64::from(count) == 0,
    }
}

/// Reads a satellite line of the open epoch and encodes its row. `Ok(true)`: it was the epoch's last. Returns
/// the faults of [`RinexReader::read_row`], and `RepeatedSatellite`, after which the epoch is open without
/// the row; and `OutOfMemory`, after which every epoch is forgotten and none is open.
#[inline(always)]
fn compact_row(
    reader: &mut RinexReader,
    encoder: &mut Encoder,
    line: Padded<'_>,
) -> Result<bool, Fault>
    requires together { BelongTogether reader.old encoder.old }
    requires open { is_open_stage reader.old.stage ≡ true }
    requires drained { encoder.old.pending ≡ [] }
    ensures written { IfOk result (λ is_last.
        HasWrittenRow reader.old encoder.old (line_in line.entry) is_last reader.new encoder.new) }
    ensures refused { IfErr result
        (λ fault. HasRefusedRow reader.old encoder.old (line_in line.entry) fault reader.new encoder.new) }
{
    reader.read_row(line)?;
    match encoder.encode_row(&reader.row) {
        Ok(true) => Ok(reader.take_row()),
        Ok(false) => Err(Fault::RepeatedSatellite),
        Err(refused) => {
            // The encoder has dropped the open epoch.
            reader.stage = Stage::Looking;
            Err(Fault::from(refused))
        }
    }
}

/// Ends the epoch of `reader`, whose rows have all been encoded: its compact lines are then pending, and the
/// next epoch is written as differences from it.
fn end_epoch(reader: &RinexReader, encoder: &mut Encoder)
    requires whole { HasWholeEpoch reader.now encoder.old }
    ensures ends { (head : ObservationHead) → reader.now.head ≡ Some head → EndsEpoch head encoder.old encoder.new }
{
    let Some(head) = &reader.head else {
        unreachable!()
    };
    encoder.end(head);
}

impl Direction for Compaction {
    ghost use Rattle.std.specs.Prelude.{⊤};
    ghost use Rattle.crx_rinex.specs.meaning.EpochPlaces.{OpenEpoch};
    ghost use Rattle.crx_rinex.specs.meaning.Observations.{Epoch as ObservationEpoch};
    ghost use Rattle.crx_filter.specs.CompactionByLine.{Written, compaction, compaction_state};
    ghost use Rattle.crx_filter.specs.CompactionParts.{compaction_parts, is_full_where_due};
    ghost use Rattle.crx_filter.specs.meaning.Directions.{compaction_filter};

    ghost Whole = { ObservationEpoch };

    ghost Open = { OpenEpoch };

    ghost Kept = { Written };

    ghost by_line = { compaction };

    ghost options_used = { λ choices. choices };

    ghost state_after_lines = { compaction_state };

    ghost lines_at_end_after = { λ choices lines. [] };

    ghost filter = { compaction_filter };

    ghost parts = { compaction_parts };

    ghost ready = { λ c. c.encoder.pending };

    ghost lines_at_end = { λ c. [] };

    ghost units_counted = { λ c. c.index };

    ghost epoch_uses = { λ c choices. is_full_where_due c.reader.stage c.encoder.in_full
        (is_at_every choices.every c.index) };

    ghost allocates_at_start = { true };

    ghost notes_are_right = { λ c choices lines. ⊤ };

    ghost report_is_right = { λ c lines. ⊤ };

    ghost no_report_when_skipping = { λ c choices lines taken skips. tt };

    /// Returns the user's options unchanged.
    fn options_used(options: Options) -> Options {
        options
    }

    /// Returns a compaction before the first line, or `Refused` if memory for its encoder is refused.
    fn new(alloc: Global) -> Result<Compaction, Refused> {
        // `?` would need a temporary as large as an encoder.
        match Encoder::new(alloc) {
            Ok(encoder) => Ok(Compaction {
                index: 0,
                reader: RinexReader::new(alloc),
                encoder,
            }),
            Err(refused) => Err(refused),
        }
    }

    /// Returns the reader's stage.
    #[inline(always)]
    fn stage(&self) -> Stage {
        self.reader.stage
    }

    /// Reads a satellite line of the open epoch and encodes its row. `Ok(true)`: it was the last, and the
    /// epoch's compact lines are pending. Returns the line's fault, as `compact_row` does, or `OutOfMemory`.
    #[inline(always)]
    fn take_in_epoch(&mut self, line: Line<'_>) -> Result<bool, Fault> {
        let is_last = compact_row(&mut self.reader, &mut self.encoder, line.padded())?;
        if !is_last {
            return Ok(false);
        }
        end_epoch(&self.reader, &mut self.encoder);
        self.index += 1;
        Ok(true)
    }

    /// Reads a line when no epoch is open. Returns `Lines` at an epoch line without satellites, whose compact
    /// lines are then pending; `AsItIs` at a line of the header (the first after the two first lines of
    /// compact text, which are pending) or of an event; otherwise `Nothing`; or the line's fault or
    /// `OutOfMemory`, as [`RinexReader::take`] does.
    fn take_elsewhere(&mut self, options: &Options, line: Line<'_>) -> Result<LineOutput, Fault> {
        match self.reader.take(line.bytes())? {
            RinexStep::Nothing => Ok(LineOutput::Nothing),
            RinexStep::Begun => {
                self.encoder
                    .begin_epoch(is_at_every(options.every(), self.index));
                if self.reader.stage.is_in_epoch() {
                    return Ok(LineOutput::Nothing);
                }
                end_epoch(&self.reader, &mut self.encoder);
                self.index += 1;
                Ok(LineOutput::Lines)
            }
            RinexStep::Header { is_first: true } => {
                self.encoder.put_first_lines(options.date());
                Ok(LineOutput::AsItIs)
            }
            _ => {
                self.encoder.reset();
                Ok(LineOutput::AsItIs)
            }
        }
    }

    /// Enters `stage`, after a fault, and forgets all epochs: the next one is full, and no line is pending.
    /// The types and the number of epochs stay.
    fn end_with(&mut self, stage: Stage) {
        self.encoder.reset();
        self.reader.stage = stage;
    }

    /// Ends the input and returns `false`: no line is ready.
    fn conclude(&mut self) -> bool {
        self.reader.stage = Stage::Closed;
        false
    }

    /// Returns whether no compact line is pending; the lines of an open epoch aren't pending yet.
    fn is_drained(&self) -> bool {
        self.encoder.is_drained()
    }

    /// Lends the next pending compact line, without its line end; `None` if none is pending.
    fn next_line(&mut self) -> Option<&[u8]> {
        self.encoder.next_line()
    }

    /// Lends all pending compact lines as one text, each followed by LF; then none is pending.
    fn take_text(&mut self) -> Option<&[u8]> {
        Some(self.encoder.take_text())
    }
}
