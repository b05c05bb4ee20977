//! Expansion of compact text, line by line.

use crate::compact_reader::CompactReader;
use crate::direction::Direction;
use crate::lender::Lender;
use crate::stage::Stage;
use crx_base::memory::try_box;
use crx_base::{Fault, Options, Refused};
use crx_compact::{Block, Columns};
use crx_header::Types;
use crx_lines::Line;
use crx_runs::LineOutput;
use std::alloc::Global;
use std::marker::Model;

/// The state of an expansion between two lines.
#[derive(Drop)]
pub struct Expansion {
    reader: CompactReader,
    /// The ready lines, or the lines already printed of the open epoch.
    lines: Block,
}

impl Model for Expansion {
    ghost use Rattle.std.specs.Prelude.{◌≡◌, true};
    ghost use Rattle.crx_compact.specs.PrintedBlocks.{ArePrinted};
    ghost use Rattle.crx_filter.specs.ExpansionParts.{ExpansionState};
    ghost use Rattle.crx_filter.specs.RinexStages.{is_open_stage};

    ghost Value = { ExpansionState };

    ghost view = { λ e. record { reader = e.reader; lines = e.lines } };

    // If an epoch is open, all of its lines that can be printed are printed.
    ghost invariant = { λ e. is_open_stage e.reader.stage ≡ true → ArePrinted e.reader.columns.value e.lines };
}

/// An expansion of Compact RINEX 3.0 into RINEX. It takes the compact lines and lends the lines of RINEX.
///
/// The faults of a line are the faults of [`CompactReader::read_between`] and
/// [`CompactReader::continue_epoch`]. `OutOfMemory` is returned only at a line without a fault: the first
/// types line that counts, or the first line of an epoch with a satellite that no accepted epoch had with the
/// same number of types. At the end the fault is the one of [`Stage::fault_at_end`]. If faults are skipped,
/// only `OutOfMemory`, and the faults in the first two lines, in the header and among an event's records, are
/// returned.
pub type Expander = Lender<Expansion>;

impl Direction for Expansion {
    ghost use Rattle.std.specs.Prelude.{⊤, Option, true, false, []};
    ghost use Rattle.crx_compact.specs.OpenEpochs.{HeldEpoch, OpenRawEpoch};
    ghost use Rattle.crx_compact.specs.Tails.{Tail};
    ghost use Rattle.crx_filter.specs.ExpansionByLine.{expansion, expansion_state};
    ghost use Rattle.crx_filter.specs.ExpansionParts.{expansion_parts, expansion_ready};
    ghost use Rattle.crx_filter.specs.meaning.Directions.{expansion_filter};

    ghost Whole = { HeldEpoch };

    ghost Open = { OpenRawEpoch };

    ghost Kept = { Option Tail };

    ghost by_line = { expansion };

    ghost options_used = { λ choices. choices };

    ghost state_after_lines = { expansion_state };

    ghost lines_at_end_after = { λ choices lines. [] };

    ghost filter = { expansion_filter };

    ghost parts = { expansion_parts };

    ghost ready = { expansion_ready };

    ghost lines_at_end = { λ e. [] };

    ghost units_counted = { λ e. 0 };

    ghost epoch_uses = { λ e choices. true };

    ghost allocates_at_start = { true };

    ghost notes_are_right = { λ e choices lines. ⊤ };

    ghost report_is_right = { λ e lines. ⊤ };

    ghost no_report_when_skipping = { λ e choices lines taken skips. tt };

    /// Returns the user's options unchanged.
    fn options_used(options: Options) -> Options {
        options
    }

    /// Returns an expansion before the first line, or `Refused` if its memory is refused.
    fn new(alloc: Global) -> Result<Expansion, Refused> {
        let lines = Block::new(alloc)?;
        let columns = try_box(alloc, Columns::new(alloc))?;
        let reader = CompactReader {
            stage: Stage::FirstLines { count: 0 },
            types: Types::new(alloc),
            columns,
        };
        Ok(Expansion { reader, lines })
    }

    /// Returns the reader's stage.
    #[inline(always)]
    fn stage(&self) -> Stage {
        self.reader.stage
    }

    /// Reads the clock line or a satellite line of the open epoch. `Ok(true)`: it was the last, and the
    /// epoch's lines of RINEX are pending. Returns the line's fault: `Truncated`, `BadClock`, `BadField`,
    /// `NoArc`, `OutOfRange` or `BadFlags`; then all epochs are forgotten.
    #[inline(always)]
    fn take_in_epoch(&mut self, line: Line<'_>) -> Result<bool, Fault> {
        self.reader.continue_epoch(line.padded(), &mut self.lines)
    }

    /// Reads a line when no epoch is open. Returns `AsItIs` at a line of the header or of an event, otherwise
    /// `Nothing`; or the line's fault or `OutOfMemory`.
    fn take_elsewhere(&mut self, _options: &Options, line: Line<'_>) -> Result<LineOutput, Fault> {
        if self.reader.read_between(line.bytes())? {
            return Ok(LineOutput::AsItIs);
        }
        Ok(LineOutput::Nothing)
    }

    /// Enters `stage`, after a fault, forgets all epochs and drops all lines. The types stay.
    fn end_with(&mut self, stage: Stage) {
        self.lines.clear();
        let reader = &mut self.reader;
        reader.columns.reset();
        reader.stage = stage;
    }

    /// Ends the input and returns `false`: no line is ready.
    fn conclude(&mut self) -> bool {
        self.reader.stage = Stage::Closed;
        false
    }

    /// Returns whether no ready line is pending; the printed lines of an open epoch aren't ready.
    fn is_drained(&self) -> bool {
        self.reader.stage.is_in_epoch() || self.lines.is_drained()
    }

    /// Lends the next pending line of RINEX, without its line end; `None` in an open epoch or if none is
    /// pending.
    fn next_line(&mut self) -> Option<&[u8]> {
        if self.reader.stage.is_in_epoch() {
            return None;
        }
        self.lines.next_line()
    }

    /// Lends all pending lines as one text, each followed by LF; then none is pending. Returns `None` in an
    /// open epoch, none of whose lines is pending.
    fn take_text(&mut self) -> Option<&[u8]> {
        if self.reader.stage.is_in_epoch() {
            return None;
        }
        Some(self.lines.take_text())
    }
}
