//! Epochs to compact lines and back, by the history of the earlier epochs (Hatanaka's Compact RINEX 3.0).

ghost use Rattle.std.specs.Prelude.{◌≡◌, ◌≤◌, ◌<◌, ◌∷◌, List, [], Some, None, true, false, length, IfOk, IfErr, OnOk, OnErr, Err};
ghost use Rattle.crx_rinex.specs.Epochs.{is_full_epoch};
ghost use Rattle.std.specs.Prelude.{◌⊎◌};
ghost use Rattle.crx_base.specs.Padded.{line_in};
ghost use Rattle.crx_base.specs.meaning.AsRead.{Content, ReadLine};
ghost use Rattle.crx_header.specs.meaning.ObservationTypes.{Count};
ghost use Rattle.crx_rinex.specs.meaning.Places.{Fails};
ghost use Rattle.crx_compact.specs.meaning.Expansion.{RawEpoch};
ghost use Rattle.crx_compact.specs.meaning.CompactPlaces.{epoch_at};
ghost use Rattle.crx_compact.specs.ReadBlocks.{AnswersLine, IsReading};
ghost use Rattle.crx_base.specs.declared.limits.TheConstants.{LINE_LIMIT};
ghost use Rattle.crx_header.specs.meaning.EpochColumns.{begins_epoch, is_event_line};
ghost use Rattle.crx_compact.specs.OpenLines.{IsLineTaken, IsSoundState, step_at};
ghost use Rattle.crx_compact.specs.Blocks.{PendingLines};
ghost use Rattle.crx_compact.specs.PrintedBlocks.{ArePrinted};
ghost use Rattle.crx_compact.specs.OpenEpochs.{awaits_row, is_idle, makes_epoch, tail_held, first_step, step_in, Faulty, HasMade, HasPrintedLines};
ghost use Rattle.crx_compact.specs.OpenEpochs.ColumnsState.{Idle};
ghost use Rattle.crx_compact.specs.meaning.Compaction.{Marked, compact_epoch};
ghost use Rattle.crx_compact.specs.Tails.{tail_left, tail_or_nothing};
ghost use Rattle.crx_compact.specs.Steps.{lines_after_tail, tail_after, tail_written_after};

use crate::block::Block;
use crate::coded::Coded;
use crate::history::History;
use crx_base::{Fault, Padded, PaddedCopy};
use crx_header::Types;
use crx_rinex::{Epoch, begins_epoch};
use crx_text::Text;
use std::alloc::Global;
use std::marker::Model;

/// The line that is expected next.
#[derive(Clone, Copy)]
pub(crate) enum Expected {
    /// An epoch line: no epoch is open.
    EpochLine,
    /// The clock line.
    ClockLine,
    /// A satellite line.
    SatelliteLine,
}

/// The cells of epochs in columns: the history, by which the next epoch is coded or read, and how many
/// lines of the open epoch have been read.
#[derive(Drop)]
pub struct Columns {
    history: History,
    /// Whether the history holds an epoch.
    is_kept: bool,
    /// Whether the history's satellites are known to be those that its text names: an epoch line was read
    /// last, and no RINEX epoch encoded after it.
    is_named: bool,
    expected: Expected,
    /// The number of satellite lines read in the open epoch.
    count: usize,
    scratch: Text,
    alloc: Global,
}

impl Model for Columns {
    ghost use Rattle.crx_compact.specs.OpenLines.{columns_state, IsSoundState};
    ghost use Rattle.crx_compact.specs.Placing.{IsAnnounced};
    ghost use Rattle.crx_compact.specs.OpenEpochs.{ColumnsState};
    ghost use Rattle.std.specs.Prelude.{◌≡◌, true};

    ghost Value = { ColumnsState };

    ghost view = { λ columns. columns_state columns.is_kept columns.expected columns.count columns.history };

    // An open epoch has a line that isn't read yet.
    ghost invariant = { λ columns. IsSoundState columns.expected columns.count columns.history
        × (columns.is_named ≡ true → IsAnnounced columns.history) };
}

impl Columns {
    /// Returns columns without a history: no epoch is open, and the first epoch has to be full, or is encoded
    /// so. Inlined, because a call copies its texts.
    #[inline(always)]
    pub fn new(alloc: Global) -> Columns
        ensures empty { result ≡ Idle None }
    {
        Columns {
            history: History::new(alloc),
            is_kept: false,
            is_named: false,
            expected: Expected::EpochLine,
            count: 0,
            scratch: Text::new(),
            alloc,
        }
    }

    /// Forgets every epoch, the open one included: the next one has to be full, or is encoded so. The memory
    /// is used again.
    pub fn reset(&mut self)
        // The memory is used again.
        ensures emptied { self.new ≡ Idle None }
    {
        forget(&mut self.is_kept, &mut self.is_named, &mut self.expected);
    }

    /// Returns whether no epoch is open, as at the beginning and after an error: the next line has to be an
    /// epoch line.
    pub fn is_idle(&self) -> bool
        ensures value { result ≡ is_idle self.now }
    {
        matches!(self.expected, Expected::EpochLine)
    }

    /// Returns `epoch`, which has to have all its rows, with its compact lines: full if `full` is set or
    /// there is no history, otherwise as differences from the previous epoch. The history then includes the
    /// epoch. No epoch may be open.
    ///
    /// Returns `OutOfMemory` with the epoch if memory is refused; then the columns are unchanged. There is no
    /// other error.
    pub fn encode(&mut self, epoch: Epoch, full: bool) -> Result<Coded, (Epoch, Fault)>
        requires whole { is_full_epoch epoch ≡ true }
        requires idle { is_idle self.old ≡ true }
        ensures coded { IfOk result (λ coded. coded
            ≡ record {
              epoch = epoch;
              lines = lines_after_tail (tail_written_after full (tail_held self.old)) epoch;
            }) }
        ensures kept { OnOk result (self.new
            ≡ Idle (Some (tail_after (tail_written_after full (tail_held self.old)) epoch))) }
        ensures refused { IfErr result (λ refused. (refused.0 ≡ epoch) × (refused.1 ≡ Fault.OutOfMemory)
            × (self.new ≡ self.old)) }
        // By these two clauses a file's compact text is made epoch by epoch. `epochs`: those so far, newest
        // first.
        ensures left { (epochs : List Marked) → tail_held self.old ≡ tail_or_nothing epochs
            → OnOk result (self.new ≡ Idle
            (tail_or_nothing (record { in_full = full; epoch = epoch } ∷ epochs))) }
        ensures lines { (epochs : List Marked) → tail_held self.old ≡ tail_or_nothing epochs
            → IfOk result
            (λ coded. coded.lines ≡ compact_epoch (record { in_full = full; epoch = epoch } ∷ epochs)) }
    {
        prove!(epoch.is_full());
        self.is_named = false;
        let mut lines = match Block::new(self.alloc) {
            Ok(lines) => lines,
            Err(refused) => return Err((epoch, Fault::from(refused))),
        };
        let in_full = full || !self.is_kept;
        match self
            .history
            .encode(&epoch, in_full, &mut self.scratch, &mut lines)
        {
            Ok(()) => {
                self.is_kept = true;
                Ok(Coded { epoch, lines })
            }
            Err(refused) => Err((epoch, Fault::from(refused))),
        }
    }

    /// Begins an epoch with its epoch line, which is read after the previous epoch, or after nothing if it
    /// begins with `>`. `types`: the counts for all lines of the epoch. No epoch may be open, and the line
    /// may not be an event's.
    ///
    /// Returns `NotAnEpoch` if there is no history and the line doesn't begin with `>`; otherwise `BadEpoch`
    /// if the line has a character outside 32 to 126, or the text that it makes doesn't begin with an
    /// observation epoch's columns 1 to 41, or has more than blanks after its identifiers; otherwise, at the
    /// first identifier with a fault, `BadSatellite` if it isn't well-formed or its system has no types,
    /// `RepeatedSatellite` if it is repeated, and `OutOfMemory` if memory is refused. After an error every
    /// epoch is forgotten.
    pub fn begin(&mut self, types: &Types, line: &[u8]) -> Result<(), Fault>
        requires idle { is_idle self.old ≡ true }
        requires short { length line.now ≤ LINE_LIMIT }
        requires no_event { is_event_line line.now ≡ false }
        ensures made { OnOk result (HasMade
            (first_step types.now (tail_held self.old) (Content line.now)) self.new None) }
        ensures refused { IfErr result (λ fault. (first_step types.now (tail_held self.old) (Content line.now)
            ≡ Faulty fault) ⊎ (fault ≡ Fault.OutOfMemory)) }
        ensures emptied { OnErr result (self.new ≡ Idle None) }
        // `older`: the epochs accepted since every epoch was last forgotten, newest first.
        ensures block { (older : List RawEpoch) → tail_held self.old ≡ tail_left older
            → OnOk result (IsReading types.now older (Content line.now ∷ []) self.new) }
        ensures block_fault { (older : List RawEpoch) → tail_held self.old ≡ tail_left older
            → IfErr result (λ fault. (epoch_at types.now older (Content line.now ∷ []) ≡ Fails 0 fault)
            ⊎ (fault ≡ Fault.OutOfMemory)) }
        // The first printed line of this epoch replaces all lines of the previous one in a block.
        ensures unprinted { (block : PendingLines) → ArePrinted self.new block }
    {
        let is_full = begins_epoch(line);
        let is_named = self.is_named & !is_full;
        self.is_named = false;
        if is_full {
            self.history.clear();
        } else if !self.is_kept {
            return Err(Fault::NotAnEpoch);
        }
        match self
            .history
            .read_epoch_line(types, line, is_named, &mut self.scratch)
        {
            Ok(()) => {
                self.is_named = true;
                self.expected = Expected::ClockLine;
                Ok(())
            }
            Err(fault) => {
                self.is_kept = false;
                Err(fault)
            }
        }
    }

    /// Reads the next line of the open epoch, which is the clock line, then a line for each satellite. An
    /// epoch has to be open. Returns the epoch with its last line (the clock line if it has no satellites),
    /// `None` before.
    ///
    /// Returns `Truncated` if the line begins with `>`. In the clock line, returns `BadClock` if it is no
    /// coded value. In a satellite line, returns `BadField` if a cell is no coded value, and `BadFlags` if
    /// its marks have a character outside 32 to 126, or more than blanks after the indicators. In both,
    /// returns `NoArc` for a difference if its arc has no values, and `OutOfRange` if a value doesn't fit its
    /// columns. The first of these faults in the line decides. Returns `OutOfMemory` if the line is the last
    /// one and has no fault, and memory for the epoch is refused. After an error every epoch is forgotten.
    pub fn feed(&mut self, line: &[u8]) -> Result<Option<Epoch>, Fault>
        requires open { is_idle self.old ≡ false }
        requires short { length line.now ≤ LINE_LIMIT }
        ensures made { IfOk result (λ given. HasMade (step_in self.old (Content line.now)) self.new given) }
        ensures refused { IfErr result
            (λ fault. (step_in self.old (Content line.now) ≡ Faulty fault) ⊎ (fault ≡ Fault.OutOfMemory)) }
        ensures memory { IfErr result (λ fault. fault ≡ Fault.OutOfMemory
            → (begins_epoch line.now ≡ false) × (awaits_row self.old ≡ true)
            × (makes_epoch (step_in self.old (Content line.now)) ≡ true)) }
        ensures emptied { OnErr result (self.new ≡ Idle None) }
        // `older`: the epochs accepted since every epoch was last forgotten, newest first. `lines`: those
        // of the open epoch so far.
        ensures block { (types : List Count) (older : List RawEpoch) (lines : List ReadLine)
            → IsReading types older lines self.old
            → AnswersLine types older lines (Content line.now) self.new result }
    {
        let mut copy = PaddedCopy::new();
        let padded = copy.of(line);
        match read_line(
            &mut self.history,
            &mut self.expected,
            &mut self.count,
            padded,
            &mut self.scratch,
        ) {
            Ok(false) => Ok(None),
            Ok(true) => match self.history.epoch() {
                Ok(epoch) => {
                    self.expected = Expected::EpochLine;
                    self.is_kept = true;
                    Ok(Some(epoch))
                }
                Err(fault) => {
                    forget(&mut self.is_kept, &mut self.is_named, &mut self.expected);
                    Err(fault)
                }
            },
            Err(fault) => {
                forget(&mut self.is_kept, &mut self.is_named, &mut self.expected);
                Err(fault)
            }
        }
    }

    /// Reads the next line of the open epoch, and prints it into `lines`: the clock line replaces all `lines`
    /// by the printed epoch line, and each satellite line appends its printed row. Returns whether the line
    /// is the epoch's last one; then its printed lines are complete, and no epoch is open.
    ///
    /// Returns `NotAnEpoch` if no epoch is open, `Truncated` if the line begins with `>`, `BadClock` or
    /// `BadField` if the clock line or a cell is no coded value, `NoArc` for a difference if its arc has no
    /// values, `OutOfRange` if a value doesn't fit its columns, and `BadFlags` if the marks have a character
    /// outside 32 to 126, or more than blanks after the indicators. After an error `lines` is empty, and
    /// every epoch is forgotten.
    #[inline(always)]
    pub fn feed_into(&mut self, line: Padded<'_>, lines: &mut Block) -> Result<bool, Fault>
        requires short { length (line_in line) ≤ LINE_LIMIT }
        requires printed { ArePrinted self.old lines.old }
        ensures made { IfOk result (λ is_whole.
            HasPrintedLines (step_in self.old (Content (line_in line.entry))) self.new is_whole
            lines.new.lines) }
        ensures refused { IfErr result (λ fault.
            step_in self.old (Content (line_in line.entry)) ≡ Faulty fault) }
        ensures emptied { OnErr result ((self.new ≡ Idle None) × (lines.new.lines ≡ [])) }
        ensures printed { ArePrinted self.new lines.new }
    {
        match read_line(
            &mut self.history,
            &mut self.expected,
            &mut self.count,
            line,
            &mut self.scratch,
        ) {
            Ok(is_whole) => {
                self.history.print(self.count, lines, &mut self.scratch);
                if !is_whole {
                    return Ok(false);
                }
                self.expected = Expected::EpochLine;
                self.is_kept = true;
                Ok(true)
            }
            Err(fault) => {
                lines.clear();
                forget(&mut self.is_kept, &mut self.is_named, &mut self.expected);
                Err(fault)
            }
        }
    }
}

/// Forgets every epoch: there is no history, the satellites aren't known by their text, and an epoch line is
/// expected. The parameters are fields of [`Columns`], whose history may be inconsistent after a fault.
fn forget(is_kept: &mut bool, is_named: &mut bool, expected: &mut Expected)
    ensures kept { is_kept.new ≡ false }
    ensures named { is_named.new ≡ false }
    ensures expected { expected.new ≡ Expected.EpochLine }
{
    *is_kept = false;
    *is_named = false;
    *expected = Expected::EpochLine;
}

/// Reads the next line of an open epoch, which is the clock line, then a line for each satellite, and returns
/// whether it is the last one. `count`: the number of satellite lines read.
///
/// Returns `NotAnEpoch` if no epoch is open, `Truncated` if the line begins with `>`, `BadClock` or
/// `BadField` if the clock line or a cell is no coded value, `NoArc` for a difference if its arc has no
/// values, `OutOfRange` if a value doesn't fit its columns, and `BadFlags` if the marks have a character
/// outside 32 to 126, or more than blanks after the indicators. Then the parameters may be inconsistent.
#[inline(always)]
fn read_line(
    history: &mut History,
    expected: &mut Expected,
    count: &mut usize,
    line: Padded<'_>,
    scratch: &mut Text,
) -> Result<bool, Fault>
    requires sound { IsSoundState expected.old count.old history.old }
    requires short { length (line_in line) ≤ LINE_LIMIT }
    ensures ok { IfOk result (IsLineTaken (line_in line.entry) expected.old count.old history.old expected.new
        count.new history.new) }
    ensures err { IfErr result (λ fault.
        step_at expected.old count.old history.old (Content (line_in line.entry)) ≡ Faulty fault) }
{
    match *expected {
        Expected::EpochLine => Err(Fault::NotAnEpoch),
        Expected::ClockLine => {
            history.read_clock(line.line())?;
            *expected = Expected::SatelliteLine;
            *count = 0;
            Ok(history.count() == 0)
        }
        Expected::SatelliteLine => {
            let all = history.count();
            history.read_row(*count, line, scratch)?;
            *count += 1;
            Ok(*count == all)
        }
    }
}
