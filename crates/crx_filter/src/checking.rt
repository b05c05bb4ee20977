//! The check of a RINEX file, line by line.

ghost use Rattle.std.specs.Option.{is_some};
ghost use Rattle.std.specs.Prelude.{◌≡◌, ◌<◌, ◌+◌, ℕ, List, [], true, false};
ghost use Rattle.crx_base.specs.declared.limits.TheConstants.{INPUT_LIMIT};
ghost use Rattle.crx_lines.specs.Reading.{line_number, line_shown};
ghost use Rattle.crx_rinex.specs.meaning.EpochPlaces.{OpenEpoch};
ghost use Rattle.crx_rinex.specs.meaning.Observations.{Epoch as ObservationEpoch};
ghost use Rattle.crx_filter.specs.CheckByLine.{Totals as TotalsNoted, check_by_line, check_reading, no_choices};
ghost use Rattle.crx_filter.specs.CheckingParts.{HasNoRow, NotesLine};
ghost use Rattle.crx_filter.specs.CompactionByLine.{is_before_header};
ghost use Rattle.crx_filter.specs.LineByLine.{Made};
ghost use Rattle.crx_filter.specs.RinexReaders.{reader_phase, TakesRinexLine, TakesRow};
ghost use Rattle.crx_filter.specs.RinexStages.{is_open_stage};
ghost use Rattle.crx_filter.specs.Totals.{IsBehindARow, IsObserved};
ghost use Rattle.crx_filter.specs.declared.rinex_reader.RinexReader.{RinexReader};
ghost use Rattle.crx_filter.specs.declared.rinex_reader.RinexStep.{RinexStep};

use crate::direction::Direction;
use crate::engine::LineEngine;
use crate::lender::Lender;
use crate::report::{REPORT_LINES, print_report_line};
use crate::rinex_reader::{RinexReader, RinexStep};
use crate::stage::Stage;
use crate::totals::Totals;
use crx_base::limits::{HEAD_WIDTH, VERSION_WIDTH};
use crx_base::{Fault, Options, Refused};
use crx_header::{Identifiers, padded};
use crx_lines::Line;
use crx_rinex::{has_printed_form, print_head};
use crx_runs::LineOutput;
use crx_text::Text;
use crx_text::columns::trim_end_columns;
use std::alloc::Global;
use std::marker::Model;

/// The findings of a check so far, with its buffers.
#[derive(Drop)]
pub struct Noted {
    /// The identifiers read so far of the last epoch that has satellites.
    names: Identifiers,
    /// How many observations the rows of these satellites have.
    observed: u64,
    totals: Totals,
    /// The number of the first line that isn't standard.
    not_standard: Option<u64>,
    /// The buffer for a printed line.
    text: Text,
}

/// The state of a check between two lines.
#[derive(Drop)]
pub struct Checking {
    reader: RinexReader,
    noted: Noted,
    /// How many lines of the report have been lent; before the end of the input, all of them.
    handed_out: usize,
}

/// A check of a RINEX file that takes its lines one at a time. It skips no fault, whatever its options are.
/// After the whole input was accepted, it lends the lines of the report. Its faults are a
/// [`Compactor`](crate::Compactor)'s.
pub type Checker = Lender<Checking>;

impl Model for Checking {
    ghost use Rattle.crx_filter.specs.CheckingParts.{AreCounted, CheckingState};

    ghost Value = { CheckingState };

    ghost view = { λ c. record { reader = c.reader; noted = c.noted; handed_out = c.handed_out } };

    ghost invariant = { λ c. AreCounted c.reader c.noted };
}

impl Noted {
    /// Counts the last row of `reader`, read from `line`: each value that isn't missing is an observation.
    /// `is_last`: its epoch is complete, and is counted too. Notes the number of `line` if it is the first
    /// that isn't standard: it has CR or no LF, or differs from the row as the reader prints it.
    #[inline(always)]
    fn note_row(&mut self, reader: &RinexReader, is_last: bool, line: Line<'_>)
        requires behind { IsBehindARow self.old.observed (line_shown line).content reader.now }
        requires within { self.old.totals.epochs + self.old.totals.events < INPUT_LIMIT }
        ensures observed { IsObserved self.new.observed reader.now.rows.rows }
        ensures names { self.new.names ≡ self.old.names }
        ensures notes { (before : RinexReader) (made : Made ObservationEpoch OpenEpoch)
            → TakesRow made is_last before reader.now
            → NotesLine made (is_before_header (reader_phase before)) (line_shown line.entry) (line_number line.entry)
            self.old self.new }
    {
        self.observed += reader.row.observations() as u64;
        if is_last {
            self.totals.epochs += 1;
            self.totals.observations += self.observed;
        }
        if self.not_standard.is_some() {
            return;
        }
        if line.plain() & has_printed_form(line.bytes()) {
            return;
        }
        reader.row.print(&mut self.text);
        if line.plain() & (line.bytes() == self.text.bytes()) {
            return;
        }
        self.not_standard = Some(line.number());
    }

    /// Notes `line`, which isn't a satellite line, after the reader's answer `step`: stores the version, or
    /// counts an event or an epoch without satellites. Notes its number if it is the first that isn't
    /// standard; only an epoch line is compared with its printed form, because all others are copied.
    fn note(&mut self, reader: &RinexReader, step: RinexStep, line: Line<'_>)
        requires within { self.old.totals.epochs + self.old.totals.events < INPUT_LIMIT }
        requires held { step ≡ RinexStep.Begun → is_some reader.now.head ≡ true }
        ensures begun { step ≡ RinexStep.Begun → is_open_stage reader.now.stage ≡ true → HasNoRow self.new }
        ensures notes { (before : RinexReader) (made : Made ObservationEpoch OpenEpoch)
            → TakesRinexLine made before (line_shown line.entry).content step reader.now
            → NotesLine made (is_before_header (reader_phase before)) (line_shown line.entry) (line_number line.entry)
            self.old self.new }
    {
        let is_given_back = match step {
            RinexStep::Header { is_first: true } => {
                self.totals.version = padded(line.bytes(), 1);
                true
            }
            RinexStep::Event => {
                self.totals.events += 1;
                true
            }
            RinexStep::Begun => {
                let Some(head) = &reader.head else {
                    unreachable!()
                };
                if reader.stage.is_in_epoch() {
                    self.names = Identifiers::new();
                    self.observed = 0;
                } else {
                    self.totals.epochs += 1;
                }
                // Usually there is no clock offset, and the columns are the printed line.
                if head.clock().is_none() {
                    line.bytes() == trim_end_columns(head.columns(), 1, HEAD_WIDTH)
                } else {
                    print_head(head, &mut self.text);
                    line.bytes() == self.text.bytes()
                }
            }
            RinexStep::Header { is_first: false } | RinexStep::Record | RinexStep::Nothing => true,
        };
        if self.not_standard.is_some() | (line.plain() & is_given_back) {
            return;
        }
        self.not_standard = Some(line.number());
    }
}

/// Returns the options of every check: no N for full epochs, no skipping and an empty date.
pub fn no_options() -> Options
    ensures value { result ≡ no_choices }
{
    match Options::new(None, false, b"") {
        Ok(options) => options,
        Err(_) => unreachable!(),
    }
}

impl Direction for Checking {
    ghost use Rattle.crx_filter.specs.CheckingParts.{HasFound, HasNoted, checking_parts, never_skips, pending_report, report_of};
    ghost use Rattle.crx_filter.specs.meaning.Directions.{check_filter};
    ghost use Rattle.crx_filter.specs.meaning.Standard.{findings_of, report_lines};

    ghost Whole = { ObservationEpoch };

    ghost Open = { OpenEpoch };

    ghost Kept = { TotalsNoted };

    ghost by_line = { check_by_line };

    ghost options_used = { λ choices. no_choices };

    ghost state_after_lines = { λ choices. check_reading };

    ghost lines_at_end_after = { λ choices lines. report_lines (findings_of lines) };

    ghost filter = { λ choices. check_filter };

    ghost parts = { checking_parts };

    ghost ready = { pending_report };

    ghost lines_at_end = { report_of };

    ghost units_counted = { λ c. c.noted.totals.epochs + c.noted.totals.events };

    ghost epoch_uses = { λ c choices. true };

    ghost allocates_at_start = { false };

    ghost notes_are_right = { λ c choices lines. HasNoted c lines };

    ghost report_is_right = { HasFound };

    ghost no_report_when_skipping = { λ c choices lines taken skips. never_skips choices taken skips };

    /// Returns the options of a check, whatever the user gave: none full, nothing skipped, no date.
    fn options_used(_options: Options) -> Options {
        no_options()
    }

    /// Returns a check before the first line. It reserves no memory, so it is never refused.
    fn new(alloc: Global) -> Result<Checking, Refused> {
        Ok(Checking {
            reader: RinexReader::new(alloc),
            noted: Noted {
                names: Identifiers::new(),
                observed: 0,
                totals: Totals {
                    version: [b' '; VERSION_WIDTH],
                    epochs: 0,
                    events: 0,
                    observations: 0,
                },
                not_standard: None,
                text: Text::new(),
            },
            handed_out: REPORT_LINES,
        })
    }

    /// Returns the reader's stage.
    #[inline(always)]
    fn stage(&self) -> Stage {
        self.reader.stage
    }

    /// Reads a satellite line of the open epoch and notes its row. Returns `Ok(false)`, because a check has
    /// no lines before its end; or `Truncated` if the line begins with `>`, `RepeatedSatellite`, or
    /// `BadSatellite`, `BadField` or `BadFlags` of [`RowBuffer::read`](crx_rinex::RowBuffer::read).
    #[inline(always)]
    fn take_in_epoch(&mut self, line: Line<'_>) -> Result<bool, Fault> {
        self.reader.read_row(line.padded())?;
        if !self.noted.names.put(*self.reader.row.name()) {
            return Err(Fault::RepeatedSatellite);
        }
        let is_last = self.reader.take_row();
        self.noted.note_row(&self.reader, is_last, line);
        Ok(false)
    }

    /// Reads and notes a line when no epoch is open. Returns `Nothing`, or the line's fault or `OutOfMemory`,
    /// as [`RinexReader::take`] does; then nothing is noted.
    fn take_elsewhere(&mut self, _options: &Options, line: Line<'_>) -> Result<LineOutput, Fault> {
        let step = self.reader.take(line.bytes())?;
        self.noted.note(&self.reader, step, line);
        Ok(LineOutput::Nothing)
    }

    /// Enters `stage`, after a fault. The types and the notes stay, and no line of the report is ready.
    fn end_with(&mut self, stage: Stage) {
        self.reader.stage = stage;
    }

    /// Ends the input and returns `true`: all lines of the report are ready.
    fn conclude(&mut self) -> bool {
        self.reader.stage = Stage::Closed;
        self.handed_out = 0;
        true
    }

    /// Returns whether no line of the report is pending: before the end of the input, and after its last
    /// line.
    fn is_drained(&self) -> bool {
        self.handed_out >= REPORT_LINES
    }

    /// Lends the next line of the report, without its line end; `None` before the end of the input, and after
    /// the report's last line.
    fn next_line(&mut self) -> Option<&[u8]> {
        if print_report_line(
            self.handed_out,
            &self.noted.totals,
            &self.reader.types,
            self.noted.not_standard,
            &mut self.noted.text,
        ) {
            self.handed_out += 1;
            return Some(self.noted.text.bytes());
        }
        None
    }

    /// Returns `None` and leaves the lines pending: the report is lent line by line.
    fn take_text(&mut self) -> Option<&[u8]> {
        None
    }
}

impl LineEngine<Checking> {
    /// Returns the number of the first line so far that isn't standard, or `None` if all are.
    pub fn not_standard(&self) -> Option<u64>
        ensures value { result ≡ self.now.direction.noted.not_standard }
    {
        self.direction.noted.not_standard
    }
}
