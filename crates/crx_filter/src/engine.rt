//! Engines of every direction, as runs use them.

ghost use Rattle.std.specs.Prelude.{◌≡◌, ◌≤◌, true};
ghost use Rattle.crx_base.specs.declared.limits.TheConstants.{INPUT_LIMIT, LINE_LIMIT};
ghost use Rattle.crx_filter.specs.DirectionParts.{EngineParts};

use crate::direction::Direction;
use crate::stage::Stage;
use crx_base::{At, Fault, Options, Padded, Refused};
use crx_lines::Line;
use crx_rinex::begins_epoch;
use crx_runs::{LineOutput, Step};
use std::alloc::Global;
use std::marker::Model;

/// An engine of one direction, as a run uses it. It takes the lines of an input one at a time and lends the
/// lines that it makes. A copied line isn't kept: a [`Lender`](crate::lender::Lender) keeps a copy.
#[derive(Drop)]
pub struct LineEngine<D: Direction> {
    options: Options,
    /// The number of the last line that counts: a line that has to be fed again doesn't.
    number: u64,
    pub(crate) direction: D,
    /// The answer to the last line that had a fault.
    answer: Result<Step, At>,
}

impl<D: Direction> Model for LineEngine<D> {
    ghost Value = { EngineParts D };

    ghost view = { λ e. record { options = e.options; number = e.number; direction = e.direction; answer = e.answer } };

    ghost invariant = { λ e. (e.number ≤ INPUT_LIMIT) × (D.units_counted e.direction ≤ e.number)
        × (D.epoch_uses e.direction e.options ≡ true) × (D.options_used e.options ≡ e.options) };
}

impl<D: Direction> LineEngine<D> {
    ghost use Rattle.std.specs.Prelude.{◌+◌, List, [], length, OnErr, IfOk, false};
    ghost use Rattle.crx_base.specs.Padded.{line_in};
    ghost use Rattle.crx_base.specs.meaning.AsRead.{Content, Overlong};
    ghost use Rattle.crx_base.specs.meaning.Choices.{Choices};
    ghost use Rattle.crx_base.specs.meaning.Lines.{InputLine, is_long};
    ghost use Rattle.crx_lines.specs.Reading.{line_number, line_shown};
    ghost use Rattle.crx_filter.specs.DirectionParts.{AnswersToFault};
    ghost use Rattle.crx_filter.specs.EngineState.{TakesEnd, TakesLine, engine_ready, engine_state};
    ghost use Rattle.crx_filter.specs.EngineSteps.{step_made};
    ghost use Rattle.crx_filter.specs.LineByLine.{may_skip, state_next};
    ghost use Rattle.crx_filter.specs.RinexStages.{is_open_stage};
    ghost use Rattle.crx_filter.specs.Stages.{bare_phase};
    ghost use Rattle.crx_filter.specs.declared.stage.Stage.{Stage};
    ghost use Rattle.crx_runs.specs.Engines.{IsNextLine, Stays, answer_given, lines_handed_out};

    /// Returns an engine before the first line, or `Refused` if its memory is refused; a check reserves none.
    pub fn new(alloc: Global, options: Options) -> Result<LineEngine<D>, Refused>
        ensures state { IfOk result (λ e. engine_state D.Direction e ≡ D.state_after_lines (D.options_used options) []) }
        ensures drained { IfOk result (λ e. engine_ready D.Direction e ≡ []) }
        ensures knows { IfOk result (λ e. D.notes_are_right e.direction e.options []) }
        ensures asked { OnErr result (D.allocates_at_start ≡ true) }
    {
        // `?` would need a temporary as large as a direction.
        match D::new(alloc) {
            Ok(direction) => Ok(LineEngine {
                options: D::options_used(options),
                number: 0,
                direction,
                answer: Ok(Step::Quiet),
            }),
            Err(refused) => Err(refused),
        }
    }

    /// Stores the answer to `fault` in the current line and forgets all epochs: a warning if it is skipped,
    /// otherwise the fault, which ends the run. `skips`: faults may be skipped at this stage; `is_open`: an
    /// epoch is open; `resumes`: the line begins with `>`, and has to be fed again if an open epoch is
    /// skipped. Flags instead of the stage need no temporary at each line.
    #[cold]
    #[inline(never)]
    fn fail(&mut self, skips: bool, is_open: bool, fault: Fault, resumes: bool)
        requires counted { D.units_counted self.old.direction + 1 ≤ self.old.number }
        requires drained { engine_ready D.Direction self.old ≡ [] }
        ensures fails { (stage : Stage) → skips ≡ may_skip (bare_phase stage) → is_open ≡ is_open_stage stage
            → AnswersToFault D.by_line self.old.options self.old.number stage fault resumes (D.parts self.old.direction)
            self.new.answer (engine_ready D.Direction self.new) (engine_state D.Direction self.new) }
        ensures stays { (choices : Choices) (lines : List InputLine)
            → D.notes_are_right self.old.direction choices lines → D.notes_are_right self.new.direction choices lines }
        ensures once { resumes ≡ false → IfOk self.new.answer Stays }
    {
        let notice = At {
            line: self.number,
            fault,
        };
        if !(self.options.skip() & skips & fault.is_skippable()) {
            self.direction.end_with(Stage::Ended(notice));
            self.answer = Err(notice);
            return;
        }
        // A line that has to be fed again doesn't count yet.
        let again = is_open & resumes;
        self.direction.end_with(Stage::Looking);
        self.number -= u64::from(again);
        self.answer = Ok(Step::Warned { notice, again });
    }

    /// Takes the next line and returns its output. After a fault, or once the run has ended, returns `None`
    /// and stores the answer (no copy per line): the fault that ended the run, or a warning, which also says
    /// whether the line has to be fed again.
    #[inline(always)]
    pub(crate) fn answer_line(&mut self, line: Line<'_>) -> Option<LineOutput>
        requires next { IsNextLine (engine_ready D.Direction self.old) self.old.number (line_number line) }
        ensures takes { TakesLine D.Direction self.old (line_shown line.entry) (Content (line_shown line.entry).content)
            (answer_given result self.new.answer) (lines_handed_out result (line_shown line.entry).content
            (engine_ready D.Direction self.new)) self.new }
    {
        let Stage::Open = self.direction.stage() else {
            return self.take_between(line.padded(), line.number(), line.plain());
        };
        let taken = self.direction.take_in_epoch(line);
        self.number += 1;
        match taken {
            Ok(false) => Some(LineOutput::Nothing),
            Ok(true) => Some(LineOutput::Lines),
            Err(fault) => {
                // Faults may be skipped in an open epoch.
                self.fail(true, true, fault, begins_epoch(line.bytes()));
                None
            }
        }
    }

    /// Takes a line when no epoch is open, as [`LineEngine::answer_line`] does. `content`: the line without
    /// its end; `is_plain`: only an LF ends it. Passing the parts needs no temporary at each line.
    #[inline(never)]
    fn take_between(
        &mut self,
        content: Padded<'_>,
        number: u64,
        is_plain: bool,
    ) -> Option<LineOutput>
        requires closed { is_open_stage (D.parts self.old.direction).stage ≡ false }
        requires short { length (line_in content) ≤ LINE_LIMIT }
        requires next { IsNextLine (engine_ready D.Direction self.old) self.old.number number }
        ensures takes { TakesLine D.Direction self.old (record { content = line_in content.entry; is_plain = is_plain })
            (Content (line_in content.entry)) (answer_given result self.new.answer)
            (lines_handed_out result (line_in content.entry) (engine_ready D.Direction self.new)) self.new }
    {
        let line = Line::of(content, number, is_plain);
        let stage = self.direction.stage();
        if let Stage::Ended(at) = stage {
            self.number += 1;
            self.answer = Err(at);
            return None;
        }
        let taken = self.direction.take_elsewhere(&self.options, line);
        self.number += 1;
        match taken {
            Ok(handed_out) => Some(handed_out),
            Err(fault) => {
                let is_open = stage.is_in_epoch();
                let begins = begins_epoch(content.line());
                self.fail(stage.may_skip(), is_open, fault, begins);
                None
            }
        }
    }

    /// Takes line `number`, which is too long. Returns `LineTooLong`: as a warning if it is skipped (between
    /// units, or in an epoch, which is dropped), otherwise as the fault that ends the run. Returns `Quiet`
    /// while looking for `>` and after the end; in an ended run, the fault that ended it.
    pub(crate) fn overlong(&mut self, number: u64) -> Result<Step, At>
        requires next { IsNextLine (engine_ready D.Direction self.old) self.old.number number }
        ensures steps { step_made result [] (engine_state D.Direction self.new)
            ≡ state_next D.by_line (engine_state D.Direction self.old) Overlong }
        ensures drained { engine_ready D.Direction self.new ≡ [] }
        ensures takes { (line : InputLine) → is_long line ≡ true
            → TakesLine D.Direction self.old line Overlong result [] self.new }
        ensures once { IfOk result Stays }
    {
        let stage = self.direction.stage();
        self.number = number;
        match stage {
            Stage::Ended(at) => Err(at),
            Stage::Looking | Stage::Closed => Ok(Step::Quiet),
            _ => {
                let is_open = stage.is_in_epoch();
                self.fail(stage.may_skip(), is_open, Fault::LineTooLong, false);
                self.answer
            }
        }
    }

    /// Ends the input. Returns `Ready` for a check, whose report is then pending, otherwise `Quiet`. In an
    /// unfinished header, event or epoch, returns the fault at the end: as a warning if it is skipped (only
    /// in an epoch), otherwise as the fault that ends the run. In an ended run, returns the fault that ended
    /// it.
    pub(crate) fn end(&mut self) -> Result<Step, At>
        requires drained { engine_ready D.Direction self.old ≡ [] }
        ensures takes { TakesEnd D.Direction self.old result (engine_ready D.Direction self.new) self.new }
    {
        let stage = self.direction.stage();
        if let Stage::Ended(at) = stage {
            return Err(at);
        }
        let Some(fault) = stage.fault_at_end() else {
            if self.direction.conclude() {
                return Ok(Step::Ready);
            }
            return Ok(Step::Quiet);
        };
        let notice = At {
            line: self.number + 1,
            fault,
        };
        if self.options.skip() & stage.may_skip() & fault.is_skippable() {
            self.direction.end_with(Stage::Closed);
            return Ok(Step::Warned {
                notice,
                again: false,
            });
        }
        self.direction.end_with(Stage::Ended(notice));
        Err(notice)
    }
}

impl<D: Direction> crx_runs::Engine for LineEngine<D> {
    ghost use Rattle.std.specs.Prelude.{⊤, length};
    ghost use Rattle.crx_filter.specs.EngineState.{engine_ready, engine_took};

    ghost filter = { λ e. D.filter e.options };

    ghost shows = { λ e lines notices. engine_took D.Direction e lines notices × (e.number ≡ length lines) };

    ghost ready = { engine_ready D.Direction };

    ghost taken = { λ e. e.number };

    ghost has_ended = { λ e lines. D.report_is_right e.direction lines };

    ghost counted = { λ e lines notices shown. shown.1 };

    ghost answer = { λ e. e.answer };

    /// Takes the next line and returns its output, as [`LineEngine::answer_line`] does: `None` after a fault
    /// or once the run has ended; then [`Engine::answer`](crx_runs::Engine::answer) returns the warning or
    /// fault.
    #[inline(always)]
    fn take(&mut self, line: Line<'_>) -> Option<LineOutput> {
        self.answer_line(line)
    }

    /// Returns the answer to the last line that had a fault; `Quiet` if none had.
    fn answer(&self) -> Result<Step, At> {
        self.answer
    }

    /// Takes line `number`, which is too long. Returns `LineTooLong`: as a warning if it is skipped (between
    /// units, or in an epoch, which is dropped), otherwise as the fault that ends the run. Returns `Quiet`
    /// while looking for `>` and after the end; in an ended run, the fault that ended it.
    fn overlong(&mut self, number: u64) -> Result<Step, At> {
        LineEngine::overlong(self, number)
    }

    /// Ends the input. Returns `Ready` for a check, whose report is then pending, otherwise `Quiet`. In an
    /// unfinished header, event or epoch, returns the fault at the end: as a warning if it is skipped (only
    /// in an epoch), otherwise as the fault that ends the run. In an ended run, returns the fault that ended
    /// it.
    fn end(&mut self) -> Result<Step, At> {
        LineEngine::end(self)
    }

    /// Borrows the direction's next pending line, without its line end; `None` if none is pending.
    fn next_line(&mut self) -> Option<&[u8]> {
        self.direction.next_line()
    }

    /// Borrows all pending lines as one text, each followed by LF; then none is pending. Returns `None` for a
    /// check, whose lines stay pending for `next_line`, and for an expansion in an open epoch.
    fn take_text(&mut self) -> Option<&[u8]> {
        self.direction.take_text()
    }
}
