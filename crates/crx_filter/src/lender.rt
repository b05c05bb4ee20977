//! Engines of every direction for callers that feed lines and borrow the output lines, copied ones too.

ghost use Rattle.std.specs.Prelude.{◌≡◌};

use crate::direction::Direction;
use crate::engine::LineEngine;
use crx_base::memory::try_box;
use crx_base::{At, Options};
use crx_lines::Line;
use crx_runs::{LineOutput, Step};
use crx_text::Text;
use crx_text::appending::append;
use std::alloc::{AllocError, Global};
use std::marker::Model;

/// An engine of one direction for a caller that feeds lines and borrows the output lines. A copied line is
/// lent from memory of its own, after the lines that were ready before it.
#[derive(Drop)]
pub struct Lender<D: Direction> {
    pub(crate) engine: LineEngine<D>,
    /// The last line that was copied.
    copied: Box<Text>,
    /// Whether `copied` is pending.
    is_pending: bool,
}

impl<D: Direction> Model for Lender<D> {
    ghost use Rattle.std.specs.Prelude.{None, Some, if◌then◌else◌};
    ghost use Rattle.crx_filter.specs.LenderState.{LenderParts};

    ghost Value = { LenderParts D };

    ghost view = { λ l. record { engine = l.engine; copied = if l.is_pending then Some l.copied.value else None } };
}

impl<D: Direction> Lender<D> {
    ghost use Rattle.std.specs.Prelude.{◌↔◌, List, [], drop, slice_get, IfOk, IsTrue, true};
    ghost use Rattle.std.specs.Borrow.{sem};
    ghost use Rattle.std.specs.Io.BufRead.{Rests};
    ghost use Rattle.std.specs.Option.{option_copied};
    ghost use Rattle.crx_base.specs.meaning.AsRead.{Content, Overlong};
    ghost use Rattle.crx_base.specs.meaning.Choices.{Choices};
    ghost use Rattle.crx_base.specs.meaning.Lines.{InputLine, is_long};
    ghost use Rattle.crx_lines.specs.Reading.{line_number, line_shown};
    ghost use Rattle.crx_filter.specs.EngineState.{TakesEnd, TakesLine};
    ghost use Rattle.crx_filter.specs.EngineSteps.{step_made};
    ghost use Rattle.crx_filter.specs.LineByLine.{state_next};
    ghost use Rattle.crx_filter.specs.LenderState.{lender_ready, lender_state};
    ghost use Rattle.crx_filter.specs.contracts.lender.Lender.{the_row};
    ghost use Rattle.crx_runs.specs.Engines.{IsNextLine};

    /// Returns an engine before the first line, with memory for a line; `AllocError` if memory is refused.
    pub fn new(alloc: Global, options: Options) -> Result<Lender<D>, AllocError>
        ensures state { IfOk result (λ e. lender_state D.Direction e ≡ D.state_after_lines (D.options_used options) []) }
        ensures drained { IfOk result (λ e. lender_ready D.Direction e ≡ []) }
        ensures knows { IfOk result (λ e. D.notes_are_right e.engine.direction e.engine.options []) }
    {
        let engine = LineEngine::new(alloc, options)?;
        let copied = try_box(alloc, Text::new())?;
        Ok(Lender {
            engine,
            copied,
            is_pending: false,
        })
    }

    /// Takes line `number`, which is too long. Returns `LineTooLong`: as a warning if it is skipped (between
    /// units, or in an epoch, which is dropped), otherwise as the fault that ends the run. Returns `Quiet`
    /// while looking for `>` and after the end; in an ended run, the fault that ended it.
    pub fn overlong(&mut self, number: u64) -> Result<Step, At>
        requires next { IsNextLine (lender_ready D.Direction self.old) self.old.engine.number number }
        ensures steps { step_made result [] (lender_state D.Direction self.new)
            ≡ state_next D.by_line (lender_state D.Direction self.old) Overlong }
        ensures drained { lender_ready D.Direction self.new ≡ [] }
        ensures takes { (line : InputLine) → is_long line ≡ true
            → TakesLine D.Direction self.old.engine line Overlong result [] self.new.engine }
    {
        self.engine.overlong(number)
    }

    /// Ends the input; no line may be pending before. Returns `Ready` if the direction now has lines (a
    /// check's report), `Warned` if the fault at the end is skipped, otherwise `Quiet`; or the fault at the
    /// end, or the fault that had ended the run. A second call returns the same lines or the same fault, and
    /// `Quiet` after `Warned`.
    pub fn end(&mut self) -> Result<Step, At>
        requires drained { lender_ready D.Direction self.old ≡ [] }
        ensures takes { TakesEnd D.Direction self.old.engine result (lender_ready D.Direction self.new) self.new.engine }
    {
        self.engine.end()
    }

    /// Takes the next line. `Quiet`: nothing is to be written yet. `Ready`: [`Lender::next_line`] lends the
    /// output lines. `Warned`: a fault is skipped; with `again` reading resumes at this very line, which
    /// doesn't count yet and has to be fed again. Returns the fault that ends the run at this line; from then
    /// on each call returns it, and no line is ready.
    pub fn feed(&mut self, line: Line<'_>) -> Result<Step, At>
        requires next { IsNextLine (lender_ready D.Direction self.old) self.old.engine.number (line_number line) }
        ensures takes { TakesLine D.Direction self.old.engine (line_shown line.entry) (Content
            (line_shown line.entry).content) result (lender_ready D.Direction self.new) self.new.engine }
    {
        match self.engine.answer_line(line) {
            None => crx_runs::Engine::answer(&self.engine),
            Some(LineOutput::Nothing) => Ok(Step::Quiet),
            Some(LineOutput::Lines) => Ok(Step::Ready),
            Some(LineOutput::AsItIs) => {
                self.copied.clear();
                append(&mut self.copied, line.bytes());
                self.is_pending = true;
                Ok(Step::Ready)
            }
        }
    }

    /// Returns whether no ready line is pending.
    pub fn is_drained(&self) -> bool
        ensures value { IsTrue result ↔ (lender_ready D.Direction self.now ≡ []) }
    {
        !self.is_pending && self.engine.direction.is_drained()
    }

    /// Lends the next pending line, without its line end; `None` if none is pending. If the line that was fed
    /// is copied into the output, it is lent last.
    pub fn next_line(&mut self) -> Option<&[u8]>
        ensures value { option_copied result ≡ slice_get (lender_ready D.Direction self.old) 0 }
        // The direction changes too: it counts the lines that it has lent.
        ensures* after_borrow { sem 𝓛 (Rests (the_row D.row D.Direction) self.entry (λ new. (lender_ready D.Direction new
            ≡ drop 1 (lender_ready D.Direction self.old)) × (lender_state D.Direction new ≡ lender_state D.Direction self.old)
            × ((choices : Choices) (lines : List InputLine) → D.notes_are_right self.old.engine.direction choices lines
            → D.notes_are_right new.engine.direction choices lines)
            × ((lines : List InputLine) → D.report_is_right self.old.engine.direction lines
            → D.report_is_right new.engine.direction lines)
            × (new.engine ≡ record self.old.engine { direction = new.engine.direction })
            × (D.parts new.engine.direction ≡ D.parts self.old.engine.direction))) }
    {
        if !self.engine.direction.is_drained() {
            return self.engine.direction.next_line();
        }
        if !self.is_pending {
            return None;
        }
        self.is_pending = false;
        Some(self.copied.bytes())
    }
}
