//! Engines: filters that take one line at a time and lend their output.

ghost use Rattle.std.specs.Prelude.{◌≡◌, ◌≤◌, ℕ, List, [], drop, length, slice_get, Result, if◌then◌else◌, is_some, IfOk, IfSome, Some, None, true};
ghost use Rattle.std.specs.Borrow.{sem};
ghost use Rattle.std.specs.Io.BufRead.{Rests};
ghost use Rattle.std.specs.Option.{option_copied};
ghost use Rattle.crx_base.specs.meaning.Lines.{InputLine, is_long};
ghost use Rattle.crx_lines.specs.Reading.{line_shown, line_number};
ghost use Rattle.crx_base.specs.declared.fault.At.{At};
ghost use Rattle.crx_base.specs.declared.limits.TheConstants.{INPUT_LIMIT};
ghost use Rattle.crx_runs.specs.meaning.Filters.{Filter};
ghost use Rattle.crx_base.specs.meaning.Lines.{lines_text};
ghost use Rattle.crx_runs.specs.Engines.{EngineAnswers, answer_given, Awaited, IsAwaited, HasStepped, IsNextLine, KeepsAllElse, Stays, lines_handed_out, taken_after};

use crx_base::At;
use crx_lines::Line;

/// An engine's answer to a line.
#[derive(Clone, Copy, Debug, PartialEq, Eq)]
pub enum Step {
    /// No output yet, and no warning.
    Quiet,
    /// Lines are pending; the caller borrows and writes them.
    Ready,
    /// A fault was skipped.
    Warned {
        /// The fault and its line.
        notice: At,
        /// Whether reading resumes at this line, so that it has to be fed again.
        again: bool,
    },
}

/// The output of a line without a fault.
#[derive(Clone, Copy, Debug, PartialEq, Eq)]
pub enum LineOutput {
    /// No output yet.
    Nothing,
    /// The pending lines.
    Lines,
    /// The pending lines, and after them the line itself.
    AsItIs,
}

/// A filter that takes the lines of an input one at a time. Its output is borrowed from it; a copied line is
/// written from the caller's buffer.
pub trait Engine {
    ghost use Rattle.crx_runs.specs.declared.engine.Step.{Step};

    // The output and the messages that this engine has to make.
    ghost filter: { Self → Filter };

    // The lines that the engine has taken, and the warning of a line that has to be fed again.
    ghost shows: { Self → List InputLine → List Awaited → Type 0 };

    // The lines that are pending.
    ghost ready: { Self → List (List ℕ) };

    // The number of the last line taken, 0 before the first.
    ghost taken: { Self → ℕ };

    // The answer to the last line, if `take` returned `None`.
    ghost answer: { Self → Result Step At };

    // The input ended after these lines.
    ghost has_ended: { Self → List InputLine → Type 0 };

    /// Takes the next line of the input; no line of output may be pending before. Returns its output: none,
    /// pending lines, or these and the line itself. Returns `None` if there is a warning or a fault, which
    /// [`Engine::answer`] then returns.
    fn take(&mut self, line: Line<'_>) -> Option<LineOutput>
        requires next { IsNextLine (ready self.old) (taken self.old) (line_number line) }
        ensures stepped { HasStepped (filter self.old) (filter self.new)
            (lines_handed_out result (line_shown line.entry).content (ready self.new)) (answer_given result (answer self.new)) }
        ensures count { IfOk (answer_given result (answer self.new))
            (λ step. taken self.new ≡ taken_after step (taken self.old)) }
        // The output of a line: the pending lines, and after them the line itself if it is copied.
        ensures answers { (lines : List InputLine) (notices : List Awaited) → shows self.old lines notices
            → IsAwaited notices (line_shown line.entry) → EngineAnswers (filter self.old) (shows self.new)
            (has_ended self.new) (lines_handed_out result (line_shown line.entry).content (ready self.new)) lines
            notices (Some (line_shown line.entry)) (answer_given result (answer self.new)) };

    /// Returns the answer to the last line if [`Engine::take`] returned `None`: a warning, or, as the error,
    /// the fault that ends the run.
    fn answer(&self) -> Result<Step, At>
        ensures value { result ≡ answer self.now };

    /// Takes line `number`, which is above the length limit, without its content; it is never fed again. No
    /// line of output may be pending before. Returns the answer: quiet, pending lines, or a warning; as the
    /// error, the fault that ends the run.
    fn overlong(&mut self, number: u64) -> Result<Step, At>
        requires next { IsNextLine (ready self.old) (taken self.old) number }
        ensures stepped { HasStepped (filter self.old) (filter self.new) (ready self.new) result }
        ensures count { IfOk result (λ step. taken self.new ≡ taken_after step (taken self.old)) }
        ensures once { IfOk result Stays }
        ensures answers { (lines : List InputLine) (notices : List Awaited) (line : InputLine)
            → shows self.old lines notices
            → IsAwaited notices line
            → is_long line ≡ true
            → EngineAnswers (filter self.old) (shows self.new) (has_ended self.new) (ready self.new) lines
            notices (Some line) result };

    /// Takes the end of the input; no line may be pending before. Returns the answer: quiet, pending lines,
    /// or a warning; as the error, the fault that ends the run.
    fn end(&mut self) -> Result<Step, At>
        requires drained { ready self.old ≡ [] }
        requires within { taken self.old ≤ INPUT_LIMIT }
        ensures stepped { HasStepped (filter self.old) (filter self.new) (ready self.new) result }
        ensures answers { (lines : List InputLine) → shows self.old lines [] → EngineAnswers (filter self.old)
            (shows self.new) (has_ended self.new) (ready self.new) lines [] None result };

    /// Borrows the next pending line, without its line end; returns `None` if none is left.
    fn next_line(&mut self) -> Option<&[u8]>
        ensures value { option_copied result ≡ slice_get (ready self.old) 0 }
        ensures* after_borrow { sem 𝓛 (Rests Self.row self.entry (λ new.
            (ready new ≡ drop 1 (ready self.old)) × KeepsAllElse (filter self.old) (filter new) (shows self.old) (shows new)
            (has_ended self.old) (has_ended new))) };

    /// Borrows all pending lines as one text, each followed by LF (an empty text if none is pending);
    /// afterwards none is. Returns `None`, with nothing changed, if the engine doesn't have them as one text,
    /// so that [`Engine::next_line`] has to be called instead.
    fn take_text(&mut self) -> Option<&[u8]>
        ensures value { IfSome result (λ text. text.now ≡ lines_text (ready self.old)) }
        ensures* after_borrow { sem 𝓛 (Rests Self.row self.entry (λ new.
            (ready new ≡ (if is_some result then [] else ready self.old))
            × KeepsAllElse (filter self.old) (filter new) (shows self.old) (shows new) (has_ended self.old) (has_ended new))) };

    ghost counted: { (e : Self) (lines : List InputLine) (notices : List Awaited) → shows e lines notices → taken e ≡ length lines };
}
