//! The part of an engine that differs by direction.

ghost use Rattle.std.specs.Prelude.{◌≡◌, ◌≤◌, ◌↔◌, ℕ, Bool, List, [], None, drop, slice_get, Result, if◌then◌else◌, is_some, IfErr, IfOk, OnErr, IfSome, IsTrue, true, false};
ghost use Rattle.std.specs.Borrow.{sem};
ghost use Rattle.std.specs.Io.BufRead.{Rests};
ghost use Rattle.std.specs.Option.{option_copied};
ghost use Rattle.crx_base.specs.meaning.Choices.{Choices};
ghost use Rattle.crx_base.specs.meaning.Lines.{InputLine, lines_text};
ghost use Rattle.crx_base.specs.meaning.AsRead.{ReadLine};
ghost use Rattle.crx_lines.specs.Reading.{line_number, line_shown};
ghost use Rattle.crx_runs.specs.meaning.Filters.{Filter};
ghost use Rattle.crx_filter.specs.DirectionParts.{AwaitsLine, DirectionParts, DirectionTakes, IsAfterLines, KeepsAllBeside, KnowsStill, answer_for, handed_out_by, hands_out, state_by};
ghost use Rattle.crx_filter.specs.EngineLaws.{IsLawfulDirection};
ghost use Rattle.crx_filter.specs.LineByLine.{Direction as DirectionByLine, RunState, answer_of_lines, fault_at_end_in};
ghost use Rattle.crx_filter.specs.RinexStages.{is_open_stage};
ghost use Rattle.crx_filter.specs.Stages.{bare_phase, is_ended, is_held, is_settled};
ghost use Rattle.crx_filter.specs.declared.stage.Stage.{Stage};

use crate::stage::Stage;
use crx_base::{Fault, Options, Refused};
use crx_lines::Line;
use crx_runs::LineOutput;
use std::alloc::Global;

/// A direction of an engine: compaction, expansion or check.
pub trait Direction: Drop {
    // A whole epoch, the state of an open one, and the state kept from the epochs before.
    ghost Whole: { Type 0 };

    ghost Open: { Type 0 };

    ghost Kept: { Type 0 };

    // The direction's definition line by line, the user's options as it uses them, its state after some
    // lines, the lines that it makes ready if the input ends without a fault, and its output and messages.
    ghost by_line: { DirectionByLine Whole Open Kept };

    ghost options_used: { Choices → Choices };

    ghost state_after_lines: { Choices → List ReadLine → RunState Open Kept };

    ghost lines_at_end_after: { Choices → List InputLine → List (List ℕ) };

    ghost filter: { Choices → Filter };

    // Its state between two lines.
    ghost parts: { Self → DirectionParts Open Kept };

    // The pending lines, and the lines that an end without a fault would make ready.
    ghost ready: { Self → List (List ℕ) };

    ghost lines_at_end: { Self → List (List ℕ) };

    // How many units it has counted, at most one per line.
    ghost units_counted: { Self → ℕ };

    // Whether the open epoch was begun with these options; true if no epoch is open.
    ghost epoch_uses: { Self → Choices → Bool };

    // Whether it allocates memory before the first line.
    ghost allocates_at_start: { Bool };

    // A check's notes are right for these lines, read with these options; trivial for other directions.
    ghost notes_are_right: { Self → Choices → List InputLine → Type 0 };

    // After an end without a fault its report is the report of these lines; trivial without a report.
    ghost report_is_right: { Self → List InputLine → Type 0 };

    // If faults are skipped, nothing has to be known about the report.
    ghost no_report_when_skipping: { (d : Self) (choices : Choices) (lines : List InputLine)
        → options_used choices ≡ choices → choices.skip ≡ true → report_is_right d lines };

    /// Returns the user's options as the direction uses them: unchanged, or for a check none.
    fn options_used(options: Options) -> Options
        ensures value { result ≡ options_used options }
        ensures same { options_used result ≡ result };

    /// Returns a direction before the first line of its input, or `Refused` if memory is refused.
    fn new(alloc: Global) -> Result<Self, Refused>
        ensures state { (choices : Choices) → options_used choices ≡ choices
            → IfOk result (λ d. state_by choices 0 (parts d) ≡ state_after_lines choices []) }
        ensures drained { IfOk result (λ d. ready d ≡ []) }
        ensures counted { IfOk result (λ d. units_counted d ≡ 0) }
        ensures serves { (choices : Choices) → IfOk result (λ d. epoch_uses d choices ≡ true) }
        ensures knows { (choices : Choices) → IfOk result (λ d. notes_are_right d choices []) }
        ensures asked { OnErr result (allocates_at_start ≡ true) };

    /// Returns the stage between two lines.
    fn stage(&self) -> Stage
        ensures value { result ≡ (parts self.now).stage }
        ensures held { is_held result (parts self.now).begun ≡ true }
        ensures lawful { IsLawfulDirection by_line options_used lines_at_end_after state_after_lines filter }
        ensures passes { KnowsStill by_line options_used state_after_lines (parts self.now) (notes_are_right self.now) };

    /// Takes a line of the open epoch. `Ok(true)`: the epoch's lines are ready (never for a check). Returns
    /// the line's fault, or `OutOfMemory`; the caller then calls [`Direction::end_with`].
    fn take_in_epoch(&mut self, line: Line<'_>) -> Result<bool, Fault>
        requires open { is_open_stage (parts self.old).stage ≡ true }
        requires asked { AwaitsLine (ready self.old) (units_counted self.old) }
        ensures takes { DirectionTakes by_line options_used state_after_lines (λ choices. epoch_uses self.old choices ≡ true)
            (parts self.old) (line_number line.entry) (line_shown line.entry)
            result (ready self.new) (parts self.new) (epoch_uses self.new) (units_counted self.old) (units_counted self.new)
            (notes_are_right self.old) (notes_are_right self.new) };

    /// Takes a line when no epoch is open, and returns its output: nothing, the ready lines, or these and
    /// then the line itself; or its fault, or `OutOfMemory`, after which the caller calls `end_with`.
    fn take_elsewhere(&mut self, options: &Options, line: Line<'_>) -> Result<LineOutput, Fault>
        requires running { is_ended (parts self.old).stage ≡ false }
        requires closed { is_open_stage (parts self.old).stage ≡ false }
        requires asked { AwaitsLine (ready self.old) (units_counted self.old) }
        ensures takes { DirectionTakes by_line options_used state_after_lines (λ choices. choices ≡ options.now)
            (parts self.old) (line_number line.entry) (line_shown line.entry)
            (hands_out result) (handed_out_by result (line_shown line.entry).content (ready self.new)) (parts self.new)
            (epoch_uses self.new) (units_counted self.old) (units_counted self.new) (notes_are_right self.old) (notes_are_right self.new) };

    /// Enters `stage` after a fault and forgets all epochs, but not the types or the notes of a check.
    fn end_with(&mut self, stage: Stage)
        requires settled { is_settled stage ≡ true }
        requires drained { ready self.old ≡ [] }
        ensures stage { (parts self.new).stage ≡ stage }
        ensures types { (parts self.new).types ≡ (parts self.old).types }
        ensures kept { (parts self.new).kept ≡ by_line.emptied (parts self.old).kept }
        ensures drained { ready self.new ≡ [] }
        ensures serves { (choices : Choices) → epoch_uses self.new choices ≡ true }
        ensures counted { units_counted self.new ≤ units_counted self.old }
        ensures stays { (choices : Choices) (lines : List InputLine)
            → notes_are_right self.old choices lines → notes_are_right self.new choices lines };

    /// Ends an input without a fault at its end. `true`: lines are ready (the report of a check).
    fn conclude(&mut self) -> bool
        requires running { is_ended (parts self.old).stage ≡ false }
        requires good { fault_at_end_in (bare_phase (parts self.old).stage) ≡ None }
        requires drained { ready self.old ≡ [] }
        ensures value { answer_for result ≡ answer_of_lines (lines_at_end self.old) }
        ensures ready { ready self.new ≡ lines_at_end self.old }
        ensures parts { parts self.new ≡ record (parts self.old) { stage = Stage.Closed } }
        ensures serves { (choices : Choices) → epoch_uses self.new choices ≡ true }
        ensures counted { units_counted self.new ≤ units_counted self.old }
        ensures closing { (choices : Choices) (lines : List InputLine)
            → IsAfterLines options_used state_after_lines choices lines (parts self.old)
            → notes_are_right self.old choices lines
            → (lines_at_end self.old ≡ lines_at_end_after choices lines) × report_is_right self.new lines };

    /// Returns whether no ready line is pending.
    fn is_drained(&self) -> bool
        ensures value { IsTrue result ↔ (ready self.now ≡ []) };

    /// Lends the next ready line, without its line end; `None` if none is pending.
    fn next_line(&mut self) -> Option<&[u8]>
        ensures value { option_copied result ≡ slice_get (ready self.old) 0 }
        ensures* after_borrow { sem 𝓛 (Rests Self.row self.entry (λ new.
            (ready new ≡ drop 1 (ready self.old)) × KeepsAllBeside (parts self.old) (parts new) (units_counted self.old) (units_counted new)
            (epoch_uses self.old) (epoch_uses new) (notes_are_right self.old) (notes_are_right new)
            (report_is_right self.old) (report_is_right new))) };

    /// Lends all ready lines as one text, each followed by LF; then none is pending. Returns `None` for a
    /// check, whose lines stay pending for [`Direction::next_line`], and for an expansion in an open epoch.
    fn take_text(&mut self) -> Option<&[u8]>
        ensures value { IfSome result (λ text. text.now ≡ lines_text (ready self.old)) }
        ensures* after_borrow { sem 𝓛 (Rests Self.row self.entry (λ new.
            (ready new ≡ (if is_some result then [] else ready self.old))
            × KeepsAllBeside (parts self.old) (parts new) (units_counted self.old) (units_counted new)
            (epoch_uses self.old) (epoch_uses new) (notes_are_right self.old) (notes_are_right new)
            (report_is_right self.old) (report_is_right new))) };
}
