//! One line of the input, through an engine to the writer and the messages.

ghost use Rattle.std.specs.Prelude.{◌≡◌, ◌≤◌, ◌⊎◌, ◌∷◌, [], None, Ok, OnOk, Some, false, true};
ghost use Rattle.crx_base.specs.meaning.Lines.{InputLine, is_long};
ghost use Rattle.crx_lines.specs.Reading.{line_shown, line_number};
ghost use Rattle.crx_base.specs.declared.fault.At.{At};
ghost use Rattle.crx_base.specs.declared.limits.TheConstants.{INPUT_LIMIT};
ghost use Rattle.crx_runs.specs.Engines.{IsDrainedAfter, IsNextLine};
ghost use Rattle.crx_runs.specs.declared.one_line.Halt.TheVariants as halts;
ghost use Rattle.crx_runs.specs.Taking.{EndWarns, HasHandedOut, HoldsAnswer, IsLineAfter, IsSettled, TakesNext, IsTouchedBy, KeepsLines, KeepsOrder, ReportsLast, made_by, WasAnswered};
ghost use Rattle.crx_runs.specs.meaning.Spans.{span};

use crate::engine::{Engine, LineOutput, Step};
use crate::message::{Severity, message};
use crate::ready_lines::{write_line_output, write_ready};
use crx_base::At;
use crx_lines::{Line, Sink, WriteFailed, write_all_counted};

/// Why a run ended early.
#[derive(Clone, Copy, Debug, PartialEq, Eq)]
pub enum Halt {
    /// A fault of the input, a failed read, or refused memory.
    Fault(At),
    /// The writer failed.
    Unwritten,
    /// A warning couldn't be written.
    Unreported,
}

impl From<At> for Halt {
    ghost from_gives = { λ at halt. halt ≡ halts.Fault at };

    /// Returns `Halt::Fault(at)`.
    fn from(at: At) -> Halt {
        Halt::Fault(at)
    }
}

/// Reports the warning `notice` and returns `true`, or `Halt::Unreported` if `messages` fails. `_writer` is
/// only in the contract: if someone may be waiting for its output, all earlier output has to be passed on
/// before, unless that failed.
#[inline(always)]
fn report_warning<W: Sink, M: Sink>(_writer: &W, messages: &mut M, notice: At) -> Result<bool, Halt>
    requires handed_on { (W.is_awaited _writer.now ≡ true → W.is_current _writer.now)
        ⊎ (W.is_broken _writer.now ≡ true) }
    ensures settled { IsSettled (span W.Sink _writer.now _writer.now) (span M.Sink messages.old messages.new)
        (record { output = []; warnings = notice ∷ []; fault = None }) result }
{
    match write_all_counted(messages, message(Severity::Warning, notice).bytes()) {
        Ok(()) => Ok(true),
        Err(_) => Err(Halt::Unreported),
    }
}

/// Writes the lines that `step` made ready, or reports its warning; returns whether it warned. Before a
/// warning the writer passes earlier output on if someone may be waiting for it; if that fails, no error is
/// returned here, but each later flush fails. Returns `Halt::Unwritten` if lines couldn't be written, and
/// `Halt::Unreported` if the warning couldn't.
#[inline(never)]
fn write_step<E: Engine, W: Sink, M: Sink>(
    engine: &mut E,
    writer: &mut W,
    messages: &mut M,
    step: Step,
) -> Result<bool, Halt>
    requires { IsDrainedAfter step (E.ready engine.old) }
    ensures drained { OnOk result (E.ready engine.new ≡ []) }
    ensures kept { KeepsLines E.Engine engine.old engine.new }
    ensures touched { IsTouchedBy step engine.old engine.new }
    ensures settled { IsSettled (span W.Sink writer.old writer.new)
        (span M.Sink messages.old messages.new) (made_by (E.ready engine.old) step) result }
    ensures told { ReportsLast W.Sink step writer.old messages.old messages.new }
    ensures awaited { W.is_awaited writer.new ≡ W.is_awaited writer.old }
{
    match step {
        Step::Quiet => Ok(false),
        Step::Ready => match write_ready(engine, writer) {
            Ok(()) => Ok(false),
            Err(_) => Err(Halt::Unwritten),
        },
        Step::Warned { notice, .. } => {
            writer.pass_on();
            report_warning(writer, messages, notice)
        }
    }
}

/// Feeds `line` to the engine, writes its output and returns `true`. Returns `false`, without a write, if the
/// engine has an answer instead ([`Engine::answer`]), and `WriteFailed` if the writer fails. Reports nothing;
/// `_messages` is only in the contract.
#[inline(always)]
pub(crate) fn feed_line<E: Engine, W: Sink, M: Sink>(
    engine: &mut E,
    writer: &mut W,
    _messages: &M,
    line: Line<'_>,
) -> Result<bool, WriteFailed>
    requires may_take { IsNextLine (E.ready engine.old) (E.taken engine.old) (line_number line) }
    ensures taken { HasHandedOut E.Engine engine.old engine.new (line_shown line.entry) (line_number line.entry)
        (span W.Sink writer.old writer.new) (span M.Sink _messages.now _messages.now) result }
    ensures untouched { result ≡ Ok false → writer.new ≡ writer.old }
    ensures awaited { W.is_awaited writer.new ≡ W.is_awaited writer.old }
{
    match engine.take(line) {
        Some(LineOutput::Nothing) => Ok(true),
        Some(handed_out) => {
            write_line_output(engine, writer, line.bytes(), handed_out)?;
            Ok(true)
        }
        None => Ok(false),
    }
}

/// Carries out the engine's answer to `line`, for which [`feed_line`] has to have returned `false`: writes
/// the pending lines or reports the warning, and feeds the line again, once, if reading resumes at it.
/// Returns whether there was a warning, or why the run ends: a fault, which isn't reported yet, `Unwritten`
/// if the writer failed, or `Unreported` if a warning couldn't be written.
#[cold]
#[inline(never)]
pub(crate) fn carry_out_answer<E: Engine, W: Sink, M: Sink>(
    engine: &mut E,
    writer: &mut W,
    messages: &mut M,
    line: Line<'_>,
) -> Result<bool, Halt>
    requires { HoldsAnswer E.Engine engine.old (line_shown line).content (line_number line) }
    ensures taken { TakesNext E.Engine engine.old engine.new (WasAnswered E.Engine engine.old (line_shown line.entry))
        (span W.Sink writer.old writer.new) (span M.Sink messages.old messages.new) result }
    ensures order { KeepsOrder W.Sink writer.old writer.new messages.old messages.new }
{
    let step = engine.answer()?;
    let warned = write_step(engine, writer, messages, step)?;
    let Step::Warned { again: true, .. } = step else {
        return Ok(warned);
    };
    match engine.take(line) {
        Some(handed_out) => match write_line_output(engine, writer, line.bytes(), handed_out) {
            Ok(()) => Ok(warned),
            Err(_) => Err(Halt::Unwritten),
        },
        None => {
            let second = engine.answer()?;
            write_step(engine, writer, messages, second)?;
            Ok(warned)
        }
    }
}

/// Feeds `line` to the engine, again if reading resumes at it after a warning; writes its output and reports
/// its warnings. No line of output may be pending before. Returns whether there was a warning, or why the run
/// ends: a fault, which isn't reported yet, `Unwritten` if the writer failed, or `Unreported` if a warning
/// couldn't be written.
#[inline(always)]
pub fn take_line<E: Engine, W: Sink, M: Sink>(
    engine: &mut E,
    writer: &mut W,
    messages: &mut M,
    line: Line<'_>,
) -> Result<bool, Halt>
    requires may_take { IsNextLine (E.ready engine.old) (E.taken engine.old) (line_number line) }
    ensures taken { TakesNext E.Engine engine.old engine.new (IsLineAfter E.Engine engine.old (line_shown line.entry))
        (span W.Sink writer.old writer.new) (span M.Sink messages.old messages.new) result }
    ensures order { KeepsOrder W.Sink writer.old writer.new messages.old messages.new }
{
    match feed_line(engine, writer, messages, line) {
        Ok(true) => Ok(false),
        Ok(false) => carry_out_answer(engine, writer, messages, line),
        Err(_) => Err(Halt::Unwritten),
    }
}

/// Passes line `number`, which is above the length limit, to the engine, and writes the pending lines or
/// reports the warning. Returns whether there was a warning, or why the run ends: a fault, which isn't
/// reported yet, `Unwritten` if the writer failed, or `Unreported` if a warning couldn't be written.
#[cold]
pub fn take_overlong<E: Engine, W: Sink, M: Sink>(
    engine: &mut E,
    writer: &mut W,
    messages: &mut M,
    number: u64,
) -> Result<bool, Halt>
    requires may_take { IsNextLine (E.ready engine.old) (E.taken engine.old) number }
    ensures taken { TakesNext E.Engine engine.old engine.new (λ lines next. E.shows engine.old lines []
        × ((l : InputLine) × (next ≡ Some l) × (is_long l ≡ true)))
        (span W.Sink writer.old writer.new) (span M.Sink messages.old messages.new) result }
    ensures order { KeepsOrder W.Sink writer.old writer.new messages.old messages.new }
{
    let step = engine.overlong(number)?;
    write_step(engine, writer, messages, step)
}

/// Passes the end of the input to the engine, and writes the output or reports the warning; doesn't flush. No
/// line of output may be pending before. Returns whether there was a warning, or why the run ends: a fault,
/// which isn't reported yet, `Unwritten` if the writer failed, or `Unreported` if a warning couldn't be
/// written.
pub fn take_end<E: Engine, W: Sink, M: Sink>(
    engine: &mut E,
    writer: &mut W,
    messages: &mut M,
) -> Result<bool, Halt>
    requires drained { E.ready engine.old ≡ [] }
    requires within { E.taken engine.old ≤ INPUT_LIMIT }
    ensures taken { TakesNext E.Engine engine.old engine.new (λ lines next. E.shows engine.old lines []
        × (next ≡ None)) (span W.Sink writer.old writer.new) (span M.Sink messages.old messages.new) result }
    ensures warns { EndWarns E.Engine engine.old result }
    ensures order { KeepsOrder W.Sink writer.old writer.new messages.old messages.new }
{
    let step = engine.end()?;
    write_step(engine, writer, messages, step)
}
