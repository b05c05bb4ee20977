//! A run, step by step.

ghost use Rattle.std.specs.Prelude.{◌≡◌, ◌⊎◌, ◌≤◌, ℕ, List, [], IfOk, None, Some, Result, Bool, true, false};
ghost use Rattle.crx_base.specs.declared.limits.TheConstants.{INPUT_LIMIT};
ghost use Rattle.crx_base.specs.meaning.Lines.{InputLine, is_long, lines_of};
ghost use Rattle.crx_lines.specs.Readers.{reading};
ghost use Rattle.crx_lines.specs.Reading.{line_number, line_shown};
ghost use Rattle.crx_runs.specs.Endings.{FlushFailed};
ghost use Rattle.crx_runs.specs.Engines.{IsNextLine};
ghost use Rattle.crx_runs.specs.Lawful.{IsLawful};
ghost use Rattle.crx_runs.specs.Running.{CanStep, IsEndKept, RunGoesOn, RunHasStepped, step_answer, stepped};
ghost use Rattle.crx_runs.specs.Runs.{result_by};
ghost use Rattle.crx_runs.specs.Taking.{EndWarns, HoldsAnswer, TakesNext, KeepsOrder, WasAnswered};
ghost use Rattle.crx_runs.specs.declared.one_line.Halt.{Halt};
ghost use Rattle.crx_runs.specs.meaning.Runs.{RunsAs};
ghost use Rattle.crx_runs.specs.meaning.Spans.{TookAll, reader_span, span};

use crate::engine::Engine;
use crate::finish::finish;
use crate::one_line::{Halt, carry_out_answer, feed_line, take_end, take_line, take_overlong};
use crate::outcome::Outcome;
use crx_base::Fault;
use crx_lines::phase::Phase;
use crx_lines::{Line, LineReader, Sink, Source};
use std::alloc::{AllocError, Global};

/// The result of a step. The reason why a run ended is kept in the run, which keeps this type small.
#[derive(Clone, Copy, Debug, PartialEq, Eq)]
pub enum StepOutcome {
    /// A line was taken, without a warning.
    Taken,
    /// A line was taken, and its warning was reported.
    Warned,
    /// The end of the input was reached.
    AtEnd,
    /// The run ended; [`Run::ended`] returns why.
    Stopped,
}

/// A run between two lines of its input: its engine, the reader of lines, and why the run ended. [`Run::run`]
/// takes all steps and the end, flushes, and reports the fault; a caller of [`Run::step`] does that itself.
#[derive(Drop)]
pub struct Run<E> {
    engine: E,
    input: LineReader,
    ended: Option<Halt>,
}

/// Returns `Warned` or `Taken` for an `answer` that tells whether there was a warning. Stores an error, why
/// the run ended, in `ended` and returns `Stopped`.
#[cold]
#[inline(never)]
fn stop(ended: &mut Option<Halt>, answer: Result<bool, Halt>) -> StepOutcome
    ensures answer { step_answer result ended.new ≡ stepped answer }
    ensures kept { IsEndKept result ended.old ended.new }
{
    match answer {
        Ok(false) => StepOutcome::Taken,
        Ok(true) => StepOutcome::Warned,
        Err(halt) => {
            *ended = Some(halt);
            StepOutcome::Stopped
        }
    }
}

/// Carries out the engine's answer to `line`, for which [`feed_line`] has to have returned `false`: writes
/// its output, reports its warnings, and feeds it again if reading resumes at it. Returns `Warned` or
/// `Taken`, or stores in `ended` why the run ended (a fault, or a failed write or report) and returns
/// `Stopped`.
#[cold]
#[inline(never)]
fn take_answer<E: Engine, W: Sink, M: Sink>(
    engine: &mut E,
    ended: &mut Option<Halt>,
    writer: &mut W,
    messages: &mut M,
    line: Line<'_>,
) -> StepOutcome
    requires { HoldsAnswer E.Engine engine.old (line_shown line).content (line_number line) }
    ensures taken { (answer : Result Bool Halt) × TakesNext E.Engine engine.old engine.new
        (WasAnswered E.Engine engine.old (line_shown line.entry))
        (span W.Sink writer.old writer.new) (span M.Sink messages.old messages.new) answer
        × (step_answer result ended.new ≡ stepped answer) }
    ensures order { KeepsOrder W.Sink writer.old writer.new messages.old messages.new }
    ensures kept { IsEndKept result ended.old ended.new }
{
    stop(ended, carry_out_answer(engine, writer, messages, line))
}

/// Marks the output as awaited if a read may have to wait, because someone may then be waiting for it. Passes
/// all output on if it is marked, now or earlier, and returns whether that succeeded. If not, the writer is
/// flushed too, so that the failure is counted.
#[cold]
#[inline(never)]
fn pass_on_before_wait<R: Source, W: Sink>(reader: &R, writer: &mut W) -> bool
    ensures still { result ≡ true → TookAll (span W.Sink writer.old writer.new) [] }
    ensures waited { result ≡ true → R.waits reader.now ≡ true → W.is_awaited writer.new ≡ true }
    ensures current { result ≡ true → W.is_awaited writer.new ≡ true → W.is_current writer.new }
    ensures awaited { R.waits reader.now ≡ false → W.is_awaited writer.new ≡ W.is_awaited writer.old }
    ensures failed { result ≡ false → FlushFailed (span W.Sink writer.old writer.new) }
{
    if reader.may_wait() {
        writer.await_output();
    }
    if writer.pass_on() {
        return true;
    }
    match writer.flush() {
        Ok(()) => unreachable!(),
        Err(_) => false,
    }
}

impl<E: Engine + Drop> Run<E> {
    /// Returns a run before its first line, or `AllocError` if memory for its reader of lines is refused.
    pub fn new(alloc: Global, engine: E) -> Result<Run<E>, AllocError>
        ensures engine { IfOk result (λ run. run.engine ≡ engine) }
        ensures first { IfOk result (λ run.
            reading run.input ≡ record { rest = []; passed = 0; number = 0; phase = Phase.Open }) }
        ensures going { IfOk result (λ run. run.ended ≡ None) }
    {
        Ok(Run::over(engine, LineReader::new(alloc)?))
    }

    /// Returns a run of `engine` that continues with the next line of `input`.
    pub fn over(engine: E, input: LineReader) -> Run<E>
        ensures value { result ≡ record { engine = engine; input = input; ended = None } }
    {
        Run {
            engine,
            input,
            ended: None,
        }
    }

    /// Returns the engine.
    pub fn engine(&self) -> &E
        ensures engine { result.now ≡ self.now.engine }
    {
        &self.engine
    }

    /// Returns why a [`Run::step`] or [`Run::run`] ended the run early; `None` if none has.
    pub fn ended(&self) -> Option<Halt>
        ensures value { result ≡ self.now.ended }
    {
        self.ended
    }

    /// Takes the next line: writes its output, reports its warnings, and returns `Warned` if there was one,
    /// otherwise `Taken`; returns `AtEnd`, also again, if no line is left. A fault that isn't skipped,
    /// refused memory, or a failed read, write or report ends the run: it is stored but not reported,
    /// `Stopped` is returned, and no step may follow. Passes all earlier output on before a read that may
    /// have to wait and, if someone may be waiting for it, before a warning.
    #[inline(always)]
    pub fn step<R: Source, W: Sink, M: Sink>(
        &mut self,
        reader: &mut R,
        writer: &mut W,
        messages: &mut M,
    ) -> StepOutcome
        requires can { CanStep E.Engine self.old.engine (reading self.old.input) }
        ensures stepped { RunHasStepped E.Engine W.Sink self.old.engine self.new.engine (reading self.old.input)
            (reading self.new.input) reader.old reader.new writer.old messages.old messages.new
            (step_answer result self.new.ended) }
        ensures goes { RunGoesOn E.Engine R.Source W.Sink M.Sink self.old.engine self.new.engine
            (reading self.old.input) (reading self.new.input) reader.old reader.new writer.old writer.new
            messages.old messages.new (step_answer result self.new.ended) }
        ensures kept { IsEndKept result self.old.ended self.new.ended }
        ensures handed_on { (reader.new ≡ reader.old)
            ⊎ (R.waits reader.old ≡ true → (then : W) × W.took writer.old [] then × W.is_current then) }
        ensures awaited { R.waits reader.old ≡ false → W.is_awaited writer.new ≡ W.is_awaited writer.old }
    {
        match self.input.next_held() {
            Ok(Some(line)) => match feed_line(&mut self.engine, writer, messages, line) {
                Ok(true) => StepOutcome::Taken,
                Ok(false) => {
                    take_answer(&mut self.engine, &mut self.ended, writer, messages, line)
                }
                Err(_) => self.fail_to_write(),
            },
            Ok(None) => {
                if !pass_on_before_wait(reader, writer) {
                    return self.fail_to_write();
                }
                self.read_step(reader, writer, messages)
            }
            Err(at) => self.take_overlong(writer, messages, at.line),
        }
    }

    /// Stores that the writer failed as the reason why the run ended, and returns `Stopped`.
    #[cold]
    #[inline(never)]
    fn fail_to_write(&mut self) -> StepOutcome
        ensures stopped { result ≡ StepOutcome.Stopped }
        ensures ended { self.new ≡ record self.old { ended = Some Halt.Unwritten } }
    {
        self.ended = Some(Halt::Unwritten);
        StepOutcome::Stopped
    }

    /// Passes line `number`, which is above the length limit, to the engine; writes its output or reports its
    /// warning. Returns `Warned` or `Taken`, or stores why the run ended (a fault, or a failed write or
    /// report) and returns `Stopped`.
    #[cold]
    #[inline(never)]
    fn take_overlong<W: Sink, M: Sink>(
        &mut self,
        writer: &mut W,
        messages: &mut M,
        number: u64,
    ) -> StepOutcome
        requires may_take { IsNextLine (E.ready self.old.engine) (E.taken self.old.engine) number }
        ensures taken { (answer : Result Bool Halt) × TakesNext E.Engine self.old.engine self.new.engine
            (λ lines next. E.shows self.old.engine lines []
            × ((l : InputLine) × (next ≡ Some l) × (is_long l ≡ true)))
            (span W.Sink writer.old writer.new) (span M.Sink messages.old messages.new) answer
            × (step_answer result self.new.ended ≡ stepped answer) }
        ensures input { self.new.input ≡ self.old.input }
        ensures order { KeepsOrder W.Sink writer.old writer.new messages.old messages.new }
        ensures kept { IsEndKept result self.old.ended self.new.ended }
    {
        let answer = take_overlong(&mut self.engine, writer, messages, number);
        stop(&mut self.ended, answer)
    }

    /// Reads the next line, writes its output and reports its warnings. Returns `Warned` or `Taken`, `AtEnd`
    /// if no line is left, or stores why the run ended (a fault, or a failed read, write or report) and
    /// returns `Stopped`. If a read may have to wait or someone may be waiting for output, all of it has to
    /// be passed on before.
    #[cold]
    #[inline(never)]
    fn read_step<R: Source, W: Sink, M: Sink>(
        &mut self,
        reader: &mut R,
        writer: &mut W,
        messages: &mut M,
    ) -> StepOutcome
        requires handed_on { (R.waits reader.old ≡ true → W.is_awaited writer.old ≡ true)
            × (W.is_awaited writer.old ≡ true → W.is_current writer.old) }
        requires can { CanStep E.Engine self.old.engine (reading self.old.input) }
        ensures stepped { RunHasStepped E.Engine W.Sink self.old.engine self.new.engine (reading self.old.input)
            (reading self.new.input) reader.old reader.new writer.old messages.old messages.new
            (step_answer result self.new.ended) }
        ensures goes { RunGoesOn E.Engine R.Source W.Sink M.Sink self.old.engine self.new.engine
            (reading self.old.input) (reading self.new.input) reader.old reader.new writer.old writer.new
            messages.old messages.new (step_answer result self.new.ended) }
        ensures kept { IsEndKept result self.old.ended self.new.ended }
        ensures awaited { W.is_awaited writer.new ≡ W.is_awaited writer.old }
    {
        match self.input.next_line(reader) {
            Ok(Some(line)) => {
                let answer = take_line(&mut self.engine, writer, messages, line);
                stop(&mut self.ended, answer)
            }
            Ok(None) => StepOutcome::AtEnd,
            Err(at) => match at.fault {
                Fault::LineTooLong => self.take_overlong(writer, messages, at.line),
                _ => stop(&mut self.ended, Err(Halt::Fault(at))),
            },
        }
    }

    /// Passes the end of the input to the engine, after `AtEnd`, and writes its output or reports its
    /// warning; doesn't flush. Returns whether there was a warning, or why the run ends: a fault, which isn't
    /// reported, or a failed write or report. That isn't stored for [`Run::ended`].
    pub fn end<W: Sink, M: Sink>(&mut self, writer: &mut W, messages: &mut M) -> Result<bool, Halt>
        requires drained { E.ready self.old.engine ≡ [] }
        requires within { E.taken self.old.engine ≤ INPUT_LIMIT }
        ensures taken { TakesNext E.Engine self.old.engine self.new.engine (λ lines next. E.shows self.old.engine lines []
            × (next ≡ None)) (span W.Sink writer.old writer.new) (span M.Sink messages.old messages.new) result }
        ensures warns { EndWarns E.Engine self.old.engine result }
        ensures order { KeepsOrder W.Sink writer.old writer.new messages.old messages.new }
    {
        take_end(&mut self.engine, writer, messages)
    }

    /// Takes the run from before its first line, without a step yet, to its end: reads the lines of the
    /// input, writes the output, reports warnings, flushes, reports the fault, if any, and returns the
    /// outcome: status 1 with the fault, 2 after warnings only, otherwise 0. The run stays with the caller,
    /// who may ask its engine.
    #[inline(never)]
    pub fn run<R: Source, W: Sink, M: Sink>(
        &mut self,
        reader: &mut R,
        writer: &mut W,
        messages: &mut M,
    ) -> Outcome
        requires drained { E.ready self.old.engine ≡ [] }
        requires shown { E.shows self.old.engine [] [] }
        requires lawful { IsLawful (E.filter self.old.engine) }
        requires first { reading self.old.input ≡ record { rest = []; passed = 0; number = 0; phase = Phase.Open } }
        requires going { self.old.ended ≡ None }
        ensures runs { (given : List ℕ)
            × R.gave reader.old given reader.new × RunsAs (result_by (E.filter self.old.engine)) (E.filter self.old.engine)
            (reader_span R.Source reader.old reader.new) given
            (span W.Sink writer.old writer.new) (span M.Sink messages.old messages.new) result.status result.fault
            × (result.fault ≡ None → E.has_ended self.new.engine (lines_of given)) }
    {
        let mut warned = false;
        'lines: loop {
            match self.step(reader, writer, messages) {
                StepOutcome::Taken => {}
                StepOutcome::Warned => warned = true,
                StepOutcome::Stopped => {
                    return finish(writer, messages, self.input.number(), warned, self.ended);
                }
                StepOutcome::AtEnd => {
                    let last = self.input.number();
                    return match take_end(&mut self.engine, writer, messages) {
                        Ok(warning) => finish(writer, messages, last, warned | warning, None),
                        Err(halt) => {
                            self.ended = Some(halt);
                            finish(writer, messages, last, warned, self.ended)
                        }
                    };
                }
            }
        }
    }
}
