//! A whole run of the program over standard streams, which are returned with their logs.

ghost use Rattle.std.specs.Prelude.{◌≡◌, [], None, map, string_bytes};
ghost use Rattle.crx_command.specs.meaning.Planning.{Help, Refusal, Refused, Run, plan_of};
ghost use Rattle.crx_program.specs.meaning.Jobs.{IsJobDone};
ghost use Rattle.crx_program.specs.meaning.Kept.{DoesItsJob};
ghost use Rattle.crx_program.specs.meaning.Program.{IsHelped, IsRefused, IsShown, at_start};
ghost use Rattle.crx_program.specs.meaning.Streams.{FromUnused, HasLogsOf, HasNoFiles, IsUnused};
ghost use Rattle.crx_runs.specs.meaning.Spans.{reader_span, span};

use crate::log::opener::Opener;
use crate::log::{Log, Logged, SourceFile, TargetFile, TargetStream};
use crate::program::{close_buffer, run_with_files};
use crate::refusal::report_no_memory;
use crx_base::Fault;
use crx_command::job::Job;
use crx_lines::{Sink, Source, Std, Uninterrupted};
use crx_runs::UntilFailure;
use jiff::Timestamp;
use std::alloc::Global;
use std::io::{BufWriter, Read, Write};
use std::rt::Files;

/// Standard input, with a log of the bytes read.
pub type InputDevice<I> = SourceFile<I>;

/// Standard output over a buffer, with a log of the bytes written.
pub type OutputDevice<O> = TargetStream<O>;

/// Standard error, with a log of the bytes written.
pub type MessageDevice<E> = SourceFile<E>;

/// A finished run over standard streams: its exit status, and each device with its log.
#[derive(Drop)]
pub struct Whole<I, O: Write + Drop, E, F: Write + Drop> {
    /// The exit status.
    pub status: u8,
    /// Standard input.
    pub input: InputDevice<I>,
    /// Standard output, over its buffer.
    pub output: OutputDevice<O>,
    /// Standard error.
    pub messages: MessageDevice<E>,
    /// The input file, if the run opened one.
    pub source: Option<SourceFile<F>>,
    /// The output file, if the run made one.
    pub target: Option<TargetFile<F>>,
}

/// Ends a run whose arguments were refused memory: reports only that, with status 1, and returns the streams.
pub fn without_memory<I: Read, O: Write + Drop, E: Write, F: Write + Drop>(
    stdin: Uninterrupted<I>,
    stdout: BufWriter<UntilFailure<Uninterrupted<O>>>,
    stderr: Uninterrupted<E>,
) -> Whole<I, O, E, F>
    ensures status { result.status ≡ 1 }
    ensures shown { FromUnused stderr (λ messages.
        IsShown (span ⟦<MessageDevice<E> as Sink>⟧ messages result.messages) (at_start Fault.OutOfMemory)) }
    ensures input { IsUnused stdin result.input }
    ensures output { IsUnused stdout result.output }
    ensures files { HasNoFiles result }
{
    let mut messages = Logged::new(Std::new(stderr));
    let status = report_no_memory(&mut messages);
    Whole {
        status,
        input: Logged::new(Std::new(stdin)),
        output: Logged::new(Std::new(stdout)),
        messages,
        source: None,
        target: None,
    }
}

/// Runs the program over standard streams (see [`run`](crate::program::run)) and returns its status, streams
/// and files, still open. Opens files only by `files`. `moment`: the time for a compaction's date, if known;
/// `words`: the arguments without the program's name; `may_wait`: reads of `stdin` may have to wait.
pub fn run_over<H: Files, I: Read, O: Write + Drop, E: Write>(
    files: &mut Opener<'_, H>,
    alloc: Global,
    moment: Option<Timestamp>,
    words: Vec<String>,
    may_wait: bool,
    stdin: Uninterrupted<I>,
    stdout: BufWriter<UntilFailure<Uninterrupted<O>>>,
    stderr: Uninterrupted<E>,
) -> Whole<I, O, E, H::File>
    ensures refused { (refusal : Refusal) → plan_of (map string_bytes words.items) ≡ Refused refusal
        → FromUnused stderr (λ messages.
        IsRefused (span ⟦<MessageDevice<E> as Sink>⟧ messages result.messages) refusal result.status)
        × (result.input.log.bytes ≡ []) × (result.output.log.bytes ≡ []) × HasNoFiles result
        × (files.new.log.calls ≡ files.old.log.calls) }
    ensures help { plan_of (map string_bytes words.items) ≡ Help
        → FromUnused stdout (λ output. FromUnused stderr (λ messages.
        IsHelped (span ⟦<OutputDevice<O> as Sink>⟧ output result.output)
        (span ⟦<MessageDevice<E> as Sink>⟧ messages result.messages) result.status))
        × (result.input.log.bytes ≡ []) × HasNoFiles result × (files.new.log.calls ≡ files.old.log.calls) }
    ensures done { (job : Job) → plan_of (map string_bytes words.items) ≡ Run job
        → FromUnused stdin (λ input. FromUnused stdout (λ output.
        FromUnused stderr (λ messages.
        IsJobDone ⟦<SourceFile<H::File> as Source>⟧ ⟦<TargetFile<H::File> as Sink>⟧
        moment job result.source result.target (reader_span ⟦<InputDevice<I> as Source>⟧ input result.input)
        (span ⟦<OutputDevice<O> as Sink>⟧ output result.output)
        (span ⟦<MessageDevice<E> as Sink>⟧ messages result.messages) result.status
        ((result.input ≡ input) × (result.output ≡ output) × (result.target ≡ None))
        files.old.log.calls files.new.log.calls))) }
    ensures does { (job : Job) → plan_of (map string_bytes words.items) ≡ Run job
        → DoesItsJob moment job files.old.log.calls files.new.log.calls result }
    ensures waits { result.input.inner.may_wait ≡ may_wait }
{
    let mut input = Logged::new(Std::new(stdin).with_waits(may_wait));
    let mut output = Logged::new(Std::new(stdout));
    let mut messages = Logged::new(Std::new(stderr));
    let ended = run_with_files(
        files,
        alloc,
        moment,
        words,
        &mut input,
        &mut output,
        &mut messages,
    );
    Whole {
        status: ended.status,
        input,
        output,
        messages,
        source: ended.source,
        target: ended.target,
    }
}

/// A finished run whose files and streams are closed: its exit status, and the log of each device.
#[derive(Drop)]
pub struct Closed {
    /// The exit status.
    pub status: u8,
    /// The bytes read from standard input.
    pub input: Log,
    /// The bytes written to standard output.
    pub output: Log,
    /// The bytes written to standard error.
    pub messages: Log,
    /// The bytes read from the input file, if the run opened one.
    pub source: Option<Log>,
    /// The bytes written to the output file, if the run made one.
    pub target: Option<Log>,
}

impl<I: Drop, O: Write + Drop, E: Drop, F: Write + Drop> Whole<I, O, E, F> {
    /// Flushes the output's buffers (see `close_buffer`), closes the files and streams, and returns the exit
    /// status with the logs. It reads and reports nothing more.
    pub fn close(self) -> Closed
        ensures status { result.status ≡ self.status }
        ensures nothing_more { HasLogsOf self result }
    {
        let Whole {
            status,
            input,
            output,
            messages,
            source,
            target,
        } = self;
        let target = match target {
            Some(file) => Some(close_buffer(file)),
            None => None,
        };
        let source = match source {
            Some(file) => Some(file.into_log()),
            None => None,
        };
        Closed {
            status,
            input: input.into_log(),
            output: close_buffer(output),
            messages: messages.into_log(),
            source,
            target,
        }
    }
}
