//! The program's arguments and its standard streams.

ghost use Rattle.std.specs.Prelude.{◌≡◌, ◌⊎◌, [], None, drop, map, string_bytes};
ghost use Rattle.std.specs.Vec.Iter.{into_iter_items};
ghost use Rattle.crx_command.specs.meaning.Planning.{Help, Refusal, Refused, Run, plan_of};
ghost use Rattle.crx_program.specs.meaning.Jobs.{IsJobDone};
ghost use Rattle.crx_program.specs.meaning.Kept.{DoesItsJob};
ghost use Rattle.crx_program.specs.meaning.Program.{IsHelped, IsRefused};
ghost use Rattle.crx_program.specs.meaning.Streams.{FromUnused, HasNoFiles, IsUnused};
ghost use Rattle.crx_runs.specs.meaning.Spans.{reader_span, span};

use crate::{Job, UsageFault, Word};
use crx_command::date::moment_now;
use crx_command::plan::words_given;
use crx_lines::{Sink, Source, Std, Uninterrupted, reads_may_wait};
use crx_program::log::opener::Opener;
use crx_program::log::{OUTPUT_BUFFER, SourceFile, TargetFile};
use crx_program::refusal::{refuse, report_no_memory};
use crx_program::streams::{
    InputDevice, MessageDevice, OutputDevice, Whole, run_over, without_memory,
};
use crx_runs::UntilFailure;
use jiff::Timestamp;
use std::alloc::Global;
use std::env::Args;
use std::fs::File;
use std::io::{BufWriter, Stderr, Stdin, Stdout};
use std::os::fd::AsRawFd;
use std::process::ExitCode;
use std::{env, fs, io};

/// A name that every machine can open, but neither read nor write: the root folder.
const NO_STREAM: &str = "/";

/// The name of standard input as a file.
const STANDARD_INPUT: &str = "/dev/stdin";

/// Runs the program (see [`run_over`]) with all `arguments` except the first, its own name, and returns its
/// status, streams and files. `moment`: the time for a compaction's date, if known; `waits`: reads of `stdin`
/// may have to wait. If memory for the arguments is refused, only that is reported, and the status is 1.
pub fn run_streams(
    files: &mut Opener<'_, HostRuntime>,
    alloc: Global,
    moment: Option<Timestamp>,
    arguments: Args,
    waits: bool,
    stdin: Uninterrupted<Stdin>,
    stdout: BufWriter<UntilFailure<Uninterrupted<Stdout>>>,
    stderr: Uninterrupted<Stderr>,
) -> Whole<Stdin, Stdout, Stderr, File>
    ensures refused { (refusal : Refusal)
        → plan_of (map string_bytes (drop 1 (into_iter_items arguments))) ≡ Refused refusal
        → FromUnused stderr (λ messages.
        IsRefused (span ⟦<MessageDevice<Stderr> as Sink>⟧ messages result.messages) refusal result.status)
        × (result.input.log.bytes ≡ []) × (result.output.log.bytes ≡ []) × HasNoFiles result
        × (files.new.log.calls ≡ files.old.log.calls) }
    ensures help { plan_of (map string_bytes (drop 1 (into_iter_items arguments))) ≡ Help
        → FromUnused stdout (λ output. FromUnused stderr (λ messages.
        IsHelped (span ⟦<OutputDevice<Stdout> as Sink>⟧ output result.output)
        (span ⟦<MessageDevice<Stderr> as Sink>⟧ messages result.messages) result.status))
        × (result.input.log.bytes ≡ []) × HasNoFiles result × (files.new.log.calls ≡ files.old.log.calls) }
    ensures done { (job : Job)
        → plan_of (map string_bytes (drop 1 (into_iter_items arguments))) ≡ Run job
        → FromUnused stdin (λ input. FromUnused stdout (λ output. FromUnused stderr (λ messages.
        IsJobDone ⟦<SourceFile<File> as Source>⟧ ⟦<TargetFile<File> as Sink>⟧
        moment job result.source result.target (reader_span ⟦<InputDevice<Stdin> as Source>⟧ input result.input)
        (span ⟦<OutputDevice<Stdout> as Sink>⟧ output result.output)
        (span ⟦<MessageDevice<Stderr> as Sink>⟧ messages result.messages) result.status
        ((result.input ≡ input) × (result.output ≡ output) × (result.target ≡ None))
        files.old.log.calls files.new.log.calls))) }
    ensures does { (job : Job) → plan_of (map string_bytes (drop 1 (into_iter_items arguments))) ≡ Run job
        → DoesItsJob moment job files.old.log.calls files.new.log.calls result }
    ensures waits { (result.input.inner.may_wait ≡ waits) ⊎ IsUnused stdin result.input }
{
    match words_given(alloc, arguments) {
        Ok(words) => run_over(files, alloc, moment, words, waits, stdin, stdout, stderr),
        Err(_) => without_memory(stdin, stdout, stderr),
    }
}

/// Runs the program over the standard streams, with a buffer for the output, and returns the exit status.
///
/// If the system refuses memory for the arguments or the buffer, that is fault 22 at line 0, with status 1.
/// Arguments that aren't UTF-8 are refused with their own message and status 1. A standard stream that was
/// closed before the program began stays closed, so that no file takes its place.
pub fn run_host(rt: &HostRuntime) -> ExitCode {
    // The system gives the lowest free number, and 0 to 2 are the standard streams.
    let place = fs::open(rt, NO_STREAM);
    let _others = match &place {
        Ok(file) if file.as_raw_fd() > 2 => None,
        _ => Some([fs::open(rt, NO_STREAM), fs::open(rt, NO_STREAM)]),
    };
    let arguments = match env::args(rt) {
        Ok(arguments) => arguments,
        Err(error) => {
            let mut messages = Std::new(Uninterrupted::new(rt.stderr()));
            let text = "error: invalid UTF-8 was detected in one or more arguments\n";
            // Memory for the arguments was refused, or they aren't UTF-8.
            let fault = match error.kind() {
                io::ErrorKind::OutOfMemory => UsageFault::Memory,
                _ => Word::new(rt.alloc(), text).map_or_else(UsageFault::from, UsageFault::Parse),
            };
            return ExitCode::from(refuse(rt.alloc(), &mut messages, &fault));
        }
    };
    let stdout = UntilFailure::new(Uninterrupted::new(rt.stdout()));
    let Ok(buffer) = BufWriter::with_capacity(rt.alloc(), OUTPUT_BUFFER, stdout) else {
        let mut messages = Std::new(Uninterrupted::new(rt.stderr()));
        return ExitCode::from(report_no_memory(&mut messages));
    };
    let moment = moment_now(rt);
    let stdin = Uninterrupted::new(rt.stdin());
    let stderr = Uninterrupted::new(rt.stderr());
    let waits = reads_may_wait(&fs::metadata(rt, STANDARD_INPUT));
    let mut files = Opener::new(rt);
    let whole = run_streams(
        &mut files,
        rt.alloc(),
        moment,
        arguments,
        waits,
        stdin,
        buffer,
        stderr,
    );
    ExitCode::from(whole.close().status)
}
