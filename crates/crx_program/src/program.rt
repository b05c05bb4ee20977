//! A whole run of the program, from the arguments to an exit status.

ghost use Rattle.std.specs.Prelude.{◌≡◌, ◌⊎◌, ◌++◌, [], IfOk, None, is_some, map, string_bytes, true};
ghost use Rattle.std.specs.Option.{option_map_or};
ghost use Rattle.crx_base.specs.meaning.Choices.{is_date};
ghost use Rattle.crx_command.specs.meaning.Planning.{Help, Refusal, Refused, Run, plan_of};
ghost use Rattle.crx_program.specs.Devices.{LeavesDevices};
ghost use Rattle.crx_program.specs.meaning.Jobs.{IsChosen, IsJobDone, IsJobEnded, IsFiltered, IsFilteredInto, IsNotBegun, MadeUntil, call_to_write};
ghost use Rattle.crx_program.specs.meaning.Program.{IsHelped, IsRefused, IsShown, at_start};
ghost use Rattle.crx_runs.specs.meaning.Spans.{span, reader_span};

use crate::late_writer::LateWriter;
use crate::log::opener::Opener;
use crate::log::{Log, Logged, OUTPUT_BUFFER, SourceFile, TargetFile};
use crate::refusal::{refuse, report, report_at_start, report_no_memory};
use crx_base::Fault;
use crx_command::date::{date_of, moment_now};
use crx_command::job::{Decision, Job, Tool};
use crx_command::plan::plan;
use crx_command::word::Word;
use crx_filter::{Options, check, compact, expand};
use crx_lines::{Sink, Source, Std, write_all_counted};
use jiff::Timestamp;
use std::alloc::{AllocError, Global};
use std::io::{BufWriter, ErrorKind, Write};
use std::rt::{Clock, Files};

/// A finished run: its exit status, and the devices of the files that it opened.
#[derive(Drop)]
pub struct Ended<F: Write + Drop> {
    /// The exit status.
    pub status: u8,
    /// The input file, if the run opened one.
    pub source: Option<SourceFile<F>>,
    /// The output file, if the run made one.
    pub target: Option<TargetFile<F>>,
}

/// Flushes the buffer of `device`, drops it and returns the log of its bytes. Ignores an error of the flush.
/// Bytes are left only if the status is 1 already: after a message that couldn't be written, the output
/// before it is written now; after a failed write nothing is.
pub(crate) fn close_buffer<W: Write + Drop>(device: Logged<Std<BufWriter<W>>>) -> Log
    ensures { result.bytes ≡ device.log.bytes }
{
    let mut settled = device;
    match settled.flush() {
        Ok(()) | Err(_) => {}
    }
    settled.into_log()
}

impl<F: Write + Drop> Ended<F> {
    /// Flushes the output file's buffer (see [`close_buffer`]), closes the files and returns the exit status.
    fn close(self) -> u8
        ensures status { result ≡ self.status }
    {
        let Ended {
            status,
            source: _,
            target,
        } = self;
        if let Some(file) = target {
            drop(close_buffer(file));
        }
        status
    }

    /// Returns a run with this exit status that opened no file.
    fn without_files(status: u8) -> Ended<F>
        ensures status { result.status ≡ status }
        ensures source { result.source ≡ None }
        ensures target { result.target ≡ None }
    {
        Ended {
            status,
            source: None,
            target: None,
        }
    }
}

/// Returns the options of a job. The date is the job's; without one, a compaction has the date of `moment`,
/// or an empty date if there is no moment. Returns `AllocError` if memory for that date is refused.
fn options_of(alloc: Global, moment: Option<Timestamp>, job: &Job) -> Result<Options, AllocError>
    requires { option_map_or is_date job.now.date true ≡ true }
    ensures { IfOk result (λ options.
        IsChosen moment job.now.tool job.now.date job.now.every job.now.skip options) }
{
    let options = match (&job.date, job.tool) {
        (Some(date), _) => Options::new(job.every, job.skip, date.text().as_bytes()),
        (None, Tool::Compact) => {
            let date = date_of(alloc, moment)?;
            Options::new(job.every, job.skip, date.as_bytes())
        }
        (None, _) => Options::new(job.every, job.skip, b""),
    };
    // Both dates fit their columns.
    Ok(options.unwrap())
}

/// Runs the filter or check `tool` over three devices and returns the exit status: 0, 1 after a fault, or 2
/// after warnings or, for a check, if the file isn't standard. A check uses no options.
fn filter<R: Source, W: Sink, M: Sink>(
    alloc: Global,
    tool: Tool,
    options: Options,
    reader: &mut R,
    writer: &mut W,
    messages: &mut M,
) -> u8
    ensures { IsFiltered tool options (reader_span R.Source reader.old reader.new)
        (span W.Sink writer.old writer.new) (span M.Sink messages.old messages.new) result }
{
    match tool {
        Tool::Compact => compact(alloc, reader, writer, messages, options).status,
        Tool::Expand => expand(alloc, reader, writer, messages, options).status,
        Tool::Check => check(alloc, reader, writer, messages).status,
    }
}

/// Runs the job's filter into its output file, which is returned still open, or into `output` if it names
/// none. If memory for the file's buffer is refused, the file can't be made, or it exists and the job doesn't
/// allow overwriting, nothing is read; only this is reported, and the status is 1.
fn run_to_target<H: Files, R: Source, W: Sink, M: Sink>(
    files: &mut Opener<'_, H>,
    alloc: Global,
    job: &Job,
    options: Options,
    reader: &mut R,
    output: &mut W,
    messages: &mut M,
) -> Ended<H::File>
    ensures output { is_some job.now.target ≡ true → output.new ≡ output.old }
    ensures source { result.source ≡ None }
    ensures done { ((files.new.log.calls ≡ files.old.log.calls ++ call_to_write job.now.target job.now.force)
        × IsFilteredInto ⟦<TargetFile<H::File> as Sink>⟧ job.now.target job.now.force result.target
        job.now.tool options (reader_span R.Source reader.old reader.new)
        (span W.Sink output.old output.new) (span M.Sink messages.old messages.new) result.status)
        ⊎ IsNotBegun job.now (span M.Sink messages.old messages.new) result.status ((reader.new ≡ reader.old)
        × (output.new ≡ output.old) × (result.target ≡ None))
        (λ why. MadeUntil why [] (call_to_write job.now.target job.now.force) files.old.log.calls files.new.log.calls) }
{
    let Some(name) = &job.target else {
        return Ended::without_files(filter(alloc, job.tool, options, reader, output, messages));
    };
    let late = LateWriter { writer: None };
    let Ok(buffer) = BufWriter::with_capacity(alloc, OUTPUT_BUFFER, late) else {
        return Ended::without_files(report_no_memory(messages));
    };
    match files.open_to_write(job.force, name.text(), buffer) {
        Ok(device) => {
            let mut writer = device;
            let status = filter(alloc, job.tool, options, reader, &mut writer, messages);
            Ended {
                status,
                source: None,
                target: Some(writer),
            }
        }
        Err(error) if !job.force && error.kind() == ErrorKind::AlreadyExists => {
            Ended::without_files(report(alloc, messages, "file exists: ", name.text()))
        }
        Err(_) => Ended::without_files(report(alloc, messages, "cannot create ", name.text())),
    }
}

/// Runs a job and returns its status with the files that it opened, still open. Makes the date if needed
/// (empty without `moment`), opens the input file (without a name it reads `input`), makes the output file
/// (without a name it writes to `output`), and then runs the filter. If a step before the filter fails,
/// reports it and does no more; the status is 1.
fn run_job<H: Files, R: Source, W: Sink, M: Sink>(
    files: &mut Opener<'_, H>,
    alloc: Global,
    moment: Option<Timestamp>,
    job: &Job,
    input: &mut R,
    output: &mut W,
    messages: &mut M,
) -> Ended<H::File>
    requires { option_map_or is_date job.now.date true ≡ true }
    ensures devices { LeavesDevices job.now (input.new ≡ input.old) (output.new ≡ output.old) }
    ensures done { IsJobDone ⟦<SourceFile<H::File> as Source>⟧ ⟦<TargetFile<H::File> as Sink>⟧
        moment job.now result.source result.target (reader_span R.Source input.old input.new)
        (span W.Sink output.old output.new) (span M.Sink messages.old messages.new) result.status
        ((input.new ≡ input.old) × (output.new ≡ output.old) × (result.target ≡ None))
        files.old.log.calls files.new.log.calls }
{
    let Ok(options) = options_of(alloc, moment, job) else {
        return Ended::without_files(report_no_memory(messages));
    };
    match &job.source {
        None => run_to_target(files, alloc, job, options, input, output, messages),
        Some(name) => match files.open_to_read(name.text()) {
            Ok(opened) => {
                let mut reader = opened;
                let ended = run_to_target(
                    files,
                    alloc,
                    job,
                    options,
                    &mut reader,
                    output,
                    messages,
                );
                Ended {
                    status: ended.status,
                    source: Some(reader),
                    target: ended.target,
                }
            }
            Err(_) => Ended::without_files(report(alloc, messages, "cannot read ", name.text())),
        },
    }
}

/// Writes the help, flushes it and returns status 0. If `output` fails, reports fault 21 at line 0: status 1.
fn show_help<W: Sink, M: Sink>(text: &Word, output: &mut W, messages: &mut M) -> u8
    ensures { IsHelped (span W.Sink output.old output.new) (span M.Sink messages.old messages.new) result }
{
    match write_all_counted(output, text.text().as_bytes()) {
        Ok(()) => match output.flush() {
            Ok(()) => 0,
            Err(_) => report_at_start(messages, Fault::WriteFailed),
        },
        Err(_) => report_at_start(messages, Fault::WriteFailed),
    }
}

/// Runs the program and returns the exit status. `words`: the arguments, without the program's name; `input`
/// and `output`: standard input and standard output; `rt`: the files, and the clock for the default date.
///
/// The status is the filter's: 0 without messages, 1 after an error, 2 if there were only warnings or, for
/// `check`, if the file isn't standard. Help is written to `output`, with status 0. In all other cases one
/// line is reported, with status 1: refused arguments (see [`plan`]), `ERROR: cannot read NAME`,
/// `ERROR: file exists: NAME` if the output file exists and `-f` isn't given, and
/// `ERROR: cannot create NAME`. If the system refuses memory before the filter runs, that is fault 22 at line
/// 0; if the help can't be written, that is fault 21 at line 0.
///
/// The default date is made first, if it is needed; then the input file is opened; then memory for the
/// output's buffer is reserved and the output file is made. If `input` may have to wait, as everything but a
/// regular file may, all output is passed on before each read and before each warning.
pub fn run<H: Files + Clock, R: Source, W: Sink, M: Sink>(
    rt: &H,
    alloc: Global,
    words: Vec<String>,
    input: &mut R,
    output: &mut W,
    messages: &mut M,
) -> u8
    ensures refused { (refusal : Refusal) → plan_of (map string_bytes words.items) ≡ Refused refusal
        → IsRefused (span M.Sink messages.old messages.new) refusal result
        × (input.new ≡ input.old) × (output.new ≡ output.old) }
    ensures help { plan_of (map string_bytes words.items) ≡ Help
        → IsHelped (span W.Sink output.old output.new) (span M.Sink messages.old messages.new) result
        × (input.new ≡ input.old) }
    ensures input { (job : Job) → plan_of (map string_bytes words.items) ≡ Run job
        → is_some job.source ≡ true → input.new ≡ input.old }
    ensures output { (job : Job) → plan_of (map string_bytes words.items) ≡ Run job
        → is_some job.target ≡ true → output.new ≡ output.old }
    ensures done { (job : Job) → plan_of (map string_bytes words.items) ≡ Run job
        → IsJobEnded ⟦<SourceFile<H::File> as Source>⟧ ⟦<TargetFile<H::File> as Sink>⟧ job
        (reader_span R.Source input.old input.new) (span W.Sink output.old output.new)
        (span M.Sink messages.old messages.new) result
        (λ target. (input.new ≡ input.old) × (output.new ≡ output.old) × (target ≡ None)) }
{
    let moment = moment_now(rt);
    let mut files = Opener::new(rt);
    run_with_files(&mut files, alloc, moment, words, input, output, messages).close()
}

/// Does the same as [`run`], opens files only by `files`, and returns these files' devices, still open, with
/// the status. `moment`: the time for the default date, which is empty if there is none.
pub fn run_with_files<H: Files, R: Source, W: Sink, M: Sink>(
    files: &mut Opener<'_, H>,
    alloc: Global,
    moment: Option<Timestamp>,
    words: Vec<String>,
    input: &mut R,
    output: &mut W,
    messages: &mut M,
) -> Ended<H::File>
    ensures refused { (refusal : Refusal) → plan_of (map string_bytes words.items) ≡ Refused refusal
        → IsRefused (span M.Sink messages.old messages.new) refusal result.status
        × (input.new ≡ input.old) × (output.new ≡ output.old) × (result.source ≡ None) × (result.target ≡ None)
        × (files.new.log.calls ≡ files.old.log.calls) }
    ensures help { plan_of (map string_bytes words.items) ≡ Help
        → IsHelped (span W.Sink output.old output.new) (span M.Sink messages.old messages.new) result.status
        × (input.new ≡ input.old) × (result.source ≡ None) × (result.target ≡ None)
        × (files.new.log.calls ≡ files.old.log.calls) }
    ensures devices { (job : Job) → plan_of (map string_bytes words.items) ≡ Run job
        → LeavesDevices job (input.new ≡ input.old) (output.new ≡ output.old) }
    ensures done { (job : Job) → plan_of (map string_bytes words.items) ≡ Run job
        → IsJobDone ⟦<SourceFile<H::File> as Source>⟧ ⟦<TargetFile<H::File> as Sink>⟧
        moment job result.source result.target (reader_span R.Source input.old input.new) (span W.Sink output.old output.new)
        (span M.Sink messages.old messages.new) result.status
        ((input.new ≡ input.old) × (output.new ≡ output.old) × (result.target ≡ None))
        files.old.log.calls files.new.log.calls }
{
    match plan(alloc, words) {
        Ok(Decision::Help(text)) => Ended::without_files(show_help(&text, output, messages)),
        Ok(Decision::Run(job)) => run_job(files, alloc, moment, &job, input, output, messages),
        Err(fault) => Ended::without_files(refuse(alloc, messages, &fault)),
    }
}
