//! Whole runs over devices that fail, at each point in turn: the output, the messages, and the end of the run.

ghost use Rattle.std.specs.Prelude.{◌≡◌, ◌<◌};

use crate::expecting::{expect, expect_at};
use crate::texts::text;
use crx_base::{At, Fault};
use crx_devices::{FailingSink, FailingSource, Plan, When};
use crx_filter::{Options, check, compact, expand};
use crx_lines::{Sink, Source};
use crx_runs::Outcome;
use std::alloc::{AllocError, Global};
use std::process::Abort;
use std::test::Fail;

mod cases;
mod damage;
mod messages;
mod reads;
mod rows;
mod writes;

/// The filter that runs, or the check.
#[derive(Clone, Copy)]
enum Tool {
    Compact,
    Expand,
    Check,
}

/// A run over devices that don't fail, and its output after each line. The texts are those of [`text`].
struct Case {
    name: &'static str,
    tool: Tool,
    skip: bool,
    input: &'static str,
    output: &'static str,
    messages: &'static str,
    /// How many lines are written after none, one, two .. lines of the input were read, without those written
    /// only at the end.
    after: &'static [usize],
    /// The line that causes a warning.
    warned_at: Option<u64>,
    outcome: Outcome,
}

/// Returns the length of the first `count` lines of a text.
fn length_of_lines(text: &[u8], count: usize) -> usize {
    let mut left = count;
    for (place, byte) in text.iter().enumerate() {
        if left == 0 {
            return place;
        }
        if *byte == b'\n' {
            left -= 1;
        }
    }
    text.len()
}

/// The texts of a case: its input, and its output and messages if nothing fails.
#[derive(Drop)]
struct Texts {
    input: Vec<u8>,
    output: Vec<u8>,
    messages: Vec<u8>,
}

impl Texts {
    fn of(alloc: Global, case: &Case) -> Result<Texts, AllocError> {
        Ok(Texts {
            input: text(alloc, case.input)?,
            output: text(alloc, case.output)?,
            messages: text(alloc, case.messages)?,
        })
    }

    /// Returns whether an output is the text for the first `lines` lines of the input.
    fn is_output_after(&self, case: &Case, lines: usize, output: &[u8]) -> bool {
        let count = case.after.get(lines).copied().unwrap_or(0);
        output.len() == length_of_lines(self.output.as_slice(), count)
            && self.output.as_slice().starts_with(output)
    }
}

/// Room for everything that a case writes.
const ROOM: usize = 4096;

/// The devices of a run: how many bytes they read and take per call, how many of these the writer takes, and
/// when they fail.
#[derive(Clone, Copy)]
struct Devices {
    at_most: usize,
    written_at_most: usize,
    reads: Plan,
    writes: Plan,
    flushes: Plan,
    reports: Plan,
}

/// Returns devices that read and take at most `at_most` bytes per call, and never fail.
fn good(at_most: usize) -> Devices
    ensures { result.at_most ≡ at_most }
{
    Devices {
        at_most,
        written_at_most: at_most,
        reads: Plan::never(),
        writes: Plan::never(),
        flushes: Plan::never(),
        reports: Plan::never(),
    }
}

/// The results of a run.
#[derive(Drop)]
struct Left {
    outcome: Outcome,
    writer: FailingSink,
    messages: FailingSink,
}

/// Runs a filter over any devices. `skip`: whether faults are skipped.
fn run_over<R: Source, W: Sink, M: Sink>(
    alloc: Global,
    tool: Tool,
    skip: bool,
    source: &mut R,
    writer: &mut W,
    messages: &mut M,
) -> Result<Outcome, Fail> {
    let options = Options::new(None, skip, b"D")?;
    Ok(match tool {
        Tool::Compact => compact(alloc, source, writer, messages, options),
        Tool::Expand => expand(alloc, source, writer, messages, options),
        Tool::Check => check(alloc, source, writer, messages),
    })
}

/// Runs a filter over an input and these devices.
fn run(alloc: Global, tool: Tool, skip: bool, input: &[u8], devices: Devices) -> Result<Left, Fail>
    requires { 0 < devices.at_most }
{
    let at_most = devices.at_most;
    let mut source = FailingSource::new(input, at_most, devices.reads);
    let mut writer = FailingSink::new(
        alloc,
        ROOM,
        devices.written_at_most,
        devices.writes,
        devices.flushes,
    )?;
    let mut messages = FailingSink::new(alloc, ROOM, at_most, devices.reports, Plan::never())?;
    let outcome = run_over(alloc, tool, skip, &mut source, &mut writer, &mut messages)?;
    Ok(Left {
        outcome,
        writer,
        messages,
    })
}

fn run_case(alloc: Global, case: &Case, texts: &Texts, devices: Devices) -> Result<Left, Fail>
    requires { 0 < devices.at_most }
{
    run(alloc, case.tool, case.skip, texts.input.as_slice(), devices)
}

/// Returns how many lines end within the first `bytes` bytes of a text.
fn lines_within(text: &[u8], bytes: usize) -> usize {
    let mut lines: usize = 0;
    for byte in text.iter().take(bytes) {
        if *byte == b'\n' {
            lines = lines.saturating_add(1);
        }
    }
    lines
}

fn outcome_at(at: At) -> Outcome {
    Outcome {
        status: 1,
        fault: Some(at),
    }
}

/// Returns the messages of a run that a device ended after `lines` lines: the warning, if it was among them,
/// and the error.
fn messages_until(alloc: Global, case: &Case, lines: u64, at: At) -> Result<Vec<u8>, Fail> {
    let mut messages = match case.warned_at {
        Some(warned) if warned <= lines => text(alloc, case.messages)?,
        _ => Vec::new(alloc),
    };
    let line = at.line;
    let code = at.fault.code();
    let words = at.fault.words();
    let error = format!(in alloc; "ERROR line {line} code {code}: {words}\n")?;
    messages.extend_from_slice(error.as_bytes())?;
    Ok(messages)
}
