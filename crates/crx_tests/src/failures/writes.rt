//! Each write fails in turn, and the flush; a writer that takes one byte per call, or none.

ghost use Rattle.std.specs.Prelude.{◌<◌};

use super::cases::cases;
use super::*;

/// Returns the line of the input at which a byte of the output is written: the last one if that is at the end.
fn line_of_byte(case: &Case, texts: &Texts, place: usize) -> u64 {
    for (lines, count) in case.after.iter().enumerate() {
        if place < length_of_lines(texts.output.as_slice(), *count) {
            return lines as u64;
        }
    }
    last_line(case)
}

fn last_line(case: &Case) -> u64 {
    (case.after.len() as u64).saturating_sub(1)
}

fn has_failed_at(alloc: Global, case: &Case, left: &Left, line: u64) -> Result<bool, Fail> {
    let at = At {
        line,
        fault: Fault::WriteFailed,
    };
    let wanted = messages_until(alloc, case, line, at)?;
    Ok(left.outcome == outcome_at(at) && left.messages.contents() == wanted.as_slice())
}

/// Returns whether just `taken` bytes were written if the writer fails after them.
fn fails_after(alloc: Global, case: &Case, texts: &Texts, taken: usize) -> Result<bool, Fail> {
    let devices = Devices {
        writes: Plan::from_then_on(When::AfterBytes(taken)),
        ..good(7)
    };
    let left = run_case(alloc, case, texts, devices)?;
    let has_failed = has_failed_at(alloc, case, &left, line_of_byte(case, texts, taken))?;
    let output = left.writer.contents();
    Ok(
        has_failed
            && left.writer.flushes() == 0
            && output.len() == taken
            && texts.output.as_slice().starts_with(output),
    )
}

#[test]
fn each_write_fails(rt: HostRuntime) -> Result<(), Fail> {
    for case in cases() {
        let texts = Texts::of(rt.alloc(), case)?;
        for taken in 0..texts.output.len() {
            let is_so = fails_after(rt.alloc(), case, &texts, taken)?;
            expect_at(&rt, is_so, case.name, taken);
        }
    }
    Ok(())
}

/// Returns whether the run over devices that take and return at most `at_most` bytes per call is the good one,
/// with one flush.
fn goes_well(alloc: Global, case: &Case, texts: &Texts, at_most: usize) -> Result<bool, Fail>
    requires { 0 < at_most }
{
    let left = run_case(alloc, case, texts, good(at_most))?;
    Ok(
        left.outcome == case.outcome
            && left.writer.contents() == texts.output.as_slice()
            && left.messages.contents() == texts.messages.as_slice()
            && left.writer.flushes() == 1,
    )
}

#[test]
fn a_few_bytes_a_call(rt: HostRuntime) -> Result<(), Fail> {
    for case in cases() {
        let texts = Texts::of(rt.alloc(), case)?;
        for at_most in [1, 2, 3, 64, ROOM] {
            let is_so = goes_well(rt.alloc(), case, &texts, at_most)?;
            expect_at(&rt, is_so, case.name, at_most);
        }
    }
    Ok(())
}

/// Returns whether the first write ends the run, and no write follows it, if the writer takes no byte, though
/// none of its calls is made to fail.
fn takes_none(alloc: Global, case: &Case, texts: &Texts) -> Result<bool, Fail> {
    let devices = Devices {
        written_at_most: 0,
        ..good(ROOM)
    };
    let left = run_case(alloc, case, texts, devices)?;
    if !left.writer.contents().is_empty() {
        return Ok(false);
    }
    if texts.output.is_empty() {
        return Ok(left.outcome == case.outcome);
    }
    let has_failed = has_failed_at(alloc, case, &left, line_of_byte(case, texts, 0))?;
    Ok(has_failed && left.writer.writes() == 1 && left.writer.flushes() == 0)
}

#[test]
fn no_byte_is_taken(rt: HostRuntime) -> Result<(), Fail> {
    for case in cases() {
        let texts = Texts::of(rt.alloc(), case)?;
        let is_so = takes_none(rt.alloc(), case, &texts)?;
        expect(&rt, is_so, case.name);
    }
    Ok(())
}

/// Returns whether all output is written if the flush fails, and this is reported at the last line, unless a
/// fault was before.
fn flush_fails(alloc: Global, case: &Case) -> Result<bool, Fail> {
    let texts = Texts::of(alloc, case)?;
    let devices = Devices {
        flushes: Plan::from_then_on(When::AfterCalls(0)),
        ..good(ROOM)
    };
    let left = run_case(alloc, case, &texts, devices)?;
    if left.writer.contents() != texts.output.as_slice() || left.writer.flushes() != 1 {
        return Ok(false);
    }
    if case.outcome.fault.is_some() {
        return Ok(left.outcome == case.outcome);
    }
    has_failed_at(alloc, case, &left, last_line(case))
}

#[test]
fn each_flush_fails(rt: HostRuntime) -> Result<(), Fail> {
    for case in cases() {
        expect(&rt, flush_fails(rt.alloc(), case)?, case.name);
    }
    Ok(())
}
