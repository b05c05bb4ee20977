//! Each read fails in turn.

use super::cases::cases;
use super::*;

/// Returns whether a run ended with the failed read after `lines` lines, or before it as the case does.
fn has_stopped(alloc: Global, case: &Case, left: &Left, lines: u64) -> Result<bool, Fail> {
    if matches!(case.outcome.fault, Some(at) if at.line <= lines) {
        return Ok(left.outcome == case.outcome);
    }
    let at = At {
        line: lines.saturating_add(1),
        fault: Fault::ReadFailed,
    };
    let wanted = messages_until(alloc, case, lines, at)?;
    Ok(left.outcome == outcome_at(at) && left.messages.contents() == wanted.as_slice())
}

/// Returns whether a source that returns one byte per call and fails after `given` bytes leaves the output for
/// the lines whose LF was read.
fn fails_after(alloc: Global, case: &Case, texts: &Texts, given: usize) -> Result<bool, Fail> {
    let devices = Devices {
        reads: Plan::from_then_on(When::AfterBytes(given)),
        ..good(1)
    };
    let left = run_case(alloc, case, texts, devices)?;
    let lines = lines_within(texts.input.as_slice(), given);
    let has_stopped = has_stopped(alloc, case, &left, lines as u64)?;
    Ok(
        has_stopped
            && left.writer.flushes() == 1
            && texts.is_output_after(case, lines, left.writer.contents()),
    )
}

#[test]
fn each_read_fails(rt: HostRuntime) -> Result<(), Fail> {
    for case in cases() {
        let texts = Texts::of(rt.alloc(), case)?;
        for given in 0..texts.input.len() {
            let is_so = fails_after(rt.alloc(), case, &texts, given)?;
            expect_at(&rt, is_so, case.name, given);
        }
    }
    Ok(())
}
