//! Each write of a message fails in turn.

use super::cases::cases;
use super::*;

/// Returns whether a run whose messages failed after `taken` bytes reported just these, kept the fault of an
/// error, and ended at a warning's line with a failed write.
fn is_so(case: &Case, texts: &Texts, left: &Left, taken: usize) -> bool {
    let reported = left.messages.contents();
    if reported.len() != taken || !texts.messages.as_slice().starts_with(reported) {
        return false;
    }
    let output = left.writer.contents();
    match case.warned_at {
        None => {
            left.outcome == case.outcome
                && left.writer.flushes() == 1
                && output == texts.output.as_slice()
        }
        Some(line) => {
            let at = At {
                line,
                fault: Fault::WriteFailed,
            };
            left.outcome == outcome_at(at)
                && left.writer.flushes() == 0
                && texts.is_output_after(case, line as usize, output)
        }
    }
}

/// Returns whether this holds of a writer of messages that fails after `taken` bytes.
fn fails_after(alloc: Global, case: &Case, texts: &Texts, taken: usize) -> Result<bool, Fail> {
    let devices = Devices {
        reports: Plan::from_then_on(When::AfterBytes(taken)),
        ..good(ROOM)
    };
    let left = run_case(alloc, case, texts, devices)?;
    Ok(is_so(case, texts, &left, taken))
}

#[test]
fn each_message_fails(rt: HostRuntime) -> Result<(), Fail> {
    for case in cases() {
        let texts = Texts::of(rt.alloc(), case)?;
        for taken in 0..texts.messages.len() {
            let is_so = fails_after(rt.alloc(), case, &texts, taken)?;
            expect_at(&rt, is_so, case.name, taken);
        }
    }
    Ok(())
}
