//! The engines line by line: their answers to each line of a text, and how many lines are ready then.

ghost use Rattle.std.specs.Prelude.{◌≡◌, ◌<◌};
ghost use Rattle.crx_runs.specs.Engines.{taken_after};

use crate::expecting::expect_at;
use crate::texts::text;
use crx_base::{At, Fault};
use crx_filter::Options;
use crx_lines::{Line, LineReader, Std};
use crx_runs::Step;
use std::alloc::Global;
use std::process::Abort;
use std::test::Fail;

mod compactor;
mod expander;

/// The answer to a line, and how many lines are ready then; and the second answer, if the line has to be fed
/// again.
struct Answer {
    step: Step,
    ready: usize,
    again: Option<Step>,
}

/// A run of an engine: its name, whether it skips, the lines of its input, and the answers to them.
struct Run {
    name: &'static str,
    skip: bool,
    lines: &'static str,
    answers: &'static [Answer],
}

/// Nothing to write.
const QUIET: Answer = Answer {
    step: Step::Quiet,
    ready: 0,
    again: None,
};

const ONE: Answer = Answer {
    step: Step::Ready,
    ready: 1,
    again: None,
};

const TWO: Answer = Answer {
    step: Step::Ready,
    ready: 2,
    again: None,
};

const THREE: Answer = Answer {
    step: Step::Ready,
    ready: 3,
    again: None,
};

/// A line that causes two warnings.
const TWICE: Answer = Answer {
    step: Step::Warned {
        notice: At {
            line: 5,
            fault: Fault::Truncated,
        },
        again: true,
    },
    ready: 0,
    again: Some(Step::Warned {
        notice: At {
            line: 5,
            fault: Fault::BadEpoch,
        },
        again: false,
    }),
};

/// Returns the number of the last line that counts, after a line that was fed once.
fn number_after(step: Step, taken: u64) -> u64
    requires { taken < 1000 }
    ensures { result ≡ taken_after step taken }
{
    match step {
        Step::Warned { again: true, .. } => taken,
        _ => taken + 1,
    }
}
