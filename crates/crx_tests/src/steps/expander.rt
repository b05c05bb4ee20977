//! The engine that expands.

ghost use Rattle.std.specs.Prelude.{◌≡◌, ◌+◌, []};
ghost use Rattle.crx_filter.specs.ExpanderState.{expander_ready, expander_state};

use super::*;
use crate::owned::Owned;
use crx_filter::Expander;

/// Takes the lines that are ready, at most four, and returns how many there were.
fn take_ready(engine: &mut Expander) -> usize
    ensures { expander_state engine.new ≡ expander_state engine.old }
{
    if engine.next_line().is_none() {
        return 0;
    }
    if engine.next_line().is_none() {
        return 1;
    }
    if engine.next_line().is_none() {
        return 2;
    }
    if engine.next_line().is_none() {
        return 3;
    }
    4
}

/// Feeds a line, whose number follows the last one that counts, and takes the lines that are ready. Returns the
/// number of the last line that counts then.
fn feed_one(
    rt: &impl Abort,
    engine: &mut Expander,
    line: Line<'_>,
    taken: u64,
    name: &str,
    step: Step,
    ready: usize,
) -> u64
    requires drained { expander_ready engine.old ≡ [] }
    requires counted { (expander_state engine.old).number ≡ taken }
    ensures drained { expander_ready engine.new ≡ [] }
    ensures counted { (expander_state engine.new).number ≡ result }
{
    let place = line.number() as usize;
    expect_at(rt, taken < 1000, name, place);
    expect_at(rt, line.number() == taken + 1, name, place);
    match engine.feed(line) {
        Ok(answer) => {
            expect_at(rt, answer == step, name, place);
            expect_at(rt, take_ready(engine) == ready, name, place);
            expect_at(rt, engine.is_drained(), name, place);
            number_after(answer, taken)
        }
        Err(_) => {
            assert!(rt; false, "{name} {place}");
            taken
        }
    }
}

/// Feeds the lines of an input to an engine that has taken none, and ends the run.
fn feed_all(
    rt: &impl Abort,
    engine: &mut Expander,
    lines: &mut LineReader,
    reader: &mut Std<&[u8]>,
    run: &Run,
)
    requires drained { expander_ready engine.old ≡ [] }
    requires counted { (expander_state engine.old).number ≡ 0 }
{
    let mut taken: u64 = 0;
    for answer in run.answers {
        let Ok(Some(line)) = lines.next_line(reader) else {
            expect_at(rt, false, run.name, taken as usize);
            return;
        };
        taken = feed_one(rt, engine, line, taken, run.name, answer.step, answer.ready);
        if let Some(second) = answer.again {
            taken = feed_one(rt, engine, line, taken, run.name, second, 0);
        }
    }
    let is_last = matches!(lines.next_line(reader), Ok(None));
    let is_quiet = engine.end() == Ok(Step::Quiet);
    expect_at(rt, is_last && is_quiet, run.name, taken as usize);
}

/// Expects that an engine returns the answers of a run for the lines of its text.
fn expect_answers(rt: &impl Abort, alloc: Global, run: &Run) -> Result<(), Fail> {
    let input = text(alloc, run.lines)?;
    let options = Options::new(None, run.skip, b"D")?;
    let mut engine = Owned::of(Expander::new(alloc, options)?);
    let mut lines = LineReader::new(alloc)?;
    let mut reader = Std::new(input.as_slice());
    feed_all(rt, &mut engine.value, &mut lines, &mut reader, run);
    Ok(())
}

const RUNS: &[Run] = &[
    Run {
        name: "five epochs",
        skip: false,
        lines: "K|H|F1|C2|C3|C4|C5",
        answers: &[
            QUIET, QUIET, ONE, ONE, ONE, QUIET, QUIET, TWO, QUIET, QUIET, TWO, QUIET, QUIET, TWO,
            QUIET, QUIET, TWO, QUIET, QUIET, TWO,
        ],
    },
    Run {
        name: "epochs without satellites",
        skip: false,
        lines: "K|H|> 2024 01 01 00 00  0.0000000  0  0|||",
        answers: &[QUIET, QUIET, ONE, ONE, ONE, QUIET, ONE, QUIET, ONE],
    },
];

#[test]
fn answers_to_each_line(rt: HostRuntime) -> Result<(), Fail> {
    for run in RUNS {
        expect_answers(&rt, rt.alloc(), run)?;
    }
    Ok(())
}
