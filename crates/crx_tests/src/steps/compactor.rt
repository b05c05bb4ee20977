//! The engine that compacts.

ghost use Rattle.std.specs.Prelude.{◌≡◌, ◌+◌, []};
ghost use Rattle.crx_filter.specs.CompactorState.{compactor_state, compactor_ready};

use super::*;
use crate::owned::Owned;
use crx_filter::Compactor;

/// Takes the lines that are ready, at most four, and returns how many there were.
fn take_ready(engine: &mut Compactor) -> usize
    ensures { compactor_state engine.new ≡ compactor_state engine.old }
{
    if engine.next_line().is_none() {
        return 0;
    }
    if engine.next_line().is_none() {
        return 1;
    }
    if engine.next_line().is_none() {
        return 2;
    }
    if engine.next_line().is_none() {
        return 3;
    }
    4
}

/// Feeds a line, whose number follows the last one that counts, and takes the lines that are ready. Returns the
/// number of the last line that counts then.
fn feed_one(
    rt: &impl Abort,
    engine: &mut Compactor,
    line: Line<'_>,
    taken: u64,
    name: &str,
    step: Step,
    ready: usize,
) -> u64
    requires drained { compactor_ready engine.old ≡ [] }
    requires counted { (compactor_state engine.old).number ≡ taken }
    ensures drained { compactor_ready engine.new ≡ [] }
    ensures counted { (compactor_state engine.new).number ≡ result }
{
    let place = line.number() as usize;
    expect_at(rt, taken < 1000, name, place);
    expect_at(rt, line.number() == taken + 1, name, place);
    match engine.feed(line) {
        Ok(answer) => {
            expect_at(rt, answer == step, name, place);
            expect_at(rt, take_ready(engine) == ready, name, place);
            expect_at(rt, engine.is_drained(), name, place);
            number_after(answer, taken)
        }
        Err(_) => {
            assert!(rt; false, "{name} {place}");
            taken
        }
    }
}

/// Feeds the lines of an input to an engine that has taken none, and ends the run.
fn feed_all(
    rt: &impl Abort,
    engine: &mut Compactor,
    lines: &mut LineReader,
    reader: &mut Std<&[u8]>,
    run: &Run,
)
    requires drained { compactor_ready engine.old ≡ [] }
    requires counted { (compactor_state engine.old).number ≡ 0 }
{
    let mut taken: u64 = 0;
    for answer in run.answers {
        let Ok(Some(line)) = lines.next_line(reader) else {
            expect_at(rt, false, run.name, taken as usize);
            return;
        };
        taken = feed_one(rt, engine, line, taken, run.name, answer.step, answer.ready);
        if let Some(second) = answer.again {
            taken = feed_one(rt, engine, line, taken, run.name, second, 0);
        }
    }
    let is_last = matches!(lines.next_line(reader), Ok(None));
    let is_quiet = engine.end() == Ok(Step::Quiet);
    expect_at(rt, is_last && is_quiet, run.name, taken as usize);
}

/// Expects that an engine returns the answers of a run for the lines of its text.
fn expect_answers(rt: &impl Abort, alloc: Global, run: &Run) -> Result<(), Fail> {
    let input = text(alloc, run.lines)?;
    let options = Options::new(None, run.skip, b"D")?;
    let mut engine = Owned::of(Compactor::new(alloc, options)?);
    let mut lines = LineReader::new(alloc)?;
    let mut reader = Std::new(input.as_slice());
    feed_all(rt, &mut engine.value, &mut lines, &mut reader, run);
    Ok(())
}

const RUNS: &[Run] = &[
    Run {
        name: "five epochs",
        skip: false,
        lines: "H|E1|E2|E3|E4|E5",
        answers: &[
            THREE, ONE, ONE, QUIET, THREE, QUIET, THREE, QUIET, THREE, QUIET, THREE, QUIET, THREE,
        ],
    },
    Run {
        name: "epochs without satellites",
        skip: false,
        lines: "H|> 2024 01 01 00 00  0.0000000  0  0|> 2024 01 01 00 00  0.0000000  0  0",
        answers: &[THREE, ONE, ONE, TWO, TWO],
    },
    Run {
        name: "a line that gives two warnings",
        skip: true,
        lines: "H|> 2024 01 01 00 00  0.0000000  0  1|>|> 2024 01 01 00 00  1.0000000  0  1|G01         1.000",
        answers: &[THREE, ONE, ONE, QUIET, TWICE, QUIET, THREE],
    },
];

#[test]
fn answers_to_each_line(rt: HostRuntime) -> Result<(), Fail> {
    for run in RUNS {
        expect_answers(&rt, rt.alloc(), run)?;
    }
    Ok(())
}
