//! The lines of the bytes that are fed, through an engine.

ghost use Rattle.std.specs.Prelude.{◌≡◌, ◌≤◌, ◌<◌, ◌+◌, ◌-◌, ℕ, List, [], length, take, false, true, OnOk, OnErr, IfOk, IfErr};
ghost use Rattle.crx_base.specs.declared.limits.TheConstants.{INPUT_LIMIT};
ghost use Rattle.crx_base.specs.meaning.Lines.{InputLine, ends_with_return, lines_of, without_return};
ghost use Rattle.rnxcmp_c.specs.Going.{CanBeFed, HasShown, IsRunning, IsTaken, KeepsItsRun, LastIsTaken, LineIsTaken, WasFed};
ghost use Rattle.rnxcmp_c.specs.meaning.Answers.{BothTexts};
ghost use Rattle.rnxcmp_c.specs.meaning.Handles.{TaskRun};
ghost use Rattle.rnxcmp_c.specs.Holding.{IsCounted, IsMarkWithin, StopsCounted, ready_in};
ghost use Rattle.rnxcmp_c.specs.declared.limits.TheConstants.{LINE_ROOM, READY_LIMIT};

use crate::answer::no_memory_at;
use crate::handle_state::{HandleState, Mark};
use crate::pending::Pending;
use crate::stop::Stop;
use crx_base::PaddedCopy;
use crx_base::limits::LINE_LIMIT;
use crx_lines::Line;
use crx_lines::feed::feed_from;
use crx_runs::Engine;
use crx_runs::one_line::{Halt, take_end, take_line, take_overlong};

/// Returns a line's bytes without one CR at their end, and whether there was one.
fn content_of(bytes: &[u8]) -> (&[u8], bool)
    ensures content { result.0.now ≡ without_return bytes.now }
    ensures has_return { result.1 ≡ ends_with_return bytes.now }
{
    match bytes.split_last() {
        Some((last, front)) => {
            if *last == b'\r' {
                (front, true)
            } else {
                (bytes, false)
            }
        }
        None => (bytes, false),
    }
}

/// Counts the output added since `mark`, and stores whether there was a warning. `taken`: the step's result.
/// Returns `Stop::Limit` if the output would be longer than its limit, `OutOfMemory` at line `number` if one
/// of the texts couldn't be kept (in both cases both texts are cut back to `mark`), or the step's own fault.
fn count_output(
    held: &mut HandleState,
    mark: Mark,
    number: u64,
    taken: Result<bool, Halt>,
) -> Result<(), Stop>
    requires { IsMarkWithin mark held.old }
    ensures limit { held.new.limit ≡ held.old.limit }
    ensures good { OnOk result (IsCounted taken mark held.old held.new) }
    ensures stops { IfErr result (StopsCounted taken mark number held.old held.new) }
{
    let added = (held.output.count() - mark.output) as u64;
    if held.limit > 0 && added > held.left {
        held.cut_back(mark);
        return Err(Stop::Limit);
    }
    held.left = held.left.saturating_sub(added);
    match taken {
        Ok(warned) => {
            held.warned = held.warned || warned;
            Ok(())
        }
        Err(Halt::Fault(at)) => Err(Stop::Fault(at)),
        Err(Halt::Unwritten | Halt::Unreported) => {
            held.cut_back(mark);
            Err(Stop::Fault(no_memory_at(number)))
        }
    }
}

/// Feeds the bytes kept of a line, now complete, to `engine`, adds its output and warnings to `held`, and
/// clears the kept bytes. `is_ended`: an LF followed the line. Copies the line first, because a blank and
/// more bytes have to follow it. Returns why the run ended, if it did.
fn take_within<E: Engine>(
    engine: &mut E,
    held: &mut HandleState,
    is_ended: bool,
) -> Result<(), Stop>
    requires shown { HasShown E.Engine engine.old }
    requires next { held.old.number ≡ E.taken engine.old }
    requires within { held.old.number < INPUT_LIMIT }
    ensures keeps { KeepsItsRun E.Engine engine.old engine.new result }
    ensures next { OnOk result ((held.new.number ≡ held.old.number + 1) × (held.new.tail.bytes.items ≡ [])) }
    ensures step { LineIsTaken E.Engine engine.old engine.new held.old held.new is_ended result }
{
    let mark = held.mark();
    let number = held.number + 1;
    let tail = &held.tail;
    let (content, has_return) = content_of(&tail.bytes);
    let taken = if content.len() > LINE_LIMIT {
        take_overlong(engine, &mut held.output, &mut held.messages, number)
    } else {
        let is_plain = is_ended && !has_return;
        let line = Line::of(held.copy.of(content), number, is_plain);
        take_line(engine, &mut held.output, &mut held.messages, line)
    };
    held.tail.bytes.clear();
    held.number = number;
    count_output(held, mark, number, taken)
}

/// Uses `bytes` up to the first LF, and feeds the line that it ends; without LF all bytes are kept as a part
/// of a line. Returns how many were used, or why the run ended.
fn take_to_line_end<E: Engine>(
    engine: &mut E,
    held: &mut HandleState,
    bytes: &[u8],
) -> Result<usize, Stop>
    requires going { CanBeFed E.Engine engine.old held.old (length bytes.now) }
    requires low { ready_in held.old < READY_LIMIT }
    ensures filter { E.filter engine.new ≡ E.filter engine.old }
    ensures count { IfOk result (λ n. (n ≤ length bytes.now) × (0 < length bytes.now → 0 < n)) }
    ensures fed { WasFed E.Engine engine.old engine.new held.old held.new bytes.now result }
{
    match feed_from(bytes, 0) {
        None => {
            held.tail.add(bytes);
            Ok(bytes.len())
        }
        Some(end) => {
            held.tail.add(&bytes[..end]);
            take_within(engine, held, true)?;
            Ok(end + 1)
        }
    }
}

/// Feeds the lines in `bytes` to `engine` until `READY_LIMIT` bytes of output and messages wait in `held`. A
/// line without LF at the end is kept there and counts as used. Returns how many bytes were used, or why the
/// run ended: a fault, which isn't reported yet, refused memory, or the output's limit.
pub(crate) fn take_bytes<E: Engine>(
    engine: &mut E,
    held: &mut HandleState,
    bytes: &[u8],
) -> Result<usize, Stop>
    requires going { CanBeFed E.Engine engine.old held.old (length bytes.now) }
    ensures filter { E.filter engine.new ≡ E.filter engine.old }
    ensures count { IfOk result (IsTaken held.old held.new (length bytes.now)) }
    ensures low { OnErr result (ready_in held.old < READY_LIMIT) }
    ensures fed { WasFed E.Engine engine.old engine.new held.old held.new bytes.now result }
{
    let mut left = bytes;
    'bytes: while !left.is_empty() && held.is_low() {
        let count = take_to_line_end(engine, held, left)?;
        left = &left[count..];
    }
    Ok(bytes.len() - left.len())
}

/// Feeds the last line, if no LF ended it, and the end of the input to `engine`; their output and warnings
/// are added to `held`. Returns why the run ended early, if it did: a fault, which isn't reported yet,
/// refused memory, or the output's limit.
pub(crate) fn take_last<E: Engine>(engine: &mut E, held: &mut HandleState) -> Result<(), Stop>
    requires going { CanBeFed E.Engine engine.old held.old 0 }
    ensures filter { E.filter engine.new ≡ E.filter engine.old }
    ensures ends { (run : TaskRun) (fed : List ℕ) (taken : BothTexts)
        → IsRunning E.Engine run engine.old held.old fed taken
        → LastIsTaken result run (E.has_ended engine.new (lines_of fed)) held.new fed taken }
{
    if !held.tail.bytes.is_empty() {
        take_within(engine, held, false)?;
    }
    let mark = held.mark();
    let number = held.number;
    let taken = take_end(engine, &mut held.output, &mut held.messages);
    count_output(held, mark, number, taken)
}
