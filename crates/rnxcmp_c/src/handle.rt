//! Handles, for C programs: a run that continues from call to call.
//!
//! A closed handle is all zeros. From the call that opens a handle to the call that closes it, only these
//! calls touch it, one at a time. All bytes fed have a defined result. While the run continues, the texts
//! taken and the texts kept are together the output and messages of the lines fed, which are prefixes of the
//! result's; after its end they are the whole result, unless memory or a limit ended the run.

ghost use Rattle.std.specs.Prelude.{◌≡◌, ◌⊎◌, ◌++◌, ℕ, List, [], drop, length, take, Some, true, false};
ghost use Rattle.crx_base.specs.meaning.Choices.{Choices, choices_of, is_date};
ghost use Rattle.crx_base.specs.declared.fault.Fault.TheVariants.{InputTooLong};
ghost use Rattle.crx_base.specs.meaning.Faults.{code_of_fault};
ghost use Rattle.crx_base.specs.meaning.Lines.{lines_of};
ghost use Rattle.rnxcmp_c.specs.Handles.{IsFresh};
ghost use Rattle.rnxcmp_c.specs.meaning.Handles.{HandlePromise, RunHasEnded, RunHasResult, RunWasEnded, StopsAtLimit, StopsForMemory, TakesBytes, Task, joined_texts, run_for};
ghost use Rattle.rnxcmp_c.specs.Opened.{AnswersOpening, ByItsPast, EndsHandle, FeedsHandle, ForChecks, ForExpansions, HandleStands, Holds, IsSoundHandle, IsUnchanged, KeepsExpansion, KeepsHandle, OnceItHasEnded, RefusesMisuse, WhereItEnded, WhileItGoesOn, has_ended, messages_kept, output_kept, run_state, texts_kept};
ghost use Rattle.rnxcmp_c.specs.declared.reader.Reader.{Reader};
ghost use Rattle.rnxcmp_c.specs.meaning.Answers.{BothTexts, bare_answer, placed, rooms};
ghost use Rattle.rnxcmp_c.specs.meaning.Ended.{CheckPromises};
ghost use Rattle.rnxcmp_c.specs.meaning.Kept.{TaskKeeps};
ghost use Rattle.rnxcmp_c.specs.declared.answer.TheConstants.{MISUSED};

use crate::answer::{Answer, BAD_DATE, MISUSED, answer_of_fault, answer_without_texts};
use crate::engines::AnyEngine;
use crate::handle_state::HandleState;
use crate::loose::Loose;
use crate::reader::Reader;
use crate::reader_box::ReaderBox;
use crx_base::Fault;
use crx_base::memory::try_box;
use crx_filter::Options;
use crx_filter::checking::{Checking, no_options};
use crx_filter::compaction::Compaction;
use crx_filter::engine::LineEngine;
use crx_filter::expansion::Expansion;
use std::alloc::Global;
use std::mem::replace;

/// A handle. A closed one is all zeros.
#[repr(C)]
#[derive(Drop)]
pub struct Handle {
    place: ReaderBox,
    is_open: bool,
}

/// Closes an open handle and returns its reader.
fn take_out(handle: &mut Handle, alloc: Global) -> Box<Reader>
    requires { (reader : Reader) × Holds handle.old reader }
    ensures reader { Holds handle.old result.value }
    ensures place { handle.new.place.held ≡ [] }
    ensures closed { handle.new.is_open ≡ false }
{
    let closed = Handle {
        place: ReaderBox::empty(),
        is_open: false,
    };
    let held = replace(handle, closed);
    held.place.into_loose(alloc).into_box()
}

/// Stores `reader` in a closed handle, which is then open.
fn put_in(handle: &mut Handle, reader: Box<Reader>)
    ensures reader { Holds handle.new reader.value }
    ensures opened { handle.new.is_open ≡ true }
{
    *handle = Handle {
        place: ReaderBox::from_loose(Loose::from_box(reader)),
        is_open: true,
    };
}

/// Opens a closed handle for a run of `engine`. `max_output`: the most bytes of output (0: no limit). The
/// status is 0, or 1 if memory is refused; then the handle doesn't change.
fn open(alloc: Global, handle: &mut Handle, engine: AnyEngine, max_output: u64) -> Answer
    ensures opened { (task : Task) → IsFresh task engine → (run_for task).limit ≡ max_output
        → result.status ≡ 0 → HandleStands task handle.new [] (rooms [] []) }
    ensures running { result.status ≡ 0 → has_ended handle.new ≡ false }
    ensures unchanged { (result.status ≡ 0 → ⊥) → IsUnchanged handle.old handle.new }
    ensures answer { AnswersOpening result }
{
    let held = match HandleState::new(alloc, max_output) {
        Ok(held) => held,
        Err(refused) => return answer_of_fault(0, Fault::from(refused)),
    };
    let reader = Reader {
        engine,
        held,
        fed: 0,
        outcome: None,
    };
    match try_box(alloc, reader) {
        Ok(reader) => {
            put_in(handle, reader);
            answer_without_texts(0, 0, 0)
        }
        Err(refused) => answer_of_fault(0, Fault::from(refused)),
    }
}

/// Opens a closed handle for a compaction, with the options of `rnxcmp_c_compact` (`max_output` 0: no limit).
/// Returns status 0; or, with the handle unchanged, `MISUSED` if it is open, `BAD_DATE` if `date` is too long
/// or has a byte outside 32 to 126, or 1 if memory is refused.
#[unsafe(no_mangle)]
pub extern "C" fn rnxcmp_c_open_compact(
    alloc: Global,
    handle: &mut Handle,
    every: u32,
    skip: bool,
    date: &[u8],
    max_output: u64,
) -> Answer
    ensures opened { result.status ≡ 0
        → HandleStands (Task.Compact (choices_of (Some every) skip date.now) max_output) handle.new []
        (rooms [] []) }
    ensures running { result.status ≡ 0 → has_ended handle.new ≡ false }
    ensures kept { KeepsHandle handle.old handle.new result }
    ensures date { handle.old.is_open ≡ false → is_date date.now ≡ false → result ≡ bare_answer BAD_DATE 0 0 }
    ensures answer { handle.old.is_open ≡ false → is_date date.now ≡ true → AnswersOpening result }
{
    if handle.is_open {
        return answer_without_texts(MISUSED, 0, 0);
    }
    let Ok(options) = Options::new(Some(every), skip, date) else {
        return answer_without_texts(BAD_DATE, 0, 0);
    };
    match LineEngine::<Compaction>::new(alloc, options) {
        Ok(compactor) => open(alloc, handle, AnyEngine::Compacting(compactor), max_output),
        Err(refused) => answer_of_fault(0, Fault::from(refused)),
    }
}

/// Opens a closed handle for an expansion, with the options of `rnxcmp_c_expand`. The status is 0, `MISUSED`
/// if the handle is open, or 1 if memory is refused; unless it is 0, the handle doesn't change.
#[unsafe(no_mangle)]
pub extern "C" fn rnxcmp_c_open_expand(
    alloc: Global,
    handle: &mut Handle,
    skip: bool,
    max_output: u64,
) -> Answer
    ensures opened { result.status ≡ 0 → (choices : Choices) × (choices.skip ≡ skip)
        × HandleStands (Task.Expand choices max_output) handle.new [] (rooms [] []) }
    ensures running { result.status ≡ 0 → has_ended handle.new ≡ false }
    ensures kept { KeepsHandle handle.old handle.new result }
    ensures answer { handle.old.is_open ≡ false → AnswersOpening result }
{
    if handle.is_open {
        return answer_without_texts(MISUSED, 0, 0);
    }
    let Ok(options) = Options::new(None, skip, b"") else {
        unreachable!()
    };
    match LineEngine::<Expansion>::new(alloc, options) {
        Ok(expander) => open(alloc, handle, AnyEngine::Expanding(expander), max_output),
        Err(refused) => answer_of_fault(0, Fault::from(refused)),
    }
}

/// Opens a closed handle for the check of a RINEX file. The status is 0, `MISUSED` if the handle is open, or
/// 1 if memory is refused; unless it is 0, the handle doesn't change.
#[unsafe(no_mangle)]
pub extern "C" fn rnxcmp_c_open_check(alloc: Global, handle: &mut Handle) -> Answer
    ensures opened { result.status ≡ 0 → HandleStands Task.Check handle.new [] (rooms [] []) }
    ensures running { result.status ≡ 0 → has_ended handle.new ≡ false }
    ensures kept { KeepsHandle handle.old handle.new result }
    ensures answer { handle.old.is_open ≡ false → AnswersOpening result }
{
    if handle.is_open {
        return answer_without_texts(MISUSED, 0, 0);
    }
    match LineEngine::<Checking>::new(alloc, no_options()) {
        Ok(checker) => open(alloc, handle, AnyEngine::Checking(checker), 0),
        Err(refused) => answer_of_fault(0, Fault::from(refused)),
    }
}

/// Feeds bytes of the input, which may end anywhere, until [`READY_LIMIT`](crate::limits::READY_LIMIT) bytes
/// wait to be taken, and sets `used` to the number of bytes used. A fault, refused memory, a byte above the
/// input's limit and the limit of the output end the run. The status is the run's (0 while it continues), or
/// `MISUSED`, with 0 bytes used, if the handle isn't open or its run had ended.
#[unsafe(no_mangle)]
pub extern "C" fn rnxcmp_c_feed(
    alloc: Global,
    handle: &mut Handle,
    bytes: &[u8],
    used: &mut usize,
) -> Answer
    requires sound { IsSoundHandle handle.old }
    ensures closed { handle.old.is_open ≡ false → RefusesMisuse handle.old handle.new result × (used.new ≡ 0) }
    ensures feeds { ByItsPast handle.old (λ task fed taken.
        FeedsHandle task handle.old handle.new fed taken bytes.now used.new result) }
    ensures stands { ByItsPast handle.old (λ task fed taken.
        HandleStands task handle.new (fed ++ take used.new bytes.now) taken) }
    ensures promise { WhileItGoesOn handle.old (λ task fed taken.
        HandlePromise (run_state handle.new) (run_for task) (fed ++ take used.new bytes.now)
        (joined_texts taken (texts_kept handle.new)) (texts_kept handle.new) result) }
    ensures takes { WhileItGoesOn handle.old (λ task fed taken. TakesBytes (run_for task) fed taken
        bytes.now used.new (texts_kept handle.old) (texts_kept handle.new) (has_ended handle.new)) }
    ensures ended { WhileItGoesOn handle.old (λ task fed taken. has_ended handle.new ≡ true
        → RunWasEnded (run_for task) fed (fed ++ take used.new bytes.now) (drop used.new bytes.now)
        (joined_texts taken (texts_kept handle.new)) (texts_kept handle.new) result) }
    ensures misused { OnceItHasEnded handle.old ((result ≡ bare_answer MISUSED 0 0) × (used.new ≡ 0)
        × (handle.new.place.held ≡ handle.old.place.held)) }
    ensures sound { IsSoundHandle handle.new }
{
    *used = 0;
    if !handle.is_open {
        return answer_without_texts(MISUSED, 0, 0);
    }
    let mut reader = take_out(handle, alloc);
    let (count, answer) = reader.read_bytes(bytes);
    put_in(handle, reader);
    *used = count;
    answer
}

/// Ends the input, whose last line needs no LF; waiting texts can still be taken. The status is the run's, or
/// `MISUSED`, with no change, if the handle isn't open or its run had ended.
#[unsafe(no_mangle)]
pub extern "C" fn rnxcmp_c_end(alloc: Global, handle: &mut Handle) -> Answer
    requires sound { IsSoundHandle handle.old }
    ensures closed { handle.old.is_open ≡ false → RefusesMisuse handle.old handle.new result }
    ensures ends { ByItsPast handle.old (λ task fed taken.
        EndsHandle task handle.old handle.new fed taken result) }
    ensures stands { ByItsPast handle.old (λ task fed taken. HandleStands task handle.new fed taken) }
    ensures promise { WhileItGoesOn handle.old (λ task fed taken. HandlePromise (run_state handle.new)
        (run_for task) fed (joined_texts taken (texts_kept handle.new)) (texts_kept handle.new) result) }
    ensures ended { WhileItGoesOn handle.old (λ task fed taken. (has_ended handle.new ≡ true)
        × RunHasEnded (λ ended. (ended ≡ (run_for task).result fed) ⊎ (StopsAtLimit (run_for task) fed ended
        ⊎ StopsForMemory (λ line. line ≡ length (lines_of fed)) (run_for task) fed ended))
        (joined_texts taken (texts_kept handle.new)) (texts_kept handle.new) result) }
    ensures misused { OnceItHasEnded handle.old
        ((result ≡ bare_answer MISUSED 0 0) × (handle.new.place.held ≡ handle.old.place.held)) }
    ensures expansion { ForExpansions handle.old (λ choices fed taken. has_ended handle.old ≡ false
        → WhereItEnded result (KeepsExpansion choices fed taken handle.new result)) }
    ensures check { ForChecks handle.old (λ fed. has_ended handle.old ≡ false
        → WhereItEnded result (CheckPromises fed result)) }
    ensures sound { IsSoundHandle handle.new }
    ensures keeps { WhileItGoesOn handle.old (λ task fed taken. WhereItEnded result (TaskKeeps task
        (λ whole. RunHasResult whole (joined_texts taken (texts_kept handle.new)) (texts_kept handle.new) result)
        fed)) }
{
    if !handle.is_open {
        return answer_without_texts(MISUSED, 0, 0);
    }
    let mut reader = take_out(handle, alloc);
    let answer = reader.take_end();
    put_in(handle, reader);
    answer
}

/// Moves the waiting output and messages into two buffers, as far as they fit. Returns the run's status and
/// fault and how many bytes still wait; or `MISUSED`, with no change, if the handle isn't open.
#[unsafe(no_mangle)]
pub extern "C" fn rnxcmp_c_take(
    alloc: Global,
    handle: &mut Handle,
    output: &mut [u8],
    messages: &mut [u8],
) -> Answer
    requires sound { IsSoundHandle handle.old }
    ensures closed { handle.old.is_open ≡ false → RefusesMisuse handle.old handle.new result
        × (output.new ≡ output.old) × (messages.new ≡ messages.old) }
    ensures output { handle.old.is_open ≡ true
        → output.new ≡ placed (output_kept handle.old.place.held) output.old }
    ensures messages { handle.old.is_open ≡ true
        → messages.new ≡ placed (messages_kept handle.old.place.held) messages.old }
    ensures output_left { handle.old.is_open ≡ true
        → output_kept handle.new.place.held ≡ drop (length output.old) (output_kept handle.old.place.held) }
    ensures messages_left { handle.old.is_open ≡ true
        → messages_kept handle.new.place.held ≡ drop (length messages.old) (messages_kept handle.old.place.held) }
    ensures stands { ByItsPast handle.old (λ task fed taken. HandleStands task handle.new fed
        (joined_texts taken (rooms (take (length output.old) (output_kept handle.old.place.held))
        (take (length messages.old) (messages_kept handle.old.place.held))))) }
    ensures still { run_state handle.new ≡ run_state handle.old }
    ensures promise { ByItsPast handle.old (λ task fed taken. (run_state handle.new ≡ run_state handle.old)
        × HandlePromise (run_state handle.new) (run_for task) fed (joined_texts (joined_texts taken
        (rooms (take (length output.old) (output_kept handle.old.place.held))
        (take (length messages.old) (messages_kept handle.old.place.held)))) (texts_kept handle.new))
        (texts_kept handle.new) result) }
    ensures expansion { ForExpansions handle.new (λ choices fed taken. has_ended handle.new ≡ true
        → WhereItEnded result ((result.code ≡ code_of_fault InputTooLong → ⊥)
        → KeepsExpansion choices fed taken handle.new result)) }
    ensures check { ForChecks handle.new (λ fed. has_ended handle.new ≡ true
        → WhereItEnded result ((result.code ≡ code_of_fault InputTooLong → ⊥) → CheckPromises fed result)) }
    ensures sound { IsSoundHandle handle.new }
    ensures keeps { ByItsPast handle.new (λ task fed taken. has_ended handle.new ≡ true
        → WhereItEnded result ((result.code ≡ code_of_fault InputTooLong → ⊥) → TaskKeeps task
        (λ whole. RunHasResult whole (joined_texts taken (texts_kept handle.new)) (texts_kept handle.new) result)
        fed)) }
{
    if !handle.is_open {
        return answer_without_texts(MISUSED, 0, 0);
    }
    let mut reader = take_out(handle, alloc);
    let answer = reader.move_out(output, messages);
    put_in(handle, reader);
    answer
}

/// Closes a handle and frees its memory; texts that still wait are lost. A closed handle doesn't change.
#[unsafe(no_mangle)]
pub extern "C" fn rnxcmp_c_close(alloc: Global, handle: &mut Handle)
    requires sound { IsSoundHandle handle.old }
    ensures closed { handle.new.is_open ≡ false }
    ensures nothing { handle.old.is_open ≡ true → handle.new.place.held ≡ [] }
    ensures same { handle.old.is_open ≡ false → IsUnchanged handle.old handle.new }
{
    if handle.is_open {
        drop(take_out(handle, alloc));
    }
}
