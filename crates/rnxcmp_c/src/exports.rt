//! The calls over a whole input, for C programs. A slice is a pointer and then its length, which may be 0;
//! `alloc` is no argument in C.
//!
//! If memory isn't refused, the input has at most [`INPUT_LIMIT`] bytes and the date isn't refused, then the
//! output, messages, status, fault and lengths are the defined result of the input, for any options. A text
//! that is longer than its buffer is copied as far as it fits. In all other cases, and if the output is
//! longer than its limit, the caller's buffers aren't changed.

ghost use Rattle.std.specs.Prelude.{◌≡◌, ◌≤◌, length, Some, true, false};
ghost use Rattle.crx_filter.specs.meaning.ByResults.{CompactionKeeps, ExpansionKeeps};
ghost use Rattle.crx_filter.specs.meaning.Lossless.{SaysThatItComesBack};
ghost use Rattle.crx_base.specs.meaning.Choices.{Choices, choices_of, is_date};
ghost use Rattle.crx_filter.specs.meaning.CompactText.{IsCompactText, ReadsAnyText};
ghost use Rattle.crx_filter.specs.meaning.Compacted.{compacted};
ghost use Rattle.crx_filter.specs.meaning.Expanded.{expanded};
ghost use Rattle.crx_filter.specs.meaning.Standard.{checked};
ghost use Rattle.rnxcmp_c.specs.meaning.Lossless.{CallBringsBackWhatPasses};
ghost use Rattle.rnxcmp_c.specs.meaning.Calls.{KeepsWhereItRan, RefusesForMemory, RefusesLong, WhereItRan};
ghost use Rattle.rnxcmp_c.specs.meaning.Answers.{AnswersAlone, AnswersWithin, IsAnswer, rooms};
ghost use Rattle.rnxcmp_c.specs.declared.answer.TheConstants.{BAD_DATE};
ghost use Rattle.rnxcmp_c.specs.meaning.Promises.{CallBringsBackWhatWasCompacted, CallJudgesStandard, CallSavesAllElse};
ghost use Rattle.rnxcmp_c.specs.meaning.Stretches.{CallKeepsUndamaged, CallWritesWholeUnits};

use crate::answer::{Answer, BAD_DATE, answer_of_fault, answer_without_texts};
use crate::devices::{Counted, Given};
use crate::runs::answer_of;
use crx_base::Fault;
use crx_base::limits::INPUT_LIMIT;
use crx_filter::{Options, check, compact, expand};
use std::alloc::Global;

/// Compacts RINEX 3.0x. `every`: an epoch is full if `every` divides its index (0: only if it must be);
/// `skip`: an epoch with a fault is skipped with a warning; `date`: the date in the second line;
/// `max_output`: the most bytes of output (0: no limit). The status is `BAD_DATE` if the date is refused, 1
/// after a fault (also an input above [`INPUT_LIMIT`], or refused memory), `OUTPUT_LIMIT` if the output is
/// above `max_output`, `NO_ROOM` if `output` is too short, 2 after warnings, otherwise 0.
#[unsafe(no_mangle)]
pub extern "C" fn rnxcmp_c_compact(
    alloc: Global,
    input: &[u8],
    every: u32,
    skip: bool,
    date: &[u8],
    max_output: u64,
    output: &mut [u8],
    messages: &mut [u8],
) -> Answer
    ensures date { is_date date.now ≡ false
        → AnswersAlone BAD_DATE 0 0 result (rooms output.old messages.old) (rooms output.new messages.new) }
    ensures long { is_date date.now ≡ true
        → RefusesLong input.now result (rooms output.old messages.old) (rooms output.new messages.new) }
    ensures memory { RefusesForMemory result (rooms output.old messages.old) (rooms output.new messages.new) }
    ensures runs { is_date date.now ≡ true → WhereItRan input.now result
        (AnswersWithin max_output (compacted input.now (choices_of (Some every) skip date.now)) result
        (rooms output.old messages.old) (rooms output.new messages.new)) }
    ensures keeps { is_date date.now ≡ true → KeepsWhereItRan (λ holds.
        CompactionKeeps holds (choices_of (Some every) skip date.now)) input.now max_output result
        (rooms output.old messages.old) (rooms output.new messages.new) }
{
    let Ok(options) = Options::new(Some(every), skip, date) else {
        return answer_without_texts(BAD_DATE, 0, 0);
    };
    if input.len() as u64 > INPUT_LIMIT {
        return answer_of_fault(0, Fault::InputTooLong);
    }
    let mut reader = Given::new(input);
    let mut written = Counted::new(alloc, output.len(), max_output);
    let mut reported = Counted::new(alloc, messages.len(), 0);
    let outcome = compact(alloc, &mut reader, &mut written, &mut reported, options);
    answer_of(outcome, written, reported, max_output, output, messages)
}

/// Expands Compact RINEX 3.0. `skip`: an epoch with a fault is skipped with a warning; `max_output`: the most
/// bytes of output (0: no limit). The status is 1 after a fault (also an input above [`INPUT_LIMIT`], or
/// refused memory), `OUTPUT_LIMIT` if the output is above `max_output`, `NO_ROOM` if `output` is too short, 2
/// after warnings, otherwise 0. `output` and `messages` get the first bytes of their texts; their whole
/// lengths are returned.
#[unsafe(no_mangle)]
pub extern "C" fn rnxcmp_c_expand(
    alloc: Global,
    input: &[u8],
    skip: bool,
    max_output: u64,
    output: &mut [u8],
    messages: &mut [u8],
) -> Answer
    ensures long { RefusesLong input.now result (rooms output.old messages.old) (rooms output.new messages.new) }
    ensures memory { RefusesForMemory result (rooms output.old messages.old) (rooms output.new messages.new) }
    ensures runs { (choices : Choices) → choices.skip ≡ skip → WhereItRan input.now result
        (AnswersWithin max_output (expanded input.now choices) result
        (rooms output.old messages.old) (rooms output.new messages.new)) }
    ensures lossless { KeepsWhereItRan CallBringsBackWhatPasses input.now max_output result
        (rooms output.old messages.old) (rooms output.new messages.new) }
    ensures any_writer { KeepsWhereItRan ReadsAnyText input.now max_output result
        (rooms output.old messages.old) (rooms output.new messages.new) }
    ensures no_other { WhereItRan input.now result (result.status ≡ 0 → IsCompactText input.now) }
    ensures way_back { KeepsWhereItRan CallBringsBackWhatWasCompacted input.now max_output result
        (rooms output.old messages.old) (rooms output.new messages.new) }
    ensures salvage { skip ≡ true → KeepsWhereItRan CallSavesAllElse input.now max_output result
        (rooms output.old messages.old) (rooms output.new messages.new) }
    ensures damage { skip ≡ true → KeepsWhereItRan CallKeepsUndamaged input.now max_output result
        (rooms output.old messages.old) (rooms output.new messages.new) }
    ensures whole_units { KeepsWhereItRan CallWritesWholeUnits input.now max_output result
        (rooms output.old messages.old) (rooms output.new messages.new) }
    ensures keeps { KeepsWhereItRan (λ holds. ExpansionKeeps holds skip) input.now max_output result
        (rooms output.old messages.old) (rooms output.new messages.new) }
{
    if input.len() as u64 > INPUT_LIMIT {
        return answer_of_fault(0, Fault::InputTooLong);
    }
    // An expansion uses no other option.
    let Ok(options) = Options::new(None, skip, b"") else {
        unreachable!()
    };
    let mut reader = Given::new(input);
    let mut written = Counted::new(alloc, output.len(), max_output);
    let mut reported = Counted::new(alloc, messages.len(), 0);
    let outcome = expand(alloc, &mut reader, &mut written, &mut reported, options);
    answer_of(outcome, written, reported, max_output, output, messages)
}

/// Checks RINEX 3.0x: the output is the report. The status is 0 if the file is standard, 2 if it isn't, 1
/// after a fault (also refused memory), without a report, and `NO_ROOM` if the report doesn't fit into
/// `output`.
#[unsafe(no_mangle)]
pub extern "C" fn rnxcmp_c_check(
    alloc: Global,
    input: &[u8],
    output: &mut [u8],
    messages: &mut [u8],
) -> Answer
    ensures long { RefusesLong input.now result (rooms output.old messages.old) (rooms output.new messages.new) }
    ensures memory { RefusesForMemory result (rooms output.old messages.old) (rooms output.new messages.new) }
    ensures runs { WhereItRan input.now result
        (IsAnswer (checked input.now) result (rooms output.old messages.old) (rooms output.new messages.new)) }
    ensures lossless { WhereItRan input.now result (SaysThatItComesBack result.status input.now) }
    ensures standard { WhereItRan input.now result
        (result.output_length ≤ length output.old → CallJudgesStandard result.status input.now) }
{
    if input.len() as u64 > INPUT_LIMIT {
        return answer_of_fault(0, Fault::InputTooLong);
    }
    let mut reader = Given::new(input);
    let mut written = Counted::new(alloc, output.len(), 0);
    let mut reported = Counted::new(alloc, messages.len(), 0);
    let outcome = check(alloc, &mut reader, &mut written, &mut reported);
    answer_of(outcome, written, reported, 0, output, messages)
}
