//! The result of a call over a whole input.

ghost use Rattle.rnxcmp_c.specs.meaning.Answers.{rooms};
ghost use Rattle.rnxcmp_c.specs.Collecting.{AnswersRun, TakeEnough};

use crate::answer::{
    Answer, NO_ROOM, OUTPUT_LIMIT, answer_of_fault, answer_without_texts, line_and_code,
    no_memory_at, place,
};
use crate::devices::Counted;
use crx_runs::Outcome;

/// Returns the answer of a finished run, and copies the collected texts into the caller's buffers, as far as
/// they fit. The status is the outcome's, or `NO_ROOM` if the output doesn't fit; messages that don't fit
/// change nothing. If the output is longer than `most` (0: no limit), the status is `OUTPUT_LIMIT`; if memory
/// was refused in the run or for a text, it is 1, for the fault `OutOfMemory`. In these two cases the buffers
/// stay as they are.
pub(crate) fn answer_of(
    outcome: Outcome,
    output: Counted,
    messages: Counted,
    most: u64,
    output_room: &mut [u8],
    messages_room: &mut [u8],
) -> Answer
    requires { TakeEnough output messages most }
    ensures { AnswersRun outcome output messages most result
        (rooms output_room.old messages_room.old) (rooms output_room.new messages_room.new) }
{
    if most > 0 && output.count as u64 > most {
        return answer_without_texts(OUTPUT_LIMIT, 0, 0);
    }
    let (line, code) = line_and_code(outcome.fault);
    let no_memory = no_memory_at(line).fault;
    if code == u32::from(no_memory.code()) || output.failures != 0 || messages.failures != 0 {
        return answer_of_fault(line, no_memory);
    }
    place(&output.bytes, output_room);
    place(&messages.bytes, messages_room);
    let fits = output.count <= output_room.len();
    Answer {
        line,
        output_length: output.count,
        messages_length: messages.count,
        status: if fits {
            u32::from(outcome.status)
        } else {
            NO_ROOM
        },
        code,
    }
}
