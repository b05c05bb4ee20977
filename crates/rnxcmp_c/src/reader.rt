//! A run that continues from call to call.

ghost use Rattle.std.specs.Prelude.{◌≡◌, ℕ, List, [], ◌∷◌, length, take};
ghost use Rattle.rnxcmp_c.specs.Handles.{Ends, EndsRunBy, Feeds, ReaderStands, answer_now};
ghost use Rattle.rnxcmp_c.specs.Opened.{HandsOut};
ghost use Rattle.rnxcmp_c.specs.meaning.Handles.{Task, joined_texts};
ghost use Rattle.rnxcmp_c.specs.Waiting.{waiting};
ghost use Rattle.rnxcmp_c.specs.meaning.Answers.{BothTexts, rooms};

use crate::answer::{
    Answer, MISUSED, OUTPUT_LIMIT, answer_without_texts, line_and_code, no_memory_at,
};
use crate::engines::{AnyEngine, end_engine, feed_engine, status_at_end};
use crate::handle_state::HandleState;
use crate::stop::Stop;
use crx_base::limits::INPUT_LIMIT;
use crx_base::{At, Fault};
use crx_runs::Outcome;
use crx_runs::message::{Severity, message};

/// A run between two calls.
#[derive(Drop)]
pub struct Reader {
    /// The engine that takes the lines.
    pub(crate) engine: AnyEngine,
    /// The state except the engine.
    pub(crate) held: HandleState,
    /// How many bytes were fed.
    pub(crate) fed: u64,
    /// How the run ended, `None` while it continues.
    pub(crate) outcome: Option<Outcome>,
}

/// Returns the outcome of a run that `stop` ended. For a fault the status is 1 and its message is added to
/// `held`; if the message can't be kept, the fault is `OutOfMemory` at the same line. At the output's limit
/// the status is `OUTPUT_LIMIT`, without a fault or a message.
fn outcome_of(held: &mut HandleState, stop: Stop) -> Outcome
    ensures { EndsRunBy held.old held.new result stop }
{
    let Stop::Fault(at) = stop else {
        return Outcome {
            status: OUTPUT_LIMIT as u8,
            fault: None,
        };
    };
    if held.messages.add(message(Severity::Error, at).bytes()) {
        return Outcome {
            status: 1,
            fault: Some(at),
        };
    }
    Outcome {
        status: 1,
        fault: Some(no_memory_at(at.line)),
    }
}

impl Reader {
    /// Returns the run's status (0 while it continues) and fault, and how many bytes of each text wait.
    fn answer(&self) -> Answer
        ensures { result ≡ answer_now self.now }
    {
        let (status, fault) = match self.outcome {
            None => (0, None),
            Some(outcome) => (u32::from(outcome.status), outcome.fault),
        };
        let (line, code) = line_and_code(fault);
        Answer {
            line,
            output_length: self.held.output.count(),
            messages_length: self.held.messages.count(),
            status,
            code,
        }
    }

    /// Feeds bytes of the input until `READY_LIMIT` bytes wait to be taken. The first byte above
    /// `INPUT_LIMIT` ends the run. Returns how many bytes were used (all up to that limit, if another fault
    /// ends the run), and the run's state; 0 and `MISUSED` if the run had ended.
    pub(crate) fn read_bytes(&mut self, bytes: &[u8]) -> (usize, Answer)
        requires { (task : Task) × (fed : List ℕ) × (taken : BothTexts)
            × ReaderStands task self.old fed taken }
        ensures { (task : Task) (fed : List ℕ) (taken : BothTexts) → ReaderStands task self.old fed taken
            → Feeds task self.old self.new fed taken bytes.now result.0 result.1 }
    {
        if self.outcome.is_some() {
            return (0, answer_without_texts(MISUSED, 0, 0));
        }
        // The bytes that the input may still have.
        let count = (bytes.len() as u64).min(INPUT_LIMIT - self.fed) as usize;
        let allowed = &bytes[..count];
        if allowed.is_empty() && !bytes.is_empty() {
            let at = At {
                line: self.held.number + 1,
                fault: Fault::InputTooLong,
            };
            self.outcome = Some(outcome_of(&mut self.held, Stop::Fault(at)));
            return (0, self.answer());
        }
        match feed_engine(&mut self.engine, &mut self.held, allowed) {
            Ok(used) => {
                self.fed += used as u64;
                (used, self.answer())
            }
            Err(stop) => {
                self.outcome = Some(outcome_of(&mut self.held, stop));
                (count, self.answer())
            }
        }
    }

    /// Ends the input and the run, and returns its state; `MISUSED`, with no change, if the run had ended.
    pub(crate) fn take_end(&mut self) -> Answer
        requires { (task : Task) × (fed : List ℕ) × (taken : BothTexts)
            × ReaderStands task self.old fed taken }
        ensures { (task : Task) (fed : List ℕ) (taken : BothTexts) → ReaderStands task self.old fed taken
            → Ends task self.old self.new fed taken result }
    {
        if self.outcome.is_some() {
            return answer_without_texts(MISUSED, 0, 0);
        }
        match end_engine(&mut self.engine, &mut self.held) {
            Ok(()) => {
                self.outcome = Some(Outcome {
                    status: status_at_end(&self.engine, self.held.warned),
                    fault: None,
                });
                self.answer()
            }
            Err(stop) => {
                self.outcome = Some(outcome_of(&mut self.held, stop));
                self.answer()
            }
        }
    }

    /// Moves the waiting output and messages to the front of two buffers, as far as they fit, and returns the
    /// state.
    pub(crate) fn move_out(&mut self, output: &mut [u8], messages: &mut [u8]) -> Answer
        ensures taken { HandsOut (self.old ∷ []) (self.new ∷ []) (rooms output.old messages.old)
            (rooms output.new messages.new) result }
        ensures stands { (task : Task) (fed : List ℕ) (taken : BothTexts)
            → ReaderStands task self.old fed taken → ReaderStands task self.new fed (joined_texts taken
            (rooms (take (length output.old) (waiting self.old.held.output))
            (take (length messages.old) (waiting self.old.held.messages)))) }
    {
        self.held.output.move_out(output);
        self.held.messages.move_out(messages);
        self.answer()
    }
}
