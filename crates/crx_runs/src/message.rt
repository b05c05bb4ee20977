//! Messages of faults and warnings.

ghost use Rattle.std.specs.Prelude.{◌≡◌, ◌≤◌, ◌+◌, ◌++◌, drop, length};
ghost use Rattle.crx_runs.specs.meaning.Messages.{message_text};
ghost use Rattle.crx_runs.specs.Severities.{word_of};
ghost use Rattle.crx_runs.specs.declared.message.TheConstants.{MESSAGE_LIMIT};

use crx_base::At;
use itoa::write_digits;
use std::marker::Model;

/// The largest length of a message, in bytes.
pub(crate) const MESSAGE_LIMIT: usize = 80;

/// The kind of a message.
#[derive(Clone, Copy, Debug, PartialEq, Eq)]
pub enum Severity {
    /// The fault ended the run.
    Error,
    /// The faulty part was skipped.
    Warning,
}

/// A message at the end of an array of fixed size.
#[derive(Drop)]
pub struct MessageLine {
    bytes: [u8; MESSAGE_LIMIT],
    start: usize,
}

impl Model for MessageLine {
    ghost use Rattle.std.specs.Prelude.{ℕ, List, ◌≤◌, drop};
    ghost use Rattle.crx_runs.specs.declared.message.TheConstants.{MESSAGE_LIMIT};

    ghost Value = { List ℕ };

    ghost view = { λ message. drop message.start message.bytes };

    ghost invariant = { λ message. message.start ≤ MESSAGE_LIMIT };
}

impl MessageLine {
    /// Returns the message with its LF.
    pub fn bytes(&self) -> &[u8]
        ensures value { result.now ≡ self.now }
    {
        &self.bytes[self.start..]
    }
}

/// Copies `text` into `bytes` so that it ends before index `end`, and returns the index of its first byte.
/// `text` has to fit before `end`.
#[inline(always)]
fn put_before(text: &[u8], bytes: &mut [u8; MESSAGE_LIMIT], end: usize) -> usize
    requires { (length text.now ≤ end) × (end ≤ MESSAGE_LIMIT) }
    ensures start { result + length text.now ≡ end }
    ensures written { drop result bytes.new ≡ text.now ++ drop end bytes.old }
{
    let start = end - text.len();
    bytes[start..end].copy_from_slice(text);
    start
}

/// Returns the message of a fault with its LF, such as `ERROR line 7 code 18: bad indicator`. It needs no
/// memory, and is filled from its end, so that digits are written at their final place.
pub fn message(severity: Severity, at: At) -> MessageLine
    ensures value { result ≡ message_text (word_of severity) at }
{
    let mut bytes = [0; MESSAGE_LIMIT];
    let mut start = put_before(b"\n", &mut bytes, MESSAGE_LIMIT);
    start = put_before(at.fault.words().as_bytes(), &mut bytes, start);
    start = put_before(b": ", &mut bytes, start);
    start = write_digits(u64::from(at.fault.code()), &mut bytes, start);
    start = put_before(b" code ", &mut bytes, start);
    start = write_digits(at.line, &mut bytes, start);
    // Texts of constant length are copied without a call.
    start = match severity {
        Severity::Error => put_before(b"ERROR line ", &mut bytes, start),
        Severity::Warning => put_before(b"WARNING line ", &mut bytes, start),
    };
    MessageLine { bytes, start }
}
