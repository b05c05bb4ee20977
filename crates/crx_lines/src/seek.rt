//! The search for a line's end in the bytes of a reader.
ghost use Rattle.std.specs.Prelude.{◌≡◌, ℕ, List, ◌+◌, ◌<◌, ◌≤◌, length, slice_index, IfOk, IfErr, MatchBool, Contains};
ghost use Rattle.crx_lines.specs.meaning.Devices.{tally_of};
ghost use Rattle.crx_lines.specs.Devices.{tally_after_line};
ghost use Rattle.crx_lines.specs.Window.{kept};
ghost use Rattle.crx_lines.specs.Seeking.{EndsSearch, Seeking};
ghost use Rattle.crx_base.specs.declared.limits.TheConstants.{INPUT_LIMIT};

use crate::device::Source;
use crate::feed::feed_from;
use crate::window::Window;
use crx_base::Fault;
use crx_base::limits::INPUT_LIMIT;

/// The first line of an input: how much of it was discarded, and how much is in the window.
#[derive(Clone, Copy)]
pub(crate) struct Found {
    /// How many of its bytes were discarded: none, or more than a line may have.
    pub(crate) passed: u64,
    /// How many of its bytes are at the front of the window.
    pub(crate) len: usize,
    /// Whether an LF follows them; otherwise the input ends there.
    pub(crate) is_ended: bool,
}

/// Finds the end of the line that the pending bytes in `window` begin with, an LF or the input's end, and
/// reads from `reader` until it is found. Doesn't take the line; discards the bytes of one that is too long.
/// If nothing is pending and the input has ended, the line is empty, without an LF. `before`: how many bytes
/// the earlier lines had, with their ends. Returns `InputTooLong` if a byte past `INPUT_LIMIT` was read, and
/// `ReadFailed` if a read fails.
pub(crate) fn seek<R: Source>(
    window: &mut Window,
    before: u64,
    reader: &mut R,
) -> Result<Found, Fault>
    requires { before + length (kept window.old) ≤ INPUT_LIMIT }
    ensures ok { IfOk result (λ s. (room : ℕ) × Seeking (λ given. R.gave reader.old given reader.new)
        (kept window.old) (kept window.new) before room s.passed s.len) }
    ensures end { IfOk result (λ s. MatchBool s.is_ended
        ((s.len < length (kept window.new)) × (slice_index (kept window.new) s.len ≡ 10))
        ((s.len ≡ length (kept window.new)) × R.at_end reader.new)) }
    ensures counted { IfOk result (λ s. tally_of (R.failures reader.new) (R.ends reader.new)
        ≡ tally_after_line s.is_ended (tally_of (R.failures reader.old) (R.ends reader.old))) }
    ensures fault { IfErr result (λ fault. (given : List ℕ) × R.gave reader.old given reader.new
        × EndsSearch fault before (kept window.old) given (tally_of (R.failures reader.old) (R.ends reader.old))
        (tally_of (R.failures reader.new) (R.ends reader.new))) }
    ensures fits { before + length (kept window.new) ≤ INPUT_LIMIT }
    ensures unasked { Contains (kept window.old) 10 → reader.new ≡ reader.old }
{
    let mut room = INPUT_LIMIT - before - window.as_slice().len() as u64;
    let mut passed: u64 = 0;
    let mut searched = 0;
    'seeking: loop {
        if let Some(len) = feed_from(window.as_slice(), searched) {
            return Ok(Found {
                passed,
                len,
                is_ended: true,
            });
        }
        passed += window.drop_long_line() as u64;
        searched = window.as_slice().len();
        let count = window.fill(reader, room)?;
        if count == 0 {
            return Ok(Found {
                passed,
                len: searched,
                is_ended: false,
            });
        }
        room -= count as u64;
    }
}
