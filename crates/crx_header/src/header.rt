//! Header lines: the first one, and the one that ends the header. RINEX 3.05, table A2.

ghost use Rattle.std.specs.Prelude.{◌≡◌, None, Some, MatchResult};
ghost use Rattle.crx_header.specs.meaning.Header.{first_header_fault, is_end_of_header, is_supported};

use crate::columns::is_labelled;
use crate::labels::{END_LABEL, VERSION_LABEL};
use crx_base::Fault;
use crx_base::limits::VERSION_WIDTH;
use crx_text::columns::{character, trim_columns};

/// Checks the first line of a header, `RINEX VERSION / TYPE` (RINEX 3.05, table A2).
///
/// Returns `MissingVersion` if columns 61 to 80 hold another label; otherwise `UnsupportedVersion` if columns
/// 1 to 9, without blanks at their ends, are none of `3`, `3.0` and `3.0` with one more digit; otherwise
/// `NotObservation` if column 21 isn't `O`.
pub fn header_first(line: &[u8]) -> Result<(), Fault>
    ensures fault { MatchResult result
        (λ _. first_header_fault line.now ≡ None)
        (λ fault. first_header_fault line.now ≡ Some fault) }
{
    if !is_labelled(line, &VERSION_LABEL) {
        return Err(Fault::MissingVersion);
    }
    if !is_supported(trim_columns(line, 1, VERSION_WIDTH)) {
        return Err(Fault::UnsupportedVersion);
    }
    if character(line, 21) != b'O' {
        return Err(Fault::NotObservation);
    }
    Ok(())
}

/// Returns whether a version, without blanks at its ends, is supported: `3`, `3.0`, or `3.0` and a digit.
fn is_supported(version: &[u8]) -> bool
    ensures { result ≡ is_supported version.now }
{
    match version {
        [b'3'] | [b'3', b'.', b'0'] => true,
        [b'3', b'.', b'0', digit] => digit.is_ascii_digit(),
        _ => false,
    }
}

/// Returns whether a line ends the header: columns 61 to 80 hold `END OF HEADER` and only blanks after it
/// (RINEX 3.05, table A2).
pub fn is_end(line: &[u8]) -> bool
    ensures value { result ≡ is_end_of_header line.now }
{
    is_labelled(line, &END_LABEL)
}
