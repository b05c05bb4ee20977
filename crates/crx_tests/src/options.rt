//! Dates that are accepted or refused.

use crate::expecting::expect;
use crate::texts::as_text;
use crx_filter::Options;

/// Dates, and whether they are accepted.
const DATES: &[(&[u8], bool)] = &[
    (b"", true),
    (b"D", true),
    (b"01-Jan-24 00:00", true),
    (b"12345678901234567890", true),
    (b"123456789012345678901", false),
    (b" ~", true),
    (b"a\x1f", false),
    (b"a\x7f", false),
];

/// Returns whether a date is refused, or accepted unchanged with the choice to skip.
fn is_so(date: &[u8], good: bool) -> bool {
    match Options::new(None, true, date) {
        Ok(options) => good && options.date() == date && options.skip(),
        Err(_) => !good,
    }
}

#[test]
fn refuses_long_dates_and_other_bytes(rt: HostRuntime) {
    for (date, good) in DATES {
        expect(&rt, is_so(date, *good), as_text(date));
    }
}
