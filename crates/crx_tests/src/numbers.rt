//! Numbers in columns: their forms.

use crate::expecting::expect;
use crate::texts::as_text;
use crx_text::{BadField, clock_read, obs_read};

/// Fields, and their values.
type Fields<'a> = &'a [(&'a [u8], Result<Option<i64>, BadField>)];

const OBSERVATIONS: Fields<'_> = &[
    (b"              ", Ok(None)),
    (b"          .353", Ok(Some(353))),
    (b"        -0.000", Ok(Some(0))),
    (b"9999999999.999", Ok(Some(9_999_999_999_999))),
    (b"-999999999.999", Ok(Some(-999_999_999_999))),
    (b"        +1.000", Err(BadField)),
    (b"       1.2.345", Err(BadField)),
    (b"       12.345", Err(BadField)),
];

#[test]
fn forms_of_observations(rt: HostRuntime) {
    for (field, value) in OBSERVATIONS {
        expect(&rt, obs_read(field) == *value, as_text(field));
    }
}

const CLOCK_OFFSETS: Fields<'_> = &[
    (b"               ", Ok(None)),
    (b"  .123456789012", Ok(Some(123_456_789_012))),
    (b"-0.000000000000", Ok(Some(0))),
    (b" +.123456789012", Err(BadField)),
    (b"-9.999999999999", Ok(Some(-9_999_999_999_999))),
    (b"99.999999999999", Ok(Some(99_999_999_999_999))),
    (b" .123456789012", Err(BadField)),
];

#[test]
fn forms_of_clock_offsets(rt: HostRuntime) {
    for (field, value) in CLOCK_OFFSETS {
        expect(&rt, clock_read(field) == *value, as_text(field));
    }
}
