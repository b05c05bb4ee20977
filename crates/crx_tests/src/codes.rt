//! Codes: their forms and their printed texts.

use crate::expecting::expect;
use crate::texts::as_text;
use crx_text::{BadField, Code, Text, code_print, code_read};

/// Differences, and their printed texts.
const STEPS: &[(i64, &[u8])] = &[
    (0, b"0"),
    (-907, b"-907"),
    (20_000_304_500, b"20000304500"),
    (-999_999_999_999_999_999, b"-999999999999999999"),
];

fn prints(difference: i64, digits: &[u8]) -> bool {
    let mut text = Text::new();
    difference.unsigned_abs() < 1_000_000_000_000_000_000
        && code_print(Code::Step(difference), &mut text).is_ok()
        && text.bytes() == digits
}

#[test]
fn texts_of_steps(rt: HostRuntime) {
    for (difference, digits) in STEPS {
        expect(&rt, prints(*difference, digits), as_text(digits));
    }
}

/// Texts, and the codes that they spell.
const FORMS: &[(&[u8], Result<Code, BadField>)] = &[
    (b"", Ok(Code::Missing)),
    (b"-007", Ok(Code::Step(-7))),
    (
        b"9&999999999999999999",
        Ok(Code::Start {
            order: 9,
            value: 999_999_999_999_999_999,
        }),
    ),
    (b"1234567890123456789", Err(BadField)),
    (b"10&1", Err(BadField)),
    (b"3&", Err(BadField)),
    (b"+1", Err(BadField)),
];

#[test]
fn forms_of_codes(rt: HostRuntime) {
    for (text, code) in FORMS {
        expect(&rt, code_read(text) == *code, as_text(text));
    }
}
