//! Digits and signs of numbers in columns and in codes.

ghost use Rattle.std.specs.Prelude.{◌≡◌, ◌+◌, ◌-◌, ◌*◌, ◌<◌, ◌≤◌, ◌^◌, Some, None, length, if◌then◌else◌, IfSome};
ghost use Rattle.std.specs.Str.{all_ascii_digits};
ghost use Rattle.std.specs.Str.Parse.{digits_value_after, starts_with_minus};
ghost use Rattle.crx_text.specs.meaning.Numbers.{signed_number, without_minus};

// The most columns of a number, with its point, that an `i64` holds however it is written.
pub(crate) const WIDEST: usize = 19;

// Returns the number that the digits of `before` and then `digits` make, or `None` if a byte is no digit;
// `before` if `digits` is empty. Together they may be at most 18 digits.
#[tactic(auto, using(crate::proofs::PowersOfTen::next_digit))]
pub(crate) fn digits_read(before: u64, digits: &[u8]) -> Option<u64>
    requires { (before + 1) * 10 ^ length digits.now ≤ 10 ^ (WIDEST - 1) }
    ensures value { result ≡ (if all_ascii_digits digits.now
        then Some (digits_value_after 10 before digits.now) else None) }
    ensures fits { IfSome result (λ size. size < (before + 1) * 10 ^ length digits.now) }
{
    let mut size = before;
    for digit in digits {
        if !digit.is_ascii_digit() {
            return None;
        }
        size = size * 10 + u64::from(*digit - b'0');
    }
    Some(size)
}

// Returns whether a minus begins the text, and the text after it, or all of it.
#[inline(always)]
pub(crate) fn split_minus(text: &[u8]) -> (bool, &[u8])
    ensures sign { result.0 ≡ starts_with_minus text.now }
    ensures rest { result.1.now ≡ without_minus text.now }
    ensures shorter { length result.1.now + (if result.0 then 1 else 0) ≡ length text.now }
{
    match text {
        [b'-', rest @ ..] => (true, rest),
        _ => (false, text),
    }
}

// Returns whether a minus begins the text, which isn't empty, and the text after it, or all of it.
#[inline(always)]
pub(crate) fn split_minus_of_cell(text: &[u8]) -> (bool, &[u8])
    requires some { 0 < length text.now }
    ensures sign { result.0 ≡ starts_with_minus text.now }
    ensures rest { result.1.now ≡ without_minus text.now }
    ensures shorter { length result.1.now + (if result.0 then 1 else 0) ≡ length text.now }
{
    let is_below = text[0] == b'-';
    (is_below, &text[usize::from(is_below)..])
}

// Returns the number of this size, which is below 2^63; below zero if `is_below`.
#[inline(always)]
pub(crate) fn with_sign(is_below: bool, size: u64) -> i64
    requires { size < 2 ^ 63 }
    ensures { result ≡ signed_number is_below size }
{
    let number = size as i64;
    if is_below { -number } else { number }
}
