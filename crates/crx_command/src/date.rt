//! The date in the second line of Compact RINEX 3.0.

ghost use Rattle.std.specs.Prelude.{◌≡◌, ◌<◌, ◌-◌, ◌++◌, [], IfOk, OnOk, string_bytes};
ghost use Rattle.crx_command.specs.meaning.Dates.{IsDateOf, IsDateText, IsDefaultDate, months, two_digits};
ghost use Rattle.std.specs.List.{slice_index_or};

use jiff::Timestamp;
use jiff::civil::DateTime;
use jiff::tz::Offset;
use std::alloc::{AllocError, Global};
use std::time::Clock;

static MONTHS: [&str; 12] = [
    "Jan", "Feb", "Mar", "Apr", "May", "Jun", "Jul", "Aug", "Sep", "Oct", "Nov", "Dec",
];

/// Appends `number`, which is below 100, in two digits. Returns `AllocError` if memory is refused; then the
/// first digit may have been appended.
fn push_two_digits(text: &mut String, number: u8) -> Result<(), AllocError>
    requires { number < 100 }
    ensures { OnOk result (string_bytes text.new ≡ string_bytes text.old ++ two_digits number) }
{
    text.push((b'0' + number / 10) as char)?;
    text.push((b'0' + number % 10) as char)
}

/// Returns the English name of the month of `at` in three letters, such as `Jan`.
fn month_name(at: DateTime) -> &'static str
    ensures { result.now ≡ slice_index_or months (at.date.month - 1) [] }
{
    MONTHS[at.month() as usize - 1]
}

/// Returns a moment in UTC, as `31-Dec-23 23:59`: the day, the English name of the month in three letters,
/// the last two digits of the year (without its sign), the hour and the minute. Seconds are left out, so each
/// text means the minute that it names, also before 1970. Returns `AllocError` if memory is refused.
pub fn date_text(alloc: Global, at: Timestamp) -> Result<String, AllocError>
    ensures date { IfOk result (λ text. IsDateText at.nanosecond (string_bytes text)) }
{
    let shown = Offset::UTC.to_datetime(at);
    let mut text = String::new(alloc);
    push_two_digits(&mut text, shown.day() as u8)?;
    text.push_str("-")?;
    text.push_str(month_name(shown))?;
    text.push_str("-")?;
    push_two_digits(&mut text, (shown.year().unsigned_abs() % 100) as u8)?;
    text.push_str(" ")?;
    push_two_digits(&mut text, shown.hour() as u8)?;
    text.push_str(":")?;
    push_two_digits(&mut text, shown.minute() as u8)?;
    Ok(text)
}

/// Returns `moment` in UTC as a date like `31-Dec-23 23:59`, or an empty text for `None`. Returns
/// `AllocError` if memory is refused.
pub fn date_of(alloc: Global, moment: Option<Timestamp>) -> Result<String, AllocError>
    ensures date { IfOk result (λ text. IsDateOf moment (string_bytes text)) }
{
    match moment {
        Some(at) => date_text(alloc, at),
        None => Ok(String::new(alloc)),
    }
}

/// Returns the clock's moment, or `None` if the clock fails or its time is later than a [`Timestamp`] can be.
pub fn moment_now<C: Clock>(clock: &C) -> Option<Timestamp> {
    Timestamp::now(clock).ok()
}

/// Returns the clock's moment in UTC as a date like `31-Dec-23 23:59`, or an empty text if the clock fails or
/// its time is too late for a [`Timestamp`]. Returns `AllocError` if memory is refused.
pub fn default_date<C: Clock>(clock: &C, alloc: Global) -> Result<String, AllocError>
    ensures date { IfOk result (λ text. IsDefaultDate (string_bytes text)) }
{
    date_of(alloc, moment_now(clock))
}
