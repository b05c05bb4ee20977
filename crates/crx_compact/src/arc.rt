//! Arcs (Hatanaka's Compact RINEX 3.0, data arcs): values to coded values and back. An arc is stored as its
//! order and its latest differences of order 0, 1, .. up to it.

ghost use Rattle.std.specs.Prelude.{◌≡◌, ◌≤◌, ◌<◌, ◌+◌, ◌*◌, ◌^◌, ◌∷◌, [], ℤ, List, Option, None, Some, Ok, Err, length, take, IfSome, OnSome, IfNone, OnOk, OnErr, IsTrue, ◌↔◌};
ghost use Rattle.crx_text.specs.Codes.{IsPrintable, IsShort};
ghost use Rattle.crx_text.specs.meaning.Numbers.{IsMissingOrWithin, IsWithin};
ghost use Rattle.crx_compact.specs.ArcTails.{HasThird};
ghost use Rattle.crx_base.specs.declared.fault.Fault.TheVariants.{OutOfRange};
ghost use Rattle.crx_compact.specs.Arcs.{AreBelow, IsBelow, value_bound};
ghost use Rattle.crx_compact.specs.meaning.Differences.{code_at, newest};
ghost use Rattle.crx_compact.specs.meaning.ArcValues.{is_within, value_of};
ghost use Rattle.crx_compact.specs.ArcLaws.{accepted, arc_of_codes, arc_of_values};
ghost use Rattle.crx_compact.specs.meaning.Sequences.{stretch};
ghost use Rattle.crx_text.specs.declared.code.Code.{Code};
ghost use Rattle.crx_text.specs.declared.code.Code.TheVariants.{Step};
ghost use Rattle.crx_base.specs.declared.limits.TheConstants.{CLOCK_WIDTH, DIGITS_LIMIT, ORDER_LIMIT, WRITTEN_ORDER};
ghost use Rattle.crx_compact.specs.ArcSteps.{shown_value};
ghost use Rattle.crx_compact.specs.ArcSteps.{arc_of_code, arc_of_value, code_of_value, differences_after, differences_by, highest, value_of_code};

use crx_base::Fault;
use crx_base::limits::{CLOCK_WIDTH, OBSERVATION_WIDTH, ORDER_LIMIT, WRITTEN_ORDER};
use crx_text::Code;
use std::marker::Model;

/// The greatest number of differences that an arc stores: those of order 0 to [`ORDER_LIMIT`].
const KEPT_LIMIT: usize = ORDER_LIMIT as usize + 1;

/// Order 3 and four differences, as two bytes of one number. Nearly every arc has these from its fourth
/// value on.
const THIRD: u16 = 0x0403;

/// The arc of an observation, in thousandths of its unit.
pub type ObsArc = Arc<OBSERVATION_WIDTH>;

/// The arc of the receiver clock offset, in units of 10^-12 seconds.
pub type ClockArc = Arc<CLOCK_WIDTH>;

/// An arc of values that fit a field of `WIDTH` columns: its order, and its latest differences of order 0,
/// 1, .. up to it or as far as its values go. It allocates nothing.
#[derive(Drop)]
pub struct Arc<const WIDTH: usize> {
    // Both are compared as one number (`THIRD`). They precede the differences, so that most arcs are read
    // and written in the first half of their bytes.
    order: u8,
    count: u8,
    differences: [i64; KEPT_LIMIT],
}

impl<const WIDTH: usize> Model for Arc<WIDTH> {
    ghost use Rattle.std.specs.Prelude.{Option, take};
    ghost use Rattle.crx_compact.specs.ArcTails.{ArcTail};
    ghost use Rattle.crx_compact.specs.Arcs.{kept_tail, IsArcInRange};

    ghost Value = { Option ArcTail };

    ghost view = { λ arc. kept_tail arc.order (take arc.count arc.differences) };

    ghost invariant = { λ arc. IsArcInRange WIDTH arc.order arc.count (take arc.count arc.differences) };
}

/// Replaces the first `order` differences, of order 0, 1, .. at the previous value, by the differences of
/// order 0 to `order` at `value`, and returns the last of these, which is `value` if `order` is 0. `order`
/// has to be at most [`ORDER_LIMIT`].
fn advance_differences(differences: &mut [i64; KEPT_LIMIT], order: usize, value: i64) -> i64
    requires few { order ≤ ORDER_LIMIT }
    requires below { AreBelow value_bound (take order differences.old) }
    requires next { IsBelow value_bound value }
    ensures after { take (order + 1) differences.new ≡ differences_after value (take order differences.old) }
    ensures highest { result ≡ highest (differences_after value (take order differences.old)) }
{
    let mut next = value;
    for index in 0..order {
        let before = differences[index];
        differences[index] = next;
        next -= before;
    }
    differences[order] = next;
    next
}

/// Replaces the first four of `differences`, which has at least four: `value` has order 0, the others have
/// order 1 to 3.
#[inline(always)]
fn put_four(differences: &mut [i64], value: i64, first: i64, second: i64, third: i64)
    requires { 3 < length differences.old }
    ensures { take 4 differences.new ≡ value ∷ first ∷ second ∷ third ∷ [] }
{
    differences[0] = value;
    differences[1] = first;
    differences[2] = second;
    differences[3] = third;
}

/// Returns the next value of an arc: the sum of `number`, its next difference, and `differences`, the latest
/// differences of all lower orders; `number` itself if there are none.
fn value_after(differences: &[i64], number: i64) -> i64
    requires few { length differences.now ≤ ORDER_LIMIT }
    requires below { AreBelow value_bound differences.now }
    requires short { IsBelow (10 ^ DIGITS_LIMIT) number }
    ensures { result ≡ newest (differences_by number differences.now) }
{
    let mut value = number;
    for difference in differences {
        value += *difference;
    }
    value
}

impl<const WIDTH: usize> Arc<WIDTH> {
    /// Returns an arc without values.
    pub fn new() -> Self
        requires { WIDTH ≤ CLOCK_WIDTH }
        ensures empty { result ≡ None }
    {
        Arc {
            count: 0,
            order: 0,
            differences: [0; KEPT_LIMIT],
        }
    }

    /// Returns the coded value of `value`, which the arc then contains; `value` has to fit `WIDTH` columns.
    /// If it is missing, this is `Missing`, and the arc ends. A first value is coded as itself, with the
    /// order [`WRITTEN_ORDER`]; any other as the next difference of the arc's order, or of a lower one while
    /// the arc has too few values.
    #[inline(always)]
    pub fn push(&mut self, value: Option<i64>) -> Code
        requires { IsMissingOrWithin WIDTH value }
        ensures code { result ≡ code_of_value value self.old }
        ensures printable { IsPrintable result }
        ensures arc { self.new ≡ arc_of_value value self.old }
        // `values`: any earlier values, missing ones included, newest first.
        ensures every { (values : List (Option ℤ)) → self.old ≡ arc_of_values values
            → (result ≡ code_at WRITTEN_ORDER (stretch (value ∷ values)))
            × (self.new ≡ arc_of_values (value ∷ values)) }
    {
        let Some(value) = value else {
            self.count = 0;
            return Code::Missing;
        };
        if self.count == 0 {
            self.differences[0] = value;
            self.order = WRITTEN_ORDER;
            self.count = 1;
            return Code::Start {
                order: WRITTEN_ORDER,
                value,
            };
        }
        let last = self.order.min(self.count);
        let highest = advance_differences(&mut self.differences, last as usize, value);
        self.count = last + 1;
        Code::Step(highest)
    }

    /// Adds `value`, which has to fit `WIDTH` columns, to the arc and returns its difference of order 3,
    /// which is its coded value, without a loop. Returns `None`, with the arc unchanged, if the arc has
    /// another order than 3 or fewer than four values.
    #[inline(always)]
    pub(crate) fn push_third(&mut self, value: i64) -> Option<i64>
        requires { IsWithin WIDTH value }
        ensures code { IfSome result (λ number. code_of_value (Some value) self.old ≡ Step number) }
        ensures short { IfSome result IsShort }
        ensures arc { OnSome result (self.new ≡ arc_of_value (Some value) self.old) }
        ensures none { IfNone result ((self.new ≡ self.old) × (HasThird self.old → ⊥)) }
    {
        if u16::from_le_bytes([self.order, self.count]) != THIRD {
            return None;
        }
        let first = value - self.differences[0];
        let second = first - self.differences[1];
        let third = second - self.differences[2];
        put_four(&mut self.differences, value, first, second, third);
        Some(third)
    }

    /// Returns the value that `code` codes, which the arc then contains, or `None` for `Missing`, which ends
    /// the arc. A start begins a new arc, even in the middle of one.
    ///
    /// Returns `NoArc` for a difference if the arc has no values, and `OutOfRange` if the value doesn't fit
    /// `WIDTH` columns. The arc is then unchanged.
    #[inline(always)]
    pub fn apply(&mut self, code: Code) -> Result<Option<i64>, Fault>
        requires { IsPrintable code }
        ensures value { result ≡ value_of_code WIDTH code self.old }
        ensures ok { OnOk result (self.new ≡ arc_of_code code self.old) }
        ensures err { OnErr result (self.new ≡ self.old) }
        // `codes`: any earlier coded values, newest first; refused ones have no effect.
        ensures every { (codes : List Code) → self.old ≡ arc_of_codes WIDTH codes
            → (result ≡ value_of WIDTH (code ∷ accepted WIDTH codes))
            × (self.new ≡ arc_of_codes WIDTH (code ∷ codes)) }
    {
        match code {
            Code::Missing => {
                self.count = 0;
                Ok(None)
            }
            Code::Start { order, value } => {
                if !is_within(WIDTH, value) {
                    return Err(Fault::OutOfRange);
                }
                self.differences[0] = value;
                self.order = order;
                self.count = 1;
                Ok(Some(value))
            }
            Code::Step(number) => {
                if self.count == 0 {
                    return Err(Fault::NoArc);
                }
                let last = self.order.min(self.count);
                let value = value_after(&self.differences[..last as usize], number);
                if !is_within(WIDTH, value) {
                    return Err(Fault::OutOfRange);
                }
                advance_differences(&mut self.differences, last as usize, value);
                self.count = last + 1;
                Ok(Some(value))
            }
        }
    }

    /// Adds to the arc the value that `number`, a difference of order 3, codes, and returns the value,
    /// without a loop. Returns `None`, with the arc unchanged, if the arc has another order than 3 or fewer
    /// than four values, or if the value doesn't fit `WIDTH` columns.
    #[inline(always)]
    pub(crate) fn apply_third(&mut self, number: i64) -> Option<i64>
        requires { IsShort number }
        ensures value { IfSome result
            (λ value. value_of_code WIDTH (Step number) self.old ≡ Ok (Some value)) }
        ensures arc { OnSome result (self.new ≡ arc_of_code (Step number) self.old) }
        ensures none { IfNone result ((self.new ≡ self.old)
            × (HasThird self.old → value_of_code WIDTH (Step number) self.old ≡ Err OutOfRange)) }
    {
        if u16::from_le_bytes([self.order, self.count]) != THIRD {
            return None;
        }
        let second = self.differences[2] + number;
        let first = self.differences[1] + second;
        let value = self.differences[0] + first;
        if !is_within(WIDTH, value) {
            return None;
        }
        put_four(&mut self.differences, value, first, second, number);
        Some(value)
    }

    /// Returns the newest value, or `None` if the arc has no values.
    #[inline(always)]
    pub fn value(&self) -> Option<i64>
        ensures value { result ≡ shown_value self.now }
        ensures ranged { IsMissingOrWithin WIDTH result }
    {
        if self.count == 0 {
            return None;
        }
        Some(self.differences[0])
    }

    /// Ends the arc, which then has no values; the next one begins a new arc.
    #[inline(always)]
    pub fn end(&mut self)
        ensures ended { self.new ≡ None }
    {
        self.count = 0;
    }
}

/// Returns whether `value` fits `width` columns: the point takes one of them, and a minus sign another.
#[inline(always)]
fn is_within(width: usize, value: i64) -> bool
    requires { width ≤ CLOCK_WIDTH }
    ensures { result ≡ is_within width value }
{
    let width = width as u32;
    let lowest = -10i64.pow(width.saturating_sub(2));
    let highest = 10i64.pow(width.saturating_sub(1));
    lowest < value && value < highest
}
