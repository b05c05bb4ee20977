//! The names of crx_compact: arcs, and compact lines both ways.

ghost use Rattle.std.specs.Prelude.{◌≡◌, ◌≤◌, false, length, true};
ghost use Rattle.crx_base.specs.declared.limits.TheConstants.{CLOCK_WIDTH, LINE_LIMIT, OBSERVATION_WIDTH};
ghost use Rattle.crx_header.specs.meaning.EpochColumns.{is_event_line};
ghost use Rattle.crx_compact.specs.OpenEpochs.{is_idle};
ghost use Rattle.crx_rinex.specs.Epochs.{is_full_epoch};
ghost use Rattle.crx_text.specs.Codes.{IsPrintable};
ghost use Rattle.crx_text.specs.meaning.Numbers.{IsMissingOrWithin};

use crx_compact::{ClockArc, Coded, Columns, ObsArc};
use crx_rinex::{Epoch, Types};
use crx_text::{Code, Fault};
use std::alloc::Global;

fn arc() -> ObsArc {
    ObsArc::new()
}

fn push(arc: &mut ObsArc, value: Option<i64>) -> Code
    requires { IsMissingOrWithin OBSERVATION_WIDTH value }
{
    arc.push(value)
}

fn apply(arc: &mut ObsArc, code: Code) -> Result<Option<i64>, Fault>
    requires { IsPrintable code }
{
    arc.apply(code)
}

fn clock_arc() -> ClockArc {
    ClockArc::new()
}

fn push_clock(arc: &mut ClockArc, value: Option<i64>) -> Code
    requires { IsMissingOrWithin CLOCK_WIDTH value }
{
    arc.push(value)
}

fn apply_clock(arc: &mut ClockArc, code: Code) -> Result<Option<i64>, Fault>
    requires { IsPrintable code }
{
    arc.apply(code)
}

fn columns(alloc: Global) -> Columns {
    Columns::new(alloc)
}

fn reset(columns: &mut Columns) {
    columns.reset();
}

fn is_between_epochs(columns: &Columns) -> bool {
    columns.is_idle()
}

fn encode(columns: &mut Columns, epoch: Epoch, full: bool) -> Result<Coded, (Epoch, Fault)>
    requires whole { is_full_epoch epoch ≡ true }
    requires idle { is_idle columns.old ≡ true }
{
    columns.encode(epoch, full)
}

fn next_line(coded: &mut Coded) -> Option<&[u8]> {
    coded.next_line()
}

fn begin(columns: &mut Columns, types: &Types, line: &[u8]) -> Result<(), Fault>
    requires idle { is_idle columns.old ≡ true }
    requires short { length line.now ≤ LINE_LIMIT }
    requires no_event { is_event_line line.now ≡ false }
{
    columns.begin(types, line)
}

fn feed(columns: &mut Columns, line: &[u8]) -> Result<Option<Epoch>, Fault>
    requires open { is_idle columns.old ≡ false }
    requires short { length line.now ≤ LINE_LIMIT }
{
    columns.feed(line)
}
