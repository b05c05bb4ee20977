//! Compact lines to epochs.

ghost use Rattle.std.specs.Bool.{OnTrue};
ghost use Rattle.std.specs.Prelude.{◌≡◌, ◌≤◌, length, false};
ghost use Rattle.crx_base.specs.declared.limits.TheConstants.{LINE_LIMIT};
ghost use Rattle.crx_header.specs.meaning.EpochColumns.{is_event_line};

use super::cases::{Table, both_forms, both_ways, read_alone};
use super::*;
use crate::expecting::expect_at;
use crx_base::limits::LINE_LIMIT;
use crx_laws::read_back::read_back;
use crx_rinex::{Printed, is_event_line};
use std::process::Abort;
use std::test::Fail;

/// Returns whether a line isn't too long and begins no event.
fn may_be_fed(line: &[u8]) -> bool
    ensures short { OnTrue result (length line.now ≤ LINE_LIMIT) }
    ensures no_event { OnTrue result (is_event_line line.now ≡ false) }
{
    line.len() <= LINE_LIMIT && !is_event_line(line)
}

/// Feeds one line, the first one of an epoch or a later one, and returns the epoch that it completes. Returns
/// its fault, or `LineTooLong` if it may not be fed.
fn take(columns: &mut Columns, types: &Types, line: &[u8]) -> Result<Option<Owned<Epoch>>, Fault> {
    if !may_be_fed(line) {
        return Err(Fault::LineTooLong);
    }
    if columns.is_idle() {
        columns.begin(types, line)?;
        return Ok(None);
    }
    match columns.feed(line)? {
        Some(epoch) => Ok(Some(Owned::of(epoch))),
        None => Ok(None),
    }
}

/// Feeds lines one after another, and returns the epoch that the last one completes. Returns a fault if an
/// epoch is complete before the last line.
fn take_all(
    columns: &mut Columns,
    types: &Types,
    lines: &str,
) -> Result<Option<Owned<Epoch>>, Fault> {
    let mut given = None;
    for line in lines.split('|') {
        if given.is_some() {
            return Err(Fault::Truncated);
        }
        given = take(columns, types, line.as_bytes())?;
    }
    Ok(given)
}

/// Returns whether there is an epoch, and it has these RINEX lines.
fn prints(given: Option<Owned<Epoch>>, want: &str) -> bool {
    let Some(epoch) = given else {
        return false;
    };
    let mut printed = Owned::of(Printed::new(epoch.into_value()));
    for line in want.split('|') {
        if printed.value.next_line() != Some(line.as_bytes()) {
            return false;
        }
    }
    printed.value.next_line().is_none()
}

fn is_read(columns: &mut Columns, types: &Types, compact: &str, rinex: &str) -> bool {
    match take_all(columns, types, compact) {
        Ok(given) => prints(given, rinex) && columns.is_idle(),
        Err(_) => false,
    }
}

/// Expects that the epochs of a table are read, one after another.
fn expect_read(rt: &impl Abort, alloc: Global, types: &Types, table: &Table) {
    let mut owner = no_columns(alloc);
    for (place, epoch) in table.epochs.iter().enumerate() {
        let (rinex, compact) = both_forms(epoch);
        let is_so = is_read(&mut owner.value, types, compact, rinex);
        expect_at(rt, is_so, table.shows, place);
    }
}

#[test]
fn epochs_read(rt: HostRuntime) -> Result<(), Fail> {
    let types = types_of(rt.alloc(), ONE_TYPE)?;
    for table in both_ways() {
        expect_read(&rt, rt.alloc(), &types.value, table);
    }
    for table in read_alone() {
        expect_read(&rt, rt.alloc(), &types.value, table);
    }
    Ok(())
}
