//! Epochs to compact lines.

use super::cases::{Table, both_forms, both_ways};
use super::*;
use crate::expecting::expect_at;
use crx_compact::Coded;
use std::process::Abort;
use std::test::Fail;

/// Returns whether these lines are next, and no others.
fn are_next(coded: &mut Coded, lines: &str) -> bool {
    for line in lines.split('|') {
        if coded.next_line() != Some(line.as_bytes()) {
            return false;
        }
    }
    coded.next_line().is_none()
}

fn is_encoded(
    alloc: Global,
    columns: &mut Columns,
    types: &Types,
    full: bool,
    rinex: &str,
    compact: &str,
) -> bool {
    let Ok(epoch) = epoch_of(alloc, types, rinex) else {
        return false;
    };
    if !epoch.value.is_full() || !columns.is_idle() {
        return false;
    }
    match columns.encode(epoch.into_value(), full) {
        Ok(coded) => {
            let mut coded = Owned::of(coded);
            let is_so = are_next(&mut coded.value, compact);
            let _ = Owned::of(coded.into_value().into_epoch());
            is_so
        }
        Err((epoch, _)) => {
            let _ = Owned::of(epoch);
            false
        }
    }
}

/// Expects that the epochs of a table, one after another, have their compact lines.
fn expect_encoded(rt: &impl Abort, alloc: Global, types: &Types, table: &Table) {
    let mut owner = no_columns(alloc);
    for (place, epoch) in table.epochs.iter().enumerate() {
        let (rinex, compact) = both_forms(epoch);
        let full = table.is_full(place);
        let is_so = is_encoded(alloc, &mut owner.value, types, full, rinex, compact);
        expect_at(rt, is_so, table.shows, place);
    }
}

#[test]
fn epochs_encoded(rt: HostRuntime) -> Result<(), Fail> {
    let types = types_of(rt.alloc(), ONE_TYPE)?;
    for table in both_ways() {
        expect_encoded(&rt, rt.alloc(), &types.value, table);
    }
    Ok(())
}
