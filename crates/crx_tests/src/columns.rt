//! Epochs to compact lines and back by the calls of [`Columns`], one epoch after another as files have them,
//! with enough memory.

ghost use Rattle.std.specs.Prelude.{◌≡◌, None};
ghost use Rattle.crx_compact.specs.OpenEpochs.ColumnsState.{Idle};

use crate::owned::Owned;
use crx_base::Fault;
use crx_compact::Columns;
use crx_header::Types;
use crx_rinex::{Epoch, Head, SatRow};
use std::alloc::Global;

mod cases;
mod reading;
mod writing;

/// The line that declares one type of GPS.
const ONE_TYPE: &[u8] =
    b"G    1 C1C                                                  SYS / # / OBS TYPES";

/// Returns the counts of types that a line declares.
fn types_of(alloc: Global, line: &[u8]) -> Result<Owned<Types>, Fault> {
    let mut types = Owned::of(Types::new(alloc));
    types.value.accept_line(line)?;
    Ok(types)
}

fn no_columns(alloc: Global) -> Owned<Columns>
    ensures { result.value ≡ Idle None }
{
    Owned::of(Columns::new(alloc))
}

/// Returns the epoch of RINEX lines that are separated by `|`.
fn epoch_of(alloc: Global, types: &Types, lines: &str) -> Result<Owned<Epoch>, Fault> {
    let mut rows = lines.split('|');
    let Some(first) = rows.next() else {
        return Err(Fault::Truncated);
    };
    let Head::Epoch(head) = Head::read(first.as_bytes())? else {
        return Err(Fault::NotAnEpoch);
    };
    let mut epoch = Owned::of(Epoch::new(alloc, head));
    for line in rows {
        if epoch.value.is_full() {
            return Err(Fault::BadEpoch);
        }
        if let Err((_, fault)) = epoch
            .value
            .push(SatRow::read(alloc, types, line.as_bytes())?)
        {
            return Err(fault);
        }
    }
    Ok(epoch)
}
