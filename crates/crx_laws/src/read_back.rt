//! The way back: one `Columns` reads the lines that another one made of an epoch.

ghost use Rattle.std.specs.Prelude.{◌≡◌, ◌⊎◌, ◌↔◌, ◌∷◌, List, Some, true, false, map, IfOk, IfErr, IsTrue};
ghost use Rattle.crx_base.specs.meaning.AsRead.{Content};
ghost use Rattle.crx_compact.specs.meaning.Compaction.{Marked, compact_epoch, since_full};
ghost use Rattle.crx_compact.specs.Laws.{AreWhole};
ghost use Rattle.crx_laws.specs.BorrowedLines.{AreReadable, HasGiven, IsReadable, IsFaultAt};
ghost use Rattle.crx_compact.specs.OpenEpochs.{is_idle, place_by_steps, tail_held};
ghost use Rattle.crx_compact.specs.OpenEpochs.ColumnsState.{Idle};
ghost use Rattle.crx_compact.specs.Tails.{tail_or_nothing};

use crx_base::Fault;
use crx_base::limits::LINE_LIMIT;
use crx_compact::{Coded, Columns};
use crx_header::Types;
use crx_rinex::{Epoch, is_event_line};

/// Returns whether a line has at most [`LINE_LIMIT`] bytes and isn't an event's first line.
fn is_readable(line: &[u8]) -> bool
    ensures { IsTrue result ↔ IsReadable line.now }
{
    line.len() <= LINE_LIMIT && !is_event_line(line)
}

/// Reads the pending lines of `coded` up to the end of their epoch, and returns it, or `None` if they end
/// before.
///
/// Returns the errors of [`Columns::begin`] and [`Columns::feed`], and `NotAnEpoch` at an unreadable line.
fn read_coded(
    columns: &mut Columns,
    types: &Types,
    coded: &mut Coded,
) -> Result<Option<Epoch>, Fault>
    requires idle { is_idle columns.old ≡ true }
    ensures given { IfOk result (λ given. HasGiven
        (place_by_steps types.now (tail_held columns.old) (map Content coded.old.lines)) columns.new given) }
    ensures refused { AreReadable coded.old.lines
        → IfErr result (λ fault. IsFaultAt (place_by_steps types.now
        (tail_held columns.old) (map Content coded.old.lines)) fault ⊎ (fault ≡ Fault.OutOfMemory)) }
{
    let Some(first) = coded.next_line() else {
        return Ok(None);
    };
    if !is_readable(first) {
        return Err(Fault::NotAnEpoch);
    }
    columns.begin(types, first)?;
    while let Some(line) = coded.next_line() {
        if !is_readable(line) {
            return Err(Fault::NotAnEpoch);
        }
        if let Some(epoch) = columns.feed(line)? {
            return Ok(Some(epoch));
        }
    }
    Ok(None)
}

/// Reads the compact lines of an encoded epoch, by the counts of types of its rows, and returns the epoch.
///
/// If the columns have the history of the earlier epochs, or the epoch is full, the only fault is
/// `OutOfMemory`. Otherwise the faults are those of [`Columns::begin`] and [`Columns::feed`], and
/// `NotAnEpoch` at an event's line or a line above the length limit. After such a fault at a later line than
/// the first, the columns stay inside an epoch.
pub fn read_back(
    columns: &mut Columns,
    types: &Types,
    coded: &mut Coded,
) -> Result<Option<Epoch>, Fault>
    requires idle { is_idle columns.old ≡ true }
    // After any epochs that are written so that they can be read, the lines are read as the newest of them,
    // and the reader then has the writer's history.
    ensures epoch { (m : Marked) (older : List Marked)
        → AreWhole types.now (since_full (m ∷ older)) → coded.old.lines ≡ compact_epoch (m ∷ older)
        → (m.in_full ≡ false → tail_held columns.old ≡ tail_or_nothing older)
        → IfOk result (λ given. (given ≡ Some m.epoch) × (columns.new ≡ Idle (tail_or_nothing (m ∷ older)))) }
    ensures refused { (m : Marked) (older : List Marked)
        → AreWhole types.now (since_full (m ∷ older)) → coded.old.lines ≡ compact_epoch (m ∷ older)
        → (m.in_full ≡ false → tail_held columns.old ≡ tail_or_nothing older)
        → IfErr result (λ fault. fault ≡ Fault.OutOfMemory) }
{
    read_coded(columns, types, coded)
}
