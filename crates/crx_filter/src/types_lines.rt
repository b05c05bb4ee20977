//! Lines that may declare observation types, in either direction: header lines and records of events.

ghost use Rattle.std.specs.Option.{is_some};
ghost use Rattle.std.specs.Prelude.{◌≡◌, ◌⊎◌, ◌&&◌, None, Some, true, false, if◌then◌else◌, OnOk, OnErr, IfOk, IfErr};
ghost use Rattle.crx_header.specs.meaning.Header.{is_end_of_header};
ghost use Rattle.crx_header.specs.meaning.ObservationTypes.{count_of_types_line};
ghost use Rattle.crx_header.specs.ObservationTypes.{with_line};
ghost use Rattle.crx_filter.specs.LineByLine.{BetweenUnits, InHeader};
ghost use Rattle.crx_filter.specs.Stages.{IsClosedStage};
ghost use Rattle.crx_filter.specs.meaning.Expanded.{empties_state};
ghost use Rattle.crx_filter.specs.meaning.UnitPlaces.{header_line_fault, types_fault};

use crate::stage::Stage;
use crx_base::Fault;
use crx_header::{Types, header_first, is_end, is_types};

/// Reads a header line into `types` and returns the next stage. Returns the faults of [`header_first`] if
/// `is_first`, then `BadTypesLine`, and `OutOfMemory` only at a types line; then `types` is unchanged.
pub fn accept_header_line(types: &mut Types, is_first: bool, line: &[u8]) -> Result<Stage, Fault>
    ensures stage { IfOk result (λ stage. IsClosedStage stage
        (if is_end_of_header line.now then BetweenUnits else InHeader false)
        (if is_end_of_header line.now then BetweenUnits else InHeader false)) }
    ensures good { OnOk result (header_line_fault is_first line.now ≡ None) }
    ensures ok { OnOk result (types.new ≡ with_line types.old line.now) }
    ensures same { OnErr result (types.new ≡ types.old) }
    ensures refused { IfErr result (λ fault. (header_line_fault is_first line.now ≡ Some fault)
        ⊎ ((fault ≡ Fault.OutOfMemory) × (is_some (count_of_types_line line.now) ≡ true))) }
{
    if is_first {
        header_first(line)?;
    }
    types.accept_line(line)?;
    if is_end(line) {
        return Ok(Stage::Between);
    }
    Ok(Stage::Header { is_first: false })
}

/// Reads a record of an event. `counted`: types lines among the records count. Returns whether the record is
/// a types line that counts, whose count it then stores, or at such a line `BadTypesLine` or `OutOfMemory`.
/// After a fault `types` is unchanged.
pub fn accept_record(types: &mut Types, counted: bool, line: &[u8]) -> Result<bool, Fault>
    ensures types { IfOk result (λ is_accepted. is_accepted ≡ empties_state counted line.now) }
    ensures good { OnOk result ((if counted then types_fault line.now else None) ≡ None) }
    ensures ok { OnOk result (types.new ≡ (if counted then with_line types.old line.now else types.old)) }
    ensures same { OnErr result (types.new ≡ types.old) }
    ensures refused { IfErr result (λ fault. ((if counted then types_fault line.now else None) ≡ Some fault)
        ⊎ ((fault ≡ Fault.OutOfMemory) × ((counted && is_some (count_of_types_line line.now)) ≡ true))) }
{
    if !(counted && is_types(line)) {
        return Ok(false);
    }
    types.accept_line(line)?;
    Ok(true)
}
