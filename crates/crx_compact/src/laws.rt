//! Laws over the definitions of this crate: each is the contract of a function that does nothing.

ghost use Rattle.std.specs.Prelude.{◌≡◌};
ghost use Rattle.crx_compact.specs.Holdings.{satellite_with, satellites_with, history_with, block_with, columns_with, encoder_with, ghost_tail_with, rows_with};
ghost use Rattle.crx_compact.specs.declared.encoder.Encoder.TheInside.{Inside as EncoderInside};
ghost use Rattle.crx_compact.specs.declared.ghost_tail.GhostTail.{GhostTail};
ghost use Rattle.crx_rinex.specs.declared.rows_so_far.RowsSoFar.{RowsSoFar};
ghost use Rattle.crx_compact.specs.declared.satellite.SatelliteHistory.TheInside.{Inside as SatelliteHistoryInside};
ghost use Rattle.crx_compact.specs.declared.satellites.Satellites.TheInside.{Inside as SatellitesInside};
ghost use Rattle.crx_compact.specs.declared.history.History.TheInside.{Inside as HistoryInside};
ghost use Rattle.crx_compact.specs.declared.block.Block.TheInside.{Inside as BlockInside};
ghost use Rattle.crx_compact.specs.declared.columns.Columns.TheInside.{Inside as ColumnsInside};

/// Does nothing at run time. Its contract states which parts columns, their history, their lines and an
/// encoder have: a value that takes over these parts of another is equal to it, so there are no further
/// parts.
pub fn columns_hold()
    ensures satellite { (one other : SatelliteHistoryInside) → satellite_with one other ≡ other }
    ensures satellites { (one other : SatellitesInside) → satellites_with one other ≡ other }
    ensures history { (one other : HistoryInside) → history_with one other ≡ other }
    ensures block { (one other : BlockInside) → block_with one other ≡ other }
    ensures columns { (one other : ColumnsInside) → columns_with one other ≡ other }
    ensures rows { (one other : RowsSoFar) → rows_with one other ≡ other }
    ensures tail { (one other : GhostTail) → ghost_tail_with one other ≡ other }
    ensures encoder { (one other : EncoderInside) → encoder_with one other ≡ other }
{}
