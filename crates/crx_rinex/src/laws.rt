//! Laws over the definitions of this crate: each is the contract of a function that does nothing.

ghost use Rattle.std.specs.Prelude.{◌≡◌};
ghost use Rattle.crx_rinex.specs.Holdings.{types_with, row_with_parts, row_buffer_with, identifiers_with, epoch_line_with, epoch_with};
ghost use Rattle.crx_header.specs.declared.types.Types.TheInside.{Inside as TypesInside};
ghost use Rattle.crx_rinex.specs.declared.satellite_row.SatRow.TheInside.{Inside as SatRowInside};
ghost use Rattle.crx_rinex.specs.declared.row_buffer.RowBuffer.TheInside.{Inside as RowBufferInside};
ghost use Rattle.crx_header.specs.declared.identifiers.Identifiers.TheInside.{Inside as IdentifiersInside};
ghost use Rattle.crx_rinex.specs.declared.epoch_line.EpochLine.TheInside.{Inside as EpochLineInside};
ghost use Rattle.crx_rinex.specs.declared.epoch.Epoch.TheInside.{Inside as EpochInside};

/// Does nothing at run time. Its contract states which parts the types, rows, row buffers, sets of
/// identifiers, epoch lines and epochs have: a value that takes over these parts of another is equal to it,
/// so there are no further parts.
pub fn epochs_hold()
    ensures types { (one other : TypesInside) → types_with one other ≡ other }
    ensures row { (one other : SatRowInside) → row_with_parts one other ≡ other }
    ensures buffer { (one other : RowBufferInside) → row_buffer_with one other ≡ other }
    ensures identifiers { (one other : IdentifiersInside) → identifiers_with one other ≡ other }
    ensures line { (one other : EpochLineInside) → epoch_line_with one other ≡ other }
    ensures epoch { (one other : EpochInside) → epoch_with one other ≡ other }
{}
