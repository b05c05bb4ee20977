//! Reading back: the printed text of a row, of an epoch line and of an epoch is read as it was.

ghost use Rattle.std.specs.Prelude.{◌≡◌, ◌+◌, ◌++◌, List, Ok, length, map};
ghost use Rattle.crx_base.specs.meaning.AsRead.{ReadLine, Content};
ghost use Rattle.crx_rinex.specs.meaning.Observations.{Row, Epoch};
ghost use Rattle.crx_header.specs.meaning.ObservationTypes.{Count};
ghost use Rattle.crx_rinex.specs.meaning.EpochLines.{EpochHead, ObservationHead, IsObservationHead, head_of};
ghost use Rattle.crx_rinex.specs.meaning.SatelliteLines.{IsSoundRow, HasItsTypes, row_of};
ghost use Rattle.crx_rinex.specs.meaning.Epochs.{IsWholeEpoch};
ghost use Rattle.crx_rinex.specs.meaning.EpochPlaces.{epoch_place};
ghost use Rattle.crx_rinex.specs.meaning.Places.{Done};
ghost use Rattle.crx_rinex.specs.meaning.Printing.{printed_row, printed_head, printed_epoch};
ghost use Rattle.crx_rinex.specs.meaning.Units.{Observation};
ghost use Rattle.crx_laws.specs.Examples.{one_type, g02, epoch_of_two};

/// The printed line of a sound row, with a value for each type of its system, is read as that row: its
/// identifier, each value and each indicator.
pub fn a_row_is_read_back()
    ensures law { (types : List Count) (row : Row)
        → IsSoundRow row → HasItsTypes types row → row_of types (printed_row row) ≡ Ok row }
{}

/// A printed epoch line is read as its columns 1 to 41, the count of satellites in them, and its receiver
/// clock offset.
pub fn an_epoch_line_is_read_back()
    ensures law { (line : ObservationHead) → IsObservationHead line
        → head_of (printed_head line.head line.clock) ≡ Ok (EpochHead line.head line.count line.clock) }
{}

/// The printed lines of a whole epoch, whatever lines follow, are read as that epoch, and no further line is.
pub fn an_epoch_is_read_back()
    ensures law { (types : List Count) (epoch : Epoch) (after : List ReadLine) → IsWholeEpoch types epoch
        → epoch_place types (map Content (printed_epoch epoch) ++ after)
        ≡ Done (Observation epoch) (length epoch.rows + 1) }
{}

/// Shows that the premises can be met: by a row with a value and an indicator, and an epoch of two
/// satellites.
pub fn premises()
    ensures row { IsSoundRow g02 }
    ensures types { HasItsTypes one_type g02 }
    ensures epoch { IsWholeEpoch one_type epoch_of_two }
{}
