//! Laws of reading RINEX: the unit at some lines, and the effect of an open epoch.

ghost use Rattle.std.specs.Prelude.{◌≡◌, ◌≤◌, ◌+◌, ◌∷◌, [], ℕ, List, Some, length};
ghost use Rattle.std.specs.Prelude.{Result};
ghost use Rattle.crx_base.specs.declared.fault.Fault.{Fault};
ghost use Rattle.crx_base.specs.meaning.AsRead.{ReadLine};
ghost use Rattle.crx_header.specs.meaning.ObservationTypes.{Count, system_letters};
ghost use Rattle.crx_header.specs.ObservationTypes.{AreCounts};
ghost use Rattle.crx_rinex.specs.meaning.Observations.{Epoch};
ghost use Rattle.crx_rinex.specs.meaning.Epochs.{IsWholeEpoch};
ghost use Rattle.crx_rinex.specs.meaning.Places.{Place, Done, Fails, NeedsMore, first_line, then_place};
ghost use Rattle.crx_laws.specs.Examples.{one_type, first_line_of_two, g01_line, g02_line, half_open, epoch_of_two};
ghost use Rattle.crx_base.specs.declared.fault.Fault.TheVariants.{Truncated, RepeatedSatellite};
ghost use Rattle.crx_rinex.specs.meaning.Units.{Observation};
ghost use Rattle.crx_rinex.specs.Steady.{IsSteady};
ghost use Rattle.crx_rinex.specs.meaning.EpochPlaces.{OpenEpoch, epoch_place, row_at, rest_at};
ghost use Rattle.crx_rinex.specs.EpochPlaces.{open_with};
ghost use Rattle.crx_rinex.specs.Laws.{IsWantedWhereOpen, IsDecidedByOpen};

/// The content of only the first line is certain when that line is read.
pub fn steady_first_line<X>()
    ensures law { (read : List ℕ → Result X Fault) → IsSteady (λ lines. first_line lines read) }
{}

/// Two things in turn are certain when the last line of the second is read.
pub fn steady_in_turn<X, Y>()
    ensures law { (first : List ReadLine → Place X) (next : X → List ReadLine → Place Y)
        → IsSteady first → ((x : X) → IsSteady (next x))
        → IsSteady (λ lines. then_place (first lines) lines next) }
{}

/// The epoch or event at some lines is certain when its last line is read.
pub fn steady_epochs()
    ensures law { (types : List Count) → IsSteady (epoch_place types) }
{}

/// The rows of an open epoch are certain when the last of them is read.
pub fn steady_rows()
    ensures row { (so_far : OpenEpoch) → IsSteady (row_at so_far) }
    ensures rest { (so_far : OpenEpoch) → IsSteady (rest_at so_far) }
{}

/// An epoch needs more lines if and only if it is open.
pub fn wanted_where_open()
    ensures law { (types : List Count) (lines : List ReadLine) → IsWantedWhereOpen types lines }
{}

/// An open epoch determines how the next line continues the lines so far.
pub fn next_line_by_open()
    ensures law { (types : List Count) (lines : List ReadLine) (line : ReadLine) (so_far : OpenEpoch)
        → open_with types lines ≡ Some so_far → IsDecidedByOpen types lines line so_far }
{}

/// An epoch that is read is whole: its line, its rows and their counts of types are sound, no satellite is
/// repeated, and it took its epoch line and one line for each satellite.
pub fn epochs_are_whole()
    ensures law { (types : List Count) → AreCounts types → (lines : List ReadLine) (epoch : Epoch) (count : ℕ)
        → epoch_place types lines ≡ Done (Observation epoch) count
        → IsWholeEpoch types epoch × (count ≡ length epoch.rows + 1) }
{}

/// Types are of at most the systems that have a letter.
pub fn few_systems()
    ensures law { (types : List Count) → AreCounts types → length types ≤ length system_letters }
{}

/// An epoch of two satellites is open after its first two lines, whole with the third, and cut off by another
/// epoch line or by its first satellite again.
pub fn an_epoch_of_two()
    ensures left_open { open_with one_type (first_line_of_two ∷ g01_line ∷ []) ≡ Some half_open }
    ensures wanted { epoch_place one_type (first_line_of_two ∷ g01_line ∷ []) ≡ NeedsMore }
    ensures whole { epoch_place one_type (first_line_of_two ∷ g01_line ∷ g02_line ∷ first_line_of_two ∷ [])
        ≡ Done (Observation epoch_of_two) 3 }
    ensures cut { epoch_place one_type
        (first_line_of_two ∷ g01_line ∷ first_line_of_two ∷ []) ≡ Fails 2 Truncated }
    ensures repeated { epoch_place one_type (first_line_of_two ∷ g01_line ∷ g01_line ∷ [])
        ≡ Fails 2 RepeatedSatellite }
    ensures counts { AreCounts one_type }
{}
