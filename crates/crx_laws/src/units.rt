//! Compact text as the units of a file in order.

ghost use Rattle.std.specs.Prelude.{◌≡◌, ◌∷◌, ◌++◌, [], ℕ, List, codes};
ghost use Rattle.crx_base.specs.meaning.Lines.{lines_text};
ghost use Rattle.crx_filter.specs.meaning.UnitsAndText.{MakeAFile, TextsOfUnits, IsStandardByUnits, rinex_text, compact_text};
ghost use Rattle.crx_laws.specs.SmallFiles.{header, first_two, full_line_at, second_changed, comment_event, with_event, units_with_event, plain_choices};
ghost use Rattle.crx_base.specs.meaning.Choices.{Choices};
ghost use Rattle.crx_rinex.specs.meaning.Observations.{Epoch};
ghost use Rattle.crx_rinex.specs.meaning.Units.{Unit};

/// Units that make a file have a RINEX text and a compact text. A compaction makes the second from the first,
/// and an expansion the first from the second, with any options.
pub fn units_and_text()
    ensures law { (units : List (Unit Epoch)) (compacting expanding : Choices)
        → TextsOfUnits units compacting expanding }
{}

/// The standard files are the RINEX texts of the units that make a file.
pub fn standard_files_are_units()
    ensures law { (file : List ℕ) → IsStandardByUnits file }
{}

/// Shows that the premises can be met: by a header, two epochs, an event with a record, and one more epoch;
/// and shows the two texts of these units.
pub fn premises()
    ensures met { MakeAFile units_with_event }
    ensures rinex { rinex_text units_with_event ≡ lines_text with_event }
    ensures compact { compact_text plain_choices units_with_event ≡ lines_text (first_two ++ header
        ++ full_line_at 0 1 (codes "G01") ∷ [] ∷ codes "3&20000000000"
        ∷ second_changed 1 ∷ [] ∷ codes "100500"
        ∷ (comment_event ++ full_line_at 2 1 (codes "G01") ∷ [] ∷ codes "3&20000202000" ∷ [])) }
{}
