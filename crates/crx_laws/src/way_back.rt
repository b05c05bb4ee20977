//! The way back.

ghost use Rattle.std.specs.Prelude.{◌≡◌, ◌∷◌, ◌++◌, [], List, ℕ, None, true, codes, map};
ghost use Rattle.crx_base.specs.meaning.AsRead.{as_read};
ghost use Rattle.crx_base.specs.meaning.Lines.{lines_of};
ghost use Rattle.crx_base.specs.meaning.Choices.{Choices, is_date};
ghost use Rattle.crx_filter.specs.meaning.Compacted.{whole_rinex, compacted};
ghost use Rattle.crx_filter.specs.meaning.Expanded.{expanded};
ghost use Rattle.crx_laws.specs.SmallFiles.{blanks, header, epoch_line_at, observed, line_at, plain_choices};
ghost use Rattle.crx_base.specs.meaning.Lines.{lines_text};
ghost use Rattle.crx_filter.specs.meaning.Standard.{whole_of, IsStandard};
ghost use Rattle.crx_filter.specs.WayBack.{ComesBack, NormalFormComesBack, StandardComesBack, IsStandardWhereSame};
ghost use Rattle.crx_filter.specs.meaning.WayBack.{HaveNoReturns};

/// Compacted units are restored: if no fault ends the compaction, the expansion of its compact text writes
/// each accepted unit as RINEX prints it, reports nothing, and ends with status 0. Faults may be skipped or
/// not, in both directions, and any epochs may be full. No content of a header line, event line or record may
/// end in CR.
pub fn what_was_compacted_comes_back()
    ensures law { (input : List ℕ) (compacting expanding : Choices) → ComesBack input compacting expanding }
{}

/// A file that is read to its good end is restored in its normal form, with any options in both directions.
pub fn the_normal_form_comes_back()
    ensures law { (input : List ℕ) (compacting expanding : Choices)
        → NormalFormComesBack input compacting expanding }
{}

/// A standard file is restored byte for byte, with any options in both directions: the distance of full
/// epochs, whether faults are skipped, and the date.
pub fn a_standard_file_comes_back()
    ensures law { (input : List ℕ) (compacting expanding : Choices)
        → StandardComesBack input compacting expanding }
{}

/// The converse: if a file that is read to its good end is restored byte for byte, with any options, it is
/// standard. A file with a header line, event line or record whose content ends in CR never is, because it is
/// restored with fewer CRs.
pub fn what_comes_back_is_standard()
    ensures law { (input : List ℕ) (compacting expanding : Choices)
        → IsStandardWhereSame input compacting expanding }
{}

/// Shows that the premises can be met: by a date; by a standard file; and, if faults are skipped, by a file
/// with two warnings, an event and no line that ends in CR.
pub fn premises()
    ensures date { is_date (plain_choices.date) ≡ true }
    ensures standard { IsStandard (lines_text (header ++ epoch_line_at 0 1 ∷ observed (codes "1.000") ∷ [])) }
    ensures no_returns { HaveNoReturns
        (whole_of (lines_text (header ++ epoch_line_at 0 1 ∷ observed (codes "1.000") ∷ []))).items }
    ensures same { (expanded (compacted (lines_text (header
        ++ epoch_line_at 0 1 ∷ observed (codes "1.000") ∷ [])) plain_choices).output plain_choices).output
        ≡ lines_text (header ++ epoch_line_at 0 1 ∷ observed (codes "1.000") ∷ []) }
    ensures skipped_good { (whole_rinex true
        (map as_read (lines_of (lines_text (header ++ epoch_line_at 0 1 ∷ codes ">" ∷ line_at 1 4 1 ∷ (blanks 60
        ++ codes "COMMENT") ∷ epoch_line_at 1 1 ∷ observed (codes "1.000") ∷ []))))).fault ≡ None }
    ensures skipped_kept { HaveNoReturns (whole_rinex true
        (map as_read (lines_of (lines_text (header ++ epoch_line_at 0 1 ∷ codes ">" ∷ line_at 1 4 1
        ∷ (blanks 60 ++ codes "COMMENT") ∷ epoch_line_at 1 1 ∷ observed (codes "1.000") ∷ []))))).items }
{}
