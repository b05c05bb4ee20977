//! The normal form of a file, the printed text of its units.
//!
//! A file has a normal form if it is read to its good end and no content of a header line, event line or
//! record ends in CR.

ghost use Rattle.std.specs.Prelude.{◌≡◌, ◌∷◌, ◌++◌, [], List, ℕ, codes};
ghost use Rattle.crx_laws.specs.SmallFiles.{header, epoch_line_at, observed};
ghost use Rattle.crx_filter.specs.meaning.WayBack.{HasNormalForm};
ghost use Rattle.crx_laws.specs.NormalForm.{IsReadAsNormal, IsStandardAsNormal, IsNormalForGood};
ghost use Rattle.crx_base.specs.meaning.Lines.{lines_text};
ghost use Rattle.crx_filter.specs.meaning.Standard.{normal_form};

/// The normal form is read as the same units as the file: each header line, event line and record, and each
/// epoch with its clock offset, values and indicators.
pub fn the_normal_form_reads_the_same()
    ensures law { (input : List ℕ) → IsReadAsNormal input }
{}

/// The normal form is a standard file.
pub fn the_normal_form_is_standard()
    ensures law { (input : List ℕ) → IsStandardAsNormal input }
{}

/// The normal form is its own normal form.
pub fn the_normal_form_stays()
    ensures law { (input : List ℕ) → IsNormalForGood input }
{}

/// Shows that the premises can be met, also by a file that isn't standard: its number has a superfluous zero
/// before the point, which its normal form doesn't have.
pub fn premises()
    ensures met { HasNormalForm (lines_text (header ++ epoch_line_at 0 1 ∷ codes "G01        01.000" ∷ [])) }
    ensures changed { normal_form (lines_text (header ++ epoch_line_at 0 1 ∷ codes "G01        01.000" ∷ []))
        ≡ lines_text (header ++ epoch_line_at 0 1 ∷ observed (codes "1.000") ∷ []) }
{}
