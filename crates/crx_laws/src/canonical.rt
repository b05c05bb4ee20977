//! Compact text is canonical.

ghost use Rattle.std.specs.Prelude.{◌≡◌, ◌∷◌, ◌++◌, [], ℕ, List, true, codes};
ghost use Rattle.crx_base.specs.meaning.Lines.{lines_text};
ghost use Rattle.crx_filter.specs.meaning.Canonical.{CompactsAsNormal, IsCanonical};
ghost use Rattle.crx_laws.specs.SmallFiles.{header, epoch_line_at, observed, plain_choices};
ghost use Rattle.crx_base.specs.meaning.Choices.{Choices, is_date};
ghost use Rattle.crx_filter.specs.meaning.Standard.{normal_form};
ghost use Rattle.crx_filter.specs.meaning.WayBack.{HasNormalForm};

/// The normal form of a file has the same compact text as the file, with any options.
pub fn the_normal_form_compacts_the_same()
    ensures law { (file : List ℕ) (choices : Choices) → CompactsAsNormal file choices }
{}

/// Two files have the same compact text if and only if they have the same normal form.
pub fn compact_text_is_canonical()
    ensures law { (one other : List ℕ) (choices : Choices) → IsCanonical one other choices }
{}

/// Shows that the premises can be met: by a date, and by two files that differ in the spelling of a number
/// and have the same normal form.
pub fn premises()
    ensures date { is_date plain_choices.date ≡ true }
    ensures one { HasNormalForm (lines_text (header ++ epoch_line_at 0 1 ∷ codes "G01        01.000" ∷ [])) }
    ensures other { HasNormalForm (lines_text (header ++ epoch_line_at 0 1 ∷ observed (codes "1.000") ∷ [])) }
    ensures same { normal_form (lines_text (header ++ epoch_line_at 0 1 ∷ codes "G01        01.000" ∷ []))
        ≡ normal_form (lines_text (header ++ epoch_line_at 0 1 ∷ observed (codes "1.000") ∷ [])) }
{}
