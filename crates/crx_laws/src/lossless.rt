//! Losslessness, by the results of the three calls only.

ghost use Rattle.std.specs.Prelude.{◌≡◌, ◌∷◌, ◌++◌, [], true, codes};
ghost use Rattle.crx_base.specs.meaning.Lines.{lines_text};
ghost use Rattle.crx_filter.specs.meaning.Lossless.{WhatPassesComesBack};
ghost use Rattle.crx_laws.specs.SmallFiles.{header, epoch_line_at, observed, plain_choices};
ghost use Rattle.crx_base.specs.meaning.Choices.{is_date};
ghost use Rattle.crx_filter.specs.meaning.Standard.{checked};

/// A file that a check passes, with status 0, is restored byte for byte from its compact text, with no
/// message and status 0, for any options of both: the distance of full epochs, whether faults are skipped,
/// and the date.
pub fn what_passes_comes_back()
    ensures law { WhatPassesComesBack }
{}

/// Shows that the premises can be met: by a date, and by a file that a check passes.
pub fn premises()
    ensures date { is_date plain_choices.date ≡ true }
    ensures passed { (checked (lines_text
        (header ++ epoch_line_at 0 1 ∷ observed (codes "1.000") ∷ []))).status ≡ 0 }
{}
