//! The meaning of a check, line by line, and the meaning of `standard yes`.

ghost use Rattle.std.specs.Prelude.{◌≡◌, [], List, ℕ, None, true};
ghost use Rattle.crx_base.specs.meaning.Lines.{InputLine};
ghost use Rattle.crx_filter.specs.meaning.Directions.{check_filter};
ghost use Rattle.crx_base.specs.meaning.Choices.{Choices, is_date};
ghost use Rattle.crx_filter.specs.CheckingLaws.{IsCheckedOn, IsCheckEnded, IsNamedWhereNot, IsStandardExactlyWhereSame};
ghost use Rattle.crx_laws.specs.SmallFiles.{file_of_five, plain_choices, returned_text};
ghost use Rattle.crx_base.specs.meaning.Lines.{lines_text};
ghost use Rattle.crx_runs.specs.Lawful.{IsLawful};
ghost use Rattle.crx_filter.specs.meaning.Standard.{whole_of};

/// A check works line by line: its findings after a line depend only on that line and the findings before it,
/// and its fault is the fault of reading all lines so far.
pub fn check_by_line()
    ensures law { (lines : List InputLine) (line : InputLine) → IsCheckedOn lines line }
{}

/// At the end of the input the fault is the fault of reading the whole file; without a fault the findings are
/// those of the whole file.
pub fn check_ends()
    ensures law { (lines : List InputLine) → IsCheckEnded lines }
{}

/// A file that is read to its good end is standard if and only if the check finds no line that isn't.
pub fn standard_files_are_named()
    ensures law { (input : List ℕ) → IsNamedWhereNot input }
{}

/// A file that is read to its good end is reported as standard, with status 0, if and only if the expansion
/// of its compaction restores it byte for byte. The options of both don't matter.
pub fn standard_exactly_where_same()
    ensures law { (input : List ℕ) (compacting expanding : Choices)
        → IsStandardExactlyWhereSame input compacting expanding }
{}

/// Nothing is written before the end, and a fault of the lines so far is the fault of the whole file.
pub fn check_keeps_to_its_fault()
    ensures law { IsLawful check_filter }
{}

/// Shows that the premises can be met: by a date, and by files read to their good end, standard or not.
pub fn premises()
    ensures date { is_date plain_choices.date ≡ true }
    ensures good { (whole_of (lines_text (file_of_five []))).fault ≡ None }
    ensures good_otherwise { (whole_of (returned_text (file_of_five []))).fault ≡ None }
{}
