//! Laws of the definitions of both filters.

ghost use Rattle.std.specs.Prelude.{◌≡◌, ◌∷◌, ◌++◌, [], List, Bool, true, false, Some, codes, map, take, drop};
ghost use Rattle.crx_base.specs.meaning.AsRead.{ReadLine, Content, as_read};
ghost use Rattle.crx_base.specs.meaning.Lines.{lines_of};
ghost use Rattle.crx_base.specs.declared.fault.Fault.TheVariants.{NotAnEpoch, NotCompact};
ghost use Rattle.crx_base.specs.declared.fault.At.{At};
ghost use Rattle.crx_filter.specs.Anew.{starts_anew, DependsOnTypes};
ghost use Rattle.crx_laws.specs.Bounds.{IsBoundedCompaction, IsBoundedExpansion, CompactIsReadyToHandOut, ExpandedIsReadyToHandOut};
ghost use Rattle.crx_base.specs.meaning.Choices.{Choices};
ghost use Rattle.crx_filter.specs.CompactionByLine.{compaction, compaction_state};
ghost use Rattle.crx_laws.specs.SmallFiles.{header, line_at, one_type_line, full_line_at, second_changed};
ghost use Rattle.crx_filter.specs.ExpansionByLine.{expansion, expansion_state};
ghost use Rattle.crx_filter.specs.meaning.Compacted.{rinex_place, whole_rinex, compacted};
ghost use Rattle.crx_filter.specs.Compacted.{compacted_so_far};
ghost use Rattle.crx_filter.specs.meaning.Directions.{rinex_reading};
ghost use Rattle.crx_filter.specs.meaning.Directions.{compaction_filter, expansion_filter};
ghost use Rattle.crx_runs.specs.Lawful.{IsLawful};
ghost use Rattle.crx_filter.specs.meaning.Expanded.{compact_place, whole_compact, expanded};
ghost use Rattle.crx_filter.specs.Expanded.{expanded_so_far};
ghost use Rattle.crx_filter.specs.meaning.Directions.{compact_reading};
ghost use Rattle.crx_base.specs.meaning.Lines.{lines_text};
ghost use Rattle.crx_filter.specs.Laws.{IsReadForward, IsResumed, IsWrittenFirst, IsCompactedOn, IsExpandedOn, IsCompactionEnded, IsExpansionEnded, StaysEnded, ItemsAreRead, AreInPlace, IsReadyWhereHandedOut};
ghost use Rattle.crx_filter.specs.meaning.Reading.{fault_of_stop};

/// The unit at a line of a RINEX file is certain when its last line is read; so reading more lines continues
/// from the place where reading the first lines stopped.
pub fn resumed_rinex()
    ensures forward { IsReadForward rinex_place }
    ensures resumed { IsResumed rinex_place }
{}

/// The same holds for compact text, from its third line on.
pub fn resumed_compact()
    ensures forward { IsReadForward compact_place }
    ensures resumed { IsResumed compact_place }
{}

/// The output of a compaction for some lines is a prefix of its output for all inputs that begin with them.
pub fn compaction_goes_on()
    ensures law { (choices : Choices) (lines : List ReadLine)
        → IsWrittenFirst compacted_so_far (λ input (c : Choices). (compacted input c).output) choices lines }
{}

/// A compaction works line by line: its state, output and messages after each line are those for all lines so
/// far, computed only from the line and the state before it, with or without `-s`.
pub fn compaction_by_line()
    ensures law { (choices : Choices) (lines : List ReadLine) (line : ReadLine)
        → IsCompactedOn choices lines line }
{}

/// The same holds for the output of an expansion.
pub fn expansion_goes_on()
    ensures law { (choices : Choices) (lines : List ReadLine)
        → IsWrittenFirst expanded_so_far (λ input (c : Choices). (expanded input c).output) choices lines }
{}

/// An expansion works line by line in the same way.
pub fn expansion_by_line()
    ensures law { (choices : Choices) (lines : List ReadLine) (line : ReadLine)
        → IsExpandedOn choices lines line }
{}

/// The end of the input, after any lines, ends the compaction of all of them: nothing more is written, and
/// the fault or the warning is the whole reading's.
pub fn compaction_ends()
    ensures law { (choices : Choices) (lines : List ReadLine) → IsCompactionEnded choices lines }
{}

/// The end of the input ends an expansion in the same way.
pub fn expansion_ends()
    ensures law { (choices : Choices) (lines : List ReadLine) → IsExpansionEnded choices lines }
{}

/// After a fault has ended the run, more lines change nothing, in both directions.
pub fn ended_stays()
    ensures compaction { (skip : Bool) (lines more : List ReadLine) (at : At) → fault_of_stop (rinex_reading
        skip lines).stop ≡ Some at → StaysEnded (rinex_reading skip) (whole_rinex skip) lines more at }
    ensures expansion { (skip : Bool) (lines more : List ReadLine) (at : At) → fault_of_stop (compact_reading
        skip lines).stop ≡ Some at → StaysEnded (compact_reading skip) (whole_compact skip) lines more at }
{}

/// Each accepted unit is the unit at the line where it was read, after the units accepted before it.
pub fn what_was_read()
    ensures rinex { (skip : Bool) (lines : List ReadLine)
        → ItemsAreRead rinex_place (rinex_reading skip lines).items }
    ensures compact { (skip : Bool) (lines : List ReadLine)
        → ItemsAreRead compact_place (compact_reading skip lines).items }
{}

/// The accepted units of a RINEX file are in place: each in its order, and each epoch whole, with the types
/// in force.
pub fn what_was_accepted()
    ensures law { (skip : Bool) (lines : List ReadLine) → AreInPlace (rinex_reading skip lines).items }
{}

/// The state of a compaction between two lines is bounded, however long the input is: at most seven counts of
/// types; of only the last epoch its text, its satellites' indicators, and four numbers for each of their
/// cells; and of an open epoch 41 columns, the types at its line, and at most `SATELLITES_LIMIT` rows, each
/// with an identifier of three characters and at most `TYPES_LIMIT` values, with two indicators each.
pub fn bounded_compaction()
    ensures law { (choices : Choices) (lines : List ReadLine)
        → IsBoundedCompaction (compaction_state choices lines) }
{}

/// The state of an expansion between two lines is bounded in the same way: of the last epoch its text, of 41
/// columns and identifiers, at most `SATELLITES_LIMIT` satellites of at most `TYPES_LIMIT` cells, each with
/// two indicators and numbers up to order `ORDER_LIMIT`; and of an open epoch no more satellites than that,
/// including those whose lines are awaited.
pub fn bounded_expansion()
    ensures law { (choices : Choices) (lines : List ReadLine)
        → IsBoundedExpansion (expansion_state choices lines) }
{}

/// The borrowed lines of a unit are bounded: at most `SATELLITES_LIMIT` and two lines, of at most
/// `LINE_LIMIT` bytes each. A line of an epoch has at most 18 bytes for each of `TYPES_LIMIT` types in
/// compact text, and in RINEX at most the identifier's bytes and `CELL_WIDTH` for each type.
pub fn bounded_lines()
    ensures compaction { (choices : Choices) (lines : List ReadLine) → CompactIsReadyToHandOut choices lines }
    ensures expansion { (choices : Choices) (lines : List ReadLine) → ExpandedIsReadyToHandOut choices lines }
{}

/// Reading of compact text starts again between two units, if the next line begins with `>` and so does the
/// one after the events there, if any: whatever was read before, the units from there on depend only on the
/// observation types in force and on those lines.
pub fn reading_starts_anew()
    ensures law { DependsOnTypes }
{}

/// Shows where reading starts again: at an event whose record doesn't begin with `>` and a full epoch, but
/// not at this event and an epoch with differences.
pub fn lines_that_start_anew()
    ensures anew { starts_anew 0 (map Content
        (line_at 1 4 1 ∷ one_type_line ∷ full_line_at 2 1 (codes "G01") ∷ [] ∷ codes "3&2000" ∷ [])) ≡ true }
    ensures on { starts_anew 0 (map Content
        (line_at 1 4 1 ∷ one_type_line ∷ second_changed 2 ∷ [] ∷ codes "500" ∷ [])) ≡ false }
{}

/// The answer to a line is `Ready` if and only if lines are pending.
pub fn ready_where_borrowed()
    ensures compaction { IsReadyWhereHandedOut compaction }
    ensures expansion { IsReadyWhereHandedOut expansion }
{}

/// Both directions are lawful filters: a fault stays once it is found, the output grows with the lines, and
/// the faults are faults of lines.
pub fn lawful_directions()
    ensures compaction { (choices : Choices) → IsLawful (compaction_filter choices) }
    ensures expansion { (choices : Choices) → IsLawful (expansion_filter choices) }
{}

/// Shows that the premises can be met: by the first lines of an input, and by a fault that ends a run.
pub fn premises()
    ensures lines_first { map as_read (lines_of (lines_text header))
        ≡ map Content (take 1 header) ++ map Content (drop 1 header) }
    ensures ended { fault_of_stop (rinex_reading false (map Content (header ++ codes "x" ∷ []))).stop
        ≡ Some (record { line = 4; fault = NotAnEpoch }) }
    ensures ended_compact { fault_of_stop (compact_reading true (map Content (codes "x" ∷ []))).stop
        ≡ Some (record { line = 1; fault = NotCompact }) }
{}
