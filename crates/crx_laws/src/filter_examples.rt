//! Worked examples of both filters, by the definitions only.

ghost use Rattle.std.specs.Prelude.{◌≡◌, ◌∷◌, ◌++◌, [], take, drop, true, false, codes};
ghost use Rattle.crx_base.specs.declared.fault.Fault.TheVariants.{MissingVersion, NoEndOfHeader, NotCompact, BadProgLine, RepeatedSatellite, NoArc, BadClock, BadFlags, Truncated, NotAnEpoch, BadEpoch};
ghost use Rattle.crx_laws.specs.FilterExamples.{two_types, good, failed, warned, warning, compaction_of, expansion_of, compaction_answers, expansion_answers, notice, report, reported};
ghost use Rattle.crx_laws.specs.SmallFiles.{comment_event, damaged_before_event, damaged_by, other_block, last_damaged_by, blanks, header, first_two, epoch_line_at, line_at, full_line_at, second_changed, one_type_line, observed, plain_choices, with_skip, in_full_every_second, returned_text};
ghost use Rattle.crx_filter.specs.Damage.{IsOwnDamaged, IsOwnSalvaged};
ghost use Rattle.crx_filter.specs.meaning.Expanded.{expanded};
ghost use Rattle.crx_filter.specs.meaning.Standard.{checked};
ghost use Rattle.crx_base.specs.meaning.Lines.{lines_text};
ghost use Rattle.crx_filter.specs.LineByLine.{Quiet, Ready};

/// Only a header.
pub fn header_alone()
    ensures compaction { compaction_of plain_choices (header) ≡ good (first_two ++ header) }
{}

/// Types that change in an event: the next epoch is full, with the new count; and the way back.
pub fn types_that_change()
    ensures compaction { compaction_of plain_choices (header ++ epoch_line_at 0 1 ∷ observed (codes "1.000")
        ∷ line_at 1 4 1 ∷ two_types ∷ epoch_line_at 2 1 ∷ observed (codes "3.000          12.500") ∷ [])
        ≡ good (first_two ++ header ++ full_line_at 0 1 (codes "G01") ∷ [] ∷ codes "3&1000"
        ∷ line_at 1 4 1 ∷ two_types ∷ full_line_at 2 1 (codes "G01") ∷ [] ∷ codes "3&3000 3&12500" ∷ []) }
    ensures expansion { expansion_of plain_choices (first_two ++ header ++ full_line_at 0 1 (codes "G01")
        ∷ [] ∷ codes "3&1000" ∷ line_at 1 4 1 ∷ two_types ∷ full_line_at 2 1 (codes "G01")
        ∷ [] ∷ codes "3&3000 3&12500" ∷ []) ≡ good (header ++ epoch_line_at 0 1 ∷ observed (codes "1.000")
        ∷ line_at 1 4 1 ∷ two_types ∷ epoch_line_at 2 1 ∷ observed (codes "3.000          12.500") ∷ []) }
{}

/// A repeated identifier ends the run, and nothing of its epoch is written; with `-s` it is a warning.
pub fn repeated_satellite()
    ensures ends { compaction_of plain_choices (header ++ epoch_line_at 0 2 ∷ observed (codes "1.000")
        ∷ observed (codes "1.000") ∷ []) ≡ failed (first_two ++ header) 6 RepeatedSatellite }
    ensures skipped { compaction_of with_skip (header ++ epoch_line_at 0 2 ∷ observed (codes "1.000")
        ∷ observed (codes "1.000") ∷ []) ≡ warned (first_two ++ header) (warning 6 RepeatedSatellite) }
{}

/// A difference without an arc ends the run; a full epoch starts all arcs again.
pub fn no_arc()
    ensures first { expansion_of plain_choices (first_two
        ++ header ++ full_line_at 0 1 (codes "G01") ∷ [] ∷ codes "5" ∷ []) ≡ failed header 8 NoArc }
    ensures later { expansion_of plain_choices (first_two ++ header ++ full_line_at 0 1 (codes "G01")
        ∷ [] ∷ codes "3&1000" ∷ full_line_at 1 1 (codes "G01") ∷ [] ∷ codes "5" ∷ [])
        ≡ failed (header ++ epoch_line_at 0 1 ∷ observed (codes "1.000") ∷ []) 11 NoArc }
{}

/// A new epoch line, or the end of the input, cuts an epoch off; with `-s` reading resumes at that line.
pub fn cut_epochs()
    ensures ends { expansion_of plain_choices (first_two ++ header ++ full_line_at 0 1 (codes "G01")
        ∷ [] ∷ full_line_at 1 1 (codes "G01") ∷ [] ∷ codes "3&1000" ∷ []) ≡ failed header 8 Truncated }
    ensures skipped { expansion_of with_skip (first_two ++ header
        ++ full_line_at 0 1 (codes "G01") ∷ [] ∷ full_line_at 1 1 (codes "G01") ∷ [] ∷ codes "3&1000" ∷ [])
        ≡ warned (header ++ epoch_line_at 1 1 ∷ observed (codes "1.000") ∷ []) (warning 8 Truncated) }
    ensures at_end { expansion_of plain_choices
        (first_two ++ header ++ full_line_at 0 1 (codes "G01") ∷ [] ∷ []) ≡ failed header 8 Truncated }
    ensures at_end_skipped { expansion_of with_skip (first_two
        ++ header ++ full_line_at 0 1 (codes "G01") ∷ [] ∷ []) ≡ warned header (warning 8 Truncated) }
{}

/// An event keeps the reader's state, unless it has a types line, which empties it.
pub fn across_an_event()
    ensures kept { expansion_of plain_choices (first_two ++ header ++ full_line_at 0 1 (codes "G01")
        ∷ [] ∷ codes "3&1000" ∷ line_at 1 4 1 ∷ (blanks 60 ++ codes "COMMENT") ∷ second_changed 2 ∷ []
        ∷ codes "500" ∷ []) ≡ good (header ++ epoch_line_at 0 1 ∷ observed (codes "1.000") ∷ line_at 1 4 1
        ∷ (blanks 60 ++ codes "COMMENT") ∷ epoch_line_at 2 1 ∷ observed (codes "1.500") ∷ []) }
    ensures emptied { expansion_of plain_choices (first_two ++ header ++ full_line_at 0 1 (codes "G01")
        ∷ [] ∷ codes "3&1000" ∷ line_at 1 4 1 ∷ one_type_line ∷ second_changed 2 ∷ [] ∷ codes "500" ∷ [])
        ≡ failed (header
        ++ epoch_line_at 0 1 ∷ observed (codes "1.000") ∷ line_at 1 4 1 ∷ one_type_line ∷ []) 11 NotAnEpoch }
{}

/// A line that cuts an epoch off and is itself bad has two warnings.
pub fn two_warnings()
    ensures compaction { compaction_of with_skip (header ++ epoch_line_at 0 1 ∷ codes ">" ∷ epoch_line_at 1 1
        ∷ observed (codes "1.000") ∷ []) ≡ warned (first_two ++ header ++ full_line_at 1 1 (codes "G01")
        ∷ [] ∷ codes "3&1000" ∷ []) (warning 5 Truncated ++ warning 5 BadEpoch) }
{}

/// Cycle slip records are copied and never read; an event without records is only its first line.
pub fn cycle_slips()
    ensures compaction { compaction_of plain_choices (header ++ line_at 0 6 1
        ∷ observed (codes "1.000") ∷ line_at 1 3 0 ∷ epoch_line_at 2 1 ∷ observed (codes "2.000") ∷ [])
        ≡ good (first_two ++ header ++ line_at 0 6 1 ∷ observed (codes "1.000")
        ∷ line_at 1 3 0 ∷ full_line_at 2 1 (codes "G01") ∷ [] ∷ codes "3&2000" ∷ []) }
{}

/// After a skipped fault, reading of compact text resumes at the next full epoch.
pub fn skipped_to_full()
    ensures expansion { expansion_of with_skip
        (first_two ++ header ++ full_line_at 0 1 (codes "G01") ∷ [] ∷ codes "5"
        ∷ second_changed 1 ∷ [] ∷ codes "3&2000" ∷ full_line_at 2 1 (codes "G01") ∷ [] ∷ codes "3&3000" ∷ [])
        ≡ warned (header ++ epoch_line_at 2 1 ∷ observed (codes "3.000") ∷ []) (warning 8 NoArc) }
{}

/// An empty input.
pub fn no_input()
    ensures compaction { compaction_of plain_choices ([]) ≡ failed [] 1 MissingVersion }
    ensures expansion { expansion_of plain_choices ([]) ≡ failed [] 1 NotCompact }
{}

/// A header without an end; compact text of only the first two lines.
pub fn no_end_of_header()
    ensures compaction { compaction_of with_skip (take 2 header)
        ≡ failed (first_two ++ take 2 header) 3 NoEndOfHeader }
    ensures expansion { expansion_of with_skip (first_two) ≡ failed [] 3 MissingVersion }
    ensures second { expansion_of with_skip (take 1 first_two) ≡ failed [] 2 BadProgLine }
{}

/// Compact text of another writer: differences of order 1, and `&` in an empty text.
pub fn first_differences()
    ensures expansion { expansion_of plain_choices (first_two ++ header ++ full_line_at 0 1 (codes "G01") ∷ []
        ∷ codes "1&1000" ∷ (second_changed 1 ++ blanks 30 ++ codes "&&&") ∷ [] ∷ codes "500" ∷ second_changed
        2 ∷ [] ∷ codes "500" ∷ []) ≡ good (header ++ epoch_line_at 0 1 ∷ observed (codes "1.000")
        ∷ epoch_line_at 1 1 ∷ observed (codes "1.500") ∷ epoch_line_at 2 1 ∷ observed (codes "2.000") ∷ []) }
{}

/// A bad indicator ends the run; with `-s` the next epoch is full.
pub fn bad_indicator()
    ensures ends { compaction_of plain_choices (header ++ epoch_line_at 0 1 ∷ codes "G01  20000000.000"
        ∷ epoch_line_at 1 1 ∷ codes "G01  20000100.500&" ∷ epoch_line_at 2 1 ∷ codes "G01  20000202.000"
        ∷ epoch_line_at 3 1 ∷ codes "G01  20000304.500" ∷ epoch_line_at 4 1 ∷ codes "G01  20000408.000" ∷ [])
        ≡ failed
        (first_two ++ header ++ full_line_at 0 1 (codes "G01") ∷ [] ∷ codes "3&20000000000" ∷ []) 7 BadFlags }
    ensures skipped { compaction_of with_skip (header ++ epoch_line_at 0 1 ∷ codes "G01  20000000.000"
        ∷ epoch_line_at 1 1 ∷ codes "G01  20000100.500&" ∷ epoch_line_at 2 1 ∷ codes "G01  20000202.000"
        ∷ epoch_line_at 3 1 ∷ codes "G01  20000304.500" ∷ epoch_line_at 4 1 ∷ codes "G01  20000408.000" ∷ [])
        ≡ warned (first_two ++ header ++ full_line_at 0 1 (codes "G01") ∷ [] ∷ codes "3&20000000000"
        ∷ full_line_at 2 1 (codes "G01") ∷ [] ∷ codes "3&20000202000" ∷ second_changed 3
        ∷ [] ∷ codes "102500" ∷ second_changed 4 ∷ [] ∷ codes "1000" ∷ []) (warning 7 BadFlags) }
{}

/// The answers of a compaction, line by line: the compact lines before the header follow from its first line,
/// an epoch from its last line.
pub fn steps_of_a_compaction()
    ensures one { compaction_answers plain_choices (header ++ epoch_line_at 0 1 ∷ codes "G01  20000000.000"
        ∷ []) ≡ (Ready, 3) ∷ (Ready, 1) ∷ (Ready, 1) ∷ (Quiet, 0) ∷ (Ready, 3) ∷ [] }
    ensures no_satellites { compaction_answers plain_choices (header ++ epoch_line_at 0 0
        ∷ epoch_line_at 0 0 ∷ []) ≡ (Ready, 3) ∷ (Ready, 1) ∷ (Ready, 1) ∷ (Ready, 2) ∷ (Ready, 2) ∷ [] }
{}

/// The answers of an expansion, line by line: no output for the first two lines, a header line at once, and
/// an epoch with its last line.
pub fn steps_of_an_expansion()
    ensures one { expansion_answers plain_choices
        (first_two ++ header ++ full_line_at 0 1 (codes "G01") ∷ [] ∷ codes "3&20000000000" ∷ []) ≡ (Quiet, 0)
        ∷ (Quiet, 0) ∷ (Ready, 1) ∷ (Ready, 1) ∷ (Ready, 1) ∷ (Quiet, 0) ∷ (Quiet, 0) ∷ (Ready, 2) ∷ [] }
    ensures no_satellites { expansion_answers plain_choices
        (first_two ++ header ++ epoch_line_at 0 0 ∷ [] ∷ [])
        ≡ (Quiet, 0) ∷ (Quiet, 0) ∷ (Ready, 1) ∷ (Ready, 1) ∷ (Ready, 1) ∷ (Quiet, 0) ∷ (Ready, 1) ∷ [] }
{}

/// A line that cuts an epoch off is fed again, and may have a second warning.
pub fn a_line_that_comes_again()
    ensures answers { compaction_answers with_skip
        (header ++ epoch_line_at 0 1 ∷ codes ">" ∷ epoch_line_at 1 1
        ∷ observed (codes "1.000") ∷ []) ≡ (Ready, 3) ∷ (Ready, 1) ∷ (Ready, 1) ∷ (Quiet, 0)
        ∷ (notice 5 Truncated true, 0) ∷ (notice 5 BadEpoch false, 0) ∷ (Quiet, 0) ∷ (Ready, 3) ∷ [] }
{}

/// The reports of a standard file with an event, a file without types, and a file whose lines end in CR LF.
pub fn reports()
    ensures with_an_event { report (header ++ epoch_line_at 0 1 ∷ observed (codes "1.000")
        ∷ line_at 1 4 1 ∷ two_types ∷ epoch_line_at 2 1 ∷ observed (codes "3.000          12.500") ∷ [])
        ≡ reported (codes "systems G 2")
        (codes "epochs 2") (codes "events 1") (codes "observations 3") (codes "standard yes") 0 }
    ensures without_types { report (take 1 header ++ drop 2 header) ≡ reported (codes "systems none")
        (codes "epochs 0") (codes "events 0") (codes "observations 0") (codes "standard yes") 0 }
    ensures with_returns { checked (returned_text (header ++ (epoch_line_at 0 2 ++ codes "  ")
        ∷ codes "G01        -0.000" ∷ codes "G02          .353" ∷ [])) ≡ reported (codes "systems G 1")
        (codes "epochs 1") (codes "events 0") (codes "observations 2") (codes "standard no 1") 2 }
{}

/// A damaged block costs only its own epochs, with at most one warning.
pub fn damaged_blocks()
    ensures replaced { expansion_of with_skip (first_two ++ header ++ full_line_at 0 1 (codes "G01")
        ∷ [] ∷ codes "3&20000000000" ∷ second_changed 1 ∷ [] ∷ codes "100500" ∷ full_line_at 2 1 (codes "G01")
        ∷ codes "xyz" ∷ full_line_at 4 1 (codes "G01") ∷ [] ∷ codes "3&20000408000" ∷ [])
        ≡ warned (header ++ epoch_line_at 0 1 ∷ codes "G01  20000000.000" ∷ epoch_line_at 1 1 ∷ codes
        "G01  20000100.500" ∷ epoch_line_at 4 1 ∷ codes "G01  20000408.000" ∷ []) (warning 13 BadClock) }
    ensures removed { expansion_of with_skip (first_two ++ header ++ full_line_at 0 1 (codes "G01")
        ∷ [] ∷ codes "3&20000000000" ∷ second_changed 1 ∷ [] ∷ codes "100500"
        ∷ full_line_at 2 1 (codes "G01") ∷ full_line_at 4 1 (codes "G01") ∷ [] ∷ codes "3&20000408000" ∷ [])
        ≡ warned (header ++ epoch_line_at 0 1 ∷ codes "G01  20000000.000" ∷ epoch_line_at 1 1 ∷ codes
        "G01  20000100.500" ∷ epoch_line_at 4 1 ∷ codes "G01  20000408.000" ∷ []) (warning 13 Truncated) }
    ensures shortened { expansion_of with_skip (first_two ++ header ++ full_line_at 0 1 (codes "G01")
        ∷ [] ∷ codes "3&20000000000" ∷ second_changed 1 ∷ [] ∷ codes "100500" ∷ full_line_at 2 1 (codes "G01")
        ∷ [] ∷ codes "3&20000202000" ∷ full_line_at 4 1 (codes "G01") ∷ [] ∷ codes "3&20000408000" ∷ [])
        ≡ good (header ++ epoch_line_at 0 1
        ∷ codes "G01  20000000.000" ∷ epoch_line_at 1 1 ∷ codes "G01  20000100.500" ∷ epoch_line_at 2 1
        ∷ codes "G01  20000202.000" ∷ epoch_line_at 4 1 ∷ codes "G01  20000408.000" ∷ []) }
    ensures before_event { expanded (damaged_before_event (codes "xyz" ∷ [])) with_skip ≡ warned
        (header ++ comment_event ++ epoch_line_at 2 1 ∷ codes "G01  20000202.000" ∷ []) (warning 7 BadClock) }
{}

/// Damage without a warning: a block that reads as other epochs, and a last line cut off inside a number.
pub fn damage_not_noticed()
    ensures other_epochs { expanded (damaged_by other_block) with_skip
        ≡ good (header ++ epoch_line_at 0 1 ∷ codes "G01  20000000.000" ∷ epoch_line_at 1 1
        ∷ codes "G01  20000100.500" ∷ epoch_line_at 2 1 ∷ codes "G01  20000202.001" ∷ epoch_line_at 3 1
        ∷ codes "G01  20000304.501" ∷ epoch_line_at 4 1 ∷ codes "G01  20000408.000" ∷ []) }
    ensures last { expanded (last_damaged_by (codes "\n3&2000")) with_skip
        ≡ good (header ++ epoch_line_at 0 1 ∷ codes "G01  20000000.000"
        ∷ epoch_line_at 1 1 ∷ codes "G01  20000100.500" ∷ epoch_line_at 2 1 ∷ codes "G01  20000202.000"
        ∷ epoch_line_at 3 1 ∷ codes "G01  20000304.500" ∷ epoch_line_at 4 1 ∷ observed (codes "2.000") ∷ []) }
{}

/// Every second epoch full, counted from the first; and the way back.
pub fn every_second_epoch()
    ensures compaction { compaction_of in_full_every_second
        (header ++ epoch_line_at 0 1 ∷ codes "G01  20000000.000" ∷ epoch_line_at 1 1
        ∷ codes "G01  20000100.500" ∷ epoch_line_at 2 1 ∷ codes "G01  20000202.000" ∷ epoch_line_at 3 1
        ∷ codes "G01  20000304.500" ∷ epoch_line_at 4 1 ∷ codes "G01  20000408.000" ∷ []) ≡ good
        (first_two ++ header ++ full_line_at 0 1 (codes "G01") ∷ [] ∷ codes "3&20000000000" ∷ second_changed 1
        ∷ [] ∷ codes "100500" ∷ full_line_at 2 1 (codes "G01") ∷ [] ∷ codes "3&20000202000" ∷ second_changed 3
        ∷ [] ∷ codes "102500" ∷ full_line_at 4 1 (codes "G01") ∷ [] ∷ codes "3&20000408000" ∷ []) }
    ensures expansion { expansion_of plain_choices
        (first_two ++ header ++ full_line_at 0 1 (codes "G01") ∷ [] ∷ codes "3&20000000000" ∷ second_changed 1
        ∷ [] ∷ codes "100500" ∷ full_line_at 2 1 (codes "G01") ∷ [] ∷ codes "3&20000202000" ∷ second_changed 3
        ∷ [] ∷ codes "102500" ∷ full_line_at 4 1 (codes "G01") ∷ [] ∷ codes "3&20000408000" ∷ [])
        ≡ good (header ++ epoch_line_at 0 1 ∷ codes "G01  20000000.000" ∷ epoch_line_at 1 1
        ∷ codes "G01  20000100.500" ∷ epoch_line_at 2 1 ∷ codes "G01  20000202.000" ∷ epoch_line_at 3 1
        ∷ codes "G01  20000304.500" ∷ epoch_line_at 4 1 ∷ codes "G01  20000408.000" ∷ []) }
{}

/// A block of which only the first line is left: the units before it are saved, with one warning.
pub fn a_block_cut_off()
    ensures salvaged { (damage : IsOwnDamaged
        (lines_text (header ++ epoch_line_at 0 1 ∷ observed (codes "1.000") ∷ [])) plain_choices
        (lines_text (first_two ++ header ++ full_line_at 0 1 (codes "G01") ∷ [])))
        × IsOwnSalvaged (lines_text (header ++ epoch_line_at 0 1 ∷ observed (codes "1.000") ∷ [])) plain_choices
        (lines_text (first_two ++ header ++ full_line_at 0 1 (codes "G01") ∷ [])) damage
        (expansion_of with_skip (first_two ++ header ++ full_line_at 0 1 (codes "G01") ∷ [])) }
{}
