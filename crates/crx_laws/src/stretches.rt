//! The part that is saved of compact text that is damaged in stretches, or cut off.

ghost use Rattle.std.specs.Prelude.{◌≡◌, ◌∷◌, [], List, ℕ, true};
ghost use Rattle.crx_base.specs.meaning.Lines.{lines_text};
ghost use Rattle.crx_rinex.specs.meaning.Observations.{Epoch};
ghost use Rattle.crx_rinex.specs.meaning.Units.{Unit as FileUnit};
ghost use Rattle.crx_filter.specs.meaning.Stretches.{HasStretches, KeepsTheRest, Stretch};
ghost use Rattle.crx_filter.specs.OwnStretches.{HasOwnStretches, KeepsOwnRest, BeginsWithOwn};
ghost use Rattle.crx_laws.specs.WildText.{wild_before, wild_stretch, wild_damaged};
ghost use Rattle.crx_laws.specs.SmallFiles.{file_of_five, with_event, plain_choices, in_full_every_second};
ghost use Rattle.crx_laws.specs.SmallStretches.{damaged_twice, cut_off, with_lost_count, without_event};
ghost use Rattle.crx_base.specs.meaning.Choices.{Choices, is_date};
ghost use Rattle.crx_filter.specs.meaning.Expanded.{expanded};
ghost use Rattle.crx_filter.specs.meaning.Standard.{printed_items};
ghost use Rattle.crx_runs.specs.meaning.Results.{Begins};

/// Damage to compact text of any writer costs only the parts it touches. After the header any number of
/// stretches are damaged: the lines of some units are replaced by any others except an event's first line
/// with a count of records. No stretch begins or ends inside an event or loses a change of types, and the
/// first epoch kept after one is full. Then an expansion that skips faults writes exactly all units before
/// the first stretch, then for each stretch some whole epochs followed by exactly the units that are kept,
/// and no fault ends it.
pub fn damage_costs_what_it_touches()
    ensures law { (before : List (FileUnit Epoch)) (stretches : List Stretch) (damaged : List ℕ) (expanding : Choices)
        → expanding.skip ≡ true → HasStretches before stretches damaged
        → KeepsTheRest before stretches (expanded damaged expanding) }
{}

/// The same holds for text that a compaction wrote, with or without `-s`, if no fault ended it and no copied
/// line ends in CR: the bytes of some units' lines are replaced, and the units kept after a stretch begin
/// with an event or a full epoch.
pub fn damage_of_own_text()
    ensures law { (file : List ℕ) (compacting expanding : Choices) (damaged : List ℕ)
        → is_date compacting.date ≡ true → expanding.skip ≡ true
        → (damage : HasOwnStretches file compacting damaged)
        → KeepsOwnRest file compacting damaged damage (expanded damaged expanding) }
{}

/// Whatever follows the compact text of a file's first units, an expansion writes these units first. So if a
/// text is cut off, all units that are whole before the cut are written.
pub fn whole_units_are_written()
    ensures law { (file : List ℕ) (compacting expanding : Choices) (text : List ℕ)
        → is_date compacting.date ≡ true → (whole : BeginsWithOwn file compacting text)
        → Begins (expanded text expanding).output (lines_text (printed_items whole.before)) }
{}

/// Shows that the premises can be met: by two stretches of one file, the first with a line that begins with
/// `>`, the second from the first line of the last block to the end; by an event that is lost with its block,
/// or because its count is damaged; and by a text that is cut off inside a line. And by a text with arcs of
/// order 9 and 7 and an event after the stretch, which no known writer writes.
pub fn premises()
    ensures wild { HasStretches wild_before (wild_stretch ∷ []) wild_damaged }
    ensures twice { HasOwnStretches (lines_text (file_of_five [])) in_full_every_second damaged_twice }
    ensures event { HasOwnStretches (lines_text with_event) plain_choices without_event }
    ensures count { HasOwnStretches (lines_text with_event) plain_choices with_lost_count }
    ensures cut { BeginsWithOwn (lines_text (file_of_five [])) in_full_every_second cut_off }
{}
