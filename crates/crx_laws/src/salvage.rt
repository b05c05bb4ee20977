//! The part of damaged compact text that is saved.

ghost use Rattle.std.specs.Prelude.{◌≡◌, ◌∷◌, [], List, ℕ, true, codes, drop};
ghost use Rattle.crx_base.specs.meaning.Choices.{Choices, is_date};
ghost use Rattle.crx_filter.specs.Damage.{lines_of_epochs, IsOfCompaction, IsOwnDamaged, StaysInItsBlock};
ghost use Rattle.crx_filter.specs.meaning.Damage.{IsDamaged, IsSalvaged};
ghost use Rattle.crx_filter.specs.meaning.Expanded.{expanded};
ghost use Rattle.crx_filter.specs.meaning.Stretches.{Stretch};
ghost use Rattle.crx_laws.specs.WildText.{wild_before, wild_block, wild_shortened};
ghost use Rattle.crx_rinex.specs.meaning.Observations.{Epoch};
ghost use Rattle.crx_rinex.specs.meaning.Units.{Unit as FileUnit};
ghost use Rattle.crx_base.specs.meaning.Lines.{lines_text};
ghost use Rattle.crx_laws.specs.SmallFiles.{file_of_five, with_event, plain_choices, in_full_every_second, with_skip, epoch_at_second, first_block, damaged_by, other_block, last_damaged_by, damaged_before_event};

/// Damage to compact text of any writer stays in its block. The lines of some units are replaced by a block:
/// a first line that isn't an event's, and lines of at most `LINE_LIMIT` bytes that don't begin with `>`. The
/// first epoch after them is full. Then an expansion that skips faults writes exactly all units before the
/// block, then some whole epochs (first those whose lines are at the block's beginning), then exactly all
/// units after it. It reports at most one warning; its status is 2 with a warning and 0 without.
pub fn damage_stays_in_its_block()
    ensures law { (before : List (FileUnit Epoch)) (s : Stretch) (damaged : List ℕ) (expanding : Choices)
        → expanding.skip ≡ true → (damage : IsDamaged before s damaged)
        → IsSalvaged before s damaged damage (expanded damaged expanding) }
{}

/// The same holds for the compact text of a standard file, if in one block, from a full epoch up to the next
/// line that begins with `>` or the end, all lines except the first are replaced.
pub fn damage_of_own_text_stays_in_its_block()
    ensures law { (input : List ℕ) (compacting expanding : Choices) (damaged : List ℕ)
        → StaysInItsBlock input compacting expanding damaged }
{}

/// The text before the damage is the output of the compaction: the text of all units, with the lines of the
/// block among them.
pub fn undamaged_text_is_the_compaction()
    ensures law { (input : List ℕ) (compacting : Choices) (damaged : List ℕ)
        (damage : IsOwnDamaged input compacting damaged) → IsOfCompaction input compacting damaged damage }
{}

/// Shows that the premises can be met: by a date; by an expansion that skips faults; and by a block of two
/// epochs of which a line that is no clock, no line, or the rest of its first epoch is left. In the last case
/// the lines are those of the block's first epoch. They can also be met if other epochs can be read instead
/// of the block's, if an event follows the block, and if the block is the last one and ends without LF. And
/// by a text with an arc of order 9, which no known writer writes, whose second epoch has lost a line.
pub fn premises()
    ensures wild { IsDamaged wild_before wild_block wild_shortened }
    ensures date { is_date in_full_every_second.date ≡ true }
    ensures skips { with_skip.skip ≡ true }
    ensures replaced { IsOwnDamaged (lines_text (file_of_five [])) in_full_every_second
        (damaged_by (codes "xyz" ∷ [])) }
    ensures removed { IsOwnDamaged (lines_text (file_of_five [])) in_full_every_second (damaged_by []) }
    ensures shortened { IsOwnDamaged (lines_text (file_of_five [])) in_full_every_second
        (damaged_by ([] ∷ codes "3&20000202000" ∷ [])) }
    ensures other_epochs { IsOwnDamaged
        (lines_text (file_of_five [])) in_full_every_second (damaged_by other_block) }
    ensures before_event { IsOwnDamaged
        (lines_text with_event) plain_choices (damaged_before_event (codes "xyz" ∷ [])) }
    ensures last { IsOwnDamaged (lines_text (file_of_five [])) in_full_every_second
        (last_damaged_by (codes "\n3&2000")) }
    ensures own { drop 1 (lines_of_epochs in_full_every_second first_block
        (epoch_at_second 2 20000202000 ∷ [])) ≡ [] ∷ codes "3&20000202000" ∷ [] }
{}
