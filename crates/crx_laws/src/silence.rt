//! Nothing is lost in silence, and blocks are short.

ghost use Rattle.std.specs.Prelude.{◌≡◌, ◌<◌, ◌∷◌, ◌++◌, [], ℕ, List, None, Some, codes, map};
ghost use Rattle.crx_base.specs.meaning.AsRead.{as_read};
ghost use Rattle.crx_base.specs.meaning.Choices.{Choices};
ghost use Rattle.crx_base.specs.meaning.Lines.{lines_of, lines_text};
ghost use Rattle.crx_filter.specs.meaning.Accounts.{AccountsForFile, AccountsForText, HasShortBlocks};
ghost use Rattle.crx_filter.specs.meaning.Compacted.{compacted};
ghost use Rattle.crx_filter.specs.meaning.Accounts.{AreContinued, with_epochs};
ghost use Rattle.crx_filter.specs.meaning.Expanded.{expanded};
ghost use Rattle.crx_filter.specs.meaning.Fate.{OwnInOrder};
ghost use Rattle.crx_filter.specs.meaning.Compacted.{rinex_place};
ghost use Rattle.crx_filter.specs.meaning.Items.{Accepted};
ghost use Rattle.crx_filter.specs.OwnStretches.{read_of_file};
ghost use Rattle.crx_laws.specs.SmallFiles.{damaged_by, epoch_at_second, epoch_line_at, file_of_five, header, header_items, in_full_every_second, observed, with_skip};
ghost use Rattle.crx_laws.specs.SmallStretches.{second_block};
ghost use Rattle.crx_rinex.specs.meaning.Units.{Observation};

/// If no fault ends it, a compaction and an expansion account for each line of their input: an accepted unit
/// was read from it, or a warning drops it. So a status of 0 says that no line was dropped.
pub fn nothing_is_lost_in_silence()
    ensures compaction { (choices : Choices) (file : List ℕ)
        → AccountsForFile choices file (compacted file choices) }
    ensures expansion { (choices : Choices) (text : List ℕ) → AccountsForText choices.skip text (expanded text choices) }
{}

/// If every n-th epoch is full, a block of compact text has at most n epochs.
pub fn blocks_are_short()
    ensures law { (choices : Choices) (file : List ℕ) → HasShortBlocks choices file (compacted file choices) }
{}

/// Shows that the premises can be met: by a file and a text of which an epoch is dropped with a warning; by
/// another file that has the lines which no warning drops; and by a block of two epochs if every second one
/// is full.
pub fn premises()
    ensures file { (compacted (lines_text (header ++ epoch_line_at 0 2 ∷ observed (codes "1.000")
        ∷ observed (codes "1.000") ∷ [])) with_skip).fault ≡ None }
    ensures file_warned { (compacted (lines_text (header ++ epoch_line_at 0 2 ∷ observed (codes "1.000")
        ∷ observed (codes "1.000") ∷ [])) with_skip).status ≡ 2 }
    ensures left_out { OwnInOrder rinex_place 1 (read_of_file (lines_text (header ++ epoch_line_at 0 2
        ∷ observed (codes "1.000") ∷ observed (codes "1.000") ∷ epoch_line_at 1 1 ∷ observed (codes "2.000") ∷ []))
        with_skip).items (map as_read (lines_of (lines_text (header ++ epoch_line_at 0 2
        ∷ observed (codes "1.000") ∷ observed (codes "1.000") ∷ epoch_line_at 1 1 ∷ observed (codes "2.000") ∷ []))))
        (map as_read (lines_of (lines_text (header ++ epoch_line_at 1 1 ∷ observed (codes "2.000") ∷ [])))) }
    ensures text { (expanded (damaged_by (codes "xyz" ∷ [])) with_skip).fault ≡ None }
    ensures text_warned { (expanded (damaged_by (codes "xyz" ∷ [])) with_skip).status ≡ 2 }
    ensures every { in_full_every_second.every ≡ Some 2 }
    ensures block { (read_of_file (lines_text (file_of_five [])) in_full_every_second).items
        ≡ (Accepted (Observation (epoch_at_second 4 20000408000)) ∷ second_block) ++ with_epochs header_items
        (epoch_at_second 0 20000000000 ∷ epoch_at_second 1 20000100500 ∷ []) }
    ensures continued { AreContinued in_full_every_second (Accepted (Observation (epoch_at_second 0 20000000000))
        ∷ header_items) (epoch_at_second 1 20000100500 ∷ []) }
{}
