//! The lines of an epoch, a check as a forecast of a compaction, and files that are cut off.

ghost use Rattle.std.specs.Prelude.{◌≡◌, ◌∷◌, ◌++◌, ◌+◌, ◌≤◌, [], ℕ, List, None, Some, codes, drop, false, length, take, true};
ghost use Rattle.std.specs.List.{list_all};
ghost use Rattle.crx_base.specs.declared.fault.Fault.TheVariants.{BadEpoch, Truncated};
ghost use Rattle.crx_base.specs.meaning.AsRead.{Content, ReadLine};
ghost use Rattle.crx_base.specs.meaning.Choices.{Choices};
ghost use Rattle.crx_base.specs.meaning.Lines.{InputLine, lines_of, lines_text};
ghost use Rattle.crx_compact.specs.meaning.CompactPlaces.{ReadEpoch};
ghost use Rattle.crx_filter.specs.OwnStretches.{read_of_file};
ghost use Rattle.crx_filter.specs.meaning.Compacted.{compacted, rinex_place};
ghost use Rattle.crx_filter.specs.meaning.Expanded.{compact_place, expanded};
ghost use Rattle.crx_filter.specs.meaning.Fate.{OwnInOrder};
ghost use Rattle.crx_filter.specs.meaning.Items.{Item, Warned};
ghost use Rattle.crx_filter.specs.meaning.Standard.{checked};
ghost use Rattle.crx_laws.specs.Blocks.{read_of_text};
ghost use Rattle.crx_laws.specs.Cuts.{IsNoticed, is_clean};
ghost use Rattle.crx_laws.specs.SmallFiles.{file_of_five, of_other_orders, plain_choices};
ghost use Rattle.crx_rinex.specs.meaning.Observations.{Epoch};
ghost use Rattle.crx_rinex.specs.meaning.Places.{Done};
ghost use Rattle.crx_rinex.specs.meaning.Units.{Observation};

/// An epoch of a RINEX file is read from its epoch line and one line per row; an epoch of compact text from
/// its epoch line, its clock line and one line per row, which have only characters 32 to 126.
pub fn the_lines_of_an_epoch()
    ensures file { (items : List (Item Epoch)) (own : List ReadLine) (epoch : Epoch)
        → rinex_place items own ≡ Done (Observation epoch) (length own) → length own ≡ length epoch.rows + 1 }
    ensures text { (items : List (Item ReadEpoch)) (own : List ReadLine) (read : ReadEpoch)
        → compact_place items own ≡ Done (Observation read) (length own)
        → (length own ≡ length read.epoch.rows + 2) × (list_all is_clean own ≡ true) }
{}

/// A warning doesn't drop a second line that begins with `>`.
pub fn a_warning_drops_one_stretch()
    ensures law { (kept : List ReadLine) → OwnInOrder compact_place 3 (Warned (record { line = 3; fault = BadEpoch }) ∷ [])
        (Content (codes "> bad") ∷ Content (codes "> good") ∷ []) kept → ⊥ }
{}

/// A check forecasts a compaction: without `-s` a file's compaction has the fault and messages of its check.
pub fn a_check_tells_of_a_compaction()
    ensures fault { (choices : Choices) (file : List ℕ) → choices.skip ≡ false
        → (compacted file choices).fault ≡ (checked file).fault }
    ensures messages { (choices : Choices) (file : List ℕ) → choices.skip ≡ false
        → (compacted file choices).messages ≡ (checked file).messages }
{}

/// A cut is noticed: if a file without faults is cut off at the end of a line, either whole units of it are
/// left, or a compaction without `-s` ends with code 3, 7 or 19 at the line after the last. The same is true
/// of the expansion of compact text that is cut off after its first two lines.
pub fn a_cut_is_noticed()
    ensures file { (choices : Choices) (file cut : List ℕ) (more : List InputLine) → choices.skip ≡ false
        → (compacted file choices).fault ≡ None → lines_of file ≡ lines_of cut ++ more
        → IsNoticed (read_of_file file choices) (read_of_file cut choices) (length (lines_of cut)) }
    ensures text { (choices : Choices) (text cut : List ℕ) (more : List InputLine) → choices.skip ≡ false
        → (expanded text choices).fault ≡ None → lines_of text ≡ lines_of cut ++ more → 2 ≤ length (lines_of cut)
        → IsNoticed (read_of_text text choices) (read_of_text cut choices) (length (lines_of cut)) }
{}

/// Shows that the premises can be met: by a file and a text that are cut off in their second epochs, where
/// each cut is a fault.
pub fn premises()
    ensures skips_nothing { plain_choices.skip ≡ false }
    ensures file { (compacted (lines_text (file_of_five [])) plain_choices).fault ≡ None }
    ensures file_lines { lines_of (lines_text (file_of_five []))
        ≡ lines_of (lines_text (take 6 (file_of_five []))) ++ lines_of (lines_text (drop 6 (file_of_five []))) }
    ensures file_fault { (compacted (lines_text (take 6 (file_of_five []))) plain_choices).fault
        ≡ Some (record { line = 7; fault = Truncated }) }
    ensures text { (expanded of_other_orders plain_choices).fault ≡ None }
    ensures text_lines { lines_of of_other_orders
        ≡ lines_of (take 478 of_other_orders) ++ lines_of (drop 478 of_other_orders) }
    ensures text_fault { (expanded (take 478 of_other_orders) plain_choices).fault
        ≡ Some (record { line = 11; fault = Truncated }) }
{}
