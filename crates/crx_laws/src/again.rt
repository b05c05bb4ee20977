//! Compacting or expanding again changes nothing.

ghost use Rattle.std.specs.Prelude.{◌≡◌, ◌++◌, [], ℕ, List, None, true};
ghost use Rattle.crx_base.specs.meaning.Choices.{Choices, is_date};
ghost use Rattle.crx_base.specs.meaning.Lines.{lines_text};
ghost use Rattle.crx_rinex.specs.meaning.Observations.{Epoch};
ghost use Rattle.crx_filter.specs.meaning.Compacted.{compact_lines, compacted};
ghost use Rattle.crx_filter.specs.meaning.Expanded.{expanded};
ghost use Rattle.crx_filter.specs.meaning.Items.{Item};
ghost use Rattle.crx_filter.specs.meaning.WayBack.{HasNormalForm};
ghost use Rattle.crx_filter.specs.meaning.WrittenStandard.{has_plain_lines};
ghost use Rattle.crx_laws.specs.Again.{ExpandsTheSameAgain, Follows, IsTheSameAgain, MakeADay};
ghost use Rattle.crx_laws.specs.SmallFiles.{file_of_five, header_items, of_other_orders, plain_choices, with_event};
ghost use Rattle.crx_laws.specs.SmallStretches.{five_epochs, five_epochs_text};

/// Compacting the expansion of a file's compact text, with the same options, writes the same text again. The
/// file may have no faults and no copied line that ends in two CRs; the expansion's options don't matter.
#[tactic(auto, using(crate::proofs::Theorems::of_again))]
pub fn compacting_again_changes_nothing()
    ensures law { (file : List ℕ) (compacting expanding : Choices) → IsTheSameAgain file compacting expanding }
{}

/// The output of an expansion without a fault is expanded again from its own compact text, if none of its
/// lines ends in CR.
pub fn expanding_again_changes_nothing()
    ensures law { (text : List ℕ) (choices compacting expanding : Choices)
        → ExpandsTheSameAgain text choices compacting expanding }
{}

/// Hours make a day: the compact text of one file, followed by the compact text of the next without its first
/// two lines and its header, expands to both. Neither may have faults or a copied line that ends in two CRs,
/// and the first has to end with the types of the second's header.
pub fn hours_make_a_day()
    ensures law { (first second : List ℕ) (header later : List (Item Epoch)) (rest : List ℕ)
        (compacting expanding : Choices) → MakeADay first second header later rest compacting expanding }
{}

/// Shows that the premises can be met: by a date, by a file of five epochs, by a text with arcs of other
/// orders, and by that file after one with an event.
pub fn premises()
    ensures date { is_date plain_choices.date ≡ true }
    ensures file { HasNormalForm (lines_text (file_of_five [])) }
    ensures text { (expanded of_other_orders plain_choices).fault ≡ None }
    ensures plain { has_plain_lines (expanded of_other_orders plain_choices).output ≡ true }
    ensures follows { Follows (lines_text with_event) (lines_text (file_of_five [])) header_items five_epochs }
    ensures behind { (compacted (lines_text (file_of_five [])) plain_choices).output
        ≡ lines_text (compact_lines plain_choices header_items) ++ five_epochs_text }
{}
