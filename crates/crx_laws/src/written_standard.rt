//! The output of an expansion is standard.

ghost use Rattle.std.specs.Prelude.{◌≡◌, ◌∷◌, [], ℕ, List, None, true, false, codes};
ghost use Rattle.crx_filter.specs.meaning.WrittenStandard.{WhatIsExpandedIsStandard, has_plain_lines};
ghost use Rattle.crx_laws.specs.SmallFiles.{damaged_by, of_other_orders, with_returns, with_skip, plain_choices};
ghost use Rattle.crx_base.specs.meaning.Choices.{Choices};
ghost use Rattle.crx_filter.specs.meaning.Expanded.{expanded};

/// The output of an expansion without a fault is a standard file, unless a line of it ends in CR: for compact
/// text of any writer, damaged or not, with or without `-s`. A line of the output ends in CR if and only if a
/// copied line does.
pub fn what_is_expanded_is_standard()
    ensures law { (text : List ℕ) (choices : Choices) → WhatIsExpandedIsStandard text choices }
{}

/// Shows that the premises can be met: by a damaged text if faults are skipped, and by a text with arcs of
/// the orders 1 and 0. For a text with a copied line that ends in CR, a line of the output ends in CR.
pub fn premises()
    ensures damaged { (expanded (damaged_by (codes "xyz" ∷ [])) with_skip).fault ≡ None }
    ensures damaged_plain { has_plain_lines
        (expanded (damaged_by (codes "xyz" ∷ [])) with_skip).output ≡ true }
    ensures other { (expanded of_other_orders plain_choices).fault ≡ None }
    ensures other_plain { has_plain_lines (expanded of_other_orders plain_choices).output ≡ true }
    ensures returned { (expanded with_returns plain_choices).fault ≡ None }
    ensures not_plain { has_plain_lines (expanded with_returns plain_choices).output ≡ false }
{}
