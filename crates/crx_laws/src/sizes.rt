//! The largest output of an expansion.

ghost use Rattle.std.specs.Prelude.{◌≡◌, List, ℕ};
ghost use Rattle.crx_laws.specs.Sizes.{most_for_a_byte, IsWithinSize};
ghost use Rattle.crx_base.specs.meaning.Choices.{Choices};

/// The output of an expansion is at most 6404 times as long as its input, for any input: each line of compact
/// text has at least one byte, and stands for at most the longest line of an epoch in RINEX, or for itself.
pub fn an_expansion_is_bounded()
    ensures factor { most_for_a_byte ≡ 6404 }
    ensures bound { (text : List ℕ) (choices : Choices) → IsWithinSize text choices }
{}
