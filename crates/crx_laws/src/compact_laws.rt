//! Laws of arcs, texts and the epochs that are written.

ghost use Rattle.std.specs.Prelude.{◌≡◌, ◌↔◌, true, ℕ, ℤ, List, Option};
ghost use Rattle.crx_text.specs.declared.code.Code.{Code};
ghost use Rattle.crx_text.specs.meaning.Numbers.{IsWithin};
ghost use Rattle.crx_rinex.specs.meaning.Epochs.{are_different};
ghost use Rattle.crx_compact.specs.meaning.Compaction.{Marked};
ghost use Rattle.crx_compact.specs.meaning.ArcValues.{is_within};
ghost use Rattle.crx_compact.specs.meaning.Expansion.{overlaid};
ghost use Rattle.crx_compact.specs.ArcLaws.{Inverts, CodesByTail, ValuesByTail, CodesOfValues, ValuesOfCodes};
ghost use Rattle.crx_compact.specs.Laws.{PatchesBack, patched_in_turn, EpochByTail, ArePrintable, AreShort, AllLinesCanStand, WrittenAreBounded};

/// The codes of an arc, of any order, determine its newest value.
pub fn inversion()
    ensures law { Inverts }
{}

/// Patching a text with a difference returns the new text, except for blanks at its end.
pub fn patch_after_difference()
    ensures law { PatchesBack }
{}

/// Marks laid over one another are patches, one line after another.
pub fn overlay_by_patches()
    ensures law { (marks : List (List ℕ)) → overlaid marks ≡ patched_in_turn marks }
{}

/// The differences that are kept of an arc determine the next value's code and the differences kept then:
/// this is a step of the running differences in a compaction, for every order.
pub fn next_code()
    ensures law { (order : ℕ) (value : ℤ) (older : List ℤ) → CodesByTail order value older }
{}

/// The differences that are kept of an arc determine the value of its next code and the differences kept
/// then: this is a step of the running differences in an expansion, for every order.
pub fn next_value()
    ensures law { (order : ℕ) (number before : ℤ) (older : List ℤ) → ValuesByTail order number before older }
{}

/// The state after the earlier epochs determines the compact lines of the next one, and the state after it.
pub fn next_epoch()
    ensures law { (m : Marked) (older : List Marked)
        → are_different m.epoch.rows ≡ true → EpochByTail m older }
{}

/// The test whether a value fits its columns, and the statement that it does, agree.
pub fn fitting_values()
    ensures law { (width : ℕ) (number : ℤ) → (is_within width number ≡ true) ↔ IsWithin width number }
{}

/// The codes of an epoch can be written: their order and digits are within the limits.
pub fn printable_codes()
    ensures law { ArePrintable }
{}

/// A compact line of an epoch has at most 18 bytes for each of `TYPES_LIMIT` types: a code of 15 characters,
/// a blank and two indicators. So none is longer than a line may be.
pub fn short_lines()
    ensures law { AreShort }
{}

/// After any values, some of them missing, the arc is the arc of the values since the last missing one, and
/// has the code of the newest.
pub fn codes_of_values()
    ensures law { (value : Option ℤ) (older : List (Option ℤ)) → CodesOfValues value older }
{}

/// After any codes the arc is the arc of the accepted codes since their latest start, and has the value that
/// they encode; a refused code changes nothing.
pub fn values_of_codes()
    ensures law { (width : ℕ) (code : Code) (older : List Code) → ValuesOfCodes width code older }
{}

/// The compact lines of an epoch can be in a file: they have characters 32 to 126, none is an event's first
/// line, and only a full epoch's first line begins with `>`.
pub fn lines_can_stand()
    ensures law { AllLinesCanStand }
{}

/// The state after any number of written epochs is within the limits: the text of one epoch, and for each of
/// its satellites two indicators per type and at most four differences per cell.
pub fn bounded_tails()
    ensures law { WrittenAreBounded }
{}
