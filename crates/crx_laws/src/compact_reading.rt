//! Laws of reading compact text.

ghost use Rattle.std.specs.Prelude.{◌≡◌, true, ℕ, List, Option};
ghost use Rattle.crx_base.specs.meaning.AsRead.{ReadLine};
ghost use Rattle.crx_header.specs.meaning.ObservationTypes.{Count};
ghost use Rattle.crx_compact.specs.meaning.Expansion.{RawEpoch};
ghost use Rattle.crx_compact.specs.ReadingLaws.{EachReadsBack, ReadsBack, ReadsSoundly, HasSingleLines, RawByTail, TailDecides, StepsAgree, WantedWhereOpen, StepsFromOpen, Forgets, OneTail, ReadsWholeEpochs, StepsReadBack, ReadsWholeLists, ReadAreBounded};
ghost use Rattle.crx_rinex.specs.Steady.{IsSteady};
ghost use Rattle.crx_header.specs.meaning.EpochColumns.{begins_epoch};
ghost use Rattle.crx_compact.specs.meaning.CompactPlaces.{epoch_at};
ghost use Rattle.crx_compact.specs.OpenEpochs.{epoch_after};
ghost use Rattle.crx_compact.specs.Tails.{Tail};

/// The compact lines of an epoch are read as that epoch, whatever lines follow, and leave the writer's state
/// to the next lines.
pub fn reading_an_epoch()
    ensures law { EachReadsBack }
{}

/// The compact text of some epochs is read as these epochs, and leaves the writer's state, if the counts of
/// types change only at full epochs.
pub fn reading_epochs()
    ensures law { ReadsBack }
{}

/// An epoch that was read is its raw epoch's meaning, no satellite has two lines, and each line is counted.
pub fn sound_reading()
    ensures law { ReadsSoundly }
{}

/// The state after a block of raw epochs determines the state after the next one.
pub fn next_raw_epoch()
    ensures law { (raw : RawEpoch) (block : List RawEpoch) → HasSingleLines raw → RawByTail raw block }
{}

/// The state after the earlier epochs, or the empty state, determines what the next lines are, including each
/// fault, and the state after an epoch read there.
pub fn tail_decides()
    ensures law { (types : List Count) (older : List RawEpoch) (lines : List ReadLine)
        → TailDecides types older lines }
{}

/// Reading some lines at once and reading them step by step agree, in result and state after an epoch.
pub fn steps_agree()
    ensures law { (types : List Count) (tail : Option Tail) (lines : List ReadLine)
        → StepsAgree types tail lines }
{}

/// More lines are needed if and only if there is no line yet, or the lines so far are an open epoch.
pub fn wanted_where_open()
    ensures law { (types : List Count) (tail : Option Tail) (lines : List ReadLine)
        → WantedWhereOpen types tail lines }
{}

/// A step from an open epoch is the reading of one line more.
pub fn steps_from_open()
    ensures law { StepsFromOpen }
{}

/// The result of reading some lines is certain when its last line is read, for raw epochs and for states.
pub fn steady_epochs()
    ensures raw { (types : List Count) (older : List RawEpoch) → IsSteady (epoch_at types older) }
    ensures tail { (types : List Count) (tail : Option Tail) → IsSteady (epoch_after types tail) }
{}

/// A line that begins with `>` starts again: reading from there doesn't depend on older raw epochs.
pub fn a_full_epoch_forgets()
    ensures law { (types : List Count) (older : List RawEpoch) (line : List ℕ) (lines : List ReadLine)
        → begins_epoch line ≡ true → Forgets types older line lines }
{}

/// An epoch that is read is whole, by the counts of types that it is read with: identifiers, counts, ranges,
/// and indicators of characters 32 to 126 other than `&`. The same holds for all epochs read one after
/// another, from the empty state on.
pub fn epochs_are_whole()
    ensures one { ReadsWholeEpochs }
    ensures list { ReadsWholeLists }
{}

/// The state after written epochs is the state after their lines as they are read.
pub fn one_tail()
    ensures law { OneTail }
{}

/// The lines of a written epoch, read one by one from the state before it, return the epoch with the last
/// line, and leave the writer's state. A full epoch is read so from any state.
pub fn steps_read_back()
    ensures law { StepsReadBack }
{}

/// The state in an open epoch, and the state after a whole one, is within the limits, whatever was read
/// before: the text of one epoch, two indicators per type, at most `ORDER_LIMIT` differences and a value per
/// cell, and at most `SATELLITES_LIMIT` satellites of `TYPES_LIMIT` types each.
pub fn bounded_reading()
    ensures law { ReadAreBounded }
{}
