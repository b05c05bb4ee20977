//! Laws of the lines of an input, and of a reader of lines.
ghost use Rattle.std.specs.Prelude.{◌≡◌, ℕ, List, [], ◌∷◌, ◌++◌, ◌+◌, ◌<◌, ◌≤◌, ◌⊎◌, length, take, true, false, Option, Result};
ghost use Rattle.crx_lines.specs.meaning.Devices.{one_more, tally_of};
ghost use Rattle.crx_lines.specs.Reading.{HasNoFeed};
ghost use Rattle.crx_base.specs.meaning.Lines.{InputLine, line_of, lines_of};
ghost use Rattle.crx_lines.specs.Progress.{AtAnswer, HasRead};
ghost use Rattle.crx_lines.specs.Reading.{ReaderAnswers, ReaderState};
ghost use Rattle.crx_base.specs.meaning.AsRead.{ended_lines_of};
ghost use Rattle.crx_base.specs.declared.fault.At.{At};
ghost use Rattle.crx_base.specs.declared.limits.TheConstants.{INPUT_LIMIT};
ghost use Rattle.crx_lines.specs.declared.line.Line.{Line};

use crx_base::Fault;
use crx_lines::Source;
use crx_lines::phase::Phase;

/// If an input begins with a piece and its LF, its lines are that piece's line and the lines of the rest.
pub fn lines_after_first()
    ensures law { (piece rest : List ℕ) → HasNoFeed piece
        → lines_of (piece ++ 10 ∷ rest)
        ≡ line_of (record { bytes = piece; is_ended = true }) ∷ lines_of rest }
{}

/// A nonempty input without LF is one line.
pub fn last_line()
    ensures law { (piece : List ℕ) → HasNoFeed piece → 0 < length piece
        → lines_of piece ≡ line_of (record { bytes = piece; is_ended = false }) ∷ [] }
{}

/// The lines whose LF is among the first bytes of an input are its first lines, whatever follows: the rest of
/// these bytes has no LF, and the other lines are the lines of that rest and the bytes after it.
pub fn ended_lines_come_first()
    ensures law { (given : List ℕ) → (rest : List ℕ) × HasNoFeed rest
        × ((more : List ℕ) → lines_of (given ++ more) ≡ ended_lines_of given ++ lines_of (rest ++ more)) }
{}

/// A new reader of lines has read nothing.
pub fn reading_starts<R: Source>()
    ensures law { (start : R) → HasRead (λ given. R.gave start given start) (R.at_end start)
        (tally_of (R.failures start) (R.ends start)) (tally_of (R.failures start) (R.ends start))
        (record { rest = []; passed = 0; number = 0; phase = Phase.Open }) [] }
{}

/// States how a reader of lines changes with each result: which bytes of its source it has read, and how
/// often the source has failed or reported its end.
pub fn reading_goes_on<R: Source>()
    ensures law { (start before after : R)
        (more : List ℕ) (old new : ReaderState) (answer : Result (Option Line) At) (lines : List InputLine)
        → HasRead (λ given. R.gave start given before) (R.at_end before)
        (tally_of (R.failures start) (R.ends start)) (tally_of (R.failures before) (R.ends before)) old lines
        → old.phase ≡ Phase.Open → R.gave before more after
        → ReaderAnswers old more (R.at_end after) (tally_of (R.failures before) (R.ends before))
        (tally_of (R.failures after) (R.ends after)) answer new
        → (then : List InputLine) × AtAnswer answer old new lines then
        × HasRead (λ given. R.gave start given after) (R.at_end after)
        (tally_of (R.failures start) (R.ends start)) (tally_of (R.failures after) (R.ends after)) new then }
{}

/// After the end was reported and no line is pending, the lines are those of all bytes that the source gave.
/// The source reported its end once.
pub fn reading_ends<R: Source>()
    ensures law { (start now : R) (r : ReaderState) (lines : List InputLine)
        → HasRead (λ given. R.gave start given now) (R.at_end now)
        (tally_of (R.failures start) (R.ends start)) (tally_of (R.failures now) (R.ends now)) r lines
        → r.phase ≡ Phase.Ended
        → (given : List ℕ) × R.gave start given now
        × R.at_end now × (lines ≡ lines_of given) × (length given ≤ INPUT_LIMIT)
        × (R.failures now ≡ R.failures start) × (R.ends now ≡ one_more (R.ends start)) }
{}

/// After a fault ended the reading, the lines are those whose LF is among the bytes that the source gave,
/// within the limit of an input, and the fault is in the line after them. The end wasn't reported.
pub fn reading_stops<R: Source>()
    ensures law { (start now : R) (r : ReaderState) (lines : List InputLine) (at : At)
        → HasRead (λ given. R.gave start given now) (R.at_end now)
        (tally_of (R.failures start) (R.ends start)) (tally_of (R.failures now) (R.ends now)) r lines
        → r.phase ≡ Phase.Stopped at
        → (at.line ≡ length lines + 1)
        × (R.ends now ≡ R.ends start) × (given : List ℕ) × R.gave start given now
        × (lines ≡ ended_lines_of (take INPUT_LIMIT given))
        × (((at.fault ≡ Fault.InputTooLong)
        × (INPUT_LIMIT < length given) × (R.failures now ≡ R.failures start))
        ⊎ ((at.fault ≡ Fault.ReadFailed)
        × (length given ≤ INPUT_LIMIT) × (R.failures now ≡ one_more (R.failures start)))) }
{}
