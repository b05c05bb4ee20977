//! Lines of an input, and the reader that returns them one by one.
ghost use Rattle.std.specs.Prelude.{◌≡◌, ◌≢◌, ℕ, ◌+◌, ◌-◌, ◌<◌, ◌≤◌, ◌&&◌, ◌⊎◌, List, [], length, Option, Some, None, Ok, Err, IfOk, IfSome, Contains, if◌then◌else◌};
ghost use Rattle.crx_lines.specs.meaning.Devices.{tally_of};
ghost use Rattle.crx_base.specs.Padded.{line_in};
ghost use Rattle.crx_base.specs.declared.fault.At.{At};
ghost use Rattle.crx_lines.specs.Window.{kept};
ghost use Rattle.crx_base.specs.declared.limits.TheConstants.{INPUT_LIMIT, LINE_LIMIT};

use crate::device::Source;
use crate::feed::feed_from;
use crate::phase::Phase;
use crate::seek::seek;
use crate::window::{Cut, Window};
use crx_base::limits::LINE_LIMIT;
use crx_base::memory::try_box;
use crx_base::{At, Fault, Padded, Refused};
use std::alloc::{AllocError, Global};

/// A line: its content without the line end, its number and how it ends.
#[derive(Clone, Copy)]
pub struct Line<'a> {
    content: Padded<'a>,
    number: u64,
    is_plain: bool,
    ghost short: { length (line_in content) ≤ LINE_LIMIT },
}

impl<'a> Line<'a> {
    ghost use Rattle.crx_lines.specs.Reading.{line_shown, line_number};

    /// Returns the line of `content`, which has to have at most [`LINE_LIMIT`] bytes, without the line end.
    /// `number`: the line's number; `is_plain`: only an LF ends it, without a CR before it.
    pub fn of(content: Padded<'a>, number: u64, is_plain: bool) -> Line<'a>
        requires { length (line_in content) ≤ LINE_LIMIT }
        ensures shown { line_shown result ≡ record { content = line_in content.entry; is_plain = is_plain } }
        ensures number { line_number result ≡ number }
    {
        Line {
            content,
            number,
            is_plain,
        }
    }

    /// Returns the line's content: at most `LINE_LIMIT` bytes, without LF and without a CR before it.
    pub fn bytes(&self) -> &'a [u8]
        ensures content { result.now ≡ (line_shown self.now).content }
        ensures limit { length result.now ≤ LINE_LIMIT }
    {
        self.content.line()
    }

    /// Returns the line's content, at most `LINE_LIMIT` bytes without LF and without a CR before it, together
    /// with the blank and the bytes without a meaning that follow it in memory.
    pub fn padded(&self) -> Padded<'a>
        ensures content { line_in result ≡ (line_shown self.now).content }
        ensures limit { length (line_in result) ≤ LINE_LIMIT }
    {
        self.content
    }

    /// Returns the line's number, from 1.
    pub fn number(&self) -> u64
        ensures value { result ≡ line_number self.now }
    {
        self.number
    }

    /// Returns whether only an LF ends the line: `false` if a CR precedes it or the input ends without LF.
    pub fn plain(&self) -> bool
        ensures value { result ≡ (line_shown self.now).is_plain }
    {
        self.is_plain
    }
}

/// A reader of an input's lines, one by one, with a buffer of its own.
#[derive(Drop)]
pub struct LineReader {
    // The two counts aren't adjacent: otherwise the compiler adds to both as one vector, which costs more at
    // each line.
    number: u64,
    window: Box<Window>,
    /// How many bytes the lines so far had, including their ends and refused lines.
    passed: u64,
    phase: Phase,
    ghost counted: { number ≤ passed },
    ghost limit: { passed + length (kept window.value) ≤ INPUT_LIMIT },
}

impl LineReader {
    ghost use Rattle.std.specs.Borrow.{sem};
    ghost use Rattle.std.specs.Io.BufRead.{Rests};
    ghost use Rattle.crx_lines.specs.contracts.line.LineReader.{the_row};
    ghost use Rattle.crx_lines.specs.Reading.{AnswersHeld, ReaderAnswers, ReaderState, line_shown, line_number};
    ghost use Rattle.crx_lines.specs.Readers.{CanBeLent, TakesNextLine, reading};
    ghost use Rattle.crx_lines.specs.Window.{cut_shown};

    /// Returns a reader before its input's first line, or `AllocError` if memory is refused. Reads nothing.
    pub fn new(alloc: Global) -> Result<LineReader, AllocError>
        ensures start { IfOk result
            (λ r. reading r ≡ record { rest = []; passed = 0; number = 0; phase = Phase.Open }) }
    {
        Ok(LineReader::open(alloc)?)
    }

    /// Returns a reader before its input's first line, or `Refused` if memory is refused. Reads nothing.
    pub fn open(alloc: Global) -> Result<LineReader, Refused>
        ensures start { IfOk result
            (λ r. reading r ≡ record { rest = []; passed = 0; number = 0; phase = Phase.Open }) }
    {
        let window = try_box(alloc, Window::new(alloc)?)?;
        Ok(LineReader {
            number: 0,
            window,
            passed: 0,
            phase: Phase::Open,
        })
    }

    /// Returns the number of the last line that was taken, too long or not; 0 before the first.
    pub fn number(&self) -> u64
        ensures value { result ≡ (reading self.now).number }
    {
        self.number
    }

    /// Takes the next line if its LF was read already, and returns its place in the buffer; reads nothing.
    /// Returns `None`, with nothing changed, if no such LF is in the buffer. Returns `LineTooLong` if the
    /// content is over [`LINE_LIMIT`]; the line is taken then too. Not to be called after the end,
    /// `InputTooLong` or `ReadFailed`.
    #[inline(always)]
    fn advance_held(&mut self) -> Result<Option<Cut>, At>
        requires { self.old.phase ≡ Phase.Open }
        ensures answers { AnswersHeld (cut_shown self.new.window.value.bytes.items) (λ _. self.new.number)
            (reading self.old) result (reading self.new) }
        ensures place { IfOk result (λ next. IfSome next (CanBeLent self.new.window.value.bytes.items)) }
        ensures none { result ≡ Ok None → Contains (kept self.old.window.value) 10 → ⊥ }
    {
        let Some(len) = feed_from(self.window.as_slice(), 0) else {
            return Ok(None);
        };
        let cut = self.window.cut_line(len, true);
        self.passed += len as u64 + 1;
        self.number += 1;
        if cut.to - cut.from > LINE_LIMIT {
            return Err(At {
                line: self.number,
                fault: Fault::LineTooLong,
            });
        }
        Ok(Some(cut))
    }

    /// Takes the next line, reads from `reader` until its end is found, and returns its place in the buffer,
    /// or `None` if the input has no more. Returns `LineTooLong` for a line over `LINE_LIMIT`, which is taken
    /// too. Returns `InputTooLong` if a byte past `INPUT_LIMIT` was read, and `ReadFailed` if a read fails;
    /// these are stored, and no later line is returned. Not to be called after them or the end.
    #[inline(never)]
    fn advance_by_reading<R: Source>(&mut self, reader: &mut R) -> Result<Option<Cut>, At>
        requires { self.old.phase ≡ Phase.Open }
        ensures answers { TakesNextLine R.Source self.old self.new reader.old reader.new result }
        ensures place { IfOk result (λ next. IfSome next (CanBeLent self.new.window.value.bytes.items)) }
        ensures unasked { Contains (kept self.old.window.value) 10 → reader.new ≡ reader.old }
    {
        let found = match seek(&mut self.window, self.passed, reader) {
            Ok(found) => found,
            Err(fault) => {
                let at = At {
                    line: self.number + 1,
                    fault,
                };
                self.phase = Phase::Stopped(at);
                return Err(at);
            }
        };
        if (found.passed == 0) & (found.len == 0) & !found.is_ended {
            self.phase = Phase::Ended;
            return Ok(None);
        }
        let held = found.len + usize::from(found.is_ended);
        let cut = self.window.cut_line(found.len, found.is_ended);
        self.passed += found.passed + held as u64;
        self.number += 1;
        // More lines may follow a line with an end. After one without, the input has ended.
        self.phase = if found.is_ended {
            Phase::Open
        } else {
            Phase::Ended
        };
        // Bytes of a line that is too long were discarded, or its content in the window is too long.
        if (found.passed > 0) | (cut.to - cut.from > LINE_LIMIT) {
            return Err(At {
                line: self.number,
                fault: Fault::LineTooLong,
            });
        }
        Ok(Some(cut))
    }

    /// Returns the line that was just taken. `cut`: its place in the buffer, as taking it returned; nothing
    /// may have been read since.
    #[inline(always)]
    fn line(&self, cut: Cut) -> Line<'_>
        requires { CanBeLent self.now.window.value.bytes.items cut }
        ensures shown { line_shown result ≡ cut_shown self.now.window.value.bytes.items cut }
        ensures number { line_number result ≡ self.now.number }
    {
        Line {
            content: self.window.padded(cut),
            number: self.number,
            is_plain: cut.is_plain,
        }
    }

    /// Returns the next line, which is valid until the next call, or `None` after the last one. Reads from
    /// `reader` only while no LF is pending, and never after `reader` reported its end.
    ///
    /// Returns `LineTooLong` for a line over `LINE_LIMIT`, once its end was read; the line counts, and the
    /// next call continues after it. Returns `InputTooLong` if a byte past `INPUT_LIMIT` was read and no LF
    /// before it is pending, and `ReadFailed` if a read failed. Both are returned again from then on, as
    /// `None` is after the end, and nothing more is read.
    pub fn next_line<'a, R: Source>(&'a mut self, reader: &mut R) -> Result<Option<Line<'a>>, At>
        ensures open { (reading self.old).phase ≡ Phase.Open → (given : List ℕ) × (new : ReaderState)
            × R.gave reader.old given reader.new
            × ReaderAnswers (reading self.old) given (R.at_end reader.new)
            (tally_of (R.failures reader.old) (R.ends reader.old))
            (tally_of (R.failures reader.new) (R.ends reader.new)) result new }
        ensures ended { (reading self.old).phase ≡ Phase.Ended
            → (result ≡ Ok None) × (reader.new ≡ reader.old) }
        ensures stopped { (at : At) → (reading self.old).phase ≡ Phase.Stopped at → (result ≡ Err at)
            × (reader.new ≡ reader.old) }
        ensures unasked { Contains (reading self.old).rest 10 → reader.new ≡ reader.old }
        ensures* after_borrow { sem 𝓛 (Rests the_row self.entry (λ new.
            ((reading self.old).phase ≡ Phase.Open → (given : List ℕ) × R.gave reader.old given reader.new
            × ReaderAnswers (reading self.old) given (R.at_end reader.new)
            (tally_of (R.failures reader.old) (R.ends reader.old))
            (tally_of (R.failures reader.new) (R.ends reader.new)) result (reading new))
            × ((reading self.old).phase ≢ Phase.Open → reading new ≡ reading self.old))) }
    {
        match self.phase {
            Phase::Ended => return Ok(None),
            Phase::Stopped(at) => return Err(at),
            Phase::Open => {}
        }
        match self.advance_by_reading(reader)? {
            Some(cut) => Ok(Some(self.line(cut))),
            None => Ok(None),
        }
    }

    /// Returns the next line, which is valid until the next call, if its LF was read already; never reads.
    /// Returns `None`, with nothing changed, if no such LF is in the buffer, and after the end,
    /// `InputTooLong` or `ReadFailed`. Returns `LineTooLong` for a line over `LINE_LIMIT`; the line counts,
    /// and the next call continues after it.
    #[inline(always)]
    pub fn next_held<'a>(&'a mut self) -> Result<Option<Line<'a>>, At>
        ensures answers { (new : ReaderState) × AnswersHeld line_shown line_number (reading self.old) result new }
        ensures going { result ≡ Ok None ⊎ ((reading self.old).phase ≡ Phase.Open) }
        ensures none { result ≡ Ok None → (reading self.old).phase ≡ Phase.Open → Contains (reading self.old).rest 10 → ⊥ }
        ensures* after_borrow { sem 𝓛 (Rests the_row self.entry (λ new.
            AnswersHeld line_shown line_number (reading self.old) result (reading new))) }
    {
        match self.phase {
            Phase::Ended | Phase::Stopped(_) => return Ok(None),
            Phase::Open => {}
        }
        match self.advance_held()? {
            Some(cut) => Ok(Some(self.line(cut))),
            None => Ok(None),
        }
    }
}
