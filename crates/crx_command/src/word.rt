//! Texts from the command line, or for the user.

ghost use Rattle.std.specs.Prelude.{◌≡◌, ◌++◌, IfOk};
ghost use Rattle.crx_command.specs.meaning.ErrorLines.{error_line};

use crx_base::Refused;
use crx_base::memory::append_text;
use std::alloc::{AllocError, Global};
use std::fmt;
use std::marker::Model;

/// A text, such as a file's name or a help text. Contracts see its bytes.
#[derive(Debug, Drop)]
pub struct Word {
    text: String,
}

impl Model for Word {
    ghost use Rattle.std.specs.Prelude.{List, ℕ, string_bytes};

    ghost Value = { List ℕ };

    ghost view = { λ w. string_bytes w.text };
}

impl Word {
    /// Returns a copy of `text`, or `Refused` if memory is refused.
    pub fn new(alloc: Global, text: &str) -> Result<Word, Refused>
        ensures value { IfOk result (λ w. w ≡ text.now) }
    {
        Word::join(alloc, text, "")
    }

    /// Returns `start` followed by `end`, or `Refused` if memory is refused.
    pub fn join(alloc: Global, start: &str, end: &str) -> Result<Word, Refused>
        ensures value { IfOk result (λ w. w ≡ start.now ++ end.now) }
    {
        let mut text = String::new(alloc);
        append_text(&mut text, start)?;
        append_text(&mut text, end)?;
        Ok(Word { text })
    }

    /// Returns `ERROR: `, `words`, `name` and LF as one line, such as `ERROR: file exists: a.crx`; or
    /// `Refused` if memory is refused.
    pub fn error_line(alloc: Global, words: &str, name: &str) -> Result<Word, Refused>
        ensures value { IfOk result (λ w. w ≡ error_line words.now name.now) }
    {
        let mut text = String::new(alloc);
        append_text(&mut text, "ERROR: ")?;
        append_text(&mut text, words)?;
        append_text(&mut text, name)?;
        append_text(&mut text, "\n")?;
        Ok(Word { text })
    }

    /// Returns the text that `value`, clap's error or help, shows, or `AllocError` if memory is refused.
    pub fn display<T: fmt::Display>(alloc: Global, value: &T) -> Result<Word, AllocError> {
        Ok(Word {
            text: format!(in alloc; "{value}")?,
        })
    }

    /// Returns the text.
    pub fn text(&self) -> &str
        ensures value { result.now ≡ self.now }
    {
        self.text.as_str()
    }
}

impl fmt::Display for Word {
    /// Writes the text; fails only if the formatter does.
    fn fmt<W: fmt::Write>(&self, f: &mut fmt::Formatter<W>) -> fmt::Result {
        f.write_str(self.text.as_str())
    }
}
