//! Decisions that arguments can lead to.

ghost use Rattle.std.specs.Prelude.{◌≡◌};
ghost use Rattle.crx_command.specs.declared.job.UsageFault.TheVariants as usage_fault;
ghost use Rattle.crx_command.specs.Usage.{subject_of_usage, words_of_usage};

use crate::word::Word;
use crx_base::Refused;
use std::alloc::AllocError;
use thiserror::Error;

/// A tool of the program.
#[derive(Clone, Copy, Debug, PartialEq, Eq)]
pub enum Tool {
    /// Compacts a RINEX 3.0x observation file.
    Compact,
    /// Expands Compact RINEX 3.0.
    Expand,
    /// Reports on a RINEX 3.0x observation file.
    Check,
}

/// One run of the program.
#[derive(Debug, Drop)]
pub struct Job {
    /// The tool that runs.
    pub tool: Tool,
    /// The file to read, or `None` for standard input.
    pub source: Option<Word>,
    /// The file to write, or `None` for standard output.
    pub target: Option<Word>,
    /// Whether an existing file is overwritten.
    pub force: bool,
    /// N if every N-th epoch is full; `None` if only those are full that must be.
    pub every: Option<u32>,
    /// Whether an epoch with a fault is skipped with a warning.
    pub skip: bool,
    /// The date in the second line of Compact RINEX 3.0; `None` for the date of the run.
    pub date: Option<Word>,
}

/// The decision that arguments lead to.
#[derive(Debug, Drop)]
pub enum Decision {
    /// To show this help text.
    Help(Word),
    /// To run.
    Run(Job),
}

/// The reason for refusing arguments.
#[derive(Debug, Drop, Error)]
#[error("{}{}", self.words(), self.subject())]
pub enum UsageFault {
    /// The arguments aren't those of the program, or an option has a value that it doesn't take. Holds the
    /// text for the user.
    Parse(Word),
    /// `-` is given twice.
    DashTwice,
    /// There is more than one file name.
    TwoFiles,
    /// The date has more than `DATE_LIMIT` bytes, or a byte outside 32 to 126.
    BadDate,
    /// The name of the input file, which has no ending from which the output's name is made.
    NoName(Word),
    /// The system refused memory.
    Memory,
}

impl UsageFault {
    /// Returns the words for the user, which are empty for `Parse`, because its text says everything.
    pub fn words(&self) -> &'static str
        ensures value { result.now ≡ words_of_usage self.now }
    {
        match self {
            UsageFault::Parse(_) => "",
            UsageFault::DashTwice => "- given twice",
            UsageFault::TwoFiles => "more than one file name",
            UsageFault::BadDate => "bad date",
            UsageFault::NoName(_) => "no output name for ",
            UsageFault::Memory => "out of memory",
        }
    }

    /// Returns the text or the name after the words, or an empty text if the fault holds none.
    pub fn subject(&self) -> &str
        ensures value { result.now ≡ subject_of_usage self.now }
    {
        match self {
            UsageFault::Parse(text) => text.text(),
            UsageFault::NoName(name) => name.text(),
            _ => "",
        }
    }
}

impl From<Refused> for UsageFault {
    ghost from_gives = { λ _ fault. fault ≡ usage_fault.Memory };

    /// Returns `Memory`.
    fn from(_refused: Refused) -> UsageFault {
        UsageFault::Memory
    }
}

/// For clap's refusals, which are `AllocError`s.
impl From<AllocError> for UsageFault {
    ghost from_gives = { λ _ fault. fault ≡ usage_fault.Memory };

    /// Returns `Memory`.
    fn from(_error: AllocError) -> UsageFault {
        UsageFault::Memory
    }
}
