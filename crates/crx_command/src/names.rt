//! The name of the output file, made from the name of the input file.

ghost use Rattle.std.specs.Prelude.{◌≡◌, IfOk};
ghost use Rattle.crx_command.specs.meaning.Names.{ends_in_year, output_name};

use crate::job::Tool;
use crate::word::Word;
use crx_base::Refused;
use std::alloc::Global;

/// An ending of an input file, and the ending of its output file.
struct Ending {
    old: &'static str,
    new: &'static str,
    /// Whether the ending counts only after a point and a year in two digits.
    after_year: bool,
}

static COMPACTING: [Ending; 4] = [
    Ending {
        old: ".rnx",
        new: ".crx",
        after_year: false,
    },
    Ending {
        old: ".RNX",
        new: ".CRX",
        after_year: false,
    },
    Ending {
        old: "o",
        new: "d",
        after_year: true,
    },
    Ending {
        old: "O",
        new: "D",
        after_year: true,
    },
];

static EXPANDING: [Ending; 4] = [
    Ending {
        old: ".crx",
        new: ".rnx",
        after_year: false,
    },
    Ending {
        old: ".CRX",
        new: ".RNX",
        after_year: false,
    },
    Ending {
        old: "d",
        new: "o",
        after_year: true,
    },
    Ending {
        old: "D",
        new: "O",
        after_year: true,
    },
];

/// Returns whether the last three bytes of `stem` are a point and two digits; `false` if it has fewer bytes.
fn ends_in_year(stem: &str) -> bool
    ensures { result ≡ ends_in_year stem.now }
{
    let bytes = stem.as_bytes();
    match &bytes[bytes.len().saturating_sub(3)..] {
        [point, tens, units] => {
            *point == b'.' && tens.is_ascii_digit() && units.is_ascii_digit()
        }
        _ => false,
    }
}

/// Returns the name of the output file: the name of the input file with another ending.
///
/// `rnx2crx` makes `.crx` of `.rnx`, `.CRX` of `.RNX`, and after a point and a year in two digits `d` of `o`
/// and `D` of `O`, for example `abcd0010.24d` of `abcd0010.24o`; `crx2rnx` does the opposite. Returns `None`
/// for any other name, and for each name with `check`, and `Refused` if memory is refused.
pub fn output_name(alloc: Global, tool: Tool, name: &str) -> Result<Option<Word>, Refused>
    ensures value { IfOk result (λ target. target ≡ output_name tool name.now) }
{
    let endings: &[Ending] = match tool {
        Tool::Compact => &COMPACTING,
        Tool::Expand => &EXPANDING,
        Tool::Check => &[],
    };
    for ending in endings {
        if let Some(stem) = name.strip_suffix(ending.old) {
            if !ending.after_year || ends_in_year(stem) {
                return Ok(Some(Word::join(alloc, stem, ending.new)?));
            }
        }
    }
    Ok(None)
}
