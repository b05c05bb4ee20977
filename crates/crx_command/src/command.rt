//! The command line: its subcommands, their options, and their help.

ghost use Rattle.std.specs.Prelude.{◌≡◌, IfOk, codes};
ghost use Rattle.clap.specs.Words.{app_of, new_app, shape_of, with_rule};
ghost use Rattle.crx_command.specs.Arguments.{HasRule};
ghost use Rattle.crx_command.specs.meaning.Commands.{checker, crx2rnx, date_rule, every_rule, flag_rule, names_rule, program, rnx2crx, top};

use clap::{Arg, ArgAction, Command, value_parser};
use std::alloc::{AllocError, Global};

// The version is that of the file VERSION; tests/release compares.
const ABOUT: &str = "rnxcmp 2.0.0-dev: compress, expand and check RINEX 3.0x observation files";

const HELP: &str = "\
Input is FILE, or standard input without one. Output goes to a file named after
FILE, or with `-` or without FILE to standard output:
  rnx2crx  .rnx to .crx, .24o to .24d (any year; capitals stay capitals)
  crx2rnx  .crx to .rnx, .24d to .24o
  other names: rnxcmp rnx2crx - site.obs > site.crx

Nothing is overwritten without -f, and no input is ever deleted. For many files
at once, packed or not, see rnxcmp-file --help.

RINEX 2 and 4, Compact RINEX 1.0 and navigation files are refused.

Errors and warnings go to standard error, one line each:
  ERROR line 7 code 18: bad indicator
`rnxcmp-file explain FILE` shows the field and the likely causes.

Exit status:
  0  success; check: the file comes back byte for byte
  1  error
  2  -s skipped epochs; check: valid, but won't come back byte for byte

Examples:
  rnxcmp check abcd0010.24o              # will it come back unchanged?
  rnxcmp rnx2crx abcd0010.24o            # writes abcd0010.24d
  rnxcmp crx2rnx - abcd0010.24d | less
  gzip -dc a.crx.gz | rnxcmp crx2rnx > a.rnx";

const RNX2CRX_ABOUT: &str = "Compress RINEX 3.0x to Compact RINEX 3.0";

const RNX2CRX_HELP: &str = "\
Reads FILE, or standard input without one. Writes a file named after FILE (.rnx
becomes .crx and .24o .24d, any year; capitals stay capitals), or with `-` or
without FILE standard output.

-e N limits the loss if the output gets damaged: crx2rnx -s then drops the
damaged epoch and those up to the next full one (conditions: GUARANTEES.md).

Exit status: 0 success; 1 error (the output so far is kept); 2 epochs were
skipped (-s).

Examples:
  rnxcmp rnx2crx abcd0010.24o            # writes abcd0010.24d
  rnxcmp rnx2crx -s -e 120 - a.rnx > a.crx
  rnxcmp rnx2crx --date '01-Jan-24 00:00' < a.rnx > a.crx";

const CRX2RNX_ABOUT: &str = "Expand Compact RINEX 3.0 to RINEX 3.0x";

const CRX2RNX_HELP: &str = "\
Reads FILE, or standard input without one. Writes a file named after FILE (.crx
becomes .rnx and .24d .24o, any year; capitals stay capitals), or with `-` or
without FILE standard output.

Exit status: 0 success; 1 error (the output so far is kept); 2 epochs were
skipped (-s).

Examples:
  rnxcmp crx2rnx abcd0010.24d            # writes abcd0010.24o
  gzip -dc a.crx.gz | rnxcmp crx2rnx -s > a.rnx";

const CHECK_ABOUT: &str = "Tell whether a RINEX 3.0x file comes back byte for byte";

const CHECK_HELP: &str = "\
Reads FILE, or standard input without one, and prints six lines: format, systems
with their counts of observation types, epochs, events, observations, and
`standard yes` or `standard no` with the first line that won't come back as it
is when the file is compressed and expanded.

Exit status: 0 standard; 1 error, no report; 2 valid, but not standard.

Examples:
  rnxcmp check abcd0010.24o
  rnxcmp crx2rnx - abcd0010.24d | rnxcmp check";

const OBSERVATION_FILE: &str = "One RINEX file; `-` writes to standard output";

const COMPACT_FILE: &str = "One Compact RINEX file; `-` writes to standard output";

const CHECKED_FILE: &str = "One RINEX file; `-` changes nothing";

/// Returns the option `-e N`, which takes numbers from 1 to 1000000.
fn every_option<'a>(alloc: Global) -> Arg<'a>
    ensures { HasRule result every_rule }
{
    Arg::new(alloc, "every")
        .short('e')
        .value_name("N")
        .value_parser(value_parser!(u32).range(1..=1_000_000))
        .help("Store every N-th epoch in full, at most 1000000")
}

/// Returns the option `--date TEXT`. It takes any text; `plan` refuses a bad date.
fn date_option<'a>(alloc: Global) -> Arg<'a>
    ensures { HasRule result date_rule }
{
    Arg::new(alloc, "date").long("date").value_name("TEXT").help(
        "The date in line 2, at most 20 bytes [default: now, in UTC]",
    )
}

/// Returns the argument for any number of names of files, of which `-` is one, in any order. `plan` refuses a
/// second file and a second `-`. `help`: the argument's help text.
fn names_of_files<'a>(alloc: Global, help: &'a str) -> Arg<'a>
    ensures { HasRule result names_rule }
{
    Arg::new(alloc, "names")
        .action(ArgAction::Append)
        .num_args(0..)
        .value_name("FILE")
        .help(help)
}

/// Returns a command without arguments. `about`: a line about it; `help`: the text after its options.
fn with_title<'a>(alloc: Global, name: &'a str, about: &'a str, help: &'a str) -> Command<'a>
    ensures { app_of result ≡ new_app name.now }
{
    Command::new(alloc, name).about(about).after_help(help)
}

/// Returns the flag `-letter`, which takes no value. `id`: its name in the results; `help`: its help text.
fn flag<'a>(alloc: Global, id: &'a str, letter: char, help: &'a str) -> Arg<'a>
    ensures { HasRule result (flag_rule id.now letter) }
{
    Arg::new(alloc, id)
        .short(letter)
        .action(ArgAction::SetTrue)
        .help(help)
}

/// Adds `-s` and `-f` after a command's other arguments. Returns `AllocError` if memory is refused.
fn with_flags<'a>(alloc: Global, command: Command<'a>) -> Result<Command<'a>, AllocError>
    ensures { IfOk result (λ c. app_of c ≡ with_rule (with_rule (app_of command.entry)
        (flag_rule (codes "skip") 115)) (flag_rule (codes "force") 102)) }
{
    command
        .arg(flag(alloc, "skip", 's', "Skip bad epochs, with warnings"))?
        .arg(flag(alloc, "force", 'f', "Overwrite the output file"))
}

/// Returns the subcommand `rnx2crx`, or `AllocError` if memory is refused.
fn rnx2crx<'a>(alloc: Global) -> Result<Command<'a>, AllocError>
    ensures { IfOk result (λ c. shape_of c ≡ rnx2crx) }
{
    let start = with_title(alloc, "rnx2crx", RNX2CRX_ABOUT, RNX2CRX_HELP)
        .override_usage("rnxcmp rnx2crx [OPTIONS] [FILE]...")
        .arg(every_option(alloc))?;
    with_flags(alloc, start)?
        .arg(date_option(alloc))?
        .arg(names_of_files(alloc, OBSERVATION_FILE))
}

/// Returns the subcommand `crx2rnx`, or `AllocError` if memory is refused.
fn crx2rnx<'a>(alloc: Global) -> Result<Command<'a>, AllocError>
    ensures { IfOk result (λ c. shape_of c ≡ crx2rnx) }
{
    let start = with_title(alloc, "crx2rnx", CRX2RNX_ABOUT, CRX2RNX_HELP).override_usage(
        "rnxcmp crx2rnx [OPTIONS] [FILE]...",
    );
    with_flags(alloc, start)?.arg(names_of_files(alloc, COMPACT_FILE))
}

/// Returns the subcommand `check`, or `AllocError` if memory is refused.
fn checker<'a>(alloc: Global) -> Result<Command<'a>, AllocError>
    ensures { IfOk result (λ c. shape_of c ≡ checker) }
{
    with_title(alloc, "check", CHECK_ABOUT, CHECK_HELP)
        .override_usage("rnxcmp check [FILE]...")
        .arg(names_of_files(alloc, CHECKED_FILE))
}

/// Returns the whole command line: `rnx2crx`, `crx2rnx` and `check`, each with its options and its help; or
/// `AllocError` if memory is refused. Its arguments don't include the program's name.
pub(crate) fn command<'a>(alloc: Global) -> Result<Command<'a>, AllocError>
    ensures { IfOk result (λ c. app_of c ≡ program) }
{
    let top = with_title(alloc, "rnxcmp", ABOUT, HELP)
        .no_binary_name(true)
        .disable_help_subcommand(true)
        .subcommand_required(true);
    let one = top.subcommand(rnx2crx(alloc)?)?;
    let two = one.subcommand(crx2rnx(alloc)?)?;
    two.subcommand(checker(alloc)?)
}
