//! From the arguments to a decision.

ghost use Rattle.std.specs.Prelude.{◌≡◌, IfOk, IfSome, drop, find, map, option_map, string_bytes};
ghost use Rattle.std.specs.Vec.Iter.{into_iter_items};
ghost use Rattle.clap.specs.Words.{found_of, rows_of};
ghost use Rattle.crx_command.specs.meaning.Planning.{given_in, is_file, is_set, job_of, decide, plan_of, tool_named};
ghost use Rattle.crx_command.specs.Planning.{given_of, plan_in};

use crate::command::command;
use crate::job::{Decision, Job, Tool, UsageFault};
use crate::names::output_name;
use crate::word::Word;
use clap::ArgMatches;
use clap::error::ErrorKind;
use crx_base::{Options, Refused};
use std::alloc::{AllocError, Global};
use std::env::Args;

/// The arguments after a subcommand.
#[derive(Clone, Copy)]
struct Arguments<'a> {
    /// How often `-` is given.
    dashes: usize,
    /// How many names of files are given, and the first of them.
    files: usize,
    file: Option<&'a str>,
    every: Option<u32>,
    skip: bool,
    force: bool,
    date: Option<&'a str>,
}

/// Returns the first name that isn't `-`, or `None`.
fn file_among<'a>(names: &[&'a str]) -> Option<&'a str>
    ensures { option_map (λ name. name.now) result ≡ find is_file (map (λ name. name.now) names.now) }
{
    for name in names {
        if *name != "-" {
            return Some(*name);
        }
    }
    None
}

/// Returns whether the flag with the id `flag` was given.
fn is_set(found: &ArgMatches<'_>, flag: &str) -> bool
    ensures { result ≡ is_set flag.now (rows_of (found_of found.now)) }
{
    match found.get_str(flag) {
        Some(text) => text == "true",
        None => false,
    }
}

/// Returns the arguments after a subcommand from clap's result; those not given are 0, `None` or `false`.
fn arguments_of<'a>(found: &ArgMatches<'a>) -> Arguments<'a>
    ensures { given_of result ≡ given_in (rows_of (found_of found.now)) }
{
    let names = found.get_strs("names").unwrap_or(&[]);
    let dashes = names.iter().filter(|name| **name == "-").count();
    Arguments {
        dashes,
        files: names.len() - dashes,
        file: file_among(names),
        every: found.get_one::<u32>("every"),
        skip: is_set(found, "skip"),
        force: is_set(found, "force"),
        date: found.get_str("date"),
    }
}

/// Returns a copy of `text`, or `None` if there is none; or `Refused` if memory is refused.
fn copy_word(alloc: Global, text: Option<&str>) -> Result<Option<Word>, Refused>
    ensures { IfOk result (λ word. word ≡ option_map (λ text. text.now) text.entry) }
{
    match text {
        Some(text) => Ok(Some(Word::new(alloc, text)?)),
        None => Ok(None),
    }
}

/// Returns the run of `tool` with the options in `given`. `source`, `target`: the files to read and to write,
/// `None` for standard input and output. Returns `Refused` if memory is refused.
fn job(
    alloc: Global,
    tool: Tool,
    given: &Arguments<'_>,
    source: Option<&str>,
    target: Option<Word>,
) -> Result<Job, Refused>
    ensures { IfOk result
        (λ job. job ≡ job_of tool (given_of given.now) (option_map (λ name. name.now) source.entry) target) }
{
    Ok(Job {
        tool,
        source: copy_word(alloc, source)?,
        target,
        force: given.force,
        every: given.every,
        skip: given.skip,
        date: copy_word(alloc, given.date)?,
    })
}

/// Returns the run for a subcommand's arguments, or the first fault: `DashTwice`, `TwoFiles`, `BadDate`,
/// `NoName` (see [`plan`]), or `Memory` when memory is refused.
fn decide_for(alloc: Global, tool: Tool, given: &Arguments<'_>) -> Result<Decision, UsageFault>
    ensures { IfSome (plan_in result) (λ plan. plan ≡ decide tool (given_of given.now)) }
{
    if given.dashes > 1 {
        return Err(UsageFault::DashTwice);
    }
    if given.files > 1 {
        return Err(UsageFault::TwoFiles);
    }
    if given
        .date
        .is_some_and(|date| Options::new(None, false, date.as_bytes()).is_err())
    {
        return Err(UsageFault::BadDate);
    }
    let Some(source) = given.file else {
        return Ok(Decision::Run(job(alloc, tool, given, None, None)?));
    };
    if tool == Tool::Check || given.dashes > 0 {
        return Ok(Decision::Run(job(alloc, tool, given, Some(source), None)?));
    }
    match output_name(alloc, tool, source)? {
        Some(target) => Ok(Decision::Run(job(alloc, tool, given, Some(source), Some(target))?)),
        None => Err(UsageFault::NoName(Word::new(alloc, source)?)),
    }
}

/// Returns the tool of the subcommand `name`; `Check` unless it is `rnx2crx` or `crx2rnx`.
fn tool_named(name: &str) -> Tool
    ensures { result ≡ tool_named name.now }
{
    match name {
        "rnx2crx" => Tool::Compact,
        "crx2rnx" => Tool::Expand,
        _ => Tool::Check,
    }
}

/// Returns a process's arguments in order, without the first, its name; `AllocError` if memory is refused.
pub fn words_given(alloc: Global, arguments: Args) -> Result<Vec<String>, AllocError>
    ensures words { IfOk result (λ words. words.items ≡ drop 1 (into_iter_items arguments)) }
{
    arguments.skip(1).collect(alloc)
}

/// Returns the decision for the arguments, which don't include the program's name.
///
/// `Help` holds the help of `-h` or `--help`. Returns `Parse`, with the text for the user, if the arguments
/// aren't those of the command line. Otherwise the first of these faults is returned: `DashTwice` if `-` is
/// given more than once, `TwoFiles` if there is more than one file name, `BadDate` if the date has more than
/// `DATE_LIMIT` bytes or a byte outside 32 to 126, and `NoName` if the output would go to a file but the
/// input's name has no ending that can be changed (see [`output_name`]). At any of these places `Memory` is
/// returned if memory is refused.
///
/// Without a file name standard input is read. `check`, and the others without a file name or with `-`, write
/// to standard output.
#[inline(never)]
pub fn plan(alloc: Global, words: Vec<String>) -> Result<Decision, UsageFault>
    ensures value { IfSome (plan_in result) (λ plan. plan ≡ plan_of (map string_bytes words.items)) }
{
    let matches = match command(alloc)?.try_get_matches_from(words.as_slice()) {
        Ok(matches) => matches,
        Err(error) => match error.kind() {
            ErrorKind::OutOfMemory => return Err(UsageFault::Memory),
            ErrorKind::DisplayHelp => return Ok(Decision::Help(Word::display(alloc, &error)?)),
            _ => return Err(UsageFault::Parse(Word::display(alloc, &error)?)),
        },
    };
    let Some((name, found)) = matches.subcommand() else {
        return Err(UsageFault::Parse(Word::new(alloc, "no subcommand\n")?));
    };
    decide_for(alloc, tool_named(name), &arguments_of(found))
}
