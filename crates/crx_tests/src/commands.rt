//! The calls of the command line: the decision for arguments, and the date of a moment or of a clock.

use crate::expecting::expect;
use crx_command::date::{date_text, default_date};
use crx_command::job::{Decision, UsageFault};
use crx_command::plan::plan;
use crx_command::word::Word;
use jiff::Timestamp;
use std::alloc::{AllocError, Global};
use std::io;
use std::io::ErrorKind;
use std::time::{Clock, Duration};

/// Moments in seconds and nanoseconds after 1970 began, or before, and their dates.
const MOMENTS: &[(i64, i32, &str)] = &[
    (0, 0, "01-Jan-70 00:00"),
    (1_704_067_199, 0, "31-Dec-23 23:59"),
    (0, -1, "31-Dec-69 23:59"),
];

/// A clock's seconds after 1970 began, or none, and the date of a run at that moment.
const CLOCKS: &[(Option<u64>, &str)] = &[
    (Some(1_704_067_199), "31-Dec-23 23:59"),
    // the year 14645, which no date has
    (Some(400_000_000_000), ""),
    (None, ""),
];

/// Arguments with blanks between them, and the names of the files that the run reads and writes; an empty name
/// means a standard stream.
const RUNS: &[(&str, &str, &str)] = &[
    ("crx2rnx abcd0010.24d", "abcd0010.24d", "abcd0010.24o"),
    ("check - a.rnx", "a.rnx", ""),
    ("rnx2crx - a.txt", "a.txt", ""),
    ("crx2rnx - x.crx", "x.crx", ""),
];

/// Why arguments are refused.
#[derive(Clone, Copy)]
enum Refused {
    Parse,
    DashTwice,
    TwoFiles,
    BadDate,
    NoName,
}

/// Arguments that are refused.
const REFUSALS: &[(&str, Refused)] = &[
    ("rnx2crx a.txt", Refused::NoName),
    ("rnx2crx - - a b", Refused::DashTwice),
    ("rnx2crx a.rnx b.rnx", Refused::TwoFiles),
    ("rnx2crx -e 0", Refused::Parse),
    ("rnx2crx -e 1000001", Refused::Parse),
    ("rnx2crx --date abcdefghijklmnopqrstu", Refused::BadDate),
];

/// A clock that stays at one moment, or has none.
#[derive(Drop)]
struct Standing {
    moment: Option<u64>,
}

impl Clock for Standing {
    fn monotonic(&self) -> io::Result<Duration> {
        self.since_1970()
    }

    fn since_1970(&self) -> io::Result<Duration> {
        match self.moment {
            Some(seconds) => Ok(Duration::from_secs(seconds)),
            None => Err(io::Error::from(ErrorKind::Unsupported)),
        }
    }
}

fn words_of(alloc: Global, text: &str) -> Result<Vec<String>, AllocError> {
    let mut words = Vec::new(alloc);
    for word in text.split(' ') {
        if !word.is_empty() {
            words.push(String::from_str(alloc, word)?)?;
        }
    }
    Ok(words)
}

fn is_date_of(alloc: Global, seconds: i64, nanoseconds: i32, wanted: &str) -> bool {
    match Timestamp::new(seconds, nanoseconds) {
        Ok(at) => match date_text(alloc, at) {
            Ok(text) => text.as_str() == wanted,
            Err(_) => false,
        },
        Err(_) => false,
    }
}

fn is_default(alloc: Global, moment: Option<u64>, wanted: &str) -> bool {
    match default_date(&Standing { moment }, alloc) {
        Ok(text) => text.as_str() == wanted,
        Err(_) => false,
    }
}

/// Returns whether a word is this name; an empty name means no word.
fn is_named(word: &Option<Word>, name: &str) -> bool {
    match word {
        Some(word) => word.text() == name,
        None => name.is_empty(),
    }
}

fn is_run(decision: &Decision, source: &str, target: &str) -> bool {
    match decision {
        Decision::Run(job) => is_named(&job.source, source) && is_named(&job.target, target),
        Decision::Help(_) => false,
    }
}

/// Returns whether a decision is to show a help text that isn't empty.
fn is_help(decision: &Decision) -> bool {
    match decision {
        Decision::Help(text) => !text.text().is_empty(),
        Decision::Run(_) => false,
    }
}

fn is_refused(fault: &UsageFault, wanted: Refused) -> bool {
    match (fault, wanted) {
        (UsageFault::Parse(_), Refused::Parse) => true,
        (UsageFault::DashTwice, Refused::DashTwice) => true,
        (UsageFault::TwoFiles, Refused::TwoFiles) => true,
        (UsageFault::BadDate, Refused::BadDate) => true,
        (UsageFault::NoName(name), Refused::NoName) => name.text() == "a.txt",
        _ => false,
    }
}

#[test]
fn dates_of_moments(rt: HostRuntime) {
    for (seconds, nanoseconds, wanted) in MOMENTS {
        expect(
            &rt,
            is_date_of(rt.alloc(), *seconds, *nanoseconds, wanted),
            wanted,
        );
    }
}

#[test]
fn default_dates_of_clocks(rt: HostRuntime) {
    for (moment, wanted) in CLOCKS {
        expect(&rt, is_default(rt.alloc(), *moment, wanted), wanted);
    }
}

#[test]
fn runs_that_arguments_ask_for(rt: HostRuntime) -> Result<(), AllocError> {
    for (words, source, target) in RUNS {
        let is_so = match plan(rt.alloc(), words_of(rt.alloc(), words)?) {
            Ok(decision) => is_run(&decision, source, target),
            Err(_) => false,
        };
        expect(&rt, is_so, words);
    }
    Ok(())
}

#[test]
fn arguments_that_are_refused(rt: HostRuntime) -> Result<(), AllocError> {
    for (words, wanted) in REFUSALS {
        let is_so = match plan(rt.alloc(), words_of(rt.alloc(), words)?) {
            Ok(_) => false,
            Err(fault) => is_refused(&fault, *wanted),
        };
        expect(&rt, is_so, words);
    }
    Ok(())
}

#[test]
fn help_that_arguments_ask_for(rt: HostRuntime) -> Result<(), AllocError> {
    let is_so = match plan(rt.alloc(), words_of(rt.alloc(), "rnx2crx -h")?) {
        Ok(decision) => is_help(&decision),
        Err(_) => false,
    };
    expect(&rt, is_so, "rnx2crx -h");
    Ok(())
}
