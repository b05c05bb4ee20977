//! Lines with each kind of line end, from a slice and from a reader that fails.

use crate::expecting::expect_at;
use crx_base::limits::LINE_LIMIT;
use crx_base::{At, Fault};
use crx_devices::{FailingSource, Plan, When};
use crx_lines::{Line, LineReader, Source, Std};
use std::alloc::{AllocError, Global};
use std::process::Abort;
use std::test::Fail;

/// The expected result of a call.
#[derive(Clone, Copy)]
enum Answer<'a> {
    /// A line's content, its number, and whether only LF ends it.
    Line(&'a [u8], u64, bool),
    /// No line is left.
    End,
    /// A fault, with the number of its line.
    Fault(u64, Fault),
}

fn is_wanted(answer: Result<Option<Line<'_>>, At>, wanted: Answer<'_>) -> bool {
    match (answer, wanted) {
        (Ok(Some(line)), Answer::Line(content, number, plain)) => {
            line.bytes() == content && line.number() == number && line.plain() == plain
        }
        (Ok(None), Answer::End) => true,
        (Err(at), Answer::Fault(line, fault)) => at.line == line && at.fault == fault,
        _ => false,
    }
}

fn expect_answers<R: Source>(
    rt: &impl Abort,
    alloc: Global,
    reader: &mut R,
    wanted: &[Answer<'_>],
) -> Result<(), Fail> {
    let mut lines = LineReader::new(alloc)?;
    for (call, answer) in wanted.iter().enumerate() {
        let is = is_wanted(lines.next_line(reader), *answer);
        expect_at(rt, is, "call", call);
    }
    Ok(())
}

/// Bytes, and the results of calls one after another.
const LINE_ENDS: &[(&[u8], &[Answer<'_>])] = &[
    (b"", &[Answer::End, Answer::End]),
    (
        b"a\nbb\r\nc\r",
        &[
            Answer::Line(b"a", 1, true),
            Answer::Line(b"bb", 2, false),
            Answer::Line(b"c", 3, false),
            Answer::End,
            Answer::End,
        ],
    ),
    (b"\r", &[Answer::Line(b"", 1, false), Answer::End]),
    (
        b"\n\n",
        &[
            Answer::Line(b"", 1, true),
            Answer::Line(b"", 2, true),
            Answer::End,
        ],
    ),
    (
        b"x\r\r\ny",
        &[
            Answer::Line(b"x\r", 1, false),
            Answer::Line(b"y", 2, false),
            Answer::End,
        ],
    ),
    (b"last", &[Answer::Line(b"last", 1, false), Answer::End]),
];

#[test]
fn reads_each_line_end(rt: HostRuntime) -> Result<(), Fail> {
    for (bytes, wanted) in LINE_ENDS {
        expect_answers(&rt, rt.alloc(), &mut Std::new(*bytes), wanted)?;
    }
    Ok(())
}

#[test]
fn stops_at_a_failed_read(rt: HostRuntime) -> Result<(), Fail> {
    let plan = Plan::from_then_on(When::AfterBytes(4));
    let mut reader = FailingSource::new(b"a\nbc", 1, plan);
    let wanted = [
        Answer::Line(b"a", 1, true),
        Answer::Fault(2, Fault::ReadFailed),
        Answer::Fault(2, Fault::ReadFailed),
    ];
    expect_answers(&rt, rt.alloc(), &mut reader, &wanted)?;
    assert_eq!(rt; reader.failures(), 1);
    Ok(())
}

fn push_line(
    text: &mut Vec<u8>,
    character: u8,
    length: usize,
    end: &[u8],
) -> Result<(), AllocError> {
    for _ in 0..length {
        text.push(character)?;
    }
    text.extend_from_slice(end)
}

/// Returns a line at the limit, two that are longer, and a short one.
fn long_lines(alloc: Global) -> Result<Vec<u8>, AllocError> {
    let mut text = Vec::new(alloc);
    push_line(&mut text, b'x', LINE_LIMIT, b"\r\n")?;
    push_line(&mut text, b'y', LINE_LIMIT.saturating_add(1), b"\n")?;
    push_line(&mut text, b'y', 70_000, b"\n")?;
    text.extend_from_slice(b"end")?;
    Ok(text)
}

#[test]
fn reports_lines_over_the_limit(rt: HostRuntime) -> Result<(), Fail> {
    let text = long_lines(rt.alloc())?;
    let bytes = text.as_slice();
    let wanted = [
        Answer::Line(bytes.get(..LINE_LIMIT).unwrap_or(b""), 1, false),
        Answer::Fault(2, Fault::LineTooLong),
        Answer::Fault(3, Fault::LineTooLong),
        Answer::Line(b"end", 4, false),
        Answer::End,
    ];
    expect_answers(&rt, rt.alloc(), &mut Std::new(bytes), &wanted)
}
