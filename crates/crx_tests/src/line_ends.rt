//! An LF at each place of a text, and none.
use crate::expecting::expect_at;
use crx_lines::{LineReader, Std};
use std::alloc::Global;
use std::process::Abort;
use std::test::Fail;

/// Returns the length of the next line, if there is one, and the greatest number for a fault.
fn next_length(lines: &mut LineReader, reader: &mut Std<&[u8]>) -> Option<usize> {
    match lines.next_line(reader) {
        Ok(Some(line)) => Some(line.bytes().len()),
        Ok(None) => None,
        Err(_) => Some(usize::MAX),
    }
}

/// Expects that a text has lines of these lengths, and no others.
fn expect_lengths(
    rt: &impl Abort,
    alloc: Global,
    bytes: &[u8],
    lengths: &[usize],
) -> Result<(), Fail> {
    let mut reader = Std::new(bytes);
    let mut lines = LineReader::new(alloc)?;
    for length in lengths {
        let next = next_length(&mut lines, &mut reader);
        expect_at(rt, next == Some(*length), "a line of bytes:", *length);
    }
    let last = next_length(&mut lines, &mut reader);
    expect_at(rt, last.is_none(), "no line after bytes:", bytes.len());
    Ok(())
}

const LENGTH: usize = 130;

#[test]
fn finds_an_lf_at_each_place(rt: HostRuntime) -> Result<(), Fail> {
    let mut bytes = [b'x'; LENGTH];
    expect_lengths(&rt, rt.alloc(), &bytes, &[LENGTH])?;
    for at in 0..LENGTH {
        let rest = LENGTH - at - 1;
        let count = if rest > 0 { 2 } else { 1 };
        bytes[at] = b'\n';
        expect_lengths(&rt, rt.alloc(), &bytes, &[at, rest][..count])?;
        bytes[at] = 11;
    }
    expect_lengths(&rt, rt.alloc(), &bytes, &[LENGTH])
}
