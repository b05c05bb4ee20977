//! Compact text that is cut off at each byte, or has each byte replaced.

use super::cases::cases;
use super::*;

/// Returns whether the output of a run begins with the first `lines` lines of a text.
fn has_written(left: &Left, whole: &[u8], lines: usize) -> bool {
    match whole.get(..length_of_lines(whole, lines)) {
        Some(wanted) => left.writer.contents().starts_with(wanted),
        None => false,
    }
}

/// Returns whether a run with enough memory and room ended as runs do: without a message, or with one and
/// another status.
fn has_ended(left: &Left) -> bool {
    if let Some(at) = left.outcome.fault {
        if at.fault == Fault::OutOfMemory || at.fault == Fault::WriteFailed {
            return false;
        }
    }
    match left.outcome.status {
        0 => left.messages.contents().is_empty(),
        1 | 2 => !left.messages.contents().is_empty(),
        _ => false,
    }
}

/// Returns whether an input is expanded to an end, and at least to `lines` lines of a text.
fn is_expanded(
    alloc: Global,
    skip: bool,
    input: &[u8],
    whole: &[u8],
    lines: usize,
) -> Result<bool, Fail> {
    let left = run(alloc, Tool::Expand, skip, input, good(ROOM))?;
    Ok(has_ended(&left) && has_written(&left, whole, lines))
}

/// Does the same as [`is_expanded`], both with and without skipping faults.
fn is_expanded_always(
    alloc: Global,
    input: &[u8],
    whole: &[u8],
    lines: usize,
) -> Result<bool, Fail> {
    Ok(
        is_expanded(alloc, false, input, whole, lines)?
            && is_expanded(alloc, true, input, whole, lines)?,
    )
}

/// Returns whether a prefix of a case's input is expanded at least to the output for its whole lines.
fn is_expanded_from(
    alloc: Global,
    case: &Case,
    texts: &Texts,
    length: usize,
) -> Result<bool, Fail> {
    let input = texts.input.as_slice();
    let lines = lines_within(input, length.saturating_sub(1));
    let count = case.after.get(lines).copied().unwrap_or(0);
    let prefix = input.get(..length).unwrap_or(b"");
    is_expanded_always(alloc, prefix, texts.output.as_slice(), count)
}

#[test]
fn each_prefix_is_expanded(rt: HostRuntime) -> Result<(), Fail> {
    for case in cases() {
        if let Tool::Expand = case.tool {
            let texts = Texts::of(rt.alloc(), case)?;
            for length in 0..texts.input.len() {
                let is_so = is_expanded_from(rt.alloc(), case, &texts, length)?;
                expect_at(&rt, is_so, case.name, length);
            }
        }
    }
    Ok(())
}

/// Compact text with a satellite that is absent once, and with types that change in an event.
const TEXTS: &[&str] = &["K|H|A1|A2|A3", "K|H|CT"];

fn with_byte(alloc: Global, text: &[u8], place: usize, byte: u8) -> Result<Vec<u8>, AllocError> {
    let mut damaged = Vec::new(alloc);
    for (at, old) in text.iter().enumerate() {
        damaged.push(if at == place { byte } else { *old })?;
    }
    Ok(damaged)
}

/// Returns whether a text with another byte at a place is expanded to an end.
fn has_ends(alloc: Global, text: &[u8], place: usize, byte: u8) -> Result<bool, Fail> {
    let input = with_byte(alloc, text, place, byte)?;
    is_expanded_always(alloc, input.as_slice(), b"", 0)
}

/// The bytes that replace others.
const BYTES: &[u8] = &[0, b'&', b'>', 255];

#[test]
fn each_byte_is_replaced(rt: HostRuntime) -> Result<(), Fail> {
    for names in TEXTS {
        let whole = text(rt.alloc(), names)?;
        for place in 0..whole.len() {
            for byte in BYTES {
                let is_so = has_ends(rt.alloc(), whole.as_slice(), place, *byte)?;
                expect_at(&rt, is_so, names, place);
            }
        }
    }
    Ok(())
}
