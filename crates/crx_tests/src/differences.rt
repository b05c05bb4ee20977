//! Position-wise differences of texts, and back.

use crate::expecting::{expect, expect_at};
use crate::texts::as_text;
use crx_base::limits::LINE_LIMIT;
use crx_text::{Text, diff_text, patch_text, trim_end};
use std::process::Abort;

/// The text before each new text in the tables.
const OLD: &[u8] = b"> 21 01 01  0 30";

/// New texts, whether each is allowed, and the marks after it.
const MARKS: &[(&[u8], bool, &[u8])] = &[
    (b"> 21 01 01  1  0  2", true, b"            1 &   2"),
    (b"> 21 01 01  0 30 ", true, b""),
    (b"a&b", false, b""),
    (b"a\tb", false, b""),
];

fn has_marks(old: &Text, marks: &mut Text, row: &(&[u8], bool, &[u8])) -> bool {
    let (new, may_stand, wanted) = *row;
    new.len() <= LINE_LIMIT
        && diff_text(old, new, marks).is_ok() == may_stand
        && marks.bytes() == wanted
}

#[test]
fn marks_of_texts(rt: HostRuntime) {
    let mut old = Text::new();
    assert!(rt; old.extend(OLD).is_ok());
    let mut marks = Text::new();
    for row in MARKS {
        expect(&rt, has_marks(&old, &mut marks, row), as_text(row.0));
    }
}

/// Marks, whether they are allowed, and the text after them.
const PATCHES: &[(&[u8], bool, &[u8])] = &[
    (b"            1 &   2", true, b"> 21 01 01  1  0  2"),
    (b"             &&&&&&", true, b"> 21 01 01  0"),
    (b"a\tb", false, b"> 21 01 01  0"),
];

fn gives(old: &Text, text: &mut Text, row: &(&[u8], bool, &[u8])) -> bool {
    let (marks, may_stand, wanted) = *row;
    marks.len() <= LINE_LIMIT
        && patch_text(old, marks, text).is_ok() == may_stand
        && text.bytes() == wanted
}

#[test]
fn texts_of_marks(rt: HostRuntime) {
    let mut old = Text::new();
    assert!(rt; old.extend(OLD).is_ok());
    let mut text = Text::new();
    for row in PATCHES {
        expect(&rt, gives(&old, &mut text, row), as_text(row.0));
    }
}

// Returns a letter for each place, with different neighbours.
fn letters() -> [u8; LINE_LIMIT] {
    let mut text = [b' '; LINE_LIMIT];
    for place in 0..LINE_LIMIT {
        text[place] = b'A' + (place % 23) as u8;
    }
    text
}

// Returns lengths near those of vectors, and the greatest one.
fn lengths() -> [usize; 135] {
    let mut lengths = [0; 135];
    for index in 0..131 {
        lengths[index] = index;
    }
    lengths[131] = 2047;
    lengths[132] = 2048;
    lengths[133] = LINE_LIMIT - 1;
    lengths[134] = LINE_LIMIT;
    lengths
}

/// Returns whether two texts that differ at one place have this mark there and no other, and the mark makes the
/// new text again.
fn is_marked(old: &Text, new: &[u8], place: usize, mark: u8) -> bool {
    let mut marks = Text::new();
    let mut back = Text::new();
    new.len() <= LINE_LIMIT
        && diff_text(old, new, &mut marks).is_ok()
        && marks.bytes().iter().position(|mark| *mark != b' ') == Some(place)
        && marks.bytes().len() == place.saturating_add(1)
        && marks.bytes().last() == Some(&mark)
        && patch_text(old, marks.bytes(), &mut back).is_ok()
        && back.bytes() == trim_end(new)
}

/// Returns whether a new text isn't allowed. `may_be_marks`: whether it is allowed as marks.
fn is_refused(old: &Text, new: &[u8], may_be_marks: bool) -> bool {
    let mut out = Text::new();
    new.len() <= LINE_LIMIT
        && diff_text(old, new, &mut out).is_err()
        && patch_text(old, new, &mut out).is_ok() == may_be_marks
}

/// Characters that replace another one: the mark of each, and those that aren't allowed, with whether they are
/// allowed as marks.
const MARKED: &[(u8, u8)] = &[(b'#', b'#'), (b' ', b'&')];

const REFUSED: &[(u8, bool)] = &[(b'&', true), (127, false), (31, false)];

/// Expects the results for each of these characters at a place of a text.
fn expect_others(rt: &impl Abort, old: &Text, new: &mut [u8], place: usize) {
    if place >= new.len() {
        return;
    }
    let before = new[place];
    expect_at(
        rt,
        trim_end(&new[..place]).len() == place,
        "blank before",
        place,
    );
    for (character, mark) in MARKED {
        new[place] = *character;
        expect_at(rt, is_marked(old, new, place, *mark), "a mark at", place);
    }
    for (character, may_be_marks) in REFUSED {
        new[place] = *character;
        expect_at(
            rt,
            is_refused(old, new, *may_be_marks),
            "a character at",
            place,
        );
    }
    new[place] = before;
}

#[test]
fn empty_texts(rt: HostRuntime) {
    let old = Text::new();
    let mut text = Text::new();
    expect(&rt, has_marks(&old, &mut text, &(b"", true, b"")), "marks");
    expect(&rt, gives(&old, &mut text, &(b"", true, b"")), "a text");
}

#[test]
fn one_other_character_at_each_length(rt: HostRuntime) {
    let mut old = Text::new();
    let mut new = letters();
    for count in lengths().iter() {
        let length = LINE_LIMIT.min(*count);
        old.clear();
        assert!(rt; old.extend(&new[..length]).is_ok());
        expect_others(&rt, &old, &mut new[..length], 0);
        expect_others(&rt, &old, &mut new[..length], length / 2);
        expect_others(&rt, &old, &mut new[..length], length.saturating_sub(1));
    }
}
