//! Texts of whole files, line by line, and the lines that several tests use: each is here once, under a name.

use std::alloc::{AllocError, Global};

/// Names in texts, and their lines, with `|` between lines.
const NAMED: &[(&str, &str)] = &[
    // A header of one system and one type
    (
        "H",
        "     3.04           OBSERVATION DATA    G                   RINEX VERSION / TYPE|G    1 C1C                                                  SYS / # / OBS TYPES|                                                            END OF HEADER",
    ),
    // The two lines before it in compact text, with the date `D`
    (
        "K",
        "3.0                 COMPACT RINEX FORMAT                    CRINEX VERS   / TYPE|RNX2CRX profile 1.0                     D                   CRINEX PROG / DATE",
    ),
    // Five epochs
    (
        "E1",
        "> 2024 01 01 00 00  0.0000000  0  1|G01  20000000.000",
    ),
    (
        "E2",
        "> 2024 01 01 00 00  1.0000000  0  1|G01  20000100.500",
    ),
    (
        "E3",
        "> 2024 01 01 00 00  2.0000000  0  1|G01  20000202.000",
    ),
    (
        "E4",
        "> 2024 01 01 00 00  3.0000000  0  1|G01  20000304.500",
    ),
    (
        "E5",
        "> 2024 01 01 00 00  4.0000000  0  1|G01  20000408.000",
    ),
    // The second one with a bad indicator
    (
        "B2",
        "> 2024 01 01 00 00  1.0000000  0  1|G01  20000100.500&",
    ),
    // The compact lines of three of them, each full
    (
        "F1",
        "> 2024 01 01 00 00  0.0000000  0  1      G01||3&20000000000",
    ),
    (
        "F2",
        "> 2024 01 01 00 00  1.0000000  0  1      G01||3&20000100500",
    ),
    (
        "F3",
        "> 2024 01 01 00 00  2.0000000  0  1      G01||3&20000202000",
    ),
    // The compact lines of each one after those before it
    ("C2", "                    1||100500"),
    ("C3", "                    2||1000"),
    ("C4", "                    3||0"),
    ("C5", "                    4||0"),
    // Types that change in an event, and their compact lines
    (
        "RT",
        "> 2024 01 01 00 00  0.0000000  0  1|G01         1.000|> 2024 01 01 00 00  1.0000000  4  1|G    2 C1C L1C                                              SYS / # / OBS TYPES|> 2024 01 01 00 00  2.0000000  0  1|G01         3.000          12.500",
    ),
    (
        "CT",
        "> 2024 01 01 00 00  0.0000000  0  1      G01||3&1000|> 2024 01 01 00 00  1.0000000  4  1|G    2 C1C L1C                                              SYS / # / OBS TYPES|> 2024 01 01 00 00  2.0000000  0  1      G01||3&3000 3&12500",
    ),
    // The compact lines of three epochs with a satellite that is absent in the second one
    (
        "A1",
        "> 2024 01 01 00 00  0.0000000  0  2      G01G02||3&1000|3&5000  7",
    ),
    (
        "A2",
        "                    1             1         &&&||1000",
    ),
    (
        "A3",
        "                    2             2         G02||0|3&7000  7",
    ),
];

/// Returns the lines of a name, with `|` between them; any other text is its own lines.
pub fn lines_of<'a>(name: &'a str) -> &'a str {
    for (known, lines) in NAMED {
        if *known == name {
            return lines;
        }
    }
    name
}

/// Appends lines to a text, each with LF.
fn push_lines(text: &mut Vec<u8>, lines: &str) -> Result<(), AllocError> {
    for line in lines.split('|') {
        text.extend_from_slice(line.as_bytes())?;
        text.push(b'\n')?;
    }
    Ok(())
}

/// Returns the text of lines and of names of lines that are separated by `|`: each line ends with LF. Without
/// lines the text is empty.
pub fn text(alloc: Global, names: &str) -> Result<Vec<u8>, AllocError> {
    let mut text = Vec::new(alloc);
    if names.is_empty() {
        return Ok(text);
    }
    for name in names.split('|') {
        push_lines(&mut text, lines_of(name))?;
    }
    Ok(text)
}

/// Returns bytes as a text for a message, or an empty text if they are none.
pub fn as_text(bytes: &[u8]) -> &str {
    match str::from_utf8(bytes) {
        Ok(text) => text,
        Err(_) => "",
    }
}
