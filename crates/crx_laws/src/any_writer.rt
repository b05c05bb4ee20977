//! Compact text of any writer: it is read with its defined meaning, and no other text is accepted.

ghost use Rattle.crx_compact.specs.AnyWriter.{ReadsAnyEpoch, ReadsAnyRow, ReadsSomebodysEpoch, ReadsSomebodysRow};
ghost use Rattle.crx_filter.specs.CompactText.{AcceptsExactly, ExpandsAnyText, IsOfOneFile, OwnTextIsOne, WritesFirstUnits};
ghost use Rattle.crx_filter.specs.meaning.CompactText.{AreWholeFile, IsCompactTextOf};
ghost use Rattle.crx_laws.specs.WildText.{wild_text, wild_units};

/// A satellite's line of any writer is read as its row: whichever arcs start in it, of any order, however
/// numbers are spelt, and with any marks that result in the indicators.
pub fn any_row_is_read()
    ensures law { ReadsAnyRow }
{}

/// The lines of an epoch, of any writer, are read as that epoch, full or with differences, with any marks
/// that result in its text. They leave the same state to the next lines as the epoch itself.
pub fn any_epoch_is_read()
    ensures law { ReadsAnyEpoch }
{}

/// Compact text of a whole file, of any writer, expands to its RINEX text, with no message and status 0.
pub fn any_text_is_read()
    ensures law { ExpandsAnyText }
{}

/// This program's compact text is one that any writer may write, so each law of any writer holds for it.
pub fn our_text_is_one()
    ensures law { OwnTextIsOne }
{}

/// A satellite's line that is read is one that some writer may write, so no other line is read.
pub fn no_other_row_is_read()
    ensures law { ReadsSomebodysRow }
{}

/// The lines that are read as an epoch are ones that some writer may write for it, and none is too long.
pub fn no_other_epoch_is_read()
    ensures law { ReadsSomebodysEpoch }
{}

/// With or without `-s`, an expansion ends with status 0 if and only if it reads a whole file's compact text.
pub fn no_other_text_is_read()
    ensures law { AcceptsExactly }
{}

/// No text is compact text of two files.
pub fn a_text_is_of_one_file()
    ensures law { IsOfOneFile }
{}

/// If compact text of any writer is cut off or damaged, all whole units before that place are written.
pub fn first_units_are_written()
    ensures law { WritesFirstUnits }
{}

/// Shows that the premises can be met: by a small file, and a compact text of it with arcs of order 9, 18
/// digits, marks without a change, an epoch with differences after an event, and a line that ends with CR LF.
pub fn premises()
    ensures met { AreWholeFile wild_units }
    ensures text { IsCompactTextOf wild_units wild_text }
{}
