//! A law over the definitions of this crate: it is the contract of a function that does nothing.
ghost use Rattle.std.specs.Prelude.{◌≡◌, ◌+◌, ◌≤◌, length, vec_capacity};
ghost use Rattle.crx_lines.specs.Holdings.{line_reader_with, window_with};
ghost use Rattle.crx_lines.specs.Window.{kept};
ghost use Rattle.crx_lines.specs.declared.line.LineReader.{LineReader};
ghost use Rattle.crx_lines.specs.declared.window.TheConstants.{SIZE};
ghost use Rattle.crx_lines.specs.declared.window.Window.{Window};
ghost use Rattle.crx_base.specs.declared.limits.TheConstants.{INPUT_LIMIT};
ghost use Rattle.crx_base.specs.declared.padded.TheConstants.{PADDING};

/// Does nothing at run time: its contract lists everything that a reader of lines holds. A reader with these
/// parts of another one is equal to it, so no record of past lines can grow in it; its buffer has memory of
/// one size, and its numbers are within the limit of an input.
pub fn line_reader_holds()
    ensures window { (one other : Window) → window_with one other ≡ other }
    ensures reader { (one other : LineReader) → line_reader_with one other ≡ other }
    ensures size { (reader : LineReader) → vec_capacity reader.window.value.bytes ≡ SIZE + PADDING }
    ensures kept { (reader : LineReader) → length (kept reader.window.value) ≤ SIZE }
    ensures passed { (reader : LineReader) → reader.passed ≤ INPUT_LIMIT }
    ensures number { (reader : LineReader) → reader.number ≤ INPUT_LIMIT }
{}
