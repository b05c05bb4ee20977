//! Bytes into which texts are written one after another, and which are kept for the texts after them.

ghost use Rattle.std.specs.Prelude.{drop, ◌≡◌, ◌≤◌, ◌<◌, ◌+◌, ◌++◌, ◌∷◌, [], length, take};

/// Writes `text` over `bytes`, in which it has to fit, from index `start` on, and returns the index after it.
pub fn put_text(bytes: &mut [u8], start: usize, text: &[u8]) -> usize
    requires { start + length text.now ≤ length bytes.old }
    ensures put { take result bytes.new ≡ take start bytes.old ++ text.now }
    ensures end { result ≡ start + length text.now }
    ensures rest { drop (start + length text.now) bytes.new ≡ drop (start + length text.now) bytes.old }
{
    // Most satellite lines have no marks: no call for them.
    if text.is_empty() {
        return start;
    }
    let end = start + text.len();
    bytes[start..end].copy_from_slice(text);
    end
}

/// Writes `line` and an LF over `bytes`, in which both have to fit, from index `start` on.
pub fn put_line(bytes: &mut [u8], start: usize, line: &[u8])
    requires { start + length line.now < length bytes.old }
    ensures put { take (start + length line.now + 1) bytes.new
        ≡ take start bytes.old ++ (line.now ++ 10 ∷ []) }
    ensures rest { drop (start + length line.now + 1) bytes.new
        ≡ drop (start + length line.now + 1) bytes.old }
{
    let end = put_text(bytes, start, line);
    bytes[end] = b'\n';
}
