//! Bytes at the end of a text.

ghost use Rattle.std.specs.Prelude.{◌≡◌, ◌+◌, ◌≤◌, ◌++◌, length};
ghost use Rattle.crx_base.specs.declared.limits.TheConstants.{LINE_LIMIT};

use crate::text::Text;

/// Appends `bytes` to `text`; together they may have at most `LINE_LIMIT` bytes.
pub fn append(text: &mut Text, bytes: &[u8])
    requires { length text.old + length bytes.now ≤ LINE_LIMIT }
    ensures appended { text.new ≡ text.old ++ bytes.now }
{
    text.extend(bytes).unwrap();
}
