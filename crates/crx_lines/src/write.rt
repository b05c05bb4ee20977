//! Writing that counts the bytes written.
ghost use Rattle.std.specs.Prelude.{◌≡◌, ◌<◌, length, take, OnOk, OnErr, IfErr};
ghost use Rattle.crx_lines.specs.meaning.Devices.{one_more};

use crate::device::{Sink, WriteFailed};

/// How many bytes are written at once; a longer piece would be copied into a buffer byte by byte.
const PIECE: usize = 2048;

/// Writes all of `bytes` to `writer`, piece by piece, and continues after a short write; doesn't flush. If a
/// write fails, stops and returns how many bytes were written before it, from the front, with `WriteFailed`.
pub fn write_all_counted<W: Sink>(writer: &mut W, bytes: &[u8]) -> Result<(), (usize, WriteFailed)>
    ensures all { OnOk result (W.took writer.old bytes.now writer.new) }
    ensures good { OnOk result (W.failures writer.new ≡ W.failures writer.old) }
    ensures short { IfErr result (λ e. e.0 < length bytes.now) }
    ensures part { IfErr result (λ e. W.took writer.old (take e.0 bytes.now) writer.new) }
    ensures counted { OnErr result (W.failures writer.new ≡ one_more (W.failures writer.old)) }
    ensures unasked { W.flushes writer.new ≡ W.flushes writer.old }
    ensures awaited { W.is_awaited writer.new ≡ W.is_awaited writer.old }
    ensures unbroken { W.is_broken writer.new ≡ W.is_broken writer.old }
{
    let mut written = 0;
    while written < bytes.len() {
        let end = written + PIECE.min(bytes.len() - written);
        match writer.write(&bytes[written..end]) {
            Ok(count) => written += count,
            Err(failed) => return Err((written, failed)),
        }
    }
    Ok(())
}
