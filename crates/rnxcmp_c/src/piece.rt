//! The bytes kept of a line before its LF is fed.

ghost use Rattle.std.specs.Prelude.{◌≡◌, ◌≤◌, ◌++◌, [], length, take, IfOk, vec_capacity};
ghost use Rattle.rnxcmp_c.specs.declared.limits.TheConstants.{LINE_ROOM};

use crate::limits::LINE_ROOM;
use crx_base::Refused;
use crx_base::memory::reserve_exact;
use std::alloc::Global;

/// The first bytes of a line, at most [`LINE_ROOM`]. Memory is reserved once, at the beginning.
#[derive(Drop)]
pub struct Piece {
    pub(crate) bytes: Vec<u8>,
    ghost within: { length bytes.items ≤ LINE_ROOM },
    ghost room: { LINE_ROOM ≤ vec_capacity bytes },
}

impl Piece {
    /// Returns an empty piece, or `Refused` if memory for [`LINE_ROOM`] bytes is refused.
    pub(crate) fn new(alloc: Global) -> Result<Piece, Refused>
        ensures none { IfOk result (λ piece. piece.bytes.items ≡ []) }
        ensures room { IfOk result (λ piece. vec_capacity piece.bytes ≡ LINE_ROOM) }
    {
        let mut bytes = Vec::new(alloc);
        reserve_exact(&mut bytes, LINE_ROOM)?;
        Ok(Piece { bytes })
    }

    /// Adds more bytes of the line, as far as there is room, and drops the others.
    pub(crate) fn add(&mut self, bytes: &[u8])
        ensures { self.new.bytes.items ≡ take LINE_ROOM (self.old.bytes.items ++ bytes.now) }
    {
        let count = bytes.len().min(LINE_ROOM - self.bytes.len());
        match self.bytes.extend_from_slice(&bytes[..count]) {
            Ok(()) => {}
            Err(_) => unreachable!(),
        }
    }
}
