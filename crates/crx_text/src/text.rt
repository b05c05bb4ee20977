//! A text of at most a line's length, held in place.

ghost use Rattle.std.specs.Prelude.{◌≡◌, ◌+◌, ◌<◌, ◌≤◌, ◌↔◌, List, [], ◌∷◌, ◌++◌, ℕ, length, take, OnOk, OnErr, IsErr};
ghost use Rattle.crx_text.specs.meaning.Columns.{without_end_blanks};
ghost use Rattle.crx_base.specs.declared.limits.TheConstants.{LINE_LIMIT};

use crate::lanes::LANES;
use crx_base::limits::LINE_LIMIT;
use std::marker::Model;
use std::simd::prelude::*;
use thiserror::Error;

/// The error of appending bytes that don't fit: the text would be longer than a line may be.
#[derive(Clone, Copy, Debug, PartialEq, Eq, Error)]
#[error("the text is full")]
pub struct TextFull;

/// A text of at most [`LINE_LIMIT`] bytes, held in place: it takes no memory elsewhere.
#[derive(Drop)]
pub struct Text {
    pub bytes: [u8; LINE_LIMIT],
    pub len: usize,
}

impl Model for Text {
    ghost Value = { List ℕ };

    ghost view = { λ text. take text.len text.bytes };

    ghost invariant = { λ text. text.len ≤ LINE_LIMIT };
}

impl Text {
    /// Returns the empty text.
    pub fn new() -> Self
        ensures empty { result ≡ [] }
    {
        Text {
            bytes: [0; LINE_LIMIT],
            len: 0,
        }
    }

    /// Makes the text empty.
    pub fn clear(&mut self)
        ensures emptied { self.new ≡ [] }
    {
        self.len = 0;
    }

    /// Returns the bytes of the text.
    pub fn bytes(&self) -> &[u8]
        ensures value { result.now ≡ self.now }
        ensures within { length self.now ≤ LINE_LIMIT }
    {
        &self.bytes[..self.len]
    }

    /// Appends a byte. Returns `TextFull`, with the text unchanged, if it has [`LINE_LIMIT`] bytes already.
    pub fn push(&mut self, byte: u8) -> Result<(), TextFull>
        ensures ok { OnOk result (self.new ≡ self.old ++ byte ∷ []) }
        ensures full { IsErr result ↔ (length self.old ≡ LINE_LIMIT) }
        ensures err { OnErr result (self.new ≡ self.old) }
    {
        if self.len == LINE_LIMIT {
            return Err(TextFull);
        }
        self.bytes[self.len] = byte;
        self.len += 1;
        Ok(())
    }

    /// Appends all of `bytes`. Returns `TextFull`, the text unchanged, if it would pass [`LINE_LIMIT`] bytes.
    pub fn extend(&mut self, bytes: &[u8]) -> Result<(), TextFull>
        ensures ok { OnOk result (self.new ≡ self.old ++ bytes.now) }
        ensures full { IsErr result ↔ (LINE_LIMIT < length self.old + length bytes.now) }
        ensures err { OnErr result (self.new ≡ self.old) }
    {
        if LINE_LIMIT - self.len < bytes.len() {
            return Err(TextFull);
        }
        let end = self.len + bytes.len();
        self.bytes[self.len..end].copy_from_slice(bytes);
        self.len = end;
        Ok(())
    }

    /// Drops the blanks at the end of the text.
    pub fn trim_end_blanks(&mut self)
        ensures trimmed { self.new ≡ without_end_blanks self.old }
    {
        self.len = trim_end(self.bytes()).len();
    }
}

/// Returns a text without the blanks at its end. Inlined, so that most lines need no call: few texts end in
/// three blanks or have at most two characters.
#[inline(always)]
#[tactic(auto, using(crate::proofs::EndBlanks::ended_at, crate::proofs::EndBlanks::blank_passed, crate::proofs::EndBlanks::nothing_after))]
pub fn trim_end(text: &[u8]) -> &[u8]
    ensures value { result.now ≡ without_end_blanks text.now }
    ensures shorter { length result.now ≤ length text.now }
{
    let end = text.len();
    if end > 2 {
        if text[end - 1] != b' ' {
            return &text[..end];
        }
        // Most compact lines end in one blank, after their last code, or in two if the last cell of a row has
        // no indicators.
        if text[end - 2] != b' ' {
            return &text[..end - 1];
        }
        if text[end - 3] != b' ' {
            return &text[..end - 2];
        }
    }
    trim_many(text)
}

// Returns a text without the blanks at its end, of which there may be many.
#[inline(never)]
#[tactic(auto, using(crate::proofs::EndBlanks::ended_at, crate::proofs::EndBlanks::blank_passed, crate::proofs::EndBlanks::nothing_after))]
fn trim_many(text: &[u8]) -> &[u8]
    ensures value { result.now ≡ without_end_blanks text.now }
    ensures shorter { length result.now ≤ length text.now }
{
    let mut end = text.len();
    while end >= LANES {
        let start = end - LANES;
        let others = u8x16::from_slice(&text[start..])
            .simd_ne(u8x16::splat(b' '))
            .to_bitmask();
        let count = 64 - others.leading_zeros() as usize;
        if count > 0 {
            return &text[..start + count];
        }
        end = start;
    }
    // The indicators of four types are 8 characters: no test per character.
    if end >= EIGHT {
        let start = end - EIGHT;
        let others = u8x8::from_slice(&text[start..])
            .simd_ne(u8x8::splat(b' '))
            .to_bitmask();
        let count = 64 - others.leading_zeros() as usize;
        if count > 0 {
            return &text[..start + count];
        }
        end = start;
    }
    while end > 0 && text[end - 1] == b' ' {
        end -= 1;
    }
    &text[..end]
}

// The number of characters in half a row of lanes.
const EIGHT: usize = 8;
