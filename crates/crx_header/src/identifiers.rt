//! Sets of satellites' identifiers: RINEX 3.05, table A3.

ghost use Rattle.std.specs.Prelude.{List, ℕ, ◌≡◌, ◌||◌, not, true, false};
ghost use Rattle.std.specs.Str.{bytes_eq};
ghost use Rattle.crx_header.specs.Identifiers.{has_identifier};
ghost use Rattle.crx_header.specs.meaning.Satellites.{is_identifier};

use crx_base::limits::NAME_WIDTH;
use crx_text::columns::character;
use std::marker::Model;

/// The least letter of a system.
const FIRST_LETTER: u8 = b'C';

/// The number of letters from it to the greatest letter of a system, S.
const LETTERS: usize = 17;

/// The number of characters that the first of the two digits may be: a digit or a blank.
const TENS: usize = 11;

/// The number of characters that the second one may be.
const UNITS: usize = 10;

/// A set of identifiers, with a place for each possible one: it allocates nothing.
#[derive(Drop)]
pub struct Identifiers {
    /// Whether each identifier is in the set.
    there: [bool; LETTERS * TENS * UNITS],
}

impl Model for Identifiers {
    ghost use Rattle.std.specs.Prelude.{Bool, List};

    ghost Value = { List Bool };

    ghost view = { λ identifiers. identifiers.there };
}

impl Identifiers {
    /// Returns an empty set.
    pub fn new() -> Identifiers
        ensures empty { (name : List ℕ) → has_identifier result name ≡ false }
    {
        Identifiers {
            there: [false; LETTERS * TENS * UNITS],
        }
    }

    /// Adds `name` and returns `true`. If it was in the set already, returns `false` and changes nothing.
    /// `name` has to be a system's letter, a digit or a blank, and a digit; `G 1` and `G01` are two
    /// identifiers.
    #[inline(always)]
    pub fn put(&mut self, name: [u8; NAME_WIDTH]) -> bool
        requires named { is_identifier name ≡ true }
        ensures new { result ≡ not (has_identifier self.old name) }
        ensures put { (other : List ℕ) → is_identifier other ≡ true
            → has_identifier self.new other ≡ (bytes_eq name other || has_identifier self.old other) }
    {
        let tens = match character(&name, 2) {
            b' ' => TENS - 1,
            digit => digit.saturating_sub(b'0') as usize,
        };
        let letter = character(&name, 1).saturating_sub(FIRST_LETTER) as usize;
        let units = character(&name, 3).saturating_sub(b'0') as usize;
        let index = (letter * TENS + tens) * UNITS + units;
        let is_new = !self.there[index];
        self.there[index] = true;
        is_new
    }
}
