//! The observation types of the satellite systems. RINEX 3.05, table A2, `SYS / # / OBS TYPES`.

ghost use Rattle.std.specs.Prelude.{◌≡◌, ◌≤◌, ◌<◌, ◌+◌, ◌⊎◌, ℕ, List, [], ◌∷◌, ◌++◌, Some, true, false, is_some, OnOk, OnErr, IfErr, IfSome, OnSome, slice_get, length};
ghost use Rattle.crx_header.specs.meaning.ObservationTypes.{count_of, count_of_types_line, is_bad_types_line, is_system, is_types_line, types_of, IsAllowedCount};
ghost use Rattle.crx_header.specs.ObservationTypes.{with_count, with_line, AreCounts, HasSystemRoom, IsCount};
ghost use Rattle.indexmap.specs.IndexMap.{spare};

use crate::columns::{is_labelled, number};
use crate::labels::TYPES_LABEL;
use crx_base::limits::TYPES_LIMIT;
use crx_base::memory::reserve_entries;
use crx_base::{Fault, Refused};
use crx_text::columns::character;
use indexmap::IndexMap;
use std::alloc::Global;
use std::marker::Model;

/// The number of bytes that a letter may be.
const LETTERS: usize = 256;

/// The number of systems.
const SYSTEMS: usize = 7;

/// The number of observation types of each satellite system, with the systems in the order in which their
/// letters first appeared.
#[derive(Drop)]
pub struct Types {
    /// Has room for all systems once a system has types.
    counts: IndexMap<u8, usize>,
    /// The count of each letter, or 0 if it has none: a satellite line finds the count of its system by one
    /// load.
    by_letter: [u16; LETTERS],
}

impl Model for Types {
    ghost use Rattle.crx_header.specs.meaning.ObservationTypes.{Count};
    ghost use Rattle.crx_header.specs.ObservationTypes.{AreCounts, AreByLetter, HasSystemRoom};
    ghost use Rattle.indexmap.specs.IndexMap.{spare};
    ghost use Rattle.std.specs.Prelude.{List};

    ghost Value = { List Count };

    ghost view = { λ types. types.counts.entries };

    ghost invariant = { λ types. AreCounts types.counts.entries × AreByLetter types.by_letter types.counts.entries
        × HasSystemRoom types.counts.entries (spare types.counts) };
}

impl Types {
    /// Returns an empty list: no system has types.
    pub fn new(alloc: Global) -> Types
        ensures empty { result ≡ [] }
    {
        Types {
            counts: IndexMap::new(alloc),
            by_letter: [0; LETTERS],
        }
    }

    /// Accepts a header line. If its label is `SYS / # / OBS TYPES` and column 1 isn't blank (RINEX 3.05,
    /// table A2), the count in columns 4 to 6 becomes the count of the system in column 1, instead of an
    /// earlier one. Any other line, also a continuation, changes nothing.
    ///
    /// Returns `BadTypesLine` if column 1 of such a line is no system's letter, or columns 4 to 6 hold no
    /// count from 1 to [`TYPES_LIMIT`]. Returns `OutOfMemory` only if such a line is valid and no system has
    /// types yet, because memory for all systems is reserved at once. After either the types are unchanged.
    pub fn accept_line(&mut self, line: &[u8]) -> Result<(), Fault>
        // The accepted lines declare the types.
        ensures declared { (lines : List (List ℕ)) → self.old ≡ types_of lines
            → OnOk result (self.new ≡ types_of (lines ++ line.now ∷ [])) }
        ensures ok { OnOk result (self.new ≡ with_line self.old line.now) }
        ensures good { OnOk result (is_bad_types_line line.now ≡ false) }
        ensures bad { IfErr result (λ fault.
            ((fault ≡ Fault.BadTypesLine) × (is_bad_types_line line.now ≡ true))
            ⊎ ((fault ≡ Fault.OutOfMemory) × (is_some (count_of_types_line line.now) ≡ true) × (self.old ≡ []))) }
        ensures err { OnErr result (self.new ≡ self.old) }
    {
        if !is_types(line) {
            return Ok(());
        }
        // The letters of GPS, GLONASS, Galileo, QZSS, BDS, NavIC/IRNSS and SBAS.
        let letter = character(line, 1);
        let count = match number(line, 4) {
            Some(count) if b"GREJCIS".contains(&letter) && 1 <= count && count <= TYPES_LIMIT => {
                count
            }
            _ => return Err(Fault::BadTypesLine),
        };
        put(&mut self.counts, letter, count)?;
        self.by_letter[letter as usize] = count as u16;
        Ok(())
    }

    /// Returns how many types the system with this `letter` has, or `None` if it has none.
    #[inline(always)]
    #[tactic(auto, using(crate::proofs::Counts::absent_by_letter, crate::proofs::Counts::present_by_letter))]
    pub fn count(&self, letter: u8) -> Option<usize>
        ensures value { result ≡ count_of self.now letter }
        ensures allowed { IfSome result IsAllowedCount }
        ensures system { OnSome result (is_system letter ≡ true) }
    {
        let count = self.by_letter[letter as usize];
        if count == 0 {
            return None;
        }
        Some(count as usize)
    }

    /// Returns how many systems have types: at most seven.
    #[tactic(auto, using(crate::proofs::Counts::systems_few))]
    pub fn systems(&self) -> usize
        ensures value { result ≡ length self.now }
        ensures few { result ≤ SYSTEMS }
    {
        self.counts.len()
    }

    /// Returns the letter and the count of the system at place `index`, from 0, in the order in which the
    /// letters first appeared, or `None` after the last.
    #[inline(always)]
    pub fn entry(&self, index: usize) -> Option<(u8, usize)>
        ensures value { result ≡ slice_get self.now index }
        ensures allowed { IfSome result IsCount }
    {
        let (letter, count) = self.counts.get_index(index)?;
        Some((*letter, *count))
    }
}

/// Replaces the count of the system with this `letter`, or adds it after the other counts. Reserves memory
/// for all systems if none has types yet, so that later no more is needed. Returns `Refused`, with nothing
/// changed, if that memory is refused. `letter` has to be a system's letter.
#[tactic(auto, using(crate::proofs::Counts::put_counts))]
fn put(counts: &mut IndexMap<u8, usize>, letter: u8, count: usize) -> Result<(), Refused>
    requires counts { AreCounts counts.old.entries }
    requires system { is_system letter ≡ true }
    requires room { HasSystemRoom counts.old.entries (spare counts.old) }
    ensures entries { OnOk result (counts.new.entries ≡ with_count counts.old.entries letter count) }
    ensures room { OnOk result (SYSTEMS ≤ length counts.new.entries + spare counts.new) }
    ensures err { OnErr result ((counts.new.entries ≡ []) × (counts.old.entries ≡ [])) }
{
    if let Some(held) = counts.get_mut(&letter) {
        *held = count;
        return Ok(());
    }
    if counts.is_empty() {
        reserve_entries(counts, SYSTEMS)?;
    }
    counts.insert(letter, count).unwrap();
    Ok(())
}

/// Returns whether a line begins the list of a system's types: its label is `SYS / # / OBS TYPES`, and column
/// 1 isn't blank (RINEX 3.05, table A2). With a blank it continues such a list.
pub fn is_types(line: &[u8]) -> bool
    ensures value { result ≡ is_types_line line.now }
{
    is_labelled(line, &TYPES_LABEL) && character(line, 1) != b' '
}
