//! The satellites of a history, in the order of the file (Hatanaka's Compact RINEX 3.0).

ghost use Rattle.std.specs.Prelude.{All, ◌≡◌, ◌≤◌, ◌<◌, ◌+◌, ◌*◌, ◌++◌, ⊤, [], false, is_some, None, Some, length, take, map, slice_get, slice_index_or, swap, OnErr, IfOk, IfSome, IsSome};
ghost use Rattle.std.specs.Bool.{OnTrue};
ghost use Rattle.std.specs.Borrow.{LendsSo, sem};
ghost use Rattle.std.specs.List.{flat_map};
ghost use Rattle.std.specs.Map.{lookup};
ghost use Rattle.std.specs.Str.{bytes_eq};
ghost use Rattle.crx_base.specs.declared.limits.TheConstants.{HEAD_WIDTH, NAME_WIDTH, TYPES_LIMIT};
ghost use Rattle.crx_header.specs.meaning.Satellites.{is_among};
ghost use Rattle.crx_compact.specs.Entries.{IsAt, IsFound, IsOrder, key_of};
ghost use Rattle.crx_compact.specs.EpochLinesRead.{HaveComeAgain};
ghost use Rattle.crx_compact.specs.HeldRows.{IsAwaitedSatellite};
ghost use Rattle.crx_compact.specs.Placing.{AnswersPlacing, AsksRoom, HasRoom, IsLeftAt, IsStoredAt, SatelliteTail, row_tail_of, satellite_of};
ghost use Rattle.crx_compact.specs.Refusals.{mark_place};
ghost use Rattle.crx_compact.specs.Tails.{RowTail};
ghost use Rattle.crx_compact.specs.contracts.satellite.SatelliteHistory.{the_row as satellite_row};
ghost use Rattle.crx_compact.specs.contracts.satellites.Satellites.{the_row};
ghost use Rattle.indexmap.specs.IndexMap.{IsUnique};

use crate::satellite::SatelliteHistory;
use crx_base::Refused;
use crx_base::limits::{HEAD_WIDTH, NAME_WIDTH};
use crx_base::memory::{reserve, reserve_entries};
use crx_header::{Types, is_same_identifier, put_identifier};
use indexmap::IndexMap;
use std::alloc::Global;
use std::marker::Model;

/// The number of slots for hints.
pub(crate) const MARKS: usize = 2048;

/// Returns the slot, below [`MARKS`], that stores the index at which the satellite with this identifier
/// usually is. The 770 possible identifiers have 760 slots, so few share one.
#[inline(always)]
pub(crate) fn place_of_mark(name: [u8; NAME_WIDTH]) -> usize
    ensures value { result ≡ mark_place name }
    ensures within { result < MARKS }
{
    (604 * usize::from(name[0]) + 10 * usize::from(name[1]) + usize::from(name[2])) % MARKS
}

/// The satellites of a history, by their identifiers. Each keeps its index in the map. The memory of an
/// absent satellite is used again when it returns.
#[derive(Drop)]
pub struct Satellites {
    known: IndexMap<[u8; NAME_WIDTH], SatelliteHistory>,
    /// The indices of all satellites. While an epoch is open, first those of its rows so far, in the order
    /// of the file; then those of the previous epoch without a row yet; then those that aren't in use.
    order: Vec<usize>,
    /// The place of each index in the order.
    places: Vec<usize>,
    /// The number of rows of the open epoch so far.
    placed: usize,
    /// The number of satellites in use: those of the rows so far, and those of the previous epoch without a
    /// row yet.
    live: usize,
    /// The place in the order of the satellite that usually follows. Those before it may be missing from
    /// the epoch.
    next: usize,
    /// By the slot of an identifier, the index at which it usually is: no look-up in the map.
    hints: [u16; MARKS],
    alloc: Global,
}

impl Model for Satellites {
    ghost use Rattle.std.specs.Prelude.{◌≤◌, length};
    ghost use Rattle.crx_compact.specs.Entries.{IsOrder, in_order, placed_rows};
    ghost use Rattle.crx_compact.specs.Placing.{PlacedRows};

    ghost Value = { PlacedRows };

    ghost view = { λ satellites. placed_rows satellites.placed satellites.live
        (in_order satellites.order.items satellites.known.entries) satellites.known.entries };

    ghost invariant = { λ satellites. (satellites.placed ≤ satellites.live)
        × (satellites.live ≤ length satellites.known.entries)
        × IsOrder satellites.order.items satellites.places.items (length satellites.known.entries)
        × (satellites.placed ≤ satellites.next) };
}

impl Satellites {
    /// Returns a list without satellites.
    pub(crate) fn new(alloc: Global) -> Satellites
        ensures empty { result ≡ record { rows = []; rest = []; rooms = [] } }
    {
        Satellites {
            known: IndexMap::new(alloc),
            order: Vec::new(alloc),
            places: Vec::new(alloc),
            placed: 0,
            live: 0,
            next: 0,
            hints: [0; MARKS],
            alloc,
        }
    }

    /// Begins an epoch without rows. The satellites that had a row are now those of the previous epoch; all
    /// others count as absent, and their memory stays.
    pub(crate) fn begin_epoch(&mut self)
        ensures begun { self.new ≡ record self.old { rows = []; rest = self.old.rows } }
    {
        self.live = self.placed;
        self.placed = 0;
        self.next = 0;
    }

    /// Returns the number of rows of the open epoch so far.
    #[inline(always)]
    pub(crate) fn placed_count(&self) -> usize
        ensures value { result ≡ length self.now.rows }
    {
        self.placed
    }

    /// Adds a row for satellite `name` after the others and returns `true`. The row continues the satellite's
    /// history if it was in the previous epoch; otherwise it has no types. Returns `false` if the epoch has
    /// its row already, and `None` if the satellite isn't known or has memory for fewer than `count` types;
    /// after either nothing has changed.
    ///
    /// Usually the next satellite is the one that followed the last one in the previous epoch; one comparison
    /// confirms it. `name` is borrowed: no copy per row.
    #[inline(always)]
    pub(crate) fn place(&mut self, name: &[u8; NAME_WIDTH], count: usize) -> Option<bool>
        ensures { AnswersPlacing name.now count self.old self.new result }
    {
        if self.next < self.live {
            let index = number_at(&self.order, self.next);
            if is_same_identifier(key_at(&self.known, index), *name) {
                let (_, satellite) = self.known.get_index(index).unwrap();
                if !satellite.has_room(count) {
                    return None;
                }
                if self.next == self.placed {
                    self.placed += 1;
                    self.next += 1;
                    return Some(true);
                }
                // The satellites before `next` have no row so far. If `next` is the last place, an absent
                // satellite was put at the place of the expected one: then the satellite after that is the
                // first without a row, which this moves to the last place.
                exchange(&mut self.order, &mut self.places, self.placed, self.next);
                self.placed += 1;
                self.next = (self.next + 1).min(self.live - 1);
                return Some(true);
            }
        }
        self.place_by_lookup(name, count)
    }

    /// Adds a row for satellite `name` after the others and returns `true`. The row continues the satellite's
    /// history if it was in the previous epoch; otherwise it has no types. Returns `false` if the epoch has
    /// its row already, and `None` if the satellite isn't known or has memory for fewer than `count` types;
    /// after either nothing has changed. It looks at the index that the identifier's slot stores, then in the
    /// map.
    #[inline(never)]
    pub(crate) fn place_by_lookup(&mut self, name: &[u8; NAME_WIDTH], count: usize) -> Option<bool>
        ensures { AnswersPlacing name.now count self.old self.new result }
    {
        let near = usize::from(self.hints[place_of_mark(*name)]);
        let Some(found) = find(&self.known, near, *name) else {
            return None;
        };
        let place = number_at(&self.places, found);
        if place < self.placed {
            return Some(false);
        }
        let (_, satellite) = self.known.get_index(found).unwrap();
        if !satellite.has_room(count) {
            return None;
        }
        if place < self.live {
            exchange(&mut self.order, &mut self.places, self.placed, place);
            self.placed += 1;
            self.next = place + 1;
            return Some(true);
        }
        let (_, satellite) = self.known.pair_mut(found);
        satellite.resize(0);
        exchange(&mut self.order, &mut self.places, self.live, place);
        exchange(&mut self.order, &mut self.places, self.placed, self.live);
        self.live += 1;
        self.placed += 1;
        self.next = place_after(self.next, self.placed, self.live);
        Some(true)
    }

    /// Adds a row for each satellite of the previous epoch, in their order, and returns `true`, if there are
    /// `count` and each has its system's number of types in `types`. Otherwise returns `false` and changes
    /// nothing. The epoch has to have no rows yet. No identifier is looked up.
    pub(crate) fn repeat_rows(&mut self, types: &Types, count: usize) -> bool
        requires none { self.old.rows ≡ [] }
        requires awaited { All IsAwaitedSatellite (map satellite_of self.old.rest) }
        ensures again { OnTrue result (HaveComeAgain types.now self.old self.new) }
        ensures counted { OnTrue result (count ≡ length self.old.rest) }
        ensures same { result ≡ false → self.new ≡ self.old }
    {
        if count != self.live {
            return false;
        }
        // No identifier occurs twice: the clauses of the length say so.
        let _count = self.known.len();
        let known = &self.known;
        let order = &self.order;
        for place in 0..count {
            let (name, satellite) = known.get_index(number_at(order, place)).unwrap();
            // Each has the form of an identifier, so only its letter is read.
            let Some(found) = types.count(name[0]) else {
                return false;
            };
            if found != satellite.count() {
                return false;
            }
        }
        self.placed = count;
        self.next = count;
        true
    }

    /// Makes satellite `name` known, with memory for `count` types, at most `TYPES_LIMIT`; if it is known
    /// already, only missing memory is reserved. The rows of the open epoch don't change. Returns `Refused`
    /// if memory is refused; the satellite may be known then too.
    #[inline(never)]
    pub(crate) fn prepare(&mut self, name: [u8; NAME_WIDTH], count: usize) -> Result<(), Refused>
        requires allowed { count ≤ TYPES_LIMIT }
        ensures { AsksRoom (HasRoom name count) self.old self.new result }
    {
        let mark = place_of_mark(name);
        let near = usize::from(self.hints[mark]);
        let found = find_or_add(
            &mut self.known,
            &mut self.order,
            &mut self.places,
            near,
            name,
            self.alloc,
        )?;
        self.hints[mark] = u16::try_from(found).unwrap_or(0);
        let (_, satellite) = self.known.pair_mut(found);
        satellite.make_room(count)
    }

    /// Writes the identifiers of the rows, in their order, over the bytes of `text` after column 41, where it
    /// has to have three for each row.
    pub(crate) fn put_names(&self, text: &mut [u8])
        requires within { HEAD_WIDTH + NAME_WIDTH * length self.now.rows ≤ length text.old }
        ensures { take (HEAD_WIDTH + NAME_WIDTH * length self.now.rows) text.new
            ≡ take HEAD_WIDTH text.old ++ flat_map (λ (row : RowTail). row.name) self.now.rows }
    {
        for index in 0..self.placed {
            let name = key_at(&self.known, number_at(&self.order, index));
            put_identifier(text, HEAD_WIDTH + NAME_WIDTH * index, name);
        }
    }

    /// Borrows the history of the satellite whose row is at `index`, from 0, to change it and so the row. The
    /// row has to exist. It always returns `Some`: only within an `Option` can a clause relate the borrow's
    /// end to its start.
    #[inline(always)]
    pub(crate) fn entry_mut(&mut self, index: usize) -> Option<&mut SatelliteHistory>
        requires within { index < length self.old.rows }
        ensures there { IfSome result (λ satellite. IsStoredAt index self.old satellite.now) }
        ensures some { IsSome result }
        ensures* after_borrow { sem 𝓛 (LendsSo the_row satellite_row self.entry result
            (λ new left. IfSome result (λ satellite. IsLeftAt index self.old satellite.now left new)) (λ new. ⊤)) }
    {
        let (_, satellite) = self.known.pair_mut(number_at(&self.order, index));
        Some(satellite)
    }

    /// Returns the identifier and the history of the satellite whose row is at `index`, from 0. The row has
    /// to exist.
    #[inline(always)]
    pub(crate) fn entry(&self, index: usize) -> (&[u8; NAME_WIDTH], &SatelliteHistory)
        requires within { index < length self.now.rows }
        ensures there { slice_get self.now.rows index ≡ Some (row_tail_of result.0.now result.1.now) }
    {
        self.known.get_index(number_at(&self.order, index)).unwrap()
    }
}

/// Returns the number at `index`, which has to be below the length.
#[inline(always)]
fn number_at(numbers: &Vec<usize>, index: usize) -> usize
    requires within { index < length numbers.now.items }
    ensures value { result ≡ slice_index_or numbers.now.items index 0 }
{
    numbers[index]
}

/// Returns the identifier at `index` of the map, which has to be below its length.
#[inline(always)]
fn key_at(map: &IndexMap<[u8; NAME_WIDTH], SatelliteHistory>, index: usize) -> [u8; NAME_WIDTH]
    requires within { index < length map.now.entries }
    ensures there { (satellite : SatelliteTail)
        × (slice_get map.now.entries index ≡ Some (result, satellite)) }
    ensures unique { IsUnique bytes_eq map.now }
{
    // No identifier occurs twice: the clauses of the length say so.
    let _count = map.len();
    // A slice of the identifiers: no second test of the index.
    map.keys().as_slice()[index]
}

/// Returns the index of satellite `name`, or `None` if it isn't known. It tries the index `near` first.
/// Inlined: no call per satellite in another order.
#[inline(always)]
fn find(
    map: &IndexMap<[u8; NAME_WIDTH], SatelliteHistory>,
    near: usize,
    name: [u8; NAME_WIDTH],
) -> Option<usize>
    ensures found { IfSome result (IsAt name map.now.entries) }
    ensures unknown { result ≡ None → is_some (lookup (bytes_eq name) map.now.entries) ≡ false }
    ensures unique { IsUnique bytes_eq map.now }
{
    let count = map.len();
    if near < count && is_same_identifier(key_at(map, near), name) {
        return Some(near);
    }
    map.get_index_of(&name)
}

/// Returns the index of satellite `name`, which is added after the others, in `order` too, if it isn't known.
/// It tries the index `near` first. Returns `Refused` if memory is refused; then nothing is added.
fn find_or_add(
    map: &mut IndexMap<[u8; NAME_WIDTH], SatelliteHistory>,
    order: &mut Vec<usize>,
    places: &mut Vec<usize>,
    near: usize,
    name: [u8; NAME_WIDTH],
    alloc: Global,
) -> Result<usize, Refused>
    requires order { IsOrder order.old.items places.old.items (length map.old.entries) }
    ensures order { IsOrder order.new.items places.new.items (length map.new.entries) }
    ensures found { IfOk result (λ found. IsFound name found map.old.entries map.new.entries) }
    ensures front { take (length order.old.items) order.new.items ≡ order.old.items }
    ensures unknown { OnErr result ((is_among key_of name map.old.entries ≡ false)
        × (map.new.entries ≡ map.old.entries) × (order.new.items ≡ order.old.items)) }
{
    let count = map.len();
    if let Some(found) = find(map, near, name) {
        return Ok(found);
    }
    reserve(order, 1)?;
    reserve(places, 1)?;
    reserve_entries(map, 1)?;
    map.insert(name, SatelliteHistory::new(alloc)).unwrap();
    order.push_reserved(count);
    places.push_reserved(count);
    Ok(count)
}

/// Returns the place of the satellite that is expected next after an absent one got a row: still `expected`,
/// unless that is now a row's place; then the last place in use, `live - 1`, but at least `placed`. `placed`:
/// the number of rows; `live`: the number of satellites in use, at least 1.
#[inline(always)]
fn place_after(expected: usize, placed: usize, live: usize) -> usize
    requires some { 0 < live }
    ensures behind { placed ≤ result }
{
    if expected >= placed {
        return expected;
    }
    placed.max(live - 1)
}

/// Exchanges the indices at the places `one` and `other` of an order, and the two indices' places.
#[inline(never)]
fn exchange(order: &mut Vec<usize>, places: &mut Vec<usize>, one: usize, other: usize)
    requires order { IsOrder order.old.items places.old.items (length order.old.items) }
    requires within { (one < length order.old.items) × (other < length order.old.items) }
    ensures order { IsOrder order.new.items places.new.items (length order.old.items) }
    ensures exchanged { order.new.items ≡ swap order.old.items other one }
{
    let first = number_at(order, one);
    let second = number_at(order, other);
    order[other] = first;
    order[one] = second;
    places[first] = other;
    places[second] = one;
}
