//! Memory that the system refused, as a value. Every call that may run out of memory reserves it through this
//! module and returns [`Refused`], which nothing else can make.

ghost use Rattle.std.specs.Prelude.{◌≡◌, ◌≤◌, ◌+◌, ◌++◌, IfOk, OnErr, OnOk, max, string_bytes, vec_capacity, vec_len};
ghost use Rattle.indexmap.specs.IndexMap.{spare};
ghost use Rattle.indexmap.specs.IndexSet.{spare as spare_of_set};
ghost use Rattle.crx_base.specs.declared.fault.Fault.TheVariants as faults;
ghost use Rattle.crx_base.specs.declared.memory.TheConstants.{RESERVED_LIMIT};

use crate::fault::Fault;
use indexmap::{IndexMap, IndexSet};
use std::alloc::{AllocError, Global};
use std::hash::Hash;

/// The most items that one call reserves. Without a bound a caller could reserve more than any memory holds,
/// which std refuses without asking the system.
pub const RESERVED_LIMIT: usize = 1 << 24;

/// The system's refusal of memory in this call. Only the functions of this module make one, and each only
/// when std reports that an allocation failed: the field is private, and a value can't be copied.
#[must_use]
#[derive(Debug, Drop)]
pub struct Refused {
    marker: (),
}

impl From<Refused> for Fault {
    ghost from_gives = { λ _ fault. fault ≡ faults.OutOfMemory };

    /// Returns [`Fault::OutOfMemory`].
    fn from(_refused: Refused) -> Fault {
        Fault::OutOfMemory
    }
}

impl From<Refused> for AllocError {
    /// Returns std's error for refused memory.
    fn from(_refused: Refused) -> AllocError {
        AllocError
    }
}

/// Reserves memory for at least `more` items after the items of a vector, which don't change. `more` is at
/// most [`RESERVED_LIMIT`]. Returns `Refused` if memory is refused; the capacity never shrinks.
#[inline(always)]
pub fn reserve<T>(items: &mut Vec<T>, more: usize) -> Result<(), Refused>
    requires bounded { more ≤ RESERVED_LIMIT }
    ensures items { items.new.items ≡ items.old.items }
    ensures room { OnOk result (vec_len items.new + more ≤ vec_capacity items.new) }
    ensures kept { vec_capacity items.old ≤ vec_capacity items.new }
{
    match items.reserve(more) {
        Ok(()) => Ok(()),
        Err(_) => Err(Refused { marker: () }),
    }
}

/// Reserves memory for exactly `more` items after the items of a vector, which don't change. `more` is at
/// most [`RESERVED_LIMIT`]. Returns `Refused`, with the capacity unchanged, if memory is refused.
#[inline(always)]
pub fn reserve_exact<T>(items: &mut Vec<T>, more: usize) -> Result<(), Refused>
    requires bounded { more ≤ RESERVED_LIMIT }
    ensures items { items.new.items ≡ items.old.items }
    ensures room { OnOk result
        (vec_capacity items.new ≡ max (vec_capacity items.old) (vec_len items.old + more)) }
    ensures kept { OnErr result (vec_capacity items.new ≡ vec_capacity items.old) }
{
    match items.reserve_exact(more) {
        Ok(()) => Ok(()),
        Err(_) => Err(Refused { marker: () }),
    }
}

/// Reserves memory for `more` entries (at most [`RESERVED_LIMIT`]) after the entries of a map, which don't
/// change. Returns `Refused` if memory is refused.
#[inline(always)]
pub fn reserve_entries<K: Eq + Hash, V>(
    map: &mut IndexMap<K, V>,
    more: usize,
) -> Result<(), Refused>
    requires bounded { more ≤ RESERVED_LIMIT }
    ensures entries { map.new.entries ≡ map.old.entries }
    ensures room { OnOk result (more ≤ spare map.new) }
    ensures kept { spare map.old ≤ spare map.new }
{
    match map.reserve(more) {
        Ok(()) => Ok(()),
        Err(_) => Err(Refused { marker: () }),
    }
}

/// Reserves memory for `more` keys (at most [`RESERVED_LIMIT`]) after the keys of a set, which don't change.
/// Returns `Refused` if memory is refused.
#[inline(always)]
pub fn reserve_keys<T: Eq + Hash>(set: &mut IndexSet<T>, more: usize) -> Result<(), Refused>
    requires bounded { more ≤ RESERVED_LIMIT }
    ensures keys { set.new.keys ≡ set.old.keys }
    ensures room { OnOk result (more ≤ spare_of_set set.new) }
    ensures kept { spare_of_set set.old ≤ spare_of_set set.new }
{
    match set.reserve(more) {
        Ok(()) => Ok(()),
        Err(_) => Err(Refused { marker: () }),
    }
}

/// Moves `value` to the heap. Returns `Refused`, and drops `value`, if memory is refused.
#[inline(always)]
pub fn try_box<T: Drop>(alloc: Global, value: T) -> Result<Box<T>, Refused>
    ensures value { IfOk result (λ place. place.value ≡ value) }
{
    match Box::new(alloc, value) {
        Ok(place) => Ok(place),
        Err(_) => Err(Refused { marker: () }),
    }
}

/// Appends `more` to `text`. Returns `Refused`, with `text` unchanged, if memory is refused.
pub fn append_text(text: &mut String, more: &str) -> Result<(), Refused>
    ensures text { OnOk result (string_bytes text.new ≡ string_bytes text.old ++ more.now) }
{
    match text.push_str(more) {
        Ok(()) => Ok(()),
        Err(_) => Err(Refused { marker: () }),
    }
}
