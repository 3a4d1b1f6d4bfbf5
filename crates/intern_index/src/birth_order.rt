//! Births in row, or places in the order of their births.
ghost use Rattle.std.specs.Prelude.{◌≡◌, ℕ, ◌+◌, ◌≤◌, ◌<◌, None, IsSome, IfSome, IfNone, IsOk, OnOk, vec_len, vec_capacity, map as list_map};
ghost use Rattle.std.specs.List.{filter, slice_get};
ghost use Rattle.slab.specs.Slab.{get, slab_len, entries as slab_entries};
ghost use Rattle.intern_index.specs.Entries.{birth_at, AreTold};
ghost use Rattle.std.specs.Option.{option_map};
ghost use Rattle.intern_index.specs.Ordered.{IsOrdered, HasRoomFor, free_places, IsPlaced, birth_or_zero, is_occupied, place_after};

use crate::births::Births;
use crate::entry::Entry;
use crate::row::Row;
use intern_store::Spot;
use slab::Slab;
use std::alloc::{AllocError, Global};

/// Births in row with their places, as they are until a slot is used again; from then on the places
/// of all entries, in the order of their births, which are found by a binary search.
///
/// A list takes memory, and a removal and a sweep go over all of it. A new row begins once no entry
/// is left.
#[derive(Drop)]
pub struct BirthOrder {
    // the row of all births, if they are in one
    row: Option<Row>,
    // else the places
    places: Vec<usize>,
}

// The birth of the entry at a place.
fn birth_of<T, N: Copy>(slots: &Slab<Entry<T, N>>, place: usize) -> u64
    ensures { result ≡ birth_or_zero (birth_at slots.now place) }
{
    match slots.get(place) {
        Some(entry) => entry.birth.get(),
        None => 0,
    }
}

// Whether a place has an entry.
fn is_occupied<T, N: Copy>(slots: &Slab<Entry<T, N>>, place: usize) -> bool
    ensures { result ≡ is_occupied slots.now place }
{
    slots.get(place).is_some()
}

// Keeps the places that have an entry.
fn keep_occupied<T, N: Copy>(places: &mut Vec<usize>, slots: &Slab<Entry<T, N>>)
    ensures { places.new.items ≡ filter (is_occupied slots.now) places.old.items }
{
    places.retain(|place| is_occupied(slots, *place));
}

// The place from which on the next entry is looked for.
fn place_after(before: Option<Spot>) -> usize
    ensures { result ≡ place_after (option_map (λ s. s.place) before) }
{
    match before {
        Some(spot) => spot.place.saturating_add(1),
        None => 0,
    }
}

// The first place from one on that has an entry.
fn next_occupied<T, N: Copy>(slots: &Slab<Entry<T, N>>, from: usize) -> Option<usize>
    ensures there { IfSome result (λ p. IsSome (get slots.now p)) }
    ensures from { IfSome result (λ p. from ≤ p) }
    ensures first { IfSome result (λ p. (q : ℕ) → from ≤ q → q < p → get slots.now q ≡ None) }
    ensures none { IfNone result ((q : ℕ) → from ≤ q → get slots.now q ≡ None) }
{
    for place in from..slots.capacity() {
        if slots.get(place).is_some() {
            return Some(place);
        }
    }
    None
}

// Lists the places that have an entry, in room for one more.
fn list_occupied<T, N: Copy>(
    places: &mut Vec<usize>,
    slots: &Slab<Entry<T, N>>,
) -> Result<(), AllocError>
    ensures places { OnOk result (places.new.items
        ≡ list_map (λ e. e.0) (slab_entries slots.now)) }
    ensures len { OnOk result (vec_len places.new ≡ slab_len slots.now) }
    ensures room { OnOk result (vec_len places.new < vec_capacity places.new) }
    ensures capacity { vec_capacity places.old ≤ vec_capacity places.new }
    ensures succeeds { slab_len slots.now < vec_capacity places.old → IsOk result }
{
    places.clear();
    let Some(room) = slots.len().checked_add(1) else {
        return Err(AllocError);
    };
    places.reserve(room)?;
    for (place, _) in slots.iter() {
        places.push_reserved(place);
    }
    Ok(())
}

impl BirthOrder {
    /// The place of this rank in the order of births. While births are in row it is looked for
    /// behind the place of the rank before, which the caller tells.
    pub(crate) fn place<T, N: Copy>(
        &self,
        slots: &Slab<Entry<T, N>>,
        at: usize,
        before: Option<Spot>,
    ) -> Option<usize>
        requires known { IsOrdered self.now.row self.now.places.items (birth_at slots.now) }
        requires told { AreTold slots.now }
        ensures { IsPlaced (birth_at slots.now) at (option_map (λ s. s.place) before) result }
    {
        match self.row {
            Some(_) => next_occupied(slots, place_after(before)),
            None => self.listed(at),
        }
    }

    // The place of this rank in the list.
    fn listed(&self, at: usize) -> Option<usize>
        ensures { result ≡ slice_get self.now.places.items at }
    {
        self.places.get(at).copied()
    }

    // The row that a birth begins at a place, if it does.
    fn next_row<T, N: Copy>(slots: &Slab<Entry<T, N>>, birth: u64, place: usize) -> Option<Row>
        ensures row { IfSome result (λ r. place + r.shift ≡ birth) }
        ensures none { IfSome result (λ _. (p : ℕ) → get slots.now p ≡ None) }
        ensures empty { IfSome result (λ _. slab_len slots.now ≡ 0) }
    {
        if !slots.is_empty() {
            return None;
        }
        let shift = birth.checked_sub(place as u64)?;
        Some(Row { shift })
    }
}

impl Births for BirthOrder {
    ghost IsFor = { λ t at. IsOrdered t.row t.places.items at };

    ghost HasRoom = { λ t b p. HasRoomFor t.row (vec_len t.places) (vec_capacity t.places) b p };

    ghost free = { λ t n. free_places t.row n (vec_len t.places) (vec_capacity t.places) };

    fn new(alloc: Global) -> BirthOrder {
        BirthOrder {
            row: Some(Row { shift: 0 }),
            places: Vec::new(alloc),
        }
    }

    #[cold]
    fn find<T, N: Copy>(&self, slots: &Slab<Entry<T, N>>, birth: u64) -> Option<usize> {
        if let Some(row) = self.row {
            return row.find(slots, birth);
        }
        match self
            .places
            .binary_search_by_key(&birth, |place| birth_of(slots, *place))
        {
            Ok(at) => Some(self.places[at]),
            Err(_) => None,
        }
    }

    fn make_room<T, N: Copy>(
        &mut self,
        _alloc: Global,
        slots: &Slab<Entry<T, N>>,
        birth: u64,
        place: usize,
    ) -> Result<(), AllocError> {
        if let Some(row) = BirthOrder::next_row(slots, birth, place) {
            self.row = Some(row);
            return Ok(());
        }
        match self.row {
            Some(row) if row.has(birth, place) => Ok(()),
            Some(_) => {
                list_occupied(&mut self.places, slots)?;
                self.row = None;
                Ok(())
            }
            None => self.places.reserve(1),
        }
    }

    fn reserve<T, N: Copy>(
        &mut self,
        _alloc: Global,
        slots: &Slab<Entry<T, N>>,
        additional: usize,
    ) -> Result<(), AllocError> {
        match self.row {
            Some(_) => self.places.reserve(slots.len().saturating_add(additional)),
            None => self.places.reserve(additional),
        }
    }

    fn memory(&self) -> usize {
        self.places.capacity().saturating_mul(size_of::<usize>())
    }

    fn enter(&mut self, _birth: u64, place: usize) {
        if self.row.is_none() {
            self.places.push_reserved(place);
        }
    }

    fn forget<T, N: Copy>(&mut self, slots: &Slab<Entry<T, N>>) {
        if self.row.is_none() {
            keep_occupied(&mut self.places, slots)
        }
    }
}
