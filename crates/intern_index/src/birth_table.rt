//! Births in row, and a table of the others.
ghost use Rattle.std.specs.Prelude.{◌≡◌, ◌==◌, ◌+◌, ◌<◌, IfSome, OnOk, IsOk};
ghost use Rattle.slab.specs.Slab.{slab_len};
ghost use Rattle.intern_buckets.specs.Filling.{HasRoom as HasBucket};
ghost use Rattle.intern_index.specs.Entries.{birth_at, passes_at, AreTold};
ghost use Rattle.intern_index.specs.Room.{free_in};
ghost use Rattle.intern_index.specs.Row.{row_key, AreFound};

use crate::births::Births;
use crate::entry::Entry;
use crate::row::Row;
use crate::table::Table;
use intern_buckets::{Test, mix, search};
use slab::Slab;
use std::alloc::{AllocError, Global};

/// Births of which most are in row with their places, as they are until a slot is used again. A
/// table has the others. A birth that goes leaves its bucket behind, until the table is built anew.
///
/// A new row begins once no entry is left, and where the table would be built anew while no slot
/// is vacant.
#[derive(Drop)]
pub struct BirthTable {
    row: Row,
    others: Table,
}

// The place of the entry of a birth.
#[derive_where(Clone, Copy)]
struct OfBirth<'a, T, N: Copy> {
    slots: &'a Slab<Entry<T, N>>,
    birth: u64,
}

impl<T, N: Copy> Test for OfBirth<'_, T, N> {
    ghost passes = { λ t p. passes_at (λ e. e.birth == t.birth) t.slots.now p };

    fn passes(&self, place: usize) -> bool {
        match self.slots.get(place) {
            Some(entry) => entry.birth.get() == self.birth,
            None => false,
        }
    }
}

impl BirthTable {
    // The row that a birth begins at a place, if it does.
    fn next_row<T, N: Copy>(
        &self,
        slots: &Slab<Entry<T, N>>,
        birth: u64,
        place: usize,
    ) -> Option<Row>
        ensures row { IfSome result (λ r. place + r.shift ≡ birth) }
        ensures when { IfSome result (λ _. 0 < self.now.others.left → slab_len slots.now ≡ 0) }
    {
        if slots.is_empty() || (self.others.is_full() && place == slots.len()) {
            let shift = birth.checked_sub(place as u64)?;
            return Some(Row { shift });
        }
        None
    }

    // Begins a row, and enters what isn't in it.
    fn begin<T, N: Copy>(
        &mut self,
        alloc: Global,
        slots: &Slab<Entry<T, N>>,
        row: Row,
    ) -> Result<(), AllocError>
        requires known { AreFound self.old.row.shift self.old.others.buckets (birth_at slots.now) }
        requires told { AreTold slots.now }
        ensures finds { AreFound self.new.row.shift self.new.others.buckets (birth_at slots.now) }
        ensures row { OnOk result (self.new.row ≡ row) }
        ensures others { slab_len slots.now ≡ 0 → self.new.others ≡ self.old.others }
        ensures succeeds { slab_len slots.now ≡ 0 → IsOk result }
    {
        if !slots.is_empty() {
            self.others.rebuild(alloc, slots, &row)?;
        }
        self.row = row;
        Ok(())
    }
}

impl Births for BirthTable {
    ghost IsFor = { λ t at. AreFound t.row.shift t.others.buckets at };

    ghost HasRoom = { λ t b p. IfSome (row_key t.row.shift p b)
        (λ _. HasBucket t.others.buckets × (0 < t.others.left)) };

    ghost free = { λ t n. free_in t.others.left t.others.buckets };

    fn new(alloc: Global) -> BirthTable {
        BirthTable {
            row: Row { shift: 0 },
            others: Table::new(alloc),
        }
    }

    #[cold]
    fn find<T, N: Copy>(&self, slots: &Slab<Entry<T, N>>, birth: u64) -> Option<usize> {
        match self.row.find(slots, birth) {
            Some(place) => Some(place),
            None => search(&self.others.buckets, mix(birth), &OfBirth { slots, birth }),
        }
    }

    fn make_room<T, N: Copy>(
        &mut self,
        alloc: Global,
        slots: &Slab<Entry<T, N>>,
        birth: u64,
        place: usize,
    ) -> Result<(), AllocError> {
        if self.row.has(birth, place) {
            return Ok(());
        }
        match self.next_row(slots, birth, place) {
            Some(row) => self.begin(alloc, slots, row),
            None => self.others.make_room(alloc, slots, &self.row),
        }
    }

    fn reserve<T, N: Copy>(
        &mut self,
        alloc: Global,
        slots: &Slab<Entry<T, N>>,
        additional: usize,
    ) -> Result<(), AllocError> {
        self.others.reserve(alloc, slots, additional, &self.row)
    }

    fn memory(&self) -> usize {
        self.others.buckets.memory()
    }

    fn enter(&mut self, birth: u64, place: usize) {
        if !self.row.has(birth, place) {
            self.others.enter(mix(birth), place);
        }
    }

    fn forget<T, N: Copy>(&mut self, _slots: &Slab<Entry<T, N>>) {}
}
