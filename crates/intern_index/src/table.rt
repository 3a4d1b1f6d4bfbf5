//! A table of buckets that is built from the entries.
ghost use Rattle.std.specs.Prelude.{◌≡◌, ◌==◌, ◌≤◌, ◌<◌, ◌+◌, ◌-◌, ◌^◌, ℕ, min, true, Option, Some, IsOk, IfOk, OnOk, OnErr};
ghost use Rattle.slab.specs.Slab.{slab_len, HasRoomFor};
ghost use Rattle.intern_buckets.specs.Filling.{homes_of, homes_for, full_of, HasRoom};
ghost use Rattle.intern_buckets.specs.Leading.{leads};
ghost use Rattle.intern_index.specs.Entries.{AreTold};
ghost use Rattle.intern_index.specs.Keyed.{IsKeyed};
ghost use Rattle.intern_index.specs.Room.{grown, left_for, left_then, free_in};
ghost use Rattle.intern_index.specs.declared.entry.Entry.{Entry as Kept};

use crate::entry::Entry;
use intern_buckets::Buckets;
use slab::Slab;
use std::alloc::{AllocError, Global};

// For so many more entries a table is built at least.
const LEAST: usize = 64;

// Below so many entries a table is built for four times as many, else for twice as many: it is
// small all the same, and is built half as often while a storage grows.
const FEW: usize = 1 << 15;

/// What entries are entered under.
pub(crate) trait Key<T, N: Copy> {
    // The hash under which an entry at a place is entered, if it is.
    ghost key: { Self → ℕ → Kept T N → Option ℕ };

    /// The hash under which an entry at a place is entered, if it is.
    fn key(&self, place: usize, entry: &Entry<T, N>) -> Option<u64>
        ensures { result ≡ key self.now place entry.now };
}

/// A hash table of places, which counts its own room.
#[derive(Drop)]
pub(crate) struct Table {
    pub(crate) buckets: Buckets,
    // how many entries may be entered before the table is built anew
    left: usize,
    ghost homed: { full_of buckets + left ≤ homes_of buckets },
}

// The places of all entries that have a key, each entered once, with homes for this many.
fn buckets_of<T, N: Copy, K: Key<T, N>>(
    alloc: Global,
    slots: &Slab<Entry<T, N>>,
    room: usize,
    by: &K,
) -> Result<Buckets, AllocError>
    requires { AreTold slots.now }
    ensures keyed { IfOk result (λ t. IsKeyed t (K.key by.now) slots.now) }
    ensures once { IfOk result (λ t. full_of t ≤ slab_len slots.now) }
    ensures homes { IfOk result (λ t. homes_of t ≡ homes_for room) }
{
    let mut buckets = Buckets::with_room(alloc, room)?;
    for (place, entry) in slots.iter() {
        if let Some(key) = by.key(place, entry) {
            buckets.reserve(1)?;
            buckets.enter(key, place);
        }
    }
    Ok(buckets)
}

// For how many more entries a table is built where there are so many.
#[tactic(auto, unfolding(crate::specs::Room::grown))]
fn grown(entries: usize) -> usize
    ensures { result ≡ grown entries }
{
    if entries < FEW { entries * 3 } else { entries }
}

impl Table {
    /// A table without an entry. It takes no memory.
    pub(crate) fn new(alloc: Global) -> Table
        ensures { full_of result.buckets ≡ 0 }
    {
        Table {
            buckets: Buckets::new(alloc),
            left: 0,
        }
    }

    /// Whether it is built anew before one more is entered.
    pub(crate) fn is_full(&self) -> bool
        ensures { result ≡ (self.now.left == 0) }
    {
        self.left == 0
    }

    /// Builds the table anew, with room for twice as many entries as there are, and for four times
    /// as many where these are few. That goes over all slots, vacant ones too, so there is room for
    /// as many insertions as there are slots: they pay, also where entries come and go. Where there
    /// is no memory, the table is as it was.
    pub(crate) fn rebuild<T, N: Copy, K: Key<T, N>>(
        &mut self,
        alloc: Global,
        slots: &Slab<Entry<T, N>>,
        by: &K,
    ) -> Result<(), AllocError>
        requires { AreTold slots.now }
        ensures keyed { OnOk result (IsKeyed self.new.buckets (K.key by.now) slots.now) }
        ensures once { OnOk result (full_of self.new.buckets ≤ slab_len slots.now) }
        ensures left { OnOk result (self.new.left ≡ left_for slots.now) }
        ensures some { OnOk result (0 < self.new.left) }
        ensures slots { OnOk result (slots.now.capacity ≤ slab_len slots.now + self.new.left) }
        ensures same { OnErr result (self.new ≡ self.old) }
    {
        let entries = slots.len();
        let more = grown(entries).max(slots.capacity()).max(LEAST);
        let room = entries.saturating_add(more);
        self.buckets = buckets_of(alloc, slots, room, by)?;
        self.left = room.saturating_sub(entries);
        Ok(())
    }

    /// Makes room for one more entry.
    pub(crate) fn make_room<T, N: Copy, K: Key<T, N>>(
        &mut self,
        alloc: Global,
        slots: &Slab<Entry<T, N>>,
        by: &K,
    ) -> Result<(), AllocError>
        requires told { AreTold slots.now }
        requires keyed { IsKeyed self.old.buckets (K.key by.now) slots.now }
        ensures keyed { IsKeyed self.new.buckets (K.key by.now) slots.now }
        ensures room { OnOk result (HasRoom self.new.buckets) }
        ensures left { OnOk result (self.new.left ≡ left_then self.old.left slots.now) }
        ensures some { OnOk result (0 < self.new.left) }
        ensures free { free_in self.old.left self.old.buckets
            ≤ free_in self.new.left self.new.buckets }
        ensures succeeds { 0 < free_in self.old.left self.old.buckets → IsOk result }
    {
        if self.left == 0 {
            self.rebuild(alloc, slots, by)?;
        }
        self.buckets.reserve(1)
    }

    /// Makes room for this many more entries, for which the slab has it.
    pub(crate) fn reserve<T, N: Copy, K: Key<T, N>>(
        &mut self,
        alloc: Global,
        slots: &Slab<Entry<T, N>>,
        additional: usize,
        by: &K,
    ) -> Result<(), AllocError>
        requires told { AreTold slots.now }
        requires keyed { IsKeyed self.old.buckets (K.key by.now) slots.now }
        requires room { HasRoomFor slots.now additional }
        ensures keyed { IsKeyed self.new.buckets (K.key by.now) slots.now }
        ensures free { OnOk result (additional ≤ free_in self.new.left self.new.buckets) }
    {
        if self.left < additional {
            self.rebuild(alloc, slots, by)?;
        }
        self.buckets.reserve(additional)
    }

    /// Enters a place under a hash, in room that was made before. It takes no memory.
    pub(crate) fn enter(&mut self, hash: u64, place: usize)
        requires small { place + 1 < 2 ^ 48 }
        requires room { HasRoom self.old.buckets }
        requires left { 0 < self.old.left }
        ensures entered { leads self.new.buckets hash place ≡ true }
        ensures still { (h p : ℕ) →
            leads self.old.buckets h p ≡ true → leads self.new.buckets h p ≡ true }
        ensures left { self.new.left + 1 ≡ self.old.left }
        ensures free { free_in self.old.left self.old.buckets
            ≤ free_in self.new.left self.new.buckets + 1 }
    {
        self.buckets.enter(hash, place);
        self.left -= 1;
    }
}
