//! Values with payloads, each under a birth, found by their hashes too.
ghost use Rattle.std.specs.Prelude.{◌≡◌, ℕ, ◌<◌, ◌≤◌, option_copied, IsSome, is_some, Some, None};
ghost use Rattle.std.specs.Prelude.{◌+◌, IsPermutation, IsOk, IfOk, OnOk, OnErr, IfErr, IfSome, IfNone, true, false};
ghost use Rattle.std.specs.Option.{option_map};
ghost use Rattle.std.specs.FinMap as map;
ghost use Rattle.intern_index.specs.Entries.{seen};
ghost use Rattle.intern_index.specs.IndexEntry.{IndexEntry, Indexed, IsLed, has_hash, is_sought, repaid, spot_at, spot_before};
ghost use Rattle.intern_index.specs.Listed.{listed};
ghost use Rattle.intern_store.specs.Memory.{least_memory};
ghost use Rattle.intern_store.specs.Outcome.{Spends};

use crate::birth_order::BirthOrder;
use crate::births::Births;
use crate::change::Change;
use crate::entry::Entry;
use crate::iter::Iter;
use crate::offer::Offer;
use crate::packed::Packed;
use crate::query::{Fitting, Hashes, Query};
use crate::size::size_of_option;
use crate::sweep::keep_marked;
use crate::table::{Key, Table};
use intern_buckets::{PLACES, search};
use intern_store::{Keeps, Spot};
use slab::Slab;
use std::alloc::{AllocError, Global};
use std::marker::Model;

/// Entries in a slab, a hash table of their places, and what finds their places by births. The
/// caller says how entries are hashed, and gives the hash of each.
///
/// Only an insertion and `reserve` take memory.
#[derive(Drop)]
pub struct Index<T, N: Copy, B: Births> {
    alloc: Global,
    slots: Slab<Entry<T, N>>,
    by_hash: Table,
    births: B,
}

// Entries are entered under their hashes.
#[derive_where(Clone, Copy)]
struct ByHash<'a, K> {
    by: &'a K,
}

impl<T, N: Copy, K: Hashes<T, N>> Key<T, N> for ByHash<'_, K> {
    ghost key = { λ k _ e. Some (K.hash_of k.by.now e.value e.payload) };

    fn key(&self, _place: usize, entry: &Entry<T, N>) -> Option<u64> {
        Some(self.by.hash_of(&entry.value, entry.payload))
    }
}

impl<T, N: Copy, B: Births> Model for Index<T, N, B> {
    ghost use Rattle.intern_buckets.specs.contracts.buckets.Buckets as buckets;
    ghost use Rattle.intern_index.specs.IndexEntry.{Indexed, indexed_code};

    ghost Value = { Indexed T N };

    ghost coded = { indexed_code T.code N.code buckets.the_row.coded };

    ghost use Rattle.slab.specs.Slab.{slab_len};
    ghost use Rattle.intern_index.specs.Entries.{held, IsTied};
    ghost use Rattle.intern_index.specs.Room.{free_in, room_of};

    ghost view = { λ a. record {
      entries = held a.slots.slots;
      buckets = a.by_hash.buckets;
      room = room_of a.slots (free_in a.by_hash.left a.by_hash.buckets)
          (B.free a.births (slab_len a.slots));
    } };

    ghost invariant = { λ a. IsTied a.slots (B.IsFor a.births) };
}

impl<T, N: Copy, B: Births> Index<T, N, B> {
    /// An index without an entry. It takes no memory.
    pub fn new(alloc: Global) -> Index<T, N, B>
        ensures { result.entries ≡ map.empty }
    {
        Index {
            alloc,
            slots: Slab::new(alloc),
            by_hash: Table::new(alloc),
            births: B::new(alloc),
        }
    }

    /// How many entries there are.
    pub fn len(&self) -> usize
        ensures { result ≡ map.len self.now.entries }
    {
        self.slots.len()
    }

    /// The bytes that the index holds: its slots, used or not, and what finds them.
    pub fn memory(&self) -> usize
        ensures { least_memory (map.len self.now.entries) ≤ result }
    {
        // A vacant slot holds the place of the next one.
        let slot = size_of_option::<Entry<T, N>>().max(size_of::<usize>());
        let slots = self.slots.capacity().saturating_mul(slot);
        slots
            .saturating_add(self.by_hash.buckets.memory())
            .saturating_add(self.births.memory())
    }

    /// The place of a birth.
    pub fn place(&self, birth: u64) -> Option<usize>
        ensures { result ≡ option_map (λ e. e.place) (map.get self.now.entries birth) }
    {
        self.births.find(&self.slots, birth)
    }

    // The entry of a birth, and its place, which is looked up only where the spot's is wrong.
    fn entry(&self, spot: Spot) -> Option<(usize, &Entry<T, N>)>
        ensures { option_map (λ f. seen f.0 f.1.now) result ≡ map.get self.now.entries spot.birth }
    {
        match self.slots.get(spot.place) {
            Some(entry) if entry.birth.get() == spot.birth => Some((spot.place, entry)),
            _ => {
                let place = self.births.find(&self.slots, spot.birth)?;
                Some((place, &self.slots[place]))
            }
        }
    }

    /// The value of an entry.
    pub fn get(&self, spot: Spot) -> Option<&T>
        ensures { option_copied result
            ≡ option_map (λ e. e.value) (map.get self.now.entries spot.birth) }
    {
        let (_, entry) = self.entry(spot)?;
        Some(&entry.value)
    }

    /// The payload of an entry.
    pub fn payload(&self, spot: Spot) -> Option<N>
        ensures { result ≡ option_map (λ e. e.payload) (map.get self.now.entries spot.birth) }
    {
        let (_, entry) = self.entry(spot)?;
        Some(entry.payload)
    }

    /// The value and the payload of an entry.
    pub fn read(&self, spot: Spot) -> Option<(&T, N)>
        ensures value { option_map (λ r. r.0.now) result
            ≡ option_map (λ e. e.value) (map.get self.now.entries spot.birth) }
        ensures payload { option_map (λ r. r.1) result
            ≡ option_map (λ e. e.payload) (map.get self.now.entries spot.birth) }
    {
        let (_, entry) = self.entry(spot)?;
        Some((&entry.value, entry.payload))
    }

    /// Changes the payload of an entry, and answers the one before.
    pub fn change<C: Change<N>>(&mut self, spot: Spot, change: &C) -> Option<N>
        ensures payload { result
            ≡ option_map (λ e. e.payload) (map.get self.old.entries spot.birth) }
        ensures state { self.new ≡ repaid (C.changed change.now) self.old spot.birth }
    {
        let (place, _) = self.entry(spot)?;
        let entry = &mut self.slots[place];
        let payload = entry.payload;
        entry.payload = change.changed(payload);
        Some(payload)
    }

    /// Removes an entry, and answers its value. Where a `BirthOrder` has a list of places, this
    /// goes over all of it.
    pub fn remove(&mut self, spot: Spot) -> Option<T>
        ensures value { result ≡ option_map (λ e. e.value) (map.get self.old.entries spot.birth) }
        ensures removed { self.new ≡ record self.old {
          entries = map.remove self.old.entries spot.birth;
          room = self.new.room;
        } }
    {
        let (place, _) = self.entry(spot)?;
        let entry = self.slots.remove(place);
        self.births.forget(&self.slots);
        let Entry { value, .. } = entry;
        Some(value)
    }

    /// Makes room for this many more entries. Where the table of hashes is built anew, all entries
    /// are hashed.
    pub fn reserve<K: Hashes<T, N>>(&mut self, additional: usize, by: &K) -> Result<(), AllocError>
        requires led { IsLed (K.hash_of by.now) self.old }
        ensures entries { self.new.entries ≡ self.old.entries }
        ensures room { OnOk result (additional ≤ self.new.room) }
        ensures led { IsLed (K.hash_of by.now) self.new }
    {
        self.slots.reserve(additional)?;
        if self.slots.capacity() >= PLACES {
            return Err(AllocError);
        }
        self.by_hash
            .reserve(self.alloc, &self.slots, additional, &ByHash { by })?;
        self.births.reserve(self.alloc, &self.slots, additional)
    }

    /// Adds an entry under a birth above all others, and tells its place. Where there is no memory
    /// the offer comes back. Where the table of hashes is built anew, all entries are hashed.
    ///
    /// Room is made first, and the value last.
    pub fn insert<O: Offer<T>, K: Hashes<T, N>>(
        &mut self,
        birth: u64,
        hash: u64,
        offer: O,
        payload: N,
        by: &K,
    ) -> Result<usize, O>
        requires fresh { (b : ℕ) → IsSome (map.get self.old.entries b) → b < birth }
        requires led { IsLed (K.hash_of by.now) self.old }
        requires hash { hash ≡ K.hash_of by.now (O.value offer) payload }
        ensures ok { IfOk result (λ p. self.new.entries ≡ map.insert self.old.entries birth
            (record { place = p; value = O.value offer; payload = payload })) }
        ensures err { OnErr result (self.new.entries ≡ self.old.entries) }
        ensures back { IfErr result (λ back. back ≡ offer) }
        ensures led { IsLed (K.hash_of by.now) self.new }
        ensures room { Spends result self.old.room self.new.room 1 }
        ensures succeeds { 0 < self.old.room → O.outside offer ≡ 0 → IsOk result }
    {
        let place = self.slots.vacant_key();
        let (Ok(()), Ok(()), Ok(())) = (
            self.by_hash
                .make_room(self.alloc, &self.slots, &ByHash { by }),
            self.births.make_room(self.alloc, &self.slots, birth, place),
            self.slots.reserve(1),
        ) else {
            return Err(offer);
        };
        if self.slots.capacity() >= PLACES {
            return Err(offer);
        }
        match offer.into_value(self.alloc) {
            Ok(value) => {
                self.slots.insert_reserved(Entry {
                    birth: Packed::of(birth),
                    value,
                    payload,
                });
                self.by_hash.enter(hash, place);
                self.births.enter(birth, place);
                Ok(place)
            }
            Err(back) => Err(back),
        }
    }

    /// An entry that fits a query. One is found where an entry of this hash fits; the one that is
    /// found may have another. Entries are looked at to which a bucket with 16 bits of the hash
    /// leads, also where the place was another entry's when the bucket was filled.
    pub fn find<Q: Query<T, N>>(&self, hash: u64, query: &Q) -> Option<Spot>
        ensures found { IfSome result (λ s.
            is_sought (Q.fits query.now) (map.get self.now.entries s.birth) ≡ true) }
        ensures place { IfSome result (λ s.
            option_map (λ e. e.place) (map.get self.now.entries s.birth) ≡ Some s.place) }
        ensures none { IfNone result ((key : T → N → ℕ) → IsLed key self.now → (b : ℕ) →
            has_hash key hash (map.get self.now.entries b) ≡ true →
            is_sought (Q.fits query.now) (map.get self.now.entries b) ≡ false) }
    {
        let test = Fitting {
            slots: &self.slots,
            query,
        };
        let place = search(&self.by_hash.buckets, hash, &test)?;
        let birth = self.slots[place].birth.get();
        Some(Spot { birth, place })
    }

    /// Changes the payload of an entry that fits a query, which is found as by `find`, and answers
    /// where the entry lies, and the payload before.
    pub fn find_and_change<Q: Query<T, N>, C: Change<N>>(
        &mut self,
        hash: u64,
        query: &Q,
        change: &C,
    ) -> Option<(Spot, N)>
        ensures found { IfSome result (λ r.
            is_sought (Q.fits query.now) (map.get self.old.entries r.0.birth) ≡ true) }
        ensures place { IfSome result (λ r.
            option_map (λ e. e.place) (map.get self.old.entries r.0.birth) ≡ Some r.0.place) }
        ensures payload { IfSome result (λ r.
            option_map (λ e. e.payload) (map.get self.old.entries r.0.birth) ≡ Some r.1) }
        ensures state { IfSome result (λ r.
            self.new ≡ repaid (C.changed change.now) self.old r.0.birth) }
        ensures none { IfNone result ((key : T → N → ℕ) → IsLed key self.old → (b : ℕ) →
            has_hash key hash (map.get self.old.entries b) ≡ true →
            is_sought (Q.fits query.now) (map.get self.old.entries b) ≡ false) }
        ensures same { IfNone result (self.new ≡ self.old) }
    {
        let test = Fitting {
            slots: &self.slots,
            query,
        };
        let place = search(&self.by_hash.buckets, hash, &test)?;
        let entry = &mut self.slots[place];
        let birth = entry.birth.get();
        let payload = entry.payload;
        entry.payload = change.changed(payload);
        Some((Spot { birth, place }, payload))
    }

    /// The entries, in the order of their places.
    pub fn iter(&self) -> Iter<'_, T, N>
        ensures { IsPermutation result (listed self.now.entries) }
    {
        Iter {
            slots: self.slots.iter(),
        }
    }

    /// Drops every entry that isn't marked. It takes no memory.
    pub fn keep<M: Keeps>(&mut self, marks: &M)
    where
        T: Drop,
        ensures { self.new ≡ record self.old {
          entries = map.retain_keys self.old.entries (M.marked marks.now);
          room = self.new.room;
        } }
    {
        keep_marked(&mut self.slots, marks);
        self.births.forget(&self.slots);
    }
}

impl<T, N: Copy> Index<T, N, BirthOrder> {
    /// The entry of a rank in the order of births: where it lies, its value and its payload; none
    /// behind the last. `before` is where the entry of the rank before lies, none for rank 0:
    /// births in row are looked for from there.
    pub fn nth(&self, at: usize, before: Option<Spot>) -> Option<(Spot, &T, N)>
        requires within { at ≤ map.len self.now.entries }
        requires before { before ≡ spot_before self.now.entries at }
        ensures spot { option_map (λ r. r.0) result ≡ spot_at self.now.entries at }
        ensures entry { IfSome result (λ r. map.get self.now.entries r.0.birth
            ≡ Some (record { place = r.0.place; value = r.1.now; payload = r.2 })) }
    {
        let place = self.births.place(&self.slots, at, before)?;
        let entry = &self.slots[place];
        let birth = entry.birth.get();
        Some((Spot { birth, place }, &entry.value, entry.payload))
    }
}
