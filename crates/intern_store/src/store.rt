//! What all storages share: a table with the storage's number, its limits and the next birth.
ghost use Rattle.std.specs.Prelude.{◌≡◌, ◌<◌, ◌≤◌, ◌==◌, if◌then◌else◌, true, Some, None, IsSome, IfSome, IfNone, ◌≢◌, IfOk, IfErr};
ghost use Rattle.std.specs.Result.{result_ok};
ghost use Rattle.std.specs.FinMap as map;
ghost use Rattle.std.specs.Option.{option_map};
ghost use Rattle.intern_store.specs.Memory.{least_memory};
ghost use Rattle.intern_store.specs.Named.{key_name};
ghost use Rattle.intern_store.specs.Outcome.{Owes, OwesBack, MayWantBack, Becomes, Spends};
ghost use Rattle.intern_store.specs.State.{HasRoom, IsState, new_state, name_in, entry_at, count_at, counts, counted_up, counted_down, added_with, birth_of, birth_where, is_new, interned, interned_name, interned_counted, given_back, name_of_value, name_where, due, due_at, due_adding, due_interning, due_found_full, found_counted, full, zero_count, any_count};

mod removing;
mod room;

use crate::entries::{Entries, Finds, Raises, Seeks, Takes};
use crate::names::{EntryKey, Limits, Spot};
use crate::refusal::{Refusal, Refused};
use std::alloc::Global;
use std::marker::Model;

/// A table of entries, with the storage's number and limits and the next birth. Contracts see its
/// state, how it hashes, and the room for more.
///
/// Each refusal and each count is decided here, once for every kind of storage.
pub struct Store<E: Entries> {
    number: u64,
    next: u64,
    top: u64,
    numbers: u64,
    table: E,
}

// Written out, so that a store is dropped by one call. A derived drop is checked anew at each way
// out of each function that has one, down to the last part of the table.
impl<E: Entries + Drop> Drop for Store<E> {
    fn drop(self) {
        let Store {
            number: _,
            next: _,
            top: _,
            numbers: _,
            table: _,
        } = self;
    }
}

impl<E: Entries> Model for Store<E> {
    ghost use Rattle.intern_store.specs.State.{Stocked, stocked_code, IsState};

    ghost Value = { Stocked E.Value E.Hasher };

    ghost coded = { stocked_code E.Value.code E.Hasher.code };

    ghost view = { λ a. record {
      state = record {
        number = a.number;
        next = a.next;
        top = a.top;
        numbers = a.numbers;
        map = E.entries a.table;
      };
      hasher = E.hashes_by a.table;
      room = E.room a.table;
      spare = E.spare a.table;
    } };

    ghost invariant = { λ a. IsState E.Value.eq (record {
      number = a.number;
      next = a.next;
      top = a.top;
      numbers = a.numbers;
      map = E.entries a.table;
    }) };
}

impl<E: Entries> Store<E>
where
    E::Hasher: Default,
{
    /// An empty store with the largest limits, which hashes by the default. It takes no memory.
    pub fn new(alloc: Global, number: u64) -> Store<E>
        ensures { result.state ≡ new_state number u64.MAX u64.MAX }
    {
        Store::with_hasher(alloc, number, Limits::MAX, E::Hasher::default())
    }
}

impl<E: Entries> Store<E> {
    /// An empty store that hashes by this. It takes no memory.
    pub fn with_hasher(alloc: Global, number: u64, limits: Limits, hasher: E::Hasher) -> Store<E>
        requires { 0 < limits.top }
        ensures state { result.state ≡ new_state number limits.top limits.numbers }
        ensures hasher { result.hasher ≡ hasher }
    {
        Store {
            number,
            next: 0,
            top: limits.top,
            numbers: limits.numbers,
            table: E::new(alloc, hasher),
        }
    }

    /// The storage's number.
    pub fn number(&self) -> u64
        ensures number { result ≡ self.now.state.number }
        ensures state { IsState E.Value.eq self.now.state }
    {
        self.number
    }

    /// How many entries there are.
    pub fn len(&self) -> usize
        ensures { result ≡ map.len self.now.state.map }
    {
        self.table.len()
    }

    /// Whether there is no entry.
    pub fn is_empty(&self) -> bool
        ensures { result ≡ (map.len self.now.state.map == 0) }
    {
        self.len() == 0
    }

    /// The bytes that the table holds.
    pub fn memory(&self) -> usize
        ensures { least_memory (map.len self.now.state.map) ≤ result }
    {
        self.table.memory()
    }

    // Where the entry of a key is looked for. A key of another storage is refused.
    fn spot(&self, key: EntryKey) -> Result<Spot, Refusal>
        ensures own { IfOk result (λ s.
            (key.storage ≡ self.now.state.number) × (s ≡ key.spot)) }
        ensures foreign { IfErr result (λ why.
            (key.storage ≢ self.now.state.number) × (why ≡ Refusal.Foreign)) }
    {
        if key.storage != self.number {
            return Err(Refusal::Foreign);
        }
        Ok(key.spot)
    }

    /// The table.
    pub fn table(&self) -> &E
        ensures { E.entries result.now ≡ self.now.state.map }
    {
        &self.table
    }

    /// The table, where the number is that of this storage.
    pub fn own(&self, number: u64) -> Option<&E>
        ensures own { IfSome result (λ t.
            (number ≡ self.now.state.number) × (E.entries t.now ≡ self.now.state.map)) }
        ensures foreign { IfNone result (number ≢ self.now.state.number) }
    {
        if number != self.number {
            return None;
        }
        Some(&self.table)
    }

    /// The count of the entry of a key.
    pub fn count(&self, key: EntryKey) -> Option<u64>
        ensures { result ≡ counts self.now.state (key_name key) }
    {
        self.table.count(self.spot(key).ok()?)
    }

    // The key of a spot.
    fn key(&self, spot: Spot) -> EntryKey
        ensures { key_name result ≡ name_in self.now.state spot.birth }
    {
        EntryKey {
            storage: self.number,
            spot,
        }
    }

    /// The key of the entry of a birth. Refused: `Gone`.
    pub fn entry(&self, birth: u64) -> Result<EntryKey, Refusal>
        ensures ok { IfOk result (λ k. key_name k ≡ name_in self.now.state birth) }
        ensures refused { Owes result (due_at (entry_at self.now.state birth) any_count) }
    {
        match self.table.place(birth) {
            None => Err(Refusal::Gone),
            Some(place) => Ok(self.key(Spot { birth, place })),
        }
    }

    /// The key of the entry of a birth, where its count isn't zero. Refused: `Gone`, `CountZero`.
    pub fn counted_entry(&self, birth: u64) -> Result<EntryKey, Refusal>
        ensures ok { IfOk result (λ k. key_name k ≡ name_in self.now.state birth) }
        ensures refused { Owes result (due_at (entry_at self.now.state birth) zero_count) }
    {
        let key = self.entry(birth)?;
        if self.table.count(key.spot) == Some(0) {
            return Err(Refusal::CountZero);
        }
        Ok(key)
    }

    // An entry whose value equals the one that a query names, or else its hash.
    fn search<Q>(&self, query: &Q) -> Result<Spot, u64>
    where
        E: Finds<Q>,
        ensures birth { option_map (λ s. s.birth) (result_ok result)
            ≡ birth_of E.Value.eq self.now.state (E.value query.now) }
        ensures there { IfOk result (λ s. IsSome (entry_at self.now.state s.birth)) }
        ensures hash { IfErr result (λ h. h ≡ E.hash_of self.now.hasher query.now) }
    {
        // A field that is read brings in the invariant, which the table alone doesn't know.
        let _next = self.next;
        self.table.find(query)
    }

    // An entry whose value is what a query looks up.
    fn sought<Q>(&self, query: &Q) -> Option<Spot>
    where
        E: Seeks<Q>,
        ensures { option_map (λ s. s.birth) result
            ≡ birth_where (E.fits query.now) self.now.state }
    {
        // A field that is read brings in the invariant, which the table alone doesn't know.
        let _next = self.next;
        self.table.seek(query)
    }

    /// The key of the entry whose value is what a query looks up.
    pub fn find<Q>(&self, query: &Q) -> Option<EntryKey>
    where
        E: Seeks<Q>,
        ensures { option_map key_name result
            ≡ name_where (E.fits query.now) self.now.state }
    {
        Some(self.key(self.sought(query)?))
    }

    // Adds an entry under its hash, with its first count.
    fn add<O>(&mut self, hash: u64, offer: O, count: u64) -> Result<EntryKey, Refused<O>>
    where
        E: Takes<O>,
        requires hash { hash ≡ E.hash_of self.old.hasher offer }
        requires fits { count ≤ self.old.state.top }
        requires fresh { birth_of E.Value.eq self.old.state (E.value offer) ≡ None }
        ensures ok { IfOk result (λ k. key_name k ≡ name_in self.old.state self.old.state.next) }
        ensures refused { MayWantBack result (due_adding self.old.state) true offer }
        ensures state { Becomes result self.old.state self.new.state
            (added_with count self.old.state (E.value offer)) }
        ensures hasher { self.new.hasher ≡ self.old.hasher }
        ensures room { Spends result self.old.room self.new.room 1 }
        ensures spare { Spends result self.old.spare self.new.spare (E.outside offer) }
        ensures roomy { HasRoom self.old (E.outside offer) →
            OwesBack result (due_adding self.old.state) offer }
    {
        if self.next == self.numbers {
            return Err(Refused {
                why: Refusal::NumbersUsedUp,
                back: offer,
            });
        }
        let birth = self.next;
        match self.table.insert(birth, hash, offer, count) {
            Ok(place) => {
                self.next = birth + 1;
                Ok(self.key(Spot { birth, place }))
            }
            Err(back) => Err(Refused {
                why: Refusal::OutOfMemory,
                back,
            }),
        }
    }

    // Raises the count of an entry.
    fn raise(&mut self, spot: Spot) -> Result<(), Refusal>
        ensures refused { Owes result
            (due_at (entry_at self.old.state spot.birth) (full self.old.state.top)) }
        ensures state { Becomes result self.old.state self.new.state
            (counted_up self.old.state spot.birth) }
        ensures hasher { self.new.hasher ≡ self.old.hasher }
    {
        match self.table.count_up(spot, self.top) {
            None => Err(Refusal::Gone),
            Some(count) if count == self.top => Err(Refusal::CountFull),
            Some(_) => Ok(()),
        }
    }

    // Lowers the count of an entry, and answers the count before.
    fn lower(&mut self, spot: Spot) -> Result<u64, Refusal>
        ensures ok { IfOk result (λ n. (0 < n) × (count_at self.old.state spot.birth ≡ Some n)) }
        ensures refused { Owes result (due_at (entry_at self.old.state spot.birth) zero_count) }
        ensures state { Becomes result self.old.state self.new.state
            (counted_down self.old.state spot.birth) }
        ensures hasher { self.new.hasher ≡ self.old.hasher }
    {
        // A field that is read brings in the invariant, which the table alone doesn't know.
        let _next = self.next;
        match self.table.count_down(spot) {
            None => Err(Refusal::Gone),
            Some(0) => Err(Refusal::CountZero),
            Some(count) => Ok(count),
        }
    }

    /// Stores what is offered, with count zero, or hands it back where an equal value is stored.
    /// Refused, with the offer handed back and only where none is: `NumbersUsedUp`, `OutOfMemory`.
    /// It takes memory where the table has no room.
    pub fn intern<O>(&mut self, offer: O) -> Result<(EntryKey, Option<O>), Refused<O>>
    where
        E: Takes<O>,
        ensures name { IfOk result (λ r.
            key_name r.0 ≡ interned_name E.Value.eq self.old.state (E.value offer)) }
        ensures back { IfOk result (λ r.
            r.1 ≡ given_back E.Value.eq self.old.state (E.value offer) offer) }
        ensures refused { MayWantBack result
            (due_interning E.Value.eq self.old.state (E.value offer) any_count)
            (is_new E.Value.eq self.old.state (E.value offer)) offer }
        ensures state { Becomes result self.old.state self.new.state
            (interned E.Value.eq self.old.state (E.value offer)).state }
        ensures hasher { self.new.hasher ≡ self.old.hasher }
        ensures room { Spends result self.old.room self.new.room
            (if is_new E.Value.eq self.old.state (E.value offer) then 1 else 0) }
        ensures spare { Spends result self.old.spare self.new.spare
            (if is_new E.Value.eq self.old.state (E.value offer) then E.outside offer else 0) }
        ensures roomy { HasRoom self.old (E.outside offer) → OwesBack result
            (due_interning E.Value.eq self.old.state (E.value offer) any_count) offer }
    {
        match self.search(&offer) {
            Ok(spot) => Ok((self.key(spot), Some(offer))),
            Err(hash) => Ok((self.add(hash, offer, 0)?, None)),
        }
    }

    /// Counts the entry whose value equals what is offered once more, and answers its key. Where no
    /// such value is stored it answers the hash of what is offered, for `add_counted`. Refused with
    /// `CountFull` where the count is at its limit. It takes no memory.
    pub fn count_up_stored<O>(&mut self, offer: &O) -> Result<Result<EntryKey, u64>, Refusal>
    where
        E: Raises<O>,
        ensures found { IfOk result (λ found. option_map key_name (result_ok found)
            ≡ name_of_value E.Value.eq self.old.state (E.value offer.now)) }
        ensures hash { IfOk result (λ found. IfErr found (λ h.
            h ≡ E.hash_of self.old.hasher offer.now)) }
        ensures refused { Owes result
            (due_found_full (birth_of E.Value.eq self.old.state (E.value offer.now))
            self.old.state) }
        ensures state { Becomes result self.old.state self.new.state
            (found_counted (birth_of E.Value.eq self.old.state (E.value offer.now))
            self.old.state) }
        ensures hasher { self.new.hasher ≡ self.old.hasher }
        ensures room { self.new.room ≡ self.old.room }
        ensures spare { self.new.spare ≡ self.old.spare }
    {
        // A field that is read brings in the invariant, which the table alone doesn't know.
        let top = self.top;
        match self.table.find_and_raise(offer, top) {
            Ok((spot, count)) => {
                if count == top {
                    return Err(Refusal::CountFull);
                }
                Ok(Ok(self.key(spot)))
            }
            Err(hash) => Ok(Err(hash)),
        }
    }

    /// Stores what is offered, to which no stored value is equal, under its hash, counted once.
    /// Refused, with the offer handed back, with `NumbersUsedUp` and `OutOfMemory`. It takes memory
    /// where the table has no room.
    pub fn add_counted<O>(&mut self, hash: u64, offer: O) -> Result<EntryKey, Refused<O>>
    where
        E: Takes<O>,
        requires hash { hash ≡ E.hash_of self.old.hasher offer }
        requires fresh { birth_of E.Value.eq self.old.state (E.value offer) ≡ None }
        ensures name { IfOk result (λ k.
            key_name k ≡ interned_name E.Value.eq self.old.state (E.value offer)) }
        ensures refused { MayWantBack result (due_adding self.old.state) true offer }
        ensures state { Becomes result self.old.state self.new.state
            (interned_counted E.Value.eq self.old.state (E.value offer)) }
        ensures hasher { self.new.hasher ≡ self.old.hasher }
        ensures room { Spends result self.old.room self.new.room 1 }
        ensures spare { Spends result self.old.spare self.new.spare (E.outside offer) }
        ensures roomy { HasRoom self.old (E.outside offer) →
            OwesBack result (due_adding self.old.state) offer }
    {
        // A field that is read brings in the invariant, which the call doesn't know.
        let _next = self.next;
        self.add(hash, offer, 1)
    }

    /// Stores what is offered, or hands it back where an equal value is stored. The entry is
    /// counted once more. Refused, with the offer handed back: `CountFull` where an equal value is
    /// stored; else `NumbersUsedUp`, `OutOfMemory`. It takes memory where the table has no room.
    pub fn intern_counted<O>(&mut self, offer: O) -> Result<(EntryKey, Option<O>), Refused<O>>
    where
        E: Raises<O>,
        ensures name { IfOk result (λ r.
            key_name r.0 ≡ interned_name E.Value.eq self.old.state (E.value offer)) }
        ensures back { IfOk result (λ r.
            r.1 ≡ given_back E.Value.eq self.old.state (E.value offer) offer) }
        ensures refused { MayWantBack result
            (due_interning E.Value.eq self.old.state (E.value offer) (full self.old.state.top))
            (is_new E.Value.eq self.old.state (E.value offer)) offer }
        ensures state { Becomes result self.old.state self.new.state
            (interned_counted E.Value.eq self.old.state (E.value offer)) }
        ensures hasher { self.new.hasher ≡ self.old.hasher }
        ensures room { Spends result self.old.room self.new.room
            (if is_new E.Value.eq self.old.state (E.value offer) then 1 else 0) }
        ensures spare { Spends result self.old.spare self.new.spare
            (if is_new E.Value.eq self.old.state (E.value offer) then E.outside offer else 0) }
        ensures roomy { HasRoom self.old (E.outside offer) → OwesBack result
            (due_interning E.Value.eq self.old.state (E.value offer) (full self.old.state.top))
            offer }
    {
        match self.count_up_stored(&offer) {
            Ok(Ok(key)) => Ok((key, Some(offer))),
            Ok(Err(hash)) => Ok((self.add_counted(hash, offer)?, None)),
            Err(why) => Err(Refused { why, back: offer }),
        }
    }

    /// Counts an entry once more. Refused: `Foreign`, `Gone`, `CountFull`.
    pub fn count_up(&mut self, key: EntryKey) -> Result<(), Refusal>
        ensures refused { Owes result
            (due self.old.state (key_name key) (full self.old.state.top)) }
        ensures state { Becomes result self.old.state self.new.state
            (counted_up self.old.state key.spot.birth) }
        ensures hasher { self.new.hasher ≡ self.old.hasher }
    {
        let spot = self.spot(key)?;
        self.raise(spot)
    }

    /// Counts an entry once less. It stays, also at zero. Refused: `Foreign`, `Gone`, `CountZero`.
    pub fn count_down(&mut self, key: EntryKey) -> Result<(), Refusal>
        ensures refused { Owes result (due self.old.state (key_name key) zero_count) }
        ensures state { Becomes result self.old.state self.new.state
            (counted_down self.old.state key.spot.birth) }
        ensures hasher { self.new.hasher ≡ self.old.hasher }
    {
        let spot = self.spot(key)?;
        self.lower(spot)?;
        Ok(())
    }
}
