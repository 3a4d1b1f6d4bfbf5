//! Values with counts, each stored once under a birth.
ghost use Rattle.std.specs.Prelude.{◌≡◌, IsPermutation, option_copied};
ghost use Rattle.std.specs.Option.{option_map};
ghost use Rattle.std.specs.FinMap as map;
ghost use Rattle.intern_table.specs.Hashes.{hash_of};
ghost use Rattle.intern_table.specs.Listed.{listed_counts, listed_values};

use crate::counted::Counts;
use crate::counts::{Lower, Raise};
use crate::offered::{FixedState, Offered, ValueHash, hash_value};
use indexmap::Equivalent;
use intern_index::{BirthTable, Index, Iter, Query};
use intern_store::{Entries, Finds, Keeps, Raises, Removes, Seeks, Spot, Sweeps, Takes};
use std::alloc::{AllocError, Global};
use std::cmp::Eq;
use std::hash::{BuildHasher, Hash};
use std::marker::Model;

/// The table of values: an index whose payloads are the counts.
///
/// Interning takes expected constant time, unless the hash tables are built anew. It compares the
/// values of one hash, and others only where a bucket with the same 16 bits leads to them, as one
/// does whose place was given to another entry. Building the table of hashes anew hashes each
/// value. A call on a handle touches its entry alone. Only an insertion and `reserve` take memory.
#[derive(Drop)]
pub struct Table<T: Hash + Eq, B: BuildHasher = FixedState> {
    index: Index<T, u64, BirthTable>,
    hasher: B,
}

impl<T: Hash + Eq, B: BuildHasher> Model for Table<T, B> {
    ghost use Rattle.intern_table.specs.Tabled.{Tabled, tabled_code};

    ghost Value = { Tabled T B };

    ghost coded = { tabled_code T.code B.code };

    ghost use Rattle.intern_store.specs.Maps.{map_values};
    ghost use Rattle.intern_index.specs.IndexEntry.{IsLed};
    ghost use Rattle.intern_index.specs.Seen.{kept_entry};
    ghost use Rattle.intern_table.specs.Hashes.{hash_of};

    ghost view = { λ a. record {
      entries = map_values kept_entry a.index.entries;
      hasher = a.hasher;
      room = a.index.room;
      spare = 0;
    } };

    ghost invariant = { λ a. IsLed (λ v _.
        hash_of B.BuildHasher B.Hasher.Hasher a.hasher (T.hash_input v)) a.index };
}

// A value that equals the one offered.
#[derive_where(Clone, Copy)]
struct Equal<'a, O> {
    offer: &'a O,
}

impl<T: Hash + Eq, O: Offered<T>> Query<T, u64> for Equal<'_, O> {
    ghost fits = { λ q v _. T.eq (O.value q.offer.now) v };

    fn fits(&self, value: &T, _count: u64) -> bool {
        self.offer.equals(value)
    }
}

// A value that a query is equivalent to.
#[derive(Clone, Copy)]
struct Sought<Q: Copy> {
    query: Q,
}

impl<T: Hash + Eq, Q: Equivalent<T>> Query<T, u64> for Sought<Q> {
    ghost fits = { λ s v _. Q.equivalent s.query v };

    fn fits(&self, value: &T, _count: u64) -> bool {
        self.query.equivalent(value)
    }
}

impl<T: Hash + Eq, B: BuildHasher> Table<T, B> {
    /// The value of an entry.
    pub fn get(&self, spot: Spot) -> Option<&T>
        ensures { option_copied result
            ≡ option_map (λ k. k.value) (map.get self.now.entries spot.birth) }
    {
        self.index.get(spot)
    }

    /// The entries, in no promised order.
    pub fn iter(&self) -> Iter<'_, T, u64>
        ensures { IsPermutation result (listed_values self.now.entries) }
    {
        self.index.iter()
    }

    /// The entries, each with its count, in no promised order.
    pub fn counts(&self) -> Counts<'_, T, u64>
        ensures { IsPermutation result (listed_counts self.now.entries) }
    {
        let entries = self.index.iter();
        Counts { entries }
    }
}

impl<T: Hash + Eq, B: BuildHasher> Entries for Table<T, B> {
    type Value = T;

    type Hasher = B;

    ghost entries = { λ a. a.entries };

    ghost hashes_by = { λ a. a.hasher };

    ghost room = { λ a. a.room };

    ghost spare = { λ a. a.spare };

    fn new(alloc: Global, hasher: B) -> Table<T, B> {
        Table {
            index: Index::new(alloc),
            hasher,
        }
    }

    fn reserve(&mut self, additional: usize) -> Result<(), AllocError> {
        let by = ValueHash {
            hasher: &self.hasher,
        };
        self.index.reserve(additional, &by)
    }

    fn len(&self) -> usize {
        self.index.len()
    }

    fn memory(&self) -> usize {
        self.index.memory()
    }

    fn place(&self, birth: u64) -> Option<usize> {
        self.index.place(birth)
    }

    fn count(&self, spot: Spot) -> Option<u64> {
        self.index.payload(spot)
    }

    fn count_up(&mut self, spot: Spot, top: u64) -> Option<u64> {
        self.index.change(spot, &Raise { top })
    }

    fn count_down(&mut self, spot: Spot) -> Option<u64> {
        self.index.change(spot, &Lower)
    }
}

impl<T: Hash + Eq, B: BuildHasher> Removes for Table<T, B> {
    fn remove(&mut self, spot: Spot) -> Option<T> {
        self.index.remove(spot)
    }
}

impl<T: Hash + Eq, B: BuildHasher, O: Offered<T>> Finds<O> for Table<T, B> {
    ghost value = { O.value };

    ghost hash_of = { λ b o. hash_of B.BuildHasher B.Hasher.Hasher b (T.hash_input (O.value o)) };

    fn find(&self, offer: &O) -> Result<Spot, u64> {
        let hash = offer.hashed(&self.hasher);
        self.index.find(hash, &Equal { offer }).ok_or(hash)
    }
}

impl<T: Hash + Eq, B: BuildHasher, Q: Equivalent<T>> Seeks<Q> for Table<T, B> {
    ghost use Rattle.std.proofs.Common.{sym, ◌∙◌};

    ghost fits = { λ q v. Q.equivalent q v };

    ghost alike = { λ q v w first second. sym (Q.Equivalent.respects_eq q v w first) ∙ second };

    fn seek(&self, query: &Q) -> Option<Spot> {
        let hash = hash_value(&self.hasher, query);
        self.index.find(hash, &Sought { query: *query })
    }
}

impl<T: Hash + Eq, B: BuildHasher, O: Offered<T>> Takes<O> for Table<T, B> {
    ghost outside = { O.outside };

    fn insert(&mut self, birth: u64, hash: u64, offer: O, count: u64) -> Result<usize, O> {
        let by = ValueHash {
            hasher: &self.hasher,
        };
        self.index.insert(birth, hash, offer, count, &by)
    }
}

impl<T: Hash + Eq, B: BuildHasher, O: Offered<T>> Raises<O> for Table<T, B> {
    fn find_and_raise(&mut self, offer: &O, top: u64) -> Result<(Spot, u64), u64> {
        let hash = offer.hashed(&self.hasher);
        let raise = Raise { top };
        self.index
            .find_and_change(hash, &Equal { offer }, &raise)
            .ok_or(hash)
    }
}

impl<T: Hash + Eq + Drop, B: BuildHasher, M: Keeps> Sweeps<M> for Table<T, B> {
    fn keep(&mut self, marks: &M) {
        self.index.keep(marks)
    }
}
