//! Headers with slices of items and counts, each stored once under a birth.
ghost use Rattle.std.specs.Prelude.{◌≡◌, IsPermutation, length};
ghost use Rattle.std.specs.Option.{option_map};
ghost use Rattle.std.specs.FinMap as map;
ghost use Rattle.intern_table.specs.Sliced.{sliced_fits, sliced_input};
ghost use Rattle.intern_table.specs.Hashes.{hash_of};
ghost use Rattle.intern_table.specs.Joined.{items_in, sliced_hash};
ghost use Rattle.intern_table.specs.Listed.{listed_counts, listed_slices};
ghost use Rattle.intern_table.specs.Read.{read, shown};

use crate::counted::{Counted, Counts};
use crate::counts::{Lower, OfCount, Raise};
use crate::layout::{NearItems, SliceRow, far_length};
use crate::offered::hash_slice;
use crate::pool::{SlicePayload, compact};
use crate::slice::{HeaderSlice, SliceValue, equal_items};
use crate::slice_iter::SliceIter;
use indexmap::Equivalent;
use intern_index::{BirthOrder, Hashes, Index, Packed, Query, size_of_one};
use intern_store::{Entries, Finds, Keeps, Pools, Seeks, Spot, Sweeps, Takes};
use std::alloc::{AllocError, Global};
use std::cmp::Eq;
use std::hash::{BuildHasher, Hash};
use std::marker::Model;

/// The table of slices: an index of the headers, with the items that lie beside them (`A`), and one
/// vector with the items of all other slices, in the order of births.
///
/// Interning takes expected constant time, unless the hash table is built anew. It compares the
/// slices of one hash, and others only where a bucket with the same 16 bits leads to them, as one
/// does whose place was given to another entry. Building the table anew hashes each slice. A call
/// on a handle touches its entry, and a read its items too. Only an insertion and what reserves
/// room take memory.
#[derive(Drop)]
pub struct SliceTable<H: Hash + Eq, S: Hash + Eq + Copy, A: NearItems<S>, B: BuildHasher> {
    index: Index<SliceRow<H, A>, SlicePayload, BirthOrder>,
    items: Vec<S>,
    hasher: B,
}

impl<H: Hash + Eq, S: Hash + Eq + Copy, A: NearItems<S>, B: BuildHasher> Model
    for SliceTable<H, S, A, B> {
    ghost use Rattle.intern_table.specs.Sliced.{Sliced, sliced_code, sliced_input};
    ghost use Rattle.intern_table.specs.Tabled.{Tabled, tabled_code};

    ghost Value = { Tabled (Sliced H S) B };

    ghost coded = { tabled_code (sliced_code H.code S.code) B.code };

    ghost use Rattle.std.specs.Prelude.{◌-◌, vec_len, vec_capacity};
    ghost use Rattle.intern_store.specs.Maps.{map_values};
    ghost use Rattle.intern_table.specs.Joined.{sliced_entry, IsSliced};
    ghost use Rattle.intern_table.specs.Hashes.{hash_of};

    ghost view = { λ a. record {
      entries = map_values (sliced_entry A.near_of a.items.items) a.index.entries;
      hasher = a.hasher;
      room = a.index.room;
      spare = vec_capacity a.items - vec_len a.items;
    } };

    ghost invariant = { λ a. IsSliced A.near_of (λ v.
        hash_of B.BuildHasher B.Hasher.Hasher a.hasher (sliced_input H.hash_input S.hash_input v))
        a.index a.items.items };
}

// A slice with equal items, and with a header that this one is equivalent to.
#[derive(Clone, Copy)]
struct EqualSlice<'a, Q: Copy, S: Copy> {
    header: Q,
    items: &'a [S],
    // The items in the vector.
    all: &'a [S],
}

impl<H: Hash + Eq, S: Eq + Copy, A: NearItems<S>, Q: Equivalent<H>> Query<
    SliceRow<H, A>,
    SlicePayload,
> for EqualSlice<'_, Q, S> {
    ghost fits = { λ q v p. sliced_fits (Q.equivalent q.header) S.eq q.items.now
        (record {
          header = v.header;
          items = items_in (A.near_of v.near) p.start q.all.now;
        }) };

    fn fits(&self, row: &SliceRow<H, A>, payload: SlicePayload) -> bool {
        self.header.equivalent(&row.header) && equal_items(self.items, row.items(payload, self.all))
    }
}

// How stored headers are hashed, each with its slice.
#[derive_where(Clone, Copy)]
struct SliceHash<'a, S, B> {
    // The items in the vector.
    all: &'a [S],
    hasher: &'a B,
}

impl<H: Hash, S: Hash, A: NearItems<S>, B: BuildHasher> Hashes<SliceRow<H, A>, SlicePayload>
    for SliceHash<'_, S, B> {
    ghost hash_of = { λ h v p. sliced_hash A.near_of (λ s.
        hash_of B.BuildHasher B.Hasher.Hasher h.hasher.now (sliced_input H.hash_input S.hash_input s))
        h.all.now v p };

    fn hash_of(&self, row: &SliceRow<H, A>, payload: SlicePayload) -> u64 {
        hash_slice(self.hasher, &row.header, row.items(payload, self.all))
    }
}

impl<H: Hash + Eq, S: Hash + Eq + Copy, A: NearItems<S>, B: BuildHasher> SliceTable<H, S, A, B> {
    /// The header and the slice of an entry.
    pub fn get(&self, spot: Spot) -> Option<HeaderSlice<'_, H, S>>
        ensures { option_map read result ≡ option_map shown (map.get self.now.entries spot.birth) }
    {
        match self.index.read(spot) {
            Some((row, payload)) => Some(row.read(payload, self.items.as_slice())),
            None => None,
        }
    }

    /// The entries, in no promised order.
    pub fn iter(&self) -> SliceIter<'_, H, S, A>
        ensures { IsPermutation result (listed_slices self.now.entries) }
    {
        SliceIter {
            rows: self.index.iter(),
            items: self.items.as_slice(),
        }
    }

    /// The entries, each with its count, in no promised order.
    pub fn counts(&self) -> Counts<'_, SliceRow<H, A>, SlicePayload>
        ensures { IsPermutation result (listed_counts self.now.entries) }
    {
        let entries = self.index.iter();
        Counts { entries }
    }
}

// The count in a payload.
fn count_of(payload: Option<SlicePayload>) -> Option<u64>
    ensures { result ≡ option_map (λ p. p.count) payload }
{
    Some(payload?.count())
}

impl<H: Hash + Eq, S: Hash + Eq + Copy, A: NearItems<S>, B: BuildHasher> Entries
    for SliceTable<H, S, A, B> {
    type Value = SliceValue<H, S>;

    type Hasher = B;

    ghost entries = { λ a. a.entries };

    ghost hashes_by = { λ a. a.hasher };

    ghost room = { λ a. a.room };

    ghost spare = { λ a. a.spare };

    fn new(alloc: Global, hasher: B) -> SliceTable<H, S, A, B> {
        SliceTable {
            index: Index::new(alloc),
            items: Vec::new(alloc),
            hasher,
        }
    }

    fn reserve(&mut self, additional: usize) -> Result<(), AllocError> {
        let by = SliceHash {
            all: self.items.as_slice(),
            hasher: &self.hasher,
        };
        self.index.reserve(additional, &by)
    }

    fn len(&self) -> usize {
        self.index.len()
    }

    fn memory(&self) -> usize {
        let items = self.items.capacity().saturating_mul(size_of_one::<S>());
        self.index.memory().saturating_add(items)
    }

    fn place(&self, birth: u64) -> Option<usize> {
        self.index.place(birth)
    }

    fn count(&self, spot: Spot) -> Option<u64> {
        count_of(self.index.payload(spot))
    }

    fn count_up(&mut self, spot: Spot, top: u64) -> Option<u64> {
        count_of(self.index.change(spot, &OfCount(Raise { top })))
    }

    fn count_down(&mut self, spot: Spot) -> Option<u64> {
        count_of(self.index.change(spot, &OfCount(Lower)))
    }
}

impl<H: Hash + Eq, S: Hash + Eq + Copy, A: NearItems<S>, B: BuildHasher> Pools
    for SliceTable<H, S, A, B> {
    fn reserve_outside(&mut self, additional: usize) -> Result<(), AllocError> {
        self.items.reserve(additional)
    }
}

// A slice with a header that a query is equivalent to.
impl<
    'a,
    H: Hash + Eq,
    S: Hash + Eq + Copy,
    A: NearItems<S>,
    B: BuildHasher,
    Q: Equivalent<H>,
> Seeks<(Q, &'a [S])> for SliceTable<H, S, A, B> {
    ghost use Rattle.intern_table.specs.Sliced.{fits_alike};

    ghost fits = { λ q v. sliced_fits (Q.equivalent q.0) S.eq q.1.now v };

    ghost alike = { λ q. fits_alike (Q.equivalent q.0) H.eq S.Eq.laws
        (Q.Equivalent.respects_eq q.0) q.1.now };

    fn seek(&self, query: &(Q, &'a [S])) -> Option<Spot> {
        let equal = EqualSlice {
            header: query.0,
            items: query.1,
            all: self.items.as_slice(),
        };
        let hash = hash_slice(&self.hasher, &query.0, query.1);
        self.index.find(hash, &equal)
    }
}

// A header and a slice that are offered.
impl<'a, H: Hash + Eq, S: Hash + Eq + Copy, A: NearItems<S>, B: BuildHasher> Finds<(H, &'a [S])>
    for SliceTable<H, S, A, B> {
    ghost value = { λ o. record { header = o.0; items = o.1.now } };

    ghost hash_of = { λ b o. hash_of B.BuildHasher B.Hasher.Hasher b
        (sliced_input H.hash_input S.hash_input (record { header = o.0; items = o.1.now })) };

    fn find(&self, offer: &(H, &'a [S])) -> Result<Spot, u64> {
        let equal = EqualSlice {
            header: &offer.0,
            items: offer.1,
            all: self.items.as_slice(),
        };
        let hash = hash_slice(&self.hasher, &offer.0, offer.1);
        self.index.find(hash, &equal).ok_or(hash)
    }
}

impl<'a, H: Hash + Eq, S: Hash + Eq + Copy, A: NearItems<S>, B: BuildHasher> Takes<(H, &'a [S])>
    for SliceTable<H, S, A, B> {
    ghost outside = { λ o. A.outside (length o.1.now) };

    fn insert(
        &mut self,
        birth: u64,
        hash: u64,
        offer: (H, &'a [S]),
        count: u64,
    ) -> Result<usize, (H, &'a [S])> {
        let (header, items) = offer;
        let near = A::of(items);
        let start = self.items.len();
        let far = &items[..far_length(&near)];
        let Ok(()) = self.items.extend_from_slice(far) else {
            return Err((header, items));
        };
        let payload = SlicePayload {
            start: Packed::of(start as u64),
            count: Packed::of(count),
        };
        let by = SliceHash {
            all: self.items.as_slice(),
            hasher: &self.hasher,
        };
        let row = SliceRow { header, near };
        match self.index.insert(birth, hash, row, payload, &by) {
            Ok(place) => Ok(place),
            Err(row) => {
                self.items.truncate(start);
                Err((row.header, items))
            }
        }
    }
}

impl<H: Hash + Eq + Drop, S: Hash + Eq + Copy, A: NearItems<S>, B: BuildHasher, M: Keeps> Sweeps<M>
    for SliceTable<H, S, A, B> {
    fn keep(&mut self, marks: &M) {
        self.index.keep(marks);
        compact(&mut self.index, &mut self.items);
    }
}
