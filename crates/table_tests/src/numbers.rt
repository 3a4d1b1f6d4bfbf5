//! Numbers in an index, under themselves as their births.
ghost use Rattle.std.specs.Prelude.{◌≡◌, ℕ, ◌+◌, ◌*◌, ◌%◌, ◌^◌, ◌<◌, ◌==◌, nat_lt, true, IsSome};
ghost use Rattle.std.specs.FinMap as map;
ghost use Rattle.intern_index.specs.IndexEntry.{IsLed};

use crate::apart::{APART, Apart};
use crate::steps::is_equal;
use intern_index::{BirthOrder, Births, Hashes, Index, Offer, Query};
use intern_store::{Keeps, Spot};
use std::alloc::Global;
use std::cell::Cell;
use std::process::Abort;

// A number to store, or to look up.
#[derive(Debug, Drop)]
struct Number(u64);

impl Offer<u64> for Number {
    ghost value = { λ n. n.0 };

    ghost outside = { λ _. 0 };

    fn into_value(self, _alloc: Global) -> Result<u64, Number> {
        Ok(self.0)
    }
}

impl Query<u64, u64> for Number {
    ghost fits = { λ n v p. v == n.0 };

    fn fits(&self, value: &u64, _payload: u64) -> bool {
        *value == self.0
    }
}

/// Keeps the births below this one.
#[derive(Clone, Copy)]
pub(crate) struct Below(pub(crate) u64);

impl Keeps for Below {
    ghost marked = { λ m b. nat_lt b m.0 };

    fn is_marked(&self, spot: Spot) -> bool {
        spot.birth < self.0
    }
}

/// Keeps all, and counts the entries that it is asked of at these places.
#[derive(Drop)]
pub(crate) struct Placed<'a> {
    pub(crate) spots: &'a [Spot],
    pub(crate) asked: Cell<usize>,
}

impl Keeps for Placed<'_> {
    ghost marked = { λ m b. true };

    fn is_marked(&self, spot: Spot) -> bool {
        for placed in self.spots {
            if (placed.birth, placed.place) == (spot.birth, spot.place) {
                self.asked.set(self.asked.get().saturating_add(1));
            }
        }
        true
    }
}

/// Hashes from a first one on, so far apart, and how many were asked for.
#[derive(Drop)]
pub(crate) struct Sequence {
    first: u64,
    apart: u64,
    asked: Cell<u64>,
}

impl Sequence {
    /// Hashes that are spread.
    pub(crate) fn spread() -> Sequence {
        Sequence {
            first: 0,
            apart: 0x9E37_79B9_7F4A_7C15,
            asked: Cell::new(0),
        }
    }

    /// One hash.
    pub(crate) fn of_one(hash: u64) -> Sequence {
        Sequence {
            first: hash,
            apart: 0,
            asked: Cell::new(0),
        }
    }
}

impl Hashes<u64, u64> for Sequence {
    ghost hash_of = { λ s v _. (s.first + (v * s.apart) % 2 ^ 64) % 2 ^ 64 };

    fn hash_of(&self, value: &u64, _payload: u64) -> u64 {
        self.asked.set(self.asked.get().saturating_add(1));
        self.first.wrapping_add(value.wrapping_mul(self.apart))
    }
}

/// Numbers that are their births, with their complements as payloads.
#[derive(Drop)]
pub(crate) struct Numbers<B: Births> {
    index: Index<u64, u64, B>,
    hashes: Sequence,
    next: u64,
    ghost below: { (b : ℕ) → IsSome (map.get index.entries b) → b < next },
    ghost led: { IsLed (λ v _. (hashes.first + (v * hashes.apart) % 2 ^ 64) % 2 ^ 64) index },
}

impl<B: Births> Numbers<B> {
    /// No number.
    pub(crate) fn new(alloc: Global, hashes: Sequence) -> Numbers<B> {
        Numbers {
            index: Index::new(alloc),
            hashes,
            next: 0,
        }
    }

    /// How many there are.
    pub(crate) fn len(&self) -> usize {
        self.index.len()
    }

    /// The next number.
    pub(crate) fn next(&self) -> u64 {
        self.next
    }

    /// How many hashes were asked for.
    pub(crate) fn asked(&self) -> u64 {
        self.hashes.asked.get()
    }

    /// Adds the next number.
    pub(crate) fn add(&mut self, rt: &impl Abort) -> Spot {
        let birth = self.next;
        assert!(rt; birth < u64::MAX);
        let payload = !birth;
        let hash = self.hashes.hash_of(&birth, payload);
        let place = self
            .index
            .insert(birth, hash, Number(birth), payload, &self.hashes)
            .expect(rt, "memory");
        self.next = birth + 1;
        Spot { birth, place }
    }

    /// Adds so many numbers.
    pub(crate) fn add_all(&mut self, rt: &impl Abort, alloc: Global, count: u64) -> Vec<Spot> {
        let mut spots = Vec::new(alloc);
        for _ in 0..count {
            let pushed: Result<_, _> = spots.push(self.add(rt));
            pushed.expect(rt, "memory");
        }
        spots
    }

    /// Removes a number.
    pub(crate) fn take(&mut self, rt: &impl Abort, spot: Spot) {
        is_equal(rt, self.index.remove(spot), Some(spot.birth));
    }

    /// Keeps the numbers that are marked.
    pub(crate) fn keep<M: Keeps>(&mut self, marks: &M) {
        self.index.keep(marks);
    }

    /// All of these go, and as many come.
    pub(crate) fn replace(&mut self, rt: &impl Abort, spots: &mut [Spot]) {
        for spot in spots.iter() {
            self.take(rt, *spot);
        }
        for spot in spots.iter_mut() {
            let next = self.add(rt);
            self.has_not(rt, *spot);
            *spot = next;
        }
    }

    /// Reads these numbers, also where the place is wrong.
    pub(crate) fn has_all(&self, rt: &impl Abort, spots: &[Spot]) {
        for spot in spots {
            self.has(rt, *spot);
        }
    }

    fn has(&self, rt: &impl Abort, spot: Spot) {
        let Spot { birth, place } = spot;
        let elsewhere = Spot {
            birth,
            place: place ^ 1,
        };
        is_equal(rt, self.index.get(spot).copied(), Some(birth));
        is_equal(rt, self.index.payload(elsewhere), Some(!birth));
        is_equal(rt, self.found(birth), Some(place));
    }

    /// Reads nothing of a number that went.
    fn has_not(&self, rt: &impl Abort, spot: Spot) {
        assert!(rt; self.index.get(spot).is_none());
        is_equal(rt, self.index.place(spot.birth), None);
        is_equal(rt, self.found(spot.birth), None);
    }

    /// Reads nothing of numbers that went.
    pub(crate) fn has_none(&self, rt: &impl Abort, spots: &[Spot]) {
        for spot in spots {
            self.has_not(rt, *spot);
        }
    }

    // The place of a number by its hash.
    fn found(&self, number: u64) -> Option<usize> {
        let hash = self.hashes.hash_of(&number, !number);
        let spot = self.index.find(hash, &Number(number))?;
        Some(spot.place)
    }
}

impl<B: Births> Numbers<Apart<B>> {
    /// The bytes of the slots and of the table of hashes.
    pub(crate) fn memory(&self) -> usize {
        self.index.memory() % APART
    }

    /// The bytes of what finds births.
    pub(crate) fn memory_of_births(&self) -> usize {
        self.index.memory() / APART
    }
}

impl Numbers<BirthOrder> {
    /// Checks that these are the last entries in the order of births.
    pub(crate) fn ends_with(&self, rt: &impl Abort, spots: &[Spot]) {
        let before = self.index.len().saturating_sub(spots.len());
        let mut last = None;
        for at in 0..self.index.len() {
            let (spot, _, _) = self.index.nth(at, last).expect(rt, "a rank has no entry");
            if at >= before {
                let wanted = spots.get(at - before).expect(rt, "one entry too many");
                is_equal(rt, (spot.birth, spot.place), (wanted.birth, wanted.place));
            }
            last = Some(spot);
        }
    }
}
