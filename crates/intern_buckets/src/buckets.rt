//! A hash table of places.
ghost use Rattle.std.specs.Prelude.{◌≡◌, ◌↔◌, ℕ, ◌+◌, ◌-◌, ◌*◌, ◌<◌, ◌≤◌, ◌^◌, min};
ghost use Rattle.std.specs.Prelude.{length, Some, true, IfSome, IfOk, OnOk, IsOk, IsTrue};
ghost use Rattle.intern_buckets.specs.Probing.{home, bucket, is_empty};

use std::alloc::{AllocError, Global};

/// How many places a bucket can tell apart: more than any memory holds entries.
pub const PLACES: usize = 1 << 48;

// How many buckets there is room for behind the homes at first.
const SPARE: usize = 64;

/// Where an entry may lie: 48 bits of its place above 16 bits of its hash, its tag. In an empty
/// bucket all bits are set, and no entry lies at the last place.
#[derive(Clone, Copy)]
pub(crate) struct Bucket(u64);

const EMPTY: Bucket = Bucket(u64::MAX);

/// A table of places by hashes, with open addressing and linear probing.
///
/// The probe sequence of a hash begins at the hash's home, and ends at the first empty bucket or at
/// the end. Buckets are filled and never emptied until the table is built anew: one may lead to a
/// place that has no entry, or one of another hash.
#[derive(Drop)]
pub struct Buckets {
    buckets: Vec<Bucket>,
    homes: usize,
    ghost in_range: { homes ≤ length buckets.items },
}

impl Bucket {
    // The bucket of an entry.
    fn of(hash: u64, place: usize) -> Bucket
        requires { place + 1 < 2 ^ 48 }
        ensures { result ≡ bucket hash place }
    {
        Bucket(place as u64 * (1 << 16) + hash % (1 << 16))
    }

    /// Whether no entry was entered here.
    pub(crate) fn is_empty(self) -> bool
        ensures { result ≡ is_empty self }
    {
        self.0 == EMPTY.0
    }

    /// The place, where the bucket may be that of an entry of this hash.
    pub(crate) fn place(self, hash: u64) -> Option<usize>
        ensures found { (p : ℕ) → p + 1 < 2 ^ 48 → self ≡ bucket hash p → result ≡ Some p }
        ensures is { IfSome result (λ p. self ≡ bucket hash p) }
    {
        if self.0 % (1 << 16) != hash % (1 << 16) {
            return None;
        }
        Some((self.0 / (1 << 16)) as usize)
    }
}

impl Buckets {
    ghost use Rattle.intern_buckets.specs.Filling.{homes_of, homes_for, full_of, capacity_of, spare_of, HasRoom};
    ghost use Rattle.intern_buckets.specs.Leading.{leads, probe_sequence};

    /// A table without a bucket. It takes no memory.
    pub fn new(alloc: Global) -> Buckets
        ensures full { full_of result ≡ 0 }
        ensures capacity { capacity_of result ≡ 0 }
    {
        Buckets {
            buckets: Vec::new(alloc),
            homes: 0,
        }
    }

    /// An empty table for this many places, with eight homes for each seven, or `AllocError` where
    /// there is no memory for it.
    pub fn with_room(alloc: Global, places: usize) -> Result<Buckets, AllocError>
        ensures empty { IfOk result (λ t. full_of t ≡ 0) }
        ensures homes { IfOk result (λ t. homes_of t ≡ homes_for places) }
    {
        let homes = places.saturating_add(places / 7);
        let mut buckets = Vec::with_capacity(alloc, homes.saturating_add(SPARE))?;
        buckets.resize(homes, EMPTY)?;
        Ok(Buckets { buckets, homes })
    }

    // Where the probe sequence of a hash begins.
    fn home(&self, hash: u64) -> usize
        ensures value { result ≡ home self.now.homes hash }
        ensures bound { result ≤ self.now.homes }
    {
        ((hash as u128 * self.homes as u128) >> 64) as usize
    }

    /// The probe sequence of a hash.
    pub(crate) fn probe(&self, hash: u64) -> &[Bucket]
        ensures { result.now ≡ probe_sequence self.now hash }
    {
        &self.buckets.as_slice()[self.home(hash)..]
    }

    /// Whether there is room for one more bucket.
    pub fn has_room(&self) -> bool
        ensures { IsTrue result ↔ HasRoom self.now }
    {
        self.buckets.len() < self.buckets.capacity()
    }

    /// Makes room for this many more buckets. Where there is no memory, the table leads where it
    /// did.
    pub fn reserve(&mut self, additional: usize) -> Result<(), AllocError>
        ensures homes { homes_of self.new ≡ homes_of self.old }
        ensures full { full_of self.new ≡ full_of self.old }
        ensures led { (h p : ℕ) → leads self.new h p ≡ leads self.old h p }
        ensures ok { OnOk result (additional ≤ spare_of self.new) }
        ensures spare { spare_of self.old ≤ spare_of self.new }
        ensures succeeds { additional ≤ spare_of self.old → IsOk result }
    {
        self.buckets.reserve(additional)
    }

    /// Enters a place under a hash, in room that was made before. It takes no memory.
    pub fn enter(&mut self, hash: u64, place: usize)
        requires small { place + 1 < 2 ^ 48 }
        requires room { HasRoom self.old }
        ensures homes { homes_of self.new ≡ homes_of self.old }
        ensures capacity { capacity_of self.new ≡ capacity_of self.old }
        ensures spare { spare_of self.old ≤ spare_of self.new + 1 }
        ensures full { full_of self.new ≡ full_of self.old + 1 }
        ensures entered { leads self.new hash place ≡ true }
        ensures still { (h p : ℕ) →
            leads self.old h p ≡ true → leads self.new h p ≡ true }
    {
        let bucket = Bucket::of(hash, place);
        for at in self.home(hash)..self.buckets.len() {
            if self.buckets[at].is_empty() {
                self.buckets[at] = bucket;
                return;
            }
        }
        self.buckets.push_reserved(bucket);
    }

    /// The bytes that the table holds: eight a bucket.
    pub fn memory(&self) -> usize
        ensures { result ≡ min (capacity_of self.now * 8) (2 ^ 64 - 1) }
    {
        self.buckets.capacity().saturating_mul(size_of::<Bucket>())
    }

    /// How many buckets there is room for.
    pub fn capacity(&self) -> usize
        ensures { result ≡ capacity_of self.now }
    {
        self.buckets.capacity()
    }
}
