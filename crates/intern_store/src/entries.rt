//! What a store asks of the table that keeps its entries.
ghost use Rattle.std.specs.Prelude.{◌≡◌, ℕ, ◌<◌, ◌≤◌, ◌-◌, Bool, IsSome, IfSome, IfNone, is_some, Some, None, IsOk, OnOk, OnErr, IfOk, IfErr, true, false};
ghost use Rattle.std.specs.Option.{option_map};
ghost use Rattle.std.specs.FinMap as map;
ghost use Rattle.std.specs.Ordering.{nat_cmp};
ghost use Rattle.intern_store.specs.Kept.{Kept, is_at, is_where, raised, recounted};
ghost use Rattle.intern_store.specs.Memory.{least_memory};
ghost use Rattle.intern_store.specs.Outcome.{Spends};

use crate::names::Spot;
use std::alloc::{AllocError, Global};
use std::cmp::Eq;

/// Values with counts, each under a birth. Only an insertion, and what makes room for some, takes
/// memory.
pub trait Entries: Sized {
    /// What is kept, as contracts see it.
    type Value: Eq;

    /// How values are hashed.
    type Hasher;

    // What is kept under each birth.
    ghost entries: { Self → map.FinMap nat_cmp (Kept Self.Value) };

    // What hashes the values: no call changes it.
    ghost hashes_by: { Self → Self.Hasher };

    // How many more entries are taken with no request for memory.
    ghost room: { Self → ℕ };

    // And how much that lies outside of them, as the items of slices do.
    ghost spare: { Self → ℕ };

    /// A table with no entry, which hashes by this.
    fn new(alloc: Global, hasher: Self::Hasher) -> Self
        ensures entries { entries result ≡ map.empty }
        ensures hasher { hashes_by result ≡ hasher };

    /// Makes room for this many more entries. Where there is no memory, `AllocError`.
    fn reserve(&mut self, additional: usize) -> Result<(), AllocError>
        ensures entries { entries self.new ≡ entries self.old }
        ensures hasher { hashes_by self.new ≡ hashes_by self.old }
        ensures room { OnOk result (additional ≤ room self.new) };

    /// How many entries there are.
    fn len(&self) -> usize
        ensures { result ≡ map.len (entries self.now) };

    /// The bytes that the table has asked for and still holds: its slots, used or not, and what
    /// finds them. What values hold elsewhere is not counted.
    fn memory(&self) -> usize
        ensures { least_memory (map.len (entries self.now)) ≤ result };

    /// Where the entry of a birth lies.
    fn place(&self, birth: u64) -> Option<usize>
        ensures { is_some result ≡ is_some (map.get (entries self.now) birth) };

    /// The count of an entry.
    fn count(&self, spot: Spot) -> Option<u64>
        ensures { result ≡ option_map (λ k. k.count) (map.get (entries self.now) spot.birth) };

    /// Counts an entry once more, where it is counted less than this often. It gives the count
    /// before.
    fn count_up(&mut self, spot: Spot, top: u64) -> Option<u64>
        ensures count { result
            ≡ option_map (λ k. k.count) (map.get (entries self.old) spot.birth) }
        ensures state { entries self.new ≡ recounted (raised top)
            (entries self.old) spot.birth (map.get (entries self.old) spot.birth) }
        ensures hasher { hashes_by self.new ≡ hashes_by self.old };

    /// Lowers the count of an entry, unless it is zero, and answers the count before.
    fn count_down(&mut self, spot: Spot) -> Option<u64>
        ensures count { result
            ≡ option_map (λ k. k.count) (map.get (entries self.old) spot.birth) }
        ensures state { entries self.new ≡ recounted (λ n. n - 1)
            (entries self.old) spot.birth (map.get (entries self.old) spot.birth) }
        ensures hasher { hashes_by self.new ≡ hashes_by self.old };
}

/// A table that keeps a part of each value outside of its entry.
pub trait Pools: Entries {
    /// Makes room for this much more outside of the entries. Where there is no memory,
    /// `AllocError`.
    fn reserve_outside(&mut self, additional: usize) -> Result<(), AllocError>
        ensures entries { Self.entries self.new ≡ Self.entries self.old }
        ensures hasher { Self.hashes_by self.new ≡ Self.hashes_by self.old }
        ensures room { Self.room self.new ≡ Self.room self.old }
        ensures spare { OnOk result (additional ≤ Self.spare self.new) }
        ensures stays { Self.spare self.old ≤ Self.spare self.new }
        ensures succeeds { additional ≤ Self.spare self.old → IsOk result };
}

/// A table from which single entries can be removed.
pub trait Removes: Entries {
    /// Removes an entry, and answers its value.
    fn remove(&mut self, spot: Spot) -> Option<Self::Value>
        ensures value { result
            ≡ option_map (λ k. k.value) (map.get (Self.entries self.old) spot.birth) }
        ensures removed { Self.entries self.new ≡ map.remove (Self.entries self.old) spot.birth }
        ensures hasher { Self.hashes_by self.new ≡ Self.hashes_by self.old };
}

/// A table in which a value is looked up by a query of this type, which names it.
pub trait Finds<Q>: Entries {
    // The value that a query names.
    ghost value: { Q → Self.Value };

    // Its hash.
    ghost hash_of: { Self.Hasher → Q → ℕ };

    /// An entry whose value equals the one that is named, or else its hash. It takes no memory.
    fn find(&self, query: &Q) -> Result<Spot, u64>
        ensures found { IfOk result (λ s.
            is_at Self.Value.eq (value query.now) (map.get (Self.entries self.now) s.birth)
            ≡ true) }
        ensures none { OnErr result ((b : ℕ) →
            is_at Self.Value.eq (value query.now) (map.get (Self.entries self.now) b) ≡ false) }
        ensures hash { IfErr result (λ h. h ≡ hash_of (Self.hashes_by self.now) query.now) };
}

/// A table in which a value is looked up by a query of this type, which is no value yet.
pub trait Seeks<Q>: Entries {
    ghost use Rattle.std.specs.Prelude.{Bool, true, ◌≡◌};

    // Whether a value is what is looked up.
    ghost fits: { Q → Self.Value → Bool };

    /// An entry whose value is the one that is looked up. It takes no memory.
    fn seek(&self, query: &Q) -> Option<Spot>
        ensures found { IfSome result (λ s.
            is_where (fits query.now) (map.get (Self.entries self.now) s.birth) ≡ true) }
        ensures none { IfNone result ((b : ℕ) →
            is_where (fits query.now) (map.get (Self.entries self.now) b) ≡ false) };

    // Values that are looked up by one query are equal.
    ghost alike: { (q : Q) (v w : Self.Value) → fits q v ≡ true → fits q w ≡ true
        → Self.Value.eq v w ≡ true };
}

/// A table that takes what is offered by such a query.
pub trait Takes<O>: Finds<O> {
    // How much of an offer would lie outside of its entry.
    ghost outside: { O → ℕ };

    /// Adds an entry under its hash and a birth above all others, and tells its place. Where there
    /// is no memory the offer comes back.
    fn insert(&mut self, birth: u64, hash: u64, offer: O, count: u64) -> Result<usize, O>
        requires above { (b : ℕ) → IsSome (map.get (Self.entries self.old) b) → b < birth }
        requires hash { hash ≡ Self.Finds.hash_of (Self.hashes_by self.old) offer }
        ensures ok { OnOk result (Self.entries self.new ≡ map.insert (Self.entries self.old) birth
            (record { value = Self.Finds.value offer; count = count })) }
        ensures err { OnErr result (Self.entries self.new ≡ Self.entries self.old) }
        ensures back { IfErr result (λ back. back ≡ offer) }
        ensures hasher { Self.hashes_by self.new ≡ Self.hashes_by self.old }
        ensures room { Spends result (Self.room self.old) (Self.room self.new) 1 }
        ensures spare { Spends result (Self.spare self.old) (Self.spare self.new) (outside offer) }
        ensures succeeds { 0 < Self.room self.old → outside offer ≤ Self.spare self.old
            → IsOk result };
}

/// A table in which what is offered is looked up and counted by one call.
pub trait Raises<O>: Takes<O> {
    /// Counts the entry whose value equals the one that is offered once more, where it is counted
    /// less than this often, and tells where it lies and the count before. Where there is none it
    /// gives the hash. It takes no memory.
    fn find_and_raise(&mut self, offer: &O, top: u64) -> Result<(Spot, u64), u64>
        ensures found { IfOk result (λ r.
            is_at Self.Value.eq (Self.Finds.value offer.now)
            (map.get (Self.entries self.old) r.0.birth) ≡ true) }
        ensures count { IfOk result (λ r.
            option_map (λ k. k.count) (map.get (Self.entries self.old) r.0.birth) ≡ Some r.1) }
        ensures state { IfOk result (λ r. Self.entries self.new ≡ recounted (raised top)
            (Self.entries self.old) r.0.birth (map.get (Self.entries self.old) r.0.birth)) }
        ensures none { OnErr result ((b : ℕ) →
            is_at Self.Value.eq (Self.Finds.value offer.now) (map.get (Self.entries self.old) b)
            ≡ false) }
        ensures hash { IfErr result (λ h.
            h ≡ Self.Finds.hash_of (Self.hashes_by self.old) offer.now) }
        ensures same { OnErr result (Self.entries self.new ≡ Self.entries self.old) }
        ensures hasher { Self.hashes_by self.new ≡ Self.hashes_by self.old }
        ensures room { Self.room self.new ≡ Self.room self.old }
        ensures spare { Self.spare self.new ≡ Self.spare self.old };
}

/// Which births a sweep keeps.
pub trait Keeps {
    // The births that are kept.
    ghost marked: { Self → ℕ → Bool };

    /// Whether an entry is kept. Its birth decides, its place saves a look-up.
    fn is_marked(&self, spot: Spot) -> bool
        ensures { result ≡ marked self.now spot.birth };
}

/// A table that can be cut to the entries that are marked.
pub trait Sweeps<M: Keeps>: Entries {
    /// Drops every entry that isn't marked. It takes no memory.
    fn keep(&mut self, marks: &M)
        ensures kept { Self.entries self.new
            ≡ map.retain_keys (Self.entries self.old) (M.marked marks.now) }
        ensures hasher { Self.hashes_by self.new ≡ Self.hashes_by self.old };
}
