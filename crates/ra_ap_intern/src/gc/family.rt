//! Storages that are collected together.
ghost use Rattle.std.specs.FinMap as map;
ghost use Rattle.std.specs.Prelude.{◌≡◌, ◌&&◌, true, None, OnOk, length, min};
ghost use Rattle.intern_store.specs.Named.{key_name};
ghost use Rattle.intern_store.specs.declared.names.Name.{Name as EntryName};
ghost use Rattle.intern_marks.specs.Learning.{Learns};
ghost use Rattle.intern_marks.specs.Marks.{marks};
ghost use Rattle.intern_marks.specs.Names.{has};
ghost use Rattle.intern_marks.specs.Reach.{is_entry, children_in};
ghost use Rattle.ra_ap_intern.specs.Families.{has_number, meet, are_distinct};

use super::GarbageCollector;
use intern_marks::Marks;
use intern_store::EntryKey;
use std::alloc::AllocError;

/// Storages with their numbers.
pub trait Numbered {
    ghost use Rattle.std.specs.Prelude.{ℕ, List};

    // The numbers of the storages.
    ghost numbers: { Self → List ℕ };

    /// Whether a storage has this number.
    fn has_number(&self, number: u64) -> bool
        ensures { result ≡ has_number (numbers self.now) number };
}

/// Storages that are collected together: a storage, a [`Pair`] of families, or [`NoStorages`].
///
/// A [`GarbageCollector`] makes these calls; users make none of them.
pub trait Family: Numbered {
    ghost use Rattle.std.specs.Prelude.{ℕ, Bool, true, List, ◌≡◌};
    ghost use Rattle.std.specs.List.{filter};
    ghost use Rattle.intern_store.specs.declared.names.Name.{Name};
    ghost use Rattle.intern_marks.specs.Reach.{Entry, is_entry};
    ghost use Rattle.ra_ap_intern.specs.Families.{has_number};

    // The entries, each with its name, its count, and the names that its value declares.
    ghost entries: { Self → List Entry };

    // Whether all storages are of types in collected mode.
    ghost collected: { Bool };

    // The family with the entries alone whose names are in a set.
    ghost kept: { Self → (Name → Bool) → Self };

    /// How many entries there are, up to the greatest number.
    fn len(&self) -> usize
        ensures { result ≡ min (length (entries self.now)) usize.MAX };

    /// Whether a storage has a number that one of the others has.
    fn meets<G: Numbered>(&self, others: &G) -> bool
        ensures { result ≡ meet (Self.numbers self.now) (G.numbers others.now) };

    /// Whether no two storages have one number.
    fn is_distinct(&self) -> bool
        ensures { result ≡ are_distinct (Self.numbers self.now) };

    /// Registers the entries of all storages. With `roots`, the counted ones are marked at once.
    /// Where there is no memory for that, `AllocError`, and some of them may be registered.
    fn learn(&self, marks: &mut Marks, roots: bool) -> Result<(), AllocError>
        requires distinct { are_distinct (Self.numbers self.now) ≡ true }
        requires new { (x : EntryName) → has_number (Self.numbers self.now) x.storage ≡ true →
            map.get marks.old.registered x ≡ None }
        ensures { OnOk result (Learns roots (entries self.now) marks.old marks.new) };

    /// Visits the entry of a key, if it is there, and says whether it is.
    fn visit(&self, key: EntryKey, gc: &mut GarbageCollector) -> bool
        ensures found { result ≡ is_entry (entries self.now) (key_name key) }
        ensures marks { gc.new
            ≡ marks gc.old (children_in (entries self.now) (key_name key)) };

    /// Removes each entry that isn't marked. It takes no memory.
    fn sweep(&mut self, gc: &GarbageCollector)
        ensures { self.new ≡ kept self.old (has gc.now.marked) };

    // What is kept are the entries whose names are in the set.
    ghost kept_entries: { (f : Self) (set : Name → Bool) →
        entries (kept f set) ≡ filter (λ e. set e.name) (entries f) };

    // No storage goes, and none gets another number.
    ghost kept_numbers: { (f : Self) (set : Name → Bool) →
        Self.Numbered.numbers (kept f set) ≡ Self.Numbered.numbers f };

    // A family is left as it was by a set that has the names of all its entries.
    ghost kept_whole: { (f : Self) (set : Name → Bool) →
        ((x : Name) → is_entry (entries f) x ≡ true → set x ≡ true) → kept f set ≡ f };

    // Each entry is one of a storage of the family.
    ghost numbered: { (f : Self) (x : Name) → is_entry (entries f) x ≡ true →
        has_number (Self.Numbered.numbers f) x.storage ≡ true };
}

/// A family without storages.
#[derive(Drop)]
pub struct NoStorages;

impl Numbered for NoStorages {
    ghost use Rattle.std.specs.Prelude.{[]};

    ghost numbers = { λ _. [] };

    fn has_number(&self, _number: u64) -> bool {
        false
    }
}

impl Family for NoStorages {
    ghost use Rattle.std.specs.Prelude.{[], refl};

    ghost entries = { λ _. [] };

    ghost collected = { true };

    ghost kept = { λ f _. f };

    ghost kept_entries = { λ _ _. refl };

    ghost kept_numbers = { λ _ _. refl };

    ghost kept_whole = { λ _ _ _. refl };

    ghost numbered = { λ _ _ h. h };

    fn len(&self) -> usize {
        0
    }

    fn meets<G: Numbered>(&self, _others: &G) -> bool {
        false
    }

    fn is_distinct(&self) -> bool {
        true
    }

    fn learn(&self, _marks: &mut Marks, _roots: bool) -> Result<(), AllocError> {
        Ok(())
    }

    fn visit(&self, _key: EntryKey, _gc: &mut GarbageCollector) -> bool {
        false
    }

    fn sweep(&mut self, _gc: &GarbageCollector) {}
}

/// Two families as one.
#[derive(Drop)]
pub struct Pair<A, B> {
    /// The first family.
    pub first: A,
    /// The second family.
    pub second: B,
}

impl<A: Numbered, B: Numbered> Numbered for Pair<A, B> {
    ghost use Rattle.std.specs.Prelude.{◌++◌};

    ghost numbers = { λ p. A.numbers p.first ++ B.numbers p.second };

    fn has_number(&self, number: u64) -> bool {
        self.first.has_number(number) || self.second.has_number(number)
    }
}

impl<A: Family, B: Family> Family for Pair<A, B> {
    ghost use Rattle.std.specs.Prelude.{◌++◌};
    ghost use Rattle.ra_ap_intern.specs.PairLaws.{filter_both, both_whole, both_numbered};

    ghost entries = { λ p. A.entries p.first ++ B.entries p.second };

    ghost collected = { A.collected && B.collected };

    ghost kept = { λ p set. record {
      first = A.kept p.first set;
      second = B.kept p.second set;
    } };

    ghost kept_entries = { λ p set. filter_both (λ e. set e.name)
        (A.entries p.first) (B.entries p.second)
        (A.kept_entries p.first set) (B.kept_entries p.second set) };

    ghost kept_numbers = { λ p set. λ i.
        A.kept_numbers p.first set i ++ B.kept_numbers p.second set i };

    ghost kept_whole = { λ p set all.
        let both = both_whole A.entries B.entries A.kept B.kept A.kept_whole B.kept_whole
        p.first p.second set all in
        λ i. record { first = both.0 i; second = both.1 i } };

    ghost numbered = { λ p x is. both_numbered (A.entries p.first) (B.entries p.second)
        (A.numbers p.first) (B.numbers p.second) (A.numbered p.first) (B.numbered p.second) x is };

    fn len(&self) -> usize {
        self.first.len().saturating_add(self.second.len())
    }

    fn meets<G: Numbered>(&self, others: &G) -> bool {
        self.first.meets(others) || self.second.meets(others)
    }

    fn is_distinct(&self) -> bool {
        self.first.is_distinct() && self.second.is_distinct() && !self.first.meets(&self.second)
    }

    fn learn(&self, marks: &mut Marks, roots: bool) -> Result<(), AllocError> {
        self.first.learn(marks, roots)?;
        self.second.learn(marks, roots)
    }

    fn visit(&self, key: EntryKey, gc: &mut GarbageCollector) -> bool {
        self.first.visit(key, gc) || self.second.visit(key, gc)
    }

    fn sweep(&mut self, gc: &GarbageCollector) {
        self.first.sweep(gc);
        self.second.sweep(gc);
    }
}
