//! Collections: which entries of a family of storages are needed, and the end of all others.
//!
//! An entry is needed where it is counted, or is listed as a root, or where the value of a needed
//! entry declares it. What a value declares is told by its visitor.
ghost use Rattle.std.specs.FinMap as map;
ghost use Rattle.std.specs.Prelude.{◌≡◌, ◌≤◌, true, false, List, length, IfOk, OnOk, OnErr, if◌then◌else◌};
ghost use Rattle.std.specs.List.{flat_map};
ghost use Rattle.std.specs.declared.ops.ControlFlow.TheVariants.{Continue, Break};
ghost use Rattle.intern_marks.specs.Learning.{Learns, known};
ghost use Rattle.intern_marks.specs.Marks.{fresh, mark, marks, marks_now, roots};
ghost use Rattle.intern_marks.specs.Names.{has};
ghost use Rattle.intern_marks.specs.Reach.{starts, starts_with};
ghost use Rattle.intern_marks.specs.Trace.{IsTrace};
ghost use Rattle.intern_store.specs.Named.{key_name};
ghost use Rattle.intern_store.specs.declared.names.Name.{Name as EntryName};
ghost use Rattle.ra_ap_intern.specs.Families.{IsCollection, IsTraced, are_distinct};
ghost use Rattle.ra_ap_intern.specs.Handle.{ref_name};

mod family;
mod learn;
mod plain;
mod storages;
mod trace;
mod visit;
mod visitors;

use crate::intern::{InternStorage, Internable, InternedRef};
use crate::intern_slice::{InternSliceStorage, InternedSliceRef, SliceInternable};
pub use family::{Family, NoStorages, Numbered, Pair};
use intern_marks::Marks;
use intern_store::{EntryKey, Name, Spot};
use intern_table::Layout;
use std::alloc::{AllocError, Global};
use std::hash::BuildHasher;
use std::marker::Model;
use std::ops::ControlFlow;
pub use storages::Visits;
pub use trace::Trace;
pub use visit::{GcInternedSliceVisit, GcInternedVisit};

/// What a collection did.
#[derive(Clone, Copy, Debug, PartialEq, Eq)]
pub struct Collected {
    /// How many entries it visited. These are the ones that are left.
    pub visits: usize,
    /// How many children the visited values declared, at most `u64::MAX`.
    pub mark_calls: u64,
    /// How many entries it removed.
    pub removed: usize,
}

/// Collects families of storages.
///
/// A collection takes time linear in the entries, the children that they declare, and the places of
/// entries, vacant ones too, and never recurses. Beside the family it takes about 11 bytes an
/// entry, or 28 where places were used again, and 3 or 20 a vacant place, all of it before the
/// first mark call.
pub struct GarbageCollector {
    alloc: Global,
    marks: Marks,
}

// Written out, so that a collector is dropped by one call, as a store is.
impl Drop for GarbageCollector {
    fn drop(self) {
        let GarbageCollector { alloc: _, marks: _ } = self;
    }
}

impl Model for GarbageCollector {
    ghost use Rattle.intern_marks.specs.Marks.{Marks, marks_code};

    ghost Value = { Marks };

    ghost coded = { marks_code };

    ghost view = { λ g. g.marks };
}

impl GarbageCollector {
    /// A collector with nothing registered. It takes no memory.
    pub fn new(alloc: Global) -> GarbageCollector
        ensures { result ≡ fresh map.empty }
    {
        GarbageCollector {
            alloc,
            marks: Marks::new(alloc),
        }
    }

    /// A family with one more storage of values in collected mode.
    pub fn add_storage<F: Family, T: Internable + GcInternedVisit, B: BuildHasher>(
        family: F,
        storage: InternStorage<T, B>,
    ) -> Pair<F, InternStorage<T, B>>
        requires { T.Internable.USE_GC ≡ true }
        ensures first { result.first ≡ family }
        ensures second { result.second ≡ storage }
    {
        Pair {
            first: family,
            second: storage,
        }
    }

    /// A family with one more storage of slices.
    pub fn add_slice_storage<F, T, B, L>(
        family: F,
        storage: InternSliceStorage<T, B, L>,
    ) -> Pair<F, InternSliceStorage<T, B, L>>
    where
        F: Family,
        T: GcInternedSliceVisit,
        B: BuildHasher,
        L: Layout<T::SliceType>,
        requires { T.SliceInternable.USE_GC ≡ true }
        ensures first { result.first ≡ family }
        ensures second { result.second ≡ storage }
    {
        Pair {
            first: family,
            second: storage,
        }
    }

    /// Whether no two storages of a family have one number. It takes no memory.
    pub fn distinct<F: Family>(family: &F) -> bool
        ensures { result ≡ are_distinct (F.numbers family.now) }
    {
        family.is_distinct()
    }

    /// Learns the names of a family's entries, and which of them are counted. Nothing is marked
    /// then, and both tallies are zero. Where there is no memory for that, or the family has 2^48
    /// places or more, vacant ones too, `AllocError`, and nothing has changed.
    ///
    /// No two storages of the family may have one number ([`GarbageCollector::distinct`]).
    pub fn register<F: Family>(&mut self, family: &F) -> Result<(), AllocError>
        requires distinct { are_distinct (F.numbers family.now) ≡ true }
        requires collected { F.collected ≡ true }
        ensures ok { OnOk result (self.new ≡ fresh (known (F.entries family.now))) }
        ensures size { OnOk result
            (map.len self.new.registered ≡ length (F.entries family.now)) }
        ensures err { OnErr result (self.new ≡ self.old) }
    {
        self.learn(family, false)?;
        self.marks.fill();
        Ok(())
    }

    /// Marks the entry of a reference, where it is registered with no count and isn't marked, and
    /// says so by `Continue`. It takes no memory.
    pub fn mark_interned_alive<T: Internable>(
        &mut self,
        reference: InternedRef<T>,
    ) -> ControlFlow<()>
        requires { T.Internable.USE_GC ≡ true }
        ensures marks { self.new ≡ mark self.old (ref_name reference) }
        ensures answer { result ≡ (if marks_now self.old (ref_name reference)
            then Continue tt else Break tt) }
    {
        self.marks.mark(reference.key)
    }

    /// The same for a reference to a slice.
    pub fn mark_interned_slice_alive<T: SliceInternable, L: Layout<T::SliceType>>(
        &mut self,
        slice: InternedSliceRef<T, L>,
    ) -> ControlFlow<()>
        requires { T.SliceInternable.USE_GC ≡ true }
        ensures marks { self.new ≡ mark self.old (ref_name slice) }
        ensures answer { result ≡ (if marks_now self.old (ref_name slice)
            then Continue tt else Break tt) }
    {
        self.marks.mark(slice.key)
    }

    /// Visits each item, in order.
    #[tactic(auto, using(crate::proofs::Visitors::marks_left))]
    pub fn mark_all<V: GcInternedVisit>(&mut self, items: &[V])
        ensures { self.new ≡ marks self.old (flat_map V.children items.now) }
    {
        for item in items {
            item.visit_with(self);
        }
    }

    /// Whether a name is marked.
    pub fn is_marked(&self, name: Name) -> bool
        ensures { result ≡ has self.now.marked name }
    {
        self.marks.is_marked(unplaced(name))
    }

    /// How many entries were visited.
    pub fn visits(&self) -> usize
        ensures { result ≡ self.now.visits }
    {
        self.marks.visits()
    }

    /// How many mark calls there were, at most `u64::MAX`.
    pub fn mark_calls(&self) -> u64
        ensures { result ≡ self.now.calls }
    {
        self.marks.mark_calls()
    }

    /// Removes every entry of a family that no path of declared children reaches from a counted
    /// entry. Counts stay, births are not given again, and what was marked before is forgotten.
    /// Where there is no memory, or the family has 2^48 places or more, `AllocError`, and the
    /// family is as it was: all memory is asked for before the first mark call.
    ///
    /// No two storages of the family may have one number ([`GarbageCollector::distinct`]).
    pub fn collect<F: Family>(self, family: &mut F) -> Result<Collected, AllocError>
        requires distinct { are_distinct (F.numbers family.old) ≡ true }
        requires collected { F.collected ≡ true }
        ensures ok { IfOk result (λ told. (names : List EntryName)
            × IsCollection (starts (F.entries family.old)) (F.entries family.old) names told
            × (family.new ≡ F.kept family.old (has names))) }
        ensures err { OnErr result (family.new ≡ family.old) }
    {
        self.collect_keeping(family, &[])
    }

    /// Does the same, and begins paths also at the entries whose names are in a list. A listed name
    /// without an entry, or one that is listed twice, adds nothing. Refused as
    /// [`GarbageCollector::collect`].
    pub fn collect_keeping<F: Family>(
        mut self,
        family: &mut F,
        roots: &[Name],
    ) -> Result<Collected, AllocError>
        requires distinct { are_distinct (F.numbers family.old) ≡ true }
        requires collected { F.collected ≡ true }
        ensures ok { IfOk result (λ told. (names : List EntryName)
            × IsCollection (starts_with roots.now (F.entries family.old)) (F.entries family.old)
            names told
            × (family.new ≡ F.kept family.old (has names))) }
        ensures err { OnErr result (family.new ≡ family.old) }
    {
        self.learn(family, true)?;
        self.root(roots);
        Ok(self.followed(family).sweep(family))
    }

    /// Does the same, and begins paths also at what a visitor declares: a handle of any kind, or an
    /// option, a pair, an array, a vector, a slice or a hash map of such. Paths begin at the entry
    /// of an owned handle anyway, as long as it is counted. Refused as
    /// [`GarbageCollector::collect`].
    pub fn collect_from<F: Family, R: GcInternedVisit>(
        mut self,
        family: &mut F,
        roots: &R,
    ) -> Result<Collected, AllocError>
        requires distinct { are_distinct (F.numbers family.old) ≡ true }
        requires collected { F.collected ≡ true }
        ensures ok { IfOk result (λ told. (names : List EntryName)
            × IsCollection (starts_with (R.children roots.now) (F.entries family.old))
            (F.entries family.old) names told
            × (family.new ≡ F.kept family.old (has names))) }
        ensures err { OnErr result (family.new ≡ family.old) }
    {
        Ok(self.trace(family, roots)?.sweep(family))
    }

    /// Finds what [`GarbageCollector::collect_from`] would leave, and removes nothing: what is to
    /// go can be read, and what it owns be given up, before [`Trace::sweep`] removes it. Refused as
    /// [`GarbageCollector::collect`]; the sweep can't be refused.
    ///
    /// No two storages of the family may have one number ([`GarbageCollector::distinct`]).
    pub fn trace<F: Family, R: GcInternedVisit>(
        mut self,
        family: &F,
        roots: &R,
    ) -> Result<Trace, AllocError>
        requires distinct { are_distinct (F.numbers family.now) ≡ true }
        requires collected { F.collected ≡ true }
        ensures { IfOk result (λ trace.
            IsTraced (starts_with (R.children roots.now) (F.entries family.now))
            (F.entries family.now) trace) }
    {
        self.learn(family, true)?;
        roots.visit_with(&mut self);
        // No entry declares the roots.
        self.marks.forget_calls();
        Ok(self.followed(family))
    }

    // What is reached, once all that is pending is visited.
    fn followed<F: Family>(mut self, family: &F) -> Trace
        ensures { let all = F.entries family.now in (listed : List EntryName) →
            IsTrace (starts_with listed all) all self →
            map.len self.registered ≡ length all →
            IsTraced (starts_with listed all) all result }
    {
        self.follow(family);
        Trace { collector: self }
    }

    // Learns a family. With `roots`, the counted entries are marked at once. The table of names
    // isn't filled, which a collection seldom asks.
    fn learn<F: Family>(&mut self, family: &F, roots: bool) -> Result<(), AllocError>
        requires distinct { are_distinct (F.numbers family.now) ≡ true }
        ensures ok { OnOk result
            (Learns roots (F.entries family.now) (fresh map.empty) self.new) }
        ensures err { OnErr result (self.new ≡ self.old) }
    {
        let mut marks = Marks::with_room(self.alloc, family.len())?;
        family.learn(&mut marks, roots)?;
        self.marks = marks;
        Ok(())
    }

    // Marks the entries whose names are listed.
    fn root(&mut self, listed: &[Name])
        ensures { self.new ≡ roots self.old listed.now }
    {
        for name in listed {
            self.marks.root(unplaced(*name));
        }
    }

    // Visits what is pending, until nothing is.
    fn follow<F: Family>(&mut self, family: &F)
        ensures trace { let all = F.entries family.now in (listed : List EntryName) →
            IsTrace (starts_with listed all) all self.old →
            IsTrace (starts_with listed all) all self.new }
        ensures registered { self.new.registered ≡ self.old.registered }
        ensures done { length self.new.marked ≤ self.new.visits }
    {
        while let Some(key) = self.marks.next() {
            let _is_there = family.visit(key, self);
        }
    }
}

// A key for a name whose entry's place isn't known.
fn unplaced(name: Name) -> EntryKey
    ensures { key_name result ≡ name }
{
    EntryKey {
        storage: name.storage,
        spot: Spot {
            birth: name.birth,
            place: 0,
        },
    }
}
