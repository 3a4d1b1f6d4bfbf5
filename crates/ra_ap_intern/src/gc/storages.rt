//! Storages as families.
ghost use Rattle.std.specs.Prelude.{◌≡◌, IsPermutation};
ghost use Rattle.intern_marks.specs.Marks.{marks};
ghost use Rattle.intern_marks.specs.Reach.{is_entry, children_in};
ghost use Rattle.intern_store.specs.Named.{key_name};
ghost use Rattle.intern_store.specs.State.{kept};
ghost use Rattle.intern_table.specs.Listed.{listed_counts};
ghost use Rattle.ra_ap_intern.specs.Families.{entries_of};

use super::GarbageCollector;
use super::family::{Family, Numbered};
use super::learn::learn_counts;
use super::visit::{GcInternedSliceVisit, GcInternedVisit};
use crate::intern::{Internable, InternedRef};
use crate::intern_slice::{InternedSliceRef, SliceInternable};
use crate::kind::{Kind, Slices, Values};
use crate::storage::Storage;
use intern_marks::Marks;
use intern_store::{EntryKey, Keeps};
use intern_table::{Counted, Counts, Layout, SlicePayload, SliceRow};
use std::alloc::AllocError;
use std::hash::BuildHasher;

/// A kind whose values declare which entries they need. Users implement [`GcInternedVisit`] or
/// [`GcInternedSliceVisit`]; a collection makes these calls.
pub trait Visits<B>: Kind<B> {
    ghost use Rattle.std.specs.Prelude.{List};
    ghost use Rattle.intern_store.specs.declared.names.Name.{Name};

    /// What the table keeps of a value in its index.
    type Stored;

    /// What it keeps there beside it.
    type Payload: Counted;

    // The names that a value declares.
    ghost children: { Self.Table.Value → List Name };

    /// The counts of the entries, in no promised order.
    fn counts(table: &Self::Table) -> Counts<'_, Self::Stored, Self::Payload>
        ensures { IsPermutation result (listed_counts (Self.Table.entries table.now)) };

    /// Visits the entry of a key, if it is there, and says whether it is.
    fn visit_entry(storage: &Storage<Self, B>, key: EntryKey, gc: &mut GarbageCollector) -> bool
        ensures found { result ≡ is_entry (entries_of children storage.now) (key_name key) }
        ensures marks { gc.new
            ≡ marks gc.old (children_in (entries_of children storage.now) (key_name key)) };

    /// Drops every entry that isn't marked. It takes no memory.
    fn keep<M: Keeps>(storage: &mut Storage<Self, B>, marks: &M)
        ensures { storage.new ≡ kept storage.old (M.marked marks.now) };
}

impl<T: Internable + GcInternedVisit + Drop, B: BuildHasher> Visits<B> for Values<T> {
    type Stored = T;

    type Payload = u64;

    ghost children = { T.children };

    fn counts(table: &Self::Table) -> Counts<'_, T, u64> {
        table.counts()
    }

    fn visit_entry(
        storage: &Storage<Values<T>, B>,
        key: EntryKey,
        gc: &mut GarbageCollector,
    ) -> bool {
        let Some(value) = InternedRef::new(key).get(storage) else {
            return false;
        };
        value.visit_with(gc);
        true
    }

    fn keep<M: Keeps>(storage: &mut Storage<Values<T>, B>, marks: &M) {
        storage.inner.store.keep(marks);
    }
}

impl<T: GcInternedSliceVisit, L: Layout<T::SliceType>, B: BuildHasher> Visits<B> for Slices<T, L>
where
    T::Header: Drop,
{
    ghost use Rattle.ra_ap_intern.specs.Families.{sliced_children};

    type Stored = SliceRow<T::Header, L::Near>;

    type Payload = SlicePayload;

    ghost children = { sliced_children T.header_children T.slice_children };

    fn counts(table: &Self::Table) -> Counts<'_, SliceRow<T::Header, L::Near>, SlicePayload> {
        table.counts()
    }

    fn visit_entry(
        storage: &Storage<Slices<T, L>, B>,
        key: EntryKey,
        gc: &mut GarbageCollector,
    ) -> bool {
        let Some(value) = InternedSliceRef::new(key).get(storage) else {
            return false;
        };
        T::visit_header(value.header.header, gc);
        T::visit_slice(value.slice, gc);
        true
    }

    fn keep<M: Keeps>(storage: &mut Storage<Slices<T, L>, B>, marks: &M) {
        storage.inner.store.keep(marks);
    }
}

impl<K: Kind<B>, B> Numbered for Storage<K, B> {
    ghost use Rattle.std.specs.Prelude.{[], ◌∷◌};

    ghost numbers = { λ s. s.number ∷ [] };

    fn has_number(&self, number: u64) -> bool {
        self.inner.store.number() == number
    }
}

impl<K: Visits<B>, B> Family for Storage<K, B> {
    ghost use Rattle.std.specs.Prelude.{[], ◌∷◌, refl};
    ghost use Rattle.ra_ap_intern.specs.Families.{entries_of, kept_named};
    ghost use Rattle.ra_ap_intern.specs.StorageLaws.{entries_kept, whole_kept, entry_numbered};

    ghost entries = { λ s. entries_of K.children s };

    ghost collected = { K.Kind.USE_GC };

    ghost kept = { λ s set. kept_named s set };

    ghost kept_entries = { λ s set. entries_kept K.children s set };

    ghost kept_numbers = { λ _ _. refl };

    ghost kept_whole = { λ s set all. whole_kept K.children s set all };

    ghost numbered = { λ s x is. entry_numbered K.children s x is };

    fn len(&self) -> usize {
        self.inner.store.len()
    }

    fn meets<G: Numbered>(&self, others: &G) -> bool {
        others.has_number(self.inner.store.number())
    }

    fn is_distinct(&self) -> bool {
        true
    }

    fn learn(&self, marks: &mut Marks, roots: bool) -> Result<(), AllocError> {
        let number = self.inner.store.number();
        learn_counts(number, K::counts(self.inner.store.table()), marks, roots)
    }

    fn visit(&self, key: EntryKey, gc: &mut GarbageCollector) -> bool {
        K::visit_entry(self, key, gc)
    }

    fn sweep(&mut self, gc: &GarbageCollector) {
        let number = self.inner.store.number();
        K::keep(self, &gc.marks.of_storage(number));
    }
}
