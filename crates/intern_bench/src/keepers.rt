//! What keeps terms: the store of terms, and a bare storage of slices.
ghost use Rattle.std.specs.Prelude.{true};

use anyhow::Result;
use intern_terms::{Term, TermRef, TermStore};
use ra_ap_intern::{
    GarbageCollector, GcInternedSliceVisit, InternSliceStorage, InternedSlice, InternedSliceRef,
    Refusal, Refused, SliceInternable, Symbol,
};
use std::alloc::Global;

/// What keeps each equal term once: a head over earlier terms.
pub(crate) trait Keeper: Sized + Drop {
    /// What names a term.
    type Handle: Copy + PartialEq + Drop;

    /// What keeps a term.
    type Owned: Drop;

    /// One without terms.
    fn make(alloc: Global) -> Self;

    /// How many terms there are.
    fn entries(&self) -> usize;

    /// Stores a term without arguments if it isn't, and names it.
    fn store_leaf(&mut self, head: Symbol) -> Result<Self::Handle, Refusal>;

    /// The same with two arguments.
    fn store_upper(
        &mut self,
        head: Symbol,
        first: Self::Handle,
        second: Self::Handle,
    ) -> Result<Self::Handle, Refusal>;

    /// The head and the arguments of a term.
    fn read(&self, term: Self::Handle) -> Option<(&Symbol, &[Self::Handle])>;

    /// Keeps a term.
    fn keep(&mut self, term: Self::Handle) -> Result<Self::Owned, Refusal>;

    /// Gives a term up.
    fn give_up(&mut self, term: Self::Owned) -> Result<(), Refusal>;

    /// Removes the terms that are in no tree of a term that is kept.
    fn sweep(&mut self, alloc: Global) -> Result<()>;

    /// How many terms a walk of these finds, or none where there are no walks.
    fn walked(&self, roots: &[Self::Handle]) -> Result<usize>;
}

// What was stored, or why it wasn't; the head is let go.
fn named<H: Copy + Drop>(
    stored: Result<(H, Option<Symbol>), Refused<Symbol>>,
) -> Result<H, Refusal> {
    match stored {
        Ok((handle, _)) => Ok(handle),
        Err(refused) => Err(refused.why),
    }
}

impl Keeper for TermStore {
    type Handle = TermRef;

    type Owned = Term;

    fn make(alloc: Global) -> TermStore {
        TermStore::new(alloc, 0)
    }

    fn entries(&self) -> usize {
        self.len()
    }

    fn store_leaf(&mut self, head: Symbol) -> Result<TermRef, Refusal> {
        named(self.term(head, &[]))
    }

    fn store_upper(
        &mut self,
        head: Symbol,
        first: TermRef,
        second: TermRef,
    ) -> Result<TermRef, Refusal> {
        named(self.term(head, &[first, second]))
    }

    fn read(&self, term: TermRef) -> Option<(&Symbol, &[TermRef])> {
        Some((self.head(term)?, self.args(term)?))
    }

    fn keep(&mut self, term: TermRef) -> Result<Term, Refusal> {
        TermStore::keep(self, term)
    }

    fn give_up(&mut self, term: Term) -> Result<(), Refusal> {
        match term.release(self) {
            Ok(()) => Ok(()),
            Err(refused) => Err(refused.why),
        }
    }

    fn sweep(&mut self, _alloc: Global) -> Result<()> {
        self.collect()?;
        Ok(())
    }

    fn walked(&self, roots: &[TermRef]) -> Result<usize> {
        Ok(self.walk(roots)?.len())
    }
}

/// Terms as slices, whose arguments nobody looks at.
pub(crate) struct Bare;

/// A reference to such a slice.
#[derive(Clone, Copy, PartialEq, Eq, Hash)]
pub(crate) struct BareRef {
    slice: InternedSliceRef<Bare>,
}

impl SliceInternable for Bare {
    type Header = Symbol;

    type SliceType = BareRef;

    const USE_GC: bool = true;

    ghost USE_GC = { true };
}

impl GcInternedSliceVisit for Bare {
    ghost use Rattle.std.specs.Prelude.{[], map};
    ghost use Rattle.ra_ap_intern.specs.Handle.{ref_name};

    ghost header_children = { λ _. [] };

    ghost slice_children = { λ items. map (λ item. ref_name item.slice) items };

    fn visit_header(_header: &Symbol, _gc: &mut GarbageCollector) {}

    fn visit_slice(slice: &[BareRef], gc: &mut GarbageCollector) {
        for item in slice {
            let _ = gc.mark_interned_slice_alive(item.slice);
        }
    }
}

impl Keeper for InternSliceStorage<Bare> {
    type Handle = BareRef;

    type Owned = InternedSlice<Bare>;

    fn make(alloc: Global) -> InternSliceStorage<Bare> {
        InternSliceStorage::new(alloc, 0)
    }

    fn entries(&self) -> usize {
        self.len()
    }

    fn store_leaf(&mut self, head: Symbol) -> Result<BareRef, Refusal> {
        let slice = named(InternedSlice::from_header_and_slice(self, head, &[]))?;
        Ok(BareRef { slice })
    }

    fn store_upper(
        &mut self,
        head: Symbol,
        first: BareRef,
        second: BareRef,
    ) -> Result<BareRef, Refusal> {
        let stored = InternedSlice::from_header_and_slice(self, head, &[first, second]);
        let slice = named(stored)?;
        Ok(BareRef { slice })
    }

    fn read(&self, term: BareRef) -> Option<(&Symbol, &[BareRef])> {
        let read = term.slice.get(self)?;
        Some((read.header.header, read.slice))
    }

    fn keep(&mut self, term: BareRef) -> Result<InternedSlice<Bare>, Refusal> {
        term.slice.to_owned(self)
    }

    fn give_up(&mut self, term: InternedSlice<Bare>) -> Result<(), Refusal> {
        match term.release(self) {
            Ok(()) => Ok(()),
            Err(refused) => Err(refused.why),
        }
    }

    fn sweep(&mut self, alloc: Global) -> Result<()> {
        GarbageCollector::new(alloc).collect(self)?;
        Ok(())
    }

    fn walked(&self, _roots: &[BareRef]) -> Result<usize> {
        Ok(0)
    }
}
