//! What names terms.
ghost use Rattle.std.specs.Prelude.{◌≡◌, true};
ghost use Rattle.intern_terms.specs.Handle.{term_name, owned_name};

use ra_ap_intern::{
    GarbageCollector, GcInternedSliceVisit, GcInternedVisit, InternedSlice, InternedSliceRef, Name,
    SliceInternable, Symbol,
};
use std::fmt;

// Terms as slices: a symbol over references to terms.
pub(crate) struct Terms;

impl SliceInternable for Terms {
    type Header = Symbol;

    type SliceType = TermRef;

    const USE_GC: bool = true;

    ghost USE_GC = { true };
}

impl GcInternedSliceVisit for Terms {
    ghost use Rattle.std.specs.Prelude.{[], map};
    ghost use Rattle.intern_terms.specs.Handle.{term_name};

    ghost header_children = { λ _. [] };

    ghost slice_children = { λ items. map term_name items };

    fn visit_header(_header: &Symbol, _gc: &mut GarbageCollector) {}

    fn visit_slice(slice: &[TermRef], gc: &mut GarbageCollector) {
        gc.mark_all(slice);
    }
}

/// A reference to a term, which counts nothing. It is compared, ordered and hashed by its name
/// alone: the store's number, and then the birth.
#[derive(Clone, Copy, PartialEq, Eq, PartialOrd, Ord, Hash)]
pub struct TermRef {
    pub(crate) reference: InternedSliceRef<Terms>,
}

// A reference to a term declares the term.
impl GcInternedVisit for TermRef {
    ghost use Rattle.std.specs.Prelude.{[], ◌∷◌};
    ghost use Rattle.intern_terms.specs.Handle.{term_name};

    ghost children = { λ t. term_name t ∷ [] };

    fn visit_with(&self, gc: &mut GarbageCollector) {
        self.reference.visit_with(gc);
    }
}

/// A term that is kept: while it is, no collection removes it, or a term in its tree.
///
/// One that is dropped without `release` keeps its count. It is compared, ordered and hashed by its
/// name alone, as a [`TermRef`].
#[derive(Drop)]
#[derive(PartialEq, Eq, PartialOrd, Ord, Hash)]
pub struct Term {
    pub(crate) owned: InternedSlice<Terms>,
}

// So does one that is kept.
impl GcInternedVisit for Term {
    ghost use Rattle.std.specs.Prelude.{[], ◌∷◌};
    ghost use Rattle.intern_terms.specs.Handle.{owned_name};

    ghost children = { λ t. owned_name t ∷ [] };

    fn visit_with(&self, gc: &mut GarbageCollector) {
        self.owned.visit_with(gc);
    }
}

impl fmt::Debug for TermRef {
    fn fmt<W: fmt::Write>(&self, f: &mut fmt::Formatter<W>) -> fmt::Result {
        write!(f, "TermRef({})", self.name())
    }
}

impl fmt::Debug for Term {
    fn fmt<W: fmt::Write>(&self, f: &mut fmt::Formatter<W>) -> fmt::Result {
        write!(f, "Term({})", self.name())
    }
}

impl TermRef {
    /// The term's name: the store's number and the birth.
    pub fn name(self) -> Name
        ensures { result ≡ term_name self }
    {
        self.reference.name()
    }
}

impl Term {
    /// A reference to the same term.
    pub fn as_ref(&self) -> TermRef
        ensures { term_name result ≡ owned_name self.now }
    {
        TermRef {
            reference: self.owned.as_ref(),
        }
    }

    /// The term's name: the store's number and the birth.
    pub fn name(&self) -> Name
        ensures { result ≡ owned_name self.now }
    {
        self.owned.name()
    }
}

impl<'a> From<&'a Term> for TermRef {
    ghost from_gives = { λ term reference. term_name reference ≡ owned_name term.now };

    fn from(term: &'a Term) -> TermRef {
        term.as_ref()
    }
}
