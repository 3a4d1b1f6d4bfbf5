//! Terms that must be released.
ghost use Rattle.std.specs.Prelude.{◌≡◌, IfOk};
ghost use Rattle.ra_ap_intern.specs.Name.{Name as TermName};
ghost use Rattle.ra_ap_intern.specs.Outcome.{Owes, OwesBack, Becomes};
ghost use Rattle.ra_ap_intern.specs.State.{any_count, counted_down, counted_up, due, full, zero_count};
ghost use Rattle.intern_terms.specs.Handle.{owned_name, owned_term, term_name};
ghost use Rattle.intern_terms.specs.Tree.{Tree as TermTree, UnfoldsTo};

use crate::handle::{Term, TermRef};
use crate::store::TermStore;
use ra_ap_intern::{GarbageCollector, GcInternedVisit, Name, Refusal, Refused};
use std::fmt;
use std::hash::BuildHasher;

/// A term that is kept and can't be dropped: a program that lets one go is refused as it is
/// compiled.
///
/// It is made from a [`Term`], counts as that does, and is compared, ordered and hashed by its name
/// alone. It ends in `release`, or in `into_term`, which says where a count stays. Where a call is
/// refused and `?` would let one go, take `into_term` first.
#[derive(PartialEq, Eq, PartialOrd, Ord, Hash)]
pub struct OwedTerm {
    term: Term,
}

// It declares the term.
impl GcInternedVisit for OwedTerm {
    ghost use Rattle.std.specs.Prelude.{[], ◌∷◌};
    ghost use Rattle.intern_terms.specs.Handle.{owned_name, owned_term};

    ghost children = { λ t. owned_name (owned_term t) ∷ [] };

    fn visit_with(&self, gc: &mut GarbageCollector) {
        self.term.visit_with(gc);
    }
}

impl fmt::Debug for OwedTerm {
    fn fmt<W: fmt::Write>(&self, f: &mut fmt::Formatter<W>) -> fmt::Result {
        write!(f, "Owed({:?})", self.term)
    }
}

impl From<Term> for OwedTerm {
    ghost from_gives = { λ term owed. owned_term owed ≡ term };

    fn from(term: Term) -> OwedTerm {
        OwedTerm { term }
    }
}

impl<'a> From<&'a OwedTerm> for TermRef {
    ghost from_gives = { λ owed reference.
        term_name reference ≡ owned_name (owned_term owed.now) };

    fn from(owed: &'a OwedTerm) -> TermRef {
        owed.as_ref()
    }
}

impl OwedTerm {
    /// A second owner of the term, which is counted once more.
    /// Refused: `Foreign`, `Gone`, `CountFull`.
    pub fn clone<B: BuildHasher>(&self, store: &mut TermStore<B>) -> Result<OwedTerm, Refusal>
        ensures ok { IfOk result (λ t.
            owned_name (owned_term t) ≡ owned_name (owned_term self.now)) }
        ensures refused { Owes result
            (due store.old (owned_name (owned_term self.now)) (full store.old.top)) }
        ensures state { Becomes result store.old store.new
            (counted_up store.old (owned_name (owned_term self.now)).birth) }
        ensures trees { (name : TermName) (t : TermTree) →
            UnfoldsTo store.old name t → UnfoldsTo store.new name t }
    {
        Ok(OwedTerm::from(self.term.clone(store)?))
    }

    /// Gives the term up, with its count. It stays until a collection.
    /// Refused, with the term back: `Foreign`, `Gone`, `CountZero`.
    pub fn release<B: BuildHasher>(self, store: &mut TermStore<B>) -> Result<(), Refused<OwedTerm>>
        ensures refused { OwesBack result
            (due store.old (owned_name (owned_term self)) zero_count) self }
        ensures state { Becomes result store.old store.new
            (counted_down store.old (owned_name (owned_term self)).birth) }
        ensures trees { (name : TermName) (t : TermTree) →
            UnfoldsTo store.old name t → UnfoldsTo store.new name t }
    {
        self.into_term().release(store).map_err(|refused| Refused {
            why: refused.why,
            back: OwedTerm { term: refused.back },
        })
    }

    /// The term as one that may be dropped: its count is its holder's affair again.
    pub fn into_term(self) -> Term
        ensures { result ≡ owned_term self }
    {
        let OwedTerm { term } = self;
        term
    }

    /// A reference to the same term.
    pub fn as_ref(&self) -> TermRef
        ensures { term_name result ≡ owned_name (owned_term self.now) }
    {
        self.term.as_ref()
    }

    /// The term's name: the store's number and the birth.
    pub fn name(&self) -> Name
        ensures { result ≡ owned_name (owned_term self.now) }
    {
        self.term.name()
    }
}
