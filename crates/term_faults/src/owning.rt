//! The calls on owners of terms. They take no memory.
use crate::fault::{Fault, ensure};
use crate::marks::mark;
use intern_terms::{OwedTerm, Term, TermRef, TermStore};
use ra_ap_intern::{Refusal, Refused};

/// Keeps each term twice, and releases it.
pub(crate) fn check_owners(
    rt: &impl Eprint,
    store: &mut TermStore,
    terms: &[TermRef],
) -> Result<(), Fault> {
    for term in terms {
        check_owner(rt, store, *term)?;
        check_owed(rt, store, *term)?;
    }
    mark(rt, "prepares");
    Ok(())
}

fn check_owner(rt: &impl Eprint, store: &mut TermStore, term: TermRef) -> Result<(), Fault> {
    mark(rt, "takes none: TermStore::keep");
    let first = store.keep(term)?;
    mark(rt, "takes none: Term::clone");
    let second = first.clone(store)?;
    mark(rt, "takes none: Term::as_ref");
    ensure(
        first.as_ref() == term && second.as_ref() == term,
        "an owner is of another term",
    )?;
    mark(rt, "takes none: Term::name");
    ensure(first.name() == term.name(), "an owner has another name")?;
    mark(rt, "takes none: TermRef::from");
    ensure(
        TermRef::from(&first) == term,
        "a reference is of another term",
    )?;
    release(rt, store, first, 2)?;
    release(rt, store, second, 1)
}

// The same of an owner that must be released.
fn check_owed(rt: &impl Eprint, store: &mut TermStore, term: TermRef) -> Result<(), Fault> {
    let owner = store.keep(term)?;
    mark(
        rt,
        "takes none: OwedTerm::from, OwedTerm::as_ref, OwedTerm::name",
    );
    let owed = OwedTerm::from(owner);
    let is_same = owed.as_ref() == term && owed.name() == term.name();
    mark(rt, "takes none: OwedTerm::clone, OwedTerm::into_term");
    let second = owed.clone(store).map(OwedTerm::into_term);
    mark(rt, "takes none: OwedTerm::release");
    of_owed(owed.release(store))?;
    ensure(is_same, "an owner that must be released is of another term")?;
    release(rt, store, second?, 1)
}

// The answer of a release, whose refusal gives back an owner that may be dropped.
fn of_owed(answer: Result<(), Refused<OwedTerm>>) -> Result<(), Refused<Term>> {
    answer.map_err(|refused| Refused {
        why: refused.why,
        back: refused.back.into_term(),
    })
}

/// Releases an owner of a term that has so many.
pub(crate) fn release(
    rt: &impl Eprint,
    store: &mut TermStore,
    owner: Term,
    count: u64,
) -> Result<(), Fault> {
    let term = owner.as_ref();
    mark(rt, "takes none: Term::release");
    ensure(
        store.count(term) == Some(count),
        "a term has another number of owners",
    )?;
    owner.release(store)?;
    ensure(
        store.count(term) == count.checked_sub(1),
        "a release changed a count otherwise",
    )
}

/// Fails unless a term can't be kept, for this reason.
pub(crate) fn is_not_kept(
    rt: &impl Eprint,
    store: &mut TermStore,
    term: TermRef,
    why: Refusal,
) -> Result<(), Fault> {
    mark(rt, "takes none: TermStore::keep");
    let answer = store.keep(term).err();
    ensure(answer == Some(why), "a term is kept that can't be")
}

/// Fails unless an owner can't be cloned, for this reason.
pub(crate) fn is_not_cloned(
    rt: &impl Eprint,
    store: &mut TermStore,
    owner: &Term,
    why: Refusal,
) -> Result<(), Fault> {
    mark(rt, "takes none: Term::clone");
    let answer = owner.clone(store).err();
    ensure(answer == Some(why), "an owner is cloned that can't be")
}

/// Fails unless an owner can't be released, for this reason, and comes back.
pub(crate) fn is_not_released(
    rt: &impl Eprint,
    store: &mut TermStore,
    owner: Term,
    why: Refusal,
) -> Result<Term, Fault> {
    let term = owner.as_ref();
    mark(rt, "takes none: Term::release");
    let owner = not_released(owner.release(store), term, why)?;
    mark(rt, "takes none: OwedTerm::release");
    not_released(of_owed(OwedTerm::from(owner).release(store)), term, why)
}

fn not_released(
    answer: Result<(), Refused<Term>>,
    term: TermRef,
    why: Refusal,
) -> Result<Term, Fault> {
    match answer {
        Ok(()) => Err(Fault("an owner is released that can't be")),
        Err(refused) => owner_back(refused, term, why),
    }
}

fn owner_back(refused: Refused<Term>, term: TermRef, why: Refusal) -> Result<Term, Fault> {
    if refused.why == why && refused.back.as_ref() == term {
        Ok(refused.back)
    } else {
        Err(Fault("a refusal of a release is wrong"))
    }
}
