//! Owners of terms are compared as references to their terms are; those that must be released.
use crate::texts::is_equal;
use intern_terms::{OwedTerm, Term, TermRef, TermStore};
use ra_ap_intern::{Refusal, Refused, Symbol, sym};
use std::alloc::Global;
use std::process::Abort;

/// The term of a head without arguments.
fn leaf(rt: &impl Abort, store: &mut TermStore, head: Symbol) -> TermRef {
    let (term, _back) = store.term(head, &[]).ok().expect(rt, "a term");
    term
}

fn drop_store(_store: TermStore) {}

#[test]
fn owners_are_names(rt: HostRuntime) {
    let mut store = TermStore::new(rt.alloc(), 2);
    let x = leaf(&rt, &mut store, sym::Clone);
    let y = leaf(&rt, &mut store, sym::bool);
    let first = store.keep(x).expect(&rt, "an owner");
    let second = first.clone(&mut store).expect(&rt, "an owner");
    let other = store.keep(y).expect(&rt, "an owner");
    assert!(rt; first == second && first != other);
    assert!(rt; first < other && other > second);
    is_equal(&rt, first.name(), x.name());
    assert!(rt; TermRef::from(&other) == y);
    drop_store(store);
}

/// Is refused a release for this reason. The owner comes back.
fn not_released(
    rt: &impl Abort,
    store: &mut TermStore,
    owed: OwedTerm,
    reason: Refusal,
) -> OwedTerm {
    let term = owed.as_ref();
    match owed.release(store) {
        Ok(()) => panic!(rt; "it was released"),
        Err(Refused { why, back }) => {
            is_equal(rt, why, reason);
            is_equal(rt, back.as_ref(), term);
            back
        }
    }
}

/// Releases an owner.
fn release(rt: &impl Abort, store: &mut TermStore, owed: OwedTerm) {
    match owed.release(store) {
        Ok(()) => {}
        Err(Refused { why: _, back }) => {
            drop(back.into_term());
            panic!(rt; "it was not released");
        }
    }
}

#[test]
fn an_owed_term_has_the_calls_of_an_owner(rt: HostRuntime) {
    let alloc = rt.alloc();
    let mut store = TermStore::new(alloc, 2);
    let x = leaf(&rt, &mut store, sym::Clone);
    let first = OwedTerm::from(store.keep(x).expect(&rt, "an owner"));
    is_equal(&rt, first.name(), x.name());
    assert!(rt; TermRef::from(&first) == x);
    let shown: Result<_, _> = format!(in alloc; "{:?}", first);
    is_equal(
        &rt,
        shown.expect(&rt, "memory").as_str(),
        "Owed(Term(#2.0))",
    );

    let second = first.clone(&mut store).expect(&rt, "an owner");
    assert!(rt; first == second);
    is_equal(&rt, store.count(x), Some(2));
    release(&rt, &mut store, second);
    let owner = first.into_term();
    is_equal(&rt, store.count(owner.as_ref()), Some(1));
    release(&rt, &mut store, OwedTerm::from(owner));
    is_equal(&rt, store.count(x), Some(0));
    drop_store(store);
}

#[test]
fn a_refusal_gives_an_owed_term_back(rt: HostRuntime) {
    let alloc = rt.alloc();
    let mut store = TermStore::new(alloc, 1);
    let mut other = TermStore::new(alloc, 2);
    let x = leaf(&rt, &mut store, sym::bool);
    let owed = OwedTerm::from(store.keep(x).expect(&rt, "an owner"));
    is_equal(&rt, other.check(x), Err(Refusal::Foreign));
    let owed = not_released(&rt, &mut other, owed, Refusal::Foreign);
    is_equal(&rt, store.check(x), Ok(()));
    is_equal(&rt, store.check_all(&[x, x]), Ok(()));
    is_equal(&rt, other.check_all(&[]), Ok(()));
    is_equal(&rt, other.check_all(&[x]), Err(Refusal::Foreign));
    release(&rt, &mut store, owed);
    drop_store(store);
    drop_store(other);
}

#[test]
fn an_owner_is_a_root_also_without_its_count(rt: HostRuntime) {
    let alloc = rt.alloc();
    let mut store = TermStore::new(alloc, 1);
    let x = leaf(&rt, &mut store, sym::bool);
    let _alone = leaf(&rt, &mut store, sym::Clone);
    let owner = owner_elsewhere(&rt, alloc);
    assert!(rt; owner.as_ref() == x);
    is_equal(&rt, store.count(x), Some(0));
    let did = store.collect_from(&owner).expect(&rt, "memory");
    is_equal(&rt, (did.visits, did.removed), (1, 1));
    let owed = OwedTerm::from(owner);
    let kept = store.collect_from(&owed).map(|did| did.visits);
    drop(owed.into_term());
    is_equal(&rt, kept.expect(&rt, "memory"), 1);
    drop_store(store);
}

/// An owner of the first term of another store that has the number 1.
fn owner_elsewhere(rt: &impl Abort, alloc: Global) -> Term {
    let mut other = TermStore::new(alloc, 1);
    let x = leaf(rt, &mut other, sym::bool);
    other.keep(x).expect(rt, "an owner")
}
