//! `TermStore::collect`, `TermStore::collect_keeping` and `TermStore::collect_from`.
use crate::fault::{Fault, ensure};
use crate::marks::mark;
use crate::shape::{Held, TERMS, check};
use intern_terms::{TermRef, TermStore};
use ra_ap_intern::Collected;

/// Collects a store that has these terms. Where that is refused, it is as it was.
fn collect(
    rt: &impl Eprint,
    store: &mut TermStore,
    terms: &[TermRef],
    held: Held,
) -> Result<Collected, Fault> {
    mark(rt, "asks: TermStore::collect");
    let first = store.collect();
    if let Ok(did) = first {
        mark(rt, "prepares");
        return Ok(did);
    }
    mark(rt, "refused: TermStore::collect");
    check(store, terms, held)?;
    Ok(store.collect()?)
}

/// Does the same with roots.
pub(crate) fn collect_keeping(
    rt: &impl Eprint,
    store: &mut TermStore,
    terms: &[TermRef],
    held: Held,
    roots: &[TermRef],
) -> Result<Collected, Fault> {
    mark(rt, "asks: TermStore::collect_keeping");
    let first = store.collect_keeping(roots);
    if let Ok(did) = first {
        mark(rt, "prepares");
        return Ok(did);
    }
    mark(rt, "refused: TermStore::collect_keeping");
    check(store, terms, held)?;
    Ok(store.collect_keeping(roots)?)
}

// Does the same with what a pair declares.
fn collect_from(
    rt: &impl Eprint,
    store: &mut TermStore,
    terms: &[TermRef],
    held: Held,
    roots: (TermRef, TermRef),
) -> Result<Collected, Fault> {
    mark(rt, "asks: TermStore::collect_from");
    let first = store.collect_from(&roots);
    if let Ok(did) = first {
        mark(rt, "prepares");
        return Ok(did);
    }
    mark(rt, "refused: TermStore::collect_from");
    check(store, terms, held)?;
    Ok(store.collect_from(&roots)?)
}

/// Fails unless these are the visits, the mark calls and the removed terms.
pub(crate) fn tells(did: Collected, wanted: (usize, u64, usize)) -> Result<(), Fault> {
    ensure(
        (did.visits, did.mark_calls, did.removed) == wanted,
        "a collection tells something else",
    )
}

/// All terms, of which one has an owner.
const KEPT: Held = Held {
    even: TERMS,
    odd: TERMS,
    kept: Some(40),
};

/// What the owner keeps, and the tree of a root.
const LISTED: Held = Held {
    even: 41,
    odd: 34,
    kept: Some(40),
};

/// What the owner keeps, and the tree of what is declared.
const DECLARED: Held = Held {
    even: 41,
    odd: 22,
    kept: Some(40),
};

/// What the owner keeps.
const REACHED: Held = Held {
    even: 41,
    odd: 0,
    kept: Some(40),
};

/// The same without the owner.
const RELEASED: Held = Held {
    even: 41,
    odd: 0,
    kept: None,
};

const NOTHING: Held = Held {
    even: 0,
    odd: 0,
    kept: None,
};

/// Collects four times: beside an owner and a root, beside the owner and what is declared, beside
/// the owner, and beside nothing.
pub(crate) fn check_collections(
    rt: &(impl Print + Eprint),
    store: &mut TermStore,
    terms: &[TermRef],
    foreign: TermRef,
) -> Result<(), Fault> {
    let (Some(kept), Some(root), Some(declared)) = (terms.get(40), terms.get(33), terms.get(21))
    else {
        return Err(Fault("there are too few terms"));
    };
    let owner = store.keep(*kept)?;
    check_listed(rt, store, terms, &[*root, foreign, *root])?;
    check_declared(rt, store, terms, (*declared, foreign))?;
    check_owned(rt, store, terms)?;
    owner.release(store)?;
    check(store, terms, RELEASED)?;
    let did = collect(rt, store, terms, RELEASED)?;
    tells(did, (0, 0, 21))?;
    check(store, terms, NOTHING)
}

fn check_listed(
    rt: &(impl Print + Eprint),
    store: &mut TermStore,
    terms: &[TermRef],
    roots: &[TermRef],
) -> Result<(), Fault> {
    check(store, terms, KEPT)?;
    let did = collect_keeping(rt, store, terms, KEPT, roots)?;
    tells(did, (38, 36, 32))?;
    println!(rt; "TermStore::collect_keeping: {}", did.visits)?;
    check(store, terms, LISTED)
}

fn check_declared(
    rt: &(impl Print + Eprint),
    store: &mut TermStore,
    terms: &[TermRef],
    roots: (TermRef, TermRef),
) -> Result<(), Fault> {
    let did = collect_from(rt, store, terms, LISTED, roots)?;
    tells(did, (32, 30, 6))?;
    println!(rt; "TermStore::collect_from: {}", did.visits)?;
    check(store, terms, DECLARED)
}

fn check_owned(
    rt: &(impl Print + Eprint),
    store: &mut TermStore,
    terms: &[TermRef],
) -> Result<(), Fault> {
    let did = collect(rt, store, terms, DECLARED)?;
    tells(did, (21, 20, 11))?;
    println!(rt; "TermStore::collect: {}", did.visits)?;
    check(store, terms, REACHED)
}
