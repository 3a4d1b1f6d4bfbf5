//! The calls that are refused without a request for memory, and `TermStore::term` of what is
//! stored.
use crate::collecting::{collect_keeping, tells};
use crate::fault::{Fault, ensure};
use crate::looking::check_unread;
use crate::making::make;
use crate::marks::mark;
use crate::owning::{is_not_cloned, is_not_kept, is_not_released, release};
use crate::reading::writes;
use crate::shape::{Held, args_of, check, head_of};
use intern_terms::{TermRef, TermStore};
use ra_ap_intern::{FixedState, Limits, Refusal, SymbolTable, sym};
use std::alloc::Global;

/// Makes the call for each term that is stored.
pub(crate) fn check_stored(
    rt: &impl Eprint,
    store: &mut TermStore,
    terms: &[TermRef],
) -> Result<(), Fault> {
    mark(rt, "takes none: TermStore::term");
    for (term, number) in terms.iter().zip(0..) {
        ensure(
            finds(store, terms, *term, number),
            "a stored term is not found",
        )?;
    }
    mark(rt, "prepares");
    Ok(())
}

fn finds(store: &mut TermStore, terms: &[TermRef], term: TermRef, number: usize) -> bool {
    match store.term(head_of(number), args_of(terms, number)) {
        Ok((found, back)) => found == term && back == Some(head_of(number)),
        Err(_) => false,
    }
}

/// Makes each call that can be refused on a store that has given its two births, where a count goes
/// to one. It gives the term that is left there.
pub(crate) fn check_refusals(
    rt: &impl Eprint,
    alloc: Global,
    other: &mut TermStore,
    foreign: TermRef,
) -> Result<TermRef, Fault> {
    mark(rt, "takes none: TermStore::with_limits");
    let mut store = TermStore::with_limits(alloc, 2, Limits { top: 1, numbers: 2 });
    check_small(rt, alloc, &mut store, other, foreign)
}

fn check_small(
    rt: &impl Eprint,
    alloc: Global,
    store: &mut TermStore,
    other: &mut TermStore,
    foreign: TermRef,
) -> Result<TermRef, Fault> {
    ensure(
        store.number() == 2 && store.is_empty(),
        "a new store is wrong",
    )?;
    mark(rt, "prepares");
    let three = make_three(rt, store, foreign)?;
    check_terms(rt, store, three)?;
    check_keeping(rt, store, three)?;
    check_foreign(rt, store, other, foreign)?;
    check_same(rt, alloc, store)?;
    check_texts(rt, alloc, store, three)?;
    check(store, &[three.live, three.gone], ONE)?;
    Ok(three.live)
}

/// What is left of two terms, and a term of another store.
#[derive(Clone, Copy)]
struct Three {
    live: TermRef,
    gone: TermRef,
    foreign: TermRef,
}

/// The first term alone.
const ONE: Held = Held {
    even: 1,
    odd: 0,
    kept: None,
};

// Stores two terms, and collects, so that the first is left.
fn make_three(rt: &impl Eprint, store: &mut TermStore, foreign: TermRef) -> Result<Three, Fault> {
    let live = make(rt, store, &[], 0)?;
    let gone = make(rt, store, &[live], 1)?;
    let did = collect_keeping(rt, store, &[live, gone], Held::ALL, &[live])?;
    tells(did, (1, 0, 1))?;
    check(store, &[live, gone], ONE)?;
    check_unread(rt, store, gone)?;
    check_unread(rt, store, foreign)?;
    Ok(Three {
        live,
        gone,
        foreign,
    })
}

// `TermStore::term`, where all births are given.
fn check_terms(rt: &impl Eprint, store: &mut TermStore, three: Three) -> Result<(), Fault> {
    let Three {
        live,
        gone,
        foreign,
    } = three;
    mark(rt, "takes none: TermStore::term");
    ensure(finds(store, &[], live, 0), "a stored term is not found")?;
    let are_right = refuses(store, &[gone], Refusal::Gone)
        && refuses(store, &[foreign], Refusal::Foreign)
        && refuses(store, &[live, gone, foreign], Refusal::Gone)
        && refuses(store, &[live, foreign, gone], Refusal::Foreign)
        && refuses(store, &[live], Refusal::NumbersUsedUp)
        && refuses(store, &[], Refusal::NumbersUsedUp);
    ensure(are_right, "a term is not refused as it has to be")?;
    mark(rt, "prepares");
    Ok(())
}

// Whether a term over these arguments is refused, with its head back.
fn refuses(store: &mut TermStore, args: &[TermRef], why: Refusal) -> bool {
    is_refused(store, args, why) && store.len() == 1
}

fn is_refused(store: &mut TermStore, args: &[TermRef], why: Refusal) -> bool {
    match store.term(sym::fn_, args) {
        Ok(_) => false,
        Err(refused) => refused.why == why && refused.back == sym::fn_,
    }
}

// `TermStore::keep` of each, and the calls on the owner of the term that is left.
fn check_keeping(rt: &impl Eprint, store: &mut TermStore, three: Three) -> Result<(), Fault> {
    is_not_kept(rt, store, three.gone, Refusal::Gone)?;
    is_not_kept(rt, store, three.foreign, Refusal::Foreign)?;
    mark(rt, "takes none: TermStore::keep");
    let owner = store.keep(three.live)?;
    is_not_kept(rt, store, three.live, Refusal::CountFull)?;
    is_not_cloned(rt, store, &owner, Refusal::CountFull)?;
    release(rt, store, owner, 1)?;
    mark(rt, "prepares");
    Ok(())
}

// The calls on an owner of a term of another store.
fn check_foreign(
    rt: &impl Eprint,
    store: &mut TermStore,
    other: &mut TermStore,
    foreign: TermRef,
) -> Result<(), Fault> {
    mark(rt, "takes none: TermStore::keep");
    let owner = other.keep(foreign)?;
    is_not_cloned(rt, store, &owner, Refusal::Foreign)?;
    let back = is_not_released(rt, store, owner, Refusal::Foreign)?;
    release(rt, other, back, 1)?;
    mark(rt, "prepares");
    Ok(())
}

// The calls on owners of terms of another store that has the same number: of the first birth, which
// nobody owns here, and of the second, which is gone here.
fn check_same(rt: &impl Eprint, alloc: Global, store: &mut TermStore) -> Result<(), Fault> {
    mark(rt, "takes none: TermStore::with_hasher");
    let mut same = TermStore::with_hasher(alloc, 2, Limits::MAX, FixedState::new());
    mark(rt, "prepares");
    check_both(rt, store, &mut same)
}

fn check_both(rt: &impl Eprint, store: &mut TermStore, same: &mut TermStore) -> Result<(), Fault> {
    let first = make(rt, same, &[], 0)?;
    let second = make(rt, same, &[first], 1)?;
    check_uncounted(rt, store, same, first)?;
    check_gone(rt, store, same, second)
}

fn check_uncounted(
    rt: &impl Eprint,
    store: &mut TermStore,
    same: &mut TermStore,
    term: TermRef,
) -> Result<(), Fault> {
    mark(rt, "takes none: TermStore::keep");
    let owner = same.keep(term)?;
    let back = is_not_released(rt, store, owner, Refusal::CountZero)?;
    release(rt, same, back, 1)?;
    mark(rt, "prepares");
    Ok(())
}

fn check_gone(
    rt: &impl Eprint,
    store: &mut TermStore,
    same: &mut TermStore,
    term: TermRef,
) -> Result<(), Fault> {
    mark(rt, "takes none: TermStore::keep");
    let owner = same.keep(term)?;
    is_not_cloned(rt, store, &owner, Refusal::Gone)?;
    let back = is_not_released(rt, store, owner, Refusal::Gone)?;
    release(rt, same, back, 1)?;
    mark(rt, "prepares");
    Ok(())
}

// Writes what can't be read.
fn check_texts(
    rt: &impl Eprint,
    alloc: Global,
    store: &TermStore,
    three: Three,
) -> Result<(), Fault> {
    let table = SymbolTable::new(alloc, 4);
    writes(rt, store, three.gone, &table, 9, "#2.1")?;
    writes(rt, store, three.foreign, &table, 9, "#1.0")
}
