//! `TermStore::term` of what isn't stored.
use crate::fault::{Fault, ensure};
use crate::marks::mark;
use crate::shape::{Held, args_of, check, head_of};
use intern_terms::{TermRef, TermStore};
use ra_ap_intern::{Refusal, Symbol};

/// Stores the terms of the numbers below this one.
pub(crate) fn make_all(
    rt: &impl Eprint,
    store: &mut TermStore,
    terms: &mut Vec<TermRef>,
    length: usize,
) -> Result<(), Fault> {
    for number in 0..length {
        let term = make(rt, store, terms, number)?;
        terms.push(term)?;
        check(store, terms, Held::ALL)?;
    }
    Ok(())
}

/// Stores the term of a number. Where that is refused, those before it are as they were.
pub(crate) fn make(
    rt: &impl Eprint,
    store: &mut TermStore,
    terms: &[TermRef],
    number: usize,
) -> Result<TermRef, Fault> {
    let args = args_of(terms, number);
    mark(rt, "asks: TermStore::term");
    let first = try_term(store, head_of(number), args, &head_of(number))?;
    if let Some(term) = first {
        mark(rt, "prepares");
        return Ok(term);
    }
    mark(rt, "refused: TermStore::term");
    check(store, terms, Held::ALL)?;
    let second = try_term(store, head_of(number), args, &head_of(number))?;
    second.ok_or(Fault("a term was refused twice"))
}

/// Stores a term without arguments, with a head that is equal to another. None where that is
/// refused for want of memory: then it isn't stored.
pub(crate) fn try_leaf(
    rt: &impl Eprint,
    store: &mut TermStore,
    head: Symbol,
    same: &Symbol,
) -> Result<Option<TermRef>, Fault> {
    let length = store.len();
    mark(rt, "asks: TermStore::term");
    let first = try_term(store, head, &[], same)?;
    if first.is_some() {
        mark(rt, "prepares");
        return Ok(first);
    }
    mark(rt, "refused: TermStore::term");
    ensure(
        store.len() == length && store.get(same, &[]).is_none(),
        "a term that was refused is stored",
    )?;
    Ok(None)
}

/// Makes the call for a head that is equal to another, where it is to store a term. None where it
/// is refused for want of memory.
pub(crate) fn try_term(
    store: &mut TermStore,
    head: Symbol,
    args: &[TermRef],
    same: &Symbol,
) -> Result<Option<TermRef>, Fault> {
    match store.term(head, args) {
        Ok((term, back)) => fresh(term, back.is_none()),
        Err(refused) => none(refused.why == Refusal::OutOfMemory && refused.back == *same),
    }
}

fn fresh(term: TermRef, is_fresh: bool) -> Result<Option<TermRef>, Fault> {
    ensure(is_fresh, "the head of a new term came back")?;
    Ok(Some(term))
}

fn none(is_right: bool) -> Result<Option<TermRef>, Fault> {
    ensure(is_right, "a refusal of a term is wrong")?;
    Ok(None)
}
