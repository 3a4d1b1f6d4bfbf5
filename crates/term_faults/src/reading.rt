//! `TermStore::walk` and `TermStore::written`.
use crate::fault::{Fault, ensure};
use crate::marks::mark;
use crate::shape::{Held, TERMS, check};
use intern_terms::{TermRef, TermStore};
use ra_ap_intern::SymbolTable;
use std::alloc::Global;

/// Walks over the last term: over all terms, first those of odd numbers.
pub(crate) fn check_walk(
    rt: &(impl Print + Eprint),
    store: &TermStore,
    terms: &[TermRef],
    last: TermRef,
    foreign: TermRef,
) -> Result<(), Fault> {
    let walk = walk(rt, store, terms, &[last, foreign, last])?;
    ensure(is_in_order(&walk, terms), "a walk gives something else")?;
    println!(rt; "TermStore::walk: {}", walk.len())?;
    check(store, terms, Held::ALL)?;
    mark(rt, "takes none: TermStore::walk");
    ensure(
        is_empty(store, &[]) && is_empty(store, &[foreign]),
        "a walk over nothing gives a term",
    )?;
    mark(rt, "prepares");
    Ok(())
}

fn is_empty(store: &TermStore, roots: &[TermRef]) -> bool {
    match store.walk(roots) {
        Ok(walk) => walk.is_empty(),
        Err(_) => false,
    }
}

fn is_in_order(walk: &[TermRef], terms: &[TermRef]) -> bool {
    let odd = terms.iter().skip(1).step_by(2).take(TERMS / 2 - 1);
    let ordered = odd.chain(terms.iter().step_by(2)).chain(terms.last());
    walk.iter().eq(ordered)
}

// Walks. Where that is refused, the store is as it was.
fn walk(
    rt: &impl Eprint,
    store: &TermStore,
    terms: &[TermRef],
    roots: &[TermRef],
) -> Result<Vec<TermRef>, Fault> {
    mark(rt, "asks: TermStore::walk");
    let first = store.walk(roots);
    if let Ok(walk) = first {
        mark(rt, "prepares");
        return Ok(walk);
    }
    mark(rt, "refused: TermStore::walk");
    check(store, terms, Held::ALL)?;
    Ok(store.walk(roots)?)
}

/// Writes the last term, in full and cut off.
pub(crate) fn check_written(
    rt: &(impl Print + Eprint),
    alloc: Global,
    store: &TermStore,
    terms: &[TermRef],
    last: TermRef,
) -> Result<(), Fault> {
    let table = SymbolTable::new(alloc, 7);
    check_text(rt, store, last, &table)?;
    writes(rt, store, last, &table, 3, "bool(bool(bool(…")?;
    check(store, terms, Held::ALL)
}

fn check_text(
    rt: &(impl Print + Eprint),
    store: &TermStore,
    last: TermRef,
    table: &SymbolTable,
) -> Result<(), Fault> {
    let text = written(rt, store, last, table, TERMS)?;
    ensure(is_last(text.as_str()) == Some(true), "a text is wrong")?;
    println!(rt; "TermStore::written: {}", text.len())?;
    Ok(())
}

// Whether a text is that of the last term.
fn is_last(text: &str) -> Option<bool> {
    let odd = strip(text, "bool(", TERMS / 2 - 1)?.strip_prefix("bool")?;
    let even = strip(odd, ")", TERMS / 2 - 2)?.strip_prefix(", ")?;
    let even = strip(even, "Clone(", TERMS / 2 - 1)?.strip_prefix("Clone")?;
    Some(strip(even, ")", TERMS / 2)?.is_empty())
}

fn strip<'a>(text: &'a str, part: &str, times: usize) -> Option<&'a str> {
    let mut text = text;
    for _ in 0..times {
        text = text.strip_prefix(part)?;
    }
    Some(text)
}

/// Fails unless a term is written so, with at most so many terms.
pub(crate) fn writes(
    rt: &impl Eprint,
    store: &TermStore,
    term: TermRef,
    table: &SymbolTable,
    most: usize,
    wanted: &str,
) -> Result<(), Fault> {
    let text = written(rt, store, term, table, most)?;
    ensure(text.as_str() == wanted, "a text of a term is wrong")
}

// Writes a term.
fn written(
    rt: &impl Eprint,
    store: &TermStore,
    term: TermRef,
    table: &SymbolTable,
    most: usize,
) -> Result<String, Fault> {
    mark(rt, "asks: TermStore::written");
    let first = store.written(term, table, most);
    if let Ok(text) = first {
        mark(rt, "prepares");
        return Ok(text);
    }
    mark(rt, "refused: TermStore::written");
    Ok(store.written(term, table, most)?)
}
