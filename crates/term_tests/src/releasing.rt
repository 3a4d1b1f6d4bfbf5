//! Collections that begin at what a visitor declares, and those that give up the heads of the terms
//! that go.
use crate::texts::is_equal;
use intern_fixtures::told;
use intern_terms::{TermRef, TermStore};
use ra_ap_intern::{Symbol, SymbolTable};
use std::process::Abort;

/// The term with this head over these arguments, which isn't stored yet.
fn make(
    rt: &impl Abort,
    store: &mut TermStore,
    heads: &mut SymbolTable,
    head: &str,
    args: &[TermRef],
) -> TermRef {
    let head = Symbol::intern(heads, head).expect(rt, "a symbol");
    let (term, back) = store.term(head, args).ok().expect(rt, "a term");
    assert!(rt; back.is_none());
    term
}

/// The head of this text has this count. None where it is gone.
fn counts(rt: &impl Abort, heads: &SymbolTable, head: &str, count: Option<u64>) {
    let found = heads.get(head).and_then(|symbol| symbol.count(heads));
    is_equal(rt, found, count);
}

/// Stores `x`, and over it `g(x)`, `x(x)`, `f(x)` and `Clone(x)`, of which it gives the first two.
fn fill(rt: &impl Abort, store: &mut TermStore, heads: &mut SymbolTable) -> (TermRef, TermRef) {
    let x = make(rt, store, heads, "x", &[]);
    let g = make(rt, store, heads, "g", &[x]);
    for head in ["x", "f", "Clone"] {
        make(rt, store, heads, head, &[x]);
    }
    counts(rt, heads, "x", Some(2));
    (x, g)
}

fn drop_all(_store: TermStore, _heads: SymbolTable) {}

#[test]
fn what_a_visitor_declares_stays(rt: HostRuntime) {
    let mut heads = SymbolTable::new(rt.alloc(), 1);
    let mut store = TermStore::new(rt.alloc(), 2);
    let (x, g) = fill(&rt, &mut store, &mut heads);
    let did = store.collect_from(&(g, Some(x)));
    is_equal(&rt, told(did), Some((2, 1, 3)));
    assert!(rt; store.contains(x) && store.contains(g));
    is_equal(&rt, heads.len(), 3);
    drop_all(store, heads);
}

#[test]
fn heads_go_with_their_terms(rt: HostRuntime) {
    let mut heads = SymbolTable::new(rt.alloc(), 1);
    let mut store = TermStore::new(rt.alloc(), 2);
    let (_, g) = fill(&rt, &mut store, &mut heads);
    let did = store.collect_releasing(&[g], &mut heads);
    is_equal(&rt, told(did), Some((2, 1, 3)));
    counts(&rt, &heads, "x", Some(1));
    counts(&rt, &heads, "g", Some(1));
    counts(&rt, &heads, "f", None);
    is_equal(&rt, heads.len(), 2);
    drop_all(store, heads);
}

#[test]
fn heads_of_another_table_stay(rt: HostRuntime) {
    let mut heads = SymbolTable::new(rt.alloc(), 1);
    let mut other = SymbolTable::new(rt.alloc(), 3);
    let mut store = TermStore::new(rt.alloc(), 2);
    let (x, _) = fill(&rt, &mut store, &mut heads);
    let f = Symbol::intern(&mut other, "f").expect(&rt, "a symbol");
    let did = store.collect_releasing(&[x], &mut other);
    is_equal(&rt, told(did), Some((1, 0, 4)));
    is_equal(&rt, other.count(&f), Some(1));
    is_equal(&rt, heads.len(), 3);
    drop_all(store, heads);
}
