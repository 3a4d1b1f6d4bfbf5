//! A store whose terms are hashed under random keys, and so are the texts of its heads.
use crate::texts::is_equal;
use intern_terms::{TermRef, TermStore};
use ra_ap_intern::{Limits, Symbol, SymbolTable};
use std::hash::RandomState;
use std::process::Abort;

/// The term with this head over these arguments.
fn term(
    rt: &impl Abort,
    store: &mut TermStore<RandomState>,
    heads: &mut SymbolTable<RandomState>,
    head: &str,
    args: &[TermRef],
) -> TermRef {
    let head = Symbol::intern(heads, head).expect(rt, "a symbol");
    let (term, back) = store.term(head, args).ok().expect(rt, "a term");
    drop(back);
    term
}

/// A term is written so.
fn is_written(
    rt: &impl Abort,
    store: &TermStore<RandomState>,
    heads: &SymbolTable<RandomState>,
    term: TermRef,
    expected: &str,
) {
    let text = store.written(term, heads, 100).expect(rt, "memory");
    assert_eq!(rt; text.as_str(), expected);
}

/// Stores `x`, `f(x)` and `g(f(x), x)`, each twice.
fn fill(
    rt: &impl Abort,
    store: &mut TermStore<RandomState>,
    heads: &mut SymbolTable<RandomState>,
) -> (TermRef, TermRef) {
    let x = term(rt, store, heads, "x", &[]);
    let f = term(rt, store, heads, "f", &[x]);
    let g = term(rt, store, heads, "g", &[f, x]);
    is_equal(rt, term(rt, store, heads, "x", &[]) == x, true);
    is_equal(rt, term(rt, store, heads, "f", &[x]) == f, true);
    is_equal(rt, term(rt, store, heads, "g", &[f, x]) == g, true);
    is_equal(rt, store.len(), 3);
    (f, g)
}

/// A collection that keeps one term leaves its two, and its counted owner reads them.
fn collect(rt: &impl Abort, store: &mut TermStore<RandomState>, f: TermRef, g: TermRef) {
    let kept = store.keep(f).expect(rt, "there");
    store.collect().expect(rt, "memory");
    is_equal(rt, (store.len(), store.contains(g)), (2, false));
    is_equal(
        rt,
        store.args(kept.as_ref()).map(|args| args.len()),
        Some(1),
    );
    kept.release(store).ok().expect(rt, "counted");
}

fn drop_all(_store: TermStore<RandomState>, _heads: SymbolTable<RandomState>) {}

#[test]
fn terms_under_random_keys(rt: HostRuntime) {
    let alloc = rt.alloc();
    let keys = RandomState::new(&rt).expect(&rt, "keys");
    let mut store = TermStore::with_hasher(alloc, 1, Limits::MAX, keys);
    let mut heads = SymbolTable::with_hasher(alloc, 2, Limits::MAX, keys);
    let (f, g) = fill(&rt, &mut store, &mut heads);
    is_written(&rt, &store, &heads, g, "g(f(x), x)");
    collect(&rt, &mut store, f, g);
    drop_all(store, heads);
}
