//! Builds a term of great depth, each term the argument of the next, and walks it, writes it and
//! collects it: first while the last is kept, which keeps all, and then released.
//!
//! `tools/deep_chain` runs it on a small stack. No call, and no end of a value, may take stack for
//! each term of a path.
#![tactic(auto)]

use anyhow::Result;
use intern_terms::{TermRef, TermStore};
use ra_ap_intern::{Refusal, SymbolTable, sym};
use std::alloc::Global;

/// How many heads stand over the innermost term.
const DEPTH: usize = 100_000;

fn main(rt: HostRuntime) -> Result<()> {
    let alloc = rt.alloc();
    let mut store = TermStore::new(alloc, 1);
    let term = store_tower(&mut store)?;
    walk(&rt, &store, term)?;
    write(&rt, alloc, &store, term)?;
    let kept = store.keep(term)?;
    collect(&rt, &mut store)?;
    let released = kept.release(&mut store);
    released.map_err(|refused| refused.why)?;
    collect(&rt, &mut store)
}

// Stores a term without arguments, and then heads, each over the term before, and answers the last.
fn store_tower(store: &mut TermStore) -> Result<TermRef, Refusal> {
    let stored = store.term(sym::bool, &[]);
    let (mut last, _) = stored.map_err(|refused| refused.why)?;
    for _ in 0..DEPTH {
        let stored = store.term(sym::fn_, &[last]);
        (last, _) = stored.map_err(|refused| refused.why)?;
    }
    Ok(last)
}

// Walks, and prints how many terms that gave, and how many of them have the one before as argument.
fn walk(rt: &impl Print, store: &TermStore, term: TermRef) -> Result<()> {
    let terms = store.walk(&[term])?;
    let pairs = terms.iter().zip(terms.iter().skip(1));
    let ordered = pairs.filter(|(before, after)| is_over(store, **after, **before));
    println!(rt;
        "walked {}, each over the one before {}",
        terms.len(),
        ordered.count()
    )?;
    Ok(())
}

// Whether a term's only argument is this one.
fn is_over(store: &TermStore, term: TermRef, argument: TermRef) -> bool {
    store.args(term) == Some(&[argument])
}

// Writes, and prints how long the text is, and whether it begins and ends as it should.
fn write(rt: &impl Print, alloc: Global, store: &TermStore, term: TermRef) -> Result<()> {
    let table = SymbolTable::new(alloc, 2);
    let text = store.written(term, &table, DEPTH + 1)?;
    let text = text.as_str();
    let begins = text.starts_with("fn(fn(fn(");
    let ends = text.ends_with(")))") && text.contains("fn(bool))");
    println!(rt;
        "written in {} bytes, begins right {begins}, ends right {ends}",
        text.len()
    )?;
    Ok(())
}

// Collects, and prints what that did.
fn collect(rt: &impl Print, store: &mut TermStore) -> Result<()> {
    let did = store.collect()?;
    println!(rt;
        "visits {}, mark calls {}, removed {}",
        did.visits, did.mark_calls, did.removed
    )?;
    Ok(())
}
