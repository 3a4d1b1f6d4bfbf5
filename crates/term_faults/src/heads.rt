//! Terms whose head a table keeps: `TermStore::term_of` and `TermStore::collect_releasing`.
use crate::collecting::tells;
use crate::fault::{Fault, ensure};
use crate::making::{try_leaf, try_term};
use crate::marks::mark;
use crate::reading::writes;
use intern_terms::{TermRef, TermStore};
use ra_ap_intern::{Collected, Refusal, Symbol, SymbolRef, SymbolTable};
use std::alloc::Global;

/// Stores and writes a term whose head a table keeps, and another over it, and collects both with
/// their head.
pub(crate) fn check_kept_head(rt: &(impl Print + Eprint), alloc: Global) -> Result<(), Fault> {
    let mut store = TermStore::new(alloc, 3);
    let mut table = SymbolTable::new(alloc, 5);
    let term = make_kept(rt, &mut store, &mut table)?;
    writes(rt, &store, term, &table, 9, "a head")?;
    writes(rt, &store, term, &SymbolTable::new(alloc, 6), 9, "#5.0")?;
    check_referenced(rt, &mut store, term, &mut table)?;
    let did = collect_releasing(rt, &mut store, term, &mut table)?;
    tells(did, (0, 0, 2))?;
    println!(rt; "TermStore::collect_releasing: {}", did.removed)?;
    ensure(table.is_empty(), "a head stays without its term")
}

// Stores a term over another one, whose head it has too, and finds it again.
fn check_referenced(
    rt: &impl Eprint,
    store: &mut TermStore,
    term: TermRef,
    table: &mut SymbolTable,
) -> Result<(), Fault> {
    let Some(head) = store.head(term).map(Symbol::as_ref) else {
        return Err(Fault("a term that was stored has no head"));
    };
    let over = make_referenced(rt, store, term, head, table)?;
    mark(rt, "takes none: TermStore::term_of");
    let again = store.term_of(head, &[term], table)?;
    mark(rt, "prepares");
    ensure(
        again == over && store.len() == 2 && head.count(table) == Some(2),
        "a term of a referenced head is not what was stored",
    )
}

// Stores a term of a referenced head over another. Where that is refused, nothing has changed.
fn make_referenced(
    rt: &impl Eprint,
    store: &mut TermStore,
    term: TermRef,
    head: SymbolRef,
    table: &mut SymbolTable,
) -> Result<TermRef, Fault> {
    mark(rt, "asks: TermStore::term_of");
    let first = store.term_of(head, &[term], table);
    if let Ok(over) = first {
        mark(rt, "prepares");
        return Ok(over);
    }
    mark(rt, "refused: TermStore::term_of");
    ensure(
        first == Err(Refusal::OutOfMemory) && store.len() == 1 && head.count(table) == Some(1),
        "a refused term of a referenced head changed something",
    )?;
    Ok(store.term_of(head, &[term], table)?)
}

// Collects the terms with their head. Where that is refused, both are as they were.
fn collect_releasing(
    rt: &impl Eprint,
    store: &mut TermStore,
    term: TermRef,
    table: &mut SymbolTable,
) -> Result<Collected, Fault> {
    mark(rt, "asks: TermStore::collect_releasing");
    let first = store.collect_releasing(&[], table);
    if let Ok(did) = first {
        mark(rt, "prepares");
        return Ok(did);
    }
    mark(rt, "refused: TermStore::collect_releasing");
    ensure(
        store.contains(term) && store.len() == 2 && table.len() == 1,
        "a refused collection changed something",
    )?;
    Ok(store.collect_releasing(&[], table)?)
}

fn make_kept(
    rt: &impl Eprint,
    store: &mut TermStore,
    table: &mut SymbolTable,
) -> Result<TermRef, Fault> {
    let head = intern(table)?;
    let term = make_over(rt, store, table, &head)?;
    head.release(table)?;
    Ok(term)
}

// Stores a term with a copy of a head.
fn make_over(
    rt: &impl Eprint,
    store: &mut TermStore,
    table: &mut SymbolTable,
    head: &Symbol,
) -> Result<TermRef, Fault> {
    let first = try_leaf(rt, store, head.clone(table)?, head)?;
    if let Some(term) = first {
        return Ok(term);
    }
    // The head that came back was dropped, and kept its count.
    head.as_ref().decrease_refcount(table)?;
    let second = try_term(store, head.clone(table)?, &[], head)?;
    second.ok_or(Fault("a term was refused twice"))
}

// The symbol, at the second try where the first is refused.
fn intern(table: &mut SymbolTable) -> Result<Symbol, Fault> {
    let first = Symbol::intern(table, "a head");
    if let Ok(symbol) = first {
        return Ok(symbol);
    }
    Ok(Symbol::intern(table, "a head")?)
}
