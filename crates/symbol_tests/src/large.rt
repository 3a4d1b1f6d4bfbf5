//! Tables with many texts.
use crate::steps::{drop_table, intern_new, is_stored, keeps, new_table, release};
use ra_ap_intern::{Symbol, SymbolTable};
use std::alloc::Global;
use std::process::Abort;

#[test]
fn ten_thousand_texts_are_kept_apart(rt: HostRuntime) {
    let alloc = rt.alloc();
    let mut table = new_table(alloc, 1);
    let mut symbols = Vec::new(alloc);
    for k in 0..10_000 {
        symbols
            .push(intern_numbered(&rt, alloc, &mut table, k, k + 1))
            .expect(&rt, "memory");
    }
    keeps(&rt, &table, 10_000);
    for (k, symbol) in symbols.iter().enumerate() {
        is_numbered(&rt, alloc, &table, symbol, k);
    }
    for (symbol, left) in symbols.into_iter().zip((0..10_000).rev()) {
        release(&rt, &mut table, symbol, left);
    }
    keeps(&rt, &table, 0);
    drop_table(table);
}

/// Interns the text of this number, after which the table keeps this many texts.
fn intern_numbered(
    rt: &impl Abort,
    alloc: Global,
    table: &mut SymbolTable,
    k: usize,
    len: usize,
) -> Symbol {
    let text = format!(in alloc; "x{k}").expect(rt, "memory");
    intern_new(rt, table, text.as_str(), len)
}

/// The symbol reads the text of this number.
fn is_numbered(rt: &impl Abort, alloc: Global, table: &SymbolTable, symbol: &Symbol, k: usize) {
    let text = format!(in alloc; "x{k}").expect(rt, "memory");
    is_stored(rt, table, symbol, text.as_str(), 1);
}
