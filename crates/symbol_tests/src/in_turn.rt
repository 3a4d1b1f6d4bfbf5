//! Texts that are interned in turn by one call.
use crate::steps::{drop_table, is_equal, keeps, limited_table, new_table};
use intern_fixtures::refusal;
use ra_ap_intern::{Limits, Refusal, Symbol, SymbolTable};
use std::process::Abort;

/// The symbols read these texts, of which the table has these counts.
fn read(rt: &impl Abort, table: &SymbolTable, symbols: &[Symbol], texts: &[(&str, Option<u64>)]) {
    is_equal(rt, symbols.len(), texts.len());
    for (symbol, (text, count)) in symbols.iter().zip(texts) {
        is_equal(
            rt,
            (symbol.as_str(table), table.count(symbol)),
            (Some(*text), *count),
        );
    }
}

fn interns(rt: &impl Abort, table: &mut SymbolTable, texts: &[&str], symbols: &mut Vec<Symbol>) {
    assert!(rt; table.extend(texts, symbols).is_ok());
}

/// A text is refused for this reason.
fn refuses(
    rt: &impl Abort,
    table: &mut SymbolTable,
    texts: &[&str],
    symbols: &mut Vec<Symbol>,
    reason: Refusal,
) {
    let why = refusal(table.extend(texts, symbols)).expect(rt, "refused");
    is_equal(rt, why, reason);
}

#[test]
fn symbols_stand_behind_those_that_were_listed(rt: HostRuntime) {
    let mut table = new_table(rt.alloc(), 1);
    let mut symbols = Vec::new(rt.alloc());
    interns(&rt, &mut table, &["my_width", "Clone"], &mut symbols);
    interns(&rt, &mut table, &[], &mut symbols);
    interns(
        &rt,
        &mut table,
        &["my_height", "my_width", "my_width"],
        &mut symbols,
    );
    let texts = [
        ("my_width", Some(3)),
        ("Clone", None),
        ("my_height", Some(1)),
        ("my_width", Some(3)),
        ("my_width", Some(3)),
    ];
    read(&rt, &table, symbols.as_slice(), texts.as_slice());
    keeps(&rt, &table, 2);
    drop_table(table);
}

#[test]
fn symbols_before_a_refused_text_are_listed(rt: HostRuntime) {
    let limits = Limits { top: 2, numbers: 2 };
    let mut table = limited_table(rt.alloc(), 1, limits);
    let mut symbols = Vec::new(rt.alloc());
    let texts = ["my_width", "my_width", "my_width", "my_height"];
    refuses(
        &rt,
        &mut table,
        texts.as_slice(),
        &mut symbols,
        Refusal::CountFull,
    );
    keeps(&rt, &table, 1);
    let texts = ["my_height", "Clone", "my_depth", "my_height"];
    refuses(
        &rt,
        &mut table,
        texts.as_slice(),
        &mut symbols,
        Refusal::NumbersUsedUp,
    );
    let texts = [
        ("my_width", Some(2)),
        ("my_width", Some(2)),
        ("my_height", Some(1)),
        ("Clone", None),
    ];
    read(&rt, &table, symbols.as_slice(), texts.as_slice());
    keeps(&rt, &table, 2);
    drop_table(table);
}
