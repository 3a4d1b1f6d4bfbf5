//! Look-ups that intern nothing, the texts of a table one after the other, and references.
use crate::steps::{
    drop_table, integer, intern_new, is_equal, is_stored, keeps, new_table, release,
};
use ra_ap_intern::{Name, Refusal, Symbol, SymbolTable, sym};
use std::process::Abort;

#[test]
fn look_ups(rt: HostRuntime) {
    let mut table = new_table(rt.alloc(), 1);
    finds(&rt, &table, "x", None);
    let x = intern_new(&rt, &mut table, "x", 1);
    finds(&rt, &table, "x", Some(&x));
    finds(&rt, &table, "Clone", Some(&sym::Clone));
    let number = integer(&rt, &mut table, 255);
    finds(&rt, &table, "255", Some(&number));
    finds(&rt, &table, "256", None);
    release(&rt, &mut table, x, 0);
    finds(&rt, &table, "x", None);
    drop_table(table);
}

/// A look-up of a text gives a reference to this symbol, or none.
fn finds(rt: &impl Abort, table: &SymbolTable, text: &str, symbol: Option<&Symbol>) {
    let found = table.get(text);
    assert!(rt; found == symbol.map(Symbol::as_ref));
    is_equal(
        rt,
        found.and_then(|found| found.as_str(table)),
        symbol.map(|_| text),
    );
}

#[test]
fn entries(rt: HostRuntime) {
    let mut table = new_table(rt.alloc(), 1);
    assert!(rt; table.is_empty());
    is_equal(&rt, table.iter().count(), 0);
    let x = intern_new(&rt, &mut table, "x", 1);
    let y = intern_new(&rt, &mut table, "y", 2);
    assert!(rt; !table.is_empty());
    is_equal(&rt, table.iter().count(), 2);
    gives(&rt, &table, &x, "x");
    gives(&rt, &table, &y, "y");
    drop_table(table);
}

/// Among the entries is one of this symbol, with this text.
fn gives(rt: &impl Abort, table: &SymbolTable, symbol: &Symbol, text: &str) {
    let wanted = symbol.as_ref();
    let mut found = false;
    for (reference, kept) in table {
        if reference == wanted {
            is_first(rt, found, kept, text);
            found = true;
        }
    }
    assert!(rt; found);
}

/// No other entry was found before this one, which keeps this text.
fn is_first(rt: &impl Abort, found: bool, kept: &str, text: &str) {
    assert!(rt; !found);
    is_equal(rt, kept, text);
}

#[test]
fn references(rt: HostRuntime) {
    let mut table = new_table(rt.alloc(), 1);
    let x = intern_new(&rt, &mut table, "x", 1);
    let reference = x.as_ref();
    let second = reference.to_owned(&mut table).expect(&rt, "counted");
    is_stored(&rt, &table, &second, "x", 2);
    keeps(&rt, &table, 1);
    let clone = sym::Clone
        .as_ref()
        .to_owned(&mut table)
        .expect(&rt, "a preset");
    assert!(rt; clone == sym::Clone);
    keeps(&rt, &table, 1);
    drop_table(table);
}

#[test]
fn references_by_name(rt: HostRuntime) {
    let mut table = new_table(rt.alloc(), 7);
    let x = intern_new(&rt, &mut table, "x", 1);
    let y = intern_new(&rt, &mut table, "y", 2);
    let name = y.name().expect(&rt, "an entry");
    assert!(rt; table.reference(name) == Ok(y.as_ref()));
    release(&rt, &mut table, x, 1);
    for (storage, birth, refusal) in [
        (7, 0, Refusal::Gone),
        (7, 2, Refusal::Gone),
        (6, 1, Refusal::Foreign),
        (8, 1, Refusal::Foreign),
    ] {
        assert!(rt; table.reference(Name { storage, birth }) == Err(refusal));
    }
    drop_table(table);
}

#[test]
fn references_that_stay(rt: HostRuntime) {
    let mut table = new_table(rt.alloc(), 1);
    let x = table.get_or_intern("x").expect(&rt, "interned");
    let second = Symbol::intern(&mut table, "x").expect(&rt, "interned");
    assert!(rt; second.as_ref() == x);
    is_stored(&rt, &table, &second, "x", 2);
    release(&rt, &mut table, second, 1);
    is_equal(&rt, x.as_str(&table), Some("x"));
    assert!(rt; table.get_or_intern("Clone") == Ok(sym::Clone.as_ref()));
    keeps(&rt, &table, 1);
    drop_table(table);
}
