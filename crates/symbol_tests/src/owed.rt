//! Symbols that must be released.
use crate::steps::{drop_table, intern_new, is_equal, is_stored, keeps, new_table};
use ra_ap_intern::{OwedSymbol, Refusal, Refused, SymbolRef, SymbolTable, sym};
use std::process::Abort;

/// Releases a symbol, after which the table keeps this many texts.
fn release(rt: &impl Abort, table: &mut SymbolTable, owed: OwedSymbol, len: usize) {
    match owed.release(table) {
        Ok(()) => keeps(rt, table, len),
        Err(Refused { why: _, back }) => {
            drop(back.into_symbol());
            panic!(rt; "it was not released");
        }
    }
}

/// Is refused a release for this reason. The symbol comes back.
fn not_released(
    rt: &impl Abort,
    table: &mut SymbolTable,
    owed: OwedSymbol,
    reason: Refusal,
) -> OwedSymbol {
    let symbol = owed.as_ref();
    match owed.release(table) {
        Ok(()) => panic!(rt; "it was released"),
        Err(Refused { why, back }) => {
            is_equal(rt, why, reason);
            is_equal(rt, back.as_ref(), symbol);
            back
        }
    }
}

#[test]
fn an_owed_symbol_has_the_calls_of_a_symbol(rt: HostRuntime) {
    let alloc = rt.alloc();
    let mut table = new_table(alloc, 3);
    let x = OwedSymbol::from(intern_new(&rt, &mut table, "x", 1));
    is_equal(&rt, x.as_str(&table), Some("x"));
    is_equal(&rt, SymbolRef::from(&x).name(), x.name());
    let shown: Result<_, _> = format!(in alloc; "{:?}", x);
    is_equal(
        &rt,
        shown.expect(&rt, "memory").as_str(),
        "Owed(Symbol(#3.0))",
    );

    let second = x.clone(&mut table).expect(&rt, "cloned");
    assert!(rt; x == second);
    is_equal(&rt, x.as_ref().count(&table), Some(2));
    release(&rt, &mut table, second, 1);
    let symbol = x.into_symbol();
    is_stored(&rt, &table, &symbol, "x", 1);
    release(&rt, &mut table, OwedSymbol::from(symbol), 0);
    drop_table(table);
}

#[test]
fn owed_symbols_are_ordered_as_their_symbols(rt: HostRuntime) {
    let mut table = new_table(rt.alloc(), 3);
    let x = OwedSymbol::from(intern_new(&rt, &mut table, "x", 1));
    let a = OwedSymbol::from(intern_new(&rt, &mut table, "a", 2));
    assert!(rt; x < a && x.as_ref() < a.as_ref());
    assert!(rt; a > x && a.as_ref() > x.as_ref());
    release(&rt, &mut table, x, 1);
    release(&rt, &mut table, a, 0);
    drop_table(table);
}

#[test]
fn a_refusal_gives_an_owed_symbol_back(rt: HostRuntime) {
    let alloc = rt.alloc();
    let mut table = new_table(alloc, 1);
    let mut other = new_table(alloc, 2);
    let x = OwedSymbol::from(intern_new(&rt, &mut table, "x", 1));
    is_equal(&rt, table.check(x.as_ref()), Ok(()));
    is_equal(&rt, other.check(x.as_ref()), Err(Refusal::Foreign));
    let x = not_released(&rt, &mut other, x, Refusal::Foreign);
    x.as_ref()
        .decrease_refcount(&mut table)
        .expect(&rt, "taken back");
    is_equal(&rt, table.check(x.as_ref()), Err(Refusal::Gone));
    let x = not_released(&rt, &mut table, x, Refusal::Gone);
    drop(x.into_symbol());

    // A preset has nothing to release, and is given up all the same.
    is_equal(&rt, other.check(sym::Clone.as_ref()), Ok(()));
    release(&rt, &mut other, OwedSymbol::from(sym::Clone), 0);
    drop_table(table);
    drop_table(other);
}
