//! Each public call of tables and symbols, where it succeeds.
use crate::steps::{
    clone, decrease, drop_table, intern_again, intern_new, intern_preset, is_equal, is_preset,
    keeps, limited_table, new_table, release,
};
use intern_fixtures::{a_map_tells_apart, a_set_tells_apart};
use ra_ap_intern::{Limits, Symbol, SymbolTable, laws, sym};
use std::process::Abort;

#[test]
fn tables(rt: HostRuntime) {
    let alloc = rt.alloc();
    let mut table = new_table(alloc, 7);
    is_new(&rt, &table, 7);
    let _ = intern_new(&rt, &mut table, "x", 1);

    let mut limited = limited_table(alloc, 8, Limits { top: 1, numbers: 1 });
    is_new(&rt, &limited, 8);
    let _ = intern_new(&rt, &mut limited, "y", 1);
    drop_table(table);
    drop_table(limited);
}

/// The table has this number, and keeps no text.
fn is_new(rt: &impl Abort, table: &SymbolTable, number: u64) {
    is_equal(rt, table.number(), number);
    keeps(rt, table, 0);
}

#[test]
fn symbols(rt: HostRuntime) {
    let mut table = new_table(rt.alloc(), 1);
    is_preset(&rt, &table, &Symbol::empty(), "");
    let x = intern_new(&rt, &mut table, "x", 1);
    let mut second = clone(&rt, &mut table, &x, Some(2));
    assert!(rt; second != Symbol::empty());
    decrease(&rt, &mut table, &mut second, Some(1));
    release(&rt, &mut table, x, 0);
    drop_table(table);
}

#[test]
fn a_set_of_symbols(rt: HostRuntime) {
    let alloc = rt.alloc();
    let mut table = new_table(alloc, 1);
    let x = intern_new(&rt, &mut table, "x", 1);
    let again = intern_again(&rt, &mut table, "x", 2);
    is_equal(
        &rt,
        a_set_tells_apart(alloc, x, again, &sym::default),
        Ok(true),
    );
    drop_table(table);
}

#[test]
fn a_map_by_symbols(rt: HostRuntime) {
    let alloc = rt.alloc();
    let mut table = new_table(alloc, 1);
    let preset = intern_preset(&rt, &mut table, "default", 0);
    let y = intern_new(&rt, &mut table, "y", 1);
    is_equal(
        &rt,
        a_map_tells_apart(alloc, preset, &sym::default, &y),
        Ok(true),
    );
    drop_table(table);
}

#[test]
fn laws_are_callable() {
    laws::symbols_tell_texts();
    laws::handles_tell_texts();
    laws::symbols_are_what_they_name();
    laws::symbol_references_are_what_they_name();
    laws::owed_symbols_are_what_they_name();
    laws::symbols_are_ordered_as_what_they_name();
    laws::a_symbol_reads_its_text();
    laws::a_presets_text_gives_the_preset();
    laws::presets_are_in_no_table();
    laws::a_texts_birth_is_given_once();
    laws::integers_are_read_back();
    laws::a_gone_text_stays_gone();
    laws::a_stored_text_is_found();
    laws::constants_have_their_texts();
}
