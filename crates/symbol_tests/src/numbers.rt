//! Symbols of numbers and of generated names.
use crate::steps::{
    drop_table, free, generated, integer, intern, intern_again, intern_new, intern_preset,
    is_equal, is_stored, keeps, new_table, release, writes,
};
use ra_ap_intern::{Symbol, SymbolTable, sym};
use std::process::Abort;

#[test]
fn numbers_are_read(rt: HostRuntime) {
    let mut table = new_table(rt.alloc(), 1);
    for (text, number) in [
        ("007", Some(7)),
        ("+5", Some(5)),
        ("18446744073709551616", None),
        ("", None),
        ("18446744073709551615", Some(18_446_744_073_709_551_615)),
        ("+007", Some(7)),
        ("00000000000000000000001", Some(1)),
        ("+", None),
        ("++1", None),
        ("-0", None),
        ("1 ", None),
        ("+0", Some(0)),
    ] {
        is_read_as(&rt, &mut table, text, number);
    }
    writes(&rt, &table, &sym::_0_u8, None);
    let _ = generated(&rt, &mut table, 5);
    drop_table(table);
}

/// The symbol of this text writes this number, or none.
fn is_read_as(rt: &impl Abort, table: &mut SymbolTable, text: &str, number: Option<usize>) {
    let symbol = intern(rt, table, text);
    writes(rt, table, &symbol, number);
}

#[test]
fn a_number_with_a_sign_is_another_symbol(rt: HostRuntime) {
    let mut table = new_table(rt.alloc(), 1);
    let signed = intern_new(&rt, &mut table, "+0", 1);
    let zero = integer(&rt, &mut table, 0);
    assert!(rt; signed != zero);
    writes(&rt, &table, &signed, Some(0));
    writes(&rt, &table, &zero, Some(0));
    keeps(&rt, &table, 1);
    drop_table(table);
}

#[test]
fn numbers_up_to_255_are_presets(rt: HostRuntime) {
    let mut table = new_table(rt.alloc(), 1);
    let number = integer(&rt, &mut table, 255);
    assert!(rt; number == intern_preset(&rt, &mut table, "255", 0));
    for n in 0..256 {
        has_two_presets(&rt, &mut table, n);
    }
    keeps(&rt, &table, 0);
    drop_table(table);
}

/// The symbol and the generated name of the number are two presets.
fn has_two_presets(rt: &impl Abort, table: &mut SymbolTable, n: usize) {
    let number = integer(rt, table, n);
    is_equal(rt, (n, table.count(&number)), (n, None));
    let name = generated(rt, table, n);
    is_equal(rt, (n, table.count(&name)), (n, None));
    assert!(rt; name != number);
}

#[test]
fn numbers_above_255_are_stored(rt: HostRuntime) {
    let mut table = new_table(rt.alloc(), 1);
    let number = integer(&rt, &mut table, 256);
    let again = integer(&rt, &mut table, 256);
    assert!(rt; number == again);
    is_stored(&rt, &table, &number, "256", 2);
    keeps(&rt, &table, 1);

    let name = generated(&rt, &mut table, 256);
    is_stored(&rt, &table, &name, "<ra@gennew>256", 1);
    assert!(rt; name == intern_again(&rt, &mut table, "<ra@gennew>256", 2));
    keeps(&rt, &table, 2);
    drop_table(table);
}

#[test]
fn the_largest_number_has_a_text(rt: HostRuntime) {
    let mut table = new_table(rt.alloc(), 1);
    let largest = 18_446_744_073_709_551_615;
    let number = integer(&rt, &mut table, largest);
    is_stored(&rt, &table, &number, "18446744073709551615", 1);
    has_length(&rt, &table, &number, 20);
    let name = generated(&rt, &mut table, largest);
    is_stored(&rt, &table, &name, "<ra@gennew>18446744073709551615", 1);
    has_length(&rt, &table, &name, 31);
    drop_table(table);
}

/// The symbol's text has this many bytes.
fn has_length(rt: &impl Abort, table: &SymbolTable, symbol: &Symbol, len: usize) {
    is_equal(rt, symbol.as_str(table).map(|text| text.len()), Some(len));
}

#[test]
fn the_end_of_the_numbered_presets(rt: HostRuntime) {
    let mut table = new_table(rt.alloc(), 1);
    let _ = intern_preset(&rt, &mut table, "255", 0);
    let _ = intern_new(&rt, &mut table, "256", 1);
    let _ = intern_preset(&rt, &mut table, "<ra@gennew>7", 1);
    let _ = intern_new(&rt, &mut table, "<ra@gennew>07", 2);
    drop_table(table);
}

#[test]
fn a_number_that_is_gone_is_not_read(rt: HostRuntime) {
    let mut table = new_table(rt.alloc(), 1);
    let number = integer(&rt, &mut table, 256);
    let mut again = integer(&rt, &mut table, 256);
    release(&rt, &mut table, number, 1);
    writes(&rt, &table, &again, Some(256));
    free(&rt, &mut table, &mut again, 0);
    writes(&rt, &table, &again, None);
    drop_table(table);
}
