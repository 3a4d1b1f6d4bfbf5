//! A scope of numbers.
use crate::steps::is_equal;
use ra_ap_intern::SymbolTable;
use std::process::Abort;
use use_names::{Scope, keywords};

fn declare(rt: &impl Abort, scope: &mut Scope<u64>, name: &str, value: u64) {
    assert!(rt; scope.declare(name, value).is_ok());
}

/// This is what was declared last under the name.
fn finds(rt: &impl Abort, scope: &Scope<u64>, name: &str, value: Option<u64>) {
    is_equal(rt, scope.look_up(name).copied(), value);
}

#[test]
fn the_last_declaration_is_found(rt: HostRuntime) {
    let mut scope = Scope::new(rt.alloc(), 1);
    declare(&rt, &mut scope, "my_width", 3);
    declare(&rt, &mut scope, "self", 4);
    finds(&rt, &scope, "my_width", Some(3));
    finds(&rt, &scope, "self", Some(4));
    finds(&rt, &scope, "my_height", None);
    declare(&rt, &mut scope, "my_width", 5);
    finds(&rt, &scope, "my_width", Some(5));
    is_equal(&rt, scope.names.len(), 1);
}

#[test]
fn keywords_have_symbols(rt: HostRuntime) {
    let mut names = SymbolTable::new(rt.alloc(), 1);
    let words = ["unless", "self", "unless"];
    let symbols = keywords(rt.alloc(), &mut names, words.as_slice()).expect(&rt, "memory");
    for (symbol, word) in symbols.iter().zip(words) {
        is_equal(&rt, symbol.as_str(&names), Some(word));
    }
    // "self" is a preset, which no table keeps.
    is_equal(&rt, (symbols.len(), names.len()), (3, 1));
}
