//! How symbols are written and ordered.
use crate::steps::{drop_table, intern_new, is_equal, new_table, release};
use ra_ap_intern::{SymbolRef, sym};

#[test]
fn symbols_are_shown(rt: HostRuntime) {
    let alloc = rt.alloc();
    let mut table = new_table(alloc, 3);
    let x = intern_new(&rt, &mut table, "x y", 1);
    let shown: Result<_, _> = format!(in alloc; "{} {:?}", x.display(&table), x);
    is_equal(
        &rt,
        shown.expect(&rt, "memory").as_str(),
        "x y Symbol(#3.0)",
    );
    let gone = SymbolRef::from(&x);
    assert!(rt; gone == x.as_ref());
    release(&rt, &mut table, x, 0);
    let shown: Result<_, _> = format!(in alloc; "{} {:?}", gone.display(&table), gone);
    is_equal(
        &rt,
        shown.expect(&rt, "memory").as_str(),
        "#3.0 Symbol(#3.0)",
    );
    drop_table(table);
}

#[test]
fn presets_are_shown_by_their_texts(rt: HostRuntime) {
    let alloc = rt.alloc();
    let mut table = new_table(alloc, 1);
    let shown: Result<_, _> = format!(in alloc; "{} {:?}", sym::Clone.display(&table), sym::Clone);
    is_equal(
        &rt,
        shown.expect(&rt, "memory").as_str(),
        "Clone Symbol(\"Clone\")",
    );
    let x = intern_new(&rt, &mut table, "x y", 1);
    assert!(rt; sym::Clone < x);
    drop_table(table);
}
