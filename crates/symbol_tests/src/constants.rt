//! Every constant, with its text.
mod texts;

use crate::steps::{drop_table, gives, keeps, new_table};
use ra_ap_intern::{Symbol, SymbolTable};
use std::process::Abort;
use texts::finds_all;

#[test]
fn the_text_of_each_constant_gives_it(rt: HostRuntime) {
    let mut table = new_table(rt.alloc(), 1);
    finds_all(&rt, &mut table);
    keeps(&rt, &table, 0);
    drop_table(table);
}

/// The text of each constant of this part gives it.
fn finds_each(rt: &impl Abort, table: &mut SymbolTable, part: &[(&str, Symbol)]) {
    for (text, constant) in part {
        gives(rt, table, text, constant);
    }
}
