//! A test of the Rust crate, over a table.
use crate::steps::{
    clone, drop_table, intern_again, intern_new, intern_preset, is_equal, keeps, new_table, release,
};
use ra_ap_intern::{Symbol, SymbolTable};
use std::alloc::Global;
use std::process::Abort;

#[test]
fn smoke_test(rt: HostRuntime) {
    let alloc = rt.alloc();
    let mut table = new_table(alloc, 1);
    let _ = intern_preset(&rt, &mut table, "isize", 0);
    let hello = intern_new(&rt, &mut table, "hello", 1);
    let world = intern_new(&rt, &mut table, "world", 2);
    let second_world = clone(&rt, &mut table, &world, Some(2));
    let bang = intern_new(&rt, &mut table, "!", 3);
    two_marks_come_and_go(&rt, &mut table);

    let third_world = a_preset_comes_and_goes(&rt, alloc, &mut table, [&hello, &world, &bang]);
    two_words_are_printed(&rt, alloc, &table, [&hello, &world, &bang]);
    release(&rt, &mut table, third_world, 3);
    release(&rt, &mut table, second_world, 3);
    release(&rt, &mut table, hello, 2);
    release(&rt, &mut table, world, 1);
    release(&rt, &mut table, bang, 0);
    drop_table(table);
}

fn two_marks_come_and_go(rt: &impl Abort, table: &mut SymbolTable) {
    let question = intern_new(rt, table, "?", 4);
    let second_bang = intern_again(rt, table, "!", 2);
    keeps(rt, table, 4);
    release(rt, table, second_bang, 4);
    release(rt, table, question, 3);
}

/// Interns a preset, makes a third symbol of "world", prints a line, and releases the preset.
fn a_preset_comes_and_goes(
    rt: &impl Abort,
    alloc: Global,
    table: &mut SymbolTable,
    words: [&Symbol; 3],
) -> Symbol {
    let default = intern_preset(rt, table, "default", 3);
    let third_world = clone(rt, table, words[1], Some(3));
    keeps(rt, table, 3);
    three_words_are_printed(rt, alloc, table, &default, words);
    release(rt, table, default, 3);
    third_world
}

fn three_words_are_printed(
    rt: &impl Abort,
    alloc: Global,
    table: &SymbolTable,
    default: &Symbol,
    [hello, world, bang]: [&Symbol; 3],
) {
    let default = text(rt, table, default);
    let hello = text(rt, table, hello);
    let world = text(rt, table, world);
    let bang = text(rt, table, bang);
    let line = format!(in alloc; "{hello} {default} {world}{bang}").expect(rt, "memory");
    is_equal(rt, line.as_str(), "hello default world!");
}

fn two_words_are_printed(
    rt: &impl Abort,
    alloc: Global,
    table: &SymbolTable,
    [hello, world, bang]: [&Symbol; 3],
) {
    let hello = text(rt, table, hello);
    let world = text(rt, table, world);
    let bang = text(rt, table, bang);
    let line = format!(in alloc; "{hello} {world}{bang}").expect(rt, "memory");
    is_equal(rt, line.as_str(), "hello world!");
}

/// The symbol's text.
fn text<'a>(rt: &impl Abort, table: &'a SymbolTable, symbol: &Symbol) -> &'a str {
    symbol.as_str(table).expect(rt, "the symbol has a text")
}
