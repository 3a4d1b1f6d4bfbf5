//! Counts of stored texts.
use crate::steps::{
    clone, decrease, drop_table, free, intern_again, intern_new, intern_preset, is_equal,
    is_preset, is_stored, keeps, limited_table, new_table, not_cloned, not_decreased, not_interned,
    not_released, reads_nothing, release,
};
use ra_ap_intern::{Limits, Refusal, sym};

#[test]
fn the_last_count_taken_back_frees_the_text(rt: HostRuntime) {
    let mut table = new_table(rt.alloc(), 1);
    let mut x = intern_new(&rt, &mut table, "x", 1);
    free(&rt, &mut table, &mut x, 0);
    not_decreased(&rt, &mut table, &mut x, Refusal::Gone);
    drop_table(table);
}

#[test]
fn a_preset_has_no_count_to_take_back(rt: HostRuntime) {
    let mut table = new_table(rt.alloc(), 1);
    let mut preset = sym::default;
    decrease(&rt, &mut table, &mut preset, None);
    decrease(&rt, &mut table, &mut preset, None);
    is_preset(&rt, &table, &preset, "default");
    drop_table(table);
}

#[test]
fn a_full_count_and_used_up_births_refuse(rt: HostRuntime) {
    let limits = Limits { top: 1, numbers: 2 };
    let mut table = limited_table(rt.alloc(), 1, limits);
    let mut s = intern_new(&rt, &mut table, "x", 1);
    not_interned(&rt, &mut table, "x", Refusal::CountFull);
    not_cloned(&rt, &mut table, &s, Refusal::CountFull);
    free(&rt, &mut table, &mut s, 0);

    let t = intern_new(&rt, &mut table, "x", 1);
    assert!(rt; s != t);
    not_interned(&rt, &mut table, "y", Refusal::NumbersUsedUp);
    let _ = intern_preset(&rt, &mut table, "isize", 1);
    let s = not_released(&rt, &mut table, s, Refusal::Gone);
    reads_nothing(&rt, &table, &s);
    is_stored(&rt, &table, &t, "x", 1);
    drop_table(table);
}

#[test]
fn a_freed_text_is_born_anew(rt: HostRuntime) {
    let mut table = new_table(rt.alloc(), 1);
    let a = intern_new(&rt, &mut table, "v", 1);
    let b = clone(&rt, &mut table, &a, Some(2));
    let mut stale = clone(&rt, &mut table, &a, Some(3));
    decrease(&rt, &mut table, &mut stale, Some(2));
    release(&rt, &mut table, a, 1);
    is_stored(&rt, &table, &stale, "v", 1);
    release(&rt, &mut table, b, 0);
    reads_nothing(&rt, &table, &stale);

    let c = intern_new(&rt, &mut table, "v", 1);
    assert!(rt; stale != c);
    reads_nothing(&rt, &table, &stale);
    drop_table(table);
}

#[test]
fn a_symbol_let_fall_leaves_its_count(rt: HostRuntime) {
    let mut table = new_table(rt.alloc(), 1);
    let fallen = intern_new(&rt, &mut table, "x", 1);
    drop(fallen);
    keeps(&rt, &table, 1);
    let mut x = intern_again(&rt, &mut table, "x", 2);
    is_equal(&rt, x.as_ref().count(&table), Some(2));
    decrease(&rt, &mut table, &mut x, Some(1));
    release(&rt, &mut table, x, 0);
    drop_table(table);
}
