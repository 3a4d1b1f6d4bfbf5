//! Texts that are presets, and texts that are nearly presets.
use crate::steps::{
    clone, decrease, drop_table, generated, gives, integer, intern_new, intern_preset, is_preset,
    keeps, limited_table, new_table, release, writes,
};
use ra_ap_intern::{Limits, Symbol, SymbolTable, sym};
use std::process::Abort;

static PRESETS: [(&str, Symbol); 8] = [
    ("unsafe", sym::unsafe_),
    ("", sym::_empty_sym),
    ("preserve-none", sym::rust_dash_preserve_dash_none),
    ("proc_macro", sym::proc_macro),
    ("proc-macro", sym::proc_dash_macro),
    ("clone", sym::clone),
    ("Clone", sym::Clone),
    ("__ra_fixup", sym::_ra_fixup_sym),
];

#[test]
fn texts_that_are_presets(rt: HostRuntime) {
    let mut table = new_table(rt.alloc(), 1);
    assert!(rt; Symbol::empty() == sym::_empty_sym);
    for (text, preset) in &PRESETS {
        gives(&rt, &mut table, text, preset);
        assert!(rt; preset.preset_text() == Some(text));
    }
    let zero = integer(&rt, &mut table, 0);
    gives(&rt, &mut table, "0", &zero);
    let name = generated(&rt, &mut table, 255);
    gives(&rt, &mut table, "<ra@gennew>255", &name);
    keeps(&rt, &table, 0);
    drop_table(table);
}

#[test]
fn presets_with_like_texts_differ(rt: HostRuntime) {
    assert!(rt; sym::proc_macro != sym::proc_dash_macro);
    assert!(rt; sym::clone != sym::Clone);
}

#[test]
fn texts_that_are_nearly_presets_are_stored(rt: HostRuntime) {
    let mut table = new_table(rt.alloc(), 1);
    for (len, text) in [
        (1, "rust-preserve-none"),
        (2, "unsafe_"),
        (3, "00"),
        (4, "256"),
        (5, "<ra@gennew>"),
    ] {
        let symbol = intern_new(&rt, &mut table, text, len);
        assert!(rt; symbol.preset_text().is_none());
    }
    drop_table(table);
}

#[test]
fn stored_texts_of_numbers(rt: HostRuntime) {
    let mut table = new_table(rt.alloc(), 1);
    let padded = intern_new(&rt, &mut table, "00", 1);
    assert!(rt; padded != integer(&rt, &mut table, 0));
    writes(&rt, &table, &padded, Some(0));
    let number = intern_new(&rt, &mut table, "256", 2);
    assert!(rt; number == integer(&rt, &mut table, 256));
    keeps(&rt, &table, 2);
    drop_table(table);
}

#[test]
fn presets_are_never_refused(rt: HostRuntime) {
    let limits = Limits { top: 1, numbers: 0 };
    let mut table = limited_table(rt.alloc(), 1, limits);
    for text in ["", "default", "255", "<ra@gennew>255"] {
        stays(&rt, &mut table, text);
    }
    let _ = integer(&rt, &mut table, 255);
    let _ = generated(&rt, &mut table, 255);
    keeps(&rt, &table, 0);
    drop_table(table);
}

/// Gives a preset up more often than it was had: it reads its text all the while.
fn stays(rt: &impl Abort, table: &mut SymbolTable, text: &str) {
    let preset = intern_preset(rt, table, text, 0);
    let mut second = clone(rt, table, &preset, None);
    release(rt, table, preset, 0);
    decrease(rt, table, &mut second, None);
    decrease(rt, table, &mut second, None);
    is_preset(rt, table, &second, text);
}
