//! Terms as texts, in full and cut off.
use crate::rows::{HERE, Row, Step, new_stage, play};
use crate::scene::{Scene, drop_scene, head, make_doubled, make_path};
use crate::texts::is_equal;
use ra_ap_intern::SymbolTable;
use std::alloc::{AllocError, Global};
use std::process::Abort;

/// Writes `f(x, g(y))`, which is made last.
const CUT_OFF: [Row; 11] = [
    (HERE, Step::New("x", &[], 0)),
    (HERE, Step::New("y", &[], 1)),
    (HERE, Step::New("g", &[1], 2)),
    (HERE, Step::New("f", &[0, 2], 3)),
    (HERE, Step::Writes(3, 0, "…")),
    (HERE, Step::Writes(3, 1, "f(…")),
    (HERE, Step::Writes(3, 2, "f(x, …")),
    (HERE, Step::Writes(3, 3, "f(x, g(…")),
    (HERE, Step::Writes(3, 4, "f(x, g(y))")),
    (HERE, Step::Writes(3, 5, "f(x, g(y))")),
    (HERE, Step::Writes(3, usize::MAX, "f(x, g(y))")),
];

#[test]
fn a_term_is_cut_off_after_so_many_terms(rt: HostRuntime) {
    play(&rt, rt.alloc(), &CUT_OFF);
}

const NO_ARGUMENTS: [Row; 3] = [
    (HERE, Step::New("x", &[], 0)),
    (HERE, Step::Writes(0, 0, "…")),
    (HERE, Step::Writes(0, 1, "x")),
];

#[test]
fn a_term_without_arguments_is_its_head(rt: HostRuntime) {
    play(&rt, rt.alloc(), &NO_ARGUMENTS);
}

/// Writes `f(g(x), g(x), x)`, which is made last.
const COUNTED_WHEREVER_THEY_STAND: [Row; 6] = [
    (HERE, Step::New("x", &[], 0)),
    (HERE, Step::New("g", &[0], 1)),
    (HERE, Step::New("f", &[1, 1, 0], 2)),
    (HERE, Step::Writes(2, 3, "f(g(x), …")),
    (HERE, Step::Writes(2, 5, "f(g(x), g(x), …")),
    (HERE, Step::Writes(2, 6, "f(g(x), g(x), x)")),
];

#[test]
fn shared_terms_are_counted_wherever_they_stand(rt: HostRuntime) {
    play(&rt, rt.alloc(), &COUNTED_WHEREVER_THEY_STAND);
}

const PRESETS: [Row; 4] = [
    (HERE, Step::New("7", &[], 0)),
    (HERE, Step::New("", &[0], 1)),
    (HERE, Step::New("self", &[0, 1], 2)),
    (HERE, Step::Writes(2, 9, "self(7, (7))")),
];

#[test]
fn presets_are_heads_of_no_table(rt: HostRuntime) {
    let mut stage = new_stage(&rt, rt.alloc());
    stage.play(&rt, &PRESETS);
    assert!(rt; stage.scene(&rt, HERE).table.is_empty());
}

/// Takes back each of so many counts of a text, which is interned once more: then the table has it
/// no longer.
fn forget(rt: &impl Abort, table: &mut SymbolTable, text: &str, counts: usize) {
    let mut symbol = head(rt, table, text);
    for _ in 0..counts {
        is_equal(rt, symbol.decrease_refcount(table), Ok(()));
    }
    let released = symbol.release(table).map_err(|refused| refused.why);
    is_equal(rt, released, Ok(()));
    assert!(rt; table.get(text).is_none());
}

const UNREAD_HEAD: [Row; 3] = [
    (HERE, Step::Writes(0, 9, "#1.0")),
    (HERE, Step::New("f", &[0], 1)),
    (HERE, Step::Writes(1, 9, "f(#1.0)")),
];

#[test]
fn a_head_that_the_table_cannot_read_is_shown_by_its_name(rt: HostRuntime) {
    let mut stage = new_stage(&rt, rt.alloc());
    stage.play(&rt, &[(HERE, Step::New("x", &[], 0))]);
    forget(&rt, &mut stage.scene(&rt, HERE).table, "x", 2);
    stage.play(&rt, &UNREAD_HEAD);
    stage.scene(&rt, HERE).table = SymbolTable::new(rt.alloc(), 5);
    stage.play(&rt, &[(HERE, Step::Writes(1, 9, "#1.1(#1.0)"))]);
}

#[test]
fn a_term_that_is_gone_is_shown_by_its_name(rt: HostRuntime) {
    let mut scene = Scene::new(rt.alloc(), 3);
    let term = make_path(&rt, &mut scene, 8);
    scene.writes(&rt, term, 9, "g(g(g(g(g(g(g(x)))))))");
    scene.collects(&rt, (0, 0, 8));
    scene.writes(&rt, term, 9, "#3.7");
    scene.writes(&rt, term, 1, "#3.7");
    scene.writes(&rt, term, 0, "…");
    drop_scene(scene);
}

#[test]
fn a_term_of_another_store_is_shown_by_its_name(rt: HostRuntime) {
    let mut scene = Scene::new(rt.alloc(), 3);
    let mut other = Scene::new(rt.alloc(), 4);
    let term = make_path(&rt, &mut scene, 8);
    let _ = make_path(&rt, &mut other, 8);
    other.writes(&rt, term, 9, "#3.7");
    drop_scene(scene);
    drop_scene(other);
}

#[test]
fn a_term_of_many_paths_is_cut_off(rt: HostRuntime) {
    let mut scene = Scene::new(rt.alloc(), 3);
    let term = make_doubled(&rt, &mut scene);
    let text = first_heads(rt.alloc()).expect(&rt, "memory");
    scene.writes(&rt, term, 66, text.as_str());
    let written = scene.written(&rt, term, 10_000);
    assert!(rt; written.as_str().ends_with("…"));
    drop_scene(scene);
}

/// The first 66 heads of that term.
fn first_heads(alloc: Global) -> Result<String, AllocError> {
    let mut text = String::new(alloc);
    for _ in 1..65 {
        text.push_str("f(")?;
    }
    text.push_str("x, x), …")?;
    Ok(text)
}
