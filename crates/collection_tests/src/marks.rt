//! Marks outside collections.
ghost use Rattle.std.specs.Prelude.{◌≡◌, true};

use crate::kinds::Outer;
use crate::nodes::{intern_leaf, intern_owned, registers_nodes};
use crate::outers::{Outers, a_value_over_a_slice, drop_outers, registers_outers};
use crate::steps::{collects_by, drop_collector, has_len, is_equal, own};
use crate::texts::intern_text;
use intern_fixtures::{GcString, NodeSlice, StringSlice, drop_values, new_values};
use ra_ap_intern::{
    GarbageCollector, GcInternedSliceVisit, GcInternedVisit, Internable, InternedRef,
    InternedSliceRef, Name,
};
use std::alloc::Global;
use std::ops::ControlFlow;
use std::process::Abort;

/// What a mark call answers that marks.
const MARKED: ControlFlow<()> = ControlFlow::Continue(());

/// What a mark call answers that marks nothing.
const NOT_MARKED: ControlFlow<()> = ControlFlow::Break(());

/// Marks a value, which is answered thus.
fn marks<T: Internable>(
    rt: &impl Abort,
    gc: &mut GarbageCollector,
    reference: InternedRef<T>,
    answer: ControlFlow<()>,
)
    requires { T.Internable.USE_GC ≡ true }
{
    is_equal(rt, gc.mark_interned_alive(reference), answer);
}

/// Marks a slice, which is answered thus.
fn marks_slice(
    rt: &impl Abort,
    gc: &mut GarbageCollector,
    slice: InternedSliceRef<StringSlice>,
    answer: ControlFlow<()>,
) {
    is_equal(rt, gc.mark_interned_slice_alive(slice), answer);
}

/// There were this many visits, and this many mark calls.
fn has_tallies(rt: &impl Abort, gc: &GarbageCollector, tallies: (usize, u64)) {
    is_equal(rt, (gc.visits(), gc.mark_calls()), tallies);
}

/// A collector that has registered a value over a slice of which only the value is owned, with
/// references to both.
fn a_registered_value_over_a_slice(
    rt: &impl Abort,
    alloc: Global,
) -> (
    GarbageCollector,
    Outers,
    InternedRef<Outer>,
    InternedSliceRef<StringSlice>,
) {
    let (mut family, outer, inner) = a_value_over_a_slice(rt, alloc);
    let _ = own(rt, &mut family.second, outer);
    let mut gc = GarbageCollector::new(alloc);
    registers_outers(rt, &mut gc, &family);
    (gc, family, outer, inner)
}

#[test]
fn a_mark_call_marks_what_is_registered_and_not_counted(rt: HostRuntime) {
    let alloc = rt.alloc();
    let (mut gc, family, outer, inner) = a_registered_value_over_a_slice(&rt, alloc);
    let text = a_text_outside(&rt, alloc);
    marks_four_times(&rt, &mut gc, outer, inner, text);
    assert!(rt; gc.is_marked(inner.name()));
    assert!(rt; !gc.is_marked(outer.name()));
    assert!(rt; !gc.is_marked(text.name()));
    drop_outers(family);
    drop_collector(gc);
}

/// A reference to a text of a storage outside.
fn a_text_outside(rt: &impl Abort, alloc: Global) -> InternedRef<GcString> {
    let mut storage = new_values(alloc, 9);
    let text = intern_text(rt, alloc, &mut storage, "abc", 0);
    drop_values(storage);
    text
}

/// Marks the slice twice, the value over it, and a text of a storage outside. Only the first call
/// marks.
fn marks_four_times(
    rt: &impl Abort,
    gc: &mut GarbageCollector,
    outer: InternedRef<Outer>,
    inner: InternedSliceRef<StringSlice>,
    text: InternedRef<GcString>,
) {
    marks_slice(rt, gc, inner, MARKED);
    marks_slice(rt, gc, inner, NOT_MARKED);
    marks(rt, gc, outer, NOT_MARKED);
    marks(rt, gc, text, NOT_MARKED);
    has_tallies(rt, gc, (0, 4));
}

#[test]
fn a_registration_forgets_all_marks(rt: HostRuntime) {
    let alloc = rt.alloc();
    let (mut gc, family, outer, inner) = a_registered_value_over_a_slice(&rt, alloc);
    let text = a_text_outside(&rt, alloc);
    marks_four_times(&rt, &mut gc, outer, inner, text);
    registers_outers(&rt, &mut gc, &family);
    begins_anew(&rt, &mut gc, outer, inner, text);
    drop_outers(family);
    drop_collector(gc);
}

/// Nothing is marked, and there were no visits and no mark calls. The slice can be marked again,
/// and the text of a storage outside still can't.
fn begins_anew(
    rt: &impl Abort,
    gc: &mut GarbageCollector,
    outer: InternedRef<Outer>,
    inner: InternedSliceRef<StringSlice>,
    text: InternedRef<GcString>,
) {
    none_is_marked(rt, gc, &[inner.name(), outer.name(), text.name()]);
    has_tallies(rt, gc, (0, 0));
    marks_slice(rt, gc, inner, MARKED);
    marks(rt, gc, text, NOT_MARKED);
    assert!(rt; !gc.is_marked(text.name()));
}

/// No name is marked.
fn none_is_marked(rt: &impl Abort, gc: &GarbageCollector, names: &[Name]) {
    for name in names {
        assert!(rt; !gc.is_marked(*name));
    }
}

#[test]
fn nothing_is_marked_before_a_registration(rt: HostRuntime) {
    let alloc = rt.alloc();
    let (family, _, inner) = a_value_over_a_slice(&rt, alloc);
    let mut gc = GarbageCollector::new(alloc);
    marks_slice(&rt, &mut gc, inner, NOT_MARKED);
    has_tallies(&rt, &gc, (0, 1));
    assert!(rt; !gc.is_marked(inner.name()));
    drop_outers(family);
    drop_collector(gc);
}

#[test]
fn a_visit_marks_each_declared_child_in_turn(rt: HostRuntime) {
    let alloc = rt.alloc();
    let mut storage = new_values(alloc, 1);
    let child = intern_leaf(&rt, alloc, &mut storage, 0, 0);
    let node = intern_owned(&rt, alloc, &mut storage, &[child, child], 1);
    let mut gc = GarbageCollector::new(alloc);
    registers_nodes(&rt, &mut gc, &storage);
    let value = node.get(&storage).expect(&rt, "stored");
    value.visit_with(&mut gc);
    has_tallies(&rt, &gc, (0, 2));
    assert!(rt; gc.is_marked(child.name()));
    drop_values(storage);
    drop_collector(gc);
}

#[test]
fn a_visit_of_a_slice_marks_each_item_in_turn(rt: HostRuntime) {
    let alloc = rt.alloc();
    let mut storage = new_values(alloc, 1);
    let child = intern_leaf(&rt, alloc, &mut storage, 0, 0);
    let mut gc = GarbageCollector::new(alloc);
    registers_nodes(&rt, &mut gc, &storage);
    NodeSlice::visit_header(&5, &mut gc);
    has_tallies(&rt, &gc, (0, 0));
    NodeSlice::visit_slice(&[child, child], &mut gc);
    has_tallies(&rt, &gc, (0, 2));
    assert!(rt; gc.is_marked(child.name()));
    drop_values(storage);
    drop_collector(gc);
}

#[test]
fn a_collection_forgets_the_marks_before_it(rt: HostRuntime) {
    let alloc = rt.alloc();
    let mut storage = new_values(alloc, 1);
    let node = intern_leaf(&rt, alloc, &mut storage, 0, 0);
    let mut gc = GarbageCollector::new(alloc);
    registers_nodes(&rt, &mut gc, &storage);
    marks(&rt, &mut gc, node, MARKED);
    collects_by(&rt, gc, &mut storage, (0, 0, 1));
    has_len(&rt, &storage, 0);
    drop_values(storage);
}
