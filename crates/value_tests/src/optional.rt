//! References or none, in the room of a reference.
ghost use Rattle.std.specs.Prelude.{true};

use crate::steps::{is_equal, is_same};
use intern_fixtures::{allowed, drop_values, new_values};
use ra_ap_intern::{
    GarbageCollector, GcInternedVisit, InternStorage, Internable, Interned, InternedRef,
    OptionalInternedRef,
};
use std::alloc::Global;
use std::mem::size_of;
use std::process::Abort;

// A number, and what refers to the one before, if there is one.
#[derive(Clone, Copy, PartialEq, Eq, Hash)]
struct Link {
    number: u64,
    before: [OptionalInternedRef<Link>; 1],
}

impl Internable for Link {
    const USE_GC: bool = true;

    ghost USE_GC = { true };
}

impl GcInternedVisit for Link {
    ghost use Rattle.std.specs.List.{flat_map};
    ghost use Rattle.ra_ap_intern.specs.Handle.{name_if};
    ghost use Rattle.ra_ap_intern.specs.Visitors.{of_name};
    ghost use Rattle.value_tests.specs.declared.optional.Link.{out-Link};

    ghost children = { λ link. flat_map (λ o. of_name (name_if o)) (out-Link link).before };

    fn visit_with(&self, gc: &mut GarbageCollector) {
        self.before.visit_with(gc);
    }
}

// Stores a number behind another, or behind none.
fn store(
    rt: &impl Abort,
    storage: &mut InternStorage<Link>,
    number: u64,
    before: OptionalInternedRef<Link>,
) -> InternedRef<Link> {
    let link = Link {
        number,
        before: [before],
    };
    let (reference, _) = allowed(Interned::new_gc(storage, link)).expect(rt, "stored");
    reference
}

#[test]
fn an_optional_reference_is_as_large_as_a_reference(rt: HostRuntime) {
    is_equal(&rt, size_of::<OptionalInternedRef<Link>>(), 24);
    is_equal(&rt, size_of::<InternedRef<Link>>(), 24);
    is_equal(&rt, size_of::<Option<InternedRef<Link>>>(), 32);
}

#[test]
fn an_optional_reference_is_a_reference_or_none(rt: HostRuntime) {
    let mut storage = new_values(rt.alloc(), 7);
    let none = OptionalInternedRef::none();
    let first = store(&rt, &mut storage, 1, none);
    let second = store(&rt, &mut storage, 2, first.into());
    let optional = OptionalInternedRef::from(second);
    assert!(rt; optional.is_some() && !optional.is_none());
    assert!(rt; none.is_none() && !none.is_some());
    assert!(rt; optional.get() == Some(second));
    assert!(rt; none.get().is_none());
    assert!(rt; optional.name() == Some(second.name()));
    assert!(rt; none.name().is_none());
    assert!(rt; OptionalInternedRef::from(Some(second)) == optional);
    assert!(rt; OptionalInternedRef::from(None) == none);
    assert!(rt; optional != none);
    assert!(rt; optional != OptionalInternedRef::from(first));
    assert!(rt; none < first.into() && OptionalInternedRef::from(first) < optional);
    let shown: Result<_, _> = format!(in rt.alloc(); "{optional:?} {none:?}");
    is_equal(
        &rt,
        shown.expect(&rt, "memory").as_str(),
        "Some(Ref(#7.1)) None",
    );
    drop_values(storage);
}

#[test]
fn a_collection_follows_optional_references(rt: HostRuntime) {
    let alloc = rt.alloc();
    let mut storage = new_values(alloc, 1);
    let first = store(&rt, &mut storage, 1, OptionalInternedRef::none());
    let second = store(&rt, &mut storage, 2, first.into());
    let third = store(&rt, &mut storage, 3, second.into());
    is_same(&rt, store(&rt, &mut storage, 3, second.into()), third);
    keeps(&rt, alloc, &mut storage, second);
    assert!(rt; storage.contains(first) && storage.contains(second));
    assert!(rt; !storage.contains(third));
    drop_values(storage);
}

// A collection from this one visits it and the one before, and removes the third.
fn keeps(
    rt: &impl Abort,
    alloc: Global,
    storage: &mut InternStorage<Link>,
    reference: InternedRef<Link>,
) {
    let collected = GarbageCollector::new(alloc)
        .collect_keeping(storage, &[reference.name()])
        .expect(rt, "memory");
    is_equal(rt, (collected.visits, collected.removed), (2, 1));
}
