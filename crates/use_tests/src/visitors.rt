//! What the collection of a family keeps.
use crate::steps::is_equal;
use ra_ap_intern::{
    GarbageCollector, InternSliceStorage, InternStorage, Interned, InternedRef, InternedSlice,
    InternedSliceRef, NoStorages,
};
use std::alloc::Global;
use std::collections::HashMap;
use std::process::Abort;
use use_visitors::{Signature, TypeNode, Uses};

fn stored(
    rt: &impl Abort,
    types: &mut InternStorage<TypeNode>,
    node: TypeNode,
) -> InternedRef<TypeNode> {
    let (reference, _) = Interned::new_gc(types, node).ok().expect(rt, "memory");
    reference
}

fn named(rt: &impl Abort, types: &mut InternStorage<TypeNode>, name: u32) -> InternedRef<TypeNode> {
    stored(rt, types, TypeNode::Named(name))
}

/// A signature with this receiver, whose other fields have types of their own.
fn signature(
    rt: &impl Abort,
    alloc: Global,
    types: &mut InternStorage<TypeNode>,
    receiver: InternedRef<TypeNode>,
) -> Signature {
    Signature {
        receiver: Some(receiver),
        bound: (named(rt, types, 1), named(rt, types, 2)),
        answers: [named(rt, types, 3), named(rt, types, 4)],
        parameters: vec![in alloc; named(rt, types, 5)].expect(rt, "memory"),
    }
}

/// One type behind a signature.
fn used(
    rt: &impl Abort,
    uses: &mut InternSliceStorage<Uses>,
    header: Signature,
    item: InternedRef<TypeNode>,
) -> InternedSliceRef<Uses> {
    let stored = InternedSlice::from_header_and_slice(uses, header, &[item]);
    let (used, _) = stored.ok().expect(rt, "memory");
    used
}

#[test]
fn each_field_keeps_its_types(rt: HostRuntime) {
    let alloc = rt.alloc();
    let mut types = InternStorage::new(alloc, 1);
    let of = named(&rt, &mut types, 0);
    let list = stored(&rt, &mut types, TypeNode::List(of));
    let header = signature(&rt, alloc, &mut types, list);
    let item = named(&rt, &mut types, 6);
    let _alone = named(&rt, &mut types, 7);

    let mut uses = InternSliceStorage::new(alloc, 2);
    let used = used(&rt, &mut uses, header, item);
    let family = GarbageCollector::add_storage(NoStorages, types);
    let mut family = GarbageCollector::add_slice_storage(family, uses);
    assert!(rt; GarbageCollector::distinct(&family));
    let told = GarbageCollector::new(alloc).collect_from(&mut family, &used);
    let told = told.expect(&rt, "memory");
    is_equal(&rt, (told.visits, told.mark_calls, told.removed), (9, 8, 1));
}

#[test]
fn a_map_keeps_its_keys_and_what_is_under_them(rt: HostRuntime) {
    let alloc = rt.alloc();
    let mut types = InternStorage::new(alloc, 1);
    let key = named(&rt, &mut types, 0);
    let under = named(&rt, &mut types, 1);
    let alone = named(&rt, &mut types, 2);
    let mut aliases = HashMap::new(alloc);
    assert!(rt; aliases.insert(key, under).is_ok());
    let mut numbered = HashMap::new(alloc);
    assert!(rt; numbered.insert(7u32, under).is_ok());

    let roots = (aliases, numbered);
    let told = GarbageCollector::new(alloc).collect_from(&mut types, &roots);
    let told = told.expect(&rt, "memory");
    is_equal(&rt, (told.visits, told.removed), (2, 1));
    assert!(rt; types.contains(key) && types.contains(under) && !types.contains(alone));
}
