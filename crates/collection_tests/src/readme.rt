//! An example to read: a visitor with a loop, and a collection.
ghost use Rattle.std.specs.Prelude.{true};

use ra_ap_intern::{
    GarbageCollector, GcInternedVisit, InternStorage, Internable, Interned, InternedRef, NoStorages,
};
use std::alloc::Global;
use std::process::Abort;

/// A type of some language: its tag, and the types that it is made of.
#[derive(Debug, Drop, PartialEq, Eq, Hash)]
struct Type {
    tag: u32,
    parts: Vec<InternedRef<Type>>,
}

impl Internable for Type {
    const USE_GC: bool = true;

    ghost USE_GC = { true };
}

impl GcInternedVisit for Type {
    ghost use Rattle.std.specs.Prelude.{map};
    ghost use Rattle.collection_tests.specs.declared.readme.Type.{out-Type};
    ghost use Rattle.ra_ap_intern.specs.Handle.{ref_name};

    // What a type declares: its parts.
    ghost children = { λ t. map ref_name (out-Type t).parts.items };

    fn visit_with(&self, gc: &mut GarbageCollector) {
        for part in &self.parts {
            let _ = gc.mark_interned_alive(*part);
        }
    }
}

fn store(
    rt: &impl Abort,
    alloc: Global,
    types: &mut InternStorage<Type>,
    tag: u32,
    parts: &[InternedRef<Type>],
) -> InternedRef<Type> {
    let parts = parts.to_vec(alloc).expect(rt, "memory");
    let (reference, _) = Interned::new_gc(types, Type { tag, parts }).expect(rt, "interned");
    reference
}

#[test]
fn a_collection_keeps_what_is_declared(rt: HostRuntime) {
    let alloc = rt.alloc();
    let mut types = InternStorage::new(alloc, 1);
    let number = store(&rt, alloc, &mut types, 0, &[]);
    let list = store(&rt, alloc, &mut types, 1, &[number]);
    let text = store(&rt, alloc, &mut types, 2, &[]);
    let owned = list.to_owned(&mut types).expect(&rt, "counted");

    // The list is owned, and declares the number. Nothing leads to the text.
    let mut family = GarbageCollector::add_storage(NoStorages, types);
    let told = GarbageCollector::new(alloc).collect(&mut family);
    let told = told.expect(&rt, "memory");
    assert_eq!(rt; (told.visits, told.mark_calls, told.removed), (2, 1, 1));
    assert!(rt; owned.get(&family.second).is_some());
    assert!(rt; number.get(&family.second).is_some());
    assert!(rt; text.get(&family.second).is_none());
}
