//! Worked examples.
use crate::steps::is_equal;
use ra_ap_intern::{OptionalInternedRef, Refusal, SymbolRef, SymbolTable};
use std::alloc::Global;
use std::process::Abort;
use use_parents::Paths;
use use_paths::PathRef;

// The names of what is stored below.
#[derive(Clone, Copy)]
struct Names {
    core: SymbolRef,
    ops: SymbolRef,
    add: SymbolRef,
    sub: SymbolRef,
}

fn presets(rt: &impl Abort, alloc: Global) -> Names {
    let table = SymbolTable::new(alloc, 1);
    Names {
        core: table.get("core").expect(rt, "a preset"),
        ops: table.get("ops").expect(rt, "a preset"),
        add: table.get("add").expect(rt, "a preset"),
        sub: table.get("sub").expect(rt, "a preset"),
    }
}

// What is stored: core, core/ops, core/ops/add and core/ops/sub.
#[derive(Clone, Copy)]
struct Stored {
    core: PathRef,
    ops: PathRef,
    add: PathRef,
    sub: PathRef,
}

fn store(rt: &impl Abort, paths: &mut Paths, names: Names) -> Stored {
    let top = OptionalInternedRef::none();
    let core = paths.within(top, names.core).expect(rt, "memory");
    let ops = within(rt, paths, core, names.ops);
    Stored {
        core,
        ops,
        add: within(rt, paths, ops, names.add),
        sub: within(rt, paths, ops, names.sub),
    }
}

fn within(rt: &impl Abort, paths: &mut Paths, parent: PathRef, name: SymbolRef) -> PathRef {
    paths.within(parent.into(), name).expect(rt, "memory")
}

// The path is spelled so, the last name first.
fn is_spelled(rt: &impl Abort, paths: &Paths, path: PathRef, names: &[SymbolRef]) {
    let spelled = paths.spelled(path).expect(rt, "memory");
    assert!(rt; spelled.expect(rt, "stored").as_slice() == names);
}

#[test]
fn equal_paths_are_one(rt: HostRuntime) {
    let names = presets(&rt, rt.alloc());
    let mut paths = Paths::new(rt.alloc(), 2);
    let Stored {
        core,
        ops,
        add,
        sub,
    } = store(&rt, &mut paths, names);
    assert!(rt; within(&rt, &mut paths, ops, names.add) == add);
    assert!(rt; within(&rt, &mut paths, core, names.add) != add);
    assert!(rt; add != sub);
    is_spelled(&rt, &paths, core, &[names.core]);
    is_spelled(&rt, &paths, add, &[names.add, names.ops, names.core]);
    is_spelled(&rt, &paths, sub, &[names.sub, names.ops, names.core]);
}

#[test]
fn a_root_keeps_what_is_above_it(rt: HostRuntime) {
    let names = presets(&rt, rt.alloc());
    let mut paths = Paths::new(rt.alloc(), 2);
    let Stored {
        core,
        ops,
        add,
        sub,
    } = store(&rt, &mut paths, names);
    let told = paths.collect(&[add]).expect(&rt, "memory");
    is_equal(&rt, (told.visits, told.removed), (3, 1));
    is_spelled(&rt, &paths, add, &[names.add, names.ops, names.core]);
    is_spelled(&rt, &paths, ops, &[names.ops, names.core]);
    is_spelled(&rt, &paths, core, &[names.core]);
    assert!(rt; paths.spelled(sub).expect(&rt, "memory").is_none());
    assert!(rt; paths.within(sub.into(), names.add) == Err(Refusal::Gone));
    assert!(rt; within(&rt, &mut paths, ops, names.sub) != sub);
}
