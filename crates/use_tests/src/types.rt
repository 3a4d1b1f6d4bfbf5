//! Worked examples.
use crate::steps::is_equal;
use ra_ap_intern::{InternStorage, Refusal, SymbolRef, SymbolTable};
use std::alloc::Global;
use std::process::Abort;
use use_trees::whole_function;
use use_types::{TypeNode, TypeRef, Types, collect, find_function, function, make};

// A store in which the types of two names were made.
pub(crate) fn scene(rt: &impl Abort, alloc: Global) -> (Types, TypeRef, TypeRef) {
    let names = SymbolTable::new(alloc, 1);
    let mut types = InternStorage::new(alloc, 2);
    let int = named(rt, &mut types, &names, "i32");
    let text = named(rt, &mut types, &names, "str");
    (types, int, text)
}

// The type of a name that is a preset.
fn named(rt: &impl Abort, types: &mut Types, names: &SymbolTable, name: &str) -> TypeRef {
    let symbol: SymbolRef = names.get(name).expect(rt, "a preset");
    make(types, TypeNode::Named(symbol)).expect(rt, "memory")
}

// Whether a handle stands for the functions from a type to another.
fn is_function(types: &Types, handle: TypeRef, from: TypeRef, to: TypeRef) -> bool {
    handle.get(types) == Some(&TypeNode::Function(from, to))
}

// The type of the functions from a type to another.
pub(crate) fn made(rt: &impl Abort, types: &mut Types, from: TypeRef, to: TypeRef) -> TypeRef {
    function(types, from, to).expect(rt, "memory")
}

#[test]
fn equal_types_are_one(rt: HostRuntime) {
    let (mut types, int, text) = scene(&rt, rt.alloc());
    assert!(rt; find_function(&types, int, int).is_none());
    let first = made(&rt, &mut types, int, int);
    let second = made(&rt, &mut types, int, int);
    assert!(rt; first == second);
    assert!(rt; find_function(&types, int, int) == Some(first));
    assert!(rt; is_function(&types, first, int, int));
    assert!(rt; made(&rt, &mut types, int, text) != first);
    assert!(rt; !is_function(&types, int, int, int));
}

#[test]
fn a_whole_type_has_its_parts(rt: HostRuntime) {
    let (mut types, int, text) = scene(&rt, rt.alloc());
    let first = whole_function(&mut types, int, text).expect(&rt, "stored parts");
    assert!(rt; is_function(&types, first, int, text));
    assert!(rt; collect(rt.alloc(), &mut types, &[int]).is_ok());
    assert!(rt; whole_function(&mut types, int, text) == Err(Refusal::Gone));
}

#[test]
fn a_root_keeps_its_parts(rt: HostRuntime) {
    let (mut types, int, text) = scene(&rt, rt.alloc());
    let first = made(&rt, &mut types, int, int);
    let second = made(&rt, &mut types, first, int);
    let gone = made(&rt, &mut types, text, first);
    let told = collect(rt.alloc(), &mut types, &[second]).expect(&rt, "memory");
    is_equal(&rt, (told.visits, told.removed), (3, 2));
    assert!(rt; is_function(&types, second, first, int));
    assert!(rt; is_function(&types, first, int, int));
    assert!(rt; int.get(&types).is_some());
    assert!(rt; text.get(&types).is_none());
    assert!(rt; gone.get(&types).is_none());
}
