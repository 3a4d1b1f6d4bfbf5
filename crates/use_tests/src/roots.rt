//! What two roots keep.
ghost use Rattle.std.specs.Prelude.{◌≡◌, true};

use crate::steps::is_equal;
use ra_ap_intern::{GarbageCollector, InternStorage, Internable, Interned, InternedRef, Text};
use std::alloc::Global;
use std::process::Abort;
use use_roots::{Class, Code, Method, Word, collect};

fn store<T: Internable + Drop>(
    rt: &impl Abort,
    storage: &mut InternStorage<T>,
    value: T,
) -> InternedRef<T>
    requires { T.Internable.USE_GC ≡ true }
{
    let (reference, _) = Interned::new_gc(storage, value).ok().expect(rt, "memory");
    reference
}

fn word(
    rt: &impl Abort,
    alloc: Global,
    names: &mut InternStorage<Word>,
    text: &str,
) -> InternedRef<Word> {
    store(rt, names, Word(Text::new(alloc, text).expect(rt, "memory")))
}

fn class(
    rt: &impl Abort,
    alloc: Global,
    classes: &mut InternStorage<Class>,
    name: InternedRef<Word>,
    base: InternedRef<Class>,
) -> InternedRef<Class> {
    let bases = vec![in alloc; base].expect(rt, "memory");
    store(rt, classes, Class(name, bases))
}

fn new_code(alloc: Global) -> Code {
    let names = InternStorage::new(alloc, 0);
    let names_and_classes = GarbageCollector::add_storage(names, InternStorage::new(alloc, 1));
    GarbageCollector::add_storage(names_and_classes, InternStorage::new(alloc, 2))
}

// Two methods, each of the class that comes with it.
struct Methods {
    of_deque: (InternedRef<Class>, InternedRef<Method>),
    of_gone: (InternedRef<Class>, InternedRef<Method>),
}

fn fill(rt: &impl Abort, alloc: Global, code: &mut Code) -> Methods {
    let names = &mut code.first.first;
    let name = word(rt, alloc, names, "a");
    let length = word(rt, alloc, names, "length");
    let lost = word(rt, alloc, names, "lost");
    let classes = &mut code.first.second;
    let methods = &mut code.second;
    let base = store(rt, classes, Class(name, Vec::new(alloc)));
    let list = class(rt, alloc, classes, name, base);
    let deque = class(rt, alloc, classes, name, list);
    let gone = class(rt, alloc, classes, lost, deque);
    Methods {
        of_deque: (deque, store(rt, methods, Method(length, list))),
        of_gone: (gone, store(rt, methods, Method(lost, gone))),
    }
}

#[test]
fn what_the_roots_declare_stays(rt: HostRuntime) {
    let alloc = rt.alloc();
    let mut code = new_code(alloc);
    let Methods {
        of_deque: (deque, size),
        of_gone: (gone, lost),
    } = fill(&rt, alloc, &mut code);

    // Three classes of one name, and a method with its own; a class goes, its method and their
    // name.
    assert!(rt; GarbageCollector::distinct(&code));
    let told = collect(alloc, &mut code, deque, size).expect(&rt, "memory");
    is_equal(&rt, (told.visits, told.mark_calls, told.removed), (6, 7, 3));
    is_equal(&rt, code.first.first.len(), 2);
    assert!(rt; gone.get(&code.first.second).is_none());
    assert!(rt; lost.get(&code.second).is_none());
}

#[test]
fn a_counted_name_stays(rt: HostRuntime) {
    let alloc = rt.alloc();
    let mut code = new_code(alloc);
    let Methods {
        of_deque: (deque, size),
        of_gone: _,
    } = fill(&rt, alloc, &mut code);
    let names = &mut code.first.first;
    let held = word(&rt, alloc, names, "held");
    let owner = held.to_owned(names).expect(&rt, "owned");

    assert!(rt; GarbageCollector::distinct(&code));
    let told = collect(alloc, &mut code, deque, size).expect(&rt, "memory");
    is_equal(&rt, (told.visits, told.removed), (7, 3));
    let names = &mut code.first.first;
    is_equal(&rt, names.count(held), Some(1));
    assert!(rt; held.get(names).is_some_and(|name| name.0.is("held")));
    assert!(rt; owner.release(names).is_ok());
}
