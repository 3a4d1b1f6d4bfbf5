//! One storage of numbers.
ghost use Rattle.std.specs.Prelude.{true};

use crate::steps::is_equal;
use ra_ap_intern::{InternStorage, Internable, InternedRef, Text};
use std::alloc::Global;
use std::process::Abort;
use use_lookups::{Qualified, find, find_or_intern, find_or_intern_all, find_qualified};

/// A number that is collected.
#[derive(Debug, Drop, PartialEq, Eq, Hash)]
struct Number(u64);

impl Internable for Number {
    const USE_GC: bool = true;

    ghost USE_GC = { true };
}

#[test]
fn what_is_stored_is_found(rt: HostRuntime) {
    let mut numbers = InternStorage::new(rt.alloc(), 1);
    let seven = find_or_intern(&mut numbers, Number(7)).expect(&rt, "memory");
    let again = find_or_intern(&mut numbers, Number(7)).expect(&rt, "stored");
    assert!(rt; seven == again);
    is_equal(&rt, find(&numbers, &Number(7)), Some(&Number(7)));
    is_equal(&rt, find(&numbers, &Number(8)), None);
}

/// Stores the numbers, and gives their references.
fn store_all(
    rt: &impl Abort,
    alloc: Global,
    numbers: &mut InternStorage<Number>,
    each: &[u64],
) -> Vec<InternedRef<Number>> {
    let mut values = Vec::new(alloc);
    for number in each {
        assert!(rt; values.push(Number(*number)).is_ok());
    }
    let mut references = Vec::new(alloc);
    let stored = find_or_intern_all(numbers, &mut values.into_iter(), &mut references);
    assert!(rt; stored.is_ok());
    references
}

#[test]
fn many_are_stored_once(rt: HostRuntime) {
    let mut numbers = InternStorage::new(rt.alloc(), 1);
    let references = store_all(&rt, rt.alloc(), &mut numbers, &[7, 8, 7]);
    is_equal(&rt, references.len(), 3);
    assert!(rt; references.first() == references.last());
    is_equal(&rt, numbers.len(), 2);
}

fn qualified(rt: &impl Abort, alloc: Global, scope: &str, name: &str) -> Qualified {
    Qualified {
        scope: Text::new(alloc, scope).expect(rt, "memory"),
        name: Text::new(alloc, name).expect(rt, "memory"),
    }
}

#[test]
fn what_is_borrowed_finds_what_it_is_equivalent_to(rt: HostRuntime) {
    let alloc = rt.alloc();
    let mut names = InternStorage::new(alloc, 1);
    let word = qualified(&rt, alloc, "list", "map");
    let map = find_or_intern(&mut names, word).expect(&rt, "memory");
    assert!(rt; find_qualified(&names, "list", "map") == Some(map));
    assert!(rt; find_qualified(&names, "map", "list").is_none());
    assert!(rt; find_qualified(&names, "list", "ma").is_none());
}
