//! Memos of a function of two numbers.
ghost use Rattle.std.specs.Prelude.{true, []};

use crate::steps::is_equal;
use ra_ap_intern::{GarbageCollector, GcInternedVisit, Internable};
use std::process::Abort;
use use_memos::Memos;

/// Two numbers.
#[derive(Debug, Drop, PartialEq, Eq, Hash)]
struct Two(u64, u64);

impl Internable for Two {
    const USE_GC: bool = true;

    ghost USE_GC = { true };
}

impl GcInternedVisit for Two {
    ghost children = { λ _. [] };

    fn visit_with(&self, _gc: &mut GarbageCollector) {}
}

fn note(rt: &impl Abort, sums: &mut Memos<Two, u64>, argument: Two, value: u64) {
    assert!(rt; sums.note(argument, value).is_ok());
}

/// This is what was noted of the argument.
fn finds(rt: &impl Abort, sums: &Memos<Two, u64>, argument: Two, value: Option<u64>) {
    is_equal(rt, sums.look_up(&argument).copied(), value);
}

#[test]
fn what_was_noted_last_is_found_until_it_is_forgotten(rt: HostRuntime) {
    let mut sums = Memos::new(rt.alloc(), 1);
    note(&rt, &mut sums, Two(1, 2), 12);
    note(&rt, &mut sums, Two(3, 4), 7);
    note(&rt, &mut sums, Two(1, 2), 3);
    finds(&rt, &sums, Two(1, 2), Some(3));
    finds(&rt, &sums, Two(2, 1), None);
    let kept = sums.arguments.get(&Two(3, 4)).expect(&rt, "stored");
    is_equal(&rt, sums.keep(&[kept]), Ok(1));
    finds(&rt, &sums, Two(1, 2), None);
    finds(&rt, &sums, Two(3, 4), Some(7));
    is_equal(&rt, sums.results.len(), 1);
}

#[test]
fn what_was_noted_stays_where_another_argument_is_asked_for(rt: HostRuntime) {
    let mut sums = Memos::new(rt.alloc(), 1);
    note(&rt, &mut sums, Two(1, 2), 3);
    let noted = sums.ask(Two(1, 2)).expect(&rt, "stored");
    let asked = sums.ask(Two(3, 4)).expect(&rt, "stored");
    assert!(rt; noted != asked);
    assert!(rt; sums.arguments.get(&Two(3, 4)) == Some(asked));
    finds(&rt, &sums, Two(1, 2), Some(3));
    finds(&rt, &sums, Two(3, 4), None);
    is_equal(&rt, sums.results.len(), 1);
}
