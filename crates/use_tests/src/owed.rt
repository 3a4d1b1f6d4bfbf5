//! A scope comes back from another storage, and leaves nothing in its own.
use crate::steps::is_equal;
use ra_ap_intern::{InternStorage, Limits, Refusal, Refused, Text};
use std::alloc::Global;
use std::process::Abort;
use use_owed::Scope;

/// Declares a name, which is refused for this reason.
fn declare(
    rt: &impl Abort,
    alloc: Global,
    scope: &mut Scope,
    texts: &mut InternStorage<Text>,
    (name, refusal): (&str, Option<Refusal>),
) {
    let name = Text::new(alloc, name).expect(rt, "memory");
    is_equal(rt, scope.declare(texts, name).err(), refusal);
}

/// Closes a scope in vain by a storage that isn't its own, and then by its own.
fn close(
    rt: &impl Abort,
    scope: Scope,
    foreign: &mut InternStorage<Text>,
    texts: &mut InternStorage<Text>,
) {
    match scope.close(foreign) {
        Ok(()) => panic!(rt; "it was closed"),
        Err(Refused { why, back }) => {
            is_equal(rt, why, Refusal::Foreign);
            if let Err(_) = back.close(texts) {
                panic!(rt; "it is of this storage");
            }
        }
    }
}

#[test]
fn a_closed_scope_leaves_nothing(rt: HostRuntime) {
    let alloc = rt.alloc();
    let mut texts = InternStorage::with_limits(alloc, 1, Limits { top: 2, numbers: 1 });
    let mut scope = Scope::new(alloc);
    declare(&rt, alloc, &mut scope, &mut texts, ("x", None));
    declare(&rt, alloc, &mut scope, &mut texts, ("x", None));
    declare(
        &rt,
        alloc,
        &mut scope,
        &mut texts,
        ("y", Some(Refusal::NumbersUsedUp)),
    );
    close(&rt, scope, &mut InternStorage::new(alloc, 2), &mut texts);
    assert!(rt; texts.is_empty());
}
