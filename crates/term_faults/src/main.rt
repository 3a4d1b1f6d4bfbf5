//! Makes each call of a store of terms, and checks its answer.
//!
//! It writes what requests for memory are for (`marks`). Where a call is refused for want of
//! memory, it checks that nothing has changed, and makes the call once more. So its output is the
//! same, whichever request is refused.
#![tactic(auto)]

mod collecting;
mod fault;
mod heads;
mod looking;
mod making;
mod marks;
mod owning;
mod reading;
mod refusing;
mod shape;

use crate::collecting::check_collections;
use crate::fault::{Fault, ensure};
use crate::heads::check_kept_head;
use crate::looking::{check_lookups, check_references};
use crate::making::make_all;
use crate::marks::mark;
use crate::owning::check_owners;
use crate::reading::{check_walk, check_written};
use crate::refusing::{check_refusals, check_stored};
use crate::shape::{Held, TERMS, check};
use intern_terms::{TermRef, TermStore};
use std::alloc::{AllocError, Global};
use std::process::ExitCode;

/// Makes the calls, most of them on one store.
fn check_all(rt: &(impl Print + Eprint), alloc: Global) -> Result<(), Fault> {
    mark(rt, "takes none: TermStore::new");
    let mut store = TermStore::new(alloc, 1);
    mark(rt, "prepares");
    let mut terms = room(alloc, TERMS)?;
    check_store(rt, alloc, &mut store, &mut terms)
}

/// Makes the calls on a new store.
fn check_store(
    rt: &(impl Print + Eprint),
    alloc: Global,
    store: &mut TermStore,
    terms: &mut Vec<TermRef>,
) -> Result<(), Fault> {
    ensure(store.is_empty(), "a new store is not empty")?;
    make_all(rt, store, terms, TERMS)?;
    println!(rt; "TermStore::term: {}", store.len())?;
    check_kept_head(rt, alloc)?;
    check_made(rt, alloc, store, terms)?;
    mark(rt, "ends");
    Ok(())
}

/// Makes the other calls on the terms that were made.
fn check_made(
    rt: &(impl Print + Eprint),
    alloc: Global,
    store: &mut TermStore,
    terms: &[TermRef],
) -> Result<(), Fault> {
    let (Some(first), Some(last)) = (terms.first(), terms.last()) else {
        return Err(Fault("there are too few terms"));
    };
    check_lookups(rt, store, terms)?;
    check_references(rt, store, terms)?;
    check_stored(rt, store, terms)?;
    check_owners(rt, store, terms)?;
    let foreign = check_refusals(rt, alloc, store, *first)?;
    check(store, terms, Held::ALL)?;
    check_walk(rt, store, terms, *last, foreign)?;
    check_written(rt, alloc, store, terms, *last)?;
    check_collections(rt, store, terms, foreign)
}

/// Room for so many terms, at the second try where the first is refused.
fn room(alloc: Global, length: usize) -> Result<Vec<TermRef>, AllocError> {
    match Vec::with_capacity(alloc, length) {
        Ok(room) => Ok(room),
        Err(_) => Vec::with_capacity(alloc, length),
    }
}

fn main(rt: HostRuntime) -> ExitCode {
    match check_all(&rt, rt.alloc()) {
        Ok(()) => ExitCode::SUCCESS,
        Err(Fault(what)) => {
            let _ = rt.eprintln(what);
            ExitCode::FAILURE
        }
    }
}
