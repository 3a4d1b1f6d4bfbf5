//! Makes the public calls that may want memory, and those that want none, and checks each answer.
//!
//! One request for memory may be refused, whichever it is: what was refused is tried once more, or
//! the replies are checked that the calls after it have then. So the program writes the same,
//! whatever was refused. Where a call was refused, it checks first that nothing has changed and
//! that what was offered came back. Marks on standard error say what each request is for (`marks`).
#![tactic(auto)]

mod alone;
mod collections;
mod fault;
mod many;
mod marks;
mod one_entry;
mod reserved;
mod scene;
mod slices;
mod storage;
mod symbols;
mod texts;
mod two_texts;
mod values;
mod worlds;

use crate::alone::{AloneSlices, AloneValues};
use crate::collections::{Collection, check_collection, check_registration};
use crate::fault::Fault;
use crate::many::{check_owned, check_references, check_texts};
use crate::one_entry::{check_no_births, check_one_entry};
use crate::reserved::check_reserved;
use crate::scene::check;
use crate::slices::Row;
use crate::symbols::{Call, Symbols};
use crate::texts::{Texts, check_copy};
use crate::two_texts::check_two_texts;
use crate::values::{OneHash, Term};
use crate::worlds::{check_keeping, check_new, check_one_value, check_runs};
use ra_ap_intern::{InternSliceStorage, InternStorage, NearSliceStorage, Text};
use std::alloc::Global;
use std::process::ExitCode;

/// Checks each call. Another call joins by a line.
fn check_all(rt: &(impl Print + Eprint), alloc: Global) -> Result<(), Fault> {
    check(rt, alloc, InternStorage::<Text>::new(alloc, 1))?;
    check(rt, alloc, Texts(InternStorage::new(alloc, 1)))?;
    check(rt, alloc, AloneValues(InternStorage::<Text>::new(alloc, 1)))?;
    check(rt, alloc, InternStorage::<OneHash>::new(alloc, 2))?;
    check(rt, alloc, InternStorage::<Term>::new(alloc, 3))?;
    check(rt, alloc, AloneValues(InternStorage::<Term>::new(alloc, 3)))?;
    check(rt, alloc, InternSliceStorage::<Row>::new(alloc, 4))?;
    check(rt, alloc, AloneSlices(InternSliceStorage::new(alloc, 4)))?;
    check(rt, alloc, NearSliceStorage::<Row, 2>::new(alloc, 5))?;
    check(rt, alloc, Symbols::new(alloc, Call::Intern))?;
    check(rt, alloc, Symbols::new(alloc, Call::Alone))?;
    check(rt, alloc, Symbols::new(alloc, Call::Integer))?;
    check(rt, alloc, Symbols::new(alloc, Call::Generated))?;
    check_registration(rt, alloc)?;
    check_collection(rt, alloc, Collection::Plain)?;
    check_collection(rt, alloc, Collection::Keeping)?;
    check_collection(rt, alloc, Collection::From)?;
    check_collection(rt, alloc, Collection::Tracing)?;
    check_new(rt, alloc)?;
    check_runs(rt, alloc)?;
    check_one_value(rt, alloc)?;
    check_keeping(rt, alloc)?;
    check_no_births(rt, alloc)?;
    check_one_entry(rt, alloc)?;
    check_two_texts(rt, alloc)?;
    check_owned(rt, alloc)?;
    check_references(rt, alloc)?;
    check_texts(rt, alloc)?;
    check_copy(rt, alloc)?;
    check_reserved(rt, alloc)
}

fn main(rt: HostRuntime) -> ExitCode {
    match check_all(&rt, rt.alloc()) {
        Ok(()) => {
            marks::ends(&rt);
            ExitCode::SUCCESS
        }
        Err(fault) => {
            let _ = rt.eprintln(fault.text());
            ExitCode::FAILURE
        }
    }
}
