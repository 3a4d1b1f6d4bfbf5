//! A storage of values so large that one entry leaves no room: what it answers to a value that it
//! has, and to a second one. And one that gives no births.
ghost use Rattle.std.specs.Prelude.{false};

use crate::fault::{Fault, ensure};
use crate::marks;
use ra_ap_intern::{InternStorage, Internable, Interned, Limits, Refusal, Refused};
use std::alloc::Global;

/// The call that wants room for a second entry.
const CALL: &str = "Interned::new, where one entry leaves no room";

/// Counts go to two.
const LIMITS: Limits = Limits {
    top: 2,
    numbers: u64::MAX,
};

/// No birth is given.
const NO_BIRTHS: Limits = Limits { top: 2, numbers: 0 };

/// A letter with much beside it: of so large values a storage has room for one at first.
#[derive(Clone, Copy, PartialEq, Eq, Hash)]
pub(crate) struct Large {
    letter: char,
    rest: [u64; 128],
}

type Storage = InternStorage<Large>;

impl Internable for Large {
    const USE_GC: bool = false;

    ghost USE_GC = { false };
}

impl Large {
    /// The value of a letter.
    pub(crate) fn new(letter: char) -> Large {
        Large {
            letter,
            rest: [0; 128],
        }
    }
}

/// Checks that want of births refuses a first value, and that this takes no memory.
pub(crate) fn check_no_births(rt: &impl Eprint, alloc: Global) -> Result<(), Fault> {
    marks::takes_none(rt, "Interned::new, where no birth is given");
    refuse_without_births(&mut InternStorage::with_limits(alloc, 1, NO_BIRTHS))
}

fn refuse_without_births(storage: &mut Storage) -> Result<(), Fault> {
    refuse_first(storage, Refusal::NumbersUsedUp)?;
    ensure(storage.is_empty(), "a value was stored without a birth")
}

/// Checks the calls on a storage that has one value, and no room.
pub(crate) fn check_one_entry(rt: &(impl Print + Eprint), alloc: Global) -> Result<(), Fault> {
    marks::prepares(rt);
    check_entry(rt, &mut InternStorage::with_limits(alloc, 1, LIMITS))
}

fn check_entry(rt: &(impl Print + Eprint), storage: &mut Storage) -> Result<(), Fault> {
    store_first(storage)?;
    marks::takes_none(rt, "Interned::new, of a value that is stored");
    find_first(storage)?;
    refuse_first(storage, Refusal::CountFull)?;
    store_second(rt, storage)?;
    println!(rt; "{CALL}: {}", storage.len())?;
    Ok(())
}

// At the second try where the first is refused.
fn store_first(storage: &mut Storage) -> Result<(), Fault> {
    let (first, back) = match Interned::new(storage, Large::new('a')) {
        Ok(stored) => stored,
        Err(Refused { why: _, back }) => Interned::new(storage, back)?,
    };
    ensure(
        first.as_ref().as_raw() == 0 && back.is_none() && storage.len() == 1,
        "a first value has another birth",
    )
}

// The value is stored, and so it comes back.
fn find_first(storage: &mut Storage) -> Result<(), Fault> {
    let (again, back) = Interned::new(storage, Large::new('a'))?;
    ensure(
        again.as_ref().as_raw() == 0 && back == Some(Large::new('a')),
        "a stored value has another birth",
    )
}

// The value is refused for this reason, and not for want of memory.
fn refuse_first(storage: &mut Storage, wanted: Refusal) -> Result<(), Fault> {
    let is_refused = match Interned::new(storage, Large::new('a')) {
        Err(Refused { why, back }) => why == wanted && back == Large::new('a'),
        Ok(_) => false,
    };
    ensure(is_refused, "a first value is refused wrongly")
}

// Where that is refused, the value is back and the storage has one entry. The next try gives the
// birth that it would have given.
fn store_second(rt: &impl Eprint, storage: &mut Storage) -> Result<(), Fault> {
    marks::asks(rt, CALL);
    let (second, back) = match Interned::new(storage, Large::new('b')) {
        Ok(stored) => stored,
        Err(Refused { why, back }) => {
            marks::refused(rt, CALL);
            ensure(
                why == Refusal::OutOfMemory && back == Large::new('b') && storage.len() == 1,
                "a second value is refused wrongly",
            )?;
            Interned::new(storage, back)?
        }
    };
    ensure(
        second.as_ref().as_raw() == 1 && back.is_none() && storage.len() == 2,
        "a second value has another birth",
    )
}
