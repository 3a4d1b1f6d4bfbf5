//! Storages of slices.
use crate::collector::collect;
use crate::fault::{Fault, ensure, gives_back, of_owed};
use crate::handles;
use crate::handles::check_any;
use crate::marks::{prepares, takes_none};
use intern_fixtures::StringSlice;
use ra_ap_intern::{
    GarbageCollector, HeaderSlice, InternSliceStorage, InternedSlice, InternedSliceRef, Limits,
    NoStorages, Owed, Pair, Refusal, Slices,
};
use std::alloc::{AllocError, Global};

/// The items of each slice. Their headers are the texts below.
const ITEMS: &[u32] = &[1, 2, 3];

/// The header of a slice that is stored, and counted once.
const LIVE: &str = "counted once";

/// Of one whose count is at its limit.
const FULL: &str = "at its limit";

/// Of one that is stored, and that nothing counts.
const ZERO: &str = "not counted";

/// Of one that was stored, and is gone.
const GONE: &str = "gone";

/// The limits of the storage, which gives its last birth to the last of these.
const LIMITS: Limits = Limits { top: 2, numbers: 4 };

type Storage = InternSliceStorage<StringSlice>;

type Family = Pair<NoStorages, Storage>;

type Handle = InternedSlice<StringSlice>;

type Reference = InternedSliceRef<StringSlice>;

/// A handle of each slice, and one of another storage.
type Handles = handles::Handles<Slices<StringSlice>>;

/// Checks each call.
pub(crate) fn check(rt: &impl Eprint, alloc: Global) -> Result<(), Fault> {
    check_making(rt, alloc)?;
    prepares(rt);
    let (mut storage, handles) = make_surely(alloc)?;
    check_calls(rt, alloc, &mut storage, &handles)?;
    check_release(rt, &mut storage, handles)
}

fn check_calls(
    rt: &impl Eprint,
    alloc: Global,
    storage: &mut Storage,
    handles: &Handles,
) -> Result<(), Fault> {
    check_any(rt, storage, handles)?;
    check_look_ups(rt, alloc, storage, handles)?;
    check_find(rt, storage, handles)?;
    check_reads(rt, storage, handles)?;
    check_interning(rt, alloc, storage, handles)
}

// What `make` does, at the second try where the first is refused.
fn make_surely(alloc: Global) -> Result<(Storage, Handles), Fault> {
    match make(alloc) {
        Ok(made) => Ok(made),
        Err(_) => make(alloc),
    }
}

// A storage in which the slices were stored, and from which a collection removed one.
fn make(alloc: Global) -> Result<(Storage, Handles), Fault> {
    let storage = InternSliceStorage::with_limits(alloc, 1, LIMITS);
    let mut family = GarbageCollector::add_slice_storage(NoStorages, storage);
    let handles = fill_and_collect(alloc, &mut family)?;
    Ok((family.second, handles))
}

fn fill_and_collect(alloc: Global, family: &mut Family) -> Result<Handles, Fault> {
    let handles = fill(alloc, &mut family.second)?;
    collect(alloc, family, &[])?;
    handles
        .zero
        .as_ref()
        .decrement_refcount(&mut family.second)?;
    Ok(handles)
}

fn fill(alloc: Global, storage: &mut Storage) -> Result<Handles, Fault> {
    let live = intern(alloc, storage, LIVE)?.to_owned(storage)?;
    let full = intern(alloc, storage, FULL)?.to_owned(storage)?;
    drop(full.clone(storage)?);
    let zero = intern(alloc, storage, ZERO)?.to_owned(storage)?;
    let gone = intern(alloc, storage, GONE)?.to_owned(storage)?;
    gone.as_ref().decrement_refcount(storage)?;
    let mut other = InternSliceStorage::new(alloc, 2);
    let foreign = intern(alloc, &mut other, LIVE)?.to_owned(&mut other)?;
    Ok(Handles {
        live,
        full,
        zero,
        gone,
        foreign,
    })
}

fn intern(alloc: Global, storage: &mut Storage, text: &str) -> Result<Reference, Fault> {
    let header = String::from_str(alloc, text)?;
    let (reference, _) = InternedSlice::from_header_and_slice(storage, header, ITEMS)?;
    Ok(reference)
}

fn check_making(rt: &impl Eprint, alloc: Global) -> Result<(), Fault> {
    takes_none(rt, "InternSliceStorage::new");
    ensure(is_empty(InternSliceStorage::new(alloc, 1)))?;
    takes_none(rt, "InternSliceStorage::with_limits");
    ensure(is_empty(InternSliceStorage::with_limits(alloc, 1, LIMITS)))
}

fn is_empty(storage: Storage) -> bool {
    storage.is_empty()
}

// A header to offer, at the second try where the first is refused.
fn offer(alloc: Global, text: &str) -> Result<String, AllocError> {
    match String::from_str(alloc, text) {
        Ok(text) => Ok(text),
        Err(_) => String::from_str(alloc, text),
    }
}

fn check_look_ups(
    rt: &impl Eprint,
    alloc: Global,
    storage: &Storage,
    handles: &Handles,
) -> Result<(), Fault> {
    prepares(rt);
    let live = offer(alloc, LIVE)?;
    takes_none(rt, "InternSliceStorage::get");
    ensure(
        storage.get(&live, ITEMS) == Some(handles.live.as_ref()) && storage.get(&live, &[]) == None,
    )?;
    takes_none(rt, "InternSliceStorage::iter");
    ensure(storage.iter().count() == 3)
}

fn check_find(rt: &impl Eprint, storage: &Storage, handles: &Handles) -> Result<(), Fault> {
    takes_none(rt, "InternSliceStorage::find");
    ensure(
        storage.find(LIVE, ITEMS) == Some(handles.live.as_ref()) && storage.find(GONE, &[]) == None,
    )
}

// Whether a slice was read that has this header.
fn is_slice(read: Option<HeaderSlice<'_, String, u32>>, text: &str) -> bool {
    match read {
        Some(read) => {
            read.header.header.as_str() == text
                && read.header.length == ITEMS.len()
                && read.slice == ITEMS
        }
        None => false,
    }
}

fn check_reads(rt: &impl Eprint, storage: &Storage, handles: &Handles) -> Result<(), Fault> {
    takes_none(rt, "InternedSlice::get");
    ensure(
        is_slice(handles.live.get(storage), LIVE)
            && handles.gone.get(storage).is_none()
            && handles.foreign.get(storage).is_none(),
    )?;
    takes_none(rt, "InternedSliceRef::get");
    ensure(
        is_slice(handles.zero.as_ref().get(storage), ZERO)
            && handles.gone.as_ref().get(storage).is_none()
            && handles.foreign.as_ref().get(storage).is_none(),
    )
}

// A slice that is stored, and one that isn't, while all births are given.
fn check_interning(
    rt: &impl Eprint,
    alloc: Global,
    storage: &mut Storage,
    handles: &Handles,
) -> Result<(), Fault> {
    prepares(rt);
    let zero = offer(alloc, ZERO)?;
    takes_none(rt, "InternedSlice::from_header_and_slice");
    let (again, back) = InternedSlice::from_header_and_slice(storage, zero, ITEMS)?;
    ensure(again == handles.zero.as_ref())?;
    ensure(matches!(&back, Some(header) if header.as_str() == ZERO))?;
    prepares(rt);
    let gone = offer(alloc, GONE)?;
    takes_none(rt, "InternedSlice::from_header_and_slice");
    let answer = InternedSlice::from_header_and_slice(storage, gone, ITEMS);
    ensure(gives_back(answer, Refusal::NumbersUsedUp)?.as_str() == GONE)
}

fn check_release(rt: &impl Eprint, storage: &mut Storage, handles: Handles) -> Result<(), Fault> {
    let Handles {
        live,
        full: _,
        zero,
        gone,
        foreign,
    } = handles;
    takes_none(rt, "InternedSlice::release");
    live.release(storage)?;
    let foreign = gives_back(foreign.release(storage), Refusal::Foreign)?;
    let gone = gives_back(gone.release(storage), Refusal::Gone)?;
    let zero = gives_back(zero.release(storage), Refusal::CountZero)?;
    check_owed(rt, storage, zero)?;
    gives_back(
        of_owed(Owed::from(foreign).release(storage)),
        Refusal::Foreign,
    )?;
    gives_back(of_owed(Owed::from(gone).release(storage)), Refusal::Gone)?;
    Ok(())
}

// None that must be released lives where an answer is judged.
fn check_owed(rt: &impl Eprint, storage: &mut Storage, zero: Handle) -> Result<(), Fault> {
    takes_none(rt, "Owed::get, Owed::clone, Owed::release of slices");
    let owed = Owed::from(zero);
    let is_read = is_slice(owed.get(storage), ZERO);
    let second = owed.clone(storage).map(|second| second.into_owned());
    of_owed(owed.release(storage))?;
    ensure(is_read)?;
    gives_back(
        of_owed(Owed::from(second?).release(storage)),
        Refusal::CountZero,
    )?;
    Ok(())
}
