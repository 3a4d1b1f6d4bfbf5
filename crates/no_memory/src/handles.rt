//! Calls on storages and handles of any kind.
use crate::fault::{Fault, ensure, is_refused};
use crate::marks::takes_none;
use ra_ap_intern::{FixedState, Kind, Owned, Refusal, Storage};

/// A handle of each entry of a storage that has number 1, and one of another storage, of number 2.
#[derive(Drop)]
pub(crate) struct Handles<K> {
    /// Of an entry that is stored, and counted once.
    pub(crate) live: Owned<K>,
    /// Of one whose count is at its limit, 2.
    pub(crate) full: Owned<K>,
    /// Of one that is stored, and that nothing counts.
    pub(crate) zero: Owned<K>,
    /// Of one that was stored under birth 3, and is gone.
    pub(crate) gone: Owned<K>,
    /// Of an entry of the other storage.
    pub(crate) foreign: Owned<K>,
}

/// Checks the calls that are those of any kind. The counts are afterwards what they were.
pub(crate) fn check_any<K: Kind<FixedState>>(
    rt: &impl Eprint,
    storage: &mut Storage<K>,
    handles: &Handles<K>,
) -> Result<(), Fault> {
    check_storage(rt, storage, handles)?;
    check_names(rt, handles)?;
    check_references(rt, storage, handles)?;
    check_owning(rt, storage, handles)?;
    check_lowering(rt, storage, handles)
}

fn check_storage<K: Kind<FixedState>>(
    rt: &impl Eprint,
    storage: &Storage<K>,
    handles: &Handles<K>,
) -> Result<(), Fault> {
    takes_none(rt, "Storage::number, Storage::len, Storage::is_empty");
    ensure(storage.number() == 1 && storage.len() == 3 && !storage.is_empty())?;
    takes_none(rt, "Storage::memory");
    ensure(storage.memory() > 0)?;
    takes_none(rt, "Storage::count");
    ensure(
        storage.count(handles.full.as_ref()) == Some(2)
            && storage.count(handles.gone.as_ref()) == None
            && storage.count(handles.foreign.as_ref()) == None,
    )
}

fn check_names<K>(rt: &impl Eprint, handles: &Handles<K>) -> Result<(), Fault> {
    takes_none(rt, "Owned::as_ref, Ref::name");
    let (gone, foreign) = (handles.gone.as_ref(), handles.foreign.as_ref());
    ensure(gone.name().birth == 3 && foreign.name().storage == 2)?;
    takes_none(rt, "comparisons of handles");
    ensure(handles.live != handles.foreign && gone < foreign)
}

fn check_references<K: Kind<FixedState>>(
    rt: &impl Eprint,
    storage: &Storage<K>,
    handles: &Handles<K>,
) -> Result<(), Fault> {
    let (live, zero, gone) = (
        handles.live.as_ref(),
        handles.zero.as_ref(),
        handles.gone.as_ref(),
    );
    takes_none(rt, "Storage::reference");
    ensure(storage.reference(zero.name())? == zero)?;
    is_refused(storage.reference(gone.name()), Refusal::Gone)?;
    takes_none(rt, "Storage::contains");
    ensure(storage.contains(zero) && !storage.contains(gone))?;
    takes_none(rt, "Storage::check");
    storage.check(zero)?;
    is_refused(storage.check(gone), Refusal::Gone)?;
    takes_none(rt, "Storage::check_all");
    storage.check_all(&[live, zero])?;
    is_refused(storage.check_all(&[live, gone]), Refusal::Gone)
}

fn check_owning<K: Kind<FixedState>>(
    rt: &impl Eprint,
    storage: &mut Storage<K>,
    handles: &Handles<K>,
) -> Result<(), Fault> {
    takes_none(rt, "Owned::clone");
    ensure(handles.live.clone(storage)? == handles.live)?;
    is_refused(handles.foreign.clone(storage), Refusal::Foreign)?;
    is_refused(handles.gone.clone(storage), Refusal::Gone)?;
    is_refused(handles.full.clone(storage), Refusal::CountFull)?;
    takes_none(rt, "Ref::to_owned");
    ensure(handles.zero.as_ref().to_owned(storage)? == handles.zero)?;
    is_refused(handles.foreign.as_ref().to_owned(storage), Refusal::Foreign)?;
    is_refused(handles.gone.as_ref().to_owned(storage), Refusal::Gone)?;
    is_refused(handles.full.as_ref().to_owned(storage), Refusal::CountFull)
}

// Takes back what `check_owning` counted.
fn check_lowering<K: Kind<FixedState>>(
    rt: &impl Eprint,
    storage: &mut Storage<K>,
    handles: &Handles<K>,
) -> Result<(), Fault> {
    takes_none(rt, "Ref::decrement_refcount");
    handles.live.as_ref().decrement_refcount(storage)?;
    handles.zero.as_ref().decrement_refcount(storage)?;
    is_refused(
        handles.foreign.as_ref().decrement_refcount(storage),
        Refusal::Foreign,
    )?;
    is_refused(
        handles.gone.as_ref().decrement_refcount(storage),
        Refusal::Gone,
    )?;
    is_refused(
        handles.zero.as_ref().decrement_refcount(storage),
        Refusal::CountZero,
    )
}
