//! Storages of values, in counted mode.
use crate::fault::{Fault, ensure, gives_back, is_refused, of_owed};
use crate::handles;
use crate::handles::check_any;
use crate::marks::{prepares, takes_none};
use ra_ap_intern::{
    FixedState, InternStorage, Interned, InternedRef, Limits, OptionalInternedRef, Owed, Refusal,
    Text, Values,
};
use std::alloc::{AllocError, Global};

/// A text that is stored, and counted once. Like the others it is longer than lies in an entry.
const LIVE: &str = "a text of more than 24 bytes that is counted once";

/// One whose count is at its limit.
const FULL: &str = "a text of more than 24 bytes whose count is at its limit";

/// One that is stored, and that nothing counts.
const ZERO: &str = "a text of more than 24 bytes that is not counted";

/// One that was stored, and is gone.
const GONE: &str = "a text of more than 24 bytes that is gone";

/// The limits of the storage, which gives its last birth to the last of these.
const LIMITS: Limits = Limits { top: 2, numbers: 4 };

type Storage = InternStorage<Text>;

type Handle = Interned<Text>;

/// A handle of each text, and one of another storage.
type Handles = handles::Handles<Values<Text>>;

/// Checks each call.
pub(crate) fn check(rt: &impl Eprint, alloc: Global) -> Result<(), Fault> {
    check_making(rt, alloc)?;
    prepares(rt);
    check_over(rt, alloc, &mut make(alloc))
}

fn make(alloc: Global) -> Storage {
    InternStorage::with_limits(alloc, 1, LIMITS)
}

fn make_hashed(alloc: Global) -> Storage {
    InternStorage::with_hasher(alloc, 1, LIMITS, FixedState::new())
}

fn check_over(rt: &impl Eprint, alloc: Global, storage: &mut Storage) -> Result<(), Fault> {
    let handles = fill_surely(alloc, storage)?;
    check_calls(rt, alloc, storage, &handles)?;
    check_release(rt, storage, handles)
}

// Stores the texts, in a storage that is made anew where that is refused.
fn fill_surely(alloc: Global, storage: &mut Storage) -> Result<Handles, Fault> {
    match fill(alloc, storage) {
        Ok(handles) => Ok(handles),
        Err(_) => {
            *storage = make(alloc);
            fill(alloc, storage)
        }
    }
}

fn check_calls(
    rt: &impl Eprint,
    alloc: Global,
    storage: &mut Storage,
    handles: &Handles,
) -> Result<(), Fault> {
    check_any(rt, storage, handles)?;
    check_look_ups(rt, alloc, storage, handles)?;
    check_walk(rt, storage)?;
    check_reads(rt, storage, handles)?;
    check_births(rt, storage, handles)?;
    check_optional(rt, handles.live.as_ref(), handles.gone.as_ref())?;
    check_interning(rt, alloc, storage, handles)?;
    check_owed(rt, storage, handles)
}

// Stores the texts.
fn fill(alloc: Global, storage: &mut Storage) -> Result<Handles, Fault> {
    let live = intern(alloc, storage, LIVE)?;
    let full = intern(alloc, storage, FULL)?;
    drop(full.clone(storage)?);
    let zero = intern(alloc, storage, ZERO)?;
    zero.as_ref().decrement_refcount(storage)?;
    let gone = intern(alloc, storage, GONE)?;
    drop(Interned::from_raw(storage, 3)?.release(storage)?);
    let foreign = intern(alloc, &mut InternStorage::new(alloc, 2), LIVE)?;
    Ok(Handles {
        live,
        full,
        zero,
        gone,
        foreign,
    })
}

fn intern(alloc: Global, storage: &mut Storage, text: &str) -> Result<Handle, Fault> {
    let (handle, _) = Interned::new(storage, Text::new(alloc, text)?)?;
    Ok(handle)
}

fn check_making(rt: &impl Eprint, alloc: Global) -> Result<(), Fault> {
    takes_none(rt, "InternStorage::new");
    ensure(is_empty(InternStorage::new(alloc, 1)))?;
    takes_none(rt, "InternStorage::with_limits");
    ensure(is_empty(make(alloc)))?;
    takes_none(rt, "Storage::with_hasher");
    ensure(is_empty(make_hashed(alloc)))?;
    takes_none(rt, "Text::new of a short text, Text::as_str");
    ensure(is_kept(alloc, "short")?)?;
    check_text_of_string(rt, alloc)?;
    takes_none(rt, "Refusal::number");
    ensure(Refusal::Foreign.number() == 1 && Refusal::OutOfMemory.number() == 6)
}

fn is_empty(storage: Storage) -> bool {
    storage.is_empty()
}

// Whether a text has what it was made of.
fn is_kept(alloc: Global, text: &'static str) -> Result<bool, AllocError> {
    Ok(Text::new(alloc, text)?.as_str() == text)
}

// The text of a string that is made before.
fn check_text_of_string(rt: &impl Eprint, alloc: Global) -> Result<(), Fault> {
    prepares(rt);
    let string = match String::from_str(alloc, LIVE) {
        Ok(string) => string,
        Err(_) => String::from_str(alloc, LIVE)?,
    };
    takes_none(rt, "Text::from of a string, Text::is");
    let text = Text::from(string);
    ensure(text.is(LIVE) && !text.is(FULL))
}

// A text to offer, at the second try where the first is refused.
fn offer(alloc: Global, text: &str) -> Result<Text, AllocError> {
    match Text::new(alloc, text) {
        Ok(text) => Ok(text),
        Err(_) => Text::new(alloc, text),
    }
}

fn check_look_ups(
    rt: &impl Eprint,
    alloc: Global,
    storage: &Storage,
    handles: &Handles,
) -> Result<(), Fault> {
    prepares(rt);
    let live = offer(alloc, LIVE)?;
    let gone = offer(alloc, GONE)?;
    takes_none(rt, "InternStorage::get");
    ensure(storage.get(&live) == Some(handles.live.as_ref()) && storage.get(&gone) == None)?;
    takes_none(rt, "InternStorage::find");
    ensure(storage.find(LIVE) == Some(handles.live.as_ref()) && storage.find(GONE) == None)
}

fn check_walk(rt: &impl Eprint, storage: &Storage) -> Result<(), Fault> {
    takes_none(
        rt,
        "InternStorage::iter, a loop over a storage, Storage::contains",
    );
    for (reference, _) in storage {
        ensure(storage.contains(reference))?;
    }
    ensure(storage.iter().count() == 3)
}

// Whether a text was read, if one is to be.
fn is_text(read: Option<&Text>, text: Option<&str>) -> bool {
    match (read, text) {
        (Some(read), Some(text)) => read.as_str() == text,
        (None, None) => true,
        _ => false,
    }
}

fn check_reads(rt: &impl Eprint, storage: &Storage, handles: &Handles) -> Result<(), Fault> {
    takes_none(rt, "Interned::get");
    ensure(
        is_text(handles.live.get(storage), Some(LIVE))
            && is_text(handles.gone.get(storage), None)
            && is_text(handles.foreign.get(storage), None),
    )?;
    takes_none(rt, "InternedRef::get");
    ensure(
        is_text(handles.zero.as_ref().get(storage), Some(ZERO))
            && is_text(handles.gone.as_ref().get(storage), None)
            && is_text(handles.foreign.as_ref().get(storage), None),
    )?;
    takes_none(rt, "InternedRef::as_raw");
    ensure(handles.gone.as_ref().as_raw() == 3)?;
    takes_none(rt, "InternedRef::from");
    ensure(InternedRef::from(&handles.live) == handles.live.as_ref())
}

fn check_births(rt: &impl Eprint, storage: &Storage, handles: &Handles) -> Result<(), Fault> {
    takes_none(rt, "Interned::from_raw");
    ensure(Interned::from_raw(storage, 0)? == handles.live)?;
    is_refused(Interned::from_raw(storage, 2), Refusal::CountZero)?;
    is_refused(Interned::from_raw(storage, 3), Refusal::Gone)?;
    takes_none(rt, "InternedRef::from_raw");
    ensure(InternedRef::from_raw(storage, 2)? == handles.zero.as_ref())?;
    is_refused(InternedRef::from_raw(storage, 3), Refusal::Gone)
}

// What holds the first of two references, and what holds none.
fn check_optional(
    rt: &impl Eprint,
    first: InternedRef<Text>,
    second: InternedRef<Text>,
) -> Result<(), Fault> {
    takes_none(rt, "OptionalRef::none, OptionalRef::from");
    let none = OptionalInternedRef::none();
    let some = OptionalInternedRef::from(first);
    takes_none(
        rt,
        "OptionalRef::get, OptionalRef::is_some, OptionalRef::is_none",
    );
    ensure(some.get() == Some(first) && some.is_some())?;
    ensure(none.get() == None && none.is_none())?;
    takes_none(rt, "OptionalRef::name");
    ensure(some.name() == Some(first.name()) && none.name() == None)?;
    takes_none(rt, "comparisons of optional references");
    ensure(some == Some(first).into() && none != some)?;
    ensure(none < some && some < second.into())
}

// Texts that are stored, and one that isn't, while all births are given.
fn check_interning(
    rt: &impl Eprint,
    alloc: Global,
    storage: &mut Storage,
    handles: &Handles,
) -> Result<(), Fault> {
    prepares(rt);
    let live = offer(alloc, LIVE)?;
    takes_none(rt, "Interned::new");
    let (again, back) = Interned::new(storage, live)?;
    ensure(again == handles.live && is_text(back.as_ref(), Some(LIVE)))?;
    again.as_ref().decrement_refcount(storage)?;
    check_no_interning(rt, alloc, storage, FULL, Refusal::CountFull)?;
    check_no_interning(rt, alloc, storage, GONE, Refusal::NumbersUsedUp)
}

fn check_no_interning(
    rt: &impl Eprint,
    alloc: Global,
    storage: &mut Storage,
    text: &'static str,
    why: Refusal,
) -> Result<(), Fault> {
    prepares(rt);
    let offered = offer(alloc, text)?;
    takes_none(rt, "Interned::new");
    let back = gives_back(Interned::new(storage, offered), why)?;
    ensure(back.as_str() == text)
}

// None that must be released lives where an answer is judged.
fn check_owed(rt: &impl Eprint, storage: &mut Storage, handles: &Handles) -> Result<(), Fault> {
    let owned = handles.live.clone(storage)?;
    takes_none(rt, "Owed::from, Owed::get, Owed::as_ref, Owed::name");
    let owed = Owed::from(owned);
    let is_read = is_text(owed.get(storage), Some(LIVE));
    let is_named = owed.as_ref() == handles.live.as_ref() && owed.name() == handles.live.name();
    takes_none(rt, "Owed::clone, Owed::into_owned");
    let second = owed.clone(storage).map(|second| second.into_owned());
    takes_none(rt, "Owed::release");
    let kept = of_owed(owed.release(storage))?;
    ensure(is_read && is_named && kept.is_none())?;
    is_refused(second, Refusal::CountFull)
}

fn check_release(rt: &impl Eprint, storage: &mut Storage, handles: Handles) -> Result<(), Fault> {
    let Handles {
        live,
        full,
        zero,
        gone,
        foreign,
    } = handles;
    takes_none(rt, "Interned::release");
    ensure(full.release(storage)?.is_none())?;
    ensure(is_text(live.release(storage)?.as_ref(), Some(LIVE)))?;
    let foreign = gives_back(foreign.release(storage), Refusal::Foreign)?;
    let gone = gives_back(gone.release(storage), Refusal::Gone)?;
    let zero = gives_back(zero.release(storage), Refusal::CountZero)?;
    takes_none(rt, "Owed::release");
    gives_back(
        of_owed(Owed::from(foreign).release(storage)),
        Refusal::Foreign,
    )?;
    gives_back(of_owed(Owed::from(gone).release(storage)), Refusal::Gone)?;
    gives_back(
        of_owed(Owed::from(zero).release(storage)),
        Refusal::CountZero,
    )?;
    Ok(())
}
