//! Room that is made in front: either both of two are interned, or, where there is no memory for
//! them, nothing has happened.
#![tactic(auto)]

ghost use Rattle.std.specs.Prelude.{◌≡◌, ◌<◌, ◌⊎◌, true, Some, IfOk, OnOk, IfErr};
ghost use Rattle.ra_ap_intern.specs.Handle.{ref_name};
ghost use Rattle.ra_ap_intern.specs.Outcome.{Becomes, OwesBack, Spends};
ghost use Rattle.ra_ap_intern.specs.Sliced.{sliced_eq};
ghost use Rattle.ra_ap_intern.specs.Slices.{slice_in, slice_name_in, due_slice};
ghost use Rattle.ra_ap_intern.specs.State.{interned, interned_name, due_interning, any_count};

use ra_ap_intern::{
    InternSliceStorage, InternStorage, Internable, InternedRef, InternedSliceRef, Refusal, Refused,
    Reserved, SliceInternable, Values,
};

/// References of two values, in collected mode. Refused: `NumbersUsedUp`, as one of them is, and
/// where it is the second the first is stored; `OutOfMemory`, where nothing has happened.
pub fn intern_two<T: Internable + Drop>(
    storage: &mut InternStorage<T>,
    first: T,
    second: T,
) -> Result<(InternedRef<T>, InternedRef<T>), Refusal>
    requires { T.Internable.USE_GC ≡ true }
    ensures first { IfOk result (λ r. ref_name r.0 ≡ interned_name T.eq storage.old first) }
    ensures second { IfOk result (λ r.
        ref_name r.1 ≡ interned_name T.eq (interned T.eq storage.old first).state second) }
    ensures state { OnOk result (storage.new
        ≡ (interned T.eq (interned T.eq storage.old first).state second).state) }
    ensures neither { IfErr result (λ why. why ≡ Refusal.OutOfMemory → storage.new ≡ storage.old) }
    ensures refused { let after = (interned T.eq storage.old first).state in IfErr result (λ why.
        (why ≡ Refusal.OutOfMemory)
        ⊎ ((due_interning T.eq storage.old first any_count ≡ Some why)
        × (storage.new ≡ storage.old))
        ⊎ ((due_interning T.eq after second any_count ≡ Some why) × (storage.new ≡ after))) }
{
    let room = storage.reserve(2)?;
    let (first, _) = room.intern_gc(first)?;
    let (second, _) = room.intern_gc(second)?;
    Ok((first, second))
}

/// The reference of a value, in room that was made before: of that it takes one at most. Refused,
/// with the value back: `NumbersUsedUp` where it isn't stored.
pub fn intern_next<T: Internable + Drop>(
    room: &mut Reserved<Values<T>>,
    value: T,
) -> Result<InternedRef<T>, Refused<T>>
    requires collected { T.Internable.USE_GC ≡ true }
    requires room { 0 < room.old.room }
    ensures name { IfOk result (λ r.
        ref_name r ≡ interned_name T.eq room.old.state value) }
    ensures refused { OwesBack result
        (due_interning T.eq room.old.state value any_count) value }
    ensures left { Spends result room.old.room room.new.room 1 }
    ensures state { Becomes result room.old.state room.new.state
        (interned T.eq room.old.state value).state }
{
    let (reference, _) = room.intern_gc(value)?;
    Ok(reference)
}

/// References of two lists of items, each under its header. Refused as `intern_two` is.
pub fn intern_two_lists<T: SliceInternable>(
    storage: &mut InternSliceStorage<T>,
    first: (T::Header, &[T::SliceType]),
    second: (T::Header, &[T::SliceType]),
) -> Result<(InternedSliceRef<T>, InternedSliceRef<T>), Refusal>
where
    T::Header: Drop,
    requires { T.SliceInternable.USE_GC ≡ true }
    ensures first { let eq = sliced_eq T.Header.eq T.SliceType.eq in IfOk result (λ r.
        ref_name r.0 ≡ slice_name_in eq storage.old first.entry.0 first.entry.1.now) }
    ensures second { let eq = sliced_eq T.Header.eq T.SliceType.eq in IfOk result (λ r.
        ref_name r.1 ≡ slice_name_in eq
        (slice_in eq storage.old first.entry.0 first.entry.1.now).state
        second.entry.0 second.entry.1.now) }
    ensures state { let eq = sliced_eq T.Header.eq T.SliceType.eq in OnOk result (storage.new
        ≡ (slice_in eq (slice_in eq storage.old first.entry.0 first.entry.1.now).state
        second.entry.0 second.entry.1.now).state) }
    ensures neither { IfErr result (λ why. why ≡ Refusal.OutOfMemory → storage.new ≡ storage.old) }
    ensures refused { let eq = sliced_eq T.Header.eq T.SliceType.eq in
        let after = (slice_in eq storage.old first.entry.0 first.entry.1.now).state in
        IfErr result (λ why. (why ≡ Refusal.OutOfMemory)
        ⊎ ((due_slice eq storage.old first.entry.0 first.entry.1.now ≡ Some why)
        × (storage.new ≡ storage.old))
        ⊎ ((due_slice eq after second.entry.0 second.entry.1.now ≡ Some why)
        × (storage.new ≡ after))) }
{
    let Some(items) = first.1.len().checked_add(second.1.len()) else {
        return Err(Refusal::OutOfMemory);
    };
    let room = storage.reserve(2)?;
    room.reserve_items(items)?;
    let (first, _) = room.intern(first.0, first.1)?;
    let (second, _) = room.intern(second.0, second.1)?;
    Ok((first, second))
}
