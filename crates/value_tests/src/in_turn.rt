//! Values that are interned in turn by one call.
ghost use Rattle.std.specs.Prelude.{◌≡◌};

use crate::kinds::{Kept, Number, Numeral};
use crate::steps::{has_birth, has_count, has_len, is_equal, is_reason, push};
use intern_fixtures::{allowed, drop_values, limited_values, new_values};
use ra_ap_intern::{InternHandle, InternStorage, Interned, InternedRef, Limits, Refusal, Refused};
use std::alloc::Global;
use std::process::Abort;
use std::vec::IntoIter;

/// The values of numbers.
fn values<T: Numeral>(rt: &impl Abort, alloc: Global, numbers: &[u64]) -> IntoIter<T> {
    let mut values = Vec::new(alloc);
    for number in numbers {
        push(rt, &mut values, T::of(*number));
    }
    values.into_iter()
}

/// All values that are left are interned.
fn interns_all<T: Numeral, H: InternHandle<T>>(
    rt: &impl Abort,
    storage: &mut InternStorage<T>,
    values: &mut IntoIter<T>,
    handles: &mut Vec<H>,
)
    requires { T.Internable.USE_GC ≡ H.USE_GC }
{
    allowed(storage.extend(values, handles)).expect(rt, "interned");
    is_equal(rt, values.len(), 0);
}

/// A value is refused for this reason, and is this number; so many are left behind it.
fn refuses<T: Numeral, H: InternHandle<T>>(
    rt: &impl Abort,
    storage: &mut InternStorage<T>,
    values: &mut IntoIter<T>,
    handles: &mut Vec<H>,
    refused: (Refusal, u64, usize),
)
    requires { T.Internable.USE_GC ≡ H.USE_GC }
{
    let (reason, number, left) = refused;
    let Refused { why, back } = storage.extend(values, handles).err().expect(rt, "refused");
    is_reason(rt, why, reason);
    is_equal(rt, back, T::of(number));
    is_equal(rt, values.len(), left);
}

/// The handles have these births.
fn have_births<T>(rt: &impl Abort, handles: &[Interned<T>], births: &[u64]) {
    let mut births = births.iter();
    for handle in handles {
        is_equal(rt, Some(&handle.as_ref().as_raw()), births.next());
    }
    is_equal(rt, births.next(), None);
}

#[test]
fn owned_handles_of_values_in_turn(rt: HostRuntime) {
    let alloc = rt.alloc();
    let mut storage: InternStorage<Number> = new_values(alloc, 1);
    let (seven, _) = allowed(Interned::new(&mut storage, Number::of(7))).expect(&rt, "interned");
    let first = seven.as_ref();
    let mut handles = Vec::new(alloc);
    push(&rt, &mut handles, seven);
    let mut values = values(&rt, alloc, &[5, 7, 5]);
    interns_all(&rt, &mut storage, &mut values, &mut handles);
    have_births(&rt, handles.as_slice(), &[0, 1, 0, 1]);
    has_count(&rt, &storage, first, 2);
    has_len(&rt, &storage, 2);
    drop_values(storage);
}

#[test]
fn references_to_values_in_turn(rt: HostRuntime) {
    let alloc = rt.alloc();
    let mut storage: InternStorage<Kept> = new_values(alloc, 1);
    let mut references: Vec<InternedRef<Kept>> = Vec::new(alloc);
    let mut values = values(&rt, alloc, &[5, 7, 5]);
    interns_all(&rt, &mut storage, &mut values, &mut references);
    is_equal(&rt, references.len(), 3);
    for (reference, birth) in references.iter().zip([0, 1, 0]) {
        has_birth(&rt, *reference, birth);
        has_count(&rt, &storage, *reference, 0);
    }
    drop_values(storage);
}

#[test]
fn no_values_change_nothing(rt: HostRuntime) {
    let alloc = rt.alloc();
    let mut storage: InternStorage<Number> = new_values(alloc, 1);
    let mut handles: Vec<Interned<Number>> = Vec::new(alloc);
    let mut values = values(&rt, alloc, &[]);
    interns_all(&rt, &mut storage, &mut values, &mut handles);
    is_equal(&rt, handles.len(), 0);
    has_len(&rt, &storage, 0);
    drop_values(storage);
}

#[test]
fn a_refused_value_comes_back_and_those_behind_it_are_left(rt: HostRuntime) {
    let alloc = rt.alloc();
    let mut storage: InternStorage<Number> = limited_values(
        alloc,
        1,
        Limits { top: 2, numbers: 3 },
    );
    let mut handles: Vec<Interned<Number>> = Vec::new(alloc);
    let mut values = values(&rt, alloc, &[4, 5, 4, 4, 6, 7, 5]);
    refuses(
        &rt,
        &mut storage,
        &mut values,
        &mut handles,
        (Refusal::CountFull, 4, 3),
    );
    have_births(&rt, handles.as_slice(), &[0, 1, 0]);
    refuses(
        &rt,
        &mut storage,
        &mut values,
        &mut handles,
        (Refusal::NumbersUsedUp, 7, 1),
    );
    have_births(&rt, handles.as_slice(), &[0, 1, 0, 2]);
    interns_all(&rt, &mut storage, &mut values, &mut handles);
    have_births(&rt, handles.as_slice(), &[0, 1, 0, 2, 1]);
    drop_values(storage);
}

#[test]
fn a_collected_value_is_refused_where_births_are_used_up(rt: HostRuntime) {
    let alloc = rt.alloc();
    let mut storage: InternStorage<Kept> = limited_values(alloc, 1, Limits { top: 1, numbers: 1 });
    let mut references: Vec<InternedRef<Kept>> = Vec::new(alloc);
    let mut values = values(&rt, alloc, &[4, 4, 5, 4]);
    refuses(
        &rt,
        &mut storage,
        &mut values,
        &mut references,
        (Refusal::NumbersUsedUp, 5, 1),
    );
    interns_all(&rt, &mut storage, &mut values, &mut references);
    is_equal(&rt, references.len(), 3);
    has_len(&rt, &storage, 1);
    drop_values(storage);
}
