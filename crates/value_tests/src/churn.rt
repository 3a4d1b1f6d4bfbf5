//! Entries that come and go, and storages that are given up.
ghost use Rattle.std.specs.Prelude.{◌≡◌, ◌≤◌, false};

use crate::kinds::{Number, Numeral};
use crate::numbers::{frees, intern_again, intern_new, not_interned, reads};
use crate::steps::{
    count_down, counted, has_count, has_len, is_same, not_counted_down, not_found, not_owned,
    not_released, own, push, reads_nothing, release, stored, take_over,
};
use intern_fixtures::{Unhashed, drop_values, limited_values, new_values};
use ra_ap_intern::{InternStorage, Interned, InternedRef, Limits, Refusal};
use std::alloc::Global;
use std::process::Abort;

/// What is known of a birth: a reference from the time when it was given, and the number that it
/// reads, unless its entry is gone.
#[derive_where(Clone, Copy)]
struct Birth<T> {
    reference: InternedRef<T>,
    number: Option<u64>,
}

/// The births of a storage, in their order.
type Ledger<T> = Vec<Birth<T>>;

#[test]
fn numbers_come_and_go(rt: HostRuntime) {
    some_rounds::<Number>(&rt, rt.alloc());
}

#[test]
fn numbers_that_all_hash_alike_come_and_go(rt: HostRuntime) {
    some_rounds::<Unhashed>(&rt, rt.alloc());
}

#[test]
fn handles_of_a_storage_given_up_stand_for_their_births(rt: HostRuntime) {
    let alloc = rt.alloc();
    let mut first: InternStorage<Number> = new_values(alloc, 1);
    let mut given_up = Vec::new(alloc);
    come_and_go(&rt, alloc, &mut first, &mut given_up, 3);
    come_and_go(&rt, alloc, &mut first, &mut given_up, 2);
    let handles = own_all(&rt, alloc, &mut first, &given_up);
    drop(first);

    let mut second: InternStorage<Number> = new_values(alloc, 1);
    let mut ledger = Vec::new(alloc);
    come_and_go(&rt, alloc, &mut second, &mut ledger, 2);
    let _ = remove_each(&rt, alloc, &mut second, &mut ledger, 7);
    let mut seen = seen_from(&rt, alloc, &given_up, &ledger);
    is_as_told(&rt, &mut second, &seen);
    for handle in handles {
        release_by_birth(&rt, &mut second, &mut seen, handle);
    }
    is_as_told(&rt, &mut second, &seen);
    drop_values(second);
}

#[test]
fn removals_give_no_birth_back(rt: HostRuntime) {
    let alloc = rt.alloc();
    let limits = Limits {
        top: 4,
        numbers: 300,
    };
    let mut storage: InternStorage<Number> = limited_values(alloc, 1, limits);
    let mut ledger = Vec::new(alloc);
    come_and_go(&rt, alloc, &mut storage, &mut ledger, 2);
    not_interned(&rt, &mut storage, 300);
    let _ = remove_each(&rt, alloc, &mut storage, &mut ledger, 1);
    for number in [0, 299, 300] {
        not_interned(&rt, &mut storage, number);
    }
    is_as_told(&rt, &mut storage, &ledger);
    drop_values(storage);
}

/// The count that these tests give to a birth. It differs from that of the births around it.
fn count_of(birth: u64) -> u64
    ensures { result ≤ 3 }
{
    1 + birth % 3
}

/// Rounds in which a thousand numbers are stored and removed, at last all of them.
fn some_rounds<T: Numeral>(rt: &impl Abort, alloc: Global)
    requires { T.Internable.USE_GC ≡ false }
{
    let mut storage: InternStorage<T> = new_values(alloc, 1);
    let mut ledger = Vec::new(alloc);
    for step in [2, 3, 2, 5, 1] {
        come_and_go(rt, alloc, &mut storage, &mut ledger, step);
    }
}

/// Interns numbers that were never stored, removes the entries of each birth that this number
/// divides, and interns their numbers anew. All is as told after each of the three.
fn come_and_go<T: Numeral>(
    rt: &impl Abort,
    alloc: Global,
    storage: &mut InternStorage<T>,
    ledger: &mut Ledger<T>,
    step: u64,
)
    requires { T.Internable.USE_GC ≡ false }
{
    for _ in 0..200 {
        let number = ledger.len() as u64;
        intern(rt, storage, ledger, number);
    }
    is_as_told(rt, storage, ledger);
    let removed = remove_each(rt, alloc, storage, ledger, step);
    is_as_told(rt, storage, ledger);
    for number in removed {
        intern(rt, storage, ledger, number);
    }
    is_as_told(rt, storage, ledger);
}

/// Interns a number that isn't stored: it gets the birth above all before, and is counted as that
/// birth is to be.
fn intern<T: Numeral>(
    rt: &impl Abort,
    storage: &mut InternStorage<T>,
    ledger: &mut Ledger<T>,
    number: u64,
)
    requires { T.Internable.USE_GC ≡ false }
{
    let birth = ledger.len() as u64;
    let reference = intern_new(rt, storage, number, birth).as_ref();
    for count in 1..count_of(birth) {
        let _ = own(rt, storage, reference, count + 1);
    }
    let number = Some(number);
    push(rt, ledger, Birth { reference, number });
}

/// Removes the entries of each birth that this number divides, and gives their numbers.
fn remove_each<T: Numeral>(
    rt: &impl Abort,
    alloc: Global,
    storage: &mut InternStorage<T>,
    ledger: &mut Ledger<T>,
    step: u64,
) -> Vec<u64>
    requires { T.Internable.USE_GC ≡ false }
{
    let mut removed = Vec::new(alloc);
    for birth in ledger.iter_mut() {
        if birth.reference.as_raw().is_multiple_of(step)
            && let Some(number) = birth.number.take()
        {
            remove(rt, storage, birth.reference, number);
            push(rt, &mut removed, number);
        }
    }
    removed
}

/// Removes the entry of a reference, which gives this number back.
fn remove<T: Numeral>(
    rt: &impl Abort,
    storage: &mut InternStorage<T>,
    reference: InternedRef<T>,
    number: u64,
)
    requires { T.Internable.USE_GC ≡ false }
{
    let count = count_of(reference.as_raw());
    let handle = own(rt, storage, reference, count + 1);
    free(rt, storage, handle, number);
}

/// Takes back all counts but one, and releases this handle as the last: this number comes back.
fn free<T: Numeral>(
    rt: &impl Abort,
    storage: &mut InternStorage<T>,
    handle: Interned<T>,
    number: u64,
)
    requires { T.Internable.USE_GC ≡ false }
{
    let reference = handle.as_ref();
    let count = counted(storage, reference).expect(rt, "stored");
    for taken in 1..count {
        count_down(rt, storage, reference, count - taken);
    }
    frees(rt, storage, handle, number);
}

/// Each entry that the ledger has is there, and no other: not at a birth that is gone, nor at one
/// that wasn't given yet.
fn is_as_told<T: Numeral>(rt: &impl Abort, storage: &mut InternStorage<T>, ledger: &Ledger<T>)
    requires { T.Internable.USE_GC ≡ false }
{
    for birth in ledger {
        is_as_noted(rt, storage, *birth);
    }
    has_len(rt, storage, live(ledger));
    not_found(rt, storage, ledger.len() as u64);
}

/// How many births have entries.
fn live<T>(ledger: &Ledger<T>) -> usize {
    let mut live = 0usize;
    for birth in ledger {
        if birth.number.is_some() {
            live = live.wrapping_add(1);
        }
    }
    live
}

/// The entry of a birth is there, or is gone, as is noted.
fn is_as_noted<T: Numeral>(rt: &impl Abort, storage: &mut InternStorage<T>, birth: Birth<T>)
    requires { T.Internable.USE_GC ≡ false }
{
    match birth.number {
        Some(number) => is_there(rt, storage, birth.reference, number),
        None => is_gone(rt, storage, birth.reference),
    }
}

/// The reference reads this number, and has the count of its birth. Its birth leads to the same
/// entry, and so does the number.
fn is_there<T: Numeral>(
    rt: &impl Abort,
    storage: &mut InternStorage<T>,
    reference: InternedRef<T>,
    number: u64,
)
    requires { T.Internable.USE_GC ≡ false }
{
    reads(rt, storage, reference, number);
    has_count(rt, storage, reference, count_of(reference.as_raw()));
    is_found_by_birth(rt, storage, reference, number);
    is_found_by_number(rt, storage, reference, number);
}

/// The birth of a reference leads to its entry, where a count by either counts.
fn is_found_by_birth<T: Numeral>(
    rt: &impl Abort,
    storage: &mut InternStorage<T>,
    reference: InternedRef<T>,
    number: u64,
) {
    let count = count_of(reference.as_raw());
    let found = stored(rt, storage, reference.as_raw());
    is_same(rt, found, reference);
    reads(rt, storage, found, number);
    let _ = own(rt, storage, reference, count + 1);
    has_count(rt, storage, found, count + 1);
    let taken = take_over(rt, storage, (reference.as_raw(), count + 1));
    is_same(rt, taken.as_ref(), reference);
    release(rt, storage, taken, count);
    has_count(rt, storage, reference, count);
}

/// A number leads to the entry of its reference, where a count by either counts.
fn is_found_by_number<T: Numeral>(
    rt: &impl Abort,
    storage: &mut InternStorage<T>,
    reference: InternedRef<T>,
    number: u64,
)
    requires { T.Internable.USE_GC ≡ false }
{
    let birth = reference.as_raw();
    let count = count_of(birth);
    let again = intern_again(rt, storage, number, (birth, count + 1));
    count_down(rt, storage, reference, count);
    has_count(rt, storage, again.as_ref(), count);
}

/// Nothing is read or counted by the reference, nor found by its birth.
fn is_gone<T: Numeral>(rt: &impl Abort, storage: &mut InternStorage<T>, reference: InternedRef<T>) {
    reads_nothing(rt, storage, reference);
    not_found(rt, storage, reference.as_raw());
    not_owned(rt, storage, reference, Refusal::Gone);
    not_counted_down(rt, storage, reference, Refusal::Gone);
}

/// Makes an owned handle of each entry that is there.
fn own_all<T: Numeral>(
    rt: &impl Abort,
    alloc: Global,
    storage: &mut InternStorage<T>,
    ledger: &Ledger<T>,
) -> Vec<Interned<T>> {
    let mut owned = Vec::new(alloc);
    for birth in ledger {
        if birth.number.is_some() {
            let count = count_of(birth.reference.as_raw());
            let handle = own(rt, storage, birth.reference, count + 1);
            push(rt, &mut owned, handle);
        }
    }
    owned
}

/// The references of a storage given up, with the numbers that the one in its place has under their
/// births.
fn seen_from<T: Numeral>(
    rt: &impl Abort,
    alloc: Global,
    given_up: &Ledger<T>,
    ledger: &Ledger<T>,
) -> Ledger<T> {
    let mut seen = Vec::new(alloc);
    for Birth { reference, .. } in given_up {
        let reference = *reference;
        let number = match ledger.get(reference.as_raw() as usize) {
            Some(birth) => birth.number,
            None => None,
        };
        push(rt, &mut seen, Birth { reference, number });
    }
    seen
}

/// Releases a handle as the last of the entry that has its birth now, or is refused where there is
/// none.
fn release_by_birth<T: Numeral>(
    rt: &impl Abort,
    storage: &mut InternStorage<T>,
    ledger: &mut Ledger<T>,
    handle: Interned<T>,
)
    requires { T.Internable.USE_GC ≡ false }
{
    let birth = ledger
        .get_mut(handle.as_ref().as_raw() as usize)
        .expect(rt, "given");
    match birth.number.take() {
        Some(number) => free(rt, storage, handle, number),
        None => {
            let _ = not_released(rt, storage, handle, Refusal::Gone);
        }
    }
}
