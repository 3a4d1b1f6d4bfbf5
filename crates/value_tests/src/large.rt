//! Storages with many entries.
ghost use Rattle.std.specs.Prelude.{◌≡◌, false};

use crate::kinds::{Number, Numeral};
use crate::numbers::{frees, intern_again, intern_new, reads};
use crate::steps::{has_len, push, reads_nothing, stored};
use intern_fixtures::{Unhashed, drop_values, new_values};
use ra_ap_intern::{InternStorage, Interned};
use std::alloc::Global;
use std::process::Abort;

#[test]
fn half_of_ten_thousand_values_are_born_anew(rt: HostRuntime) {
    let alloc = rt.alloc();
    let mut storage: InternStorage<Number> = new_values(alloc, 1);
    let evens = intern_numbers(&rt, alloc, &mut storage, 10_000);
    let zero = stored(&rt, &storage, 0);
    free_numbers(&rt, &mut storage, evens);
    has_len(&rt, &storage, 5_000);
    for j in 0..5_000 {
        reads(&rt, &storage, stored(&rt, &storage, 2 * j + 1), 2 * j + 1);
    }
    for j in 0..5_000 {
        let _ = intern_new(&rt, &mut storage, 2 * j, 10_000 + j);
    }
    has_len(&rt, &storage, 10_000);
    reads_nothing(&rt, &storage, zero);
    drop_values(storage);
}

#[test]
fn values_that_all_hash_alike_are_told_apart(rt: HostRuntime) {
    let alloc = rt.alloc();
    let mut storage: InternStorage<Unhashed> = new_values(alloc, 1);
    let evens = intern_numbers(&rt, alloc, &mut storage, 1_000);
    free_numbers(&rt, &mut storage, evens);
    let _ = intern_again(&rt, &mut storage, 1, (1, 2));
    let _ = intern_new(&rt, &mut storage, 0, 1_000);
    drop_values(storage);
}

/// Interns the numbers below this one, each under itself as its birth. It gives the handles of the
/// even ones.
fn intern_numbers<T: Numeral>(
    rt: &impl Abort,
    alloc: Global,
    storage: &mut InternStorage<T>,
    numbers: u64,
) -> Vec<Interned<T>>
    requires { T.Internable.USE_GC ≡ false }
{
    let mut evens = Vec::new(alloc);
    for k in 0..numbers {
        let handle = intern_new(rt, storage, k, k);
        if k % 2 == 0 {
            push(rt, &mut evens, handle);
        }
    }
    evens
}

/// Releases the last handle of each number that is its own birth: the numbers come back.
fn free_numbers<T: Numeral>(
    rt: &impl Abort,
    storage: &mut InternStorage<T>,
    handles: Vec<Interned<T>>,
) {
    for handle in handles {
        let birth = handle.as_ref().as_raw();
        frees(rt, storage, handle, birth);
    }
}
