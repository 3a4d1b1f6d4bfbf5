//! Steps of tests over numbers, which are counted, each with the answer that it must get.
ghost use Rattle.std.specs.Prelude.{◌≡◌, false};

use crate::kinds::Numeral;
use crate::steps::{self, is_equal, release_last};
use ra_ap_intern::{InternStorage, Interned, InternedRef, Refusal};
use std::process::Abort;

/// Interns a number that isn't stored: it gets this birth and count 1, and nothing comes back.
pub fn intern_new<T: Numeral>(
    rt: &impl Abort,
    storage: &mut InternStorage<T>,
    number: u64,
    birth: u64,
) -> Interned<T>
    requires { T.Internable.USE_GC ≡ false }
{
    steps::intern_new(rt, storage, T::of(number), birth)
}

/// Interns a number that is stored under this birth: it comes back, and its entry has this count.
pub fn intern_again<T: Numeral>(
    rt: &impl Abort,
    storage: &mut InternStorage<T>,
    number: u64,
    counted: (u64, u64),
) -> Interned<T>
    requires { T.Internable.USE_GC ≡ false }
{
    let (handle, back) = steps::intern_again(rt, storage, T::of(number), counted);
    is_equal(rt, back, T::of(number));
    handle
}

/// Interns a number that isn't stored where all births are given: it comes back, and no entry is
/// added.
pub fn not_interned<T: Numeral>(rt: &impl Abort, storage: &mut InternStorage<T>, number: u64)
    requires { T.Internable.USE_GC ≡ false }
{
    let back = steps::not_interned(rt, storage, T::of(number), Refusal::NumbersUsedUp);
    is_equal(rt, back, T::of(number));
}

/// Reads this number.
pub fn reads<T: Numeral>(
    rt: &impl Abort,
    storage: &InternStorage<T>,
    reference: InternedRef<T>,
    number: u64,
) {
    is_equal(rt, reference.get(storage).copied(), Some(T::of(number)));
}

/// Releases the last handle: this number comes back, and its entry is gone.
pub fn frees<T: Numeral>(
    rt: &impl Abort,
    storage: &mut InternStorage<T>,
    handle: Interned<T>,
    number: u64,
) {
    is_equal(rt, release_last(rt, storage, handle), T::of(number));
}
