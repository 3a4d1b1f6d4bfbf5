//! Owned handles that must be released.
//!
//! An [`Owed`] has the calls of the [`Owned`] in it, and no program may let one go: it ends in
//! `release`, or in `into_owned`, which says where a count stays.
ghost use Rattle.std.specs.Prelude.{◌≡◌, IfOk, option_copied};
ghost use Rattle.std.specs.Option.{option_map};
ghost use Rattle.intern_store.specs.Outcome.{Owes, OwesBack, Becomes};
ghost use Rattle.intern_store.specs.State.{reads, counted_up, counted_down, due, full, zero_count, freed, released};
ghost use Rattle.intern_table.specs.Read.{read};
ghost use Rattle.ra_ap_intern.specs.Handle.{handle_of, name_of, ref_name};
ghost use Rattle.ra_ap_intern.specs.Slices.{sized};

use crate::intern::{InternStorage, Internable};
use crate::intern_slice::{InternSliceStorage, SliceInternable};
use crate::kind::{Kind, Slices, Values};
use crate::storage::{Owned, Ref, Storage};
use intern_store::{Name, Refusal, Refused};
use intern_table::{Far, HeaderSlice, Layout};
use std::fmt;
use std::hash::BuildHasher;

/// An owned handle that can't be dropped: a program that lets one go is refused as it is compiled.
///
/// It is made from an [`Owned`], counts as that does, and is compared, ordered, hashed and shown by
/// its name alone. Where a call is refused and `?` would let one go, take `into_owned` first.
#[derive_where(PartialEq, Eq, PartialOrd, Ord, Hash)]
pub struct Owed<K> {
    handle: Owned<K>,
}

/// An owned handle of a value that must be released.
pub type OwedValue<T> = Owed<Values<T>>;

/// An owned handle of a header with items that must be released.
pub type OwedSlice<T, L = Far> = Owed<Slices<T, L>>;

impl<K> fmt::Debug for Owed<K> {
    fn fmt<W: fmt::Write>(&self, f: &mut fmt::Formatter<W>) -> fmt::Result {
        write!(f, "Owed({})", self.name())
    }
}

impl<K> From<Owned<K>> for Owed<K> {
    ghost from_gives = { λ handle owed. handle_of owed ≡ handle };

    fn from(handle: Owned<K>) -> Owed<K> {
        Owed { handle }
    }
}

impl<'a, K> From<&'a Owed<K>> for Ref<K> {
    ghost from_gives = { λ owed reference. ref_name reference ≡ name_of (handle_of owed.now) };

    fn from(owed: &'a Owed<K>) -> Ref<K> {
        owed.as_ref()
    }
}

impl<K> Owed<K> {
    /// A second one, which counts one more. Refused: `Foreign`, `Gone`, `CountFull`.
    pub fn clone<B>(&self, storage: &mut Storage<K, B>) -> Result<Owed<K>, Refusal>
    where
        K: Kind<B>,
        ensures ok { IfOk result (λ h. name_of (handle_of h) ≡ name_of (handle_of self.now)) }
        ensures refused { Owes result
            (due storage.old (name_of (handle_of self.now)) (full storage.old.top)) }
        ensures state { Becomes result storage.old storage.new
            (counted_up storage.old (name_of (handle_of self.now)).birth) }
    {
        Ok(Owed::from(self.handle.clone(storage)?))
    }

    /// The handle as one that may be dropped: its count is its holder's affair again.
    pub fn into_owned(self) -> Owned<K>
        ensures { result ≡ handle_of self }
    {
        let Owed { handle } = self;
        handle
    }

    /// A reference to the same entry.
    pub fn as_ref(&self) -> Ref<K>
        ensures { ref_name result ≡ name_of (handle_of self.now) }
    {
        self.handle.as_ref()
    }

    /// The entry's name: the storage's number and the birth.
    pub fn name(&self) -> Name
        ensures { result ≡ name_of (handle_of self.now) }
    {
        self.handle.name()
    }
}

impl<T: Internable> OwedValue<T> {
    /// The value, borrowed from the storage.
    /// None for a handle of another storage, or of an entry that is gone.
    pub fn get<'a, B: BuildHasher>(&self, storage: &'a InternStorage<T, B>) -> Option<&'a T>
        ensures { option_copied result ≡ reads storage.now (name_of (handle_of self.now)) }
    {
        self.handle.get(storage)
    }

    /// Gives the handle up, with its count, as `release` of [`Owned`] does: in counted mode the
    /// last release frees the value and gives it back.
    /// Refused, with the handle back: `Foreign`, `Gone`, `CountZero`.
    pub fn release<B: BuildHasher>(
        self,
        storage: &mut InternStorage<T, B>,
    ) -> Result<Option<T>, Refused<OwedValue<T>>>
        ensures value { IfOk result (λ v.
            v ≡ freed T.Internable.USE_GC storage.old (name_of (handle_of self)).birth) }
        ensures refused { OwesBack result
            (due storage.old (name_of (handle_of self)) zero_count) self }
        ensures state { Becomes result storage.old storage.new
            (released T.Internable.USE_GC storage.old (name_of (handle_of self)).birth) }
    {
        self.into_owned().release(storage).map_err(back)
    }
}

impl<T: SliceInternable, L: Layout<T::SliceType>> OwedSlice<T, L> {
    /// The header and the items, borrowed from the storage.
    /// None for a handle of another storage, or of an entry that is gone.
    pub fn get<'a, B: BuildHasher>(
        &self,
        storage: &'a InternSliceStorage<T, B, L>,
    ) -> Option<HeaderSlice<'a, T::Header, T::SliceType>>
        ensures { option_map read result
            ≡ option_map sized (reads storage.now (name_of (handle_of self.now))) }
    {
        self.handle.get(storage)
    }

    /// Gives the handle up, with its count. The entry stays.
    /// Refused, with the handle back: `Foreign`, `Gone`, `CountZero`.
    pub fn release<B: BuildHasher>(
        self,
        storage: &mut InternSliceStorage<T, B, L>,
    ) -> Result<(), Refused<OwedSlice<T, L>>>
        ensures refused { OwesBack result
            (due storage.old (name_of (handle_of self)) zero_count) self }
        ensures state { Becomes result storage.old storage.new
            (counted_down storage.old (name_of (handle_of self)).birth) }
    {
        self.into_owned().release(storage).map_err(back)
    }
}

// The refusal, with the handle as it was given.
fn back<K>(refused: Refused<Owned<K>>) -> Refused<Owed<K>>
    ensures why { result.why ≡ refused.why }
    ensures back { handle_of result.back ≡ refused.back }
{
    let Refused { why, back } = refused;
    Refused {
        why,
        back: Owed::from(back),
    }
}
