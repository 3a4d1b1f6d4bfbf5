//! Interning of slices with headers.
//!
//! A storage keeps one copy of each equal pair of a header and a list of items, in collected mode:
//! entries stay until a collection. The items of all entries lie in one vector, or, in a
//! [`NearSliceStorage`], those of short lists in their entries.
//!
//! A handle that is dropped without `release` keeps its count.
ghost use Rattle.std.specs.Prelude.{◌≡◌, ◌≤◌, if◌then◌else◌, None, IsOk, OnOk, length, true, Bool, IsPermutation, IfOk};
ghost use Rattle.std.specs.Option.{option_map};
ghost use Rattle.intern_store.specs.Outcome.{OwesBack, MayWant, MayWantBack, Becomes, Spends};
ghost use Rattle.intern_store.specs.State.{HasRoom, name_of_value, name_where, reads, counted_down, due, zero_count};
ghost use Rattle.intern_table.specs.Read.{read};
ghost use Rattle.intern_table.specs.Sliced.{sliced_eq, sliced_fits};
ghost use Rattle.ra_ap_intern.specs.Handle.{name_of, ref_name};
ghost use Rattle.ra_ap_intern.specs.Slices.{slice_of, sized, named_slices, slice_in, slice_name_in, slice_back, due_slice, is_new_slice};

mod iter;

use crate::kind::Slices;
use crate::storage::{Owned, Ref, Reserved, Storage};
use intern_store::{Refusal, Refused};
use intern_table::{Equivalent, Far, FixedState, HeaderSlice, Layout, Near};
pub use iter::SliceIter;
use std::cmp::Eq;
use std::hash::{BuildHasher, Hash};

/// What kind of headers and items a storage keeps.
pub trait SliceInternable {
    /// What stands before the items.
    type Header: Eq + Hash;

    /// An item.
    type SliceType: Eq + Hash + Copy;

    /// Whether entries stay until a collection. They do: slices are interned in collected mode
    /// alone.
    const USE_GC: bool;

    ghost USE_GC: { Bool };
}

/// A storage of headers with items, each pair kept once, and hashed by a hasher that `B` builds.
///
/// Two pairs are equal where their headers are, and their items one by one. An empty list is an
/// ordinary value, and items may have size zero. Only interning a pair that isn't stored takes
/// memory, where no room was reserved for it; its items are copied once.
pub type InternSliceStorage<T, B = FixedState, L = Far> = Storage<Slices<T, L>, B>;

/// A storage of headers with items, which keeps up to `N` items of a list in its entry and longer
/// lists in one vector. Its calls and its handles are those of every storage of slices.
///
/// Each entry takes the room of `N` items, and of a mark whether they are there. In turn a list
/// that lies in its entry is read and compared without a look at the vector, and a sweep moves the
/// others alone. So it is for storages whose lists have mostly up to `N` items.
pub type NearSliceStorage<T, const N: usize, B = FixedState> = InternSliceStorage<T, B, Near<N>>;

/// An owned handle of a header with items, which counts one.
pub type InternedSlice<T, L = Far> = Owned<Slices<T, L>>;

/// A reference to a header with items, which counts nothing.
pub type InternedSliceRef<T, L = Far> = Ref<Slices<T, L>>;

impl<T: SliceInternable, L: Layout<T::SliceType>, B: BuildHasher> InternSliceStorage<T, B, L> {
    /// A reference to the entry with this header and these items. None where no equal pair is
    /// stored. It takes no memory.
    pub fn get(&self, header: &T::Header, slice: &[T::SliceType]) -> Option<InternedSliceRef<T, L>>
        ensures { let eq = sliced_eq T.Header.eq T.SliceType.eq in option_map ref_name result
            ≡ name_of_value eq self.now (slice_of header.now slice.now) }
    {
        self.find(header, slice)
    }

    /// A reference to the entry with these items, and with a header that this one is equivalent to:
    /// none has to be built to look it up. None where there is no such entry. It takes no memory.
    pub fn find<Q: Equivalent<T::Header>>(
        &self,
        header: Q,
        slice: &[T::SliceType],
    ) -> Option<InternedSliceRef<T, L>>
        ensures { option_map ref_name result
            ≡ name_where (sliced_fits (Q.equivalent header) T.SliceType.eq slice.now) self.now }
    {
        Some(Ref::new(self.inner.store.find(&(header, slice))?))
    }

    /// The entries, each with a reference to it, in no promised order. It takes no memory, and goes
    /// over as many places as there were entries at one time.
    pub fn iter(&self) -> SliceIter<'_, T, L>
        ensures { IsPermutation result (named_slices self.now) }
    {
        SliceIter {
            number: self.inner.store.number(),
            entries: self.inner.store.table().iter(),
        }
    }
}

impl<T: SliceInternable, L: Layout<T::SliceType>, B: BuildHasher> InternSliceStorage<T, B, L>
where
    T::Header: Drop,
{
    /// The reference that [`InternedSlice::from_header_and_slice`] gives, and nothing beside it.
    /// The header is dropped where an equal pair is stored, and where the call is refused, as that
    /// is: `NumbersUsedUp`, `OutOfMemory`.
    pub fn get_or_intern(
        &mut self,
        header: T::Header,
        slice: &[T::SliceType],
    ) -> Result<InternedSliceRef<T, L>, Refusal>
        requires { T.SliceInternable.USE_GC ≡ true }
        ensures name { let eq = sliced_eq T.Header.eq T.SliceType.eq in
            IfOk result (λ r. ref_name r ≡ slice_name_in eq self.old header slice.now) }
        ensures refused { let eq = sliced_eq T.Header.eq T.SliceType.eq in
            MayWant result (due_slice eq self.old header slice.now)
            (is_new_slice eq self.old header slice.now) }
        ensures state { let eq = sliced_eq T.Header.eq T.SliceType.eq in
            Becomes result self.old self.new (slice_in eq self.old header slice.now).state }
    {
        let (reference, _stored) = self.inner.intern(header, slice)?;
        Ok(reference)
    }
}

impl<T: SliceInternable, L: Layout<T::SliceType>, B: BuildHasher> Reserved<Slices<T, L>, B> {
    /// Makes room for this many more items, of all slices together; those that lie in entries need
    /// none. Refused: `OutOfMemory`, where there isn't room for so many yet; what there was stays.
    pub fn reserve_items(&mut self, additional: usize) -> Result<(), Refusal>
        ensures refused { MayWant result None true }
        ensures roomy { additional ≤ self.old.spare → IsOk result }
        ensures state { self.new.state ≡ self.old.state }
        ensures room { self.new.room ≡ self.old.room }
        ensures items { OnOk result (additional ≤ self.new.spare) }
        ensures stays { self.old.spare ≤ self.new.spare }
    {
        self.store.reserve_outside(additional)
    }

    /// What [`InternedSlice::from_header_and_slice`] does. Where there is room for an entry and for
    /// those of its items that don't lie in the entry, a slice that isn't stored takes of it.
    /// Refused as there, but with `OutOfMemory` only where there is no such room.
    pub fn intern(
        &mut self,
        header: T::Header,
        slice: &[T::SliceType],
    ) -> Result<(InternedSliceRef<T, L>, Option<T::Header>), Refused<T::Header>>
        requires { T.SliceInternable.USE_GC ≡ true }
        ensures name { let eq = sliced_eq T.Header.eq T.SliceType.eq in IfOk result (λ r.
            ref_name r.0 ≡ slice_name_in eq self.old.state header slice.now) }
        ensures back { let eq = sliced_eq T.Header.eq T.SliceType.eq in IfOk result (λ r.
            r.1 ≡ slice_back eq self.old.state header slice.now) }
        ensures refused { let eq = sliced_eq T.Header.eq T.SliceType.eq in
            MayWantBack result (due_slice eq self.old.state header slice.now)
            (is_new_slice eq self.old.state header slice.now) header }
        ensures roomy { let eq = sliced_eq T.Header.eq T.SliceType.eq in
            HasRoom self.old (L.Near.outside (length slice.now)) →
            OwesBack result (due_slice eq self.old.state header slice.now) header }
        ensures room { let eq = sliced_eq T.Header.eq T.SliceType.eq in
            Spends result self.old.room self.new.room
            (if is_new_slice eq self.old.state header slice.now then 1 else 0) }
        ensures items { let eq = sliced_eq T.Header.eq T.SliceType.eq in
            Spends result self.old.spare self.new.spare
            (if is_new_slice eq self.old.state header slice.now
            then L.Near.outside (length slice.now) else 0) }
        ensures state { let eq = sliced_eq T.Header.eq T.SliceType.eq in
            Becomes result self.old.state self.new.state
            (slice_in eq self.old.state header slice.now).state }
    {
        match self.store.intern((header, slice)) {
            Ok((key, back)) => Ok((Ref::new(key), back.map(|pair| pair.0))),
            Err(Refused { why, back }) => Err(Refused { why, back: back.0 }),
        }
    }
}

impl<T: SliceInternable, L: Layout<T::SliceType>> InternedSlice<T, L> {
    /// A reference to the header and the items, which counts nothing.
    ///
    /// Where an equal pair is stored, that one stays and the header given comes back beside the
    /// reference; this is never refused. Otherwise the header is stored and the items are copied,
    /// with count zero, which may take memory. Refused: `NumbersUsedUp` and `OutOfMemory` where no
    /// equal pair is stored.
    pub fn from_header_and_slice<B: BuildHasher>(
        storage: &mut InternSliceStorage<T, B, L>,
        header: T::Header,
        slice: &[T::SliceType],
    ) -> Result<(InternedSliceRef<T, L>, Option<T::Header>), Refused<T::Header>>
        requires { T.SliceInternable.USE_GC ≡ true }
        ensures name { let eq = sliced_eq T.Header.eq T.SliceType.eq in
            IfOk result (λ r. ref_name r.0 ≡ slice_name_in eq storage.old header slice.now) }
        ensures back { let eq = sliced_eq T.Header.eq T.SliceType.eq in
            IfOk result (λ r. r.1 ≡ slice_back eq storage.old header slice.now) }
        ensures refused { let eq = sliced_eq T.Header.eq T.SliceType.eq in
            MayWantBack result (due_slice eq storage.old header slice.now)
            (is_new_slice eq storage.old header slice.now) header }
        ensures state { let eq = sliced_eq T.Header.eq T.SliceType.eq in
            Becomes result storage.old storage.new
            (slice_in eq storage.old header slice.now).state }
    {
        storage.inner.intern(header, slice)
    }

    /// The header and the items, borrowed from the storage.
    /// None for a handle of another storage, or of an entry that is gone.
    pub fn get<'a, B: BuildHasher>(
        &self,
        storage: &'a InternSliceStorage<T, B, L>,
    ) -> Option<HeaderSlice<'a, T::Header, T::SliceType>>
        ensures { option_map read result
            ≡ option_map sized (reads storage.now (name_of self.now)) }
    {
        self.reference.get(storage)
    }

    /// Gives the handle up, with its count. The entry stays.
    /// Refused, with the handle back: `Foreign`, `Gone`, `CountZero`.
    pub fn release<B: BuildHasher>(
        self,
        storage: &mut InternSliceStorage<T, B, L>,
    ) -> Result<(), Refused<InternedSlice<T, L>>>
        ensures refused { OwesBack result (due storage.old (name_of self) zero_count) self }
        ensures state { Becomes result storage.old storage.new
            (counted_down storage.old (name_of self).birth) }
    {
        storage
            .inner
            .store
            .count_down(self.reference.key)
            .map_err(|why| Refused { why, back: self })
    }
}

impl<T: SliceInternable, L: Layout<T::SliceType>> InternedSliceRef<T, L> {
    /// The header and the items, borrowed from the storage.
    /// None for a reference of another storage, or of an entry that is gone.
    pub fn get<'a, B: BuildHasher>(
        self,
        storage: &'a InternSliceStorage<T, B, L>,
    ) -> Option<HeaderSlice<'a, T::Header, T::SliceType>>
        ensures { option_map read result
            ≡ option_map sized (reads storage.now (ref_name self)) }
    {
        storage
            .inner
            .store
            .own(self.key.storage)?
            .get(self.key.spot)
    }
}
