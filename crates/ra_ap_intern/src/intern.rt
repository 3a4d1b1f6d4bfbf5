//! Interning of single values.
//!
//! A storage keeps one copy of each equal value. In counted mode the `release` of the last
//! [`Interned`] of a value frees it. In collected mode entries stay until a collection, and one
//! works with [`InternedRef`]s, which count nothing.
//!
//! A handle that is dropped without `release` keeps its count.
ghost use Rattle.std.specs.Prelude.{◌≡◌, ◌<◌, if◌then◌else◌, true, false, Bool, IsPermutation, IfOk, option_copied};
ghost use Rattle.std.specs.Option.{option_map};
ghost use Rattle.intern_store.specs.Outcome.{Owes, OwesBack, MayWant, MayWantBack, Becomes, Spends};
ghost use Rattle.intern_store.specs.State.{name_in, entry_at, reads, is_new, interned, interned_name, interned_counted, given_back, name_of_value, name_where, named_values, due, due_at, due_interning, full, zero_count, any_count, freed, released};
ghost use Rattle.ra_ap_intern.specs.Handle.{name_of, ref_name};

mod each;
mod iter;

use crate::kind::Values;
use crate::storage::{Owned, Ref, Reserved, Storage};
pub use each::InternHandle;
use intern_store::{Refusal, Refused};
use intern_table::{Equivalent, FixedState};
pub use iter::Iter;
use std::cmp::Eq;
use std::hash::{BuildHasher, Hash};

/// A type whose values a storage keeps.
pub trait Internable: Hash + Eq {
    /// Whether entries stay until a collection (collected mode), or go with their last owner
    /// (counted mode).
    const USE_GC: bool;

    ghost USE_GC: { Bool };
}

/// A storage of values, each kept once, and hashed by a hasher that `B` builds.
pub type InternStorage<T, B = FixedState> = Storage<Values<T>, B>;

/// An owned handle of a value, which counts one.
pub type Interned<T> = Owned<Values<T>>;

/// A reference to a value, which counts nothing.
pub type InternedRef<T> = Ref<Values<T>>;

impl<T: Internable, B: BuildHasher> InternStorage<T, B> {
    /// A reference to the entry whose value equals this one. None where no equal value is stored.
    /// It takes no memory.
    pub fn get(&self, obj: &T) -> Option<InternedRef<T>>
        ensures { option_map ref_name result ≡ name_of_value T.eq self.now obj.now }
    {
        self.find(obj)
    }

    /// A reference to the entry whose value this is equivalent to: a type of your own, that hashes
    /// as the value does, looks it up with nothing built. None where there is none. It takes no
    /// memory.
    pub fn find<Q: Equivalent<T>>(&self, query: Q) -> Option<InternedRef<T>>
        ensures { option_map ref_name result ≡ name_where (Q.equivalent query) self.now }
    {
        Some(Ref::new(self.inner.store.find(&query)?))
    }

    /// The entries, each with a reference to it, in no promised order. It takes no memory, and goes
    /// over as many places as there were entries at one time.
    pub fn iter(&self) -> Iter<'_, T>
        ensures { IsPermutation result (named_values self.now) }
    {
        Iter {
            number: self.inner.store.number(),
            entries: self.inner.store.table().iter(),
        }
    }
}

impl<T: Internable + Drop, B: BuildHasher> InternStorage<T, B> {
    /// Counted mode: the owned handle that [`Interned::new`] gives, and nothing beside it. The
    /// value is dropped where an equal one is stored, and where the call is refused, as `new` is:
    /// `CountFull`, `NumbersUsedUp`, `OutOfMemory`.
    pub fn get_or_intern(&mut self, obj: T) -> Result<Interned<T>, Refusal>
        requires { T.Internable.USE_GC ≡ false }
        ensures name { IfOk result (λ h. name_of h ≡ interned_name T.eq self.old obj) }
        ensures refused { MayWant result (due_interning T.eq self.old obj (full self.old.top))
            (is_new T.eq self.old obj) }
        ensures state { Becomes result self.old self.new (interned_counted T.eq self.old obj) }
    {
        let (handle, _stored) = self.inner.intern(obj)?;
        Ok(handle)
    }

    /// Collected mode: the reference that [`Interned::new_gc`] gives, and nothing beside it. The
    /// value is dropped where an equal one is stored, and where the call is refused, as `new_gc`
    /// is: `NumbersUsedUp`, `OutOfMemory`.
    pub fn get_or_intern_gc(&mut self, obj: T) -> Result<InternedRef<T>, Refusal>
        requires { T.Internable.USE_GC ≡ true }
        ensures name { IfOk result (λ h. ref_name h ≡ interned_name T.eq self.old obj) }
        ensures refused { MayWant result (due_interning T.eq self.old obj any_count)
            (is_new T.eq self.old obj) }
        ensures state { Becomes result self.old self.new (interned T.eq self.old obj).state }
    {
        let (reference, _stored) = self.inner.intern_gc(obj)?;
        Ok(reference)
    }
}

impl<T: Internable, B: BuildHasher> Reserved<Values<T>, B> {
    /// Counted mode: what [`Interned::new`] does. Where there is room, a value that isn't stored
    /// takes of it. Refused as there, but with `OutOfMemory` only where there is no room.
    pub fn intern(&mut self, obj: T) -> Result<(Interned<T>, Option<T>), Refused<T>>
        requires { T.Internable.USE_GC ≡ false }
        ensures name { IfOk result (λ r.
            name_of r.0 ≡ interned_name T.eq self.old.state obj) }
        ensures back { IfOk result (λ r. r.1 ≡ given_back T.eq self.old.state obj obj) }
        ensures refused { MayWantBack result
            (due_interning T.eq self.old.state obj (full self.old.state.top))
            (is_new T.eq self.old.state obj) obj }
        ensures roomy { 0 < self.old.room → OwesBack result
            (due_interning T.eq self.old.state obj (full self.old.state.top)) obj }
        ensures room { Spends result self.old.room self.new.room
            (if is_new T.eq self.old.state obj then 1 else 0) }
        ensures state { Becomes result self.old.state self.new.state
            (interned_counted T.eq self.old.state obj) }
    {
        let (key, back) = self.store.intern_counted(obj)?;
        let reference = Ref::new(key);
        Ok((Owned { reference }, back))
    }

    /// Collected mode: what [`Interned::new_gc`] does. Where there is room, a value that isn't
    /// stored takes of it. Refused as there, but with `OutOfMemory` only where there is no room.
    pub fn intern_gc(&mut self, obj: T) -> Result<(InternedRef<T>, Option<T>), Refused<T>>
        requires { T.Internable.USE_GC ≡ true }
        ensures name { IfOk result (λ r.
            ref_name r.0 ≡ interned_name T.eq self.old.state obj) }
        ensures back { IfOk result (λ r. r.1 ≡ given_back T.eq self.old.state obj obj) }
        ensures refused { MayWantBack result
            (due_interning T.eq self.old.state obj any_count)
            (is_new T.eq self.old.state obj) obj }
        ensures roomy { 0 < self.old.room → OwesBack result
            (due_interning T.eq self.old.state obj any_count) obj }
        ensures room { Spends result self.old.room self.new.room
            (if is_new T.eq self.old.state obj then 1 else 0) }
        ensures state { Becomes result self.old.state self.new.state
            (interned T.eq self.old.state obj).state }
    {
        let (key, back) = self.store.intern(obj)?;
        Ok((Ref::new(key), back))
    }
}

impl<'a, T: Internable, B: BuildHasher> IntoIterator for &'a InternStorage<T, B> {
    type Item = (InternedRef<T>, &'a T);

    type IntoIter = Iter<'a, T>;

    ghost into_iter_gives = { λ storage entries. IsPermutation entries (named_values storage.now) };

    fn into_iter(self) -> Iter<'a, T> {
        self.iter()
    }
}

impl<T: Internable> Interned<T> {
    /// Counted mode: the owned handle of the value, which is counted once more.
    ///
    /// Where an equal value is stored, that one stays and the one given comes back beside the
    /// handle. Otherwise the value is stored, which may take memory. Refused: `CountFull` where an
    /// equal value is stored and its count is at the limit; `NumbersUsedUp` and `OutOfMemory` where
    /// none is.
    pub fn new<B: BuildHasher>(
        storage: &mut InternStorage<T, B>,
        obj: T,
    ) -> Result<(Interned<T>, Option<T>), Refused<T>>
        requires { T.Internable.USE_GC ≡ false }
        ensures name { IfOk result (λ r. name_of r.0 ≡ interned_name T.eq storage.old obj) }
        ensures back { IfOk result (λ r. r.1 ≡ given_back T.eq storage.old obj obj) }
        ensures refused { MayWantBack result
            (due_interning T.eq storage.old obj (full storage.old.top))
            (is_new T.eq storage.old obj) obj }
        ensures state { Becomes result storage.old storage.new
            (interned_counted T.eq storage.old obj) }
    {
        storage.inner.intern(obj)
    }

    /// Collected mode: a reference to the value, which counts nothing.
    ///
    /// Where an equal value is stored, that one stays and the one given comes back beside the
    /// reference; this is never refused. Otherwise the value is stored with count zero, which may
    /// take memory. Refused: `NumbersUsedUp` and `OutOfMemory` where no equal value is stored.
    pub fn new_gc<B: BuildHasher>(
        storage: &mut InternStorage<T, B>,
        obj: T,
    ) -> Result<(InternedRef<T>, Option<T>), Refused<T>>
        requires { T.Internable.USE_GC ≡ true }
        ensures name { IfOk result (λ r. ref_name r.0 ≡ interned_name T.eq storage.old obj) }
        ensures back { IfOk result (λ r. r.1 ≡ given_back T.eq storage.old obj obj) }
        ensures refused { MayWantBack result (due_interning T.eq storage.old obj any_count)
            (is_new T.eq storage.old obj) obj }
        ensures state { Becomes result storage.old storage.new
            (interned T.eq storage.old obj).state }
    {
        storage.inner.intern_gc(obj)
    }

    /// An owned handle of the entry of a birth. It takes over the count of a handle that was
    /// dropped without `release`, so no count changes. Refused: `Gone`; `CountZero` where there is
    /// no count to take over.
    pub fn from_raw<B: BuildHasher>(
        storage: &InternStorage<T, B>,
        birth: u64,
    ) -> Result<Interned<T>, Refusal>
        ensures ok { IfOk result (λ h. name_of h ≡ name_in storage.now birth) }
        ensures refused { Owes result (due_at (entry_at storage.now birth) zero_count) }
    {
        let reference = Ref::new(storage.inner.store.counted_entry(birth)?);
        Ok(Owned { reference })
    }

    /// The value, borrowed from the storage.
    /// None for a handle of another storage, or of an entry that is gone.
    pub fn get<'a, B: BuildHasher>(&self, storage: &'a InternStorage<T, B>) -> Option<&'a T>
        ensures { option_copied result ≡ reads storage.now (name_of self.now) }
    {
        self.reference.get(storage)
    }

    /// Gives the handle up, with its count. In counted mode the last release frees the value and
    /// gives it back; otherwise the answer is None, and in collected mode the entry always stays.
    /// Refused, with the handle back: `Foreign`, `Gone`, `CountZero`.
    pub fn release<B: BuildHasher>(
        self,
        storage: &mut InternStorage<T, B>,
    ) -> Result<Option<T>, Refused<Interned<T>>>
        ensures value { IfOk result (λ v.
            v ≡ freed T.Internable.USE_GC storage.old (name_of self).birth) }
        ensures refused { OwesBack result (due storage.old (name_of self) zero_count) self }
        ensures state { Becomes result storage.old storage.new
            (released T.Internable.USE_GC storage.old (name_of self).birth) }
    {
        storage
            .inner
            .store
            .release(self.reference.key, T::USE_GC)
            .map_err(|why| Refused { why, back: self })
    }
}

impl<T: Internable> InternedRef<T> {
    /// A reference to the entry of a birth. Refused: `Gone`.
    pub fn from_raw<B: BuildHasher>(
        storage: &InternStorage<T, B>,
        birth: u64,
    ) -> Result<InternedRef<T>, Refusal>
        ensures ok { IfOk result (λ h. ref_name h ≡ name_in storage.now birth) }
        ensures refused { Owes result (due_at (entry_at storage.now birth) any_count) }
    {
        Ok(Ref::new(storage.inner.store.entry(birth)?))
    }

    /// The value, borrowed from the storage.
    /// None for a reference of another storage, or of an entry that is gone.
    pub fn get<'a, B: BuildHasher>(self, storage: &'a InternStorage<T, B>) -> Option<&'a T>
        ensures { option_copied result ≡ reads storage.now (ref_name self) }
    {
        storage
            .inner
            .store
            .own(self.key.storage)?
            .get(self.key.spot)
    }
}

impl<T> InternedRef<T> {
    /// The birth of the entry.
    pub fn as_raw(self) -> u64
        ensures { result ≡ (ref_name self).birth }
    {
        self.key.spot.birth
    }
}
