//! A storage of any kind, its owned handles and its references.
//!
//! What differs by kind, which is reading, interning and what a release gives back, is in `intern`
//! and `intern_slice`.
ghost use Rattle.std.specs.Prelude.{◌≡◌, ◌<◌, ◌≤◌, ◌==◌, None, true, is_some, IfOk, map as list_map};
ghost use Rattle.std.specs.Borrow.{sem};
ghost use Rattle.std.specs.FinMap as map;
ghost use Rattle.intern_store.specs.Memory.{least_memory};
ghost use Rattle.intern_store.specs.Named.{key_name};
ghost use Rattle.intern_store.specs.Outcome.{Owes, MayWant, Becomes};
ghost use Rattle.intern_store.specs.State.{IsState, new_state, reads, counts, counted_up, counted_down, due, full, zero_count, any_count};
ghost use Rattle.ra_ap_intern.specs.Handle.{name_of, ref_name};
ghost use Rattle.ra_ap_intern.specs.Order.{due_each};

use crate::kind::Kind;
use intern_store::{EntryKey, Limits, Name, Refusal, Store};
use intern_table::{Equivalent, FixedState};
use std::alloc::Global;
use std::fmt;
use std::marker::{Model, PhantomData};

/// A storage of entries of a kind, each value kept once: an `InternStorage` or an
/// `InternSliceStorage`.
///
/// Interning hashes what is offered and looks it up once, and compares it with the stored values of
/// that hash, rarely with another. A value that is stored takes no memory, and one that isn't takes
/// none where room was reserved for it. Where storing it builds the tables anew, each stored value
/// is hashed again, in time in proportion to the most entries that there were at once, which is
/// constant time a call on average. Reads, counts and removals go straight to the entry; `from_raw`
/// and `reference` look its birth up.
#[derive(Drop)]
pub struct Storage<K: Kind<B>, B = FixedState> {
    pub(crate) inner: Reserved<K, B>,
}

impl<K: Kind<B>, B> Model for Storage<K, B> {
    ghost use Rattle.intern_store.specs.State.{State, state_code};

    ghost Value = { State K.Table.Value };

    ghost coded = { state_code K.Table.Value.code };

    ghost view = { λ a. a.inner.state };
}

/// The entries of a storage, and the room that is left for more: what [`Storage::reserve`] lends.
///
/// While there is room, for slices also for those of their items that lie in no entry, interning
/// takes no memory, and so is refused for no want of it; but `intern_text` copies a text of more
/// than 24 bytes. Contracts see the storage's state, its hasher, the room for entries, and that for
/// items.
#[derive(Drop)]
pub struct Reserved<K: Kind<B>, B = FixedState> {
    pub(crate) store: Store<K::Table>,
}

impl<K: Kind<B>, B> Model for Reserved<K, B> {
    ghost use Rattle.intern_store.specs.State.{Stocked, stocked_code};

    ghost Value = { Stocked K.Table.Value B };

    ghost coded = { stocked_code K.Table.Value.code B.code };

    ghost view = { λ a. a.store };
}

/// An owned handle, which counts one: an `Interned` or an `InternedSlice`.
///
/// Handles are compared, ordered, hashed and shown by their names alone, so two of one storage are
/// equal exactly if the values that they read are. Beside the name a handle holds the place of its
/// entry, 24 bytes in all.
#[derive(Drop)]
#[derive_where(PartialEq, Eq, PartialOrd, Ord, Hash)]
pub struct Owned<K> {
    pub(crate) reference: Ref<K>,
}

/// A reference, which counts nothing: an `InternedRef` or an `InternedSliceRef`. It is compared,
/// ordered, hashed and shown by its name alone: the storage's number, and then the birth.
#[derive_where(Clone, Copy, PartialEq, Eq, PartialOrd, Ord, Hash)]
pub struct Ref<K> {
    pub(crate) key: EntryKey,
    // The pointer lets a type hold handles of itself.
    #[derive_where(skip)]
    marker: PhantomData<*const K>,
}

// A reference looks an owned handle up by what both name.
impl<K> Equivalent<Owned<K>> for Ref<K> {
    ghost use Rattle.std.proofs.Common.{rules};
    ghost use Rattle.std.specs.Cmp.Rules.{comparing, hashing};
    ghost use Rattle.intern_store.specs.Named.{same_name};

    ghost equivalent = { λ r o. same_name (ref_name r) (name_of o) };

    ghost respects_hash = { Prim.search (hashing, rules) };

    ghost respects_eq = { Prim.search (comparing, rules) };

    fn equivalent(&self, handle: &Owned<K>) -> bool {
        *self == handle.reference
    }
}

impl<K> fmt::Debug for Owned<K> {
    fn fmt<W: fmt::Write>(&self, f: &mut fmt::Formatter<W>) -> fmt::Result {
        write!(f, "Owned({})", self.name())
    }
}

impl<K> fmt::Debug for Ref<K> {
    fn fmt<W: fmt::Write>(&self, f: &mut fmt::Formatter<W>) -> fmt::Result {
        write!(f, "Ref({})", self.name())
    }
}

impl<K: Kind<FixedState>> Storage<K> {
    /// An empty storage with the largest limits. It takes no memory.
    ///
    /// Handles tell storages apart by their numbers alone: give each storage one of its own.
    pub fn new(alloc: Global, number: u64) -> Self
        ensures { result ≡ new_state number u64.MAX u64.MAX }
    {
        Storage {
            inner: Reserved {
                store: Store::new(alloc, number),
            },
        }
    }

    /// An empty storage with limits of its own. It takes no memory.
    pub fn with_limits(alloc: Global, number: u64, limits: Limits) -> Self
        requires { 0 < limits.top }
        ensures { result ≡ new_state number limits.top limits.numbers }
    {
        Storage::with_hasher(alloc, number, limits, FixedState::new())
    }
}

impl<K: Kind<B>, B> Storage<K, B> {
    ghost use Rattle.ra_ap_intern.specs.Reserved.{LendsEntries};

    /// An empty storage with limits of its own, which hashes values by what `hasher` builds. It
    /// takes no memory.
    ///
    /// The seed of [`FixedState`] is known, so that whoever chooses the values can let all of them
    /// share a bucket. Give a storage of such values `RandomState::new(&rt)?`.
    pub fn with_hasher(alloc: Global, number: u64, limits: Limits, hasher: B) -> Self
        requires { 0 < limits.top }
        ensures { result ≡ new_state number limits.top limits.numbers }
    {
        Storage {
            inner: Reserved {
                store: Store::with_hasher(alloc, number, limits, hasher),
            },
        }
    }

    /// Lends the storage with room for this many more entries: until the loan ends, the next so
    /// many values that aren't stored yet are refused for no want of memory, but for texts of more
    /// than 24 bytes, which are copied. Slices want room too for those of their items that lie in
    /// no entry (`reserve_items` of [`Reserved`]). Refused: `OutOfMemory`.
    ///
    /// The room stays when the loan ends. It takes what so many entries may need at most, whichever
    /// slots they use: more than interning them one by one does. Where the hash tables are built
    /// anew, each stored value is hashed again.
    pub fn reserve(&mut self, additional: usize) -> Result<&mut Reserved<K, B>, Refusal>
        ensures* lends { sem 𝓛 (LendsEntries K.row B.row K.Table.row K.Table.Value.row
            K.Kind K.Table.Entries K.Table.Value.PartialEq self.entry result) }
        ensures refused { MayWant result None true }
        ensures state { IfOk result (λ r. r.now.state ≡ self.old) }
        ensures room { IfOk result (λ r. additional ≤ r.now.room) }
    {
        self.inner.store.reserve(additional)?;
        Ok(&mut self.inner)
    }

    /// The storage's number.
    pub fn number(&self) -> u64
        ensures number { result ≡ self.now.number }
        ensures state { IsState K.Table.Value.eq self.now }
    {
        self.inner.store.number()
    }

    /// How many entries there are.
    pub fn len(&self) -> usize
        ensures { result ≡ map.len self.now.map }
    {
        self.inner.store.len()
    }

    /// Whether there is no entry.
    pub fn is_empty(&self) -> bool
        ensures { result ≡ (map.len self.now.map == 0) }
    {
        self.inner.store.is_empty()
    }

    /// The bytes of memory that the storage holds: its slots, used or not, what finds them, and the
    /// items of slices; eight for each entry at least. What values hold elsewhere, as a `String`
    /// its text, is not counted, and neither is the storage itself.
    pub fn memory(&self) -> usize
        ensures { least_memory (map.len self.now.map) ≤ result }
    {
        self.inner.store.memory()
    }

    /// The reference of a name, which may come from anywhere. It looks the birth up, and takes no
    /// memory. Refused: `Foreign`, `Gone`.
    pub fn reference(&self, name: Name) -> Result<Ref<K>, Refusal>
        ensures ok { IfOk result (λ r. ref_name r ≡ name) }
        ensures refused { Owes result (due self.now name any_count) }
    {
        if name.storage != self.number() {
            return Err(Refusal::Foreign);
        }
        Ok(Ref::new(self.inner.store.entry(name.birth)?))
    }

    /// The count of the entry that a reference names: how many owners it has.
    /// None for a reference of another storage, or of an entry that is gone.
    pub fn count(&self, reference: Ref<K>) -> Option<u64>
        ensures { result ≡ counts self.now (ref_name reference) }
    {
        self.inner.store.count(reference.key)
    }

    /// Whether the entry that a reference names is here.
    pub fn contains(&self, reference: Ref<K>) -> bool
        ensures { result ≡ is_some (reads self.now (ref_name reference)) }
    {
        self.count(reference).is_some()
    }

    /// Whether the entry that a reference names is here, and why it can't be read where it isn't.
    /// Refused: `Foreign`, `Gone`.
    pub fn check(&self, reference: Ref<K>) -> Result<(), Refusal>
        ensures { Owes result (due self.now (ref_name reference) any_count) }
    {
        if reference.name().storage != self.number() {
            return Err(Refusal::Foreign);
        }
        if !self.contains(reference) {
            return Err(Refusal::Gone);
        }
        Ok(())
    }

    /// Whether the entries that references name are all here, as those of a value's parts have to
    /// be so that it can be read down to its last part. Refused as the first that isn't here:
    /// `Foreign`, `Gone`.
    pub fn check_all(&self, references: &[Ref<K>]) -> Result<(), Refusal>
        ensures { Owes result (due_each self.now (list_map ref_name references.now)) }
    {
        for reference in references {
            self.check(*reference)?;
        }
        Ok(())
    }
}

impl<K> Owned<K> {
    /// A second owned handle, which counts one more. Refused: `Foreign`, `Gone`, `CountFull`.
    pub fn clone<B>(&self, storage: &mut Storage<K, B>) -> Result<Owned<K>, Refusal>
    where
        K: Kind<B>,
        ensures ok { IfOk result (λ h. name_of h ≡ name_of self.now) }
        ensures refused { Owes result
            (due storage.old (name_of self.now) (full storage.old.top)) }
        ensures state { Becomes result storage.old storage.new
            (counted_up storage.old (name_of self.now).birth) }
    {
        self.reference.to_owned(storage)
    }

    /// A reference to the same entry.
    pub fn as_ref(&self) -> Ref<K>
        ensures { ref_name result ≡ name_of self.now }
    {
        self.reference
    }

    /// The entry's name: the storage's number and the birth.
    pub fn name(&self) -> Name
        ensures { result ≡ name_of self.now }
    {
        self.reference.name()
    }
}

impl<'a, K> From<&'a Owned<K>> for Ref<K> {
    ghost from_gives = { λ handle reference. ref_name reference ≡ name_of handle.now };

    fn from(handle: &'a Owned<K>) -> Ref<K> {
        handle.as_ref()
    }
}

impl<K> Ref<K> {
    /// An owned handle of the entry, which counts one more, also from zero.
    /// Refused: `Foreign`, `Gone`, `CountFull`.
    pub fn to_owned<B>(self, storage: &mut Storage<K, B>) -> Result<Owned<K>, Refusal>
    where
        K: Kind<B>,
        ensures ok { IfOk result (λ h. name_of h ≡ ref_name self) }
        ensures refused { Owes result (due storage.old (ref_name self) (full storage.old.top)) }
        ensures state { Becomes result storage.old storage.new
            (counted_up storage.old (ref_name self).birth) }
    {
        storage.inner.store.count_up(self.key)?;
        Ok(Owned { reference: self })
    }

    /// Takes back the count of a handle that was dropped without `release`. The entry stays, also
    /// at zero and in counted mode. Refused: `Foreign`, `Gone`, `CountZero`.
    pub fn decrement_refcount<B>(self, storage: &mut Storage<K, B>) -> Result<(), Refusal>
    where
        K: Kind<B>,
        ensures refused { Owes result (due storage.old (ref_name self) zero_count) }
        ensures state { Becomes result storage.old storage.new
            (counted_down storage.old (ref_name self).birth) }
    {
        storage.inner.store.count_down(self.key)
    }

    // The reference of a key.
    pub(crate) fn new(key: EntryKey) -> Ref<K>
        ensures { ref_name result ≡ key_name key }
    {
        Ref {
            key,
            marker: PhantomData,
        }
    }

    /// The entry's name: the storage's number and the birth.
    pub fn name(self) -> Name
        ensures { result ≡ ref_name self }
    {
        self.key.name()
    }
}
