//! A reference or none, in the room of a reference.
ghost use Rattle.std.specs.Prelude.{◌≡◌, None, Some, is_some, not, refl};
ghost use Rattle.std.specs.Option.{option_cmp, option_eq, option_map};
ghost use Rattle.std.specs.Ordering.{on, as_partial_cmp};
ghost use Rattle.std.specs.Cmp.{on_total, partial_order_from_own_ties, partial_order_from_total};
ghost use Rattle.std.specs.Cmp.Rules.{comparing, hashing};
ghost use Rattle.std.proofs.Common.{rules};
ghost use Rattle.intern_store.specs.Named.{same_name};
ghost use Rattle.ra_ap_intern.specs.Handle.{name_cmp, name_if, no_reference, optional_if, optional_of, ref_name};

use crate::gc::{GarbageCollector, GcInternedVisit};
use crate::kind::{Slices, Values};
use crate::storage::Ref;
use intern_store::{EntryKey, Name, Spot};
use intern_table::Far;
use std::cmp::{Eq, Ordering};
use std::fmt;
use std::hash::{Hash, Hasher};
use std::marker::PhantomData;

// The place at which no entry lies: what it stands with is no handle.
pub(crate) const NOWHERE: usize = usize::MAX;

/// A reference, or none. It takes 24 bytes, as a reference does, where an `Option` of one takes 32:
/// for the fields of values of which a storage keeps many. It is compared, ordered, hashed and
/// shown by the name of the entry, if there is one; none comes first.
#[derive_where(Clone, Copy)]
pub struct OptionalRef<K> {
    key: EntryKey,
    // The pointer lets a type hold handles of itself.
    marker: PhantomData<*const K>,
}

/// A reference to a value, or none.
pub type OptionalInternedRef<T> = OptionalRef<Values<T>>;

/// A reference to a header with items, or none.
pub type OptionalInternedSliceRef<T, L = Far> = OptionalRef<Slices<T, L>>;

impl<K> OptionalRef<K> {
    /// No reference.
    pub fn none() -> OptionalRef<K>
        ensures value { result ≡ no_reference }
        ensures name { name_if result ≡ None }
    {
        OptionalRef {
            key: EntryKey {
                storage: 0,
                spot: Spot {
                    birth: 0,
                    place: NOWHERE,
                },
            },
            marker: PhantomData,
        }
    }

    /// The reference, if there is one.
    pub fn get(self) -> Option<Ref<K>>
        ensures { option_map ref_name result ≡ name_if self }
    {
        if self.key.spot.place == NOWHERE {
            return None;
        }
        Some(Ref::new(self.key))
    }

    /// Whether there is a reference.
    pub fn is_some(self) -> bool
        ensures { result ≡ is_some (name_if self) }
    {
        self.key.spot.place != NOWHERE
    }

    /// Whether there is none.
    pub fn is_none(self) -> bool
        ensures { result ≡ not (is_some (name_if self)) }
    {
        !self.is_some()
    }

    /// The name of the entry, if there is one.
    pub fn name(self) -> Option<Name>
        ensures { result ≡ name_if self }
    {
        Some(self.get()?.name())
    }
}

impl<K> From<Ref<K>> for OptionalRef<K> {
    ghost from_gives = { λ reference optional. (optional ≡ optional_of reference)
        × (name_if optional ≡ Some (ref_name reference)) };

    fn from(reference: Ref<K>) -> OptionalRef<K> {
        let EntryKey { storage, spot } = reference.key;
        // A place saves a look-up alone, so that any will do.
        let place = spot.place.min(NOWHERE - 1);
        OptionalRef {
            key: EntryKey {
                storage,
                spot: Spot { place, ..spot },
            },
            marker: PhantomData,
        }
    }
}

impl<K> From<Option<Ref<K>>> for OptionalRef<K> {
    ghost from_gives = { λ reference optional. (optional ≡ optional_if reference)
        × (name_if optional ≡ option_map ref_name reference) };

    fn from(reference: Option<Ref<K>>) -> OptionalRef<K> {
        match reference {
            Some(reference) => reference.into(),
            None => OptionalRef::none(),
        }
    }
}

impl<K> PartialEq for OptionalRef<K> {
    ghost eq = { λ a b. option_eq same_name (name_if a) (name_if b) };

    ghost laws = { Prim.search (comparing, rules) };

    fn eq(&self, other: &OptionalRef<K>) -> bool {
        self.name() == other.name()
    }
}

impl<K> Eq for OptionalRef<K> {
    ghost laws = { Prim.search (comparing, rules) };
}

impl<K> PartialOrd for OptionalRef<K> {
    ghost partial_cmp = { as_partial_cmp (on name_if (option_cmp name_cmp)) };

    ghost laws = { partial_order_from_own_ties
        (partial_order_from_total (on_total name_if {R = option_cmp name_cmp} (Prim.search (comparing, rules))))
        (Prim.search (comparing, rules)) };

    fn partial_cmp(&self, other: &OptionalRef<K>) -> Option<Ordering> {
        Some(self.cmp(other))
    }
}

impl<K> Ord for OptionalRef<K> {
    ghost cmp = { on name_if (option_cmp name_cmp) };

    ghost total = { Prim.search (comparing, rules) };

    ghost matches_partial_cmp = { λ _ _. refl };

    ghost matches_eq = { Prim.search (comparing, rules) };

    fn cmp(&self, other: &OptionalRef<K>) -> Ordering {
        self.name().cmp(&other.name())
    }
}

impl<K> Hash for OptionalRef<K> {
    ghost hash_input = { λ o. ⟦<Option<Name> as Hash>⟧.hash_input (name_if o) };

    ghost respects_eq = { Prim.search (hashing, rules) };

    fn hash<H: Hasher>(&self, state: &mut H) {
        self.name().hash(state);
    }
}

impl<K> fmt::Debug for OptionalRef<K> {
    fn fmt<W: fmt::Write>(&self, f: &mut fmt::Formatter<W>) -> fmt::Result {
        fmt::Debug::fmt(&self.get(), f)
    }
}

impl<K> GcInternedVisit for OptionalRef<K> {
    ghost use Rattle.ra_ap_intern.specs.Visitors.{of_name};

    ghost children = { λ o. of_name (name_if o) };

    fn visit_with(&self, gc: &mut GarbageCollector) {
        if let Some(reference) = self.get() {
            reference.visit_with(gc);
        }
    }
}
