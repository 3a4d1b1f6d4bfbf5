//! Interning of values in turn.
ghost use Rattle.std.specs.Prelude.{◌≡◌, ◌++◌, ◌∷◌, [], Bool, List, IfOk, OnOk, IfErr, map as list_map};
ghost use Rattle.std.specs.Prelude.{vec_len, vec_capacity, ◌+◌, ◌<◌};
ghost use Rattle.std.specs.Vec.Iter.{into_iter_items, into_iter_len};
ghost use Rattle.intern_store.specs.Outcome.{MayWantBack, Becomes};
ghost use Rattle.intern_store.specs.State.{is_new, interned_name, given_back};
ghost use Rattle.ra_ap_intern.specs.Interning.{Interns, IsOwed};

use super::{InternStorage, Internable, Interned, InternedRef};
use intern_store::{Refusal, Refused};
use std::hash::BuildHasher;
use std::vec::IntoIter;

/// A handle that interning a value gives: an [`Interned`] in counted mode, an [`InternedRef`] in
/// collected mode.
pub trait InternHandle<T: Internable>: Sized {
    ghost use Rattle.std.specs.Prelude.{ℕ, Bool, Option};
    ghost use Rattle.intern_store.specs.State.{State, due_interning};
    ghost use Rattle.intern_store.specs.declared.names.Name.{Name};
    ghost use Rattle.intern_store.specs.declared.refusal.Refusal.{Refusal as Why};

    // The mode in which interning gives it.
    ghost USE_GC: { Bool };

    ghost name: { Self → Name };

    // The storage once a value is interned.
    ghost after: { State T → T → State T };

    // Why a value of this count is refused.
    ghost owed: { State T → ℕ → Option Why };

    /// The handle of a value, as [`Interned::new`] and [`Interned::new_gc`] give it. Refused as
    /// these, with the value back. It takes memory where the value isn't stored.
    fn intern<B: BuildHasher>(
        storage: &mut InternStorage<T, B>,
        value: T,
    ) -> Result<(Self, Option<T>), Refused<T>>
        requires { T.Internable.USE_GC ≡ USE_GC }
        ensures name { IfOk result (λ r. name r.0 ≡ interned_name T.eq storage.old value) }
        ensures back { IfOk result (λ r. r.1 ≡ given_back T.eq storage.old value value) }
        ensures refused { MayWantBack result
            (due_interning T.eq storage.old value (owed storage.old))
            (is_new T.eq storage.old value) value }
        ensures state { Becomes result storage.old storage.new (after storage.old value) };
}

impl<T: Internable + Drop> InternHandle<T> for Interned<T> {
    ghost use Rattle.std.specs.Prelude.{false};
    ghost use Rattle.intern_store.specs.State.{interned_counted, full};
    ghost use Rattle.ra_ap_intern.specs.Handle.{name_of};

    ghost USE_GC = { false };

    ghost name = { name_of };

    ghost after = { interned_counted T.eq };

    ghost owed = { λ s. full s.top };

    fn intern<B: BuildHasher>(
        storage: &mut InternStorage<T, B>,
        value: T,
    ) -> Result<(Self, Option<T>), Refused<T>> {
        Interned::new(storage, value)
    }
}

impl<T: Internable + Drop> InternHandle<T> for InternedRef<T> {
    ghost use Rattle.std.specs.Prelude.{true};
    ghost use Rattle.intern_store.specs.State.{interned, any_count};
    ghost use Rattle.ra_ap_intern.specs.Handle.{ref_name};

    ghost USE_GC = { true };

    ghost name = { ref_name };

    ghost after = { λ s v. (interned T.eq s v).state };

    ghost owed = { λ _. any_count };

    fn intern<B: BuildHasher>(
        storage: &mut InternStorage<T, B>,
        value: T,
    ) -> Result<(Self, Option<T>), Refused<T>> {
        Interned::new_gc(storage, value)
    }
}

impl<T: Internable + Drop, B: BuildHasher> InternStorage<T, B> {
    /// Interns values in turn, and adds their handles to a list: owned ones in counted mode,
    /// references in collected mode. A value is dropped where an equal one is stored.
    ///
    /// It asks for room in the list first, for all handles at once: where there is none, the first
    /// value comes back with `OutOfMemory`, and nothing else has changed. A value is refused as
    /// [`Interned::new`] (`CountFull`, `NumbersUsedUp`, `OutOfMemory`) and [`Interned::new_gc`]
    /// (`NumbersUsedUp`, `OutOfMemory`) refuse it. It comes back then: the handles of those
    /// before it are in the list, and those behind it are left in the iterator.
    pub fn extend<H: InternHandle<T>>(
        &mut self,
        values: &mut IntoIter<T>,
        handles: &mut Vec<H>,
    ) -> Result<(), Refused<T>>
        requires { T.Internable.USE_GC ≡ H.USE_GC }
        ensures ok { OnOk result (Interns H.after T.eq H.owed self.old self.new
            (into_iter_items values.old)
            (list_map H.name handles.old.items) (list_map H.name handles.new.items)) }
        ensures left { OnOk result (into_iter_items values.new ≡ []) }
        ensures refused { IfErr result (λ r. (done : List T)
            × (into_iter_items values.old ≡ done ++ r.back ∷ into_iter_items values.new)
            × Interns H.after T.eq H.owed self.old self.new done
            (list_map H.name handles.old.items) (list_map H.name handles.new.items)) }
        ensures why { IfErr result (λ r. IsOwed T.eq self.new (H.owed self.new)
            ((vec_capacity handles.old < vec_len handles.old + into_iter_len values.old)
            × (self.new ≡ self.old)
            × (into_iter_items values.old ≡ r.back ∷ into_iter_items values.new)
            × (list_map H.name handles.new.items ≡ list_map H.name handles.old.items)) r) }
    {
        if handles.reserve(values.len()).is_err() {
            return match values.next() {
                Some(back) => Err(Refused {
                    why: Refusal::OutOfMemory,
                    back,
                }),
                None => Ok(()),
            };
        }
        while let Some(value) = values.next() {
            let (handle, _stored) = H::intern(self, value)?;
            handles.push_reserved(handle);
        }
        Ok(())
    }
}
