//! Look-ups in collected mode: what is found reads an equal value.
#![tactic(auto)]

ghost use Rattle.std.specs.List.{slice_get};
ghost use Rattle.std.specs.Prelude.{◌≡◌, ℕ, true, false, Some, IfOk, OnOk, IfSome, IfNone, map as list_map, option_copied};
ghost use Rattle.std.specs.Vec.Iter.{into_iter_items};
ghost use Rattle.ra_ap_intern.specs.Handle.{ref_name};
ghost use Rattle.ra_ap_intern.specs.Interning.{Interns, names_in_turn};
ghost use Rattle.ra_ap_intern.specs.Name.{Name};
ghost use Rattle.ra_ap_intern.specs.Outcome.{Becomes, MayWantBack};
ghost use Rattle.ra_ap_intern.specs.State.{reads, is_new, interned, interned_name, due_interning, any_count, name_where};
ghost use Rattle.std.specs.Option.{option_map};
ghost use Rattle.use_lookups.specs.Qualified.{is_named};

use ra_ap_intern::{Equivalent, InternStorage, Internable, Interned, InternedRef, Refused, Text};
use std::cmp::Eq;
use std::hash::Hash;
use std::vec::IntoIter;

/// The reference of a value, which is stored where no equal one is. Refused, with the value back:
/// `NumbersUsedUp` and `OutOfMemory` where it isn't stored.
pub fn find_or_intern<T: Internable + Drop>(
    storage: &mut InternStorage<T>,
    value: T,
) -> Result<InternedRef<T>, Refused<T>>
    requires { T.Internable.USE_GC ≡ true }
    ensures name { IfOk result (λ r. ref_name r ≡ interned_name T.eq storage.old value) }
    ensures refused { MayWantBack result (due_interning T.eq storage.old value any_count)
        (is_new T.eq storage.old value) value }
    ensures state { Becomes result storage.old storage.new
        (interned T.eq storage.old value).state }
    ensures reads { IfOk result (λ r. (w : T)
        × (reads storage.new (ref_name r) ≡ Some w) × (T.eq value w ≡ true)) }
{
    let (reference, _) = Interned::new_gc(storage, value)?;
    Ok(reference)
}

/// Adds the references of values to a list, in their order. Refused as `find_or_intern` is: the
/// value comes back, and those behind it are left.
pub fn find_or_intern_all<T: Internable + Drop>(
    storage: &mut InternStorage<T>,
    values: &mut IntoIter<T>,
    references: &mut Vec<InternedRef<T>>,
) -> Result<(), Refused<T>>
    requires { T.Internable.USE_GC ≡ true }
    ensures all { OnOk result (Interns (λ s v. (interned T.eq s v).state) T.eq (λ _. any_count)
        storage.old storage.new (into_iter_items values.old) (list_map ref_name references.old.items)
        (list_map ref_name references.new.items)) }
    ensures reads { OnOk result ((i : ℕ) (v : T) →
        slice_get (into_iter_items values.old) i ≡ Some v → (n : Name)
        × (slice_get (names_in_turn (λ s v. (interned T.eq s v).state) T.eq storage.old
        (into_iter_items values.old)) i ≡ Some n)
        × (w : T) × (reads storage.new n ≡ Some w) × (T.eq v w ≡ true)) }
{
    let _number = storage.number();
    storage.extend(values, references)?;
    Ok(())
}

/// The stored value that equals this one: what is read is found. None where there is none.
pub fn find<'a, T: Internable>(storage: &'a InternStorage<T>, value: &T) -> Option<&'a T>
    ensures found { IfSome result (λ w. T.eq value.now w.now ≡ true) }
    ensures read { (n : Name) (w : T) → reads storage.now n ≡ Some w →
        T.eq value.now w ≡ true → option_copied result ≡ Some w }
    ensures none { IfNone result ((n : Name) (w : T) →
        reads storage.now n ≡ Some w → T.eq value.now w ≡ false) }
{
    let _number = storage.number();
    storage.get(value)?.get(storage)
}

/// What a scope names.
#[derive(Debug, Drop, PartialEq, Eq, Hash)]
pub struct Qualified {
    /// The scope.
    pub scope: Text,
    /// Its name there.
    pub name: Text,
}

impl Internable for Qualified {
    const USE_GC: bool = true;

    ghost USE_GC = { true };
}

/// The same, borrowed: by it one is looked up, and none is built for that.
#[derive(Clone, Copy, PartialEq, Eq, Hash)]
pub struct QualifiedRef<'a> {
    pub scope: &'a str,
    pub name: &'a str,
}

impl Equivalent<Qualified> for QualifiedRef<'_> {
    ghost use Rattle.std.proofs.Common.{rules};
    ghost use Rattle.std.specs.Cmp.Rules.{comparing, hashing};
    ghost use Rattle.use_lookups.specs.Qualified.{is_named};

    ghost equivalent = { λ q. is_named q.scope.now q.name.now };

    ghost respects_hash = { Prim.search (hashing, rules) };

    ghost respects_eq = { Prim.search (comparing, rules) };

    fn equivalent(&self, stored: &Qualified) -> bool {
        stored.scope.is(self.scope) && stored.name.is(self.name)
    }
}

/// The reference of what a scope names. None where it isn't stored.
pub fn find_qualified(
    storage: &InternStorage<Qualified>,
    scope: &str,
    name: &str,
) -> Option<InternedRef<Qualified>>
    ensures { option_map ref_name result ≡ name_where (is_named scope.now name.now) storage.now }
{
    storage.find(QualifiedRef { scope, name })
}
