//! Memos: what a function came to, each under the handle of its argument.
#![tactic(auto)]

ghost use Rattle.std.proofs.Props.{props};
ghost use Rattle.std.specs.Prelude.{◌≡◌, ◌⊎◌, List, true, Some, None, IfOk, IfErr, OnOk, OnErr, map as list_map, if◌then◌else◌, option_copied};
ghost use Rattle.ra_ap_intern.specs.Families.{IsCollection, entries_of, kept_named};
ghost use Rattle.ra_ap_intern.specs.Handle.{ref_name};
ghost use Rattle.ra_ap_intern.specs.Name.{Name};
ghost use Rattle.ra_ap_intern.specs.Names.{has};
ghost use Rattle.ra_ap_intern.specs.Outcome.{Becomes, MayWant};
ghost use Rattle.ra_ap_intern.specs.Reach.{starts_with};
ghost use Rattle.ra_ap_intern.specs.Refusal.TheVariants.{OutOfMemory};
ghost use Rattle.ra_ap_intern.specs.State.{new_state, interned, interned_name, is_new, due_interning, any_count, name_of_value};
ghost use Rattle.ra_ap_intern.specs.Under.{under_value, Covers};
ghost use Rattle.ra_ap_intern.specs.declared.gc.Collected.{Collected as Told};

use ra_ap_intern::{
    GarbageCollector, GcInternedVisit, InternStorage, Internable, Interned, InternedRef, Refusal,
    laws,
};
use std::alloc::{AllocError, Global};
use std::collections::HashMap;

/// What a function came to, under the handles of its arguments.
#[derive(Drop)]
pub struct Memos<T: Internable, V> {
    alloc: Global,
    /// The arguments.
    pub arguments: InternStorage<T>,
    /// What the function came to for each.
    pub results: HashMap<InternedRef<T>, V>,
    // Each argument of which something is noted is stored.
    ghost covered: { Covers arguments results } by { Prim.hlevel props },
}

impl<T: Internable + GcInternedVisit + Drop, V: Drop> Memos<T, V> {
    /// Nothing is known.
    pub fn new(alloc: Global, number: u64) -> Memos<T, V>
        ensures arguments { result.arguments ≡ new_state number u64.MAX u64.MAX }
        ensures results { (argument : T) →
            under_value T.eq result.arguments result.results argument ≡ None }
    {
        Memos {
            alloc,
            arguments: InternStorage::new(alloc, number),
            results: HashMap::new(alloc),
        }
    }

    /// Notes what the function came to for an argument, in place of what was noted before. Refused,
    /// with nothing changed: `NumbersUsedUp`, `OutOfMemory`.
    pub fn note(&mut self, argument: T, value: V) -> Result<(), Refusal>
        requires { T.Internable.USE_GC ≡ true }
        ensures ok { OnOk result (due_interning T.eq self.old.arguments argument any_count ≡ None) }
        ensures refused { IfErr result (λ why. (why ≡ OutOfMemory)
            ⊎ (due_interning T.eq self.old.arguments argument any_count ≡ Some why)) }
        ensures arguments { Becomes result self.old.arguments self.new.arguments
            (interned T.eq self.old.arguments argument).state }
        ensures notes { OnOk result ((other : T) →
            under_value T.eq self.new.arguments self.new.results other
            ≡ (if T.eq argument other then Some value
            else under_value T.eq self.old.arguments self.old.results other)) }
        ensures stays { OnErr result ((other : T) →
            under_value T.eq self.new.arguments self.new.results other
            ≡ under_value T.eq self.old.arguments self.old.results other) }
    {
        laws::references_are_names::<T>();
        let _number = self.arguments.number();
        self.results.reserve(1)?;
        let handle = self.arguments.get_or_intern_gc(argument)?;
        let stored: Result<_, _> = self.results.insert(handle, value);
        stored.unwrap();
        Ok(())
    }

    /// The handle of an argument, which is stored where it isn't. What was noted stays. Refused:
    /// `NumbersUsedUp`, `OutOfMemory`.
    pub fn ask(&mut self, argument: T) -> Result<InternedRef<T>, Refusal>
        requires { T.Internable.USE_GC ≡ true }
        ensures name { IfOk result (λ r.
            ref_name r ≡ interned_name T.eq self.old.arguments argument) }
        ensures refused { MayWant result
            (due_interning T.eq self.old.arguments argument any_count)
            (is_new T.eq self.old.arguments argument) }
        ensures arguments { Becomes result self.old.arguments self.new.arguments
            (interned T.eq self.old.arguments argument).state }
        ensures stays { (other : T) →
            under_value T.eq self.new.arguments self.new.results other
            ≡ under_value T.eq self.old.arguments self.old.results other }
    {
        let _number = self.arguments.number();
        self.arguments.get_or_intern_gc(argument)
    }

    /// What the function came to, as far as it was noted. It takes no memory.
    pub fn look_up(&self, argument: &T) -> Option<&V>
        ensures { option_copied result
            ≡ under_value T.eq self.now.arguments self.now.results argument.now }
    {
        laws::references_are_names::<T>();
        self.results.get(&self.arguments.get(argument)?)
    }

    /// Forgets all but the listed arguments, and what these need, and tells how many went. Where
    /// there is no memory, nothing changes.
    pub fn keep(&mut self, listed: &[InternedRef<T>]) -> Result<usize, AllocError>
        requires { T.Internable.USE_GC ≡ true }
        ensures kept { IfOk result (λ removed. let children = T.GcInternedVisit.children in
            let entries = entries_of children self.old.arguments in
            (names : List Name) × (told : Told)
            × IsCollection (starts_with (list_map ref_name listed.now) entries) entries names told
            × (self.new.arguments ≡ kept_named self.old.arguments (has names))
            × (removed ≡ told.removed)) }
        ensures notes { OnOk result ((argument : T) (name : Name) →
            name_of_value T.eq self.new.arguments argument ≡ Some name →
            under_value T.eq self.new.arguments self.new.results argument
            ≡ under_value T.eq self.old.arguments self.old.results argument) }
        ensures err { OnErr result (self.new ≡ self.old) }
    {
        laws::references_are_names::<T>();
        let _number = self.arguments.number();
        let collector = GarbageCollector::new(self.alloc);
        let collected = collector.collect_from(&mut self.arguments, &listed)?;
        let arguments = &self.arguments;
        self.results.retain(|handle, _| arguments.contains(*handle));
        Ok(collected.removed)
    }
}
