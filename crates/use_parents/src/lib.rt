//! A store of paths in which each parent can be read, so that loops go up in it.
#![tactic(auto)]

ghost use Rattle.std.specs.Prelude.{◌≡◌, List, map as list_map, Some, IfOk, OnErr, option_and_then};
ghost use Rattle.std.specs.Option.{option_map};
ghost use Rattle.ra_ap_intern.specs.Families.{IsCollection, kept_named};
ghost use Rattle.ra_ap_intern.specs.Handle.{name_if, ref_name};
ghost use Rattle.ra_ap_intern.specs.Name.{Name};
ghost use Rattle.ra_ap_intern.specs.Names.{has};
ghost use Rattle.ra_ap_intern.specs.Order.{due_parent};
ghost use Rattle.ra_ap_intern.specs.Outcome.{Becomes, MayWant, Owes};
ghost use Rattle.ra_ap_intern.specs.Reach.{Reached, starts_with};
ghost use Rattle.ra_ap_intern.specs.State.{new_state, reads, is_new, interned, interned_name};
ghost use Rattle.ra_ap_intern.specs.Symbols.{Named, symbol_ref_name};
ghost use Rattle.use_parents.specs.Parents.{due_path};
ghost use Rattle.use_paths.specs.Paths.{parent_of, paths_of, spelled};
ghost use Rattle.use_paths.specs.declared.Path.TheVariants.{Within as path_of};

use ra_ap_intern::{
    Collected, GarbageCollector, InternStorage, Interned, OptionalInternedRef, Refusal, SymbolRef,
};
use std::alloc::{AllocError, Global};
use std::cmp::PartialEq;
use std::marker::Model;
use use_paths::{Path, PathRef, spell};

/// A store of paths.
#[derive(Drop)]
pub struct Paths {
    alloc: Global,
    paths: InternStorage<Path>,
}

impl Model for Paths {
    ghost use Rattle.ra_ap_intern.specs.Order.{IsBuilt};
    ghost use Rattle.ra_ap_intern.specs.State.{State, state_code};
    ghost use Rattle.use_paths.specs.Paths.{declared_by};
    ghost use Rattle.use_paths.specs.contracts.Path as path;
    ghost use Rattle.use_paths.specs.declared.Path.{Path};

    ghost Value = { State Path };

    ghost coded = { state_code path.the_row.coded };

    ghost view = { λ a. a.paths };

    ghost invariant = { λ a. IsBuilt declared_by a.paths };
}

impl Paths {
    /// An empty store.
    pub fn new(alloc: Global, number: u64) -> Paths
        ensures { result ≡ new_state number u64.MAX u64.MAX }
    {
        let paths = InternStorage::new(alloc, number);
        Paths { alloc, paths }
    }

    /// The path of a name within a parent, or of a name alone. Refused: `Foreign` or `Gone`, where
    /// the parent can't be read; `NumbersUsedUp`, `OutOfMemory`.
    pub fn within(
        &mut self,
        parent: OptionalInternedRef<Path>,
        name: SymbolRef,
    ) -> Result<PathRef, Refusal>
        ensures name { let eq = ⟦<Path as PartialEq>⟧.eq in
            IfOk result (λ p. ref_name p ≡ interned_name eq self.old (path_of parent name)) }
        ensures refused { let eq = ⟦<Path as PartialEq>⟧.eq in
            MayWant result (due_path eq self.old (path_of parent name))
            (is_new eq self.old (path_of parent name)) }
        ensures state { let eq = ⟦<Path as PartialEq>⟧.eq in
            Becomes result self.old self.new (interned eq self.old (path_of parent name)).state }
        ensures stays { (n : Name) (names : List Named) →
            spelled self.old n ≡ Some names → spelled self.new n ≡ Some names }
    {
        // What `number` says is used here: that each path that is read has an earlier birth.
        let _number = self.paths.number();
        self.check(parent)?;
        let (path, _) = Interned::new_gc(&mut self.paths, Path::Within { parent, name })?;
        Ok(path)
    }

    // Refused: `Foreign` or `Gone`, where there is a parent that can't be read.
    fn check(&self, parent: OptionalInternedRef<Path>) -> Result<(), Refusal>
        ensures { Owes result (due_parent self.now (name_if parent)) }
    {
        match parent.get() {
            None => Ok(()),
            Some(parent) => self.paths.check(parent),
        }
    }

    /// The names of a path, the last first. None where it isn't of this store, or is gone. Where
    /// there is no memory, `AllocError`.
    pub fn spelled(&self, path: PathRef) -> Result<Option<Vec<SymbolRef>>, AllocError>
        ensures { IfOk result (λ names. option_map (λ v. list_map symbol_ref_name v.items) names
            ≡ spelled self.now (ref_name path)) }
    {
        spell(self.alloc, &self.paths, path)
    }

    /// Removes every path but the listed ones and those above them. Where there is no memory,
    /// `AllocError`, and the store is as it was.
    pub fn collect(&mut self, roots: &[PathRef]) -> Result<Collected, AllocError>
        ensures ok { let begins = starts_with (list_map ref_name roots.now) (paths_of self.old) in
            IfOk result (λ told. (kept : List Name)
            × IsCollection begins (paths_of self.old) kept told
            × (self.new ≡ kept_named self.old (has kept))) }
        ensures err { OnErr result (self.new ≡ self.old) }
        ensures stays { (n : Name) →
            Reached (starts_with (list_map ref_name roots.now) (paths_of self.old))
            (paths_of self.old) n → spelled self.new n ≡ spelled self.old n }
    {
        GarbageCollector::new(self.alloc).collect_from(&mut self.paths, &roots)
    }
}
