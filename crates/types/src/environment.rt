//! The environment: types, and the names that are declared with them.
ghost use Rattle.std.specs.Prelude.{◌≡◌, ◌↔◌, List, Some, None, OnOk, IfOk, OnErr, false, if◌then◌else◌};
ghost use Rattle.std.specs.HashMap.{values};
ghost use Rattle.std.specs.Option.{option_map};
ghost use Rattle.ra_ap_intern.specs.Families.{IsCollection, kept_named};
ghost use Rattle.ra_ap_intern.specs.Handle.{ref_name};
ghost use Rattle.ra_ap_intern.specs.Name.{Name as TypeName};
ghost use Rattle.ra_ap_intern.specs.Names.{has};
ghost use Rattle.ra_ap_intern.specs.Reach.{starts_with};
ghost use Rattle.ra_ap_intern.specs.State.{new_state};
ghost use Rattle.ra_ap_intern.specs.Symbols.{Named, same_named, symbol_ref_name};
ghost use Rattle.types.specs.Environment.{declared_as, declared_types, Declares};
ghost use Rattle.types.specs.Tree.{Tree};
ghost use Rattle.types.specs.Types.{types_of};

use crate::store::Types;
use crate::value::TypeRef;
use ra_ap_intern::{Collected, SymbolRef, laws};
use std::alloc::{AllocError, Global};
use std::collections::HashMap;

/// A store of types, and a type under each name that is declared.
#[derive(Drop)]
pub struct Environment {
    /// The types.
    pub types: Types,
    /// The type under each name.
    pub declared: HashMap<SymbolRef, TypeRef>,
}

impl Environment {
    /// An environment in which nothing is declared.
    pub fn new(alloc: Global, number: u64) -> Environment
        ensures types { result.types ≡ new_state number u64.MAX u64.MAX }
        ensures declared { (name : Named) → declared_as result.declared name ≡ None }
    {
        Environment {
            types: Types::new(alloc, number),
            declared: HashMap::new(alloc),
        }
    }

    /// Declares a name with a type, in place of what it was declared with before. Where there is no
    /// memory, `AllocError`, and nothing has changed.
    pub fn declare(&mut self, name: SymbolRef, handle: TypeRef) -> Result<(), AllocError>
        ensures types { self.new.types ≡ self.old.types }
        ensures declares { OnOk result ((other : Named) → declared_as self.new.declared other
            ≡ (if same_named (symbol_ref_name name) other then Some (ref_name handle)
            else declared_as self.old.declared other)) }
        ensures err { OnErr result ((other : Named) →
            declared_as self.new.declared other ≡ declared_as self.old.declared other) }
        ensures others { (other : Named) (tree : Tree) →
            same_named (symbol_ref_name name) other ≡ false →
            Declares self.old other tree ↔
            Declares self.new other tree }
    {
        laws::symbol_references_are_what_they_name();
        self.declared.insert(name, handle)?;
        Ok(())
    }

    /// The type that a name is declared with. None where it isn't declared.
    pub fn look_up(&self, name: SymbolRef) -> Option<TypeRef>
        ensures { option_map ref_name result
            ≡ declared_as self.now.declared (symbol_ref_name name) }
    {
        laws::symbol_references_are_what_they_name();
        self.declared.get(&name).copied()
    }

    /// Removes every type that neither a declared name nor a counted type needs; none is counted
    /// here. Where there is no memory, `AllocError`, and nothing has changed.
    pub fn collect(&mut self, alloc: Global) -> Result<Collected, AllocError>
        ensures ok { let begins = starts_with (declared_types self.old.declared)
            (types_of self.old.types) in
            IfOk result (λ told. (names : List TypeName)
            × IsCollection begins (types_of self.old.types) names told
            × (self.new.types ≡ kept_named self.old.types (has names))) }
        ensures err { OnErr result (self.new.types ≡ self.old.types) }
        ensures declared { self.new.declared ≡ self.old.declared }
        ensures trees { (name : Named) (tree : Tree) →
            Declares self.old name tree ↔
            Declares self.new name tree }
    {
        let roots: Vec<TypeRef> = self.declared.values().copied().collect(alloc)?;
        self.types.collect(roots.as_slice())
    }
}
