//! The store of types.
ghost use Rattle.std.specs.Prelude.{◌≡◌, IsTrue, List, Some, map as list_map, IfOk, OnErr, option_copied};
ghost use Rattle.std.specs.FinMap as map;
ghost use Rattle.ra_ap_intern.specs.Families.{IsCollection, kept_named};
ghost use Rattle.ra_ap_intern.specs.Handle.{ref_name};
ghost use Rattle.ra_ap_intern.specs.Interning.{Makes};
ghost use Rattle.ra_ap_intern.specs.Name.{Name as TypeName};
ghost use Rattle.ra_ap_intern.specs.Names.{has};
ghost use Rattle.ra_ap_intern.specs.Reach.{Reached, starts_with};
ghost use Rattle.ra_ap_intern.specs.State.{IsState, new_state, reads};
ghost use Rattle.types.specs.Tree.{StandsClosed};
ghost use Rattle.types.specs.Types.{shape, shape_at, types_of};
ghost use Rattle.types.specs.declared.value.TypeNode.TheVariants.{Function as function_node, Pair as pair_node};

use crate::laws::types_are_their_shapes;
use crate::value::{TypeNode, TypeRef};
use crate::written::Written;
use ra_ap_intern::{Collected, GarbageCollector, InternStorage, Refusal, laws};
use std::alloc::{AllocError, Global};
use std::cmp::PartialEq;
use std::collections::HashSet;
use std::marker::Model;

/// A store of types, each kept once.
#[derive(Drop)]
pub struct Types {
    alloc: Global,
    types: InternStorage<TypeNode>,
    // Those that are known to have no variables.
    closed: HashSet<TypeRef>,
}

impl Model for Types {
    ghost use Rattle.std.specs.Prelude.{Contains};
    ghost use Rattle.ra_ap_intern.specs.Handle.{ref_name};
    ghost use Rattle.ra_ap_intern.specs.State.{State, state_code};
    ghost use Rattle.types.specs.Tree.{StandsClosed};
    ghost use Rattle.types.specs.contracts.value.TypeNode as value;
    ghost use Rattle.ra_ap_intern.specs.declared.kind.Values.{Values as ValueKind};
    ghost use Rattle.ra_ap_intern.specs.declared.storage.Ref.{Ref as Reference};
    ghost use Rattle.types.specs.declared.value.TypeNode.{TypeNode};

    ghost Value = { State TypeNode };

    ghost coded = { state_code value.the_row.coded };

    ghost view = { λ a. a.types };

    ghost invariant = { λ a. (handle : Reference (ValueKind TypeNode)) →
        Contains a.closed.keys handle → StandsClosed a.types (ref_name handle) };
}

impl Types {
    /// An empty store. Handles tell stores apart by their numbers alone.
    pub fn new(alloc: Global, number: u64) -> Types
        ensures { result ≡ new_state number u64.MAX u64.MAX }
    {
        Types {
            alloc,
            types: InternStorage::new(alloc, number),
            closed: HashSet::new(alloc),
        }
    }

    /// The store's number. No two of its types are equal.
    pub fn number(&self) -> u64
        ensures number { result ≡ self.now.number }
        ensures state { IsState ⟦<TypeNode as PartialEq>⟧.eq self.now }
    {
        self.types.number()
    }

    /// What the store takes its memory from.
    pub fn allocator(&self) -> Global {
        self.alloc
    }

    /// The functions from a type to another.
    pub fn function(&mut self, from: TypeRef, to: TypeRef) -> Result<TypeRef, Refusal>
        ensures { Makes ⟦<TypeNode as PartialEq>⟧.eq shape result self.old self.new
            (function_node from to) }
    {
        self.make(TypeNode::Function(from, to))
    }

    /// The pairs of two types.
    pub fn pair(&mut self, first: TypeRef, second: TypeRef) -> Result<TypeRef, Refusal>
        ensures { Makes ⟦<TypeNode as PartialEq>⟧.eq shape result self.old self.new
            (pair_node first second) }
    {
        self.make(TypeNode::Pair(first, second))
    }

    /// The handle of a type, which is stored unless an equal one is.
    pub fn make(&mut self, node: TypeNode) -> Result<TypeRef, Refusal>
        ensures { Makes ⟦<TypeNode as PartialEq>⟧.eq shape result self.old self.new node }
    {
        let handle = self.intern(node)?;
        if self.is_over_closed(node) {
            // Where there is no memory to note it, it isn't known.
            let _ = self.closed.insert(handle);
        }
        Ok(handle)
    }

    fn intern(&mut self, node: TypeNode) -> Result<TypeRef, Refusal>
        ensures { Makes ⟦<TypeNode as PartialEq>⟧.eq shape result self.old self.new node }
    {
        // What these say is used here: that no two types are equal, and what types are.
        types_are_their_shapes();
        let _number = self.types.number();
        self.types.get_or_intern_gc(node)
    }

    /// Whether a type is known to have no variables. Each that was made of such ones is, unless
    /// memory was wanting, or a collection left it since.
    pub fn is_closed(&self, handle: TypeRef) -> bool
        ensures { IsTrue result → StandsClosed self.now (ref_name handle) }
    {
        laws::references_are_names::<TypeNode>();
        self.closed.contains(&handle)
    }

    // Whether a type has no variables, by its parts.
    fn is_over_closed(&self, node: TypeNode) -> bool
        ensures { IsTrue result → (n : TypeName) → shape_at self.now n ≡ Some (shape node) →
            StandsClosed self.now n }
    {
        match node {
            TypeNode::Integer | TypeNode::Boolean => true,
            TypeNode::Unknown(_) | TypeNode::Any(_) => false,
            TypeNode::Function(first, second) | TypeNode::Pair(first, second) => {
                self.is_closed(first) && self.is_closed(second)
            }
        }
    }

    /// The type that a handle stands for. None for one of another store, or one that is gone.
    pub fn get(&self, handle: TypeRef) -> Option<TypeNode>
        ensures { result ≡ reads self.now (ref_name handle) }
    {
        handle.get(&self.types).copied()
    }

    /// A type as it is written.
    pub fn written(&self, handle: TypeRef) -> Written<'_> {
        Written {
            types: self,
            handle,
        }
    }

    /// How many types there are.
    pub fn len(&self) -> usize
        ensures { result ≡ map.len self.now.map }
    {
        self.types.len()
    }

    /// Removes every type that is neither listed nor counted, nor a part of what stays. Where there
    /// is no memory, `AllocError`, and the store is as it was.
    pub fn collect(&mut self, roots: &[TypeRef]) -> Result<Collected, AllocError>
        ensures ok { IfOk result (λ told. (names : List TypeName)
            × IsCollection (starts_with (list_map ref_name roots.now) (types_of self.old))
            (types_of self.old) names told
            × (self.new ≡ kept_named self.old (has names))) }
        ensures err { OnErr result (self.new ≡ self.old) }
        ensures stays { (n : TypeName) →
            Reached (starts_with (list_map ref_name roots.now) (types_of self.old))
            (types_of self.old) n → reads self.new n ≡ reads self.old n }
    {
        // What stays is known again when it is made again.
        self.closed = HashSet::new(self.alloc);
        GarbageCollector::new(self.alloc).collect_from(&mut self.types, &roots)
    }
}
