//! Types, as a compiler has them: each is kept once, so that two are compared by their handles.
#![tactic(auto)]

ghost use Rattle.std.specs.Prelude.{◌≡◌, ◌↔◌, true, List, map as list_map, Some, IfOk, OnErr};
ghost use Rattle.std.specs.Option.{option_map};
ghost use Rattle.ra_ap_intern.specs.Families.{IsCollection, kept_named};
ghost use Rattle.ra_ap_intern.specs.Handle.{ref_name};
ghost use Rattle.ra_ap_intern.specs.Interning.{Makes};
ghost use Rattle.ra_ap_intern.specs.Name.{Name as TypeName};
ghost use Rattle.ra_ap_intern.specs.Names.{has};
ghost use Rattle.ra_ap_intern.specs.Reach.{Reached, starts_with};
ghost use Rattle.ra_ap_intern.specs.State.{State, IsState, reads, name_of_value};
ghost use Rattle.ra_ap_intern.specs.declared.kind.Values.{Values as ValueKind};
ghost use Rattle.ra_ap_intern.specs.declared.storage.Ref.{Ref as Reference};
ghost use Rattle.use_types.specs.Types.{Shape, shape, shape_at, types_of};
ghost use Rattle.use_types.specs.declared.TypeNode.{TypeNode as Node};
ghost use Rattle.use_types.specs.declared.TypeNode.TheVariants.{Function as function_node};

use ra_ap_intern::{
    Collected, GarbageCollector, GcInternedVisit, InternStorage, Internable, InternedRef, Refusal,
    SymbolRef, laws,
};
use std::alloc::{AllocError, Global};
use std::cmp::PartialEq;

/// A type of a compiler, over its parts.
#[derive(Drop, PartialEq, Eq, Hash)]
pub enum TypeNode {
    /// The type of a name.
    Named(SymbolRef),
    /// The functions from a type to another.
    Function(TypeRef, TypeRef),
}

/// A handle of a type.
pub type TypeRef = InternedRef<TypeNode>;

/// A store of types. Handles tell stores apart by their numbers alone.
pub type Types = InternStorage<TypeNode>;

impl Internable for TypeNode {
    const USE_GC: bool = true;

    ghost USE_GC = { true };
}

impl GcInternedVisit for TypeNode {
    ghost use Rattle.use_types.specs.Types.{declared_by};

    ghost children = { declared_by };

    fn visit_with(&self, gc: &mut GarbageCollector) {
        match self {
            TypeNode::Named(_) => {}
            TypeNode::Function(from, to) => (*from, *to).visit_with(gc),
        }
    }
}

/// The handle of a type, which is stored unless an equal one is. Refused: `NumbersUsedUp`,
/// `OutOfMemory`.
pub fn make(types: &mut Types, node: TypeNode) -> Result<TypeRef, Refusal>
    ensures { Makes ⟦<TypeNode as PartialEq>⟧.eq shape result types.old types.new node }
{
    // What these say is used here: that no two types are equal, and what types are.
    types_are_their_shapes();
    let _number = types.number();
    types.get_or_intern_gc(node)
}

/// The type of the functions from a type to another, made as by `make`.
pub fn function(types: &mut Types, from: TypeRef, to: TypeRef) -> Result<TypeRef, Refusal>
    ensures { Makes ⟦<TypeNode as PartialEq>⟧.eq shape result types.old types.new
        (function_node from to) }
{
    make(types, TypeNode::Function(from, to))
}

/// The type of the functions from a type to another, where it was made. It makes none.
pub fn find_function(types: &Types, from: TypeRef, to: TypeRef) -> Option<TypeRef>
    ensures { option_map ref_name result
        ≡ name_of_value ⟦<TypeNode as PartialEq>⟧.eq types.now (function_node from to) }
{
    types.get(&TypeNode::Function(from, to))
}

/// Removes every type that is neither listed nor counted, nor a part of what stays. Where there is
/// no memory, `AllocError`, and the store is as it was.
pub fn collect(alloc: Global, types: &mut Types, roots: &[TypeRef]) -> Result<Collected, AllocError>
    ensures ok { let begins = starts_with (list_map ref_name roots.now) (types_of types.old) in
        IfOk result (λ told. (names : List TypeName)
        × IsCollection begins (types_of types.old) names told
        × (types.new ≡ kept_named types.old (has names))) }
    ensures err { OnErr result (types.new ≡ types.old) }
    ensures stays { let begins = starts_with (list_map ref_name roots.now) (types_of types.old) in
        (n : TypeName) → Reached begins (types_of types.old) n →
        reads types.new n ≡ reads types.old n }
{
    GarbageCollector::new(alloc).collect_from(types, &roots)
}

/// Types are equal exactly if they have the same name, or the same parts in order.
pub fn types_are_their_shapes()
    ensures { (v w : Node) → (⟦<TypeNode as PartialEq>⟧.eq v w ≡ true) ↔ (shape v ≡ shape w) }
{
    laws::symbol_references_are_what_they_name();
}

/// Two handles of one store are equal exactly if the types that they stand for are.
pub fn handles_tell_types()
    ensures { (s : State Node) → IsState ⟦<TypeNode as PartialEq>⟧.eq s →
        (a b : Reference (ValueKind Node)) (x y : Shape) →
        shape_at s (ref_name a) ≡ Some x → shape_at s (ref_name b) ≡ Some y →
        (⟦<TypeRef as PartialEq>⟧.eq a b ≡ true) ↔ (x ≡ y) }
{
    types_are_their_shapes();
    laws::references_are_names::<TypeNode>();
}
