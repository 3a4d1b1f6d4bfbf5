//! Types down to their leaves: what their handles tell of them, and what stays.
#![tactic(auto)]

ghost use Rattle.std.specs.Prelude.{◌≡◌, ◌↔◌, Bool, true, List, IfOk};
ghost use Rattle.std.specs.Option.{option_or};
ghost use Rattle.ra_ap_intern.specs.Families.{kept_named};
ghost use Rattle.ra_ap_intern.specs.Handle.{ref_name};
ghost use Rattle.ra_ap_intern.specs.Name.{Name as TypeName};
ghost use Rattle.ra_ap_intern.specs.Names.{has};
ghost use Rattle.ra_ap_intern.specs.Order.{IsBuilt, due_each};
ghost use Rattle.ra_ap_intern.specs.Outcome.{Becomes, MayWant};
ghost use Rattle.ra_ap_intern.specs.Reach.{IsReachedSet};
ghost use Rattle.ra_ap_intern.specs.State.{State, IsState, is_new, interned, interned_name, due_interning, any_count};
ghost use Rattle.ra_ap_intern.specs.declared.kind.Values.{Values as ValueKind};
ghost use Rattle.ra_ap_intern.specs.declared.storage.Ref.{Ref as Reference};
ghost use Rattle.use_trees.specs.Tree.{TypeTree, UnfoldsTo};
ghost use Rattle.use_types.specs.Types.{declared_by, types_of};
ghost use Rattle.use_types.specs.declared.TypeNode.{TypeNode as Node};
ghost use Rattle.use_types.specs.declared.TypeNode.TheVariants.{Function as function_node};

use ra_ap_intern::{Refusal, laws};
use std::cmp::PartialEq;
use use_types::{TypeNode, TypeRef, Types, make, types_are_their_shapes};

/// The type of the functions from a type to another, both of which have to be stored: so all that a
/// store reads has its parts there, down to the leaves. Refused: `Foreign` and `Gone`, where one
/// isn't stored; `NumbersUsedUp`, `OutOfMemory`.
pub fn whole_function(types: &mut Types, from: TypeRef, to: TypeRef) -> Result<TypeRef, Refusal>
    ensures name { let eq = ⟦<TypeNode as PartialEq>⟧.eq in
        IfOk result (λ r. ref_name r ≡ interned_name eq types.old (function_node from to)) }
    ensures refused { let eq = ⟦<TypeNode as PartialEq>⟧.eq in
        let due = due_each types.old (declared_by (function_node from to)) in
        MayWant result (option_or due (due_interning eq types.old (function_node from to) any_count))
        (is_new eq types.old (function_node from to)) }
    ensures state { let eq = ⟦<TypeNode as PartialEq>⟧.eq in
        Becomes result types.old types.new (interned eq types.old (function_node from to)).state }
    ensures built { IsBuilt declared_by types.old → IsBuilt declared_by types.new }
{
    // What `number` says is used here: that no two types are equal.
    let _number = types.number();
    types.check_all(&[from, to])?;
    make(types, TypeNode::Function(from, to))
}

/// Two handles of one store are equal exactly if the types that they stand for are equal to their
/// leaves.
pub fn handles_tell_trees()
    ensures { (s : State Node) → IsState ⟦<TypeNode as PartialEq>⟧.eq s →
        (a b : Reference (ValueKind Node)) (t u : TypeTree) →
        UnfoldsTo s (ref_name a) t → UnfoldsTo s (ref_name b) u →
        (⟦<TypeRef as PartialEq>⟧.eq a b ≡ true) ↔ (t ≡ u) }
{
    types_are_their_shapes();
    laws::references_are_names::<TypeNode>();
}

/// A tree stays where types are made, and where a collection leaves its type.
pub fn trees_stay()
    ensures made { let eq = ⟦<TypeNode as PartialEq>⟧.eq in
        (s : State Node) → IsState eq s → (v : Node) (n : TypeName) (t : TypeTree) →
        UnfoldsTo s n t → UnfoldsTo (interned eq s v).state n t }
    ensures collected { (s : State Node) (begins : TypeName → Bool) (names : List TypeName) →
        IsReachedSet begins (types_of s) names → (n : TypeName) (t : TypeTree) →
        has names n ≡ true → UnfoldsTo s n t → UnfoldsTo (kept_named s (has names)) n t }
{}
