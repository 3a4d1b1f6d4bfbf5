//! Laws of types, each the contract of a function that does nothing.
ghost use Rattle.std.specs.Prelude.{◌≡◌, ◌↔◌, Bool, true, List};
ghost use Rattle.ra_ap_intern.specs.Families.{kept_named};
ghost use Rattle.ra_ap_intern.specs.Handle.{ref_name};
ghost use Rattle.ra_ap_intern.specs.Interning.{ReadsOn};
ghost use Rattle.ra_ap_intern.specs.Name.{Name as TypeName};
ghost use Rattle.ra_ap_intern.specs.Names.{has};
ghost use Rattle.ra_ap_intern.specs.Reach.{IsReachedSet};
ghost use Rattle.ra_ap_intern.specs.State.{State, IsState};
ghost use Rattle.ra_ap_intern.specs.declared.kind.Values.{Values as ValueKind};
ghost use Rattle.ra_ap_intern.specs.declared.storage.Ref.{Ref as Reference};
ghost use Rattle.types.specs.Tree.{Tree, UnfoldsTo};
ghost use Rattle.types.specs.Types.{shape, types_of};
ghost use Rattle.types.specs.declared.value.TypeNode.{TypeNode as Node};

use crate::value::{TypeNode, TypeRef};
use ra_ap_intern::laws;
use std::cmp::PartialEq;

/// Types are equal exactly if they are the same leaf, or have the same parts in order.
pub fn types_are_their_shapes()
    ensures { (v w : Node) → (⟦<TypeNode as PartialEq>⟧.eq v w ≡ true) ↔ (shape v ≡ shape w) }
{
    laws::references_are_names::<TypeNode>();
}

/// Two handles of one store are equal exactly if the types that they stand for are equal to their
/// leaves.
pub fn handles_tell_trees()
    ensures { (s : State Node) → IsState ⟦<TypeNode as PartialEq>⟧.eq s →
        (a b : Reference (ValueKind Node)) (t u : Tree) →
        UnfoldsTo s (ref_name a) t → UnfoldsTo s (ref_name b) u →
        (⟦<TypeRef as PartialEq>⟧.eq a b ≡ true) ↔ (t ≡ u) }
{
    types_are_their_shapes();
    laws::references_are_names::<TypeNode>();
}

/// A tree stays where what is read stays, and where a collection leaves its type.
pub fn trees_stay()
    ensures read { (s t : State Node) → ReadsOn s t → (n : TypeName) (tree : Tree) →
        UnfoldsTo s n tree → UnfoldsTo t n tree }
    ensures collected { (s : State Node) (begins : TypeName → Bool) (names : List TypeName) →
        IsReachedSet begins (types_of s) names → (n : TypeName) (tree : Tree) →
        has names n ≡ true → UnfoldsTo s n tree → UnfoldsTo (kept_named s (has names)) n tree }
{}
