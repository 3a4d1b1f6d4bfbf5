//! Walks over types that share parts, in which each is met once.
#![tactic(auto)]

ghost use Rattle.std.specs.Prelude.{◌≡◌, ◌↔◌, ◌++◌, true, [], ◌∷◌, map as list_map, IfOk, OnOk};
ghost use Rattle.ra_ap_intern.specs.Handle.{ref_name};
ghost use Rattle.ra_ap_intern.specs.Name.{Name as TypeName};
ghost use Rattle.ra_ap_intern.specs.Names.{has};
ghost use Rattle.ra_ap_intern.specs.Walks.{IsWithin};
ghost use Rattle.use_types.specs.Types.{declared_by};

use ra_ap_intern::laws;
use std::alloc::{AllocError, Global};
use std::collections::HashSet;
use use_types::{TypeNode, TypeRef, Types};

/// The types that a type is made of, with that type, each once. None where it isn't of this store,
/// or is gone. Where there is no memory, `AllocError`.
pub fn parts(alloc: Global, types: &Types, whole: TypeRef) -> Result<HashSet<TypeRef>, AllocError>
    ensures { IfOk result (λ met. (n : TypeName) → (has (list_map ref_name met.keys) n ≡ true)
        ↔ IsWithin declared_by types.now (ref_name whole ∷ []) n) }
{
    laws::references_are_names::<TypeNode>();
    let mut met = HashSet::new(alloc);
    let mut ahead = Vec::new(alloc);
    ahead.push(whole)?;
    while let Some(next) = ahead.pop() {
        let Some(node) = next.get(types) else {
            continue;
        };
        if met.insert(next)? {
            add_parts(node, &mut ahead)?;
        }
    }
    Ok(met)
}

// Adds the parts of a type to a list.
fn add_parts(node: &TypeNode, parts: &mut Vec<TypeRef>) -> Result<(), AllocError>
    ensures { OnOk result (list_map ref_name parts.new.items
        ≡ list_map ref_name parts.old.items ++ declared_by node.now) }
{
    if let TypeNode::Function(from, to) = node {
        parts.push(*from)?;
        parts.push(*to)?;
    }
    Ok(())
}

/// Whether a type is a part of another, or the other itself, and is of this store: the occurs check
/// of inference. Where there is no memory, `AllocError`.
pub fn occurs(
    alloc: Global,
    types: &Types,
    part: TypeRef,
    whole: TypeRef,
) -> Result<bool, AllocError>
    ensures { IfOk result (λ is. (is ≡ true)
        ↔ IsWithin declared_by types.now (ref_name whole ∷ []) (ref_name part)) }
{
    laws::references_are_names::<TypeNode>();
    Ok(parts(alloc, types, whole)?.contains(&part))
}
