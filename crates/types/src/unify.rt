//! Unification: what makes two types equal.
ghost use Rattle.std.specs.Prelude.{◌≡◌, ◌≢◌, Bool, Some, IfErr, IfNone, IfOk, IfSome, IsNone, IsTrue, OnOk};
ghost use Rattle.std.specs.Bool.{OnFalse, OnTrue};
ghost use Rattle.ra_ap_intern.specs.Handle.{ref_name};
ghost use Rattle.ra_ap_intern.specs.Name.{Name as TypeName};
ghost use Rattle.types.specs.Founded.{AreOver, AreResolved, StaysFounded, known_types};
ghost use Rattle.types.specs.Types.{shape_at, unknown_shape};
ghost use Rattle.types.specs.Unifying.{AreApart, Binds, HasTree, HaveNoUnifier, HaveParts, IsConflict, IsNever, IsNoUnknown, IsRefusal, IsSolvable, Unifies, two};

use crate::error::{Result, TypeError};
use crate::laws::types_are_their_shapes;
use crate::store::Types;
use crate::unknowns::{Unknowns, number_of};
use crate::value::{TypeNode, TypeRef};
use ra_ap_intern::{FixedState, laws};
use std::collections::HashSet;
use std::hash::BuildHasher;

/// Makes two types equal by what it makes of the unknown types in them, and of nothing more: a most
/// general unifier. Refused: `Clash` or `Infinite` where there is none, `OutOfMemory`, and
/// `TooLarge` only where an unknown type was never added or is known to be itself for ever; some
/// unknown types may have become others then. Pairs that were met are not looked into again.
pub fn unify(types: &Types, unknowns: &mut Unknowns, left: TypeRef, right: TypeRef) -> Result<()>
    // What unknown types may be is what they could be, and by which the two types are one tree.
    ensures unifies { OnOk result (Unifies types.now unknowns.old unknowns.new
        (ref_name left) (ref_name right)) }
    // There is such a choice if there was one, and if both types can be read to their leaves.
    ensures solvable { OnOk result (HasTree types.now (ref_name left) →
        HasTree types.now (ref_name right) → IsSolvable types.now unknowns.old →
        IsSolvable types.now unknowns.new) }
    // Two types that are said to clash, or to be infinite, are one tree by no choice.
    ensures refused { IfErr result (λ e. IsConflict e →
        HaveNoUnifier types.now unknowns.old (ref_name left) (ref_name right)) }
    // Where unknown types are founded, nothing is refused but for that or for want of memory.
    ensures why { AreOver types.now (known_types unknowns.old) (ref_name left) (ref_name right) →
        IfErr result IsRefusal }
    ensures founded { OnOk result (
        AreOver types.now (known_types unknowns.old) (ref_name left) (ref_name right) →
        StaysFounded types.now (known_types unknowns.old) (known_types unknowns.new)) }
{
    laws::references_are_names::<TypeNode>();
    let mut open = Vec::new(types.allocator());
    let mut met = HashSet::new(types.allocator());
    open.push((left, right))?;
    while let Some((first, second)) = open.pop() {
        let first = unknowns.resolve(types, first);
        let second = unknowns.resolve(types, second);
        if first == second || !met.insert((first, second))? {
            continue;
        }
        if bind_one(types, unknowns, first, second)? {
            continue;
        }
        let Some(((a, b), (c, d))) = parts(types, first, second) else {
            return Err(TypeError::Clash(left, right));
        };
        open.push((b, d))?;
        open.push((a, c))?;
    }
    Ok(())
}

// The two parts of a type.
type Parts = (TypeRef, TypeRef);

// The parts of two types of one kind. Others are no one type, where both are known.
fn parts(types: &Types, first: TypeRef, second: TypeRef) -> Option<(Parts, Parts)>
    ensures parts { IfSome result (λ r. HaveParts types.now (ref_name first) (ref_name second)
        (ref_name r.0.0) (ref_name r.0.1) (ref_name r.1.0) (ref_name r.1.1)) }
    ensures none { IfNone result (ref_name first ≢ ref_name second →
        IsNoUnknown types.now (ref_name first) → IsNoUnknown types.now (ref_name second) →
        AreApart types.now (ref_name first) (ref_name second)) }
{
    // What these say is used here: that no two types are equal, and what types are.
    types_are_their_shapes();
    let _number = types.number();
    let (kind, a, b) = parts_of(types, first)?;
    let (other, c, d) = parts_of(types, second)?;
    if kind != other {
        return None;
    }
    Some(((a, b), (c, d)))
}

/// Whether a type is a function, and its parts. None where it is neither a function nor a pair.
pub fn parts_of(types: &Types, handle: TypeRef) -> Option<(bool, TypeRef, TypeRef)>
    ensures parts { IfSome result (λ r. shape_at types.now (ref_name handle)
        ≡ Some (two r.0 (ref_name r.1) (ref_name r.2))) }
    ensures none { IfNone result ((kind : Bool) (a b : TypeName) →
        shape_at types.now (ref_name handle) ≢ Some (two kind a b)) }
{
    match types.get(handle)? {
        TypeNode::Function(from, to) => Some((true, from, to)),
        TypeNode::Pair(first, second) => Some((false, first, second)),
        _ => None,
    }
}

// Where one of two types is unknown, it becomes the other. Whether one is.
fn bind_one(types: &Types, unknowns: &mut Unknowns, first: TypeRef, second: TypeRef) -> Result<bool>
    requires { ref_name first ≢ ref_name second }
    ensures bound { IfOk result (λ bound. OnTrue bound
        (Unifies types.now unknowns.old unknowns.new (ref_name first) (ref_name second))) }
    ensures solvable { IfOk result (λ bound. OnTrue bound (HasTree types.now (ref_name first) →
        HasTree types.now (ref_name second) → IsSolvable types.now unknowns.old →
        IsSolvable types.now unknowns.new)) }
    ensures same { IfOk result (λ bound. OnFalse bound (unknowns.new ≡ unknowns.old)) }
    ensures none { IfOk result (λ bound. OnFalse bound (IsNoUnknown types.now (ref_name first)
        × IsNoUnknown types.now (ref_name second))) }
    ensures refused { IfErr result (λ e. IsConflict e →
        HaveNoUnifier types.now unknowns.old (ref_name first) (ref_name second)) }
    ensures why { AreResolved types.now (known_types unknowns.old) (ref_name first)
        (ref_name second) → IfErr result IsRefusal }
    ensures founded { OnOk result (
        AreResolved types.now (known_types unknowns.old) (ref_name first) (ref_name second) →
        StaysFounded types.now (known_types unknowns.old) (known_types unknowns.new)) }
{
    let number = number_of(types, first);
    if let Some(other) = number_of(types, second) {
        if gives_way(other, number) {
            bind(types, unknowns, (other, second), first)?;
            return Ok(true);
        }
    }
    if let Some(number) = number {
        bind(types, unknowns, (number, first), second)?;
        return Ok(true);
    }
    Ok(false)
}

// Whether an unknown type is to become another type: it is where that isn't unknown. Else their
// numbers decide as if by lot, so that few known types are in a row, in whatever order types are
// made equal.
fn gives_way(number: u64, other: Option<u64>) -> bool
    ensures { IsNone other → IsTrue result }
{
    other.is_none_or(|other| lot(number) < lot(other))
}

// Another number for each, in no order that a text has.
fn lot(number: u64) -> u64 {
    FixedState::new().hash_one(number)
}

// An unknown type, and its number.
type Unknown = (u64, TypeRef);

// An unknown type becomes another type that it is no part of, whose unknown types then belong to
// its level.
fn bind(types: &Types, unknowns: &mut Unknowns, unknown: Unknown, handle: TypeRef) -> Result<()>
    requires unknown { shape_at types.now (ref_name unknown.1) ≡ Some (unknown_shape unknown.0) }
    requires other { ref_name unknown.1 ≢ ref_name handle }
    ensures binds { OnOk result (Binds types.now unknowns.old unknowns.new unknown.0
        (ref_name handle)) }
    ensures solvable { OnOk result (HasTree types.now (ref_name handle) →
        IsSolvable types.now unknowns.old → IsSolvable types.now unknowns.new) }
    ensures refused { IfErr result (λ e. IsConflict e →
        IsNever types.now unknowns.old unknown.0 (ref_name handle)) }
    ensures why { AreResolved types.now (known_types unknowns.old) (ref_name unknown.1)
        (ref_name handle) → IfErr result IsRefusal }
    ensures founded { OnOk result (
        AreResolved types.now (known_types unknowns.old) (ref_name unknown.1) (ref_name handle) →
        StaysFounded types.now (known_types unknowns.old) (known_types unknowns.new)) }
{
    laws::references_are_names::<TypeNode>();
    // What these say is used here: that no two types are equal, and what types are.
    types_are_their_shapes();
    let _number = types.number();
    let (number, unknown) = unknown;
    // Where unknown types are founded there is a level, and each part that is met is open.
    let Some(level) = unknowns.level(number) else {
        return Err(TypeError::TooLarge);
    };
    let mut open = Vec::new(types.allocator());
    let mut met = HashSet::new(types.allocator());
    open.push(handle)?;
    while let Some(part) = open.pop() {
        if part == unknown {
            return Err(TypeError::Infinite(unknown, handle));
        }
        if let Some(other) = number_of(types, part) {
            if !unknowns.lower(other, level) {
                return Err(TypeError::TooLarge);
            }
            continue;
        }
        let Some((_, first, second)) = parts_of(types, part) else {
            continue;
        };
        if !met.insert(part)? {
            continue;
        }
        open.push(unknowns.resolve(types, second))?;
        open.push(unknowns.resolve(types, first))?;
    }
    unknowns.bind(number, handle);
    Ok(())
}
