//! Types that aren't known yet, and what became of them.
ghost use Rattle.std.specs.Prelude.{◌≡◌, ◌≢◌, ◌↔◌, ℕ, Some, IfNone, IfOk, IfSome, IsSome, IsTrue, OnOk, length, min, slice_get, slice_set};
ghost use Rattle.ra_ap_intern.specs.Handle.{ref_name};
ghost use Rattle.ra_ap_intern.specs.State.{State};
ghost use Rattle.ra_ap_intern.specs.declared.kind.Values.{Values as ValueKind};
ghost use Rattle.ra_ap_intern.specs.declared.storage.Ref.{Ref as Reference};
ghost use Rattle.types.specs.Founded.{IsFounded, IsOver, IsResolved, known_types};
ghost use Rattle.types.specs.Tree.{Tree};
ghost use Rattle.types.specs.Types.{shape_at, unknown_shape};
ghost use Rattle.types.specs.Unifying.{Agree, Binds, IsFree, IsNoUnknown, IsOpen, IsSolvable, Solves};
ghost use Rattle.types.specs.declared.unknowns.Known.TheVariants as known;
ghost use Rattle.types.specs.declared.value.TypeNode.{TypeNode as Node};

use crate::store::Types;
use crate::value::{TypeNode, TypeRef};
use std::alloc::{AllocError, Global};

// What is known of an unknown type.
#[derive(Clone, Copy)]
enum Known {
    // Nothing. It belongs to this level of bindings within bindings.
    Nothing(u64),
    // It is this type.
    Is(TypeRef),
}

/// The unknown types of a declaration, which are numbered from 0: a substitution.
#[derive(Drop)]
pub struct Unknowns {
    known: Vec<Known>,
}

impl Unknowns {
    /// No unknown type.
    pub fn new(alloc: Global) -> Unknowns
        ensures solved { (s : State Node) (v : ℕ → Tree) → Solves s result v }
        ensures solvable { (s : State Node) → IsSolvable s result }
        ensures founded { (s : State Node) → IsFounded s (known_types result) }
    {
        Unknowns {
            known: Vec::new(alloc),
        }
    }

    /// The number of a new unknown type. `AllocError` when there is no memory.
    pub fn add(&mut self, level: u64) -> Result<u64, AllocError>
        ensures number { IfOk result (λ number. number ≡ length self.old.known.items) }
        ensures nothing { IfOk result (λ number. IsOpen self.new number) }
        ensures level { IfOk result (λ number.
            slice_get self.new.known.items number ≡ Some (known.Nothing level)) }
        ensures known { (n : ℕ) (handle : Reference (ValueKind Node)) →
            slice_get self.new.known.items n ≡ Some (known.Is handle)
            ↔ slice_get self.old.known.items n ≡ Some (known.Is handle) }
        ensures founded { OnOk result ((s : State Node) →
            IsFounded s (known_types self.old) → IsFounded s (known_types self.new)) }
    {
        let number = self.known.len() as u64;
        self.known.push(Known::Nothing(level))?;
        Ok(number)
    }

    /// The level of an unknown type. None when it is known.
    pub fn level(&self, number: u64) -> Option<u64>
        ensures open { IsSome result ↔ IsOpen self.now number }
        ensures level { IfSome result (λ level.
            slice_get self.now.known.items number ≡ Some (known.Nothing level)) }
    {
        match self.known.get(number as usize)? {
            Known::Nothing(level) => Some(*level),
            Known::Is(_) => None,
        }
    }

    /// An unknown type is this type from now on.
    pub fn bind(&mut self, number: u64, handle: TypeRef)
        requires { IsOpen self.old number }
        ensures binds { (s : State Node) → Binds s self.old self.new number (ref_name handle) }
        ensures free { (n : ℕ) → IsFree self.new n → IsFree self.old n × (n ≢ number) }
        ensures known { known_types self.new
            ≡ slice_set (known_types self.old) number (Some handle) }
    {
        if let Some(known) = self.known.get_mut(number as usize) {
            *known = Known::Is(handle);
        }
    }

    /// An unknown type belongs to this level, unless it belongs to a lower one. Whether nothing is
    /// known of it: else it stays as it is.
    pub fn lower(&mut self, number: u64, to: u64) -> bool
        ensures nothing { IsTrue result ↔ IsOpen self.old number }
        ensures lowered { (level : ℕ) →
            slice_get self.old.known.items number ≡ Some (known.Nothing level) →
            slice_get self.new.known.items number ≡ Some (known.Nothing (min level to)) }
        ensures solved { (s : State Node) (v : ℕ → Tree) →
            Solves s self.new v ↔ Solves s self.old v }
        ensures open { (n : ℕ) → IsOpen self.old n → IsOpen self.new n }
        ensures free { (n : ℕ) → IsFree self.new n → IsFree self.old n }
        ensures known { known_types self.new ≡ known_types self.old }
    {
        if let Some(known) = self.known.get_mut(number as usize) {
            if let Known::Nothing(level) = *known {
                *known = Known::Nothing(level.min(to));
                return true;
            }
        }
        false
    }

    // What an unknown type is.
    fn known_as(&self, number: u64) -> Option<TypeRef>
        ensures known { IfSome result (λ handle.
            slice_get self.now.known.items number ≡ Some (known.Is handle)) }
        ensures none { IfNone result (IsFree self.now number) }
    {
        match self.known.get(number as usize)? {
            Known::Nothing(_) => None,
            Known::Is(handle) => Some(*handle),
        }
    }

    /// What a type is, as far as it is known: where it is an unknown type, it is one of which
    /// nothing is known.
    pub fn resolve(&self, types: &Types, handle: TypeRef) -> TypeRef
        ensures agrees { (v : ℕ → Tree) → Solves types.now self.now v →
            Agree types.now v (ref_name handle) (ref_name result) }
        ensures resolved { IsFounded types.now (known_types self.now) →
            IsResolved types.now (known_types self.now) (ref_name result) }
        ensures over { IsFounded types.now (known_types self.now) →
            IsOver types.now (known_types self.now) (ref_name handle) →
            IsOver types.now (known_types self.now) (ref_name result) }
    {
        let mut handle = handle;
        for _ in 0..self.known.len() {
            let Some(number) = number_of(types, handle) else {
                return handle;
            };
            let Some(next) = self.known_as(number) else {
                return handle;
            };
            handle = next;
        }
        handle
    }
}

/// The number of an unknown type. None where it is no unknown type.
pub fn number_of(types: &Types, handle: TypeRef) -> Option<u64>
    ensures number { IfSome result (λ number.
        shape_at types.now (ref_name handle) ≡ Some (unknown_shape number)) }
    ensures none { IfNone result (IsNoUnknown types.now (ref_name handle)) }
{
    match types.get(handle)? {
        TypeNode::Unknown(number) => Some(number),
        _ => None,
    }
}
