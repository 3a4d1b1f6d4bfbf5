//! Types, and what names them.
ghost use Rattle.std.specs.Prelude.{true};

use ra_ap_intern::{GarbageCollector, GcInternedVisit, Internable, InternedRef};

/// A type, over its parts.
#[derive(Clone, Copy, PartialEq, Eq, Hash)]
pub enum TypeNode {
    Integer,
    Boolean,
    /// A type that isn't known yet, by its number in the declaration that is inferred.
    Unknown(u64),
    /// Any type: a variable of a type scheme, numbered as they occur first.
    Any(u64),
    /// The functions from a type to another.
    Function(TypeRef, TypeRef),
    /// The pairs of two types.
    Pair(TypeRef, TypeRef),
}

/// A handle of a type.
pub type TypeRef = InternedRef<TypeNode>;

impl Internable for TypeNode {
    const USE_GC: bool = true;

    ghost USE_GC = { true };
}

impl GcInternedVisit for TypeNode {
    ghost use Rattle.types.specs.Types.{declared_by};

    ghost children = { declared_by };

    fn visit_with(&self, gc: &mut GarbageCollector) {
        if let TypeNode::Function(first, second) | TypeNode::Pair(first, second) = self {
            let _ = gc.mark_interned_alive(*first);
            let _ = gc.mark_interned_alive(*second);
        }
    }
}
