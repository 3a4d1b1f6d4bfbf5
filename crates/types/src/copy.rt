//! Copies of types with other leaves, each part copied once. One without variables is its own copy.
ghost use Rattle.ra_ap_intern.specs.Interning.{ReadsOn};

use crate::error::{Result, TypeError};
use crate::store::Types;
use crate::unify::parts_of;
use crate::unknowns::Unknowns;
use crate::value::{TypeNode, TypeRef};
use std::collections::HashMap;

/// How many steps the copy of a type may take.
const MOST_STEPS: u64 = 10_000_000;

/// What becomes of the leaves.
#[derive(Clone, Copy)]
pub enum Leaves {
    /// Each unknown type above this level becomes any type, numbered as they occur first; one that
    /// is known becomes what it is.
    Generalised { above: u64 },
    /// Each type that is any type becomes a new unknown one of this level.
    Instantiated { level: u64 },
}

// The copies that were made, and the types that are yet to be copied, the next last.
#[derive(Drop)]
struct Copies {
    leaves: Leaves,
    made: HashMap<TypeRef, TypeRef>,
    open: Vec<TypeRef>,
    // How many variables the copy has.
    variables: u64,
}

/// The copy of a type.
pub fn copy(
    types: &mut Types,
    unknowns: &mut Unknowns,
    root: TypeRef,
    leaves: Leaves,
) -> Result<TypeRef>
    ensures { ReadsOn types.old types.new }
{
    let mut copies = Copies {
        leaves,
        made: HashMap::new(types.allocator()),
        open: Vec::new(types.allocator()),
        variables: 0,
    };
    let root = copies.source(types, unknowns, root);
    copies.open.push(root)?;
    for _ in 0..MOST_STEPS {
        let Some(next) = copies.open.pop() else {
            return copies.copy_of(root).ok_or(TypeError::NoOperand);
        };
        copies.visit(types, unknowns, next)?;
    }
    Err(TypeError::TooLarge)
}

impl Copies {
    fn copy_of(&self, handle: TypeRef) -> Option<TypeRef> {
        self.made.get(&handle).copied()
    }

    // What is copied where a type is met.
    fn source(&self, types: &Types, unknowns: &Unknowns, handle: TypeRef) -> TypeRef {
        match self.leaves {
            Leaves::Generalised { .. } => unknowns.resolve(types, handle),
            Leaves::Instantiated { .. } => handle,
        }
    }

    // Copies a type, or leaves it open behind the parts that aren't copied yet.
    fn visit(&mut self, types: &mut Types, unknowns: &mut Unknowns, handle: TypeRef) -> Result<()>
        ensures { ReadsOn types.old types.new }
    {
        if self.made.contains_key(&handle) {
            return Ok(());
        }
        let Some((is_function, first, second)) = parts_of(types, handle) else {
            let copy = self.leaf(types, unknowns, handle)?;
            self.made.insert(handle, copy)?;
            return Ok(());
        };
        let first = self.source(types, unknowns, first);
        let second = self.source(types, unknowns, second);
        let (Some(a), Some(b)) = (self.copy_of(first), self.copy_of(second)) else {
            if types.is_closed(handle) {
                self.made.insert(handle, handle)?;
                return Ok(());
            }
            return Ok(self.open.extend_from_slice(&[handle, second, first])?);
        };
        let copy = types.make(if is_function {
            TypeNode::Function(a, b)
        } else {
            TypeNode::Pair(a, b)
        })?;
        self.made.insert(handle, copy)?;
        Ok(())
    }

    // What becomes of a leaf.
    fn leaf(&mut self, types: &mut Types, unknowns: &mut Unknowns, leaf: TypeRef) -> Result<TypeRef>
        ensures { ReadsOn types.old types.new }
    {
        let node = types.get(leaf).ok_or(TypeError::NoOperand)?;
        match (self.leaves, node) {
            (Leaves::Generalised { above }, TypeNode::Unknown(number)) => {
                if unknowns.level(number).is_none_or(|level| level <= above) {
                    return Ok(leaf);
                }
                let variable = self.variables;
                self.variables = variable.saturating_add(1);
                Ok(types.make(TypeNode::Any(variable))?)
            }
            (Leaves::Instantiated { level }, TypeNode::Any(_)) => {
                let number = unknowns.add(level)?;
                Ok(types.make(TypeNode::Unknown(number))?)
            }
            // Made again, since a collection forgets that it has no variables.
            _ => Ok(types.make(node)?),
        }
    }
}
