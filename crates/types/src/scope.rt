//! The names that are bound within a declaration.
use crate::value::TypeRef;
use ra_ap_intern::SymbolRef;
use std::alloc::{AllocError, Global};
use std::collections::HashMap;

/// The names that are bound, and the type of each.
#[derive(Drop)]
pub struct Scope {
    types: HashMap<SymbolRef, TypeRef>,
    // Each name that is bound, the innermost last, with what it stood for outside.
    bound: Vec<(SymbolRef, Option<TypeRef>)>,
}

impl Scope {
    /// A scope with nothing bound.
    pub fn new(alloc: Global) -> Scope {
        Scope {
            types: HashMap::new(alloc),
            bound: Vec::new(alloc),
        }
    }

    /// Binds a name. `AllocError` when there is no memory.
    pub fn enter(&mut self, name: SymbolRef, handle: TypeRef) -> Result<(), AllocError> {
        let outside = self.types.insert(name, handle)?;
        Ok(self.bound.push((name, outside))?)
    }

    /// Ends the scope of the name that was bound last.
    pub fn leave(&mut self) -> Result<(), AllocError> {
        match self.bound.pop() {
            Some((name, Some(outside))) => self.types.insert(name, outside)?,
            Some((name, None)) => self.types.remove(&name),
            None => None,
        };
        Ok(())
    }

    /// What a name stands for. None when it isn't bound.
    pub fn look_up(&self, name: SymbolRef) -> Option<TypeRef> {
        self.types.get(&name).copied()
    }
}
