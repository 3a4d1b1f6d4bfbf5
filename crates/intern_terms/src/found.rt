//! What a walk has found.
ghost use Rattle.std.specs.Prelude.{◌≡◌, [], map as list_map, IfOk, OnOk};
ghost use Rattle.ra_ap_intern.specs.Names.{has};
ghost use Rattle.intern_terms.specs.Handle.{term_name};
ghost use Rattle.intern_terms.specs.Walk.{with_name};

use crate::handle::TermRef;
use indexmap::IndexSet;
use std::alloc::{AllocError, Global};
use std::marker::Model;

// The terms that a walk has found, each once. It is seen as the list of their names, in the order
// in which they were found.
#[derive(Drop)]
pub(crate) struct Found {
    alloc: Global,
    terms: IndexSet<TermRef>,
}

impl Model for Found {
    ghost use Rattle.std.specs.Prelude.{List, map};
    ghost use Rattle.ra_ap_intern.specs.Name.{Name};
    ghost use Rattle.intern_terms.specs.Handle.{term_name};

    ghost Value = { List Name };

    ghost view = { λ f. map term_name f.terms.keys };
}

impl Found {
    // Nothing is found yet.
    pub(crate) fn new(alloc: Global) -> Found
        ensures { result ≡ [] }
    {
        Found {
            alloc,
            terms: IndexSet::new(alloc),
        }
    }

    // Whether a term was found.
    pub(crate) fn contains(&self, term: TermRef) -> bool
        ensures { result ≡ has self.now (term_name term) }
    {
        self.terms.contains(&term)
    }

    // Adds a term behind the others, unless it was found before.
    pub(crate) fn push(&mut self, term: TermRef) -> Result<(), AllocError>
        ensures { OnOk result (self.new ≡ with_name self.old (term_name term)) }
    {
        self.terms.insert(term)?;
        Ok(())
    }

    // The terms in a vector.
    pub(crate) fn to_vec(&self) -> Result<Vec<TermRef>, AllocError>
        ensures { IfOk result (λ terms. list_map term_name terms.items ≡ self.now) }
    {
        Vec::from_slice(self.alloc, self.terms.as_slice())
    }
}
