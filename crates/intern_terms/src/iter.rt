//! The terms of a store, one after the other.
ghost use Rattle.std.specs.Iterator.{YieldsFirstBy, item_count};
ghost use Rattle.intern_terms.specs.Handle.{term_name};

use crate::handle::{TermRef, Terms};
use ra_ap_intern::SliceIter;
use std::marker::Model;

/// The terms of a store. It is seen as the list of the names of those that are left.
#[derive(Drop)]
pub struct TermIter<'a> {
    pub(crate) entries: SliceIter<'a, Terms>,
}

impl<'a> Model for TermIter<'a> {
    ghost use Rattle.std.specs.Prelude.{List, map};
    ghost use Rattle.ra_ap_intern.specs.Name.{Name};

    ghost Value = { List Name };

    ghost view = { λ it. map (λ e. e.0) it.entries };
}

impl<'a> Iterator for TermIter<'a> {
    type Item = TermRef;

    ghost next_gives = { YieldsFirstBy term_name (λ rest. rest) };

    ghost remaining = { item_count (λ rest. rest) };

    fn next(&mut self) -> Option<TermRef> {
        let (reference, _) = self.entries.next()?;
        Some(TermRef { reference })
    }
}
