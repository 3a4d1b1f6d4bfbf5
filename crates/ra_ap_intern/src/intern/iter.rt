//! The entries of a storage of values, one after the other.
ghost use Rattle.std.specs.Iterator.{YieldsFirstBy, item_count};
ghost use Rattle.ra_ap_intern.specs.Handle.{ref_name};

use super::InternedRef;
use crate::storage::Ref;
use intern_store::EntryKey;
use intern_table::Iter as TableIter;
use std::marker::Model;

/// The entries of a storage, each with a reference to it. It is seen as the list of those that are
/// left.
#[derive(Drop)]
pub struct Iter<'a, T> {
    pub(super) number: u64,
    pub(super) entries: TableIter<'a, T, u64>,
}

impl<'a, T> Model for Iter<'a, T> {
    ghost use Rattle.std.specs.Prelude.{ℕ, List, map};
    ghost use Rattle.intern_store.specs.declared.names.Name.{Name};

    ghost Value = { List (Name × T) };

    ghost use Rattle.ra_ap_intern.specs.Handle.{with_name};

    ghost view = { λ it. map (with_name it.number) it.entries };
}

impl<'a, T> Iterator for Iter<'a, T> {
    type Item = (InternedRef<T>, &'a T);

    ghost next_gives = { YieldsFirstBy (λ e. (ref_name e.0, e.1.now)) (λ rest. rest) };

    ghost remaining = { item_count (λ rest. rest) };

    fn next(&mut self) -> Option<(InternedRef<T>, &'a T)> {
        let (spot, value, _) = self.entries.next()?;
        let storage = self.number;
        Some((Ref::new(EntryKey { storage, spot }), value))
    }
}
