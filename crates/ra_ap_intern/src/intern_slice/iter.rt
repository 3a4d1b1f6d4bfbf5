//! The entries of a storage of slices, one after the other.
ghost use Rattle.std.specs.Iterator.{YieldsFirstBy, item_count};
ghost use Rattle.intern_table.specs.Read.{read};
ghost use Rattle.ra_ap_intern.specs.Handle.{ref_name};

use super::{InternedSliceRef, SliceInternable};
use crate::storage::Ref;
use intern_store::EntryKey;
use intern_table::{Far, HeaderSlice, Layout, SliceIter as TableIter};
use std::marker::Model;

/// The entries of a storage of slices, each with a reference to it. It is seen as the list of those
/// that are left.
#[derive(Drop)]
pub struct SliceIter<'a, T: SliceInternable, L: Layout<T::SliceType> = Far> {
    pub(super) number: u64,
    pub(super) entries: TableIter<'a, T::Header, T::SliceType, L::Near>,
}

impl<'a, T: SliceInternable, L: Layout<T::SliceType>> Model for SliceIter<'a, T, L> {
    ghost use Rattle.std.specs.Prelude.{ℕ, List, map};
    ghost use Rattle.intern_store.specs.declared.names.Name.{Name};
    ghost use Rattle.intern_table.specs.Sliced.{Sliced};

    ghost Value = { List (Name × (Sliced T.Header T.SliceType × ℕ)) };

    ghost use Rattle.ra_ap_intern.specs.Slices.{slice_with_name};

    ghost view = { λ it. map (slice_with_name it.number) it.entries };
}

impl<'a, T: SliceInternable, L: Layout<T::SliceType>> Iterator for SliceIter<'a, T, L> {
    type Item = (
        InternedSliceRef<T, L>,
        HeaderSlice<'a, T::Header, T::SliceType>,
    );

    ghost next_gives = { YieldsFirstBy (λ e. (ref_name e.0, read e.1)) (λ rest. rest) };

    ghost remaining = { item_count (λ rest. rest) };

    fn next(
        &mut self,
    ) -> Option<
        (
            InternedSliceRef<T, L>,
            HeaderSlice<'a, T::Header, T::SliceType>,
        ),
    > {
        let (spot, slice) = self.entries.next()?;
        let storage = self.number;
        Some((Ref::new(EntryKey { storage, spot }), slice))
    }
}
