//! The entries of a table of slices, one after the other.
ghost use Rattle.std.specs.Iterator.{YieldsFirstBy, item_count};
ghost use Rattle.intern_table.specs.Read.{read};

use crate::layout::{NearItems, SliceRow};
use crate::pool::SlicePayload;
use crate::slice::HeaderSlice;
use intern_index::Iter;
use intern_store::Spot;
use std::marker::Model;

/// The entries of a table of slices, in no promised order, seen as the list of those that are left.
#[derive(Drop)]
pub struct SliceIter<'a, H, S, A: NearItems<S>> {
    pub(crate) rows: Iter<'a, SliceRow<H, A>, SlicePayload>,
    // The items in the vector.
    pub(crate) items: &'a [S],
}

impl<'a, H, S, A: NearItems<S>> Model for SliceIter<'a, H, S, A> {
    ghost use Rattle.std.specs.Prelude.{ℕ, List, map};
    ghost use Rattle.intern_table.specs.Listed.{slice_among};
    ghost use Rattle.intern_table.specs.Sliced.{Sliced};

    ghost Value = { List (ℕ × (Sliced H S × ℕ)) };

    ghost view = { λ it. map (slice_among A.near_of it.items.now) it.rows };
}

impl<'a, H, S, A: NearItems<S>> Iterator for SliceIter<'a, H, S, A> {
    type Item = (Spot, HeaderSlice<'a, H, S>);

    ghost next_gives = { YieldsFirstBy (λ e. (e.0.birth, read e.1)) (λ rest. rest) };

    ghost remaining = { item_count (λ rest. rest) };

    fn next(&mut self) -> Option<(Spot, HeaderSlice<'a, H, S>)> {
        match self.rows.next() {
            Some((spot, row, payload)) => Some((spot, row.read(payload, self.items))),
            None => None,
        }
    }
}
