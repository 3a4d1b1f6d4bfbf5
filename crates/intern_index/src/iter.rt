//! The entries of an index, one after the other.
ghost use Rattle.std.specs.Iterator.{YieldsFirstBy, item_count};

use crate::entry::Entry;
use intern_store::Spot;
use std::marker::Model;

/// The entries of an index in the order of their places, seen as the list of those that are left.
#[derive(Drop)]
pub struct Iter<'a, T, N: Copy> {
    pub(crate) slots: slab::Iter<'a, Entry<T, N>>,
}

impl<'a, T, N: Copy> Model for Iter<'a, T, N> {
    ghost use Rattle.std.specs.Prelude.{ℕ, List, map};
    ghost use Rattle.intern_index.specs.Listed.{listed_at};

    ghost Value = { List (ℕ × (T × N)) };

    ghost view = { λ it. map listed_at it.slots };
}

impl<'a, T, N: Copy> Iterator for Iter<'a, T, N> {
    type Item = (Spot, &'a T, N);

    ghost next_gives = { YieldsFirstBy (λ e. (e.0.birth, (e.1.now, e.2))) (λ rest. rest) };

    ghost remaining = { item_count (λ rest. rest) };

    fn next(&mut self) -> Option<(Spot, &'a T, N)> {
        let (place, entry) = self.slots.next()?;
        let spot = Spot {
            birth: entry.birth.get(),
            place,
        };
        Some((spot, &entry.value, entry.payload))
    }
}
