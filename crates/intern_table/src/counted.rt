//! The counts of a table's entries, one after the other.
ghost use Rattle.std.specs.Prelude.{◌≡◌, ℕ};
ghost use Rattle.std.specs.Iterator.{YieldsFirstBy, item_count};
ghost use Rattle.intern_table.specs.Listed.{slice_count};

use crate::pool::SlicePayload;
use intern_index::Iter;
use intern_store::Spot;
use std::marker::Model;

/// Payloads that have a count.
pub trait Counted: Copy {
    // The count.
    ghost count_of: { Self → ℕ };

    /// The count.
    fn count(self) -> u64
        ensures { result ≡ count_of self };
}

impl Counted for u64 {
    ghost count_of = { λ n. n };

    fn count(self) -> u64 {
        self
    }
}

impl Counted for SlicePayload {
    ghost count_of = { slice_count };

    fn count(self) -> u64 {
        self.count.get()
    }
}

/// The entries of a table, each with its count, in no promised order. Seen as the list of those
/// that are left.
#[derive(Drop)]
pub struct Counts<'a, T, N: Counted> {
    pub(crate) entries: Iter<'a, T, N>,
}

impl<'a, T, N: Counted> Model for Counts<'a, T, N> {
    ghost use Rattle.std.specs.Prelude.{ℕ, List, map};

    ghost Value = { List (ℕ × ℕ) };

    ghost view = { λ it. map (λ e. (e.0, N.count_of e.1.1)) it.entries };
}

impl<'a, T, N: Counted> Iterator for Counts<'a, T, N> {
    type Item = (Spot, u64);

    ghost next_gives = { YieldsFirstBy (λ e. (e.0.birth, e.1)) (λ rest. rest) };

    ghost remaining = { item_count (λ rest. rest) };

    fn next(&mut self) -> Option<(Spot, u64)> {
        let (spot, _, payload) = self.entries.next()?;
        Some((spot, payload.count()))
    }
}
