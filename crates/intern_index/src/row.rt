//! Births in row with their places.
ghost use Rattle.std.specs.Prelude.{◌≡◌, ◌≢◌, ℕ, ◌+◌, ◌==◌, Some, IfSome, IfNone};
ghost use Rattle.intern_index.specs.Entries.{birth_at};
ghost use Rattle.intern_index.specs.Row.{row_key};

use crate::entry::Entry;
use crate::table::Key;
use intern_buckets::mix;
use slab::Slab;

/// A row of births: each is its place and the shift. The place of such a birth is reckoned, and
/// then looked at, so that no table needs it.
#[derive(Clone, Copy)]
pub(crate) struct Row {
    pub(crate) shift: u64,
}

impl Row {
    /// Whether a birth at a place is in row.
    pub(crate) fn has(self, birth: u64, place: usize) -> bool
        ensures { result ≡ (place + self.shift == birth) }
    {
        birth >= self.shift && birth - self.shift == place as u64
    }

    /// The place of a birth that is in row.
    pub(crate) fn find<T, N: Copy>(self, slots: &Slab<Entry<T, N>>, birth: u64) -> Option<usize>
        ensures found { IfSome result (λ p. birth_at slots.now p ≡ Some birth) }
        ensures absent { IfNone result ((p : ℕ) →
            p + self.shift ≡ birth → birth_at slots.now p ≢ Some birth) }
    {
        let place = birth.checked_sub(self.shift)? as usize;
        match slots.get(place) {
            Some(entry) if entry.birth.get() == birth => Some(place),
            _ => None,
        }
    }
}

// Entries that aren't in row are entered under their births.
impl<T, N: Copy> Key<T, N> for Row {
    ghost key = { λ r p e. row_key r.shift p e.birth };

    fn key(&self, place: usize, entry: &Entry<T, N>) -> Option<u64> {
        if self.has(entry.birth.get(), place) {
            return None;
        }
        Some(mix(entry.birth.get()))
    }
}
