//! What is looked up among the entries that may have a hash, and how entries are hashed.
ghost use Rattle.std.specs.Prelude.{◌≡◌, ℕ, Bool};
ghost use Rattle.intern_index.specs.Entries.{passes_at};

use crate::entry::Entry;
use intern_buckets::Test;
use slab::Slab;

/// A test of values with their payloads.
pub trait Query<T, N: Copy> {
    // Whether a value with its payload is what is looked up.
    ghost fits: { Self → T → N → Bool };

    /// Whether a value with its payload is what is looked up.
    fn fits(&self, value: &T, payload: N) -> bool
        ensures { result ≡ fits self.now value.now payload };
}

/// How values with their payloads are hashed.
pub trait Hashes<T, N: Copy> {
    // The hash of a value with its payload.
    ghost hash_of: { Self → T → N → ℕ };

    /// The hash of a value with its payload.
    fn hash_of(&self, value: &T, payload: N) -> u64
        ensures { result ≡ hash_of self.now value.now payload };
}

/// The places of the entries that fit a query.
#[derive_where(Clone, Copy)]
pub(crate) struct Fitting<'a, T, N: Copy, Q> {
    pub(crate) slots: &'a Slab<Entry<T, N>>,
    pub(crate) query: &'a Q,
}

impl<T, N: Copy, Q: Query<T, N>> Test for Fitting<'_, T, N, Q> {
    ghost passes = { λ t p. passes_at
        (λ e. Q.fits t.query.now e.value e.payload) t.slots.now p };

    fn passes(&self, place: usize) -> bool {
        match self.slots.get(place) {
            Some(entry) => self.query.fits(&entry.value, entry.payload),
            None => false,
        }
    }
}
