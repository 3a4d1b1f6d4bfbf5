//! What a caller offers to a table, and how values are hashed.
ghost use Rattle.std.specs.Prelude.{◌≡◌};
ghost use Rattle.intern_table.specs.Hashes.{hash_of};
ghost use Rattle.intern_table.specs.Sliced.{sliced_input};

use intern_index::{Hashes, Offer};
use std::cmp::Eq;
use std::hash::{BuildHasher, BuildHasherDefault, FoldHasher, Hash, Hasher};

/// The hasher of tables that are given none. Its seed is fixed: where values come from whom one
/// doesn't trust, take a `RandomState`.
pub type FixedState = BuildHasherDefault<FoldHasher>;

/// The hash of a value.
#[tactic(auto, unfolding(crate::specs::Hashes::hash_of))]
pub(crate) fn hash_value<T: Hash, B: BuildHasher>(hasher: &B, value: &T) -> u64
    ensures { result ≡ hash_of B.BuildHasher B.Hasher.Hasher hasher.now (T.hash_input value.now) }
{
    hasher.hash_one(value)
}

/// The hash of a header with its items. These come last, so no length has to tell where they end.
#[tactic(auto, unfolding(crate::specs::Hashes::hash_of))]
pub(crate) fn hash_slice<H: Hash, S: Hash, B: BuildHasher>(
    hasher: &B,
    header: &H,
    items: &[S],
) -> u64
    ensures { result ≡ hash_of B.BuildHasher B.Hasher.Hasher hasher.now
        (sliced_input H.hash_input S.hash_input
        (record { header = header.now; items = items.now })) }
{
    let mut state = hasher.build_hasher();
    header.hash(&mut state);
    S::hash_slice(items, &mut state);
    state.finish()
}

/// How stored values are hashed.
#[derive_where(Clone, Copy)]
pub(crate) struct ValueHash<'a, B> {
    pub(crate) hasher: &'a B,
}

impl<T: Hash, N: Copy, B: BuildHasher> Hashes<T, N> for ValueHash<'_, B> {
    ghost hash_of = { λ h v _.
        hash_of B.BuildHasher B.Hasher.Hasher h.hasher.now (T.hash_input v) };

    fn hash_of(&self, value: &T, _payload: N) -> u64 {
        hash_value(self.hasher, value)
    }
}

/// An offer that is compared and hashed as the value that it names. That takes no memory.
pub trait Offered<T: Hash>: Offer<T> {
    /// Whether a stored value equals the one named.
    fn equals(&self, stored: &T) -> bool
        ensures { result ≡ T.eq (Self.value self.now) stored.now };

    /// The hash of the value that is named.
    fn hashed<B: BuildHasher>(&self, hasher: &B) -> u64
        ensures { result ≡ hash_of B.BuildHasher B.Hasher.Hasher hasher.now
            (T.hash_input (Self.value self.now)) };
}

// A value names itself.
impl<T: Hash + Eq> Offered<T> for T {
    fn equals(&self, stored: &T) -> bool {
        *self == *stored
    }

    fn hashed<B: BuildHasher>(&self, hasher: &B) -> u64 {
        hash_value(hasher, self)
    }
}
