//! The search for a place along a probe sequence.
ghost use Rattle.std.specs.Prelude.{◌≡◌, ℕ, ◌+◌, ◌<◌, ◌^◌, Bool, true, false, IfSome, IfNone};
ghost use Rattle.intern_buckets.specs.Leading.{leads};
ghost use Rattle.intern_buckets.specs.Probing.{bucket as bucket_of};

use crate::buckets::{Bucket, Buckets};

/// A test of what lies at places.
pub trait Test {
    // Whether the entry at a place passes.
    ghost passes: { Self → ℕ → Bool };

    /// Whether there is an entry at a place, and it passes.
    fn passes(&self, place: usize) -> bool
        ensures { result ≡ passes self.now place };
}

// The place of a bucket, where it passes a test.
fn place_of<Q: Test>(bucket: Bucket, hash: u64, test: &Q) -> Option<usize>
    ensures found { IfSome result (λ p. Q.passes test.now p ≡ true) }
    ensures led { IfSome result (λ p. bucket ≡ bucket_of hash p) }
    ensures none { IfNone result ((p : ℕ) → p + 1 < 2 ^ 48
        → bucket ≡ bucket_of hash p → Q.passes test.now p ≡ false) }
{
    let place = bucket.place(hash)?;
    if test.passes(place) {
        Some(place)
    } else {
        None
    }
}

/// A place that passes a test, among those that a hash's probe sequence leads to. It takes no
/// memory.
pub fn search<Q: Test>(table: &Buckets, hash: u64, test: &Q) -> Option<usize>
    ensures found { IfSome result (λ p. Q.passes test.now p ≡ true) }
    ensures led { IfSome result (λ p. leads table.now hash p ≡ true) }
    ensures none { IfNone result ((p : ℕ) → p + 1 < 2 ^ 48
        → leads table.now hash p ≡ true → Q.passes test.now p ≡ false) }
{
    for bucket in table.probe(hash) {
        if bucket.is_empty() {
            return None;
        }
        if let Some(place) = place_of(*bucket, hash, test) {
            return Some(place);
        }
    }
    None
}
