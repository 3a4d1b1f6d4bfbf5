//! How the place of a birth is found.
ghost use Rattle.std.specs.Prelude.{◌≡◌, ◌≢◌, ℕ, ◌+◌, ◌<◌, ◌≤◌, ◌^◌};
ghost use Rattle.std.specs.Prelude.{Some, None, Option, IfSome, IfNone, OnOk, IsOk};
ghost use Rattle.slab.specs.Slab.{HasRoomFor, slab_len};
ghost use Rattle.intern_index.specs.Entries.{birth_at, AreTold};

use crate::entry::Entry;
use slab::Slab;
use std::alloc::{AllocError, Global};

/// Finds the places of births, each of which is entered with its place.
pub trait Births: Sized {
    // Whether it finds each of these births, by their places.
    ghost IsFor: { Self → (ℕ → Option ℕ) → Type 0 };

    // Whether a birth can be entered with a place.
    ghost HasRoom: { Self → ℕ → ℕ → Type 0 };

    // How many more births can be entered with no request for memory, once there are so many
    // entries.
    ghost free: { Self → ℕ → ℕ };

    /// One that knows no birth. It takes no memory.
    fn new(alloc: Global) -> Self
        ensures { (at : ℕ → Option ℕ) → ((p : ℕ) → at p ≡ None) → IsFor result at };

    /// The place of a birth.
    fn find<T, N: Copy>(&self, slots: &Slab<Entry<T, N>>, birth: u64) -> Option<usize>
        requires known { IsFor self.now (birth_at slots.now) }
        requires told { AreTold slots.now }
        ensures found { IfSome result (λ p. birth_at slots.now p ≡ Some birth) }
        ensures absent { IfNone result ((p : ℕ) → birth_at slots.now p ≢ Some birth) };

    /// Makes room for a birth at a place.
    fn make_room<T, N: Copy>(
        &mut self,
        alloc: Global,
        slots: &Slab<Entry<T, N>>,
        birth: u64,
        place: usize,
    ) -> Result<(), AllocError>
        requires known { IsFor self.old (birth_at slots.now) }
        requires told { AreTold slots.now }
        ensures finds { IsFor self.new (birth_at slots.now) }
        ensures room { OnOk result (HasRoom self.new birth place) }
        ensures free { free self.old (slab_len slots.now) ≤ free self.new (slab_len slots.now) }
        ensures succeeds { 0 < free self.old (slab_len slots.now) → IsOk result };

    /// Makes room for this many more births, for which the slab has it.
    fn reserve<T, N: Copy>(
        &mut self,
        alloc: Global,
        slots: &Slab<Entry<T, N>>,
        additional: usize,
    ) -> Result<(), AllocError>
        requires known { IsFor self.old (birth_at slots.now) }
        requires told { AreTold slots.now }
        requires room { HasRoomFor slots.now additional }
        ensures finds { IsFor self.new (birth_at slots.now) }
        ensures free { OnOk result (additional ≤ free self.new (slab_len slots.now)) };

    /// The bytes that it holds.
    fn memory(&self) -> usize;

    /// Enters a birth above all others.
    fn enter(&mut self, birth: u64, place: usize)
        requires room { HasRoom self.old birth place }
        requires small { place + 1 < 2 ^ 48 }
        ensures entered { (old new : ℕ → Option ℕ) → IsFor self.old old
            → old place ≡ None → ((p b : ℕ) → old p ≡ Some b → b < birth)
            → new place ≡ Some birth → ((p : ℕ) → p ≢ place → new p ≡ old p)
            → IsFor self.new new }
        ensures free { (n : ℕ) → free self.old n ≤ free self.new (n + 1) + 1 };

    /// Forgets the births that are gone. It takes no memory.
    fn forget<T, N: Copy>(&mut self, slots: &Slab<Entry<T, N>>)
        ensures { (old : ℕ → Option ℕ) → IsFor self.old old
            → ((p b : ℕ) → birth_at slots.now p ≡ Some b → old p ≡ Some b)
            → IsFor self.new (birth_at slots.now) };
}
