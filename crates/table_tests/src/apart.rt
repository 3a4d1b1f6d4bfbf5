//! What finds births in an index, with its bytes told apart.
use intern_index::{Births, Entry};
use slab::Slab;
use std::alloc::{AllocError, Global};

/// By how much bytes are multiplied that are told apart.
pub(crate) const APART: usize = 1 << 32;

/// Finds births as another does, and tells its bytes in the upper half of a word: an index tells
/// the sum, in whose lower half are the bytes of its slots and of its table of hashes.
#[derive(Drop)]
pub(crate) struct Apart<B>(B);

impl<B: Births> Births for Apart<B> {
    ghost IsFor = { λ a at. B.IsFor a.0 at };

    ghost HasRoom = { λ a b p. B.HasRoom a.0 b p };

    ghost free = { λ a n. B.free a.0 n };

    fn new(alloc: Global) -> Apart<B> {
        Apart(B::new(alloc))
    }

    fn find<T, N: Copy>(&self, slots: &Slab<Entry<T, N>>, birth: u64) -> Option<usize> {
        self.0.find(slots, birth)
    }

    fn make_room<T, N: Copy>(
        &mut self,
        alloc: Global,
        slots: &Slab<Entry<T, N>>,
        birth: u64,
        place: usize,
    ) -> Result<(), AllocError> {
        self.0.make_room(alloc, slots, birth, place)
    }

    fn reserve<T, N: Copy>(
        &mut self,
        alloc: Global,
        slots: &Slab<Entry<T, N>>,
        additional: usize,
    ) -> Result<(), AllocError> {
        self.0.reserve(alloc, slots, additional)
    }

    fn memory(&self) -> usize {
        self.0.memory().saturating_mul(APART)
    }

    fn enter(&mut self, birth: u64, place: usize) {
        self.0.enter(birth, place)
    }

    fn forget<T, N: Copy>(&mut self, slots: &Slab<Entry<T, N>>) {
        self.0.forget(slots)
    }
}
