//! The workload `val`: counted values of 64 bits.
ghost use Rattle.std.specs.Prelude.{false};

use crate::numbers::Generator;
use crate::storage::Storage;
use ra_ap_intern::{InternStorage, Internable, Interned, Refusal};
use std::alloc::{AllocError, Global};

/// A value that is stored.
#[derive(Clone, Copy, PartialEq, Eq, Hash)]
pub(crate) struct Number(u64);

impl Internable for Number {
    const USE_GC: bool = false;

    ghost USE_GC = { false };
}

impl Storage for InternStorage<Number> {
    type Input = Number;

    type Handle = Interned<Number>;

    fn make(alloc: Global) -> InternStorage<Number> {
        InternStorage::new(alloc, 0)
    }

    fn input(
        _alloc: Global,
        _place: usize,
        generator: &mut Generator,
    ) -> Result<Number, AllocError> {
        Ok(Number(generator.draw()))
    }

    fn entries(&self) -> usize {
        self.len()
    }

    fn intern(&mut self, input: &Number) -> Result<Interned<Number>, Refusal> {
        match Interned::new(self, *input) {
            Ok((handle, _)) => Ok(handle),
            Err(refused) => Err(refused.why),
        }
    }

    fn read(&self, handle: &Interned<Number>) -> Result<u64, Refusal> {
        match handle.get(self) {
            Some(Number(value)) => Ok(*value),
            None => Err(Refusal::Gone),
        }
    }

    fn release(&mut self, handle: Interned<Number>) -> Result<(), Refusal> {
        match handle.release(self) {
            Ok(_) => Ok(()),
            Err(refused) => Err(refused.why),
        }
    }
}
