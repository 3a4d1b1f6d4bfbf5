//! What the loops ask of a storage.
use crate::numbers::Generator;
use ra_ap_intern::Refusal;
use std::alloc::{AllocError, Global};

/// What stores each equal input once.
pub(crate) trait Storage: Sized + Drop {
    /// What is interned.
    type Input: Drop;

    /// What names an entry.
    type Handle: Drop;

    /// An empty storage.
    fn make(alloc: Global) -> Self;

    /// The input at a place, of the generator's next numbers. Those at different places differ.
    fn input(
        alloc: Global,
        place: usize,
        generator: &mut Generator,
    ) -> Result<Self::Input, AllocError>;

    /// How many entries there are.
    fn entries(&self) -> usize;

    /// Stores an input if it isn't, and names its entry.
    fn intern(&mut self, input: &Self::Input) -> Result<Self::Handle, Refusal>;

    /// What the entry of a handle adds to the sum of all that is read.
    fn read(&self, handle: &Self::Handle) -> Result<u64, Refusal>;

    /// Counts an entry once less, and removes it with the last count. A handle that counts nothing
    /// does nothing.
    fn release(&mut self, handle: Self::Handle) -> Result<(), Refusal>;
}
