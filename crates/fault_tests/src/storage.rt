//! What is asked of a storage.
use crate::fault::Fault;
use std::alloc::{AllocError, Global};

/// A storage with the call that stores an input in it.
pub(crate) trait Storage: Sized + Drop {
    /// What is stored.
    type Input: Drop;

    /// The copy of an input that the call consumes.
    type Offer: Drop;

    /// What names an entry.
    type Reference: Copy;

    /// The call's name.
    fn call(&self) -> &'static str;

    /// The input of a number. No two are equal.
    fn input(&self, alloc: Global, number: u64) -> Result<Self::Input, AllocError>;

    /// A copy of an input.
    fn offer(&self, alloc: Global, input: &Self::Input) -> Result<Self::Offer, AllocError>;

    /// Makes the call for an input that isn't stored.
    fn store(&mut self, offer: Self::Offer, input: &Self::Input) -> Result<Self::Reference, Fault>;

    /// How many entries there are, and how many a walk gives.
    fn lengths(&self) -> (usize, usize);

    /// Whether the input is found, the reference names its entry and reads it, and the count is as
    /// after `store`. The birth is the number, where births can be seen.
    fn shows(&self, reference: Self::Reference, input: &Self::Input, number: u64) -> bool;

    /// Whether an entry stays when its last count goes.
    fn keeps(&self) -> bool;

    /// Gives up the last count of an entry, which goes with it.
    fn free(&mut self, reference: Self::Reference, input: &Self::Input) -> Result<(), Fault>;

    /// Makes the calls that take no memory, `store` of what is stored among them. Afterwards the
    /// storage is as it was.
    fn pass(
        &mut self,
        reference: Self::Reference,
        offer: Self::Offer,
        input: &Self::Input,
    ) -> Result<(), Fault>;
}

/// The input of a number, at the second try where the first is refused.
pub(crate) fn input_of<S: Storage>(
    storage: &S,
    alloc: Global,
    number: u64,
) -> Result<S::Input, AllocError> {
    match storage.input(alloc, number) {
        Ok(input) => Ok(input),
        Err(_) => storage.input(alloc, number),
    }
}

/// A copy of an input, at the second try where the first is refused.
pub(crate) fn offer_of<S: Storage>(
    storage: &S,
    alloc: Global,
    input: &S::Input,
) -> Result<S::Offer, AllocError> {
    match storage.offer(alloc, input) {
        Ok(offer) => Ok(offer),
        Err(_) => storage.offer(alloc, input),
    }
}
