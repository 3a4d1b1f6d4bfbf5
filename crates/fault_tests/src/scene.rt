//! A storage, and what it has to answer.
use crate::fault::{Fault, ensure};
use crate::marks;
use crate::storage::{Storage, input_of, offer_of};
use std::alloc::{AllocError, Global};

/// How many inputs are stored. A storage's tables are built at the first, and built anew at the
/// 65th and at the 129th.
const INPUTS: usize = 140;

/// A storage with what it has: the inputs, which have the numbers from `first` on, in the order in
/// which they were stored, and a reference to each.
#[derive(Drop)]
struct Scene<S: Storage> {
    storage: S,
    first: u64,
    inputs: Vec<S::Input>,
    references: Vec<S::Reference>,
}

/// Checks a call: stores inputs, one after the other, and then makes the calls that take no memory.
/// Where entries go with their last counts, all go, and more inputs are stored.
pub(crate) fn check<S: Storage>(
    rt: &(impl Print + Eprint),
    alloc: Global,
    storage: S,
) -> Result<(), Fault> {
    marks::prepares(rt);
    let mut scene = Scene {
        storage,
        first: 0,
        inputs: room(alloc, INPUTS)?,
        references: room(alloc, INPUTS)?,
    };
    scene.check(rt, alloc)
}

impl<S: Storage> Scene<S> {
    fn check(&mut self, rt: &(impl Print + Eprint), alloc: Global) -> Result<(), Fault> {
        self.fill(rt, alloc)?;
        if !self.storage.keeps() {
            self.free_all(rt)?;
            self.fill(rt, alloc)?;
        }
        println!(rt; "{}: {}", self.storage.call(), self.storage.lengths().0)?;
        Ok(())
    }

    fn fill(&mut self, rt: &impl Eprint, alloc: Global) -> Result<(), Fault> {
        for number in 0..INPUTS {
            self.add(rt, alloc, self.first.saturating_add(number as u64))?;
        }
        marks::takes_none(rt, "reads");
        self.is_as_it_was()?;
        self.pass_all(rt, alloc)?;
        marks::takes_none(rt, "reads");
        self.is_as_it_was()
    }

    // Stores the input of a number.
    fn add(&mut self, rt: &impl Eprint, alloc: Global, number: u64) -> Result<(), Fault> {
        marks::prepares(rt);
        let input = input_of(&self.storage, alloc, number)?;
        let reference = self.store_surely(rt, alloc, &input)?;
        self.inputs.push(input)?;
        self.references.push(reference)?;
        Ok(())
    }

    // Where the call is refused, all that was stored before is as it was, and it is made once more.
    fn store_surely(
        &mut self,
        rt: &impl Eprint,
        alloc: Global,
        input: &S::Input,
    ) -> Result<S::Reference, Fault> {
        match self.store(rt, alloc, input) {
            Err(Fault::NoMemory) => {
                marks::refused(rt, self.storage.call());
                self.is_as_it_was()?;
                self.store(rt, alloc, input)
            }
            stored => stored,
        }
    }

    fn store(
        &mut self,
        rt: &impl Eprint,
        alloc: Global,
        input: &S::Input,
    ) -> Result<S::Reference, Fault> {
        let offer = offer_of(&self.storage, alloc, input)?;
        marks::asks(rt, self.storage.call());
        self.storage.store(offer, input)
    }

    // Fails unless the storage has exactly what was stored.
    fn is_as_it_was(&self) -> Result<(), Fault> {
        let length = self.inputs.len();
        ensure(
            self.storage.lengths() == (length, length),
            "a storage has another length",
        )?;
        let entries = self.references.iter().zip(self.inputs.iter());
        for ((reference, input), number) in entries.zip(0..) {
            ensure(
                self.storage
                    .shows(*reference, input, self.first.saturating_add(number)),
                "an entry is not as it was",
            )?;
        }
        Ok(())
    }

    // Makes the calls that take no memory, on each entry.
    fn pass_all(&mut self, rt: &impl Eprint, alloc: Global) -> Result<(), Fault> {
        for (reference, input) in self.references.iter().zip(self.inputs.iter()) {
            marks::prepares(rt);
            let offer = offer_of(&self.storage, alloc, input)?;
            marks::takes_none(rt, "calls on what is stored");
            self.storage.pass(*reference, offer, input)?;
        }
        Ok(())
    }

    // Gives up the last count of each entry.
    fn free_all(&mut self, rt: &impl Eprint) -> Result<(), Fault> {
        marks::takes_none(rt, "last releases");
        for (reference, input) in self.references.iter().zip(self.inputs.iter()) {
            self.storage.free(*reference, input)?;
        }
        self.first = INPUTS as u64;
        self.inputs.clear();
        self.references.clear();
        self.is_as_it_was()
    }
}

/// Room for so many elements, at the second try where the first is refused.
pub(crate) fn room<T>(alloc: Global, length: usize) -> Result<Vec<T>, AllocError> {
    match Vec::with_capacity(alloc, length) {
        Ok(room) => Ok(room),
        Err(_) => Vec::with_capacity(alloc, length),
    }
}
