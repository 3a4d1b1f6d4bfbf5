//! Storages whose calls give a handle alone. What comes with a refused call, or is stored already,
//! is dropped.
use crate::fault::{Fault, ensure, refused};
use crate::slices::{Input, Row};
use crate::storage::Storage;
use crate::values::{Term, Value};
use ra_ap_intern::{
    InternSliceStorage, InternStorage, InternedRef, InternedSliceRef, Refusal, Text,
};
use std::alloc::{AllocError, Global};

/// A value with the call that gives its handle alone.
pub(crate) trait Alone: Value {
    /// The call's name.
    fn call_alone() -> &'static str;

    /// Makes the call. An owned handle that it gives is dropped, and keeps its count.
    fn intern_alone(
        storage: &mut InternStorage<Self>,
        value: Self,
    ) -> Result<InternedRef<Self>, Refusal>;
}

impl Alone for Text {
    fn call_alone() -> &'static str {
        "InternStorage::get_or_intern"
    }

    fn intern_alone(
        storage: &mut InternStorage<Text>,
        value: Text,
    ) -> Result<InternedRef<Text>, Refusal> {
        let handle = storage.get_or_intern(value)?;
        Ok(handle.as_ref())
    }
}

impl Alone for Term {
    fn call_alone() -> &'static str {
        "InternStorage::get_or_intern_gc"
    }

    fn intern_alone(
        storage: &mut InternStorage<Term>,
        value: Term,
    ) -> Result<InternedRef<Term>, Refusal> {
        storage.get_or_intern_gc(value)
    }
}

/// A storage of values.
#[derive(Drop)]
pub(crate) struct AloneValues<T: Alone>(pub(crate) InternStorage<T>);

impl<T: Alone> Storage for AloneValues<T> {
    type Input = T;

    type Offer = T;

    type Reference = InternedRef<T>;

    fn call(&self) -> &'static str {
        T::call_alone()
    }

    fn input(&self, alloc: Global, number: u64) -> Result<T, AllocError> {
        self.0.input(alloc, number)
    }

    fn offer(&self, alloc: Global, input: &T) -> Result<T, AllocError> {
        self.0.offer(alloc, input)
    }

    fn store(&mut self, offer: T, _input: &T) -> Result<InternedRef<T>, Fault> {
        T::intern_alone(&mut self.0, offer).map_err(|why| refused(why, true))
    }

    fn lengths(&self) -> (usize, usize) {
        self.0.lengths()
    }

    fn shows(&self, reference: InternedRef<T>, input: &T, number: u64) -> bool {
        self.0.shows(reference, input, number)
    }

    fn keeps(&self) -> bool {
        self.0.keeps()
    }

    fn free(&mut self, reference: InternedRef<T>, input: &T) -> Result<(), Fault> {
        self.0.free(reference, input)
    }

    fn pass(&mut self, reference: InternedRef<T>, offer: T, _input: &T) -> Result<(), Fault> {
        let again = T::intern_alone(&mut self.0, offer)?;
        ensure(again == reference, "a stored value has another birth")?;
        if T::counts() > 0 {
            reference.decrement_refcount(&mut self.0)?;
        }
        Ok(())
    }
}

/// A storage of slices.
#[derive(Drop)]
pub(crate) struct AloneSlices(pub(crate) InternSliceStorage<Row>);

impl Storage for AloneSlices {
    type Input = Input;

    type Offer = Text;

    type Reference = InternedSliceRef<Row>;

    fn call(&self) -> &'static str {
        "InternSliceStorage::get_or_intern"
    }

    fn input(&self, alloc: Global, number: u64) -> Result<Input, AllocError> {
        self.0.input(alloc, number)
    }

    fn offer(&self, alloc: Global, input: &Input) -> Result<Text, AllocError> {
        self.0.offer(alloc, input)
    }

    fn store(&mut self, offer: Text, input: &Input) -> Result<InternedSliceRef<Row>, Fault> {
        self.0
            .get_or_intern(offer, input.items())
            .map_err(|why| refused(why, true))
    }

    fn lengths(&self) -> (usize, usize) {
        self.0.lengths()
    }

    fn shows(&self, reference: InternedSliceRef<Row>, input: &Input, number: u64) -> bool {
        self.0.shows(reference, input, number)
    }

    fn keeps(&self) -> bool {
        self.0.keeps()
    }

    fn free(&mut self, reference: InternedSliceRef<Row>, input: &Input) -> Result<(), Fault> {
        self.0.free(reference, input)
    }

    fn pass(
        &mut self,
        reference: InternedSliceRef<Row>,
        offer: Text,
        input: &Input,
    ) -> Result<(), Fault> {
        let again = self.0.get_or_intern(offer, input.items())?;
        ensure(again == reference, "a stored slice has another birth")
    }
}
