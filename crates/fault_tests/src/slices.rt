//! Storages of slices.
ghost use Rattle.std.specs.Prelude.{true};

use crate::fault::{Fault, ensure, refused};
use crate::storage::Storage;
use crate::values::text_of;
use ra_ap_intern::{
    FixedState, HeaderSlice, InternSliceStorage, InternedSlice, InternedSliceRef, Layout, Refused,
    SliceInternable, Text,
};
use std::alloc::{AllocError, Global};

/// A text before a few numbers.
pub(crate) struct Row;

impl SliceInternable for Row {
    type Header = Text;

    type SliceType = u64;

    const USE_GC: bool = true;

    ghost USE_GC = { true };
}

/// A header with its items.
#[derive(Drop)]
pub(crate) struct Input {
    header: Text,
    items: Vec<u64>,
}

impl Input {
    // None to four items.
    fn make(alloc: Global, number: u64) -> Result<Input, AllocError> {
        let mut items = Vec::new(alloc);
        for item in 0..number % 5 {
            items.push(item)?;
        }
        Ok(Input {
            header: text_of(alloc, number)?,
            items,
        })
    }

    /// The items.
    pub(crate) fn items(&self) -> &[u64] {
        self.items.as_slice()
    }

    fn is_read(&self, read: Option<HeaderSlice<'_, Text, u64>>) -> bool {
        let Some(read) = read else {
            return false;
        };
        *read.header.header == self.header
            && read.header.length == self.items.len()
            && read.slice == self.items.as_slice()
    }
}

impl<L: Layout<u64>> Storage for InternSliceStorage<Row, FixedState, L> {
    type Input = Input;

    type Offer = Text;

    type Reference = InternedSliceRef<Row, L>;

    fn call(&self) -> &'static str {
        "InternedSlice::from_header_and_slice"
    }

    fn input(&self, alloc: Global, number: u64) -> Result<Input, AllocError> {
        Input::make(alloc, number)
    }

    fn offer(&self, alloc: Global, input: &Input) -> Result<Text, AllocError> {
        Text::new(alloc, input.header.as_str())
    }

    fn store(&mut self, offer: Text, input: &Input) -> Result<InternedSliceRef<Row, L>, Fault> {
        match InternedSlice::from_header_and_slice(self, offer, input.items.as_slice()) {
            Ok((reference, None)) => Ok(reference),
            Ok(_) => Err(Fault::Wrong("a new header came back")),
            Err(Refused { why, back }) => Err(refused(why, back == input.header)),
        }
    }

    fn lengths(&self) -> (usize, usize) {
        let len = self.len();
        (len, self.iter().take(len.saturating_add(1)).count())
    }

    fn shows(&self, reference: InternedSliceRef<Row, L>, input: &Input, number: u64) -> bool {
        reference.name().birth == number
            && self.get(&input.header, input.items.as_slice()) == Some(reference)
            && input.is_read(reference.get(self))
            && self.count(reference) == Some(0)
    }

    fn keeps(&self) -> bool {
        true
    }

    fn free(&mut self, _reference: InternedSliceRef<Row, L>, _input: &Input) -> Result<(), Fault> {
        Err(Fault::Wrong("a slice stays"))
    }

    fn pass(
        &mut self,
        reference: InternedSliceRef<Row, L>,
        offer: Text,
        input: &Input,
    ) -> Result<(), Fault> {
        intern_again(self, reference, offer, input)?;
        own_twice(self, reference, input)?;
        reference.decrement_refcount(self)?;
        Ok(())
    }
}

// Interns a slice that is stored: its header comes back.
fn intern_again<L: Layout<u64>>(
    storage: &mut InternSliceStorage<Row, FixedState, L>,
    reference: InternedSliceRef<Row, L>,
    offer: Text,
    input: &Input,
) -> Result<(), Fault> {
    let items = input.items.as_slice();
    let (again, back) = InternedSlice::from_header_and_slice(storage, offer, items)?;
    ensure(again == reference, "a stored slice has another birth")?;
    ensure(
        back.as_ref() == Some(&input.header),
        "a stored header did not come back",
    )
}

// Makes two owned handles, and releases the first. The second is dropped, and keeps its count.
fn own_twice<L: Layout<u64>>(
    storage: &mut InternSliceStorage<Row, FixedState, L>,
    reference: InternedSliceRef<Row, L>,
    input: &Input,
) -> Result<(), Fault> {
    let owned = reference.to_owned(storage)?;
    let second = owned.clone(storage)?;
    ensure(owned == second, "two handles of a slice differ")?;
    ensure(
        input.is_read(owned.get(storage)),
        "a handle reads something else",
    )?;
    owned.release(storage)?;
    Ok(())
}
