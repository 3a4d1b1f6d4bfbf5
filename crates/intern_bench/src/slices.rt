//! The workload `slice`: headers with four items, in collected mode.
//!
//! Entries go only in a collection: this workload releases none, and the warm-up entry stays.
ghost use Rattle.std.specs.Prelude.{true};

use crate::numbers::Generator;
use crate::storage::Storage;
use ra_ap_intern::{
    FixedState, InternSliceStorage, InternedSlice, InternedSliceRef, Layout, Refusal,
    SliceInternable,
};
use std::alloc::{AllocError, Global};

/// A header with its items.
#[derive(Clone, Copy)]
pub(crate) struct Row {
    header: u32,
    items: [u32; 4],
}

impl SliceInternable for Row {
    type Header = u32;

    type SliceType = u32;

    const USE_GC: bool = true;

    ghost USE_GC = { true };
}

impl<L: Layout<u32>> Storage for InternSliceStorage<Row, FixedState, L> {
    type Input = Row;

    type Handle = InternedSliceRef<Row, L>;

    fn make(alloc: Global) -> InternSliceStorage<Row, FixedState, L> {
        InternSliceStorage::new(alloc, 0)
    }

    // The header is the place, of which it has the low 32 bits.
    fn input(_alloc: Global, place: usize, generator: &mut Generator) -> Result<Row, AllocError> {
        Ok(Row {
            header: (place & 0xFFFF_FFFF) as u32,
            items: [
                generator.draw_upper_half(),
                generator.draw_upper_half(),
                generator.draw_upper_half(),
                generator.draw_upper_half(),
            ],
        })
    }

    fn entries(&self) -> usize {
        self.len()
    }

    fn intern(&mut self, input: &Row) -> Result<InternedSliceRef<Row, L>, Refusal> {
        match InternedSlice::from_header_and_slice(self, input.header, input.items.as_slice()) {
            Ok((handle, _)) => Ok(handle),
            Err(refused) => Err(refused.why),
        }
    }

    // The header, the number of items, and the items.
    fn read(&self, handle: &InternedSliceRef<Row, L>) -> Result<u64, Refusal> {
        let Some(row) = handle.get(self) else {
            return Err(Refusal::Gone);
        };
        let mut sum = u64::from(*row.header.header).wrapping_add(row.header.length as u64);
        for item in row.slice {
            sum = sum.wrapping_add(u64::from(*item));
        }
        Ok(sum)
    }

    // A reference counts nothing.
    fn release(&mut self, _handle: InternedSliceRef<Row, L>) -> Result<(), Refusal> {
        Ok(())
    }
}
