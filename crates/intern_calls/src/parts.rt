//! The parts of a world, and each call on them.
mod collecting;
mod counting;
mod making;
mod reading;

use crate::slots::Slots;
use ra_ap_intern::{
    InternSliceStorage, InternStorage, Internable, Pair, SliceInternable, SymbolTable,
};
use std::alloc::Global;

/// What a world is made of: its storages, its table and its slots. Each call is a function of it,
/// and takes the memory that the library's call takes. One that gives a handle wants the room for a
/// slot, which [`Slots::reserve`] asks for.
#[derive(Drop)]
pub struct Parts<C: Internable, G: Internable, S: SliceInternable> {
    /// What memory is taken from.
    pub alloc: Global,
    /// The storage of counted values.
    pub counted: InternStorage<C>,
    /// The storages of collected values and of slices.
    pub family: Pair<InternStorage<G>, InternSliceStorage<S>>,
    /// The table of texts.
    pub table: SymbolTable,
    /// The slots.
    pub slots: Slots<C, G, S>,
}
