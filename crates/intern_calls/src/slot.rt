//! Slots for handles.
use ra_ap_intern::{Interned, InternedRef, InternedSlice, InternedSliceRef, Symbol};

/// A place for a handle.
#[derive(Drop)]
pub enum Slot<C, G, S> {
    /// No handle.
    Empty,
    /// An owned handle of a counted value.
    Counted(Interned<C>),
    /// A reference to a counted value.
    CountedRef(InternedRef<C>),
    /// An owned handle of a collected value.
    Value(Interned<G>),
    /// A reference to a collected value.
    ValueRef(InternedRef<G>),
    /// An owned handle of a slice.
    Slice(InternedSlice<S>),
    /// A reference to a slice.
    SliceRef(InternedSliceRef<S>),
    /// A symbol.
    Symbol(Symbol),
}
