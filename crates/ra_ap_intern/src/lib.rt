//! Interning: one copy of each equal value, and handles that are compared in place of values.
#![tactic(auto)]

mod gc;
mod intern;
mod intern_slice;
mod kind;
pub mod laws;
mod optional;
mod owed;
mod storage;
mod symbol;
mod text;

pub use gc::{
    Collected, Family, GarbageCollector, GcInternedSliceVisit, GcInternedVisit, NoStorages,
    Numbered, Pair, Trace, Visits,
};
pub use intern::{InternHandle, InternStorage, Internable, Interned, InternedRef, Iter};
pub use intern_slice::{
    InternSliceStorage, InternedSlice, InternedSliceRef, NearSliceStorage, SliceInternable,
    SliceIter,
};
pub use intern_store::{Limits, Name, Refusal, Refused};
pub use intern_table::{
    Equivalent, Far, FixedState, HeaderSlice, HeaderWithLength, Layout, Near, Text,
};
pub use kind::{Kind, Slices, Values};
pub use optional::{OptionalInternedRef, OptionalInternedSliceRef, OptionalRef};
pub use owed::{Owed, OwedSlice, OwedValue};
pub use storage::{Owned, Ref, Reserved, Storage};
pub use symbol::{
    OwedSymbol, ReservedTexts, Symbol, SymbolDisplay, SymbolIter, SymbolRef, SymbolTable,
    symbols as sym,
};
