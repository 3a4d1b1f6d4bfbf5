//! What calls answer.
use ra_ap_intern::{Collected, Refusal};

/// What a call handed back or freed.
#[derive(Drop)]
pub enum Back<C, G, H> {
    /// Nothing.
    Nothing,
    /// A counted value.
    Counted(C),
    /// A collected value.
    Value(G),
    /// A slice's header.
    Header(H),
}

/// What a call answers.
#[derive(Drop)]
pub enum Reply<C, G, H> {
    /// A handle was put into this slot, a new one.
    Made(usize, Back<C, G, H>),
    /// It is done.
    Done(Back<C, G, H>),
    /// A birth, or how many entries there are.
    Number(u64),
    /// Whether what was read equals the value given. None where nothing is read.
    Read(Option<bool>),
    /// Whether two handles are equal.
    Truth(bool),
    /// An entry's count. None where there is no entry.
    Count(Option<u64>),
    /// The number that a symbol's text writes, if it writes one.
    Uint(Option<usize>),
    /// What a collection did.
    Collected(Collected),
    /// The call was refused, and nothing has changed. A value that it was offered is back, and of a
    /// slice the header. Items and texts are dropped.
    Refused(Refusal, Back<C, G, H>),
    /// There is no slot of this number, or it holds nothing that the call takes.
    WrongSlot,
}
