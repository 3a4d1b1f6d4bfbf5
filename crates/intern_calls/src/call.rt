//! Calls.
use crate::slot::Slot;
use ra_ap_intern::SliceInternable;

/// A kind of handles that are made from a birth.
#[derive(Clone, Copy, Debug, PartialEq, Eq)]
pub enum Kind {
    /// An owned handle of a counted value.
    Counted,
    /// A reference to a counted value.
    CountedRef,
    /// An owned handle of a collected value.
    Value,
    /// A reference to a collected value.
    ValueRef,
}

/// A part of a world that keeps entries.
#[derive(Clone, Copy, Debug, PartialEq, Eq)]
pub enum Which {
    /// The storage of counted values.
    Counted,
    /// The storage of collected values.
    Values,
    /// The storage of slices.
    Slices,
    /// The table of texts.
    Symbols,
}

/// A call of the library, on handles in slots.
///
/// A call names slots by their numbers. Where there is no slot of a number, or it holds nothing
/// that the call takes, the reply is `WrongSlot`; else a call is refused where that of the library
/// is. One that gives a handle puts it into a new slot at the end of the list, and replies `Made`.
#[derive(Drop)]
pub enum Call<C, G, S: SliceInternable> {
    /// Interns a counted value: an owned handle, and the value back where an equal one was stored.
    /// Refused, with the value back: `CountFull`, `NumbersUsedUp`, `OutOfMemory`.
    New(C),
    /// Interns a collected value: a reference, and the value back where an equal one was stored.
    /// Refused, with the value back: `NumbersUsedUp`, `OutOfMemory`.
    NewGc(G),
    /// Interns a slice: a reference, and the header back where an equal slice was stored.
    /// Refused, with the header back: `NumbersUsedUp`, `OutOfMemory`.
    FromHeaderAndSlice(S::Header, Vec<S::SliceType>),
    /// Interns a text: a symbol. A preset is never refused.
    /// Refused: `CountFull`, `NumbersUsedUp`, `OutOfMemory`.
    Intern(String),
    /// The symbol of a number's digits. Refused as `Intern` is.
    IntegerGet(usize),
    /// The symbol of a generated name. Refused as `Intern` is.
    GeneratedGet(usize),
    /// The symbol of the empty text. It is never refused.
    Empty,
    /// Puts a slot that the caller hands in at the end of the list. It is never refused.
    Put(Slot<C, G, S>),
    /// A handle of a birth.
    /// Refused: `Gone` where no entry has the birth; for an owned handle also `CountZero`.
    FromRaw(Kind, u64),
    /// A reference to what an owned handle of a value or of a slice names. It is never refused.
    AsRef(usize),
    /// A second owned handle or symbol. Refused: `Foreign`, `Gone`, `CountFull`.
    Clone(usize),
    /// An owned handle of what a reference names. Refused: `Foreign`, `Gone`, `CountFull`.
    ToOwned(usize),
    /// Gives an owned handle or a symbol up, and leaves the slot empty. It replies `Done`, with the
    /// value back where this was the last handle of a counted value. Refused, and the handle stays
    /// in its slot: `Foreign`, `Gone`, and but for symbols `CountZero`.
    Release(usize),
    /// Takes back the count of a handle that was dropped, by a reference or a symbol, and replies
    /// `Done`. A text goes with its last count; values and slices stay, also at zero.
    /// Refused: `Foreign`, `Gone`, and but for symbols `CountZero`.
    Decrement(usize),
    /// The birth that a reference to a value names, as a `Number`.
    AsRaw(usize),
    /// Whether a handle reads this counted value, as `Read`.
    ReadsCounted(usize, C),
    /// Whether a handle reads this collected value, as `Read`.
    ReadsValue(usize, G),
    /// Whether a handle reads this header with these items, as `Read`.
    ReadsSlice(usize, S::Header, Vec<S::SliceType>),
    /// Whether a symbol reads this text, as `Read`.
    ReadsText(usize, String),
    /// Whether two handles of one kind are equal, as `Truth`. Two of different kinds are wrong
    /// slots.
    Same(usize, usize),
    /// The count of the entry that a handle names, as `Count`.
    Count(usize),
    /// How many entries there are, as a `Number`.
    Len(Which),
    /// The number that a symbol's text writes, as `Uint`.
    AsUint(usize),
    /// Removes all collected entries that nothing counted reaches. It replies `Collected`.
    /// Refused: `OutOfMemory`.
    Collect,
}
