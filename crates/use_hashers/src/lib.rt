//! Texts and names that others choose: they are hashed under random keys, so that nobody can choose
//! many that share a bucket.
#![tactic(auto)]

ghost use Rattle.std.specs.Prelude.{◌≡◌, Some, IfOk};
ghost use Rattle.std.specs.Str.{bytes_eq};
ghost use Rattle.ra_ap_intern.specs.Handle.{name_of};
ghost use Rattle.ra_ap_intern.specs.Outcome.{Becomes, MayWantBack};
ghost use Rattle.ra_ap_intern.specs.State.{new_state, reads, is_new, interned_name, interned_counted, due_interning, full};

use ra_ap_intern::{InternStorage, Interned, Limits, Refused, SymbolTable, Text};
use std::alloc::Global;
use std::hash::{BuildHasher, RandomState};
use std::io;
use std::random::RandomSource;

/// A storage of texts that others choose.
pub type Texts = InternStorage<Text, RandomState>;

/// A table of names that others choose.
pub type Names = SymbolTable<RandomState>;

/// An empty storage of texts. It fails where the system gives no random keys.
pub fn new_texts(rt: &impl RandomSource, alloc: Global, number: u64) -> io::Result<Texts>
    ensures { IfOk result (λ s. s ≡ new_state number u64.MAX u64.MAX) }
{
    let keys = RandomState::new(rt)?;
    Ok(InternStorage::with_hasher(alloc, number, Limits::MAX, keys))
}

/// An empty table of names. It fails where the system gives no random keys.
pub fn new_names(rt: &impl RandomSource, alloc: Global, number: u64) -> io::Result<Names>
    ensures { IfOk result (λ s. s ≡ new_state number u64.MAX u64.MAX) }
{
    let keys = RandomState::new(rt)?;
    Ok(SymbolTable::with_hasher(alloc, number, Limits::MAX, keys))
}

/// The handle of a text, which is counted once more, in a storage of any hasher: no contract tells
/// how values are hashed. Refused, with the text back: `CountFull` where it is stored;
/// `NumbersUsedUp` and `OutOfMemory` where it isn't.
pub fn intern<B: BuildHasher>(
    texts: &mut InternStorage<Text, B>,
    text: Text,
) -> Result<Interned<Text>, Refused<Text>>
    ensures name { IfOk result (λ h. name_of h ≡ interned_name bytes_eq texts.old text) }
    ensures refused { MayWantBack result
        (due_interning bytes_eq texts.old text (full texts.old.top))
        (is_new bytes_eq texts.old text) text }
    ensures state { Becomes result texts.old texts.new (interned_counted bytes_eq texts.old text) }
    ensures reads { IfOk result (λ h. reads texts.new (name_of h) ≡ Some text) }
{
    let (handle, _) = Interned::new(texts, text)?;
    Ok(handle)
}
