//! Words that are stored once.
#![tactic(auto)]

ghost use Rattle.std.specs.Prelude.{◌≡◌, false, IfOk, option_copied};
ghost use Rattle.ra_ap_intern.specs.Handle.{name_of};
ghost use Rattle.ra_ap_intern.specs.Outcome.{Becomes, MayWantBack};
ghost use Rattle.ra_ap_intern.specs.State.{reads, is_new, interned_name, interned_counted, due_interning, full};

use ra_ap_intern::{InternStorage, Internable, Interned, Refused};
use std::cmp::PartialEq;

/// A word.
#[derive(Drop, PartialEq, Eq, Hash)]
pub struct Word(String);

impl Internable for Word {
    const USE_GC: bool = false;

    ghost USE_GC = { false };
}

/// The handle of a word, counted once more. The word comes back if it is stored already. Refused,
/// with the word back: `CountFull` where it is stored; else `NumbersUsedUp` and `OutOfMemory`.
pub fn handle_of(
    words: &mut InternStorage<Word>,
    word: Word,
) -> Result<(Interned<Word>, Option<Word>), Refused<Word>>
    ensures name { let eq = ⟦<Word as PartialEq>⟧.eq in
        IfOk result (λ r. name_of r.0 ≡ interned_name eq words.old word) }
    ensures refused { let eq = ⟦<Word as PartialEq>⟧.eq in
        MayWantBack result (due_interning eq words.old word (full words.old.top))
        (is_new eq words.old word) word }
    ensures state { let eq = ⟦<Word as PartialEq>⟧.eq in
        Becomes result words.old words.new (interned_counted eq words.old word) }
{
    Interned::new(words, word)
}

/// The word of a handle.
pub fn word_of<'a>(words: &'a InternStorage<Word>, handle: &Interned<Word>) -> Option<&'a Word>
    ensures { option_copied result ≡ reads words.now (name_of handle.now) }
{
    handle.get(words)
}

#[cfg(test)]
mod tests;
