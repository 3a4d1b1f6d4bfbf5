//! How often words occur: each is kept once, and counted as often as it was met.
#![tactic(auto)]

ghost use Rattle.std.specs.Prelude.{◌≡◌, ◌+◌, ◌↔◌, List, ℕ, Some, IfOk, option_and_then};
ghost use Rattle.std.specs.Str.{bytes_eq};
ghost use Rattle.ra_ap_intern.specs.Handle.{ref_name};
ghost use Rattle.ra_ap_intern.specs.Name.{Name};
ghost use Rattle.ra_ap_intern.specs.Outcome.{Becomes, MayWant, Owes};
ghost use Rattle.ra_ap_intern.specs.State.{State, IsState, reads, counts, is_new, interned_name, interned_counted, name_of_value, counted_down, due, due_interning, full, zero_count};

use ra_ap_intern::{InternStorage, InternedRef, Refusal, Text};

/// Words, each with how often it occurred.
pub type Words = InternStorage<Text>;

/// Counts a word once more. Refused: `CountFull` where it is stored; `NumbersUsedUp` and
/// `OutOfMemory` where it isn't.
pub fn count(words: &mut Words, word: &str) -> Result<InternedRef<Text>, Refusal>
    ensures name { IfOk result (λ r. ref_name r ≡ interned_name bytes_eq words.old word.now) }
    ensures refused { MayWant result
        (due_interning bytes_eq words.old word.now (full words.old.top))
        (is_new bytes_eq words.old word.now) }
    ensures state { Becomes result words.old words.new
        (interned_counted bytes_eq words.old word.now) }
    ensures counted { IfOk result (λ r. (n : ℕ) × (counts words.new (ref_name r) ≡ Some (n + 1))) }
{
    // The handle is dropped, and its count stays: it is that of this occurrence.
    let handle = words.intern_text(word)?;
    Ok(handle.as_ref())
}

/// Takes an occurrence back. The word stays, also where none is left, and so does each other.
/// Refused: `Foreign`, `Gone`, `CountZero`.
pub fn take_back(words: &mut Words, word: InternedRef<Text>) -> Result<(), Refusal>
    ensures refused { Owes result (due words.old (ref_name word) zero_count) }
    ensures state { Becomes result words.old words.new
        (counted_down words.old (ref_name word).birth) }
    ensures reads { (n : Name) → reads words.new n ≡ reads words.old n }
{
    word.decrement_refcount(words)?;
    Ok(())
}

/// How often a word occurred. None where it never did.
pub fn occurrences(words: &Words, word: &str) -> Option<u64>
    ensures { result ≡ option_and_then (counts words.now)
        (name_of_value bytes_eq words.now word.now) }
{
    words.count(words.get_text(word)?)
}

/// Two words that are counted one after the other have one name exactly if they are equal.
pub fn names_tell_words()
    ensures { (s : State (List ℕ)) → IsState bytes_eq s → (v w : List ℕ) →
        (interned_name bytes_eq s v ≡ interned_name bytes_eq (interned_counted bytes_eq s v) w)
        ↔ (v ≡ w) }
{}
