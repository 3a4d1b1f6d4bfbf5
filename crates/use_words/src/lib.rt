//! Words that are stored once: two are compared by comparing their handles.
#![tactic(auto)]

ghost use Rattle.std.specs.Prelude.{◌≡◌, ◌≢◌, ◌↔◌, List, ℕ, true, false, Some, IfOk};
ghost use Rattle.std.specs.Option.{option_map};
ghost use Rattle.std.specs.Str.{bytes_eq};
ghost use Rattle.ra_ap_intern.specs.Handle.{name_of, ref_name};
ghost use Rattle.ra_ap_intern.specs.Name.{Name};
ghost use Rattle.ra_ap_intern.specs.Outcome.{Becomes, MayWantBack, Owes, OwesBack};
ghost use Rattle.ra_ap_intern.specs.State.{new_state, reads, is_new, interned_name, interned_counted, name_of_value, counted_up, due, due_interning, full, zero_count, freed, released};
ghost use Rattle.ra_ap_intern.specs.declared.kind.Values.{Values as ValueKind};
ghost use Rattle.ra_ap_intern.specs.declared.storage.Owned.{Owned as Handle};

use ra_ap_intern::{InternStorage, Interned, InternedRef, Refusal, Refused, Text, laws};
use std::alloc::Global;
use std::cmp::PartialEq;
use std::marker::Model;

/// A store of words, each kept while it has a handle.
#[derive(Drop)]
pub struct Words {
    words: InternStorage<Text>,
}

impl Model for Words {
    ghost use Rattle.std.specs.Coded.{coded_list, coded_ℕ};
    ghost use Rattle.std.specs.Prelude.{List, ℕ};
    ghost use Rattle.ra_ap_intern.specs.State.{State, state_code};

    ghost Value = { State (List ℕ) };

    ghost coded = { state_code (coded_list coded_ℕ) };

    ghost view = { λ a. a.words };
}

impl Words {
    /// An empty store. Handles tell stores apart by their numbers alone.
    pub fn new(alloc: Global, number: u64) -> Words
        ensures { result ≡ new_state number u64.MAX u64.MAX }
    {
        Words {
            words: InternStorage::new(alloc, number),
        }
    }

    /// The handle of a word, which is counted once more. Refused, with the word back: `CountFull`
    /// where it is stored; `NumbersUsedUp` and `OutOfMemory` where it isn't.
    pub fn intern(&mut self, word: Text) -> Result<Interned<Text>, Refused<Text>>
        ensures name { IfOk result (λ h. name_of h ≡ interned_name bytes_eq self.old word) }
        ensures refused { MayWantBack result
            (due_interning bytes_eq self.old word (full self.old.top))
            (is_new bytes_eq self.old word) word }
        ensures state { Becomes result self.old self.new (interned_counted bytes_eq self.old word) }
        ensures reads { IfOk result (λ h. reads self.new (name_of h) ≡ Some word) }
        ensures others { (n : Name) (w : List ℕ) →
            reads self.old n ≡ Some w → reads self.new n ≡ Some w }
    {
        let _number = self.words.number();
        let (handle, _) = Interned::new(&mut self.words, word)?;
        Ok(handle)
    }

    /// A reference to a word. None where it isn't stored. It takes no memory.
    pub fn find(&self, word: &str) -> Option<InternedRef<Text>>
        ensures { option_map ref_name result ≡ name_of_value bytes_eq self.now word.now }
    {
        self.words.get_text(word)
    }

    /// The word of a handle. None for a handle of another store, or of a word that is gone.
    pub fn word(&self, handle: &Interned<Text>) -> Option<&str>
        ensures { option_map (λ w. w.now) result ≡ reads self.now (name_of handle.now) }
    {
        Some(handle.get(&self.words)?.as_str())
    }

    /// One more handle of a word; each reads what it read. Refused: `Foreign`, `Gone`, `CountFull`.
    pub fn share(&mut self, handle: &Interned<Text>) -> Result<Interned<Text>, Refusal>
        ensures name { IfOk result (λ h. name_of h ≡ name_of handle.now) }
        ensures refused { Owes result (due self.old (name_of handle.now) (full self.old.top)) }
        ensures state { Becomes result self.old self.new
            (counted_up self.old (name_of handle.now).birth) }
        ensures others { (n : Name) → reads self.new n ≡ reads self.old n }
    {
        let second = handle.clone(&mut self.words)?;
        Ok(second)
    }

    /// Gives a handle up. The last one frees its word, which comes back; other words stay.
    /// Refused, with the handle back: `Foreign`, `Gone`, `CountZero`.
    pub fn release(
        &mut self,
        handle: Interned<Text>,
    ) -> Result<Option<Text>, Refused<Interned<Text>>>
        ensures value { IfOk result (λ v. v ≡ freed false self.old (name_of handle).birth) }
        ensures refused { OwesBack result (due self.old (name_of handle) zero_count) handle }
        ensures state { Becomes result self.old self.new
            (released false self.old (name_of handle).birth) }
        ensures others { (n : Name) → n.birth ≢ (name_of handle).birth →
            reads self.new n ≡ reads self.old n }
    {
        let freed = handle.release(&mut self.words)?;
        Ok(freed)
    }

    /// Two handles that read words are equal exactly if the words are.
    pub fn handles_tell_words(&self)
        ensures { (a b : Handle (ValueKind (List ℕ))) (v w : List ℕ) →
            reads self.now (name_of a) ≡ Some v → reads self.now (name_of b) ≡ Some w →
            (⟦<Interned<Text> as PartialEq>⟧.eq a b ≡ true) ↔ (v ≡ w) }
    {
        let _number = self.words.number();
        laws::handles_tell_values::<Text>();
    }
}
