//! A pool of words, which owns its handles: while it lives each can be released, and once it is
//! closed no word is left.
#![tactic(auto)]

ghost use Rattle.std.proofs.Props.{props};
ghost use Rattle.std.specs.Prelude.{◌≡◌, ◌⊎◌, ◌++◌, ◌∷◌, [], ℕ, List, map as list_map, None, Some, IfOk, IfErr, IfNone, IfSome, OnOk, OnErr, OnSome, length, false, ◌<◌};
ghost use Rattle.std.specs.Str.{bytes_eq};
ghost use Rattle.ra_ap_intern.specs.Handle.{name_of, ref_name};
ghost use Rattle.ra_ap_intern.specs.Held.{IsBalanced, IsCounted, emptied};
ghost use Rattle.ra_ap_intern.specs.Name.{Name};
ghost use Rattle.ra_ap_intern.specs.Outcome.{Becomes};
ghost use Rattle.ra_ap_intern.specs.State.{new_state, reads, interned_name, interned_counted, due_interning, full, freed, released};

use ra_ap_intern::{InternStorage, Interned, InternedRef, Refusal, Text};
use std::alloc::Global;

/// Words, and all handles of them.
#[derive(Drop)]
pub struct Pool {
    /// The words, each stored once.
    pub words: InternStorage<Text>,
    /// Their handles, in the order in which they were added.
    pub held: Vec<Interned<Text>>,
    // Each word counts as often as a handle of it is held, and none counts zero.
    ghost balanced: { IsBalanced words (list_map name_of held.items) } by { Prim.hlevel props },
    ghost counted: { IsCounted words } by { Prim.hlevel props },
}

impl Pool {
    /// An empty pool.
    pub fn new(alloc: Global, number: u64) -> Pool
        ensures words { result.words ≡ new_state number u64.MAX u64.MAX }
        ensures held { result.held.items ≡ [] }
    {
        Pool {
            words: InternStorage::new(alloc, number),
            held: Vec::new(alloc),
        }
    }

    /// Adds a word, which the pool holds once more. Refused, and no word has changed: `CountFull`
    /// where it is stored, `NumbersUsedUp` where it isn't, and `OutOfMemory`.
    pub fn add(&mut self, word: &str) -> Result<InternedRef<Text>, Refusal>
        ensures name { IfOk result (λ r.
            ref_name r ≡ interned_name bytes_eq self.old.words word.now) }
        ensures held { IfOk result (λ r. list_map name_of self.new.held.items
            ≡ list_map name_of self.old.held.items ++ ref_name r ∷ []) }
        ensures unchanged { OnErr result (self.new.held.items ≡ self.old.held.items) }
        ensures due { OnOk result (due_interning bytes_eq self.old.words word.now
            (full self.old.words.top) ≡ None) }
        ensures refused { IfErr result (λ why. (why ≡ Refusal.OutOfMemory)
            ⊎ (due_interning bytes_eq self.old.words word.now (full self.old.words.top)
            ≡ Some why)) }
        ensures state { Becomes result self.old.words self.new.words
            (interned_counted bytes_eq self.old.words word.now) }
    {
        // What `number` says is used here: that no two words are equal.
        let _number = self.words.number();
        // With room in front, no handle is lost for want of it.
        self.held.reserve(1)?;
        let handle = self.words.intern_text(word)?;
        let reference = handle.as_ref();
        self.held.push(handle).unwrap();
        Ok(reference)
    }

    /// How many handles are held.
    pub fn len(&self) -> usize
        ensures { result ≡ length self.now.held.items }
    {
        self.held.len()
    }

    /// Releases the handle that was added last, which is never refused. None where none is held;
    /// else the word comes back where no other handle of it is held.
    pub fn forget(&mut self) -> Option<Option<Text>>
        ensures none { IfNone result ((self.old.held.items ≡ [])
            × (self.new.held.items ≡ []) × (self.new.words ≡ self.old.words)) }
        ensures last { IfSome result (λ back. (n : Name)
            × (list_map name_of self.old.held.items
            ≡ list_map name_of self.new.held.items ++ n ∷ [])
            × (back ≡ freed false self.old.words n.birth)
            × (self.new.words ≡ released false self.old.words n.birth)) }
        ensures shorter { OnSome result
            (length self.new.held.items < length self.old.held.items) }
    {
        let handle = self.held.pop()?;
        Some(handle.release(&mut self.words).unwrap())
    }

    /// Releases every handle; no word is left.
    pub fn clear(&mut self)
        ensures held { self.new.held.items ≡ [] }
        ensures words { self.new.words ≡ emptied self.old.words }
    {
        while let Some(_) = self.forget() {}
    }

    /// Releases every handle, and gives the storage back, in which no word is left.
    pub fn close(self) -> InternStorage<Text>
        ensures none { (n : Name) → reads result n ≡ None }
        ensures state { result ≡ emptied self.words }
    {
        let mut pool = self;
        pool.clear();
        pool.words
    }
}
