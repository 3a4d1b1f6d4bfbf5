//! Texts as single values.
ghost use Rattle.std.specs.Prelude.{◌≡◌, ◌<◌, ◌≤◌, if◌then◌else◌, false, length, IfOk};
ghost use Rattle.std.specs.Option.{option_map};
ghost use Rattle.std.specs.Str.{bytes_eq};
ghost use Rattle.intern_store.specs.Outcome.{Owes, MayWant, Becomes, Spends};
ghost use Rattle.intern_store.specs.State.{is_new, interned_name, interned_counted, name_of_value, due_interning, full};
ghost use Rattle.ra_ap_intern.specs.Handle.{name_of, ref_name};

use crate::intern::{InternStorage, Internable, Interned, InternedRef};
use crate::kind::Values;
use crate::storage::{Owned, Ref, Reserved};
use intern_store::Refusal;
use intern_table::Text;
use std::hash::BuildHasher;

// Counted, as the texts of symbols are.
impl Internable for Text {
    const USE_GC: bool = false;

    ghost USE_GC = { false };
}

impl<B: BuildHasher> InternStorage<Text, B> {
    /// A reference to the entry of this text. None where it isn't stored. It takes no memory.
    pub fn get_text(&self, text: &str) -> Option<InternedRef<Text>>
        ensures { option_map ref_name result ≡ name_of_value bytes_eq self.now text.now }
    {
        self.find(text)
    }

    /// The owned handle of a text, which is counted once more: what [`Interned::new`] gives for it.
    /// Only a text that isn't stored is copied, which may take memory. Refused: `CountFull` where
    /// the text is stored and its count is at the limit; `NumbersUsedUp` and `OutOfMemory` where it
    /// isn't stored.
    pub fn intern_text(&mut self, text: &str) -> Result<Interned<Text>, Refusal>
        ensures name { IfOk result (λ h.
            name_of h ≡ interned_name bytes_eq self.old text.now) }
        ensures refused { MayWant result
            (due_interning bytes_eq self.old text.now (full self.old.top))
            (is_new bytes_eq self.old text.now) }
        ensures state { Becomes result self.old self.new
            (interned_counted bytes_eq self.old text.now) }
    {
        self.inner.intern_text(text)
    }
}

impl<B: BuildHasher> Reserved<Values<Text>, B> {
    /// What [`InternStorage::intern_text`] does. Where there is room, a text of up to 24 bytes that
    /// isn't stored takes of it. Refused as there, but with `OutOfMemory` only where there is no
    /// room, or the text is longer.
    pub fn intern_text(&mut self, text: &str) -> Result<Interned<Text>, Refusal>
        ensures name { IfOk result (λ h.
            name_of h ≡ interned_name bytes_eq self.old.state text.now) }
        ensures refused { MayWant result
            (due_interning bytes_eq self.old.state text.now (full self.old.state.top))
            (is_new bytes_eq self.old.state text.now) }
        ensures roomy { 0 < self.old.room → length text.now ≤ 24 → Owes result
            (due_interning bytes_eq self.old.state text.now
            (full self.old.state.top)) }
        ensures room { Spends result self.old.room self.new.room
            (if is_new bytes_eq self.old.state text.now then 1 else 0) }
        ensures state { Becomes result self.old.state self.new.state
            (interned_counted bytes_eq self.old.state text.now) }
    {
        let (key, _stored) = self.store.intern_counted(text)?;
        let reference = Ref::new(key);
        Ok(Owned { reference })
    }
}
