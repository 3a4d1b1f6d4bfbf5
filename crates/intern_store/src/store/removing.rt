//! What takes entries out of a store: a release, and a sweep.
ghost use Rattle.std.specs.Prelude.{◌≡◌, IfOk};
ghost use Rattle.std.specs.Option.{option_map};
ghost use Rattle.intern_store.specs.Named.{key_name};
ghost use Rattle.intern_store.specs.Outcome.{Owes, Becomes};
ghost use Rattle.intern_store.specs.State.{entry_at, due, zero_count, taken, freed, released, kept};

use super::Store;
use crate::entries::{Entries, Keeps, Removes, Sweeps};
use crate::names::{EntryKey, Spot};
use crate::refusal::Refusal;

impl<E: Removes> Store<E> {
    // Removes an entry, and answers its value.
    fn take(&mut self, spot: Spot) -> Option<E::Value>
        ensures value { result ≡ option_map (λ k. k.value) (entry_at self.old.state spot.birth) }
        ensures state { self.new.state ≡ taken self.old.state spot.birth }
        ensures hasher { self.new.hasher ≡ self.old.hasher }
    {
        self.table.remove(spot)
    }

    /// Counts an entry once less. With the last count the entry is removed and its value comes
    /// back, unless entries stay. Refused: `Foreign`, `Gone`, `CountZero`.
    pub fn release(&mut self, key: EntryKey, stays: bool) -> Result<Option<E::Value>, Refusal>
        ensures value { IfOk result (λ v. v ≡ freed stays self.old.state key.spot.birth) }
        ensures refused { Owes result (due self.old.state (key_name key) zero_count) }
        ensures state { Becomes result self.old.state self.new.state
            (released stays self.old.state key.spot.birth) }
        ensures hasher { self.new.hasher ≡ self.old.hasher }
    {
        let spot = self.spot(key)?;
        let count = self.lower(spot)?;
        if count == 1 && !stays {
            return Ok(self.take(spot));
        }
        Ok(None)
    }
}

impl<E: Entries> Store<E> {
    /// Drops every entry that isn't marked. It takes no memory. Their births are not given again.
    pub fn keep<M: Keeps>(&mut self, marks: &M)
    where
        E: Sweeps<M>,
        ensures state { self.new.state ≡ kept self.old.state (M.marked marks.now) }
        ensures hasher { self.new.hasher ≡ self.old.hasher }
    {
        // A field that is read brings in the invariant, which the table alone doesn't know.
        let _next = self.next;
        self.table.keep(marks);
    }
}
