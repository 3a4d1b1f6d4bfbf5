//! What makes room in a store.
ghost use Rattle.std.specs.Prelude.{◌≡◌, ◌≤◌, OnOk, IsOk, None, true};
ghost use Rattle.intern_store.specs.Outcome.{MayWant};

use super::Store;
use crate::entries::{Entries, Pools};
use crate::refusal::Refusal;

impl<E: Entries> Store<E> {
    /// Makes room for this many more entries. Refused: `OutOfMemory`.
    pub fn reserve(&mut self, additional: usize) -> Result<(), Refusal>
        ensures refused { MayWant result None true }
        ensures state { self.new.state ≡ self.old.state }
        ensures hasher { self.new.hasher ≡ self.old.hasher }
        ensures room { OnOk result (additional ≤ self.new.room) }
    {
        self.table.reserve(additional)?;
        Ok(())
    }
}

impl<E: Pools> Store<E> {
    /// Makes room for this much more outside of the entries. Refused: `OutOfMemory`, where there
    /// isn't so much yet.
    pub fn reserve_outside(&mut self, additional: usize) -> Result<(), Refusal>
        ensures refused { MayWant result None true }
        ensures roomy { additional ≤ self.old.spare → IsOk result }
        ensures state { self.new.state ≡ self.old.state }
        ensures hasher { self.new.hasher ≡ self.old.hasher }
        ensures room { self.new.room ≡ self.old.room }
        ensures spare { OnOk result (additional ≤ self.new.spare) }
        ensures stays { self.old.spare ≤ self.new.spare }
    {
        self.table.reserve_outside(additional)?;
        Ok(())
    }
}
