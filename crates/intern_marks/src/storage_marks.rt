//! The marks of one storage.

use crate::find::find;
use crate::found::Table;
use crate::part::Part;
use crate::slots::Slots;
use intern_store::{EntryKey, Keeps, Spot};
use std::marker::Model;

/// Which names of a storage are marked, for its sweep: its part is looked up once.
#[derive(Drop)]
pub struct StorageMarks<'a> {
    pub(crate) slots: &'a Slots,
    pub(crate) table: &'a Table,
    pub(crate) marked: &'a [usize],
    pub(crate) number: u64,
    pub(crate) part: Option<Part>,
}

impl<'a> Model for StorageMarks<'a> {
    ghost use Rattle.intern_marks.specs.StorageMarks.{Swept, swept_code, IsSwept};
    ghost use Rattle.intern_marks.specs.Slotted.{names_at};

    ghost Value = { Swept };

    ghost coded = { swept_code };

    ghost view = { λ a. record { number = a.number; marked = names_at a.slots.now a.marked.now } };

    ghost invariant = { λ a. IsSwept a.slots.now a.table.now
        (names_at a.slots.now a.marked.now) a.number a.part };
}

impl Keeps for StorageMarks<'_> {
    ghost use Rattle.intern_marks.specs.Names.{has};

    ghost marked = { λ m b. has m.marked (record { storage = m.number; birth = b }) };

    fn is_marked(&self, spot: Spot) -> bool {
        let storage = self.number;
        let key = EntryKey { storage, spot };
        match find(self.slots, self.table, self.part, key) {
            Some(found) => found.flags.is_marked,
            None => false,
        }
    }
}
