//! What is registered, what is marked, and what is to be visited next.
ghost use Rattle.std.specs.Prelude.{◌≡◌, ◌≤◌, ◌<◌, if◌then◌else◌, true, false, Some, None, IfSome, IfNone, IfOk, OnOk, OnErr, length, slice_get};
ghost use Rattle.std.specs.Option.{option_map};
ghost use Rattle.std.specs.FinMap as map;
ghost use Rattle.std.specs.declared.ops.ControlFlow.TheVariants.{Continue, Break};
ghost use Rattle.intern_store.specs.Named.{key_name};
ghost use Rattle.intern_marks.specs.Marks.{IsSound, fresh, added, is_next, placed, mark, marks_now, untold, root, begun};
ghost use Rattle.intern_marks.specs.Names.{has};

use crate::find::{fill, find, locate};
use crate::flags::Flags;
use crate::found::Table;
use crate::part::part_of;
use crate::slots::Slots;
use crate::storage_marks::StorageMarks;
use intern_store::EntryKey;
use std::alloc::{AllocError, Global};
use std::marker::Model;
use std::ops::ControlFlow;

/// The names of a family, which of them are marked, and which of these were visited.
///
/// Where entries are added in the order of their places, each is in the slot of its place, counted
/// from the first slot of its storage. A name is looked up there first. While births are in row,
/// which is as long as in each storage birth and place differ by one number, any other name is in
/// the slot that its birth tells; afterwards births are listed, and it is looked up in a hash
/// table. So a mark call and a visit take expected constant time, beside a walk over the storages.
/// The table is filled when a mark call or a root first asks it, in time linear in the slots. Only
/// `with_room` and `add` take memory: 3 bytes a slot and 8 an entry, and 17 more a slot once births
/// aren't in row.
#[derive(Drop)]
pub struct Marks {
    slots: Slots,
    table: Table,
    size: usize,
    // in the order in which they were marked
    marked: Vec<usize>,
    visits: usize,
    calls: u64,
}

impl Model for Marks {
    ghost use Rattle.intern_marks.specs.Marks.{Marks, marks_code};

    ghost Value = { Marks };

    ghost coded = { marks_code };

    ghost use Rattle.std.specs.Prelude.{vec_capacity};
    ghost use Rattle.intern_marks.specs.Slotted.{names_in, names_at};
    ghost use Rattle.intern_marks.specs.Tied.{IsKept};

    ghost view = { λ a. record {
      registered = names_in a.slots;
      marked = names_at a.slots a.marked.items;
      visits = a.visits;
      calls = a.calls;
    } };

    ghost invariant = { λ a. IsKept a.slots a.table a.size a.marked.items a.visits
        (vec_capacity a.marked) };
}

// The slot at an index.
fn slot_at(slots: &[usize], index: usize) -> Option<usize>
    ensures { result ≡ slice_get slots.now index }
{
    slots.get(index).copied()
}

impl Marks {
    /// Nothing is registered. It takes no memory.
    #[tactic(auto, using(crate::proofs::Tied::nothing_names))]
    pub fn new(alloc: Global) -> Marks
        ensures { result ≡ fresh map.empty }
    {
        Marks {
            slots: Slots::new(alloc),
            table: Table::new(alloc),
            size: 0,
            marked: Vec::new(alloc),
            visits: 0,
            calls: 0,
        }
    }

    /// Nothing is registered, with room for this many entries. Past them it works on, but slows
    /// down. Where there is no memory, `AllocError`.
    #[tactic(auto, using(crate::proofs::Tied::nothing_names))]
    pub fn with_room(alloc: Global, entries: usize) -> Result<Marks, AllocError>
        ensures { IfOk result (λ m. m ≡ fresh map.empty) }
    {
        Ok(Marks {
            slots: Slots::with_room(alloc, entries)?,
            table: Table::new(alloc),
            size: 0,
            marked: Vec::with_capacity(alloc, entries)?,
            visits: 0,
            calls: 0,
        })
    }

    /// Adds an entry, whose name isn't registered, with its flags. It is the next that is marked,
    /// if the flags say so. Where there is no memory, or no slot is left, `AllocError`, and nothing
    /// has changed.
    ///
    /// The entry's slot is that of its place. Slots before it that no entry takes stay vacant, and
    /// where the slot is taken or passed over already, the entry's is the next.
    pub fn add(&mut self, key: EntryKey, flags: Flags) -> Result<(), AllocError>
        requires { map.get self.old.registered (key_name key) ≡ None }
        ensures ok { OnOk result
            (self.new ≡ added self.old (key_name key) flags.is_counted flags.is_marked) }
        ensures err { OnErr result (self.new ≡ self.old) }
    {
        let slot = self.slots.make_room(key)?;
        self.table.make_room(&self.slots)?;
        self.marked.reserve(self.size + 1 - self.marked.len())?;
        self.slots.put(slot, key, flags);
        self.size += 1;
        if flags.is_marked {
            self.marked.push_reserved(slot);
        }
        Ok(())
    }

    /// Makes `is_marked` take expected constant time for names without places too, in time linear
    /// in the slots unless births are in row. A mark call for such a name does so itself. It takes
    /// no memory.
    ///
    /// Where the hash table has no room for all entries, which takes hashes that are nearly all
    /// alike, or more entries than it was made for, it stays out of use, and searches look at all
    /// slots.
    pub fn fill(&mut self)
        ensures { self.new ≡ self.old }
    {
        fill(&self.slots, &mut self.table);
    }

    /// How many names are registered. Only these are marked, each once, and what was visited is
    /// marked.
    pub fn len(&self) -> usize
        ensures size { result ≡ map.len self.now.registered }
        ensures sound { IsSound self.now.registered self.now.marked }
        ensures within { length self.now.marked ≤ result }
        ensures visited { self.now.visits ≤ length self.now.marked }
    {
        self.size
    }

    /// Whether a name is marked.
    pub fn is_marked(&self, key: EntryKey) -> bool
        ensures { result ≡ has self.now.marked (key_name key) }
    {
        let part = part_of(self.slots.parts.as_slice(), key.storage);
        match find(&self.slots, &self.table, part, key) {
            Some(found) => found.flags.is_marked,
            None => false,
        }
    }

    /// The marks of the storage of a number, for its sweep.
    pub fn of_storage(&self, number: u64) -> StorageMarks<'_>
        ensures number { result.number ≡ number }
        ensures marked { result.marked ≡ self.now.marked }
    {
        StorageMarks {
            slots: &self.slots,
            table: &self.table,
            marked: self.marked.as_slice(),
            number,
            part: part_of(self.slots.parts.as_slice(), number),
        }
    }

    /// How many visits began.
    pub fn visits(&self) -> usize
        ensures { result ≡ self.now.visits }
    {
        self.visits
    }

    /// How many mark calls there were, up to the greatest number.
    pub fn mark_calls(&self) -> u64
        ensures { result ≡ self.now.calls }
    {
        self.calls
    }

    // Marks a name where it is registered and isn't marked, and isn't counted unless counted names
    // may be. Says whether it did.
    fn place(&mut self, key: EntryKey, counted_too: bool) -> bool
        ensures state { self.new ≡ placed counted_too self.old (key_name key) }
        ensures answer { result ≡ is_next counted_too self.old (key_name key) }
    {
        let Some(found) = locate(&self.slots, &mut self.table, key) else {
            return false;
        };
        let is_next = found.flags.is_next(counted_too);
        if is_next {
            self.slots.mark(found.slot, found.flags);
            self.marked.push_reserved(found.slot);
        }
        is_next
    }

    /// Marks a name where it is registered, isn't counted and isn't marked, and says so by
    /// `Continue`. It takes no memory.
    #[tactic(auto, unfolding(crate::specs::Marks::placed))]
    pub fn mark(&mut self, key: EntryKey) -> ControlFlow<()>
        ensures state { self.new ≡ mark self.old (key_name key) }
        ensures answer { result
            ≡ (if marks_now self.old (key_name key) then Continue tt else Break tt) }
    {
        let is_next = self.place(key, false);
        self.calls = self.calls.saturating_add(1);
        if is_next {
            ControlFlow::Continue(())
        } else {
            ControlFlow::Break(())
        }
    }

    /// Forgets how many mark calls there were.
    pub fn forget_calls(&mut self)
        ensures { self.new ≡ untold self.old }
    {
        self.calls = 0;
    }

    /// Marks a name where it is registered and isn't marked. This is no mark call. It takes no
    /// memory.
    pub fn root(&mut self, key: EntryKey)
        ensures { self.new ≡ root self.old (key_name key) }
    {
        self.place(key, true);
    }

    /// The first pending name, whose visit begins. It takes no memory.
    pub fn next(&mut self) -> Option<EntryKey>
        ensures name { option_map key_name result ≡ slice_get self.old.marked self.old.visits }
        ensures some { IfSome result (λ _. self.new ≡ begun self.old) }
        ensures none { IfNone result (self.new ≡ self.old) }
        ensures within { IfSome result (λ _. self.old.visits < map.len self.old.registered) }
    {
        let slot = slot_at(self.marked.as_slice(), self.visits)?;
        self.visits += 1;
        Some(self.slots.key(slot))
    }
}
