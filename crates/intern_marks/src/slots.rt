//! Births and flags in slots, storage after storage.
ghost use Rattle.std.specs.Prelude.{◌≡◌, ◌+◌, ◌-◌, ◌^◌, ◌<◌, ◌≤◌, ◌==◌, ℕ, length, set, replicate, ◌++◌, [], ◌∷◌};
ghost use Rattle.std.specs.Prelude.{true, false, Some, None, IsSome, IfOk, OnOk, if◌then◌else◌, slice_index_or, vec_len, vec_capacity, max, min};
ghost use Rattle.intern_store.specs.Named.{key_name};
ghost use Rattle.intern_store.specs.declared.names.Name.{Name as EntryName};
ghost use Rattle.intern_marks.specs.Parts.{Follow, last_part, row_at};

use crate::flags::{Flags, Registered};
use crate::part::{Part, extend, last_part, part_at};
use intern_buckets::PLACES;
use intern_store::{EntryKey, Name, Spot};
use std::alloc::{AllocError, Global};

/// A birth and flags in each slot that isn't vacant, and the parts whose slots they are.
#[derive(Drop)]
pub(crate) struct Slots {
    pub(crate) alloc: Global,
    pub(crate) parts: Vec<Part>,
    // none where the slot is vacant
    pub(crate) flags: Vec<Option<Flags>>,
    // whether each slot's birth is told by its part; if not, births are listed
    pub(crate) in_row: bool,
    pub(crate) births: Vec<u64>,
    ghost paired: { in_row ≡ false → length births.items ≡ length flags.items },
}

// Fills a slot behind all others, and those between with something else.
fn put<T: Copy>(items: &mut Vec<T>, slot: usize, between: T, item: T)
    requires behind { vec_len items.old ≤ slot }
    requires room { slot < vec_capacity items.old }
    ensures items { let gap = slot - vec_len items.old in
        items.new.items ≡ items.old.items ++ (replicate gap between ++ item ∷ []) }
    ensures len { vec_len items.new ≡ slot + 1 }
{
    items.resize(slot, between).unwrap();
    items.push_reserved(item);
}

// The births in row in so many slots, with room for that many in all.
fn births_in_row(
    alloc: Global,
    parts: &[Part],
    slots: usize,
    room: usize,
) -> Result<Vec<u64>, AllocError>
    requires { slots ≤ room }
    ensures len { IfOk result (λ l. vec_len l ≡ slots) }
    ensures room { IfOk result (λ l. room ≤ vec_capacity l) }
    ensures births { IfOk result (λ l. (i : ℕ) (x : EntryName) → i < slots
        → row_at parts.now i ≡ Some x → slice_index_or l.items i 0 ≡ x.birth) }
{
    let mut births = Vec::with_capacity(alloc, room)?;
    for slot in 0..slots {
        let birth = match part_at(parts, slot) {
            Some(part) => part.birth(slot),
            None => 0,
        };
        births.push_reserved(birth);
    }
    Ok(births)
}

impl Slots {
    ghost use Rattle.intern_marks.specs.Slotted.{flags_at, slot_count, registered_at, name_at, birth_in};
    ghost use Rattle.intern_marks.specs.Slotted.{HasRoom, IsNext, with_mark};

    /// No slots. They take no memory.
    pub(crate) fn new(alloc: Global) -> Slots
        ensures count { slot_count result ≡ 0 }
        ensures parts { result.parts.items ≡ [] }
        ensures row { result.in_row ≡ true }
    {
        Slots {
            alloc,
            parts: Vec::new(alloc),
            flags: Vec::new(alloc),
            in_row: true,
            births: Vec::new(alloc),
        }
    }

    /// No slots, with room for this many while births are in row.
    pub(crate) fn with_room(alloc: Global, slots: usize) -> Result<Slots, AllocError>
        ensures count { IfOk result (λ s. slot_count s ≡ 0) }
        ensures parts { IfOk result (λ s. s.parts.items ≡ []) }
        ensures row { IfOk result (λ s. s.in_row ≡ true) }
        ensures room { IfOk result (λ s. slots ≤ vec_capacity s.flags) }
    {
        Ok(Slots {
            alloc,
            parts: Vec::new(alloc),
            flags: Vec::with_capacity(alloc, slots)?,
            in_row: true,
            births: Vec::new(alloc),
        })
    }

    /// How many slots there are.
    pub(crate) fn len(&self) -> usize
        ensures { result ≡ slot_count self.now }
    {
        self.flags.len()
    }

    /// For how many slots there is room while births are in row.
    pub(crate) fn capacity(&self) -> usize
        ensures { result ≡ vec_capacity self.now.flags }
    {
        self.flags.capacity()
    }

    /// The flags in a slot that isn't vacant.
    pub(crate) fn flags(&self, slot: usize) -> Option<Flags>
        ensures { result ≡ flags_at self.now slot }
    {
        match self.flags.get(slot) {
            Some(flags) => *flags,
            None => None,
        }
    }

    /// The birth in a slot of a part.
    pub(crate) fn birth(&self, part: Part, slot: usize) -> u64
        requires { slot < slot_count self.now }
        ensures { result ≡ birth_in self.now part slot }
    {
        if self.in_row {
            part.birth(slot)
        } else {
            self.births[slot]
        }
    }

    /// What is registered in a slot.
    pub(crate) fn registered(&self, slot: usize) -> Option<Registered>
        ensures { result ≡ registered_at self.now slot }
    {
        let flags = self.flags(slot)?;
        let part = part_at(self.parts.as_slice(), slot)?;
        let name = Name {
            storage: part.number,
            birth: self.birth(part, slot),
        };
        Some(Registered { name, flags })
    }

    /// The key of the name in a slot that isn't vacant, with the place of the slot.
    pub(crate) fn key(&self, slot: usize) -> EntryKey
        requires { IsSome (registered_at self.now slot) }
        ensures { Some (key_name result) ≡ name_at self.now slot }
    {
        let part = part_at(self.parts.as_slice(), slot).unwrap();
        EntryKey {
            storage: part.number,
            spot: Spot {
                birth: self.birth(part, slot),
                place: slot - part.start,
            },
        }
    }

    // The last part, which is that of the key's storage: it begins where it isn't, in row with the
    // key. Where there is no memory, nothing has changed.
    #[tactic(auto, using(crate::proofs::Parted::begun_same, crate::proofs::Parted::begun_follow, crate::proofs::Parted::begun_last))]
    fn begin(&mut self, key: EntryKey) -> Result<Part, AllocError>
        ensures same { (i : ℕ) → registered_at self.new i ≡ registered_at self.old i }
        ensures count { slot_count self.new ≡ slot_count self.old }
        ensures follow { Follow 0 self.old.parts.items (slot_count self.old) →
            Follow 0 self.new.parts.items (slot_count self.new) }
        ensures last { IfOk result (λ p. last_part None self.new.parts.items ≡ Some p) }
        ensures number { IfOk result (λ p. p.number ≡ key.storage) }
    {
        if let Some(part) = last_part(self.parts.as_slice()) {
            if part.number == key.storage {
                return Ok(part);
            }
        }
        let slot = self.len();
        let part = Part {
            number: key.storage,
            start: slot,
            end: slot,
            first: key.spot.birth.wrapping_sub(key.spot.place as u64),
        };
        self.parts.push(part)?;
        Ok(part)
    }

    // The vacant slot for an entry of the last part: that of its place, or else the next.
    fn vacant(&self, part: Part, place: usize) -> usize
        ensures { result ≡ max (min (part.start + place) usize.MAX) (slot_count self.now) }
    {
        part.start.saturating_add(place).max(self.len())
    }

    // Makes room for this many slots.
    fn reserve(&mut self, slots: usize) -> Result<(), AllocError>
        requires { slot_count self.old ≤ slots }
        ensures parts { self.new.parts.items ≡ self.old.parts.items }
        ensures flags { self.new.flags.items ≡ self.old.flags.items }
        ensures row { self.new.in_row ≡ self.old.in_row }
        ensures births { self.new.births.items ≡ self.old.births.items }
        ensures room { OnOk result (HasRoom self.new slots) }
    {
        let more = slots - self.len();
        self.flags.reserve(more)?;
        if !self.in_row {
            self.births.reserve(more)?;
        }
        Ok(())
    }

    // Lists the births that were in row, with room for as many as there is for flags.
    fn list(&mut self) -> Result<(), AllocError>
        requires { self.old.in_row ≡ true }
        ensures same { (i : ℕ) → registered_at self.new i ≡ registered_at self.old i }
        ensures parts { self.new.parts.items ≡ self.old.parts.items }
        ensures flags { self.new.flags ≡ self.old.flags }
        ensures listed { OnOk result (self.new.in_row ≡ false) }
        ensures room { OnOk result (vec_capacity self.old.flags ≤ vec_capacity self.new.births) }
    {
        let parts = self.parts.as_slice();
        self.births = births_in_row(self.alloc, parts, self.len(), self.capacity())?;
        self.in_row = false;
        Ok(())
    }

    /// Makes room for an entry, and says which slot is to be its: that of its place, or else the
    /// next. Where its birth isn't in row, births are listed from now on. Where there is no memory,
    /// or no slot below 2^48 - 1 is left, nothing has changed.
    pub(crate) fn make_room(&mut self, key: EntryKey) -> Result<usize, AllocError>
        ensures same { (i : ℕ) → registered_at self.new i ≡ registered_at self.old i }
        ensures count { slot_count self.new ≡ slot_count self.old }
        ensures follow { Follow 0 self.old.parts.items (slot_count self.old) →
            Follow 0 self.new.parts.items (slot_count self.new) }
        ensures next { IfOk result (IsNext self.new (key_name key)) }
        ensures behind { IfOk result (λ slot. slot_count self.new ≤ slot) }
        ensures told { IfOk result (λ slot. slot + 1 < 2 ^ 48) }
        ensures room { IfOk result (λ slot. HasRoom self.new (slot + 1)) }
    {
        let part = self.begin(key)?;
        let slot = self.vacant(part, key.spot.place);
        if slot >= PLACES - 1 {
            return Err(AllocError);
        }
        self.reserve(slot + 1)?;
        if self.in_row && part.birth(slot) != key.spot.birth {
            self.list()?;
        }
        Ok(slot)
    }

    /// Fills a slot of the last part behind all others with an entry of its storage. Those between
    /// are vacant.
    #[tactic(auto, using(crate::proofs::Slotted::put_at, crate::proofs::Slotted::put_written))]
    pub(crate) fn put(&mut self, slot: usize, key: EntryKey, flags: Flags)
        requires next { IsNext self.old (key_name key) slot }
        requires behind { slot_count self.old ≤ slot }
        requires room { HasRoom self.old (slot + 1) }
        requires follow { Follow 0 self.old.parts.items (slot_count self.old) }
        ensures count { slot_count self.new ≡ slot + 1 }
        ensures follow { Follow 0 self.new.parts.items (slot + 1) }
        ensures put { (i : ℕ) → registered_at self.new i ≡ (if i == slot
            then Some (record { name = key_name key; flags = flags })
            else registered_at self.old i) }
    {
        put(&mut self.flags, slot, None, Some(flags));
        extend(&mut self.parts, slot + 1);
        if !self.in_row {
            put(&mut self.births, slot, 0, key.spot.birth);
        }
    }

    /// Marks what is in a slot, which has these flags.
    pub(crate) fn mark(&mut self, slot: usize, flags: Flags)
        requires { flags_at self.old slot ≡ Some flags }
        ensures parts { self.new.parts.items ≡ self.old.parts.items }
        ensures row { self.new.in_row ≡ self.old.in_row }
        ensures births { self.new.births.items ≡ self.old.births.items }
        ensures flags { self.new.flags.items
            ≡ set self.old.flags.items slot (Some (with_mark flags)) }
    {
        self.flags[slot] = Some(Flags {
            is_marked: true,
            ..flags
        });
    }
}
