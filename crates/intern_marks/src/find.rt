//! How a name is found: by its place, by its birth, by its hash, or by a look at all slots.
ghost use Rattle.std.specs.Prelude.{◌≡◌, ℕ, ◌+◌, ◌<◌, ◌≤◌, ◌^◌, true, false, Some, None, IfSome, IfNone, IsTrue};
ghost use Rattle.intern_store.specs.Named.{key_name};
ghost use Rattle.intern_store.specs.declared.names.Name.{Name as EntryName};
ghost use Rattle.intern_buckets.specs.Filling.{HasRoom};
ghost use Rattle.intern_buckets.specs.Leading.{leads};
ghost use Rattle.intern_marks.specs.Parts.{covers, Follow, part_of};
ghost use Rattle.intern_marks.specs.Slotted.{slot_count, registered_at, name_at, has_name, IsAt, IsThere};
ghost use Rattle.intern_marks.specs.Tied.{hash_of, IsFound, IsNowhere, IsLed};
ghost use Rattle.intern_marks.specs.declared.flags.Flags.{Flags};

use crate::flags::Registered;
use crate::found::{Found, Table};
use crate::part::{Part, part_of};
use crate::slots::Slots;
use intern_buckets::{Buckets, Test, mix, search};
use intern_store::{EntryKey, Name};

// The hash of a name.
fn hash_of(name: Name) -> u64
    ensures { result ≡ hash_of name }
{
    mix(name.birth.wrapping_add(mix(name.storage)))
}

// Slots of a name.
#[derive(Clone, Copy)]
struct OfName<'a> {
    slots: &'a Slots,
    name: Name,
}

impl<'a> Test for OfName<'a> {
    ghost passes = { λ t i. has_name t.name (registered_at t.slots.now i) };

    fn passes(&self, slot: usize) -> bool {
        match self.slots.registered(slot) {
            Some(known) => self.name == known.name,
            None => false,
        }
    }
}

// Finds a name by its hash.
#[cold]
fn search_for(slots: &Slots, buckets: &Buckets, name: Name) -> Option<Found>
    ensures found { IfSome result (λ f. IsFound slots.now name f) }
    ensures none { IfNone result ((i : ℕ) (f : Flags) → i + 1 < 2 ^ 48
        → leads buckets.now (hash_of name) i ≡ true → IsAt slots.now i name f → ⊥) }
{
    let slot = search(buckets, hash_of(name), &OfName { slots, name })?;
    let flags = slots.flags(slot)?;
    Some(Found { slot, flags })
}

// Finds a name by its birth in a part, where births are in row.
fn found_in(slots: &Slots, part: Part, name: Name) -> Option<Found>
    requires row { slots.now.in_row ≡ true }
    requires here { IsThere slots.now part }
    ensures found { IfSome result (λ f. IsFound slots.now name f) }
    ensures none { IfNone result ((i : ℕ) (f : Flags) → covers i part ≡ true
        → IsAt slots.now i name f → ⊥) }
{
    if part.number != name.storage {
        return None;
    }
    let slot = part.slot_of_birth(name.birth)?;
    let flags = slots.flags(slot)?;
    Some(Found { slot, flags })
}

// Finds a name by its birth, where births are in row.
#[cold]
#[tactic(auto, using(crate::proofs::Parted::index_covers, crate::proofs::Parted::index_of, crate::proofs::Slotted::part_of_name, std::proofs::lemmas::Option::slice_get_read))]
fn find_in_row(slots: &Slots, name: Name) -> Option<Found>
    requires row { slots.now.in_row ≡ true }
    requires follow { Follow 0 slots.now.parts.items (slot_count slots.now) }
    ensures found { IfSome result (λ f. IsFound slots.now name f) }
    ensures none { IfNone result (IsNowhere slots.now name) }
{
    for index in 0..slots.parts.len() {
        let found = found_in(slots, slots.parts[index], name);
        if found.is_some() {
            return found;
        }
    }
    None
}

// Finds a name by a look at all slots.
fn scan_for(slots: &Slots, name: Name) -> Option<Found>
    ensures found { IfSome result (λ f. IsFound slots.now name f) }
    ensures none { IfNone result (IsNowhere slots.now name) }
{
    for slot in 0..slots.len() {
        if let Some(Registered { name: other, flags }) = slots.registered(slot) {
            if other == name {
                return Some(Found { slot, flags });
            }
        }
    }
    None
}

// Makes buckets lead to each name's slot, and says whether there was room for that.
fn fill_buckets(slots: &Slots, buckets: &mut Buckets) -> bool
    requires { slot_count slots.now < 2 ^ 48 }
    ensures room { HasRoom buckets.new → IsTrue result }
    ensures led { IsTrue result → (i : ℕ) (x : EntryName) →
        name_at slots.now i ≡ Some x → leads buckets.new (hash_of x) i ≡ true }
{
    for slot in 0..slots.len() {
        if let Some(known) = slots.registered(slot) {
            if !buckets.has_room() {
                return false;
            }
            buckets.enter(hash_of(known.name), slot);
        }
    }
    true
}

/// Fills a table where it has the room for that, unless births are in row. It takes no memory.
pub(crate) fn fill(slots: &Slots, table: &mut Table)
    requires { slot_count slots.now < 2 ^ 48 }
    ensures led { IsLed slots.now table.new }
    ensures filled { slots.now.in_row ≡ false → HasRoom table.new.buckets →
        table.new.is_filled ≡ true }
{
    table.is_filled = !slots.in_row && fill_buckets(slots, &mut table.buckets);
}

// The name of a key, where it is in the slot of its place in a part.
#[tactic(auto, using(crate::proofs::Parted::part_found, crate::proofs::Parted::part_number, crate::proofs::Slotted::told_at))]
fn hinted(slots: &Slots, part: Option<Part>, key: EntryKey) -> Option<Found>
    requires follow { Follow 0 slots.now.parts.items (slot_count slots.now) }
    requires part { part ≡ part_of slots.now.parts.items key.storage }
    ensures { IfSome result (λ f. IsFound slots.now (key_name key) f) }
{
    let part = part?;
    let slot = part.slot(key.spot.place)?;
    let flags = slots.flags(slot)?;
    if slots.birth(part, slot) == key.spot.birth {
        Some(Found { slot, flags })
    } else {
        None
    }
}

// Finds a name wherever it is.
#[cold]
#[tactic(auto, using(crate::proofs::Slotted::at_below))]
fn search_all(slots: &Slots, table: &Table, name: Name) -> Option<Found>
    requires follow { Follow 0 slots.now.parts.items (slot_count slots.now) }
    requires led { IsLed slots.now table.now }
    requires told { slot_count slots.now < 2 ^ 48 }
    ensures found { IfSome result (λ f. IsFound slots.now name f) }
    ensures none { IfNone result (IsNowhere slots.now name) }
{
    if slots.in_row {
        find_in_row(slots, name)
    } else if table.is_filled {
        search_for(slots, &table.buckets, name)
    } else {
        scan_for(slots, name)
    }
}

/// Finds a name: in the slot of its place in the part of its storage, or else wherever it is.
pub(crate) fn find(slots: &Slots, table: &Table, part: Option<Part>, key: EntryKey) -> Option<Found>
    requires follow { Follow 0 slots.now.parts.items (slot_count slots.now) }
    requires part { part ≡ part_of slots.now.parts.items key.storage }
    requires led { IsLed slots.now table.now }
    requires told { slot_count slots.now < 2 ^ 48 }
    ensures found { IfSome result (λ f. IsFound slots.now (key_name key) f) }
    ensures none { IfNone result (IsNowhere slots.now (key_name key)) }
{
    match hinted(slots, part, key) {
        Some(found) => Some(found),
        None => search_all(slots, table, key.name()),
    }
}

/// Finds a name. Where it isn't in the slot of its place, the table is filled first.
pub(crate) fn locate(slots: &Slots, table: &mut Table, key: EntryKey) -> Option<Found>
    requires follow { Follow 0 slots.now.parts.items (slot_count slots.now) }
    requires led { IsLed slots.now table.old }
    requires told { slot_count slots.now < 2 ^ 48 }
    ensures found { IfSome result (λ f. IsFound slots.now (key_name key) f) }
    ensures none { IfNone result (IsNowhere slots.now (key_name key)) }
    ensures led { IsLed slots.now table.new }
{
    let part = part_of(slots.parts.as_slice(), key.storage);
    match hinted(slots, part, key) {
        Some(found) => Some(found),
        None => fill_and_search(slots, table, key.name()),
    }
}

// Finds a name wherever it is, once the table is filled.
#[cold]
fn fill_and_search(slots: &Slots, table: &mut Table, name: Name) -> Option<Found>
    requires follow { Follow 0 slots.now.parts.items (slot_count slots.now) }
    requires led { IsLed slots.now table.old }
    requires told { slot_count slots.now < 2 ^ 48 }
    ensures found { IfSome result (λ f. IsFound slots.now name f) }
    ensures none { IfNone result (IsNowhere slots.now name) }
    ensures led { IsLed slots.now table.new }
{
    if !table.is_filled {
        fill(slots, table);
    }
    search_all(slots, table, name)
}
