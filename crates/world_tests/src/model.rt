//! A model of a world in plain lists: what each call must reply, and what is left after it.
use crate::rows::{Ask, Tell, Wording};
use crate::worlds::push;
use intern_world::{Kind, Which};
use ra_ap_intern::Refusal;
use std::alloc::Global;
use std::process::Abort;

/// A call with its reply, in which a key stands for its text.
pub type KeyRow = (Ask<u64>, Tell<u64>);

/// The key of the number 0's digits: those from here on are of the integers.
pub const INTEGERS: u64 = 1_000;

/// The key of the generated name of 0: those from here on are of the generated names.
pub const GENERATED: u64 = 2_000;

/// The key of the empty text.
const EMPTY: u64 = 3_000;

/// An entry: the key of its value, and its count.
#[derive(Clone, Copy)]
struct Entry {
    key: u64,
    count: u64,
}

/// What a slot holds: an owned handle or a reference of a birth, or the preset of a key. The symbol
/// of a text that is no preset is an owned handle.
#[derive(Clone, Copy, PartialEq)]
enum Held {
    Nothing,
    Owned(Which, u64),
    Reference(Which, u64),
    Preset(u64),
}

/// The entries of a part, by their births. None where an entry has gone.
#[derive(Drop)]
struct Part {
    births: Vec<Option<Entry>>,
}

/// The parts of a world, and what its slots hold. A value is known by its key.
#[derive(Drop)]
pub struct Model {
    counted: Part,
    values: Part,
    slices: Part,
    texts: Part,
    slots: Vec<Held>,
}

impl Held {
    /// The part of what is held, and whether it is owned.
    fn sort(self) -> Option<(Which, bool)> {
        match self {
            Held::Nothing => None,
            Held::Owned(which, _) => Some((which, true)),
            Held::Reference(which, _) => Some((which, false)),
            Held::Preset(_) => Some((Which::Symbols, true)),
        }
    }
}

impl Part {
    fn new(alloc: Global) -> Part {
        Part {
            births: Vec::new(alloc),
        }
    }

    fn get(&self, birth: u64) -> Option<Entry> {
        match self.births.get(birth as usize) {
            Some(entry) => *entry,
            None => None,
        }
    }

    fn set(&mut self, birth: u64, entry: Option<Entry>) {
        if let Some(place) = self.births.get_mut(birth as usize) {
            *place = entry;
        }
    }

    /// How many entries there are.
    fn len(&self) -> usize {
        self.births.iter().filter(|entry| entry.is_some()).count()
    }

    fn find(&self, key: u64) -> Option<u64> {
        for (birth, entry) in self.births.iter().enumerate() {
            if let Some(entry) = entry
                && entry.key == key
            {
                return Some(birth as u64);
            }
        }
        None
    }

    /// The birth of a key, and whether it was there. One that wasn't is added with count 0.
    fn intern(&mut self, rt: &impl Abort, key: u64) -> (u64, bool) {
        if let Some(birth) = self.find(key) {
            return (birth, true);
        }
        let birth = self.births.len() as u64;
        push(rt, &mut self.births, Some(Entry { key, count: 0 }));
        (birth, false)
    }

    /// Removes each entry that nothing counts. It tells how many stay, and how many go.
    fn collect(&mut self) -> (usize, usize) {
        let before = self.len();
        for place in self.births.iter_mut() {
            if let Some(Entry { count: 0, .. }) = place {
                *place = None;
            }
        }
        let left = self.len();
        (left, before.saturating_sub(left))
    }
}

impl Model {
    /// A model of a new world.
    pub fn new(alloc: Global) -> Model {
        Model {
            counted: Part::new(alloc),
            values: Part::new(alloc),
            slices: Part::new(alloc),
            texts: Part::new(alloc),
            slots: Vec::new(alloc),
        }
    }

    /// How many slots there are.
    pub fn len(&self) -> usize {
        self.slots.len()
    }

    pub fn new_counted(&mut self, rt: &impl Abort, key: u64) -> KeyRow {
        let (birth, was_there) = self.counted.intern(rt, key);
        let slot = self.own(rt, Which::Counted, birth);
        (Ask::New(key), made_of(slot, Which::Counted, key, was_there))
    }

    pub fn new_value(&mut self, rt: &impl Abort, key: u64) -> KeyRow {
        let (birth, was_there) = self.values.intern(rt, key);
        let slot = self.place(rt, Held::Reference(Which::Values, birth));
        (
            Ask::NewGc(key),
            made_of(Tell::Made(slot), Which::Values, key, was_there),
        )
    }

    pub fn new_slice(&mut self, rt: &impl Abort, key: u64) -> KeyRow {
        let (birth, was_there) = self.slices.intern(rt, key);
        let slot = self.place(rt, Held::Reference(Which::Slices, birth));
        (
            Ask::FromHeaderAndSlice(key, items_of(key)),
            made_of(Tell::Made(slot), Which::Slices, key, was_there),
        )
    }

    pub fn intern(&mut self, rt: &impl Abort, key: u64) -> KeyRow {
        (Ask::Intern(key), self.symbol(rt, key))
    }

    pub fn integer(&mut self, rt: &impl Abort, number: usize) -> KeyRow {
        let key = INTEGERS.wrapping_add(number as u64);
        (Ask::IntegerGet(number), self.symbol(rt, key))
    }

    pub fn generated(&mut self, rt: &impl Abort, number: usize) -> KeyRow {
        let key = GENERATED.wrapping_add(number as u64);
        (Ask::GeneratedGet(number), self.symbol(rt, key))
    }

    pub fn empty(&mut self, rt: &impl Abort) -> KeyRow {
        (Ask::Empty, self.symbol(rt, EMPTY))
    }

    pub fn put(&mut self, rt: &impl Abort) -> KeyRow {
        (Ask::PutEmpty, Tell::Made(self.place(rt, Held::Nothing)))
    }

    pub fn from_raw(&mut self, rt: &impl Abort, kind: Kind, birth: u64) -> KeyRow {
        let (which, is_owned) = match kind {
            Kind::Counted => (Which::Counted, true),
            Kind::CountedRef => (Which::Counted, false),
            Kind::Value => (Which::Values, true),
            Kind::ValueRef => (Which::Values, false),
        };
        let tell = match self.get(which, birth) {
            None => Tell::Refused(Refusal::Gone),
            Some(Entry { count: 0, .. }) if is_owned => Tell::Refused(Refusal::CountZero),
            Some(_) if is_owned => Tell::Made(self.place(rt, Held::Owned(which, birth))),
            Some(_) => Tell::Made(self.place(rt, Held::Reference(which, birth))),
        };
        (Ask::FromRaw(kind, birth), tell)
    }

    pub fn as_ref(&mut self, rt: &impl Abort, slot: usize) -> KeyRow {
        let tell = match self.held(slot) {
            Held::Owned(Which::Symbols, _) => Tell::WrongSlot,
            Held::Owned(which, birth) => {
                Tell::Made(self.place(rt, Held::Reference(which, birth)))
            }
            _ => Tell::WrongSlot,
        };
        (Ask::AsRef(slot), tell)
    }

    pub fn clone(&mut self, rt: &impl Abort, slot: usize) -> KeyRow {
        let tell = match self.held(slot) {
            Held::Owned(which, birth) => self.own(rt, which, birth),
            Held::Preset(key) => Tell::Made(self.place(rt, Held::Preset(key))),
            _ => Tell::WrongSlot,
        };
        (Ask::Clone(slot), tell)
    }

    pub fn to_owned(&mut self, rt: &impl Abort, slot: usize) -> KeyRow {
        let tell = match self.held(slot) {
            Held::Reference(which, birth) => self.own(rt, which, birth),
            _ => Tell::WrongSlot,
        };
        (Ask::ToOwned(slot), tell)
    }

    pub fn release(&mut self, slot: usize) -> KeyRow {
        let tell = match self.held(slot) {
            Held::Owned(which, birth) => self.release_of(which, birth),
            Held::Preset(_) => Tell::Done,
            _ => Tell::WrongSlot,
        };
        if let (Tell::Done | Tell::Freed(_, _), Some(held)) = (tell, self.slots.get_mut(slot)) {
            *held = Held::Nothing;
        }
        (Ask::Release(slot), tell)
    }

    pub fn decrement(&mut self, slot: usize) -> KeyRow {
        let tell = match self.held(slot) {
            Held::Reference(which, birth) => self.count_down(which, birth),
            Held::Owned(Which::Symbols, birth) => self.release_of(Which::Symbols, birth),
            Held::Preset(_) => Tell::Done,
            _ => Tell::WrongSlot,
        };
        (Ask::Decrement(slot), tell)
    }

    pub fn as_raw(&self, slot: usize) -> KeyRow {
        let tell = match self.held(slot) {
            Held::Reference(Which::Counted | Which::Values, birth) => Tell::Number(birth),
            _ => Tell::WrongSlot,
        };
        (Ask::AsRaw(slot), tell)
    }

    pub fn reads(&self, slot: usize, key: u64, which: Which) -> KeyRow {
        let ask = match which {
            Which::Counted => Ask::ReadsCounted(slot, key),
            Which::Values => Ask::ReadsValue(slot, key),
            Which::Slices => Ask::ReadsSlice(slot, key, items_of(key)),
            Which::Symbols => Ask::ReadsText(slot, key),
        };
        let tell = if self.part_of(slot) == Some(which) {
            Tell::Read(self.key_at(slot).map(|found| found == key))
        } else {
            Tell::WrongSlot
        };
        (ask, tell)
    }

    /// The call that asks whether a slot reads what the model has there.
    pub fn reads_all(&self, slot: usize) -> KeyRow {
        let which = self.part_of(slot).unwrap_or(Which::Counted);
        let key = self.key_at(slot).unwrap_or(0);
        self.reads(slot, key, which)
    }

    pub fn same(&self, n: usize, m: usize) -> KeyRow {
        let (one, other) = (self.held(n), self.held(m));
        let tell = if one.sort().is_some() && one.sort() == other.sort() {
            Tell::Truth(one == other)
        } else {
            Tell::WrongSlot
        };
        (Ask::Same(n, m), tell)
    }

    pub fn count(&self, slot: usize) -> KeyRow {
        let tell = match self.held(slot) {
            Held::Owned(which, birth) | Held::Reference(which, birth) => {
                Tell::Count(self.get(which, birth).map(|entry| entry.count))
            }
            Held::Preset(_) => Tell::Count(None),
            Held::Nothing => Tell::WrongSlot,
        };
        (Ask::Count(slot), tell)
    }

    pub fn len_of(&self, which: Which) -> KeyRow {
        let len = match which {
            Which::Counted => self.counted.len(),
            Which::Values => self.values.len(),
            Which::Slices => self.slices.len(),
            Which::Symbols => self.texts.len(),
        };
        (Ask::Len(which), Tell::Number(len as u64))
    }

    pub fn uint(&self, slot: usize) -> KeyRow {
        let tell = match self.part_of(slot) {
            Some(Which::Symbols) => Tell::Uint(self.key_at(slot).and_then(number_of)),
            _ => Tell::WrongSlot,
        };
        (Ask::AsUint(slot), tell)
    }

    pub fn collect(&mut self) -> KeyRow {
        let (values, no_values) = self.values.collect();
        let (slices, no_slices) = self.slices.collect();
        let visits = values.saturating_add(slices);
        let removed = no_values.saturating_add(no_slices);
        (Ask::Collect, Tell::Collected(visits, 0, removed))
    }
}

impl Model {
    /// What a slot holds. One that isn't there holds nothing.
    fn held(&self, slot: usize) -> Held {
        match self.slots.get(slot) {
            Some(held) => *held,
            None => Held::Nothing,
        }
    }

    /// The part of what a slot holds.
    fn part_of(&self, slot: usize) -> Option<Which> {
        self.held(slot).sort().map(|(which, _)| which)
    }

    /// The key that a slot reads.
    fn key_at(&self, slot: usize) -> Option<u64> {
        match self.held(slot) {
            Held::Owned(which, birth) | Held::Reference(which, birth) => {
                self.get(which, birth).map(|entry| entry.key)
            }
            Held::Preset(key) => Some(key),
            Held::Nothing => None,
        }
    }

    fn get(&self, which: Which, birth: u64) -> Option<Entry> {
        match which {
            Which::Counted => self.counted.get(birth),
            Which::Values => self.values.get(birth),
            Which::Slices => self.slices.get(birth),
            Which::Symbols => self.texts.get(birth),
        }
    }

    fn set(&mut self, which: Which, birth: u64, entry: Option<Entry>) {
        match which {
            Which::Counted => self.counted.set(birth, entry),
            Which::Values => self.values.set(birth, entry),
            Which::Slices => self.slices.set(birth, entry),
            Which::Symbols => self.texts.set(birth, entry),
        }
    }

    /// Puts this into a new slot.
    fn place(&mut self, rt: &impl Abort, held: Held) -> usize {
        let slot = self.slots.len();
        push(rt, &mut self.slots, held);
        slot
    }

    /// Puts the symbol of a key into a new slot.
    fn symbol(&mut self, rt: &impl Abort, key: u64) -> Tell<u64> {
        if is_preset(key) {
            Tell::Made(self.place(rt, Held::Preset(key)))
        } else {
            let (birth, _) = self.texts.intern(rt, key);
            self.own(rt, Which::Symbols, birth)
        }
    }

    /// Counts an entry once more, for a handle in a new slot.
    fn own(&mut self, rt: &impl Abort, which: Which, birth: u64) -> Tell<u64> {
        match self.get(which, birth) {
            None => Tell::Refused(Refusal::Gone),
            Some(Entry { key, count }) => {
                let count = count.saturating_add(1);
                self.set(which, birth, Some(Entry { key, count }));
                Tell::Made(self.place(rt, Held::Owned(which, birth)))
            }
        }
    }

    /// Counts an entry once less.
    fn count_down(&mut self, which: Which, birth: u64) -> Tell<u64> {
        match self.get(which, birth) {
            None => Tell::Refused(Refusal::Gone),
            Some(Entry { count: 0, .. }) => Tell::Refused(Refusal::CountZero),
            Some(Entry { key, count }) => {
                let count = count.saturating_sub(1);
                self.set(which, birth, Some(Entry { key, count }));
                Tell::Done
            }
        }
    }

    /// Counts an entry once less. One that isn't collected goes with its last count.
    fn release_of(&mut self, which: Which, birth: u64) -> Tell<u64> {
        match (which, self.get(which, birth)) {
            (Which::Counted, Some(Entry { key, count: 1 })) => {
                self.set(which, birth, None);
                Tell::Freed(which, key)
            }
            (Which::Symbols, Some(Entry { count: 1, .. })) => {
                self.set(which, birth, None);
                Tell::Done
            }
            _ => self.count_down(which, birth),
        }
    }
}

/// The reply of an interning that put a handle into a slot: what it took comes back if it was
/// there.
fn made_of(made: Tell<u64>, which: Which, key: u64, was_there: bool) -> Tell<u64> {
    match made {
        Tell::Made(slot) if was_there => Tell::MadeAgain(slot, which, key),
        _ => made,
    }
}

/// The items behind the header of a key.
fn items_of(key: u64) -> &'static [u32] {
    match key % 3 {
        0 => &[0, 0],
        1 => &[1, 1],
        _ => &[2, 2],
    }
}

impl Wording for u64 {
    fn text(&self, rt: &impl Abort, alloc: Global) -> String {
        text_of(rt, alloc, *self)
    }
}

/// The text of a key.
fn text_of(rt: &impl Abort, alloc: Global, key: u64) -> String {
    let text = if key < INTEGERS {
        format!(in alloc; "t{key}")
    } else if key < GENERATED {
        format!(in alloc; "{}", key - INTEGERS)
    } else if key < EMPTY {
        format!(in alloc; "<ra@gennew>{}", key - GENERATED)
    } else {
        String::from_str(alloc, "")
    };
    text.expect(rt, "memory")
}

/// Whether the text of a key is a preset.
fn is_preset(key: u64) -> bool {
    (INTEGERS..INTEGERS + 256).contains(&key)
        || (GENERATED..GENERATED + 256).contains(&key)
        || key == EMPTY
}

/// The number that the text of a key writes.
fn number_of(key: u64) -> Option<usize> {
    if INTEGERS <= key && key < GENERATED {
        Some((key - INTEGERS) as usize)
    } else {
        None
    }
}
