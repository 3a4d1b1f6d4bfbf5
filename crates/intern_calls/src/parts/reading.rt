//! The calls that read.
ghost use Rattle.std.specs.Prelude.{◌≡◌, ◌+◌, ◌<◌, ◌≤◌, true, false};
ghost use Rattle.intern_calls.specs.Answer.{tells, truth, tells_birth, reads_counted, reads_value, reads_slice, reads_text, tells_count, len_of, tells_uint};
ghost use Rattle.intern_calls.specs.Held.{held_at, same};
ghost use Rattle.ra_ap_intern.specs.Handle.{name_of, ref_name};
ghost use Rattle.ra_ap_intern.specs.Named.{same_name};
ghost use Rattle.ra_ap_intern.specs.Symbols.{same_named, symbol_name};
ghost use Rattle.intern_calls.specs.Parts.{world_of};
ghost use Rattle.intern_calls.specs.Step.{Says};
ghost use Rattle.ra_ap_intern.specs.Sliced.{sliced_eq};
ghost use Rattle.ra_ap_intern.specs.Slices.{slice_of};

use super::Parts;
use crate::call::Which;
use crate::reply::Reply;
use crate::slot::Slot;
use ra_ap_intern::sym::Integer;
use ra_ap_intern::{Internable, Owned, Ref, SliceInternable, Symbol};

impl<C: Internable, G: Internable, S: SliceInternable> Parts<C, G, S> {
    /// The birth that a reference to a value names.
    pub fn birth(&self, n: usize) -> Reply<C, G, S::Header>
        ensures { Says (tells_birth (world_of self.now) (held_at self.now.slots.held n)) result
            (world_of self.now) }
    {
        match self.slots.get(n) {
            Some(Slot::CountedRef(reference)) => Reply::Number(reference.as_raw()),
            Some(Slot::ValueRef(reference)) => Reply::Number(reference.as_raw()),
            _ => Reply::WrongSlot,
        }
    }

    /// Whether a handle reads this counted value.
    pub fn reads_counted(&self, n: usize, value: &C) -> Reply<C, G, S::Header>
        ensures { Says (reads_counted C.eq (world_of self.now) (held_at self.now.slots.held n)
            value.now) result (world_of self.now) }
    {
        let read = match self.slots.get(n) {
            Some(Slot::Counted(handle)) => handle.get(&self.counted),
            Some(Slot::CountedRef(reference)) => reference.get(&self.counted),
            _ => return Reply::WrongSlot,
        };
        Reply::Read(read.map(|found| found == value))
    }

    /// Whether a handle reads this collected value.
    pub fn reads_value(&self, n: usize, value: &G) -> Reply<C, G, S::Header>
        ensures { Says (reads_value G.eq (world_of self.now) (held_at self.now.slots.held n)
            value.now) result (world_of self.now) }
    {
        let read = match self.slots.get(n) {
            Some(Slot::Value(handle)) => handle.get(&self.family.first),
            Some(Slot::ValueRef(reference)) => reference.get(&self.family.first),
            _ => return Reply::WrongSlot,
        };
        Reply::Read(read.map(|found| found == value))
    }

    /// Whether a handle reads this header with these items.
    pub fn reads_slice(
        &self,
        n: usize,
        header: &S::Header,
        items: &[S::SliceType],
    ) -> Reply<C, G, S::Header>
        ensures { let eq = sliced_eq S.Header.eq S.SliceType.eq in
            Says (reads_slice eq (world_of self.now) (held_at self.now.slots.held n)
            (slice_of header.now items.now)) result (world_of self.now) }
    {
        let read = match self.slots.get(n) {
            Some(Slot::Slice(handle)) => handle.get(&self.family.second),
            Some(Slot::SliceRef(reference)) => reference.get(&self.family.second),
            _ => return Reply::WrongSlot,
        };
        Reply::Read(read.map(|found| found.header.header == header && found.slice == items))
    }

    /// Whether a symbol reads this text.
    pub fn reads_text(&self, n: usize, text: &str) -> Reply<C, G, S::Header>
        ensures { Says (reads_text (world_of self.now) (held_at self.now.slots.held n) text.now)
            result (world_of self.now) }
    {
        match self.slots.get(n) {
            Some(Slot::Symbol(symbol)) => {
                Reply::Read(symbol.as_str(&self.table).map(|found| found == text))
            }
            _ => Reply::WrongSlot,
        }
    }

    /// The count of the entry that a handle names.
    pub fn count(&self, n: usize) -> Reply<C, G, S::Header>
        ensures { Says (tells_count (world_of self.now) (held_at self.now.slots.held n)) result
            (world_of self.now) }
    {
        let count = match self.slots.get(n) {
            Some(Slot::Counted(handle)) => self.counted.count(handle.as_ref()),
            Some(Slot::CountedRef(reference)) => self.counted.count(*reference),
            Some(Slot::Value(handle)) => self.family.first.count(handle.as_ref()),
            Some(Slot::ValueRef(reference)) => self.family.first.count(*reference),
            Some(Slot::Slice(handle)) => self.family.second.count(handle.as_ref()),
            Some(Slot::SliceRef(reference)) => self.family.second.count(*reference),
            Some(Slot::Symbol(symbol)) => self.table.count(symbol),
            Some(Slot::Empty) | None => return Reply::WrongSlot,
        };
        Reply::Count(count)
    }

    /// How many entries there are.
    pub fn len(&self, which: Which) -> Reply<C, G, S::Header>
        ensures { result ≡ Reply.Number (len_of (world_of self.now) which) }
    {
        let len = match which {
            Which::Counted => self.counted.len(),
            Which::Values => self.family.first.len(),
            Which::Slices => self.family.second.len(),
            Which::Symbols => self.table.len(),
        };
        Reply::Number(len as u64)
    }

    /// The number that a symbol's text writes.
    pub fn uint(&self, n: usize) -> Reply<C, G, S::Header>
        ensures { Says (tells_uint (world_of self.now) (held_at self.now.slots.held n)) result
            (world_of self.now) }
    {
        match self.slots.get(n) {
            Some(Slot::Symbol(symbol)) => Reply::Uint(Integer::as_uint(symbol, &self.table)),
            _ => Reply::WrongSlot,
        }
    }

    /// Whether two handles of one kind are equal.
    pub fn same(&self, n: usize, m: usize) -> Reply<C, G, S::Header>
        ensures { result ≡ truth (same (held_at self.now.slots.held n)
            (held_at self.now.slots.held m)) }
    {
        let equal = match (self.slots.get(n), self.slots.get(m)) {
            (Some(Slot::Counted(a)), Some(Slot::Counted(b))) => are_owned_equal(a, b),
            (Some(Slot::CountedRef(a)), Some(Slot::CountedRef(b))) => are_refs_equal(a, b),
            (Some(Slot::Value(a)), Some(Slot::Value(b))) => are_owned_equal(a, b),
            (Some(Slot::ValueRef(a)), Some(Slot::ValueRef(b))) => are_refs_equal(a, b),
            (Some(Slot::Slice(a)), Some(Slot::Slice(b))) => are_owned_equal(a, b),
            (Some(Slot::SliceRef(a)), Some(Slot::SliceRef(b))) => are_refs_equal(a, b),
            (Some(Slot::Symbol(a)), Some(Slot::Symbol(b))) => are_symbols_equal(a, b),
            _ => return Reply::WrongSlot,
        };
        Reply::Truth(equal)
    }
}

fn are_owned_equal<K>(a: &Owned<K>, b: &Owned<K>) -> bool
    ensures { result ≡ same_name (name_of a.now) (name_of b.now) }
{
    a == b
}

fn are_refs_equal<K>(a: &Ref<K>, b: &Ref<K>) -> bool
    ensures { result ≡ same_name (ref_name a.now) (ref_name b.now) }
{
    a == b
}

fn are_symbols_equal(a: &Symbol, b: &Symbol) -> bool
    ensures { result ≡ same_named (symbol_name a.now) (symbol_name b.now) }
{
    a == b
}
