//! The calls that make handles of values and of births.
ghost use Rattle.std.specs.Prelude.{◌≡◌, ◌+◌, ◌<◌, ◌≤◌, ◌⊎◌, true, false, decimal, IfOk};
ghost use Rattle.ra_ap_intern.specs.Outcome.{Owes};
ghost use Rattle.ra_ap_intern.specs.Presets.{generated_text};
ghost use Rattle.intern_calls.specs.Held.{seen};
ghost use Rattle.intern_calls.specs.Held.Held.{symbol};
ghost use Rattle.ra_ap_intern.specs.Sliced.{sliced_eq};
ghost use Rattle.ra_ap_intern.specs.Symbols.{symbol_name};
ghost use Rattle.ra_ap_intern.specs.declared.symbol.symbols.TheConstants as sym;
ghost use Rattle.intern_calls.specs.Answer.{makes, stores, stores_gc, stores_slice, stores_text, takes_over, raw_held, due_raw, counted_back, value_back, header_back};
ghost use Rattle.intern_calls.specs.Parts.{world_of};
ghost use Rattle.intern_calls.specs.Step.{Says, Lacks, counted_wanted, value_wanted, slice_wanted, text_wanted};

use super::Parts;
use crate::call::Kind;
use crate::reply::{Back, Reply};
use crate::slot::Slot;
use ra_ap_intern::sym::{Integer, RaGeneratedName};
use ra_ap_intern::{
    Internable, Interned, InternedRef, InternedSlice, Refusal, Refused, SliceInternable, Symbol,
};

/// What came back of a counted value.
pub fn back_of_counted<C, G, H>(value: Option<C>) -> Back<C, G, H>
    ensures { result ≡ counted_back value }
{
    match value {
        None => Back::Nothing,
        Some(value) => Back::Counted(value),
    }
}

/// What came back of a collected value.
pub fn back_of_value<C, G, H>(value: Option<G>) -> Back<C, G, H>
    ensures { result ≡ value_back value }
{
    match value {
        None => Back::Nothing,
        Some(value) => Back::Value(value),
    }
}

/// What came back of a slice.
pub fn back_of_header<C, G, H>(header: Option<H>) -> Back<C, G, H>
    ensures { result ≡ header_back header }
{
    match header {
        None => Back::Nothing,
        Some(header) => Back::Header(header),
    }
}

impl<C: Internable, G: Internable, S: SliceInternable> Parts<C, G, S> {
    /// Interns a counted value: an owned handle.
    pub fn new_counted(&mut self, value: C) -> Reply<C, G, S::Header>
        requires mode { C.Internable.USE_GC ≡ false }
        requires room { 0 < self.old.slots.room }
        ensures step { Says (stores C.eq (world_of self.old) value) result (world_of self.new)
            ⊎ Lacks (counted_wanted C.eq (world_of self.old) value)
            (world_of self.old) result (world_of self.new) }
        ensures room { self.old.slots.room ≤ self.new.slots.room + 1 }
    {
        match Interned::new(&mut self.counted, value) {
            Err(Refused { why, back }) => Reply::Refused(why, Back::Counted(back)),
            Ok((handle, back)) => self
                .slots
                .place(Slot::Counted(handle), back_of_counted(back)),
        }
    }

    /// Interns a collected value: a reference.
    pub fn new_value(&mut self, value: G) -> Reply<C, G, S::Header>
        requires mode { G.Internable.USE_GC ≡ true }
        requires room { 0 < self.old.slots.room }
        ensures step { Says (stores_gc G.eq (world_of self.old) value) result (world_of self.new)
            ⊎ Lacks (value_wanted G.eq (world_of self.old) value)
            (world_of self.old) result (world_of self.new) }
        ensures room { self.old.slots.room ≤ self.new.slots.room + 1 }
    {
        match Interned::new_gc(&mut self.family.first, value) {
            Err(Refused { why, back }) => Reply::Refused(why, Back::Value(back)),
            Ok((handle, back)) => self
                .slots
                .place(Slot::ValueRef(handle), back_of_value(back)),
        }
    }

    /// Interns a slice: a reference.
    pub fn new_slice(&mut self, header: S::Header, items: &[S::SliceType]) -> Reply<C, G, S::Header>
        requires mode { S.SliceInternable.USE_GC ≡ true }
        requires room { 0 < self.old.slots.room }
        ensures step { let eq = sliced_eq S.Header.eq S.SliceType.eq in
            Says (stores_slice eq (world_of self.old) header items.now) result (world_of self.new)
            ⊎ Lacks (slice_wanted eq (world_of self.old) header items.now)
            (world_of self.old) result (world_of self.new) }
        ensures room { self.old.slots.room ≤ self.new.slots.room + 1 }
    {
        match InternedSlice::from_header_and_slice(&mut self.family.second, header, items) {
            Err(Refused { why, back }) => Reply::Refused(why, Back::Header(back)),
            Ok((handle, back)) => self
                .slots
                .place(Slot::SliceRef(handle), back_of_header(back)),
        }
    }

    /// Interns a text: a symbol.
    pub fn new_symbol(&mut self, text: &str) -> Reply<C, G, S::Header>
        requires { 0 < self.old.slots.room }
        ensures step { Says (stores_text (world_of self.old) text.now) result (world_of self.new)
            ⊎ Lacks (text_wanted (world_of self.old) text.now)
            (world_of self.old) result (world_of self.new) }
        ensures room { self.old.slots.room ≤ self.new.slots.room + 1 }
    {
        let interned = Symbol::intern(&mut self.table, text);
        self.slots.place_symbol(interned)
    }

    /// The symbol of a number's digits.
    pub fn new_integer(&mut self, n: usize) -> Reply<C, G, S::Header>
        requires { 0 < self.old.slots.room }
        ensures step { Says (stores_text (world_of self.old) (decimal n)) result
            (world_of self.new)
            ⊎ Lacks (text_wanted (world_of self.old) (decimal n))
            (world_of self.old) result (world_of self.new) }
        ensures room { self.old.slots.room ≤ self.new.slots.room + 1 }
    {
        let interned = Integer::get(&mut self.table, n);
        self.slots.place_symbol(interned)
    }

    /// The symbol of a generated name.
    pub fn new_generated(&mut self, n: usize) -> Reply<C, G, S::Header>
        requires { 0 < self.old.slots.room }
        ensures step { Says (stores_text (world_of self.old) (generated_text n)) result
            (world_of self.new)
            ⊎ Lacks (text_wanted (world_of self.old) (generated_text n))
            (world_of self.old) result (world_of self.new) }
        ensures room { self.old.slots.room ≤ self.new.slots.room + 1 }
    {
        let interned = RaGeneratedName::get(&mut self.table, n);
        self.slots.place_symbol(interned)
    }

    /// The symbol of the empty text, which is a preset.
    pub fn new_empty(&mut self) -> Reply<C, G, S::Header>
        requires { 0 < self.old.slots.room }
        ensures says { Says (makes (world_of self.old) (symbol (symbol_name sym._empty_sym))
            Back.Nothing) result (world_of self.new) }
        ensures room { self.old.slots.room ≤ self.new.slots.room + 1 }
    {
        self.slots
            .place(Slot::Symbol(Symbol::empty()), Back::Nothing)
    }

    /// A slot that is handed in.
    pub fn put(&mut self, slot: Slot<C, G, S>) -> Reply<C, G, S::Header>
        requires { 0 < self.old.slots.room }
        ensures says { Says (makes (world_of self.old) (seen slot) Back.Nothing) result
            (world_of self.new) }
        ensures room { self.old.slots.room ≤ self.new.slots.room + 1 }
    {
        self.slots.place(slot, Back::Nothing)
    }

    /// A handle of a birth.
    pub fn from_birth(&mut self, kind: Kind, birth: u64) -> Reply<C, G, S::Header>
        requires { 0 < self.old.slots.room }
        ensures says { Says (takes_over (world_of self.old) kind birth) result
            (world_of self.new) }
        ensures room { self.old.slots.room ≤ self.new.slots.room + 1 }
    {
        match self.raw(kind, birth) {
            Err(why) => Reply::Refused(why, Back::Nothing),
            Ok(slot) => self.slots.place(slot, Back::Nothing),
        }
    }

    // The handle of a birth, or why there is none.
    fn raw(&self, kind: Kind, birth: u64) -> Result<Slot<C, G, S>, Refusal>
        ensures ok { IfOk result (λ slot. seen slot ≡ raw_held (world_of self.now) kind birth) }
        ensures refused { Owes result (due_raw (world_of self.now) kind birth) }
    {
        match kind {
            Kind::Counted => Ok(Slot::Counted(Interned::from_raw(&self.counted, birth)?)),
            Kind::CountedRef => Ok(Slot::CountedRef(InternedRef::from_raw(&self.counted, birth)?)),
            Kind::Value => Ok(Slot::Value(Interned::from_raw(&self.family.first, birth)?)),
            Kind::ValueRef => Ok(Slot::ValueRef(InternedRef::from_raw(&self.family.first, birth)?)),
        }
    }
}
