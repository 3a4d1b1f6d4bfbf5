//! The list of slots.
ghost use Rattle.std.specs.Prelude.{◌≡◌, ◌+◌, ◌<◌, ◌≤◌, [], ◌∷◌, ◌++◌, length, OnOk, OnErr, MatchResult, if◌then◌else◌, slice_get, slice_set};
ghost use Rattle.std.specs.Option.{option_map, unwrap_or};
ghost use Rattle.intern_calls.specs.Held.{seen, held_at, owner, is_owner};
ghost use Rattle.intern_calls.specs.Held.Held.{nothing, symbol};
ghost use Rattle.ra_ap_intern.specs.Symbols.{symbol_name};

use crate::reply::{Back, Reply};
use crate::slot::Slot;
use ra_ap_intern::{Refusal, Symbol};
use std::alloc::{AllocError, Global};
use std::marker::Model;
use std::mem;

/// The slots, with the room for more.
#[derive(Drop)]
pub struct Slots<C, G, S> {
    slots: Vec<Slot<C, G, S>>,
}

impl<C, G, S> Model for Slots<C, G, S> {
    ghost use Rattle.std.specs.Prelude.{◌-◌, map, vec_len, vec_capacity};
    ghost use Rattle.intern_calls.specs.Held.{SlotList, seen};

    ghost Value = { SlotList };

    ghost view = { λ s. record {
      held = map seen s.slots.items;
      room = vec_capacity s.slots - vec_len s.slots;
    } };
}

impl<C, G, S> Slots<C, G, S> {
    /// No slot. It takes no memory.
    pub fn new(alloc: Global) -> Self
        ensures { result.held ≡ [] }
    {
        Slots {
            slots: Vec::new(alloc),
        }
    }

    /// Asks for the room of so many slots more. It takes memory only where that room isn't there,
    /// and answers `AllocError` where there is no memory. What the slots hold stays.
    pub fn reserve(&mut self, more: usize) -> Result<(), AllocError>
        ensures held { self.new.held ≡ self.old.held }
        ensures room { OnOk result (more ≤ self.new.room) }
        ensures full { OnErr result (self.old.room < more) }
        ensures stays { OnErr result (self.new ≡ self.old) }
    {
        self.slots.reserve(more)
    }

    /// A slot. None where there is none of this number.
    pub fn get(&self, n: usize) -> Option<&Slot<C, G, S>>
        ensures slot { option_map (λ s. seen s.now) result ≡ slice_get self.now.held n }
        ensures held { unwrap_or (option_map (λ s. seen s.now) result) nothing
            ≡ held_at self.now.held n }
    {
        self.slots.get(n)
    }

    /// Puts a handle into a new slot.
    pub fn place<H>(&mut self, slot: Slot<C, G, S>, back: Back<C, G, H>) -> Reply<C, G, H>
        requires { 0 < self.old.room }
        ensures reply { result ≡ Reply.Made (length self.old.held) back }
        ensures held { self.new.held ≡ self.old.held ++ seen slot ∷ [] }
        ensures room { self.old.room ≡ self.new.room + 1 }
    {
        let n = self.slots.len();
        self.slots.push_reserved(slot);
        Reply::Made(n, back)
    }

    /// Puts a symbol that was interned into a new slot. Where it was refused, it tells why.
    pub fn place_symbol<H>(&mut self, interned: Result<Symbol, Refusal>) -> Reply<C, G, H>
        requires { 0 < self.old.room }
        ensures symbol { MatchResult interned
            (λ s. (result ≡ Reply.Made (length self.old.held) Back.Nothing)
            × (self.new.held ≡ self.old.held ++ symbol (symbol_name s) ∷ []))
            (λ why. (result ≡ Reply.Refused why Back.Nothing) × (self.new.held ≡ self.old.held)) }
        ensures room { self.old.room ≤ self.new.room + 1 }
    {
        match interned {
            Ok(symbol) => self.place(Slot::Symbol(symbol), Back::Nothing),
            Err(why) => Reply::Refused(why, Back::Nothing),
        }
    }

    /// Takes what a release gives up out of its slot. Where there is no such thing, an empty slot.
    #[tactic(auto, using(crate::proofs::Lists::map_set))]
    pub fn take_owner(&mut self, n: usize) -> Slot<C, G, S>
        ensures slot { seen result ≡ owner (held_at self.old.held n) }
        ensures held { self.new.held ≡ (if is_owner (seen result)
            then slice_set self.old.held n nothing else self.old.held) }
        ensures room { self.new.room ≡ self.old.room }
    {
        if n >= self.slots.len() {
            return Slot::Empty;
        }
        match &self.slots[n] {
            Slot::Counted(_) | Slot::Value(_) | Slot::Slice(_) | Slot::Symbol(_) => {
                mem::replace(&mut self.slots[n], Slot::Empty)
            }
            _ => Slot::Empty,
        }
    }

    /// Puts a handle into a slot. Where there is none of this number, the handle is dropped.
    #[tactic(auto, using(crate::proofs::Lists::map_set))]
    pub fn put_back(&mut self, n: usize, slot: Slot<C, G, S>)
        ensures held { self.new.held ≡ slice_set self.old.held n (seen slot) }
        ensures room { self.new.room ≡ self.old.room }
    {
        if n < self.slots.len() {
            self.slots[n] = slot;
        }
    }
}
