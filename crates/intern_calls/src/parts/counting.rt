//! The calls that count handles.
ghost use Rattle.std.specs.Prelude.{◌≡◌, ◌+◌, ◌<◌, ◌≤◌, true, false};
ghost use Rattle.intern_calls.specs.Answer.{refers, clones, owns, releases, decrements, done_or_refused};
ghost use Rattle.intern_calls.specs.Held.{held_at, is_symbol};
ghost use Rattle.intern_calls.specs.Parts.{world_of};
ghost use Rattle.intern_calls.specs.Step.{Says};

use super::Parts;
use super::making::{back_of_counted, back_of_value};
use crate::reply::{Back, Reply};
use crate::slot::Slot;
use ra_ap_intern::{Internable, InternedRef, InternedSliceRef, Refusal, Refused, SliceInternable};

impl<C: Internable, G: Internable, S: SliceInternable> Parts<C, G, S> {
    /// A reference to what an owned handle of a value or of a slice names.
    pub fn refer(&mut self, n: usize) -> Reply<C, G, S::Header>
        requires { 0 < self.old.slots.room }
        ensures says { Says (refers (world_of self.old) (held_at self.old.slots.held n)) result
            (world_of self.new) }
        ensures room { self.old.slots.room ≤ self.new.slots.room + 1 }
    {
        let reference = match self.slots.get(n) {
            Some(Slot::Counted(handle)) => Slot::CountedRef(handle.as_ref()),
            Some(Slot::Value(handle)) => Slot::ValueRef(handle.as_ref()),
            Some(Slot::Slice(handle)) => Slot::SliceRef(handle.as_ref()),
            _ => return Reply::WrongSlot,
        };
        self.slots.place(reference, Back::Nothing)
    }

    /// A second owned handle or symbol.
    pub fn clone_handle(&mut self, n: usize) -> Reply<C, G, S::Header>
        requires { 0 < self.old.slots.room }
        ensures says { Says (clones (world_of self.old) (held_at self.old.slots.held n)) result
            (world_of self.new) }
        ensures room { self.old.slots.room ≤ self.new.slots.room + 1 }
    {
        let copy = match self.slots.get(n) {
            Some(Slot::Counted(handle)) => match handle.clone(&mut self.counted) {
                Ok(copy) => Slot::Counted(copy),
                Err(why) => return Reply::Refused(why, Back::Nothing),
            },
            Some(Slot::Value(handle)) => match handle.clone(&mut self.family.first) {
                Ok(copy) => Slot::Value(copy),
                Err(why) => return Reply::Refused(why, Back::Nothing),
            },
            Some(Slot::Slice(handle)) => match handle.clone(&mut self.family.second) {
                Ok(copy) => Slot::Slice(copy),
                Err(why) => return Reply::Refused(why, Back::Nothing),
            },
            Some(Slot::Symbol(symbol)) => match symbol.clone(&mut self.table) {
                Ok(copy) => Slot::Symbol(copy),
                Err(why) => return Reply::Refused(why, Back::Nothing),
            },
            _ => return Reply::WrongSlot,
        };
        self.slots.place(copy, Back::Nothing)
    }

    /// An owned handle of what a reference names.
    pub fn own(&mut self, n: usize) -> Reply<C, G, S::Header>
        requires { 0 < self.old.slots.room }
        ensures says { Says (owns (world_of self.old) (held_at self.old.slots.held n)) result
            (world_of self.new) }
        ensures room { self.old.slots.room ≤ self.new.slots.room + 1 }
    {
        let owned = match self.slots.get(n) {
            Some(Slot::CountedRef(r)) => match InternedRef::to_owned(*r, &mut self.counted) {
                Ok(owned) => Slot::Counted(owned),
                Err(why) => return Reply::Refused(why, Back::Nothing),
            },
            Some(Slot::ValueRef(r)) => match InternedRef::to_owned(*r, &mut self.family.first) {
                Ok(owned) => Slot::Value(owned),
                Err(why) => return Reply::Refused(why, Back::Nothing),
            },
            Some(Slot::SliceRef(r)) => match InternedSliceRef::to_owned(
                *r,
                &mut self.family.second,
            ) {
                Ok(owned) => Slot::Slice(owned),
                Err(why) => return Reply::Refused(why, Back::Nothing),
            },
            _ => return Reply::WrongSlot,
        };
        self.slots.place(owned, Back::Nothing)
    }

    /// Gives an owned handle or a symbol up, and leaves its slot empty. Where it is refused, the
    /// handle stays in its slot.
    #[tactic(auto, using(crate::proofs::Lists::restored))]
    pub fn release(&mut self, n: usize) -> Reply<C, G, S::Header>
        requires counted { C.Internable.USE_GC ≡ false }
        requires values { G.Internable.USE_GC ≡ true }
        ensures says { Says (releases (world_of self.old) n (held_at self.old.slots.held n)) result
            (world_of self.new) }
        ensures room { self.new.slots.room ≡ self.old.slots.room }
    {
        let refused = match self.slots.take_owner(n) {
            Slot::Counted(handle) => match handle.release(&mut self.counted) {
                Ok(value) => return Reply::Done(back_of_counted(value)),
                Err(Refused { why, back }) => (why, Slot::Counted(back)),
            },
            Slot::Value(handle) => match handle.release(&mut self.family.first) {
                Ok(value) => return Reply::Done(back_of_value(value)),
                Err(Refused { why, back }) => (why, Slot::Value(back)),
            },
            Slot::Slice(handle) => match handle.release(&mut self.family.second) {
                Ok(()) => return Reply::Done(Back::Nothing),
                Err(Refused { why, back }) => (why, Slot::Slice(back)),
            },
            Slot::Symbol(symbol) => match symbol.release(&mut self.table) {
                Ok(()) => return Reply::Done(Back::Nothing),
                Err(Refused { why, back }) => (why, Slot::Symbol(back)),
            },
            _ => return Reply::WrongSlot,
        };
        let (why, handle) = refused;
        self.slots.put_back(n, handle);
        Reply::Refused(why, Back::Nothing)
    }

    /// Takes back the count of a handle that was dropped, by a reference or a symbol.
    pub fn decrement(&mut self, n: usize) -> Reply<C, G, S::Header>
        ensures says { Says (decrements (world_of self.old) (held_at self.old.slots.held n)) result
            (world_of self.new) }
        ensures room { self.new.slots.room ≡ self.old.slots.room }
    {
        let answer = match self.slots.get(n) {
            Some(Slot::CountedRef(r)) => r.decrement_refcount(&mut self.counted),
            Some(Slot::ValueRef(r)) => r.decrement_refcount(&mut self.family.first),
            Some(Slot::SliceRef(r)) => r.decrement_refcount(&mut self.family.second),
            Some(Slot::Symbol(_)) => return self.decrement_symbol(n),
            _ => return Reply::WrongSlot,
        };
        done(answer)
    }

    // Counts the text of the symbol in a slot once less.
    #[tactic(auto, using(crate::proofs::Lists::restored))]
    fn decrement_symbol(&mut self, n: usize) -> Reply<C, G, S::Header>
        requires { is_symbol (held_at self.old.slots.held n) ≡ true }
        ensures says { Says (decrements (world_of self.old) (held_at self.old.slots.held n)) result
            (world_of self.new) }
        ensures room { self.new.slots.room ≡ self.old.slots.room }
    {
        match self.slots.take_owner(n) {
            Slot::Symbol(mut symbol) => {
                let answer = symbol.decrease_refcount(&mut self.table);
                self.slots.put_back(n, Slot::Symbol(symbol));
                done(answer)
            }
            _ => Reply::WrongSlot,
        }
    }
}

fn done<C, G, H>(answer: Result<(), Refusal>) -> Reply<C, G, H>
    ensures { result ≡ done_or_refused answer }
{
    match answer {
        Ok(()) => Reply::Done(Back::Nothing),
        Err(why) => Reply::Refused(why, Back::Nothing),
    }
}
