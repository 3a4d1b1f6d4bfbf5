//! The slots with the handles that were given out.
ghost use Rattle.std.specs.Prelude.{◌≡◌, [], ◌∷◌, ◌++◌, length, IfOk, OnOk, MatchResult, Some, None, slice_set};
ghost use Rattle.ra_ap_intern.specs.Handle.{name_of};
ghost use Rattle.intern_run.specs.Slots.{handle_at};

use crate::answer::CommandError;
use ra_ap_intern::{Interned, Text};
use std::alloc::{AllocError, Global};
use std::marker::Model;
use std::mem;

/// Slots for handles, numbered from 0. Contracts see the names of the handles.
#[derive(Drop)]
pub struct Slots {
    slots: Vec<Option<Interned<Text>>>,
}

impl Model for Slots {
    ghost use Rattle.std.specs.Prelude.{List, Option};
    ghost use Rattle.std.specs.Coded.{coded_list, coded_option};
    ghost use Rattle.ra_ap_intern.specs.Name.{Name};
    ghost use Rattle.intern_run.specs.Slots.{name_code, names};

    ghost Value = { List (Option Name) };

    ghost coded = { coded_list (coded_option name_code) };

    ghost view = { λ s. names s.slots.items };
}

impl Slots {
    /// No slot.
    pub fn new(alloc: Global) -> Slots
        ensures { result ≡ [] }
    {
        Slots {
            slots: Vec::new(alloc),
        }
    }

    /// Puts a handle into a new slot at the end, and gives the slot's number.
    pub fn push(&mut self, handle: Interned<Text>) -> Result<usize, AllocError>
        ensures slot { IfOk result (λ n. n ≡ length self.old) }
        ensures slots { OnOk result (self.new ≡ self.old ++ (Some (name_of handle) ∷ [])) }
    {
        let slot = self.slots.as_slice().len();
        self.slots.push(Some(handle))?;
        Ok(slot)
    }

    /// The handle in a slot. `NoSlot` where it is empty or isn't there.
    pub fn get(&self, n: usize) -> Result<&Interned<Text>, CommandError>
        ensures { MatchResult result
            (λ handle. handle_at self.now n ≡ Some (name_of handle.now))
            (λ error. (handle_at self.now n ≡ None) × (error ≡ CommandError.NoSlot)) }
    {
        match self.slots.get(n) {
            Some(Some(handle)) => Ok(handle),
            _ => Err(CommandError::NoSlot),
        }
    }

    /// Takes the handle out of a slot. `NoSlot` where it is empty or isn't there.
    pub fn take(&mut self, n: usize) -> Result<Interned<Text>, CommandError>
        ensures handle { MatchResult result
            (λ handle. handle_at self.old n ≡ Some (name_of handle))
            (λ error. (handle_at self.old n ≡ None) × (error ≡ CommandError.NoSlot)) }
        ensures slots { self.new ≡ slice_set self.old n None }
    {
        match self.slots.get_mut(n) {
            Some(slot) => mem::replace(slot, None).ok_or(CommandError::NoSlot),
            None => Err(CommandError::NoSlot),
        }
    }

    /// Puts a handle back that was taken out of a slot.
    pub fn put_back(&mut self, n: usize, handle: Interned<Text>)
        ensures { self.new ≡ slice_set self.old n (Some (name_of handle)) }
    {
        if let Some(slot) = self.slots.get_mut(n) {
            *slot = Some(handle);
        }
    }
}
