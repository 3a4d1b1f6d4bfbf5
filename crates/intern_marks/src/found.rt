//! Where a name was found, and what leads to it.
ghost use Rattle.std.specs.Prelude.{◌≡◌, false};

use crate::flags::Flags;
use crate::slots::Slots;
use intern_buckets::Buckets;
use std::alloc::{AllocError, Global};

/// Where a name is, and what is known of it.
#[derive(Clone, Copy)]
pub(crate) struct Found {
    pub(crate) slot: usize,
    pub(crate) flags: Flags,
}

/// Leads from the hashes of names to their slots, once it is filled.
#[derive(Drop)]
pub(crate) struct Table {
    // it has room once births aren't in row
    pub(crate) buckets: Buckets,
    // whether it leads to all names; until then it isn't asked
    pub(crate) is_filled: bool,
}

impl Table {
    /// One that is not filled. It takes no memory.
    pub(crate) fn new(alloc: Global) -> Table
        ensures { result.is_filled ≡ false }
    {
        Table {
            buckets: Buckets::new(alloc),
            is_filled: false,
        }
    }

    /// Makes room for as many names as slots have room for, where births aren't in row and no room
    /// was made yet. It isn't filled then.
    pub(crate) fn make_room(&mut self, slots: &Slots) -> Result<(), AllocError>
        ensures { self.new.is_filled ≡ false }
    {
        self.is_filled = false;
        if !slots.in_row && self.buckets.capacity() == 0 {
            self.buckets = Buckets::with_room(slots.alloc, slots.capacity())?;
        }
        Ok(())
    }
}
