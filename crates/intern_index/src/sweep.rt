//! Entries cut to those that are marked.
ghost use Rattle.std.specs.Prelude.{◌≡◌, ℕ};
ghost use Rattle.slab.specs.Slab.{get};
ghost use Rattle.intern_index.specs.Swept.{if_marked};

use crate::entry::Entry;
use intern_store::{Keeps, Spot};
use slab::Slab;

/// Keeps the entries of marked births, each at its place. Where none is left, the next one lies at
/// the first place again. It takes no memory.
pub(crate) fn keep_marked<T: Drop, N: Copy, M: Keeps>(slots: &mut Slab<Entry<T, N>>, marks: &M)
    ensures { (p : ℕ) → get slots.new p ≡ if_marked (M.marked marks.now) (get slots.old p) }
{
    for place in 0..slots.capacity() {
        let is_stale = match slots.get(place) {
            Some(entry) => {
                let birth = entry.birth.get();
                !marks.is_marked(Spot { birth, place })
            }
            None => false,
        };
        if is_stale {
            let _ = slots.try_remove(place);
        }
    }
    if slots.is_empty() {
        slots.clear();
    }
}
