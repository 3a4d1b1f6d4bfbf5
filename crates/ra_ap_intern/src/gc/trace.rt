//! What a collection found, before anything is removed.
ghost use Rattle.std.specs.Prelude.{◌≡◌, ◌+◌, length};
ghost use Rattle.intern_marks.specs.Names.{has};
ghost use Rattle.intern_marks.specs.Reach.{kept_entries};
ghost use Rattle.ra_ap_intern.specs.Families.{IsTraceOf};
ghost use Rattle.ra_ap_intern.specs.Handle.{ref_name};

use crate::gc::{Collected, Family, GarbageCollector};
use crate::storage::Ref;
use std::marker::Model;

/// What a collection leaves of a family, of which nothing is removed yet.
#[derive(Drop)]
pub struct Trace {
    pub(crate) collector: GarbageCollector,
}

impl Model for Trace {
    ghost use Rattle.intern_marks.specs.Marks.{Marks, marks_code};

    ghost Value = { Marks };

    ghost coded = { marks_code };

    ghost view = { λ t. t.collector };
}

impl Trace {
    /// Whether the entry of a reference stays. It takes no memory.
    pub fn keeps<K>(&self, reference: Ref<K>) -> bool
        ensures { result ≡ has self.now.marked (ref_name reference) }
    {
        self.collector.marks.is_marked(reference.key)
    }

    /// Removes every entry that doesn't stay. Counts stay, and births are not given again. It takes
    /// no memory. The family is the one that was traced, with the same entries; one that was
    /// counted only after the trace goes all the same.
    pub fn sweep<F: Family>(self, family: &mut F) -> Collected
        requires { IsTraceOf (F.entries family.old) self }
        ensures family { family.new ≡ F.kept family.old (has self.marked) }
        ensures visits { result.visits ≡ self.visits }
        ensures mark_calls { result.mark_calls ≡ self.calls }
        ensures removed { result.removed + length (kept_entries (F.entries family.old) self.marked)
            ≡ length (F.entries family.old) }
    {
        let marks = &self.collector.marks;
        let entries = marks.len();
        let visits = marks.visits();
        let mark_calls = marks.mark_calls();
        // Where every entry was visited, all of them stay.
        if visits < entries {
            family.sweep(&self.collector);
        }
        Collected {
            visits,
            mark_calls,
            removed: entries.saturating_sub(family.len()),
        }
    }
}
