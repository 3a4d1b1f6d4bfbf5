//! Collections.
ghost use Rattle.std.specs.Prelude.{◌≡◌, ◌⊎◌, true, Some, IfOk, is_some};
ghost use Rattle.std.specs.List.{list_all, filter_map};
ghost use Rattle.ra_ap_intern.specs.Families.{are_distinct};
ghost use Rattle.ra_ap_intern.specs.Reach.{starts};
ghost use Rattle.intern_calls.specs.Parts.{world_of};
ghost use Rattle.intern_calls.specs.Step.{Gathers, Keeps, Lacks, root_at};
ghost use Rattle.intern_calls.specs.World.{kinds_of, entries, numbers_of};

use super::Parts;
use crate::reply::{Back, Reply};
use crate::slot::Slot;
use ra_ap_intern::{
    GarbageCollector, GcInternedSliceVisit, GcInternedVisit, Internable, Name, Refusal,
};
use std::alloc::AllocError;

impl<C: Internable, G: Internable + GcInternedVisit + Drop, S: GcInternedSliceVisit> Parts<C, G, S>
where
    S::Header: Drop,
{
    /// Removes all collected entries that nothing counted reaches.
    pub fn collect(&mut self) -> Reply<C, G, S::Header>
        requires distinct { are_distinct (numbers_of (world_of self.old)) ≡ true }
        requires values { G.Internable.USE_GC ≡ true }
        requires slices { S.SliceInternable.USE_GC ≡ true }
        ensures step { let kinds = kinds_of C.eq G.eq S.Header.eq S.SliceType.eq G.children
            S.header_children S.slice_children in
            Gathers kinds (world_of self.old) (starts (entries kinds (world_of self.old))) result
            (world_of self.new)
            ⊎ Lacks (Some Back.Nothing) (world_of self.old) result (world_of self.new) }
        ensures slots { self.new.slots ≡ self.old.slots }
    {
        match GarbageCollector::new(self.alloc).collect(&mut self.family) {
            Ok(collected) => Reply::Collected(collected),
            Err(_) => Reply::Refused(Refusal::OutOfMemory, Back::Nothing),
        }
    }

    /// A collection that begins also at the entries of these names.
    pub fn collect_keeping(&mut self, roots: &[Name]) -> Reply<C, G, S::Header>
        requires distinct { are_distinct (numbers_of (world_of self.old)) ≡ true }
        requires values { G.Internable.USE_GC ≡ true }
        requires slices { S.SliceInternable.USE_GC ≡ true }
        ensures step { let kinds = kinds_of C.eq G.eq S.Header.eq S.SliceType.eq G.children
            S.header_children S.slice_children in
            Keeps kinds (world_of self.old) (Some roots.now) result (world_of self.new) }
        ensures slots { self.new.slots ≡ self.old.slots }
    {
        match GarbageCollector::new(self.alloc).collect_keeping(&mut self.family, roots) {
            Ok(collected) => Reply::Collected(collected),
            Err(_) => Reply::Refused(Refusal::OutOfMemory, Back::Nothing),
        }
    }

    /// Whether all these slots hold handles of collected entries.
    pub fn are_roots(&self, slots: &[usize]) -> bool
        ensures { result
            ≡ list_all (λ n. is_some (root_at self.now.slots.held n)) slots.now }
    {
        slots.iter().all(|n| self.root(*n).is_some())
    }

    /// The names of the handles in these slots; other slots are left out. Where there is no memory,
    /// `AllocError`.
    pub fn roots(&self, slots: &[usize]) -> Result<Vec<Name>, AllocError>
        ensures { IfOk result (λ names.
            names.items ≡ filter_map (root_at self.now.slots.held) slots.now) }
    {
        let mut names = Vec::with_capacity(self.alloc, slots.len())?;
        for n in slots {
            match self.root(*n) {
                Some(name) => names.push_reserved(name),
                None => {}
            }
        }
        Ok(names)
    }

    fn root(&self, n: usize) -> Option<Name>
        ensures { result ≡ root_at self.now.slots.held n }
    {
        match self.slots.get(n) {
            Some(Slot::Value(handle)) => Some(handle.as_ref().name()),
            Some(Slot::ValueRef(reference)) => Some(reference.name()),
            Some(Slot::Slice(handle)) => Some(handle.as_ref().name()),
            Some(Slot::SliceRef(reference)) => Some(reference.name()),
            _ => None,
        }
    }
}
