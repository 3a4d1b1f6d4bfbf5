//! Worlds, and runs over lists of calls.
ghost use Rattle.std.specs.Prelude.{◌≡◌, ◌<◌, ◌≤◌, true, false, [], IfOk, IfErr, OnErr, slice_get};
ghost use Rattle.std.specs.Option.{option_map};
ghost use Rattle.std.specs.Vec.{vec_len};
ghost use Rattle.ra_ap_intern.specs.Families.{are_distinct};
ghost use Rattle.intern_calls.specs.Held.{seen};
ghost use Rattle.intern_calls.specs.Step.{Keeps, roots_in};
ghost use Rattle.intern_calls.specs.World.{kinds_of};
ghost use Rattle.intern_world.specs.Along.{RunsAlong};
ghost use Rattle.intern_world.specs.Run.{are_apart, new_world};

use crate::turns::run_over;
use intern_calls::{Back, Call, Parts, Reply, Slot, Slots};
use ra_ap_intern::{
    GcInternedSliceVisit, GcInternedVisit, InternSliceStorage, InternStorage, Internable, Limits,
    Name, Pair, Refusal, SliceInternable, SymbolTable,
};
use std::alloc::Global;
use std::marker::Model;

/// The numbers of a world's storages and of its table, no two of them the same.
#[derive(Clone, Copy, Debug, PartialEq, Eq)]
pub struct Numbers {
    /// That of the storage of counted values.
    pub counted: u64,
    /// That of the storage of collected values.
    pub values: u64,
    /// That of the storage of slices.
    pub slices: u64,
    /// That of the table of texts.
    pub table: u64,
}

/// A storage of counted values, a family of a storage of collected values and one of slices, a
/// table of texts, and slots for handles.
#[derive(Drop)]
pub struct World<C: Internable, G: Internable, S: SliceInternable> {
    parts: Parts<C, G, S>,
}

impl<C: Internable, G: Internable, S: SliceInternable> Model for World<C, G, S> {
    ghost use Rattle.std.specs.Prelude.{◌≡◌, true, false};
    ghost use Rattle.ra_ap_intern.specs.Families.{are_distinct};
    ghost use Rattle.intern_calls.specs.Parts.{world_of};
    ghost use Rattle.intern_calls.specs.World.{WorldState, numbers_of, world_code};

    ghost Value = { WorldState C G S.Header S.SliceType };

    ghost coded = { world_code C.code G.code S.Header.code S.SliceType.code };

    ghost view = { λ w. world_of w.parts };

    ghost invariant = { λ w. (C.Internable.USE_GC ≡ false) × (G.Internable.USE_GC ≡ true)
        × (S.SliceInternable.USE_GC ≡ true)
        × (are_distinct (numbers_of (world_of w.parts)) ≡ true) };
}

impl<C: Internable, G: Internable, S: SliceInternable> World<C, G, S> {
    /// A world of new storages and a new table, with the largest limits and no slot. It takes no
    /// memory.
    pub fn new(alloc: Global, numbers: Numbers) -> Self
        requires distinct { are_apart numbers ≡ true }
        requires counted { C.Internable.USE_GC ≡ false }
        requires values { G.Internable.USE_GC ≡ true }
        requires slices { S.SliceInternable.USE_GC ≡ true }
        ensures { result ≡ new_world numbers u64.MAX u64.MAX }
    {
        World::with_limits(alloc, numbers, Limits::MAX)
    }

    /// The same, with limits for each storage and for the table.
    pub fn with_limits(alloc: Global, numbers: Numbers, limits: Limits) -> Self
        requires distinct { are_apart numbers ≡ true }
        requires counted { C.Internable.USE_GC ≡ false }
        requires values { G.Internable.USE_GC ≡ true }
        requires slices { S.SliceInternable.USE_GC ≡ true }
        requires limits { 0 < limits.top }
        ensures { result ≡ new_world numbers limits.top limits.numbers }
    {
        World {
            parts: Parts {
                alloc,
                counted: InternStorage::with_limits(alloc, numbers.counted, limits),
                family: Pair {
                    first: InternStorage::with_limits(alloc, numbers.values, limits),
                    second: InternSliceStorage::with_limits(alloc, numbers.slices, limits),
                },
                table: SymbolTable::with_limits(alloc, numbers.table, limits),
                slots: Slots::new(alloc),
            },
        }
    }

    /// The storage of counted values.
    pub fn counted(&self) -> &InternStorage<C>
        ensures { result.now ≡ self.now.counted }
    {
        &self.parts.counted
    }

    /// The storage of collected values.
    pub fn values(&self) -> &InternStorage<G>
        ensures { result.now ≡ self.now.values }
    {
        &self.parts.family.first
    }

    /// The storage of slices.
    pub fn slices(&self) -> &InternSliceStorage<S>
        ensures { result.now ≡ self.now.slices }
    {
        &self.parts.family.second
    }

    /// The table of texts.
    pub fn table(&self) -> &SymbolTable
        ensures { result.now ≡ self.now.table }
    {
        &self.parts.table
    }

    /// A slot. None where there is none of this number.
    pub fn slot(&self, n: usize) -> Option<&Slot<C, G, S>>
        ensures { option_map (λ s. seen s.now) result ≡ slice_get self.now.slots n }
    {
        self.parts.slots.get(n)
    }
}

impl<C: Internable, G: Internable + GcInternedVisit + Drop, S: GcInternedSliceVisit> World<C, G, S>
where
    S::Header: Drop,
{
    /// Collects, and begins also at the entries that the handles in these slots name. A handle
    /// whose name is that of no entry adds nothing.
    ///
    /// It replies as a collection does: `Collected`, or `Refused` where there is no memory, also
    /// for the names. `WrongSlot` where a slot holds no handle of a collected value or of a slice.
    /// After `Refused` and after `WrongSlot` the world is as before.
    pub fn collect_keeping(&mut self, slots: &[usize]) -> Reply<C, G, S::Header>
        ensures { let kinds = kinds_of C.eq G.eq S.Header.eq S.SliceType.eq G.children
            S.header_children S.slice_children in
            Keeps kinds self.old (roots_in self.old.slots slots.now) result self.new }
    {
        if !self.parts.are_roots(slots) {
            return Reply::WrongSlot;
        }
        match self.parts.roots(slots) {
            Ok(names) => self.parts.collect_keeping(&names),
            Err(_) => Reply::Refused(Refusal::OutOfMemory, Back::Nothing),
        }
    }
}

/// Makes the calls in order, one reply a call.
///
/// A call that is refused, or whose slot holds nothing that it takes, changes nothing, and the run
/// goes on. All room for replies and slots is asked for before the first call: where there is
/// none, the calls come back and the world is as before. An empty list wants no room.
pub fn run<C: Internable + Drop, G: Internable + GcInternedVisit + Drop, S: GcInternedSliceVisit>(
    world: &mut World<C, G, S>,
    calls: Vec<Call<C, G, S>>,
) -> Result<Vec<Reply<C, G, S::Header>>, Vec<Call<C, G, S>>>
where
    S::Header: Drop,
    ensures run { let kinds = kinds_of C.eq G.eq S.Header.eq S.SliceType.eq G.children
        S.header_children S.slice_children in
        IfOk result (λ replies.
        RunsAlong kinds world.old calls.items replies.items world.new) }
    ensures refused { IfErr result (λ back. back ≡ calls) }
    ensures wants { OnErr result (0 < vec_len calls) }
    ensures stays { OnErr result (world.new ≡ world.old) }
{
    let n = calls.len();
    let Ok(mut replies) = Vec::with_capacity(*calls.allocator(), n) else {
        return Err(calls);
    };
    match world.parts.slots.reserve(n) {
        Ok(()) => {
            run_over(&mut world.parts, &mut replies, calls);
            Ok(replies)
        }
        Err(_) => Err(calls),
    }
}
