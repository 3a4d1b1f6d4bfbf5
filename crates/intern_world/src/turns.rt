//! Runs over the parts of a world.
ghost use Rattle.std.specs.Prelude.{◌≡◌, ◌+◌, ◌<◌, ◌≤◌, true, false, []};
ghost use Rattle.std.specs.Vec.{vec_len, vec_capacity};
ghost use Rattle.ra_ap_intern.specs.Families.{are_distinct};
ghost use Rattle.intern_calls.specs.Parts.{world_of};
ghost use Rattle.intern_calls.specs.Step.{Step};
ghost use Rattle.intern_calls.specs.World.{kinds_of, numbers_of};
ghost use Rattle.intern_world.specs.Along.{RunsAlong};
ghost use Rattle.intern_world.specs.Run.{IsWorld};

use crate::laws::{
    collections_leave_what_is_reached, counts_balance, handles_tell_values_along_runs,
    names_keep_what_they_read,
};
use intern_calls::{Call, Parts, Reply};
use ra_ap_intern::{GcInternedSliceVisit, GcInternedVisit, Internable, SliceInternable};

// A call, by its line of `answer`.
fn apply<C: Internable + Drop, G: Internable + GcInternedVisit + Drop, S: GcInternedSliceVisit>(
    parts: &mut Parts<C, G, S>,
    call: Call<C, G, S>,
) -> Reply<C, G, S::Header>
where
    S::Header: Drop,
    requires counted { C.Internable.USE_GC ≡ false }
    requires values { G.Internable.USE_GC ≡ true }
    requires slices { S.SliceInternable.USE_GC ≡ true }
    requires distinct { are_distinct (numbers_of (world_of parts.old)) ≡ true }
    requires room { 0 < parts.old.slots.room }
    ensures step { let kinds = kinds_of C.eq G.eq S.Header.eq S.SliceType.eq G.children
        S.header_children S.slice_children in
        Step kinds (world_of parts.old) call result (world_of parts.new) }
    ensures room { parts.old.slots.room ≤ parts.new.slots.room + 1 }
{
    match call {
        Call::New(value) => parts.new_counted(value),
        Call::NewGc(value) => parts.new_value(value),
        Call::FromHeaderAndSlice(header, items) => parts.new_slice(header, &items),
        Call::Intern(text) => parts.new_symbol(&text),
        Call::IntegerGet(n) => parts.new_integer(n),
        Call::GeneratedGet(n) => parts.new_generated(n),
        Call::Empty => parts.new_empty(),
        Call::Put(slot) => parts.put(slot),
        Call::FromRaw(kind, birth) => parts.from_birth(kind, birth),
        Call::AsRef(n) => parts.refer(n),
        Call::Clone(n) => parts.clone_handle(n),
        Call::ToOwned(n) => parts.own(n),
        Call::Release(n) => parts.release(n),
        Call::Decrement(n) => parts.decrement(n),
        Call::AsRaw(n) => parts.birth(n),
        Call::ReadsCounted(n, value) => parts.reads_counted(n, &value),
        Call::ReadsValue(n, value) => parts.reads_value(n, &value),
        Call::ReadsSlice(n, header, items) => parts.reads_slice(n, &header, &items),
        Call::ReadsText(n, text) => parts.reads_text(n, &text),
        Call::Same(n, m) => parts.same(n, m),
        Call::Count(n) => parts.count(n),
        Call::Len(which) => parts.len(which),
        Call::AsUint(n) => parts.uint(n),
        Call::Collect => parts.collect(),
    }
}

// A call, and what is known of the world after it.
fn turn<C: Internable + Drop, G: Internable + GcInternedVisit + Drop, S: GcInternedSliceVisit>(
    parts: &mut Parts<C, G, S>,
    call: Call<C, G, S>,
) -> Reply<C, G, S::Header>
where
    S::Header: Drop,
    requires counted { C.Internable.USE_GC ≡ false }
    requires values { G.Internable.USE_GC ≡ true }
    requires slices { S.SliceInternable.USE_GC ≡ true }
    requires distinct { are_distinct (numbers_of (world_of parts.old)) ≡ true }
    requires room { 0 < parts.old.slots.room }
    ensures step { let kinds = kinds_of C.eq G.eq S.Header.eq S.SliceType.eq G.children
        S.header_children S.slice_children in
        Step kinds (world_of parts.old) call result (world_of parts.new) }
    ensures world { let kinds = kinds_of C.eq G.eq S.Header.eq S.SliceType.eq G.children
        S.header_children S.slice_children in IsWorld kinds (world_of parts.new) }
    ensures room { parts.old.slots.room ≤ parts.new.slots.room + 1 }
{
    let reply = apply(parts, call);
    learn(parts);
    reply
}

// Says what holds of the storages, and changes nothing.
fn learn<C: Internable, G: Internable + GcInternedVisit, S: GcInternedSliceVisit>(
    parts: &Parts<C, G, S>,
)
    requires distinct { are_distinct (numbers_of (world_of parts.now)) ≡ true }
    ensures world { let kinds = kinds_of C.eq G.eq S.Header.eq S.SliceType.eq G.children
        S.header_children S.slice_children in IsWorld kinds (world_of parts.now) }
{
    let _counted = parts.counted.number();
    let _values = parts.family.first.number();
    let _slices = parts.family.second.number();
    let _table = parts.table.number();
}

/// Makes the calls in order. There is room for all replies and slots.
pub fn run_over<
    C: Internable + Drop,
    G: Internable + GcInternedVisit + Drop,
    S: GcInternedSliceVisit,
>(parts: &mut Parts<C, G, S>, replies: &mut Vec<Reply<C, G, S::Header>>, calls: Vec<Call<C, G, S>>)
where
    S::Header: Drop,
    requires counted { C.Internable.USE_GC ≡ false }
    requires values { G.Internable.USE_GC ≡ true }
    requires slices { S.SliceInternable.USE_GC ≡ true }
    requires distinct { are_distinct (numbers_of (world_of parts.old)) ≡ true }
    requires none { replies.old.items ≡ [] }
    requires room { vec_len calls ≤ parts.old.slots.room }
    requires reply_room { vec_len replies.old + vec_len calls ≤ vec_capacity replies.old }
    ensures run { let kinds = kinds_of C.eq G.eq S.Header.eq S.SliceType.eq G.children
        S.header_children S.slice_children in
        RunsAlong kinds (world_of parts.old) calls.items replies.new.items
        (world_of parts.new) }
    ensures distinct { are_distinct (numbers_of (world_of parts.new)) ≡ true }
{
    handles_tell_values_along_runs::<C, G, S>();
    names_keep_what_they_read::<C, G, S>();
    counts_balance::<C, G, S>();
    collections_leave_what_is_reached::<C, G, S>();
    learn(parts);
    for call in calls {
        let reply = turn(parts, call);
        replies.push_reserved(reply);
    }
}
