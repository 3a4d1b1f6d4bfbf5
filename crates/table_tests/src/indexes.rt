//! Indexes of few entries and many births: they stay small, and each read is right.
use crate::apart::Apart;
use crate::numbers::{Below, Numbers, Placed, Sequence};
use crate::steps::is_equal;
use intern_index::{BirthOrder, BirthTable, Births};
use intern_store::Spot;
use std::alloc::Global;
use std::cell::Cell;
use std::process::Abort;

// What finds births by a table.
type InTable = Apart<BirthTable>;

// The bytes of a slot: of a birth, a number, a payload, and whether there is an entry. Then those
// of a bucket, and of a place in a list.
const SLOT: usize = 32;

const BUCKET: usize = 8;

const PLACE: usize = 8;

// At most 1,024 entries at a time. The slab's vector doubles where it is full, so it has as many
// slots.
const SLOTS: usize = 1_024;

// A table is built with room for four times as many entries as there are, which is 4,096, with a
// seventh more homes, which is 4,681, and with 64 buckets to spare. Where hashes are spread, fewer
// entries than that stand behind the homes.
const BUCKETS: usize = 4_681 + 64;

// At most so many bytes: of the slots and the table of hashes, and of what finds births.
#[derive(Clone, Copy)]
struct Bytes {
    index: usize,
    births: usize,
}

// A round in which these go, and as many come: what stays reads right, and so does what came.
fn churn(
    rt: &impl Abort,
    numbers: &mut Numbers<InTable>,
    staying: &[Spot],
    going: &mut [Spot],
    bytes: Bytes,
) {
    numbers.replace(rt, going);
    numbers.has_all(rt, staying);
    numbers.has_all(rt, going);
    assert!(rt; numbers.memory_of_births() <= bytes.births);
    assert!(rt; numbers.memory() <= bytes.index);
}

// Rounds in which half of so many entries go, and as many come.
fn rounds(
    rt: &impl Abort,
    alloc: Global,
    numbers: &mut Numbers<InTable>,
    (half, rounds): (u64, u64),
    bytes: Bytes,
) {
    let staying = numbers.add_all(rt, alloc, half);
    let mut going = numbers.add_all(rt, alloc, half);
    for _ in 0..rounds {
        churn(rt, numbers, &staying, &mut going, bytes);
    }
}

#[test]
fn an_index_of_a_million_births_stays_small(rt: HostRuntime) {
    let alloc = rt.alloc();
    let mut numbers = Numbers::<InTable>::new(alloc, Sequence::spread());
    let bytes = Bytes {
        index: SLOTS * SLOT + BUCKETS * BUCKET,
        births: BUCKETS * BUCKET,
    };
    rounds(&rt, alloc, &mut numbers, (512, 1_952), bytes);
    is_equal(&rt, numbers.next(), 1_000_448);
    is_equal(&rt, numbers.len(), 1_024);
}

// At most 128 entries at a time, so there is room for 512, in 585 homes. Where all begin at the
// last home, all but one stand behind it, in 1,096 buckets, and the vector may have doubled for
// them.
fn shares_a_hash(rt: &impl Abort, alloc: Global, hash: u64) {
    let mut numbers = Numbers::<InTable>::new(alloc, Sequence::of_one(hash));
    let bytes = Bytes {
        index: 128 * SLOT + 2 * 1_096 * BUCKET,
        births: (585 + 64) * BUCKET,
    };
    rounds(rt, alloc, &mut numbers, (64, 155), bytes);
    is_equal(rt, numbers.next(), 10_048);
}

#[test]
fn an_index_of_one_hash_stays_small(rt: HostRuntime) {
    shares_a_hash(&rt, rt.alloc(), 0);
    shares_a_hash(&rt, rt.alloc(), u64::MAX);
}

// Adds births in row, and sweeps all out.
fn come_and_go(rt: &impl Abort, alloc: Global, numbers: &mut Numbers<InTable>) {
    let spots = numbers.add_all(rt, alloc, 1_000);
    numbers.has_all(rt, &spots);
    numbers.keep(&Below(0));
    numbers.has_none(rt, &spots);
    is_equal(rt, numbers.memory_of_births(), 0);
}

// Births in row are in no table, also where they begin anew, once a sweep has left nothing.
#[test]
fn births_in_row_take_no_table(rt: HostRuntime) {
    let alloc = rt.alloc();
    let mut numbers = Numbers::<InTable>::new(alloc, Sequence::spread());
    for _ in 0..3 {
        come_and_go(&rt, alloc, &mut numbers);
    }
}

// Where the first used slot breaks the row, there are 90 entries, so there is room for 270 births
// beside. Once these were entered a new row begins, and the table is built for four times the 360
// entries that lie before it, with a seventh more homes: the births behind leave it as it is.
#[test]
fn a_new_row_begins_behind_used_slots(rt: HostRuntime) {
    let alloc = rt.alloc();
    let mut numbers = Numbers::<InTable>::new(alloc, Sequence::spread());
    let staying = numbers.add_all(&rt, alloc, 90);
    let mut going = numbers.add_all(&rt, alloc, 10);
    numbers.replace(&rt, &mut going);
    let behind = numbers.add_all(&rt, alloc, 1_000);
    numbers.has_all(&rt, &staying);
    numbers.has_all(&rt, &going);
    numbers.has_all(&rt, &behind);
    let bytes = numbers.memory_of_births();
    assert!(rt;
        0 < bytes && bytes <= (1_645 + 64) * BUCKET,
        "{bytes} bytes"
    );
}

// Adds entries, and removes all but one.
fn leave_one(rt: &impl Abort, alloc: Global, numbers: &mut Numbers<InTable>) {
    let spots = numbers.add_all(rt, alloc, 1_024);
    for spot in spots.iter().skip(1) {
        numbers.take(rt, *spot);
    }
}

// Adds an entry and removes it, so many times.
fn add_and_take(rt: &impl Abort, numbers: &mut Numbers<InTable>, times: u64) {
    for _ in 0..times {
        let spot = numbers.add(rt);
        numbers.take(rt, spot);
    }
}

// Building the tables goes over all slots, vacant ones too. As many insertions as there are slots
// come before the next time, or a storage that was large once would be slow ever after. Where one
// entry stays, the table of hashes asks for one hash where it is built, beside that of the
// insertion.
#[test]
fn tables_have_room_for_as_many_entries_as_there_are_slots(rt: HostRuntime) {
    let alloc = rt.alloc();
    let mut numbers = Numbers::<InTable>::new(alloc, Sequence::spread());
    leave_one(&rt, alloc, &mut numbers);
    let before = numbers.asked();
    add_and_take(&rt, &mut numbers, 10_230);
    assert!(rt; numbers.asked() <= before.saturating_add(10_230 + 10));
}

// A wrong place would change no answer, and cost those who go by it a look-up.
#[test]
fn a_sweep_asks_by_the_right_places(rt: HostRuntime) {
    let alloc = rt.alloc();
    let mut numbers = Numbers::<InTable>::new(alloc, Sequence::spread());
    let mut spots = numbers.add_all(&rt, alloc, 10);
    numbers.replace(&rt, &mut spots);
    let marks = Placed {
        spots: &spots,
        asked: Cell::new(0),
    };
    numbers.keep(&marks);
    is_equal(&rt, marks.asked.get(), 10);
    numbers.has_all(&rt, &spots);
}

// Sweeps out the entries behind these.
fn sweep<B: Births>(rt: &impl Abort, numbers: &mut Numbers<B>, staying: &[Spot], going: &[Spot]) {
    numbers.keep(&Below(512));
    numbers.has_all(rt, staying);
    numbers.has_none(rt, going);
}

// A round in which entries are added behind these, and swept out.
fn sweeps_small(
    rt: &impl Abort,
    alloc: Global,
    numbers: &mut Numbers<Apart<BirthOrder>>,
    staying: &[Spot],
) {
    let going = numbers.add_all(rt, alloc, 512);
    sweep(rt, numbers, staying, &going);
    assert!(rt; numbers.memory() <= SLOTS * SLOT + BUCKETS * BUCKET);
    assert!(rt; numbers.memory_of_births() <= 2 * SLOTS * PLACE);
}

#[test]
fn an_index_in_order_stays_small(rt: HostRuntime) {
    let alloc = rt.alloc();
    let mut numbers = Numbers::<Apart<BirthOrder>>::new(alloc, Sequence::spread());
    let staying = numbers.add_all(&rt, alloc, 512);
    // Births in row are in no list.
    is_equal(&rt, numbers.memory_of_births(), 0);
    for _ in 0..198 {
        sweeps_small(&rt, alloc, &mut numbers, &staying);
    }
}

// A round in which entries are added behind these, come last then, and are swept out.
fn sweeps_in_order(
    rt: &impl Abort,
    alloc: Global,
    numbers: &mut Numbers<BirthOrder>,
    staying: &[Spot],
) {
    numbers.ends_with(rt, staying);
    let going = numbers.add_all(rt, alloc, 512);
    numbers.ends_with(rt, &going);
    sweep(rt, numbers, staying, &going);
}

#[test]
fn an_index_in_order_gives_its_entries_in_order(rt: HostRuntime) {
    let alloc = rt.alloc();
    let mut numbers = Numbers::<BirthOrder>::new(alloc, Sequence::spread());
    let mut staying = numbers.add_all(&rt, alloc, 512);
    for _ in 0..198 {
        sweeps_in_order(&rt, alloc, &mut numbers, &staying);
    }
    numbers.replace(&rt, &mut staying);
    numbers.ends_with(&rt, &staying);
    is_equal(&rt, numbers.next(), 102_400);
    is_equal(&rt, numbers.len(), 512);
}
