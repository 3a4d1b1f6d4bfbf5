//! Worlds, and runs on them with the replies that they must get.
use intern_fixtures::{GcString, StringSlice, Word, make_gc_string, make_word};
use intern_world::{Back, Call, Numbers, Reply, World, run};
use ra_ap_intern::{Collected, GcInternedVisit, Internable, Limits, Refusal};
use std::alloc::Global;
use std::process::Abort;

pub type Texts = World<Word, GcString, StringSlice>;

pub type Asked = Call<Word, GcString, StringSlice>;

pub type Told = Reply<Word, GcString, String>;

pub type Returned = Back<Word, GcString, String>;

/// The numbers of the worlds of these tests.
pub const NUMBERS: Numbers = Numbers {
    counted: 1,
    values: 2,
    slices: 3,
    table: 4,
};

/// A new world.
pub fn new_world(alloc: Global) -> Texts {
    World::new(alloc, NUMBERS)
}

/// A new world in which counts go to one, and each part gives two births.
pub fn small_world(alloc: Global) -> Texts {
    World::with_limits(alloc, NUMBERS, Limits { top: 1, numbers: 2 })
}

/// Drops a world. A test that does it itself is proved for longer.
pub fn drop_world(_world: Texts) {}

/// Adds a value at the end of a list.
pub fn push<V: Drop>(rt: &impl Abort, list: &mut Vec<V>, value: V) {
    let pushed: Result<_, _> = list.push(value);
    pushed.expect(rt, "memory");
}

pub fn word(rt: &impl Abort, alloc: Global, text: &str) -> Word {
    make_word(alloc, text).expect(rt, "memory")
}

pub fn value(rt: &impl Abort, alloc: Global, text: &str) -> GcString {
    make_gc_string(alloc, text).expect(rt, "memory")
}

pub fn text(rt: &impl Abort, alloc: Global, text: &str) -> String {
    String::from_str(alloc, text).expect(rt, "memory")
}

pub fn items(rt: &impl Abort, alloc: Global, items: &[u32]) -> Vec<u32> {
    items.to_vec(alloc).expect(rt, "memory")
}

/// A handle was made in this slot, and nothing came back.
pub fn made(slot: usize) -> Told {
    Reply::Made(slot, Back::Nothing)
}

/// It is done, and nothing came back.
pub fn done() -> Told {
    Reply::Done(Back::Nothing)
}

/// The call was refused for this reason, and nothing came back.
pub fn refused(why: Refusal) -> Told {
    Reply::Refused(why, Back::Nothing)
}

/// A collection told these visits, mark calls and removed entries.
pub fn collected(visits: usize, mark_calls: u64, removed: usize) -> Told {
    Reply::Collected(Collected {
        visits,
        mark_calls,
        removed,
    })
}

/// Makes the calls in one run, which gives these replies.
pub fn replies(rt: &impl Abort, world: &mut Texts, calls: Vec<Asked>, expected: &[Told]) {
    let told = run(world, calls).ok().expect(rt, "memory");
    assert_eq!(rt; told.len(), expected.len());
    for (i, (reply, wanted)) in told.iter().zip(expected.iter()).enumerate() {
        assert!(rt; is_same(reply, wanted), "call {i}");
    }
}

/// Makes one call.
pub fn reply_to<G: Internable + GcInternedVisit + Drop>(
    rt: &impl Abort,
    alloc: Global,
    world: &mut World<Word, G, StringSlice>,
    call: Call<Word, G, StringSlice>,
) -> Reply<Word, G, String> {
    let mut calls = Vec::new(alloc);
    push(rt, &mut calls, call);
    let mut told = run(world, calls).ok().expect(rt, "memory");
    told.pop().expect(rt, "a reply")
}

/// The reply is this one.
pub fn is_told(rt: &impl Abort, reply: &Told, wanted: &Told) {
    assert!(rt; is_same(reply, wanted));
}

/// Whether two replies are the same, with what came back.
fn is_same(reply: &Told, wanted: &Told) -> bool {
    match reply {
        Reply::Made(n, back) => {
            matches!(wanted, Reply::Made(m, other) if n == m && is_same_back(back, other))
        }
        Reply::Done(back) => matches!(wanted, Reply::Done(other) if is_same_back(back, other)),
        Reply::Number(n) => matches!(wanted, Reply::Number(m) if n == m),
        Reply::Read(is) => matches!(wanted, Reply::Read(other) if is == other),
        Reply::Truth(is) => matches!(wanted, Reply::Truth(other) if is == other),
        Reply::Count(n) => matches!(wanted, Reply::Count(m) if n == m),
        Reply::Uint(n) => matches!(wanted, Reply::Uint(m) if n == m),
        Reply::Collected(told) => matches!(wanted, Reply::Collected(other) if told == other),
        Reply::Refused(why, back) => is_same_refusal((why, back), wanted),
        Reply::WrongSlot => matches!(wanted, Reply::WrongSlot),
    }
}

/// Whether a call was refused for this reason, and the same came back.
fn is_same_refusal((why, back): (&Refusal, &Returned), wanted: &Told) -> bool {
    match wanted {
        Reply::Refused(reason, other) => why == reason && is_same_back(back, other),
        _ => false,
    }
}

/// Whether the same came back.
fn is_same_back(back: &Returned, wanted: &Returned) -> bool {
    match back {
        Back::Nothing => matches!(wanted, Back::Nothing),
        Back::Counted(word) => matches!(wanted, Back::Counted(other) if word == other),
        Back::Value(value) => matches!(wanted, Back::Value(other) if value == other),
        Back::Header(text) => matches!(wanted, Back::Header(other) if text == other),
    }
}
