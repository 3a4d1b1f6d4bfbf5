//! Calls and replies as plain data, for tables.
use crate::worlds::{
    Asked, Returned, Texts, Told, collected, done, items, made, new_world, push, refused, replies,
    small_world, text, value, word,
};
use intern_fixtures::{GcString, Word};
use intern_world::{Back, Call, Kind, Reply, Slot, Which};
use ra_ap_intern::Refusal;
use std::alloc::Global;
use std::process::Abort;

/// What stands for a text in a table.
pub trait Wording {
    /// The text.
    fn text(&self, rt: &impl Abort, alloc: Global) -> String;
}

impl Wording for &'static str {
    fn text(&self, rt: &impl Abort, alloc: Global) -> String {
        text(rt, alloc, *self)
    }
}

/// A call, with what stands for texts in the place of what it takes.
#[derive(Clone, Copy)]
pub enum Ask<W> {
    New(W),
    NewGc(W),
    FromHeaderAndSlice(W, &'static [u32]),
    Intern(W),
    IntegerGet(usize),
    GeneratedGet(usize),
    Empty,
    PutEmpty,
    FromRaw(Kind, u64),
    AsRef(usize),
    Clone(usize),
    ToOwned(usize),
    Release(usize),
    Decrement(usize),
    AsRaw(usize),
    ReadsCounted(usize, W),
    ReadsValue(usize, W),
    ReadsSlice(usize, W, &'static [u32]),
    ReadsText(usize, W),
    Same(usize, usize),
    Count(usize),
    Len(Which),
    AsUint(usize),
    Collect,
}

/// A reply. What comes back, if anything, is told by its part and its text.
#[derive(Clone, Copy)]
pub enum Tell<W> {
    Made(usize),
    MadeAgain(usize, Which, W),
    Done,
    Freed(Which, W),
    Number(u64),
    Read(Option<bool>),
    Truth(bool),
    Count(Option<u64>),
    Uint(Option<usize>),
    Collected(usize, u64, usize),
    Refused(Refusal),
    GivenBack(Refusal, Which, W),
    WrongSlot,
}

/// A call with its reply.
pub type Row = (Ask<&'static str>, Tell<&'static str>);

/// Makes the calls in one run on a new world.
pub fn tells_anew(rt: &impl Abort, alloc: Global, table: &[Row]) {
    tells(rt, alloc, &mut new_world(alloc), table);
}

/// Makes the calls in one run on a new world with small limits.
pub fn small_tells(rt: &impl Abort, alloc: Global, table: &[Row]) {
    tells(rt, alloc, &mut small_world(alloc), table);
}

/// Makes the calls in one run, which gives the replies beside them.
pub fn tells<W: Wording>(
    rt: &impl Abort,
    alloc: Global,
    world: &mut Texts,
    table: &[(Ask<W>, Tell<W>)],
) {
    let mut calls = Vec::new(alloc);
    let mut expected = Vec::new(alloc);
    for (ask, tell) in table {
        push(rt, &mut calls, call_of(rt, alloc, ask));
        push(rt, &mut expected, reply_of(rt, alloc, tell));
    }
    replies(rt, world, calls, &expected);
}

/// The call of a table.
pub fn call_of<W: Wording>(rt: &impl Abort, alloc: Global, ask: &Ask<W>) -> Asked {
    match ask {
        Ask::New(t) => Call::New(word_of(rt, alloc, t)),
        Ask::NewGc(t) => Call::NewGc(value_of(rt, alloc, t)),
        Ask::FromHeaderAndSlice(t, list) => {
            Call::FromHeaderAndSlice(t.text(rt, alloc), items(rt, alloc, list))
        }
        Ask::Intern(t) => Call::Intern(t.text(rt, alloc)),
        Ask::ReadsCounted(n, t) => Call::ReadsCounted(*n, word_of(rt, alloc, t)),
        Ask::ReadsValue(n, t) => Call::ReadsValue(*n, value_of(rt, alloc, t)),
        Ask::ReadsSlice(n, t, list) => {
            Call::ReadsSlice(*n, t.text(rt, alloc), items(rt, alloc, list))
        }
        Ask::ReadsText(n, t) => Call::ReadsText(*n, t.text(rt, alloc)),
        _ => plain_call_of(ask),
    }
}

/// A call that takes no text. Collect in the place of any other.
fn plain_call_of<W: Wording>(ask: &Ask<W>) -> Asked {
    match ask {
        Ask::IntegerGet(n) => Call::IntegerGet(*n),
        Ask::GeneratedGet(n) => Call::GeneratedGet(*n),
        Ask::Empty => Call::Empty,
        Ask::PutEmpty => Call::Put(Slot::Empty),
        Ask::FromRaw(kind, birth) => Call::FromRaw(*kind, *birth),
        Ask::AsRef(n) => Call::AsRef(*n),
        Ask::Clone(n) => Call::Clone(*n),
        Ask::ToOwned(n) => Call::ToOwned(*n),
        Ask::Release(n) => Call::Release(*n),
        Ask::Decrement(n) => Call::Decrement(*n),
        Ask::AsRaw(n) => Call::AsRaw(*n),
        Ask::Same(n, m) => Call::Same(*n, *m),
        Ask::Count(n) => Call::Count(*n),
        Ask::Len(which) => Call::Len(*which),
        Ask::AsUint(n) => Call::AsUint(*n),
        _ => Call::Collect,
    }
}

fn reply_of<W: Wording>(rt: &impl Abort, alloc: Global, tell: &Tell<W>) -> Told {
    match tell {
        Tell::Made(n) => made(*n),
        Tell::MadeAgain(n, which, t) => Reply::Made(*n, back_of(rt, alloc, *which, t)),
        Tell::Done => done(),
        Tell::Freed(which, t) => Reply::Done(back_of(rt, alloc, *which, t)),
        Tell::Number(n) => Reply::Number(*n),
        Tell::Read(is) => Reply::Read(*is),
        Tell::Truth(is) => Reply::Truth(*is),
        Tell::Count(n) => Reply::Count(*n),
        Tell::Uint(n) => Reply::Uint(*n),
        Tell::Collected(visits, mark_calls, removed) => collected(*visits, *mark_calls, *removed),
        Tell::Refused(why) => refused(*why),
        Tell::GivenBack(why, which, t) => Reply::Refused(*why, back_of(rt, alloc, *which, t)),
        Tell::WrongSlot => Reply::WrongSlot,
    }
}

fn back_of<W: Wording>(rt: &impl Abort, alloc: Global, which: Which, t: &W) -> Returned {
    match which {
        Which::Counted => Back::Counted(word_of(rt, alloc, t)),
        Which::Values => Back::Value(value_of(rt, alloc, t)),
        Which::Slices => Back::Header(t.text(rt, alloc)),
        Which::Symbols => Back::Nothing,
    }
}

fn word_of<W: Wording>(rt: &impl Abort, alloc: Global, wording: &W) -> Word {
    word(rt, alloc, wording.text(rt, alloc).as_str())
}

fn value_of<W: Wording>(rt: &impl Abort, alloc: Global, wording: &W) -> GcString {
    value(rt, alloc, wording.text(rt, alloc).as_str())
}
