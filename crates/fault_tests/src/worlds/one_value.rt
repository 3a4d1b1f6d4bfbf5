//! A run that interns one value twice, on a new world. Where its first call is refused for want of
//! memory, its third gives the first handle.
use super::{
    Calls, NUMBERS, Replies, TestCall, TestReply, TestWorld, new_world, run_all, run_or_drop,
};
use crate::fault::{Fault, ensure};
use crate::marks;
use intern_world::{Back, Call, Reply, World};
use ra_ap_intern::{Limits, Refusal, Text};
use std::alloc::{AllocError, Global};

/// The value. It takes no memory beside its entry.
const VALUE: &str = "x";

/// How many calls the run has.
const CALLS: usize = 8;

/// What the run asks for is asked by the run itself, or by its first call.
const ASKED: &str = "run, on one value | Call::New, first of a run on one value";

/// Checks the making of worlds, which takes no memory, and reads of them.
pub(crate) fn check_new(rt: &impl Eprint, alloc: Global) -> Result<(), Fault> {
    marks::takes_none(
        rt,
        "World::new, World::with_limits and reads of a new world",
    );
    check_nothing(&new_world(alloc))?;
    check_limited(alloc)
}

fn check_limited(alloc: Global) -> Result<(), Fault> {
    let limits = Limits { top: 1, numbers: 1 };
    check_nothing(&World::with_limits(alloc, NUMBERS, limits))
}

/// Checks its replies, and that at the end the world has no entry.
pub(crate) fn check_one_value(rt: &(impl Print + Eprint), alloc: Global) -> Result<(), Fault> {
    run_one_value(rt, alloc)?;
    println!(rt; "run, on one value: {CALLS}")?;
    println!(rt; "Call::New, first of a run on one value: {CALLS}")?;
    Ok(())
}

fn run_one_value(rt: &impl Eprint, alloc: Global) -> Result<(), Fault> {
    marks::prepares(rt);
    run_in(rt, alloc, &mut new_world(alloc))
}

fn run_in(rt: &impl Eprint, alloc: Global, world: &mut TestWorld) -> Result<(), Fault> {
    let calls = calls(alloc)?;
    let replies = run_calls(rt, world, calls)?;
    marks::takes_none(rt, "reads of a world");
    check_replies(rt, &replies)?;
    check_empty(world)
}

fn check_replies(rt: &impl Eprint, replies: &Replies) -> Result<(), Fault> {
    if is_first_refused(replies) {
        marks::refused(rt, "Call::New, first of a run on one value");
        return Ok(());
    }
    ensure(
        are_all_made(replies),
        "a run on one value has a wrong reply",
    )
}

// At the second try where the first is refused.
fn calls(alloc: Global) -> Result<Calls, AllocError> {
    match try_calls(alloc) {
        Ok(calls) => Ok(calls),
        Err(_) => try_calls(alloc),
    }
}

// The value is interned twice and both handles are released. Then the reference is read, and the
// first slot released again.
fn try_calls(alloc: Global) -> Result<Calls, AllocError> {
    let mut calls = Vec::with_capacity(alloc, CALLS)?;
    for place in 0..CALLS {
        let call = call_at(alloc, place)?;
        calls.push(call)?;
    }
    Ok(calls)
}

// The call at a place.
fn call_at(alloc: Global, place: usize) -> Result<TestCall, AllocError> {
    Ok(match place {
        0 | 2 => Call::New(Text::new(alloc, VALUE)?),
        1 => Call::AsRef(0),
        3 => Call::Same(0, 2),
        5 => Call::Release(2),
        6 => Call::ReadsCounted(1, Text::new(alloc, VALUE)?),
        _ => Call::Release(0),
    })
}

// Where the room for replies and slots is refused, the calls are back and the world is as it was,
// and the run is made once more.
fn run_calls(rt: &impl Eprint, world: &mut TestWorld, calls: Calls) -> Result<Replies, Fault> {
    marks::asks(rt, ASKED);
    match run_all(world, calls) {
        Ok(replies) => Ok(replies),
        Err(back) => {
            marks::refused(rt, "run, on one value");
            check_back(world, &back)?;
            run_or_drop(world, back)
        }
    }
}

fn check_back(world: &TestWorld, back: &Calls) -> Result<(), Fault> {
    ensure(are_calls(back), "other calls came back")?;
    check_nothing(world)
}

// Fails unless there is no slot, and no storage has an entry.
fn check_nothing(world: &TestWorld) -> Result<(), Fault> {
    ensure(world.slot(0).is_none(), "a world has a slot too many")?;
    check_empty(world)
}

// Fails unless no storage has an entry.
fn check_empty(world: &TestWorld) -> Result<(), Fault> {
    ensure(
        world.counted().is_empty()
            && world.values().is_empty()
            && world.slices().is_empty()
            && world.table().is_empty(),
        "a world has an entry too many",
    )
}

// Whether these are the calls of the run.
fn are_calls(calls: &Calls) -> bool {
    match calls.as_slice() {
        [first, second, third, fourth, fifth, sixth, seventh, eighth] => {
            matches!(first, Call::New(text) if is_value(text))
                && matches!(second, Call::AsRef(0))
                && matches!(third, Call::New(text) if is_value(text))
                && matches!(fourth, Call::Same(0, 2))
                && matches!(fifth, Call::Release(0))
                && matches!(sixth, Call::Release(2))
                && matches!(seventh, Call::ReadsCounted(1, text) if is_value(text))
                && matches!(eighth, Call::Release(0))
        }
        _ => false,
    }
}

// Whether these are the replies where the first call is refused for want of memory.
fn is_first_refused(replies: &Replies) -> bool {
    match replies.as_slice() {
        [first, second, third, fourth, fifth, sixth, seventh, eighth] => {
            is_refused(first)
                && matches!(second, Reply::WrongSlot)
                && matches!(third, Reply::Made(0, Back::Nothing))
                && matches!(fourth, Reply::WrongSlot)
                && matches!(fifth, Reply::Done(Back::Counted(text)) if is_value(text))
                && matches!(sixth, Reply::WrongSlot)
                && matches!(seventh, Reply::WrongSlot)
                && matches!(eighth, Reply::WrongSlot)
        }
        _ => false,
    }
}

// Whether a call was refused for want of memory, and the value came back.
fn is_refused(reply: &TestReply) -> bool {
    match reply {
        Reply::Refused(Refusal::OutOfMemory, Back::Counted(text)) => is_value(text),
        _ => false,
    }
}

// Whether these are the replies where no call is refused.
fn are_all_made(replies: &Replies) -> bool {
    match replies.as_slice() {
        [first, second, third, fourth, fifth, sixth, seventh, eighth] => {
            matches!(first, Reply::Made(0, Back::Nothing))
                && matches!(second, Reply::Made(1, Back::Nothing))
                && matches!(third, Reply::Made(2, Back::Counted(text)) if is_value(text))
                && matches!(fourth, Reply::Truth(true))
                && matches!(fifth, Reply::Done(Back::Nothing))
                && matches!(sixth, Reply::Done(Back::Counted(text)) if is_value(text))
                && matches!(seventh, Reply::Read(None))
                && matches!(eighth, Reply::WrongSlot)
        }
        _ => false,
    }
}

fn is_value(text: &Text) -> bool {
    text.as_str() == VALUE
}
