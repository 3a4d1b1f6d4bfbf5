//! Runs over lists of calls, on worlds.
mod input;
mod one_value;

use crate::collections::node::{Branch, Node};
use crate::fault::{Fault, ensure};
use crate::marks;
use crate::scene::room;
use input::{ALL, CallKind, FOUNDERS, Input};
use intern_world::{Back, Call, Numbers, Reply, Slot, World, run};
pub(crate) use one_value::{check_new, check_one_value};
use ra_ap_intern::{Collected, Refusal, Text};
use std::alloc::{AllocError, Global};

/// How many lists of calls are run, each with every call that may want memory.
const ROUNDS: usize = 140;

/// How many nodes, and how many slices, a world has that collects and keeps some of them.
const LISTED: usize = 16;

/// How many slots the world of a `Watched` has at its beginning.
const FIRST: usize = 3;

/// What a run asks for is asked by the run itself, or by one of its calls.
const ASKED: &str =
    "run | Call::New | Call::NewGc | Call::FromHeaderAndSlice | Call::Intern | Call::IntegerGet | Call::GeneratedGet | Call::Collect";

type TestWorld = World<Text, Node, Branch>;

type TestCall = Call<Text, Node, Branch>;

type Calls = Vec<TestCall>;

type TestReply = Reply<Text, Node, Node>;

type Replies = Vec<TestReply>;

/// A handle in a slot.
#[derive(Clone, Copy)]
struct Held {
    kind: CallKind,
    number: usize,
    is_gone: bool,
}

/// A world with what it has to hold: two nodes in the first slots, an owned one and the one that it
/// declares, and then what the calls of the inputs stored.
#[derive(Drop)]
struct Watched {
    world: TestWorld,
    inputs: Vec<Input>,
    held: Vec<Held>,
}

/// Checks `run`, and each call of a list that may want memory.
pub(crate) fn check_runs(rt: &(impl Print + Eprint), alloc: Global) -> Result<(), Fault> {
    run_rounds(rt, alloc)?;
    println!(rt; "run: {ROUNDS}")?;
    for kind in ALL.iter() {
        println!(rt; "{}: {ROUNDS}", kind.name())?;
    }
    Ok(())
}

/// Checks `World::collect_keeping`.
pub(crate) fn check_keeping(rt: &(impl Print + Eprint), alloc: Global) -> Result<(), Fault> {
    let visits = keep_some(rt, alloc)?;
    println!(rt; "World::collect_keeping: {visits}")?;
    Ok(())
}

fn run_rounds(rt: &impl Eprint, alloc: Global) -> Result<(), Fault> {
    marks::prepares(rt);
    let mut watched = Watched::new(alloc)?;
    watched.run_rounds(rt, alloc)
}

// Stores some entries and collects. Tells the visits.
fn keep_some(rt: &impl Eprint, alloc: Global) -> Result<usize, Fault> {
    marks::prepares(rt);
    let mut watched = Watched::new(alloc)?;
    watched.keep_some(rt, alloc)
}

// The numbers of a world.
const NUMBERS: Numbers = Numbers {
    counted: 7,
    values: 8,
    slices: 9,
    table: 10,
};

// A world with nothing in it.
fn new_world(alloc: Global) -> TestWorld {
    World::new(alloc, NUMBERS)
}

// A world with two nodes, the second of which is owned and declares the first.
fn make_world(alloc: Global) -> Result<TestWorld, Fault> {
    let mut world = new_world(alloc);
    make_founders(&mut world, alloc)?;
    Ok(world)
}

// At the second try where the first is refused.
fn make_world_surely(alloc: Global) -> Result<TestWorld, Fault> {
    match make_world(alloc) {
        Err(Fault::NoMemory | Fault::RefusedTwice) => make_world(alloc),
        made => made,
    }
}

fn make_founders(world: &mut TestWorld, alloc: Global) -> Result<(), Fault> {
    make_one(world, alloc, Call::NewGc(Node::new(ROUNDS, None)))?;
    let leaf = match world.slot(0) {
        Some(Slot::ValueRef(leaf)) => Some(*leaf),
        _ => return Err(Fault::Wrong("a slot holds something else")),
    };
    make_one(world, alloc, Call::NewGc(Node::new(ROUNDS, leaf)))?;
    make_one(world, alloc, Call::ToOwned(1))
}

// Makes the calls. Where the run is refused, they come back.
fn run_all(world: &mut TestWorld, calls: Calls) -> Result<Replies, Calls> {
    run(world, calls)
}

// Makes the calls. Where the run is refused, they are dropped.
fn run_or_drop(world: &mut TestWorld, calls: Calls) -> Result<Replies, Fault> {
    match run_all(world, calls) {
        Ok(replies) => Ok(replies),
        Err(_) => Err(Fault::NoMemory),
    }
}

// Runs one call, which gives a handle.
fn make_one(world: &mut TestWorld, alloc: Global, call: TestCall) -> Result<(), Fault> {
    let replies = run_or_drop(world, list_of(alloc, call)?)?;
    is_made(replies.get(0))
}

// A list of one call.
fn list_of(alloc: Global, call: TestCall) -> Result<Calls, AllocError> {
    let mut calls = Vec::new(alloc);
    calls.push(call)?;
    Ok(calls)
}

fn is_made(reply: Option<&TestReply>) -> Result<(), Fault> {
    match reply {
        Some(Reply::Made(_, Back::Nothing)) => Ok(()),
        Some(Reply::Refused(Refusal::OutOfMemory, _)) => Err(Fault::NoMemory),
        _ => Err(Fault::Wrong("a call of a run has a wrong reply")),
    }
}

// The slot of the n-th handle that a list of calls gave.
fn slot_of(n: usize) -> usize {
    n.saturating_add(FIRST)
}

impl Watched {
    fn new(alloc: Global) -> Result<Watched, Fault> {
        Ok(Watched {
            inputs: room(alloc, ROUNDS)?,
            held: room(alloc, ALL.len() * ROUNDS)?,
            world: make_world_surely(alloc)?,
        })
    }

    fn run_rounds(&mut self, rt: &impl Eprint, alloc: Global) -> Result<(), Fault> {
        for number in 0..ROUNDS {
            self.run_round(rt, alloc, number)?;
        }
        marks::takes_none(rt, "reads of a world");
        self.is_as_it_was()
    }

    // Tells the visits.
    fn keep_some(&mut self, rt: &impl Eprint, alloc: Global) -> Result<usize, Fault> {
        for number in 0..LISTED {
            self.store(rt, alloc, number)?;
        }
        self.keep_listed(rt, alloc)
    }

    // Makes all calls, the last of which collects what they stored, and collects what was stored
    // only at a second try.
    fn run_round(&mut self, rt: &impl Eprint, alloc: Global, number: usize) -> Result<(), Fault> {
        self.add_input(rt, alloc, number)?;
        self.make_all(rt, alloc, &ALL)?;
        if self.uncounted(self.inputs.len()) > 0 {
            self.make_all(rt, alloc, &[CallKind::Collect])?;
        }
        Ok(())
    }

    // Stores a node and a slice.
    fn store(&mut self, rt: &impl Eprint, alloc: Global, number: usize) -> Result<(), Fault> {
        self.add_input(rt, alloc, number)?;
        self.make_all(rt, alloc, &[CallKind::NewGc, CallKind::FromHeaderAndSlice])
    }

    fn add_input(&mut self, rt: &impl Eprint, alloc: Global, number: usize) -> Result<(), Fault> {
        marks::prepares(rt);
        self.inputs.push(Input::make(alloc, number)?)?;
        Ok(())
    }

    fn input(&self) -> Result<&Input, Fault> {
        self.inputs.last().ok_or(Fault::Wrong("there is no input"))
    }

    // Makes the calls of the last input. Where one is refused, nothing has changed by it, and it is
    // made once more.
    fn make_all(
        &mut self,
        rt: &impl Eprint,
        alloc: Global,
        kinds: &[CallKind],
    ) -> Result<(), Fault> {
        let Some(refused) = self.make(rt, alloc, kinds)? else {
            return Ok(());
        };
        marks::refused(rt, refused.name());
        self.is_as_it_was()?;
        match self.make(rt, alloc, &[refused])? {
            None => Ok(()),
            Some(_) => Err(Fault::NoMemory),
        }
    }

    // Runs the calls of the last input, and tells which one was refused. Where the run is refused,
    // the calls are back and all is as it was, and the run is made once more.
    fn make(
        &mut self,
        rt: &impl Eprint,
        alloc: Global,
        kinds: &[CallKind],
    ) -> Result<Option<CallKind>, Fault> {
        let calls = self.input()?.calls(alloc, kinds)?;
        let replies = self.run(rt, calls, kinds)?;
        self.take(&replies, kinds)
    }

    fn run(
        &mut self,
        rt: &impl Eprint,
        calls: Calls,
        kinds: &[CallKind],
    ) -> Result<Replies, Fault> {
        marks::asks(rt, ASKED);
        match run_all(&mut self.world, calls) {
            Ok(replies) => Ok(replies),
            Err(back) => {
                marks::refused(rt, "run");
                self.are_back(&back, kinds)?;
                run_or_drop(&mut self.world, back)
            }
        }
    }

    // Fails unless the calls are back and all is as it was.
    fn are_back(&self, back: &Calls, kinds: &[CallKind]) -> Result<(), Fault> {
        ensure(back.len() == kinds.len(), "more or fewer calls came back")?;
        let input = self.input()?;
        for (call, kind) in back.iter().zip(kinds.iter()) {
            ensure(input.is_call(*kind, call), "another call came back")?;
        }
        self.is_as_it_was()
    }

    // Fails unless each call has its reply. Tells which one was refused.
    fn take(&mut self, replies: &Replies, kinds: &[CallKind]) -> Result<Option<CallKind>, Fault> {
        ensure(
            replies.len() == kinds.len(),
            "there are more or fewer replies than calls",
        )?;
        let mut refused = None;
        for (reply, kind) in replies.iter().zip(kinds.iter()) {
            if !self.is_made(reply, *kind)? {
                ensure(refused.is_none(), "two calls of a run were refused")?;
                refused = Some(*kind);
            }
        }
        Ok(refused)
    }

    // Whether a call was made, and not refused.
    fn is_made(&mut self, reply: &TestReply, kind: CallKind) -> Result<bool, Fault> {
        match reply {
            Reply::Made(slot, Back::Nothing) => {
                self.hold(*slot, kind)?;
                Ok(true)
            }
            Reply::Collected(told) if kind == CallKind::Collect => {
                ensure(
                    *told == self.told(0),
                    "a collection in a run tells something else",
                )?;
                self.sweep(0);
                Ok(true)
            }
            Reply::Refused(Refusal::OutOfMemory, back) => {
                ensure(
                    self.input()?.is_back(kind, back),
                    "a refused call gave back something else",
                )?;
                Ok(false)
            }
            _ => Err(Fault::Wrong("a call of a run has a wrong reply")),
        }
    }

    fn hold(&mut self, slot: usize, kind: CallKind) -> Result<(), Fault> {
        ensure(
            slot == slot_of(self.held.len()) && kind != CallKind::Collect,
            "a handle was made in another slot",
        )?;
        let number = self.inputs.len().saturating_sub(1);
        self.held.push(Held {
            kind,
            number,
            is_gone: false,
        })?;
        Ok(())
    }

    // Collects, and keeps what is in the slots of the lower half of the inputs. Tells the visits.
    fn keep_listed(&mut self, rt: &impl Eprint, alloc: Global) -> Result<usize, Fault> {
        marks::prepares(rt);
        let slots = self.slots_below(alloc, LISTED / 2)?;
        self.keep(rt, &slots, LISTED / 2)
    }

    // Collects, and keeps these slots, which are those of the inputs below a number.
    fn keep(&mut self, rt: &impl Eprint, slots: &[usize], listed: usize) -> Result<usize, Fault> {
        let told = self.collect(rt, slots)?;
        ensure(
            told == self.told(listed),
            "a collection that keeps slots tells something else",
        )?;
        self.sweep(listed);
        marks::takes_none(rt, "reads of a world");
        self.is_as_it_was()?;
        Ok(told.visits)
    }

    // The slots of the inputs below a number.
    fn slots_below(&self, alloc: Global, number: usize) -> Result<Vec<usize>, AllocError> {
        let mut slots = room(alloc, self.held.len())?;
        for (held, n) in self.held.iter().zip(0..) {
            if held.number < number {
                slots.push(slot_of(n))?;
            }
        }
        Ok(slots)
    }

    // Makes the call. Where it is refused, all is as it was, and it is made once more.
    fn collect(&mut self, rt: &impl Eprint, slots: &[usize]) -> Result<Collected, Fault> {
        marks::asks(rt, "World::collect_keeping");
        match self.try_collect(slots) {
            Err(Fault::NoMemory) => {
                marks::refused(rt, "World::collect_keeping");
                self.is_as_it_was()?;
                self.try_collect(slots)
            }
            told => told,
        }
    }

    fn try_collect(&mut self, slots: &[usize]) -> Result<Collected, Fault> {
        match self.world.collect_keeping(slots) {
            Reply::Collected(told) => Ok(told),
            Reply::Refused(Refusal::OutOfMemory, Back::Nothing) => Err(Fault::NoMemory),
            _ => Err(Fault::Wrong("a collection that keeps slots is refused")),
        }
    }

    // What a collection tells that keeps what the inputs below a number stored.
    fn told(&self, listed: usize) -> Collected {
        let kept = self.uncounted(listed);
        Collected {
            visits: kept.saturating_add(FOUNDERS),
            mark_calls: 1,
            removed: self.uncounted(self.inputs.len()).saturating_sub(kept),
        }
    }

    // What else was stored, and is collected, is gone.
    fn sweep(&mut self, listed: usize) {
        for held in self.held.iter_mut() {
            if held.kind.is_collected() && held.number >= listed {
                held.is_gone = true;
            }
        }
    }

    // How many entries the inputs below a number stored that the next collection removes.
    fn uncounted(&self, below: usize) -> usize {
        let mut count: usize = 0;
        for held in self.held.iter() {
            if held.is_uncounted() && held.number < below {
                count = count.saturating_add(1);
            }
        }
        count
    }

    // How many entries the calls of a kind stored that are not gone.
    fn stored(&self, kind: CallKind) -> usize {
        let mut count: usize = 0;
        for held in self.held.iter() {
            if held.kind == kind && !held.is_gone {
                count = count.saturating_add(1);
            }
        }
        count
    }

    // Fails unless the world has exactly the slots and the entries that it has to have.
    fn is_as_it_was(&self) -> Result<(), Fault> {
        self.check_lengths()?;
        self.check_founders()?;
        for (held, n) in self.held.iter().zip(0..) {
            let slot = self.world.slot(slot_of(n));
            let is_right = match (slot, self.inputs.get(held.number)) {
                (Some(slot), Some(input)) => {
                    input.is_held(held.kind, slot, &self.world, held.is_gone)
                }
                _ => false,
            };
            ensure(is_right, "a slot of a world is not as it was")?;
        }
        ensure(
            self.world.slot(slot_of(self.held.len())).is_none(),
            "a world has another number of slots",
        )
    }

    fn check_lengths(&self) -> Result<(), Fault> {
        let texts = self
            .stored(CallKind::Intern)
            .saturating_add(self.stored(CallKind::IntegerGet))
            .saturating_add(self.stored(CallKind::GeneratedGet));
        let nodes = self.stored(CallKind::NewGc).saturating_add(FOUNDERS);
        ensure(
            self.world.counted().len() == self.stored(CallKind::New)
                && self.world.values().len() == nodes
                && self.world.slices().len() == self.stored(CallKind::FromHeaderAndSlice)
                && self.world.table().len() == texts,
            "a storage of a world has another length",
        )
    }

    // Fails unless the first nodes are there, the second with one owner.
    fn check_founders(&self) -> Result<(), Fault> {
        let nodes = self.world.values();
        let is_right = match (self.world.slot(0), self.world.slot(1), self.world.slot(2)) {
            (Some(Slot::ValueRef(leaf)), Some(Slot::ValueRef(parent)), Some(Slot::Value(owner))) =>
                {
                    leaf.get(nodes) == Some(&Node::new(ROUNDS, None))
                        && owner.get(nodes) == Some(&Node::new(ROUNDS, Some(*leaf)))
                        && nodes.count(*leaf) == Some(0)
                        && nodes.count(*parent) == Some(1)
                        && owner.as_ref() == *parent
                }
            _ => false,
        };
        ensure(is_right, "a node of a world is not as it was")
    }
}

impl Held {
    // Whether the next collection removes the entry, unless its slot is listed.
    fn is_uncounted(&self) -> bool {
        self.kind.is_collected() && !self.is_gone
    }
}
