//! Many calls of all kinds, in the order that a generator draws, over three stores at once.
ghost use Rattle.std.specs.Prelude.{◌<◌};

use crate::sides::Side;
use crate::texts::{is_equal, push};
use intern_fixtures::Dice;
use intern_terms::{Term, TermRef};
use std::alloc::Global;
use std::process::Abort;

/// How many calls draw a term that they are made of.
const DRAWING: usize = 9;

/// Three stores, of the numbers 3 to 5, the owners of their terms, what draws the calls, the call
/// that is drawn, and which calls met a term that is there, one that is gone and one of another
/// store.
#[derive(Drop)]
struct Run {
    alloc: Global,
    sides: Vec<Side>,
    owners: Vec<Term>,
    dice: Dice,
    call: usize,
    met: Vec<bool>,
}

#[test]
fn ten_thousand_calls(rt: HostRuntime) {
    let mut run = new_run(&rt, rt.alloc());
    for _ in 0..10_000 {
        run.call(&rt);
    }
    for store in 0..3 {
        run.side_mut(&rt, store).is_as_told(&rt);
    }
    assert!(rt; run.met.iter().all(|is_met| *is_met));
}

/// A store in which counts go to two, one that gives 150 births, and one with the largest limits,
/// each with a term.
fn new_run(rt: &impl Abort, alloc: Global) -> Run {
    let mut run = Run {
        alloc,
        sides: Vec::new(alloc),
        owners: Vec::new(alloc),
        dice: Dice::new(1),
        call: 0,
        met: Vec::new(alloc),
    };
    run.add(rt, Side::new(alloc, 3, 2, 4_000));
    run.add(rt, Side::new(alloc, 4, 3, 150));
    run.add(rt, Side::without_limits(alloc, 5));
    for _ in 0..3 * DRAWING {
        push(rt, &mut run.met, false);
    }
    run
}

impl Run {
    /// Adds a store, which makes its first term.
    fn add(&mut self, rt: &impl Abort, mut side: Side) {
        side.make(rt, 0, &[]);
        push(rt, &mut self.sides, side);
    }

    /// Makes a call that is drawn, on a store that is drawn.
    fn call(&mut self, rt: &impl Abort) {
        let store = self.dice.below(3) as usize;
        self.call = draw_call(&mut self.dice);
        match self.call {
            0 => self.make(rt, store),
            1 => self.make_again(rt, store),
            2 => self.get(rt, store),
            3 => self.read(rt, store),
            4 => self.write(rt, store),
            5 => self.keep(rt, store),
            6 => self.compare(rt, store),
            7 => self.walk(rt, store),
            8 => self.collect(rt, store),
            9 => self.clone(rt),
            _ => self.release(rt),
        }
    }

    fn side(&self, rt: &impl Abort, store: usize) -> &Side {
        self.sides.get(store).expect(rt, "a store")
    }

    fn side_mut(&mut self, rt: &impl Abort, store: usize) -> &mut Side {
        self.sides.get_mut(store).expect(rt, "a store")
    }

    /// Draws a term that a store gave, one of the last or any.
    fn draw_of(&mut self, rt: &impl Abort, store: usize) -> TermRef {
        let births = self.side(rt, store).trees.births();
        let birth = draw_birth(&mut self.dice, births as u64) as usize;
        self.side(rt, store).trees.term_at(rt, birth)
    }

    /// Draws a term for this call, mostly one that this store can read.
    fn draw(&mut self, rt: &impl Abort, store: usize) -> TermRef {
        let from = draw_store(&mut self.dice, store, 16);
        let term = self.draw_readable(rt, from);
        self.meet(rt, store, term);
        term
    }

    /// Draws a term of this store, several times if it can't be read.
    fn draw_readable(&mut self, rt: &impl Abort, store: usize) -> TermRef {
        let mut term = self.draw_of(rt, store);
        for _ in 0..self.dice.below(8) {
            if !self.side(rt, store).trees.is_there(term) {
                term = self.draw_of(rt, store);
            }
        }
        term
    }

    /// Notes that the call meets a term: one that is there, one that is gone, or one of another
    /// store.
    fn meet(&mut self, rt: &impl Abort, store: usize, term: TermRef) {
        let rank = match self.side(rt, store).trees.unread(term) {
            None => 0,
            Some(why) => why.number() as usize,
        };
        let place = self.call.saturating_mul(3).saturating_add(rank);
        *self.met.get_mut(place).expect(rt, "a call that draws") = true;
    }

    /// Draws up to three terms. Those that make too large a tree are left out.
    fn draw_some(&mut self, rt: &impl Abort, store: usize) -> Vec<TermRef> {
        let mut terms = Vec::new(self.alloc);
        for _ in 0..self.dice.below(4) {
            let term = self.draw(rt, store);
            push(rt, &mut terms, term);
        }
        if self.side(rt, store).trees.size_of(&terms) > 40 {
            terms.clear();
        }
        terms
    }

    fn make(&mut self, rt: &impl Abort, store: usize) {
        let head = self.dice.below(4) as usize;
        let args = self.draw_some(rt, store);
        self.side_mut(rt, store).make(rt, head, &args);
    }

    /// Makes a term with the head and the arguments of one that was made before.
    fn make_again(&mut self, rt: &impl Abort, store: usize) {
        let term = self.draw(rt, store);
        let alloc = self.alloc;
        self.side_mut(rt, store).make_again(rt, alloc, term);
    }

    fn get(&mut self, rt: &impl Abort, store: usize) {
        let head = self.dice.below(4) as usize;
        let args = self.draw_some(rt, store);
        self.side_mut(rt, store).get(rt, head, &args);
    }

    fn read(&mut self, rt: &impl Abort, store: usize) {
        let term = self.draw(rt, store);
        self.side_mut(rt, store).reads(rt, term);
    }

    /// Writes a term, with a bound that is often too small.
    fn write(&mut self, rt: &impl Abort, store: usize) {
        let term = self.draw(rt, store);
        let most = self.dice.below(24) as usize;
        self.side(rt, store).writes(rt, term, most);
    }

    fn keep(&mut self, rt: &impl Abort, store: usize) {
        let term = self.draw(rt, store);
        let kept = self.side_mut(rt, store).keep(rt, term);
        self.put(rt, kept);
    }

    /// Adds an owner, if there is one.
    fn put(&mut self, rt: &impl Abort, owner: Option<Term>) {
        if let Some(owner) = owner {
            push(rt, &mut self.owners, owner);
        }
    }

    /// Takes an owner that is drawn.
    fn take(&mut self) -> Option<Term> {
        let place = self.dice.below(1 + self.owners.len() as u64) as usize;
        if place < self.owners.len() {
            Some(self.owners.swap_remove(place))
        } else {
            None
        }
    }

    fn clone(&mut self, rt: &impl Abort) {
        if let Some(owner) = self.take() {
            let store = draw_store(&mut self.dice, store_of(&owner), 8);
            let second = self.side_mut(rt, store).clone(rt, &owner);
            push(rt, &mut self.owners, owner);
            self.put(rt, second);
        }
    }

    fn release(&mut self, rt: &impl Abort) {
        if let Some(owner) = self.take() {
            let store = draw_store(&mut self.dice, store_of(&owner), 8);
            let back = self.side_mut(rt, store).release(rt, owner);
            self.put(rt, back);
        }
    }

    /// Two terms are equal exactly if their names are, and equal trees are one term.
    fn compare(&mut self, rt: &impl Abort, store: usize) {
        let term = self.draw(rt, store);
        let other = self.draw(rt, store);
        is_equal(rt, term == other, term.name() == other.name());
        self.side(rt, store).compares(rt, term, other);
    }

    fn walk(&mut self, rt: &impl Abort, store: usize) {
        let roots = self.draw_some(rt, store);
        self.side(rt, store).walk(rt, &roots);
    }

    fn collect(&mut self, rt: &impl Abort, store: usize) {
        let roots = self.draw_some(rt, store);
        self.side_mut(rt, store).collect(rt, &roots);
    }
}

/// The place of an owner's store.
fn store_of(owner: &Term) -> usize {
    owner.as_ref().name().storage.saturating_sub(3) as usize
}

/// The number of a call. Terms are made, read, kept and released more often than the others.
fn draw_call(dice: &mut Dice) -> usize {
    match dice.below(17) {
        0 | 1 | 2 | 3 => 0,
        4 => 3,
        5 => 5,
        6 => 10,
        number => number.saturating_sub(6) as usize,
    }
}

/// This store, or once in so many times any of the three.
fn draw_store(dice: &mut Dice, store: usize, times: u64) -> usize
    requires { 0 < times }
{
    if dice.below(times) == 0 {
        dice.below(3) as usize
    } else {
        store
    }
}

/// A birth out of so many, half the time one of the last six.
fn draw_birth(dice: &mut Dice, births: u64) -> u64 {
    if births == 0 {
        0
    } else if dice.below(2) == 0 {
        births.saturating_sub(1 + dice.below(6))
    } else {
        dice.below(births)
    }
}
