//! Calls on stores with their answers, as plain data, for tables.
use crate::scene::{Scene, Told};
use crate::texts::{is_equal, push};
use intern_terms::{Term, TermRef};
use ra_ap_intern::{Name, Refusal};
use std::alloc::Global;
use std::cmp::Ordering;
use std::process::Abort;

/// The store of number 3.
pub const HERE: usize = 0;

/// The store of number 4.
pub const OTHER: usize = 1;

/// Another store of number 3.
pub const SAME: usize = 2;

/// A call on one of the stores, with its answer.
pub type Row = (usize, Step);

/// A call with its answer. A term is told by its place among those that were made, and an owner by
/// its place among those that are left.
#[derive(Clone, Copy)]
pub enum Step {
    /// The store has this number.
    IsNumber(u64),
    /// A term with this head over these is made, and gets this birth.
    New(&'static str, &'static [usize], u64),
    /// It is stored already: this term, of this birth.
    Again(&'static str, &'static [usize], usize, u64),
    /// It is refused.
    NotMade(&'static str, &'static [usize], Refusal),
    /// What is stored with this head over these is this term.
    Has(&'static str, &'static [usize], usize),
    /// Nothing is stored with this head over these.
    HasNone(&'static str, &'static [usize]),
    /// The term reads this head over these.
    Reads(usize, &'static str, &'static [usize]),
    /// The term reads nothing.
    ReadsNothing(usize),
    /// The term has so many owners.
    Counts(usize, u64),
    /// The terms of the store are these, each once.
    Lists(&'static [usize]),
    /// The term gets an owner.
    Keep(usize),
    /// It is refused one.
    NotKept(usize, Refusal),
    /// The term of this owner gets a second one.
    Clone(usize),
    /// It is refused one.
    NotCloned(usize, Refusal),
    /// The owner is released, and the last one takes its place.
    Release(usize),
    /// It is not released, and comes back.
    NotReleased(usize, Refusal),
    /// The owner is dropped, and the last one takes its place.
    Drop(usize),
    /// A collection tells this.
    Collect(Told),
    /// One that keeps these tells that.
    CollectKeeping(&'static [usize], Told),
    /// The walk over these gives those.
    Walks(&'static [usize], &'static [usize]),
    /// The term is written so, with at most so many terms.
    Writes(usize, usize, &'static str),
    /// The term has this name: the number of its store, and its birth.
    IsNamed(usize, u64, u64),
    /// The term is equal to another, or less, or greater.
    Compares(usize, usize, Ordering),
}

/// A head over the terms at these places.
type Node<'a> = (&'a str, &'a [usize]);

/// The three stores, the terms that they made, and the owners of terms.
#[derive(Drop)]
pub struct Stage {
    alloc: Global,
    scenes: Vec<Scene>,
    terms: Vec<TermRef>,
    owners: Vec<Term>,
}

/// Three new stores.
pub fn new_stage(rt: &impl Abort, alloc: Global) -> Stage {
    Stage::new(rt, alloc, Scene::new(alloc, 3))
}

/// Three new stores, of which the first gives so many births, and counts to one.
pub fn small_stage(rt: &impl Abort, alloc: Global, births: u64) -> Stage {
    Stage::new(rt, alloc, Scene::small(alloc, births))
}

/// Takes the steps in three new stores.
pub fn play(rt: &impl Abort, alloc: Global, rows: &[Row]) {
    new_stage(rt, alloc).play(rt, rows);
}

/// Takes the steps in three new stores, of which the first gives so many births, and counts to one.
pub fn play_small(rt: &impl Abort, alloc: Global, births: u64, rows: &[Row]) {
    small_stage(rt, alloc, births).play(rt, rows);
}

impl Stage {
    /// This store and two new ones.
    fn new(rt: &impl Abort, alloc: Global, here: Scene) -> Stage {
        let mut scenes = Vec::new(alloc);
        push(rt, &mut scenes, here);
        push(rt, &mut scenes, Scene::new(alloc, 4));
        push(rt, &mut scenes, Scene::new(alloc, 3));
        Stage {
            alloc,
            scenes,
            terms: Vec::new(alloc),
            owners: Vec::new(alloc),
        }
    }

    /// Takes the steps, one after the other.
    pub fn play(&mut self, rt: &impl Abort, rows: &[Row]) {
        for (store, step) in rows {
            self.take(rt, *store, *step);
        }
    }

    pub fn scene(&mut self, rt: &impl Abort, store: usize) -> &mut Scene {
        self.scenes.get_mut(store).expect(rt, "a store")
    }

    /// The term at a place.
    pub fn term(&self, rt: &impl Abort, place: usize) -> TermRef {
        *self.terms.get(place).expect(rt, "a term")
    }

    /// The terms at these places.
    fn terms(&self, rt: &impl Abort, places: &[usize]) -> Vec<TermRef> {
        let mut terms = Vec::new(self.alloc);
        for place in places {
            push(rt, &mut terms, self.term(rt, *place));
        }
        terms
    }

    fn take(&mut self, rt: &impl Abort, store: usize, step: Step) {
        match step {
            Step::IsNumber(number) => self.is_number(rt, store, number),
            Step::New(head, args, birth) => self.makes(rt, store, (head, args), birth),
            Step::Again(head, args, place, birth) => {
                self.makes_again(rt, store, (head, args), place, birth);
            }
            Step::NotMade(head, args, why) => self.is_not_made(rt, store, (head, args), why),
            Step::Has(head, args, place) => self.has(rt, store, (head, args), place),
            Step::HasNone(head, args) => self.has_none(rt, store, (head, args)),
            Step::Reads(place, head, args) => self.reads(rt, store, place, (head, args)),
            Step::ReadsNothing(place) => self.reads_nothing(rt, store, place),
            Step::Counts(place, count) => self.counts(rt, store, place, count),
            Step::Lists(places) => self.lists(rt, store, places),
            Step::Keep(place) => self.keep(rt, store, place, None),
            Step::NotKept(place, why) => self.keep(rt, store, place, Some(why)),
            Step::Clone(owner) => self.clone(rt, store, owner, None),
            Step::NotCloned(owner, why) => self.clone(rt, store, owner, Some(why)),
            Step::Release(owner) => self.release(rt, store, owner, None),
            Step::NotReleased(owner, why) => self.release(rt, store, owner, Some(why)),
            Step::Drop(owner) => drop(self.owner(rt, owner)),
            Step::Collect(answer) => self.scene(rt, store).collects(rt, answer),
            Step::CollectKeeping(roots, answer) => self.collects_keeping(rt, store, roots, answer),
            Step::Walks(roots, places) => self.walks(rt, store, roots, places),
            Step::Writes(place, most, text) => self.writes(rt, store, place, most, text),
            Step::IsNamed(place, storage, birth) => self.is_named(rt, place, storage, birth),
            Step::Compares(place, other, order) => self.compares(rt, place, other, order),
        }
    }

    fn is_number(&mut self, rt: &impl Abort, store: usize, number: u64) {
        is_equal(rt, self.scene(rt, store).store.number(), number);
    }

    fn makes(&mut self, rt: &impl Abort, store: usize, (head, places): Node, birth: u64) {
        let args = self.terms(rt, places);
        let term = self.scene(rt, store).make(rt, head, &args, birth);
        push(rt, &mut self.terms, term);
    }

    fn makes_again(
        &mut self,
        rt: &impl Abort,
        store: usize,
        (head, places): Node,
        place: usize,
        birth: u64,
    ) {
        let args = self.terms(rt, places);
        let term = self.scene(rt, store).find(rt, head, &args, birth);
        assert!(rt; term == self.term(rt, place));
    }

    fn is_not_made(&mut self, rt: &impl Abort, store: usize, (head, places): Node, why: Refusal) {
        let args = self.terms(rt, places);
        self.scene(rt, store).refuses(rt, head, &args, why);
    }

    fn has(&mut self, rt: &impl Abort, store: usize, (head, places): Node, place: usize) {
        let args = self.terms(rt, places);
        let found = self.scene(rt, store).get(rt, head, &args);
        assert!(rt; found == Some(self.term(rt, place)));
    }

    fn has_none(&mut self, rt: &impl Abort, store: usize, (head, places): Node) {
        let args = self.terms(rt, places);
        let found = self.scene(rt, store).get(rt, head, &args);
        assert!(rt; found.is_none());
    }

    fn reads(&mut self, rt: &impl Abort, store: usize, place: usize, (head, places): Node) {
        let term = self.term(rt, place);
        let args = self.terms(rt, places);
        self.scene(rt, store).reads(rt, term, head, &args);
    }

    fn reads_nothing(&mut self, rt: &impl Abort, store: usize, place: usize) {
        let term = self.term(rt, place);
        self.scene(rt, store).reads_nothing(rt, term);
    }

    fn counts(&mut self, rt: &impl Abort, store: usize, place: usize, count: u64) {
        let term = self.term(rt, place);
        self.scene(rt, store).has_count(rt, term, count);
    }

    fn lists(&mut self, rt: &impl Abort, store: usize, places: &[usize]) {
        let terms = self.terms(rt, places);
        self.scene(rt, store).lists(rt, &terms);
    }

    fn keep(&mut self, rt: &impl Abort, store: usize, place: usize, due: Option<Refusal>) {
        let term = self.term(rt, place);
        let owner = self.scene(rt, store).keep(rt, term, due);
        self.put(rt, owner);
    }

    fn clone(&mut self, rt: &impl Abort, store: usize, place: usize, due: Option<Refusal>) {
        let owner = self.owner(rt, place);
        let second = self.scene(rt, store).clone(rt, &owner, due);
        self.put(rt, Some(owner));
        self.put(rt, second);
    }

    fn release(&mut self, rt: &impl Abort, store: usize, place: usize, due: Option<Refusal>) {
        let owner = self.owner(rt, place);
        let back = self.scene(rt, store).release(rt, owner, due);
        self.put(rt, back);
    }

    /// Takes the owner at a place.
    pub fn owner(&mut self, rt: &impl Abort, place: usize) -> Term {
        assert!(rt; place < self.owners.len());
        self.owners.swap_remove(place)
    }

    /// Adds an owner, if there is one.
    fn put(&mut self, rt: &impl Abort, owner: Option<Term>) {
        if let Some(owner) = owner {
            push(rt, &mut self.owners, owner);
        }
    }

    fn collects_keeping(&mut self, rt: &impl Abort, store: usize, places: &[usize], answer: Told) {
        let roots = self.terms(rt, places);
        self.scene(rt, store).collects_keeping(rt, &roots, answer);
    }

    fn walks(&mut self, rt: &impl Abort, store: usize, places: &[usize], expected: &[usize]) {
        let roots = self.terms(rt, places);
        let expected = self.terms(rt, expected);
        let walk = self.scene(rt, store).walk(rt, &roots);
        assert!(rt; walk.as_slice() == expected.as_slice());
    }

    fn writes(&mut self, rt: &impl Abort, store: usize, place: usize, most: usize, text: &str) {
        let term = self.term(rt, place);
        self.scene(rt, store).writes(rt, term, most, text);
    }

    fn is_named(&self, rt: &impl Abort, place: usize, storage: u64, birth: u64) {
        is_equal(rt, self.term(rt, place).name(), Name { storage, birth });
    }

    fn compares(&self, rt: &impl Abort, place: usize, other: usize, order: Ordering) {
        let (term, other) = (self.term(rt, place), self.term(rt, other));
        assert!(rt; term.cmp(&other) == order);
        is_equal(rt, term == other, order == Ordering::Equal);
        is_equal(rt, term != other, order != Ordering::Equal);
        is_equal(rt, term < other, order == Ordering::Less);
    }
}
