//! A store beside its model: calls that are made of both, and must answer the same.
ghost use Rattle.std.specs.Prelude.{◌<◌};

use crate::scene::Scene;
use crate::texts::is_equal;
use crate::trees::{Due, Trees, birth_of, text_of};
use intern_terms::{Term, TermRef, TermStore};
use ra_ap_intern::{Limits, SymbolTable};
use std::alloc::Global;
use std::process::Abort;

/// A store beside its model.
#[derive(Drop)]
pub struct Side {
    scene: Scene,
    pub trees: Trees,
}

impl Side {
    /// A store of this number with these limits.
    pub fn new(alloc: Global, number: u64, top: u64, numbers: usize) -> Side
        requires { 0 < top }
    {
        let limits = Limits {
            top,
            numbers: numbers as u64,
        };
        Side {
            scene: Scene {
                table: SymbolTable::new(alloc, 1),
                store: TermStore::with_limits(alloc, number, limits),
            },
            trees: Trees::new(alloc, number, top, numbers),
        }
    }

    /// A store of this number with the largest limits.
    pub fn without_limits(alloc: Global, number: u64) -> Side {
        Side {
            scene: Scene::new(alloc, number),
            trees: Trees::new(alloc, number, u64::MAX, usize::MAX),
        }
    }

    /// There are as many terms as the model has.
    fn has_len(&self, rt: &impl Abort) {
        is_equal(rt, self.scene.store.len(), self.trees.len());
    }

    /// Makes the term with this head over these arguments: the answer is what the model owes.
    pub fn make(&mut self, rt: &impl Abort, head: usize, args: &[TermRef]) {
        match self.trees.due(rt, head, args) {
            Due::Refused(why) => self.scene.refuses(rt, text_of(head), args, why),
            Due::Found(term) => self.finds(rt, head, args, term),
            Due::New => self.adds(rt, head, args),
        }
        self.has_len(rt);
    }

    /// Makes the term with the head and the arguments of one that is there.
    pub fn make_again(&mut self, rt: &impl Abort, alloc: Global, term: TermRef) {
        if let Some(entry) = self.trees.read(term) {
            let head = entry.head;
            let args = entry.args.to_vec(alloc).expect(rt, "memory");
            self.make(rt, head, &args);
        }
    }

    /// The term is stored.
    fn finds(&mut self, rt: &impl Abort, head: usize, args: &[TermRef], term: TermRef) {
        let birth = term.name().birth;
        let found = self.scene.find(rt, text_of(head), args, birth);
        assert!(rt; found == term);
    }

    /// The term isn't stored, and gets the next birth of this store.
    fn adds(&mut self, rt: &impl Abort, head: usize, args: &[TermRef]) {
        let birth = self.trees.births() as u64;
        let made = self.scene.make(rt, text_of(head), args, birth);
        is_equal(rt, made.name().storage, self.scene.store.number());
        self.trees.add(rt, made, head, args);
    }

    /// What is stored with this head over these arguments is what the model has.
    pub fn get(&mut self, rt: &impl Abort, head: usize, args: &[TermRef]) {
        let expected = match self.trees.due(rt, head, args) {
            Due::Found(term) => Some(term),
            _ => None,
        };
        assert!(rt; self.scene.get(rt, text_of(head), args) == expected);
    }

    /// The term reads what the model has.
    pub fn reads(&mut self, rt: &impl Abort, term: TermRef) {
        match self.trees.read(term) {
            None => self.scene.reads_nothing(rt, term),
            Some(entry) => {
                self.scene.has_count(rt, term, entry.count);
                self.scene.reads(rt, term, text_of(entry.head), &entry.args);
            }
        }
    }

    /// The term is written as the model has it, cut off after so many heads.
    pub fn writes(&self, rt: &impl Abort, term: TermRef, most: usize) {
        let text = self.scene.written(rt, term, most);
        assert!(rt; self.trees.is_written(rt, term, most, text.as_str()));
    }

    /// Keeps the term, if the model lets it.
    pub fn keep(&mut self, rt: &impl Abort, term: TermRef) -> Option<Term> {
        let owner = self.scene.keep(rt, term, self.trees.due_owner(term))?;
        self.trees.count_up(term);
        Some(owner)
    }

    /// Makes a second owner, if the model lets it be.
    pub fn clone(&mut self, rt: &impl Abort, owner: &Term) -> Option<Term> {
        let term = owner.as_ref();
        let second = self.scene.clone(rt, owner, self.trees.due_owner(term))?;
        self.trees.count_up(term);
        Some(second)
    }

    /// Gives an owner up, if the model lets it. Otherwise it comes back.
    pub fn release(&mut self, rt: &impl Abort, owner: Term) -> Option<Term> {
        let term = owner.as_ref();
        let back = self.scene.release(rt, owner, self.trees.due_release(term));
        if back.is_none() {
            self.trees.count_down(term);
        }
        back
    }

    /// A collection tells what the model does, and leaves the same terms.
    pub fn collect(&mut self, rt: &impl Abort, roots: &[TermRef]) {
        let expected = self.trees.collect(rt, roots);
        if roots.is_empty() {
            self.scene.collects(rt, expected);
        } else {
            self.scene.collects_keeping(rt, roots, expected);
        }
        self.has_each(rt);
    }

    /// Each birth is that of a term exactly if the model says so.
    fn has_each(&self, rt: &impl Abort) {
        self.has_len(rt);
        for birth in 0..self.trees.births() {
            let term = self.trees.term_at(rt, birth);
            is_equal(
                rt,
                self.scene.store.contains(term),
                self.trees.is_there(term),
            );
        }
    }

    /// A walk gives each term within the trees of these terms once, after its arguments.
    pub fn walk(&self, rt: &impl Abort, roots: &[TermRef]) {
        let walk = self.scene.walk(rt, roots);
        let mut seen = self.trees.none(rt);
        for term in &walk {
            self.comes_next(rt, &mut seen, *term);
        }
        let expected = self.trees.within(rt, roots, false);
        assert!(rt; seen.as_slice() == expected.as_slice());
    }

    /// The term wasn't seen before, and its arguments were. It is seen now.
    fn comes_next(&self, rt: &impl Abort, seen: &mut [bool], term: TermRef) {
        let entry = self.trees.read(term).expect(rt, "a term");
        for arg in &entry.args {
            assert!(rt; is_seen(seen, *arg));
        }
        let place = seen.get_mut(birth_of(term)).expect(rt, "a birth");
        assert!(rt; !*place);
        *place = true;
    }

    /// Two terms of the store are equal exactly if their trees are.
    pub fn compares(&self, rt: &impl Abort, term: TermRef, other: TermRef) {
        if let Some(are_equal) = self.trees.are_equal(term, other) {
            is_equal(rt, term == other, are_equal);
        }
    }

    /// Each birth reads, and is written, as the model has it.
    pub fn is_as_told(&mut self, rt: &impl Abort) {
        self.has_each(rt);
        for birth in 0..self.trees.births() {
            let term = self.trees.term_at(rt, birth);
            self.reads(rt, term);
            self.writes(rt, term, 100);
        }
    }
}

/// Whether a term was seen.
fn is_seen(seen: &[bool], term: TermRef) -> bool {
    match seen.get(birth_of(term)) {
        Some(is_seen) => *is_seen,
        None => false,
    }
}
