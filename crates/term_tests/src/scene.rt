//! A store of terms with the table of their heads, and calls with what they must answer.
use crate::texts::is_equal;
use intern_fixtures::told;
use intern_terms::{Term, TermRef, TermStore};
use ra_ap_intern::{Limits, Refusal, Symbol, SymbolTable};
use std::alloc::Global;
use std::process::Abort;

/// What a collection tells: the visits, the mark calls and the removed terms.
pub type Told = (usize, u64, usize);

/// A store of terms, and the table of their heads, whose number is 1.
#[derive(Drop)]
pub struct Scene {
    pub table: SymbolTable,
    pub store: TermStore,
}

/// The symbol of a text.
pub fn head(rt: &impl Abort, table: &mut SymbolTable, text: &str) -> Symbol {
    Symbol::intern(table, text).expect(rt, "the head is interned")
}

/// Drops a scene. A test that does it itself is proved for longer.
pub fn drop_scene(_scene: Scene) {}

impl Scene {
    pub fn new(alloc: Global, number: u64) -> Scene {
        Scene {
            table: SymbolTable::new(alloc, 1),
            store: TermStore::new(alloc, number),
        }
    }

    /// A store of number 3 in which counts go to one, and which gives so many births.
    pub fn small(alloc: Global, numbers: u64) -> Scene {
        Scene {
            table: SymbolTable::new(alloc, 1),
            store: TermStore::with_limits(alloc, 3, Limits { top: 1, numbers }),
        }
    }

    /// The term with the head of this text, and whether it is stored already. Then the head comes
    /// back, and it does so where the term is refused.
    fn term(
        &mut self,
        rt: &impl Abort,
        text: &str,
        args: &[TermRef],
    ) -> Result<(TermRef, bool), Refusal> {
        let given = head(rt, &mut self.table, text);
        let expected = head(rt, &mut self.table, text);
        let (answer, back) = match self.store.term(given, args) {
            Ok((term, back)) => (Ok((term, back.is_some())), back),
            Err(refused) => (Err(refused.why), Some(refused.back)),
        };
        assert!(rt; back.is_none() || back == Some(expected));
        answer
    }

    /// A term that isn't stored, which gets this birth.
    pub fn make(&mut self, rt: &impl Abort, text: &str, args: &[TermRef], birth: u64) -> TermRef {
        let (term, is_stored) = self.term(rt, text, args).expect(rt, "the term is made");
        is_equal(rt, (term.name().birth, is_stored), (birth, false));
        term
    }

    /// A term that is stored under this birth: the head comes back.
    pub fn find(&mut self, rt: &impl Abort, text: &str, args: &[TermRef], birth: u64) -> TermRef {
        let (term, is_stored) = self.term(rt, text, args).expect(rt, "the term is found");
        is_equal(rt, (term.name().birth, is_stored), (birth, true));
        term
    }

    /// The making of a term is refused, with the head back, and there are as many terms as before.
    pub fn refuses(&mut self, rt: &impl Abort, text: &str, args: &[TermRef], why: Refusal) {
        let before = self.store.len();
        let answer = self.term(rt, text, args).err();
        is_equal(rt, answer, Some(why));
        is_equal(rt, self.store.len(), before);
    }

    /// What the store has of this head over these arguments, by the head and by a reference of it.
    pub fn get(&mut self, rt: &impl Abort, text: &str, args: &[TermRef]) -> Option<TermRef> {
        let head = head(rt, &mut self.table, text);
        let found = self.store.get(&head, args);
        assert!(rt; self.store.get_of(head.as_ref(), args) == found);
        found
    }

    /// The term has so many owners.
    pub fn has_count(&self, rt: &impl Abort, term: TermRef, count: u64) {
        is_equal(rt, self.store.count(term), Some(count));
    }

    /// The term reads this head and these arguments.
    pub fn reads(&mut self, rt: &impl Abort, term: TermRef, text: &str, args: &[TermRef]) {
        let head = head(rt, &mut self.table, text);
        assert!(rt; self.store.contains(term) && self.store.check(term).is_ok());
        assert!(rt; self.store.head(term) == Some(&head));
        assert!(rt; self.store.args(term) == Some(args));
        assert!(rt; is_node(&self.store, term, &head, args));
        assert!(rt; self.store.named(term.name()) == Ok(term));
    }

    /// The term reads nothing.
    pub fn reads_nothing(&self, rt: &impl Abort, term: TermRef) {
        assert!(rt; !self.store.contains(term) && self.store.check(term).is_err());
        assert!(rt; self.store.head(term).is_none());
        assert!(rt; self.store.args(term).is_none());
        assert!(rt; self.store.node(term).is_none());
        assert!(rt; self.store.count(term).is_none());
        assert!(rt; self.store.named(term.name()).is_err());
    }

    /// The store has these terms, which are distinct, and lists each once.
    pub fn lists(&self, rt: &impl Abort, terms: &[TermRef]) {
        let number = terms.len();
        is_equal(
            rt,
            (self.store.len(), self.store.iter().count()),
            (number, number),
        );
        is_equal(rt, self.store.is_empty(), terms.is_empty());
        for term in terms {
            assert!(rt; self.is_listed(*term));
        }
    }

    fn is_listed(&self, term: TermRef) -> bool {
        for listed in &self.store {
            if listed == term {
                return true;
            }
        }
        false
    }

    /// Each term in the trees of these, after its arguments.
    pub fn walk(&self, rt: &impl Abort, roots: &[TermRef]) -> Vec<TermRef> {
        self.store.walk(roots).expect(rt, "memory")
    }

    /// How the term is written, with at most so many terms.
    pub fn written(&self, rt: &impl Abort, term: TermRef, most: usize) -> String {
        let written = self.store.written(term, &self.table, most);
        written.expect(rt, "memory")
    }

    /// The term is written so, with at most so many terms.
    pub fn writes(&self, rt: &impl Abort, term: TermRef, most: usize, text: &str) {
        is_equal(rt, self.written(rt, term, most).as_str(), text);
    }

    /// An owner of the term, unless it is due to be refused.
    pub fn keep(&mut self, rt: &impl Abort, term: TermRef, due: Option<Refusal>) -> Option<Term> {
        let answer = self.store.keep(term);
        owner_of(rt, term, answer, due)
    }

    /// A second owner, unless it is due to be refused.
    pub fn clone(&mut self, rt: &impl Abort, owner: &Term, due: Option<Refusal>) -> Option<Term> {
        let answer = owner.clone(&mut self.store);
        owner_of(rt, owner.as_ref(), answer, due)
    }

    /// Gives an owner up. Where that is due to be refused, it comes back.
    pub fn release(&mut self, rt: &impl Abort, owner: Term, due: Option<Refusal>) -> Option<Term> {
        let term = owner.as_ref();
        let refused = owner.release(&mut self.store).err();
        is_equal(rt, refused.as_ref().map(|refused| refused.why), due);
        let back = refused?.back;
        assert!(rt; back.as_ref() == term);
        Some(back)
    }

    pub fn collects(&mut self, rt: &impl Abort, answer: Told) {
        let did = self.store.collect();
        is_equal(rt, told(did), Some(answer));
    }

    pub fn collects_keeping(&mut self, rt: &impl Abort, roots: &[TermRef], answer: Told) {
        let did = self.store.collect_keeping(roots);
        is_equal(rt, told(did), Some(answer));
    }
}

/// Whether the term reads this head with these arguments.
fn is_node(store: &TermStore, term: TermRef, head: &Symbol, args: &[TermRef]) -> bool {
    match store.node(term) {
        Some((found, arguments)) => found == head && arguments == args,
        None => false,
    }
}

/// The owner that was answered, which is one of this term, unless it was due to be refused.
fn owner_of(
    rt: &impl Abort,
    term: TermRef,
    answer: Result<Term, Refusal>,
    due: Option<Refusal>,
) -> Option<Term> {
    match answer {
        Ok(owner) => {
            assert!(rt; due.is_none());
            assert!(rt; owner.as_ref() == term);
            Some(owner)
        }
        Err(why) => {
            assert!(rt; due == Some(why));
            None
        }
    }
}

/// Makes `x` and 64 terms over it, each over the one before twice. It gives the last.
pub fn make_doubled(rt: &impl Abort, scene: &mut Scene) -> TermRef {
    let mut term = scene.make(rt, "x", &[], 0);
    for birth in 1..65u64 {
        term = scene.make(rt, "f", &[term, term], birth);
    }
    term
}

/// Makes so many terms: `x`, and others over it, each over the one before. It gives the last.
pub fn make_path(rt: &impl Abort, scene: &mut Scene, length: u64) -> TermRef {
    let mut term = scene.make(rt, "x", &[], 0);
    for birth in 1..length {
        term = scene.make(rt, "g", &[term], birth);
    }
    term
}
