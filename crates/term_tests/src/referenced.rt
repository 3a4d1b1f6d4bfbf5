//! Terms of referenced heads: which are counted in their table, and which refusals there are.
use crate::texts::is_equal;
use intern_fixtures::refusal;
use intern_terms::{TermRef, TermStore};
use ra_ap_intern::{Limits, Refusal, SymbolRef, SymbolTable, sym};
use std::alloc::Global;
use std::process::Abort;

/// A store whose births end, and a table whose counts do.
#[derive(Drop)]
struct Scene {
    store: TermStore,
    heads: SymbolTable,
}

/// A store that gives two births, and a table that counts up to two.
fn small(alloc: Global) -> Scene {
    Scene {
        store: TermStore::with_limits(alloc, 2, Limits { top: 1, numbers: 2 }),
        heads: SymbolTable::with_limits(alloc, 1, Limits { top: 2, numbers: 9 }),
    }
}

impl Scene {
    /// The table keeps a text, which is counted once.
    fn head(&mut self, rt: &impl Abort, text: &str) -> SymbolRef {
        self.heads.get_or_intern(text).expect(rt, "a symbol")
    }

    /// The term of a head over arguments, after which the head has this count.
    fn makes(
        &mut self,
        rt: &impl Abort,
        head: SymbolRef,
        args: &[TermRef],
        count: Option<u64>,
    ) -> TermRef {
        let term = self.store.term_of(head, args, &mut self.heads);
        is_equal(rt, head.count(&self.heads), count);
        term.expect(rt, "a term")
    }

    /// A refusal, after which the head has the count that it had, and the store as many terms.
    fn refuses(&mut self, rt: &impl Abort, head: SymbolRef, args: &[TermRef], why: Refusal) {
        let before = (head.count(&self.heads), self.store.len(), self.heads.len());
        let refused = refusal(self.store.term_of(head, args, &mut self.heads));
        is_equal(rt, refused, Some(why));
        let after = (head.count(&self.heads), self.store.len(), self.heads.len());
        assert!(rt; before == after);
    }
}

fn drop_scene(_scene: Scene) {}

#[test]
fn a_head_is_counted_where_its_term_is_new(rt: HostRuntime) {
    let mut scene = small(rt.alloc());
    let x = scene.head(&rt, "x");
    let leaf = scene.makes(&rt, x, &[], Some(2));
    assert!(rt;
        scene
            .store
            .head(leaf)
            .is_some_and(|head| head.as_ref() == x)
    );
    assert!(rt; x.decrease_refcount(&mut scene.heads).is_ok());
    assert!(rt; scene.makes(&rt, x, &[], Some(1)) == leaf);
    let clone = sym::Clone.as_ref();
    let term = scene.makes(&rt, clone, &[leaf], None);
    assert!(rt; scene.makes(&rt, clone, &[leaf], None) == term);
    assert!(rt; scene.store.head(term) == Some(&sym::Clone));
    is_equal(&rt, scene.heads.len(), 1);
    drop_scene(scene);
}

/// The head decides first, also where the term is stored.
#[test]
fn a_head_that_cannot_be_counted_is_refused(rt: HostRuntime) {
    let mut scene = small(rt.alloc());
    let x = scene.head(&rt, "x");
    let leaf = scene.makes(&rt, x, &[], Some(2));
    scene.refuses(&rt, x, &[], Refusal::CountFull);
    assert!(rt; x.decrease_refcount(&mut scene.heads).is_ok());
    assert!(rt; x.decrease_refcount(&mut scene.heads).is_ok());
    scene.refuses(&rt, x, &[], Refusal::Gone);
    let mut other = SymbolTable::new(rt.alloc(), 3);
    let foreign = other.get_or_intern("x").expect(&rt, "a symbol");
    assert!(rt; scene.store.collect().is_ok());
    scene.refuses(&rt, foreign, &[leaf], Refusal::Foreign);
    drop_scene(scene);
}

#[test]
fn a_refused_term_counts_no_head(rt: HostRuntime) {
    let mut scene = small(rt.alloc());
    let (x, y) = (scene.head(&rt, "x"), scene.head(&rt, "y"));
    let leaf = scene.makes(&rt, x, &[], Some(2));
    let mut other = TermStore::new(rt.alloc(), 5);
    let foreign = other.term_of(sym::bool.as_ref(), &[], &mut scene.heads);
    scene.refuses(
        &rt,
        y,
        &[leaf, foreign.expect(&rt, "a term")],
        Refusal::Foreign,
    );
    assert!(rt; scene.store.collect().is_ok());
    scene.refuses(&rt, y, &[leaf], Refusal::Gone);
    let _last = scene.makes(&rt, y, &[], Some(2));
    scene.refuses(&rt, sym::bool.as_ref(), &[], Refusal::NumbersUsedUp);
    drop_scene(scene);
}
