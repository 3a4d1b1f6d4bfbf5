//! Walks: the terms of some trees, arguments before what has them.
ghost use Rattle.std.specs.Prelude.{◌≡◌, ◌≤◌, ◌<◌, ℕ, List, [], length, true, false, Some, IsSome, map as list_map, slice_get, IfOk, OnOk, IfSome, IfNone};
ghost use Rattle.ra_ap_intern.specs.Names.{has};
ghost use Rattle.ra_ap_intern.specs.Name.{Name as TermName};
ghost use Rattle.ra_ap_intern.specs.Reach.{IsReachedSet};
ghost use Rattle.ra_ap_intern.specs.State.{reads};
ghost use Rattle.intern_terms.specs.Handle.{term_name};
ghost use Rattle.intern_terms.specs.Store.{IsTerms, terms_of};
ghost use Rattle.intern_terms.specs.Walk.{begins_at, InOrder, IsWalk, items_at, AreFound};
ghost use Rattle.intern_terms.specs.declared.handle.TermRef.{TermRef as Reference};

use crate::found::Found;
use crate::handle::TermRef;
use crate::store::TermStore;
use std::alloc::AllocError;
use std::hash::BuildHasher;

// A term whose arguments are looked at, and how many of them were found.
#[derive(Clone, Copy)]
struct Open {
    term: TermRef,
    found: usize,
}

impl<B: BuildHasher> TermStore<B> {
    /// Each term of the trees of the listed terms, once, and after its arguments: the order in
    /// which terms can be evaluated, or copied. A listed term of another store, one that is gone,
    /// or one that is listed twice, adds nothing. Where there is no memory, `AllocError`.
    ///
    /// It takes expected time and memory linear in the terms that it answers and their arguments,
    /// whatever else the store holds, and it never recurses.
    pub fn walk(&self, terms: &[TermRef]) -> Result<Vec<TermRef>, AllocError>
        ensures terms { IfOk result (λ walk.
            IsReachedSet (begins_at (list_map term_name terms.now) self.now) (terms_of self.now)
            (list_map term_name walk.items)) }
        ensures order { IfOk result (λ walk.
            InOrder self.now [] (list_map term_name walk.items)) }
        ensures state { IsTerms self.now }
    {
        // What `number` says of the state is said here too.
        let _number = self.number();
        let mut found = Found::new(self.alloc());
        for term in terms {
            self.find_all(*term, &mut found)?;
        }
        found.to_vec()
    }

    // Finds a term and all that is in its tree, arguments first.
    fn find_all(&self, root: TermRef, found: &mut Found) -> Result<(), AllocError>
        ensures walk { (listed : List TermName) → has listed (term_name root) ≡ true →
            IsWalk listed self.now found.old → OnOk result (IsWalk listed self.now found.new) }
        ensures keeps { OnOk result ((name : TermName) → has found.old name ≡ true →
            has found.new name ≡ true) }
        ensures finds { OnOk result (IsSome (reads self.now (term_name root)) →
            has found.new (term_name root) ≡ true) }
    {
        if !self.contains(root) || found.contains(root) {
            return Ok(());
        }
        let mut open = Vec::new(self.alloc());
        open.push(Open {
            term: root,
            found: 0,
        })?;
        while let Some(top) = open.pop() {
            match self.first_unfound(top, found) {
                Some((index, argument)) => {
                    open.push(Open {
                        term: top.term,
                        found: index,
                    })?;
                    open.push(Open {
                        term: argument,
                        found: 0,
                    })?;
                }
                None => found.push(top.term)?,
            }
        }
        Ok(())
    }

    // The first argument of an open term that wasn't found yet, and its position.
    fn first_unfound(&self, top: Open, found: &Found) -> Option<(usize, TermRef)>
        ensures none { IfNone result (AreFound found.now (items_at self.now (term_name top.term))
            top.found (length (items_at self.now (term_name top.term)))) }
        ensures some { IfSome result (λ r.
            (slice_get (items_at self.now (term_name top.term)) r.0 ≡ Some r.1)
            × (has found.now (term_name r.1) ≡ false)
            × AreFound found.now (items_at self.now (term_name top.term)) top.found r.0) }
    {
        let args = self.args(top.term)?;
        for index in top.found..args.len() {
            let argument = args[index];
            if !found.contains(argument) {
                return Some((index, argument));
            }
        }
        None
    }
}
