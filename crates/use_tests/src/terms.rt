//! Sums of zero, and others.
use intern_terms::{TermRef, TermStore};
use ra_ap_intern::{Symbol, SymbolTable};
use std::process::Abort;
use use_terms::simplify;

fn term(
    rt: &impl Abort,
    names: &mut SymbolTable,
    terms: &mut TermStore,
    head: &str,
    args: &[TermRef],
) -> TermRef {
    let head = Symbol::intern(names, head).expect(rt, "a name");
    let (term, back) = terms.term(head, args).ok().expect(rt, "a term");
    if let Some(head) = back {
        assert!(rt; head.release(names).is_ok());
    }
    term
}

#[test]
fn a_sum_of_zero_and_a_term_is_that_term(rt: HostRuntime) {
    let mut names = SymbolTable::new(rt.alloc(), 1);
    let mut terms = TermStore::new(rt.alloc(), 2);
    let plus = Symbol::intern(&mut names, "plus").expect(&rt, "a name");
    let zero = term(&rt, &mut names, &mut terms, "zero", &[]);
    let x = term(&rt, &mut names, &mut terms, "x", &[]);
    let sum = term(&rt, &mut names, &mut terms, "plus", &[zero, x]);
    let other = term(&rt, &mut names, &mut terms, "plus", &[x, zero]);
    assert!(rt; simplify(&terms, &plus, zero, sum) == x);
    assert!(rt; simplify(&terms, &plus, zero, other) == other);
    assert!(rt; simplify(&terms, &plus, zero, x) == x);
}
