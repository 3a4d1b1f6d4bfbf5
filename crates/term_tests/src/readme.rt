//! The example of the README.
use intern_terms::{TermRef, TermStore};
use ra_ap_intern::{Refusal, Symbol, SymbolTable};

/// The term with the head of this text over these arguments, which counts it once. A head that
/// comes back is released, so that it goes with its terms.
fn term(
    names: &mut SymbolTable,
    terms: &mut TermStore,
    head: &str,
    args: &[TermRef],
) -> Result<TermRef, Refusal> {
    let head = Symbol::intern(names, head)?;
    match terms.term(head, args) {
        Ok((term, None)) => Ok(term),
        Ok((term, Some(head))) => {
            head.release(names)?;
            Ok(term)
        }
        Err(refused) => {
            refused.back.release(names)?;
            Err(refused.why)
        }
    }
}

#[test]
fn equal_terms_are_stored_once(rt: HostRuntime) {
    let mut names = SymbolTable::new(rt.alloc(), 1);
    let mut terms = TermStore::new(rt.alloc(), 2);
    let x = term(&mut names, &mut terms, "x", &[]).expect(&rt, "x");
    let y = term(&mut names, &mut terms, "y", &[]).expect(&rt, "y");
    let first = term(&mut names, &mut terms, "f", &[x, y]).expect(&rt, "f(x, y)");
    let second = term(&mut names, &mut terms, "f", &[x, y]).expect(&rt, "f(x, y) again");
    assert!(rt; first == second && terms.len() == 3);
    let text = terms.written(first, &names, 100).expect(&rt, "memory");
    assert_eq!(rt; text.as_str(), "f(x, y)");

    // A kept term stays with its arguments.
    let kept = terms.keep(first).expect(&rt, "an owner");
    assert_eq!(rt; terms.collect().expect(&rt, "memory").removed, 0);

    // Once it is released, the next collection removes all three, and gives up their heads.
    assert!(rt; kept.release(&mut terms).is_ok());
    let told = terms.collect_releasing(&[], &mut names);
    assert!(rt; told.is_ok_and(|told| told.removed == 3));
    assert!(rt; terms.head(first).is_none() && names.is_empty());
}
