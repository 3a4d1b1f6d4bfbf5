//! The terms that are stored, and what a store has of them.
//!
//! The terms of even numbers are a chain, each over the one before, and so are those of odd
//! numbers; the last is over both. A term's birth is its number.
use crate::fault::{Fault, ensure};
use intern_terms::{TermRef, TermStore};
use ra_ap_intern::{Name, Symbol, sym};

/// How many terms are stored. A store's tables are built at the first, and built anew at the 65th.
pub(crate) const TERMS: usize = 70;

/// What a store has: the terms of even and of odd numbers below these, and which has an owner.
#[derive(Clone, Copy)]
pub(crate) struct Held {
    pub(crate) even: usize,
    pub(crate) odd: usize,
    pub(crate) kept: Option<usize>,
}

impl Held {
    /// All terms, without owners.
    pub(crate) const ALL: Held = Held {
        even: TERMS,
        odd: TERMS,
        kept: None,
    };

    fn has(self, number: usize) -> bool {
        number < if number % 2 == 0 { self.even } else { self.odd }
    }

    fn count(self, number: usize) -> u64 {
        u64::from(self.kept == Some(number))
    }
}

/// The head of the term of a number.
pub(crate) fn head_of(number: usize) -> Symbol {
    if number % 2 == 0 {
        sym::Clone
    } else {
        sym::bool
    }
}

/// The arguments of the term of a number, which are among the terms before it.
pub(crate) fn args_of(terms: &[TermRef], number: usize) -> &[TermRef] {
    let Some(first) = number.checked_sub(2) else {
        return &[];
    };
    let length = if number == TERMS - 1 { 2 } else { 1 };
    terms.get(first..first + length).unwrap_or(&[])
}

/// Fails unless the store has exactly these of the terms.
pub(crate) fn check(store: &TermStore, terms: &[TermRef], held: Held) -> Result<(), Fault> {
    let mut length: usize = 0;
    for (term, number) in terms.iter().zip(0..) {
        ensure(
            is_as_it_was(store, terms, *term, number, held),
            "a term is not as it was",
        )?;
        if held.has(number) {
            length = length.saturating_add(1);
        }
    }
    ensure(
        store.len() == length && store.iter().count() == length,
        "a store has another length",
    )
}

// Whether the store has the term of a number as it has to, or doesn't have it.
fn is_as_it_was(
    store: &TermStore,
    terms: &[TermRef],
    term: TermRef,
    number: usize,
    held: Held,
) -> bool {
    if held.has(number) {
        shows(store, terms, term, number) && store.count(term) == Some(held.count(number))
    } else {
        reads_nothing(store, term)
    }
}

/// Whether a term is the one of this number: it is named, read and found so.
fn shows(store: &TermStore, terms: &[TermRef], term: TermRef, number: usize) -> bool {
    let head = head_of(number);
    let args = args_of(terms, number);
    term.name() == name_of(store, number)
        && store.contains(term)
        && store.head(term) == Some(&head)
        && store.args(term) == Some(args)
        && is_node(store, term, &head, args)
        && store.named(term.name()) == Ok(term)
        && store.get(&head, args) == Some(term)
}

/// Whether the term reads this head with these arguments, in one call.
pub(crate) fn is_node(store: &TermStore, term: TermRef, head: &Symbol, args: &[TermRef]) -> bool {
    match store.node(term) {
        Some((found, arguments)) => found == head && arguments == args,
        None => false,
    }
}

/// The name of the term of a number.
pub(crate) fn name_of(store: &TermStore, number: usize) -> Name {
    Name {
        storage: store.number(),
        birth: number as u64,
    }
}

/// Whether a term reads nothing.
pub(crate) fn reads_nothing(store: &TermStore, term: TermRef) -> bool {
    !store.contains(term)
        && store.count(term).is_none()
        && store.head(term).is_none()
        && store.args(term).is_none()
        && store.node(term).is_none()
        && store.named(term.name()).is_err()
}
