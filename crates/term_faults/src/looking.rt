//! The calls that read a store or a reference. They take no memory.
use crate::fault::{Fault, ensure};
use crate::marks::mark;
use crate::shape::{TERMS, args_of, head_of, is_node, name_of};
use intern_terms::{TermRef, TermStore};
use ra_ap_intern::sym;

/// A call that reads a store, or a term of it, or compares a term with the first.
#[derive(Clone, Copy)]
enum Look {
    Number,
    Len,
    IsEmpty,
    Memory,
    Iter,
    Contains,
    Check,
    Count,
    Get,
    GetOf,
    Head,
    Args,
    Node,
    Named,
    Name,
    Equal,
    Less,
}

/// A mark, and the calls that follow it.
type Marked = (&'static str, Look);

/// Makes the calls, and fails where one answers something else.
fn check_each(
    rt: &impl Eprint,
    store: &TermStore,
    terms: &[TermRef],
    looks: &[Marked],
) -> Result<(), Fault> {
    for (line, look) in looks {
        mark(rt, *line);
        ensure(
            shows(store, terms, *look),
            "the call of the last mark answers something else",
        )?;
    }
    Ok(())
}

// Whether a call answers right, of each term where it is about one.
fn shows(store: &TermStore, terms: &[TermRef], look: Look) -> bool {
    match look {
        Look::Number => store.number() == 1,
        Look::Len => store.len() == TERMS,
        Look::IsEmpty => !store.is_empty(),
        Look::Memory => store.memory() > 0,
        Look::Iter => lists(store, terms),
        _ => all(store, terms, look),
    }
}

const LOOKUPS: [Marked; 14] = [
    ("takes none: TermStore::number", Look::Number),
    ("takes none: TermStore::len", Look::Len),
    ("takes none: TermStore::is_empty", Look::IsEmpty),
    ("takes none: TermStore::memory", Look::Memory),
    (
        "takes none: TermStore::iter, a loop over a store",
        Look::Iter,
    ),
    ("takes none: TermStore::contains", Look::Contains),
    ("takes none: TermStore::check", Look::Check),
    ("takes none: TermStore::count", Look::Count),
    ("takes none: TermStore::get", Look::Get),
    ("takes none: TermStore::get_of", Look::GetOf),
    ("takes none: TermStore::head", Look::Head),
    ("takes none: TermStore::args", Look::Args),
    ("takes none: TermStore::node", Look::Node),
    ("takes none: TermStore::named", Look::Named),
];

/// Makes the calls that read a store.
pub(crate) fn check_lookups(
    rt: &impl Eprint,
    store: &TermStore,
    terms: &[TermRef],
) -> Result<(), Fault> {
    check_each(rt, store, terms, &LOOKUPS)
}

fn all(store: &TermStore, terms: &[TermRef], look: Look) -> bool {
    for (term, number) in terms.iter().zip(0..) {
        if !answers(store, terms, *term, number, look) {
            return false;
        }
    }
    true
}

// Whether a call answers right of the term of a number.
fn answers(store: &TermStore, terms: &[TermRef], term: TermRef, number: usize, look: Look) -> bool {
    let args = args_of(terms, number);
    match look {
        Look::Contains => store.contains(term),
        Look::Check => store.check(term).is_ok(),
        Look::Count => store.count(term) == Some(0),
        Look::Get => store.get(&head_of(number), args) == Some(term),
        Look::GetOf => store.get_of(head_of(number).as_ref(), args) == Some(term),
        Look::Head => store.head(term) == Some(&head_of(number)),
        Look::Args => store.args(term) == Some(args),
        Look::Node => is_node(store, term, &head_of(number), args),
        Look::Named => store.named(term.name()) == Ok(term),
        Look::Name => term.name() == name_of(store, number),
        Look::Equal => (terms.first() == Some(&term)) == (number == 0),
        Look::Less => (terms.first() < Some(&term)) == (number > 0),
        _ => false,
    }
}

fn lists(store: &TermStore, terms: &[TermRef]) -> bool {
    for term in store {
        if terms.get(term.name().birth as usize) != Some(&term) {
            return false;
        }
    }
    store.iter().count() == TERMS
}

const REFERENCES: [Marked; 3] = [
    ("takes none: TermRef::name", Look::Name),
    ("takes none: ==", Look::Equal),
    ("takes none: <", Look::Less),
];

/// Makes the calls on references.
pub(crate) fn check_references(
    rt: &impl Eprint,
    store: &TermStore,
    terms: &[TermRef],
) -> Result<(), Fault> {
    check_each(rt, store, terms, &REFERENCES)?;
    mark(rt, "prepares");
    Ok(())
}

const UNREAD: [Marked; 9] = [
    ("takes none: TermStore::contains", Look::Contains),
    ("takes none: TermStore::check", Look::Check),
    ("takes none: TermStore::count", Look::Count),
    ("takes none: TermStore::get", Look::Get),
    ("takes none: TermStore::get_of", Look::GetOf),
    ("takes none: TermStore::head", Look::Head),
    ("takes none: TermStore::args", Look::Args),
    ("takes none: TermStore::node", Look::Node),
    ("takes none: TermStore::named", Look::Named),
];

/// Makes the calls that read a store, of a term that it hasn't.
pub(crate) fn check_unread(
    rt: &impl Eprint,
    store: &TermStore,
    term: TermRef,
) -> Result<(), Fault> {
    for (line, look) in UNREAD {
        mark(rt, line);
        ensure(
            shows_nothing(store, term, look),
            "the call of the last mark reads a term that is gone",
        )?;
    }
    mark(rt, "prepares");
    Ok(())
}

// Whether a call tells that the store hasn't a term. No other calls are made of one.
fn shows_nothing(store: &TermStore, term: TermRef, look: Look) -> bool {
    match look {
        Look::Contains => !store.contains(term),
        Look::Check => store.check(term).is_err(),
        Look::Count => store.count(term).is_none(),
        Look::Get => store.get(&sym::fn_, &[term]).is_none(),
        Look::GetOf => store.get_of(sym::fn_.as_ref(), &[term]).is_none(),
        Look::Head => store.head(term).is_none(),
        Look::Args => store.args(term).is_none(),
        Look::Node => store.node(term).is_none(),
        Look::Named => store.named(term.name()).is_err(),
        _ => false,
    }
}
