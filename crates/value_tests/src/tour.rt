//! A tour of the library: values, slices and symbols, each with its calls in turn.
ghost use Rattle.std.specs.Prelude.{false, true};

use crate::steps::is_equal;
use intern_fixtures::allowed;
use ra_ap_intern::{
    InternSliceStorage, InternStorage, Internable, Interned, InternedSlice, SliceInternable,
    Symbol, SymbolTable, sym,
};
use std::alloc::Global;
use std::process::Abort;

/// A text that is stored once.
#[derive(Drop, PartialEq, Eq, Hash)]
struct Word(String);

// Counted mode: an entry goes with its last owner.
impl Internable for Word {
    const USE_GC: bool = false;

    ghost USE_GC = { false };
}

/// A generic type, by its number, with its arguments.
struct Application;

impl SliceInternable for Application {
    type Header = u32;

    type SliceType = u32;

    const USE_GC: bool = true;

    ghost USE_GC = { true };
}

fn make_word(rt: &impl Abort, alloc: Global, text: &str) -> Word {
    Word(String::from_str(alloc, text).expect(rt, "memory"))
}

fn text(word: &Option<Word>) -> Option<&str> {
    word.as_ref().map(|word| word.0.as_str())
}

#[test]
fn one_copy_of_each_word(rt: HostRuntime) {
    let alloc = rt.alloc();
    let mut words = InternStorage::new(alloc, 1);
    let hello = make_word(&rt, alloc, "hello");
    let (hello, back) = allowed(Interned::new(&mut words, hello)).expect(&rt, "interned");
    assert!(rt; back.is_none());

    // An equal word is stored already: it comes back, and the handles are equal.
    let again = make_word(&rt, alloc, "hello");
    let (again, back) = allowed(Interned::new(&mut words, again)).expect(&rt, "interned");
    is_equal(&rt, text(&back), Some("hello"));
    assert!(rt; hello == again);
    is_equal(&rt, words.len(), 1);
    is_equal(&rt, words.count(hello.as_ref()), Some(2));

    // The last release frees the word and gives it back. A reference to it reads nothing then.
    let reference = hello.as_ref();
    let none = allowed(hello.release(&mut words)).expect(&rt, "released");
    assert!(rt; none.is_none());
    let freed = allowed(again.release(&mut words)).expect(&rt, "released");
    is_equal(&rt, text(&freed), Some("hello"));
    assert!(rt; reference.get(&words).is_none());
}

#[test]
fn one_copy_of_each_slice(rt: HostRuntime) {
    let mut types: InternSliceStorage<Application> = InternSliceStorage::new(rt.alloc(), 2);
    let arguments = [20, 21].as_slice();
    let pair = InternedSlice::from_header_and_slice(&mut types, 7, arguments);
    let (pair, _) = allowed(pair).expect(&rt, "interned");

    // An equal header with equal items is stored already: the header comes back.
    let again = InternedSlice::from_header_and_slice(&mut types, 7, arguments);
    let (again, back) = allowed(again).expect(&rt, "interned");
    assert_eq!(rt; back, Some(7));
    assert!(rt; pair == again);

    // Reading lends the header and the items.
    let read = pair.get(&types).expect(&rt, "it is stored");
    assert_eq!(rt; (*read.header.header, read.slice), (7, arguments));
}

#[test]
fn a_reference_counts_nothing(rt: HostRuntime) {
    let mut types: InternSliceStorage<Application> = InternSliceStorage::new(rt.alloc(), 2);
    let pair = types
        .get_or_intern(7, [20, 21].as_slice())
        .expect(&rt, "interned");
    let owned = pair.to_owned(&mut types).expect(&rt, "owned");
    is_equal(&rt, types.count(pair), Some(1));
    assert!(rt; owned.release(&mut types).is_ok());
    is_equal(&rt, types.count(pair), Some(0));
}

#[test]
fn one_symbol_for_each_text(rt: HostRuntime) {
    let mut table = SymbolTable::new(rt.alloc(), 3);

    // A preset's text gives its constant, and is in no table.
    let preset = Symbol::intern(&mut table, "Clone").expect(&rt, "interned");
    assert!(rt; preset == sym::Clone);
    assert_eq!(rt; table.len(), 0);

    // Any other text is kept while it is counted.
    let hello = Symbol::intern(&mut table, "hello").expect(&rt, "interned");
    let again = Symbol::intern(&mut table, "hello").expect(&rt, "interned");
    assert!(rt; hello == again && table.count(&hello) == Some(2));
    assert_eq!(rt; hello.as_str(&table), Some("hello"));
}

#[test]
fn the_digits_of_a_number_are_a_symbol(rt: HostRuntime) {
    let mut table = SymbolTable::new(rt.alloc(), 3);
    let number = sym::Integer::get(&mut table, 1000).expect(&rt, "interned");
    is_equal(&rt, sym::Integer::as_uint(&number, &table), Some(1000));
    is_equal(&rt, table.len(), 1);
}
