//! Worked examples, deep texts, collections, and random programs beside a plain reference.
mod random;
mod reference;

use crate::tests::random::{Generator, put, write_expression};
use crate::tests::reference::{FUEL, Kind, Reference};
use ra_ap_intern::{SymbolRef, SymbolTable};
use std::alloc::Global;
use std::process::Abort;
use types::environment::Environment;
use types::session::answer_all;
use types::store::Types;
use types::value::{TypeNode, TypeRef};

// The answers to a text.
fn answers(rt: &impl Abort, alloc: Global, text: &str) -> String {
    answer_all(alloc, text).expect(rt, "memory")
}

// The first line of the answers to a text.
fn first_answer(rt: &impl Abort, alloc: Global, text: &str) -> String {
    let told = answers(rt, alloc, text);
    let line = told.as_str().lines().next().unwrap_or("");
    String::from_str(alloc, line).expect(rt, "memory")
}

fn check_first(rt: &impl Abort, alloc: Global, text: &str, answer: &str) {
    assert_eq!(rt; first_answer(rt, alloc, text).as_str(), answer);
}

// Declarations, and the first line of the answers to each.
const TEXTBOOK: &[(&str, &str)] = &[
    ("id x = x;", "id : 'a -> 'a"),
    ("const x y = x;", "const : 'a -> 'b -> 'a"),
    (
        "compose f g x = f (g x);",
        "compose : ('a -> 'b) -> ('c -> 'a) -> 'c -> 'b",
    ),
    ("twice f x = f (f x);", "twice : ('a -> 'a) -> 'a -> 'a"),
    (
        "s x y z = x z (y z);",
        "s : ('a -> 'b -> 'c) -> ('a -> 'b) -> 'a -> 'c",
    ),
    (
        "y f = (fun x -> f (x x)) (fun x -> f (x x));",
        "1:22: infinite type: 'a = 'a -> 'b",
    ),
    ("swap p = (snd p, fst p);", "swap : 'a * 'b -> 'b * 'a"),
    (
        "rec map f p = (f (fst p), map f (snd p));",
        "1:5: infinite type: 'a = 'b * 'a",
    ),
    ("both = let f x = x in (f 1, f true);", "both : int * bool"),
    (
        "both = (fun f -> (f 1, f true)) (fun x -> x);",
        "1:26: can't unify int with bool",
    ),
    (
        "rec fact n = if n < 1 then 1 else n * fact (n - 1);",
        "fact : int -> int",
    ),
    (
        "rec fib n = if n < 2 then n else fib (n - 1) + fib (n - 2);",
        "fib : int -> int",
    ),
    ("zero f x = x;", "zero : 'a -> 'b -> 'b"),
    (
        "succ n f x = f (n f x);",
        "succ : (('a -> 'b) -> 'c -> 'a) -> ('a -> 'b) -> 'c -> 'b",
    ),
    ("inner x = let y = x in (y, y);", "inner : 'a -> 'a * 'a"),
    (
        "three = ((1, true), 2 == 3);",
        "three : (int * bool) * bool",
    ),
    ("minus = 1 - 2 - 3 < 4 * 5 + 6;", "minus : bool"),
    ("missing = x;", "1:11: unbound name x"),
    ("if = 3;", "1:1: expected a declaration"),
    ("x = 1 + ;", "1:9: expected an expression"),
    ("x = (1, 2;", "1:10: expected an operator or )"),
    ("x = 1", "1:6: expected an operator or ;"),
];

#[test]
fn textbook_examples(rt: HostRuntime) {
    for (text, answer) in TEXTBOOK {
        check_first(&rt, rt.alloc(), text, answer);
    }
}

// Appends a text so often.
fn put_often(rt: &impl Abort, out: &mut String, text: &str, count: u32) {
    for _ in 0..count {
        put(rt, out, text);
    }
}

// A declaration of the text in the middle, with the first of the three so often before it, and the
// last so often behind it.
fn nested(
    rt: &impl Abort,
    alloc: Global,
    (before, middle, after): (&str, &str, &str),
    count: u32,
) -> String {
    let mut text = String::new(alloc);
    put(rt, &mut text, "x = ");
    put_often(rt, &mut text, before, count);
    put(rt, &mut text, middle);
    put_often(rt, &mut text, after, count);
    put(rt, &mut text, ";");
    text
}

// The first line of the answers to such a declaration.
fn nested_answer(rt: &impl Abort, alloc: Global, parts: (&str, &str, &str), count: u32) -> String {
    let text = nested(rt, alloc, parts, count);
    first_answer(rt, alloc, text.as_str())
}

// Of a type of more than a hundred pieces the beginning is written, with dots behind it.
#[test]
fn long_types_are_cut(rt: HostRuntime) {
    for (count, end) in [(33, " -> int"), (34, " -> ..")] {
        let answer = nested_answer(&rt, rt.alloc(), ("fun a -> ", "1", ""), count);
        assert!(rt; answer.as_str().ends_with(end));
    }
}

#[test]
fn deep_parentheses_are_answered(rt: HostRuntime) {
    let text = nested(&rt, rt.alloc(), ("(", "1", ")"), 100_000);
    check_first(&rt, rt.alloc(), text.as_str(), "x : int");
}

// The parts of deep texts, and how the first line of the answers to each begins.
const DEEP: &[((&str, &str, &str), &str)] = &[
    (("fst (1, ", "true", ")"), "x : int"),
    (("let y = 1 in ", "y", ""), "x : int"),
    (("", "fst", " 1"), "1:9: can't unify 'a * 'b with int"),
    (("1 + (", "2", ")"), "x : int"),
    (("if true then 1 else ", "2", ""), "x : int"),
    (("fun y -> ", "y", ""), "x : 'a -> 'b -> 'c -> "),
    (("(", "1", ", 1)"), "x : (((((((((("),
];

fn check_deep(rt: &impl Abort, alloc: Global, parts: (&str, &str, &str), begins: &str) {
    let answer = nested_answer(rt, alloc, parts, 5_000);
    assert!(rt; answer.as_str().starts_with(begins), "{answer}");
}

#[test]
fn deep_texts_are_answered(rt: HostRuntime) {
    for (parts, begins) in DEEP {
        check_deep(&rt, rt.alloc(), *parts, begins);
    }
}

fn has_parts(types: &Types, handle: TypeRef, first: TypeRef, second: TypeRef) -> bool {
    match types.get(handle) {
        Some(TypeNode::Function(a, b)) | Some(TypeNode::Pair(a, b)) => a == first && b == second,
        _ => false,
    }
}

// Integers, their pair, the functions from it to them, and those from it to these functions.
fn make_types(rt: &impl Abort, types: &mut Types) -> [TypeRef; 4] {
    let integer = types.make(TypeNode::Integer).expect(rt, "memory");
    let pair = types.pair(integer, integer).expect(rt, "memory");
    let kept = types.function(pair, integer).expect(rt, "memory");
    let gone = types.function(pair, kept).expect(rt, "memory");
    [integer, pair, kept, gone]
}

fn declare(rt: &impl Abort, environment: &mut Environment, name: SymbolRef, handle: TypeRef) {
    environment.declare(name, handle).expect(rt, "memory");
}

// The first name is declared anew, so that nothing needs the last type.
fn check_collection(
    rt: &impl Abort,
    alloc: Global,
    environment: &mut Environment,
    (first, second): (SymbolRef, SymbolRef),
) {
    let [integer, pair, kept, gone] = make_types(rt, &mut environment.types);
    declare(rt, environment, first, gone);
    declare(rt, environment, second, integer);
    declare(rt, environment, first, kept);
    let told = environment.collect(alloc).expect(rt, "memory");
    assert_eq!(rt; (told.visits, told.removed), (3, 1));
    assert!(rt; environment.look_up(first) == Some(kept));
    assert!(rt; has_parts(&environment.types, kept, pair, integer));
    assert!(rt; has_parts(&environment.types, pair, integer, integer));
    assert!(rt; environment.types.get(gone).is_none());
}

#[test]
fn a_collection_keeps_what_is_declared(rt: HostRuntime) {
    let names = SymbolTable::new(rt.alloc(), 1);
    let first = names.get("i32").expect(&rt, "a preset");
    let second = names.get("str").expect(&rt, "a preset");
    let environment = &mut Environment::new(rt.alloc(), 2);
    check_collection(&rt, rt.alloc(), environment, (first, second));
}

#[test]
fn types_without_variables_are_known(rt: HostRuntime) {
    let types = &mut Types::new(rt.alloc(), 1);
    let [_, pair, kept, _] = make_types(&rt, types);
    let any = types.make(TypeNode::Any(0)).expect(&rt, "memory");
    let open = types.pair(pair, any).expect(&rt, "memory");
    assert!(rt; types.is_closed(kept) && !types.is_closed(open));
    types.collect(&[kept]).expect(&rt, "memory");
    assert!(rt; make_types(&rt, types)[2] == kept && types.is_closed(kept));
}

// Each type is over the one before it, so that to copy them would take the square of the time.
#[test]
fn types_without_variables_are_not_copied(rt: HostRuntime) {
    let mut text = String::new(rt.alloc());
    put(&rt, &mut text, "a = 1; b = ");
    put_often(&rt, &mut text, "let a = (a, 1) in ", 40_000);
    put(&rt, &mut text, "a;");
    let told = answers(&rt, rt.alloc(), text.as_str());
    // The pairs and int, with 'a, 'b, their pair, and the types of fst and snd.
    assert!(rt;
        told.as_str()
            .ends_with("\n4 names, 40006 types, 0 types removed\n")
    );
}

#[test]
fn equal_schemes_are_one(rt: HostRuntime) {
    let text = "f x y = x; g = fun first -> (fun second -> let same = first in same);";
    let told = answers(&rt, rt.alloc(), text);
    // 'a, 'b, their pair, the types of fst and snd, 'b -> 'a, and the one type of f and g.
    assert!(rt; told.as_str().contains("\n4 names, 7 types, "), "{told}");
}

// How many answers there were of each kind.
#[derive(Clone, Copy)]
struct Counts {
    typed: u32,
    clashes: u32,
    infinite: u32,
    unbound: u32,
}

// Appends the answer that the reference gives, and counts it.
fn refer(
    rt: &impl Abort,
    out: &mut String,
    reference: &mut Reference,
    generator: &Generator,
    at: usize,
    counts: &mut Counts,
) {
    let text = match reference.declare(rt, 3, generator.all.as_slice(), at) {
        Ok(place) => {
            counts.typed = counts.typed.saturating_add(1);
            put(rt, out, "f : ");
            reference.write(rt, out, place);
            ""
        }
        Err(Kind::Unbound) => {
            counts.unbound = counts.unbound.saturating_add(1);
            "unbound name "
        }
        Err(Kind::Clash) => {
            counts.clashes = counts.clashes.saturating_add(1);
            "can't unify "
        }
        Err(Kind::Infinite) => {
            counts.infinite = counts.infinite.saturating_add(1);
            "infinite type: "
        }
    };
    put(rt, out, text);
    put(rt, out, "\n");
}

// The same type, or its beginning, or the same kind of error.
fn is_same(answer: &str, wanted: &str) -> bool {
    match answer.strip_suffix("..") {
        Some(beginning) => wanted.starts_with(beginning),
        None if wanted.starts_with("f : ") => answer == wanted,
        None => answer.contains(wanted),
    }
}

// Appends a declaration to a text, and the reference's answer to others.
fn add_declaration(
    rt: &impl Abort,
    (text, wanted): (&mut String, &mut String),
    reference: &mut Reference,
    generator: &mut Generator,
    depth: u32,
    counts: &mut Counts,
) {
    generator.all.clear();
    let at = generator.make(rt, depth);
    put(rt, text, "f = ");
    write_expression(rt, text, FUEL, generator.all.as_slice(), at);
    put(rt, text, ";\n");
    refer(rt, wanted, reference, generator, at, counts);
}

fn compare(rt: &impl Abort, alloc: Global, seed: u64, counts: &mut Counts) {
    let mut generator = Generator::new(alloc, seed);
    let mut reference = Reference::new(alloc);
    let mut text = String::new(alloc);
    let mut wanted = String::new(alloc);
    for step in 0..20 {
        let texts = (&mut text, &mut wanted);
        let depth = 1 + step % 5;
        add_declaration(rt, texts, &mut reference, &mut generator, depth, counts);
    }
    let told = answers(rt, alloc, text.as_str());
    for (answer, wanted) in told.as_str().lines().zip(wanted.as_str().lines()) {
        assert!(rt; is_same(answer, wanted), "{answer} for {wanted} in\n{text}");
    }
}

#[test]
fn random_programs_have_the_types_of_the_reference(rt: HostRuntime) {
    let mut counts = Counts {
        typed: 0,
        clashes: 0,
        infinite: 0,
        unbound: 0,
    };
    for seed in 0..250 {
        compare(&rt, rt.alloc(), seed, &mut counts);
    }
    let Counts {
        typed,
        clashes,
        infinite,
        unbound,
    } = counts;
    assert!(rt; typed > 1500 && clashes > 1000, "{typed} {clashes}");
    assert!(rt; infinite > 100 && unbound > 100, "{infinite} {unbound}");
}
