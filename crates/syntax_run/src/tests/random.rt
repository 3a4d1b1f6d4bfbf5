//! Random programs beside trees of boxes.
ghost use Rattle.std.specs.Prelude.{◌<◌};

use super::examples::{parsed, printed};
use std::alloc::{AllocError, Global};
use std::process::Abort;
use syntax::change::{Change, Part, Spots};
use syntax::fault::Fault;
use syntax::syntax::Syntax;

const MOST: usize = 1 << 40;

/// How many pairs of programs are compared.
const PAIRS: usize = 3000;

// A tree of boxes.
#[derive(Drop, PartialEq, Eq)]
enum Sketch {
    Name(u8),
    Call(u8, Box<Sketch>),
    Sum(Box<Sketch>, Box<Sketch>),
    Choice(Box<Sketch>, Box<Sketch>, Box<Sketch>),
}

// Numbers as if by chance.
#[derive(Drop)]
struct Random(u64);

impl Random {
    fn below(&mut self, limit: u64) -> u64
        requires { 0 < limit }
        ensures { result < limit }
    {
        self.0 = self
            .0
            .wrapping_mul(6364136223846793005)
            .wrapping_add(1442695040888963407);
        (self.0 >> 33) % limit
    }
}

fn name(index: u8) -> &'static str {
    match index {
        0 => "a",
        1 => "b",
        _ => "c",
    }
}

impl Sketch {
    // Writes the tree as the printer is to print it.
    fn write(&self, out: &mut String) -> Result<(), AllocError> {
        match self {
            Sketch::Name(index) => out.push_str(name(*index)),
            Sketch::Call(index, part) => {
                out.push_str(name(*index))?;
                out.push('(')?;
                part.write(out)?;
                out.push(')')
            }
            Sketch::Sum(left, right) => {
                out.push('(')?;
                left.write(out)?;
                out.push_str(" + ")?;
                right.write(out)?;
                out.push(')')
            }
            Sketch::Choice(test, one, other) => {
                out.push_str("(if ")?;
                test.write(out)?;
                out.push_str(" then ")?;
                one.write(out)?;
                out.push_str(" else ")?;
                other.write(out)?;
                out.push(')')
            }
        }
    }

    // Writes what changes from this tree to another.
    fn write_changes(&self, new: &Sketch, out: &mut String) -> Result<(), AllocError> {
        match (self, new) {
            (Sketch::Call(f, a), Sketch::Call(g, b)) if f == g => a.write_changes(b, out),
            (Sketch::Sum(a, b), Sketch::Sum(c, d)) => {
                a.write_changes(c, out)?;
                b.write_changes(d, out)
            }
            (Sketch::Choice(a, b, c), Sketch::Choice(d, e, f)) => {
                a.write_changes(d, out)?;
                b.write_changes(e, out)?;
                c.write_changes(f, out)
            }
            _ if self == new => Ok(()),
            _ => {
                self.write(out)?;
                out.push_str(" becomes ")?;
                new.write(out)?;
                out.push('\n')
            }
        }
    }
}

// A tree as if by chance.
fn random_tree(alloc: Global, random: &mut Random) -> Result<Sketch, AllocError> {
    let mut parts = Vec::new(alloc);
    for _ in 0..random.below(12) {
        let next = next_tree(alloc, random, &mut parts)?;
        parts.push(next)?;
    }
    Ok(parts.pop().unwrap_or(Sketch::Name(0)))
}

// A tree over the last of some others.
fn next_tree(
    alloc: Global,
    random: &mut Random,
    parts: &mut Vec<Sketch>,
) -> Result<Sketch, AllocError> {
    let index = random.below(2) as u8;
    match random.below(4) {
        0 => Ok(Sketch::Name(index)),
        1 => Ok(Sketch::Call(index, boxed(alloc, parts)?)),
        2 => Ok(Sketch::Sum(boxed(alloc, parts)?, boxed(alloc, parts)?)),
        _ => {
            let test = boxed(alloc, parts)?;
            Ok(Sketch::Choice(test, boxed(alloc, parts)?, boxed(alloc, parts)?))
        }
    }
}

fn boxed(alloc: Global, parts: &mut Vec<Sketch>) -> Result<Box<Sketch>, AllocError> {
    let part = parts.pop().unwrap_or(Sketch::Name(2));
    Ok(Box::new(alloc, part)?)
}

// An item that defines a tree.
fn item(alloc: Global, tree: &Sketch) -> Result<String, AllocError> {
    let mut text = String::from_str(alloc, "let x = ")?;
    tree.write(&mut text)?;
    text.push(';')?;
    Ok(text)
}

// What the program tells that changes from an item to another.
fn told_changes(syntax: &Syntax, whole: Change) -> Result<String, Fault> {
    let mut out = String::new(syntax.alloc);
    let spots = Spots { old: &[], new: &[] };
    for change in syntax.changes(whole, spots, MOST)?.as_slice() {
        let old = syntax.print(change.old.tree, MOST)?;
        syntax.write(old.as_slice(), &mut out)?;
        out.push_str(" becomes ")?;
        let new = syntax.print(change.new.tree, MOST)?;
        syntax.write(new.as_slice(), &mut out)?;
        out.push('\n')?;
    }
    Ok(out)
}

// Compares two trees as terms with the same two as boxes.
fn check_pair(rt: &impl Abort, alloc: Global, old: &Sketch, new: &Sketch) {
    let mut syntax = Syntax::new(alloc);
    let old_text = item(alloc, old).expect(rt, "memory");
    let new_text = item(alloc, new).expect(rt, "memory");
    let old_program = parsed(rt, &mut syntax, old_text.as_str());
    let new_program = parsed(rt, &mut syntax, new_text.as_str());
    assert!(rt; printed(rt, &syntax, &old_program, 0).as_str() == old_text.as_str());
    let (Some(first), Some(second)) = (old_program.items.first(), new_program.items.first()) else {
        panic!(rt; "an item each")
    };
    assert!(rt; syntax.same(*first, *second) == (old == new));
    let whole = Change {
        old: Part {
            tree: *first,
            spot: 0,
        },
        new: Part {
            tree: *second,
            spot: 0,
        },
    };
    let mut expected = String::new(alloc);
    assert!(rt; old.write_changes(new, &mut expected).is_ok());
    let Ok(told) = told_changes(&syntax, whole) else {
        panic!(rt; "told")
    };
    assert!(rt; told.as_str() == expected.as_str());
}

#[test]
fn random_programs_are_printed_compared_and_told_apart(rt: HostRuntime) {
    let mut random = Random(1);
    for _ in 0..PAIRS {
        let old = random_tree(rt.alloc(), &mut random).expect(&rt, "memory");
        let new = random_tree(rt.alloc(), &mut random).expect(&rt, "memory");
        check_pair(&rt, rt.alloc(), &old, &new);
    }
}
