//! Values that only these tests intern.
ghost use Rattle.std.specs.Prelude.{true, false};

use intern_fixtures::Unhashed;
use ra_ap_intern::{Internable, Interned, InternedRef};
use std::fmt::Debug;

/// Values that are numbers, however they are hashed.
pub trait Numeral: Internable + Copy + Debug {
    /// The value of a number.
    fn of(number: u64) -> Self;
}

/// A number, counted.
#[derive(Clone, Copy, Debug, PartialEq, Eq, Hash)]
pub struct Number(u64);

impl Internable for Number {
    const USE_GC: bool = false;

    ghost USE_GC = { false };
}

impl Numeral for Number {
    fn of(number: u64) -> Number {
        Number(number)
    }
}

/// A number, collected.
#[derive(Clone, Copy, Debug, PartialEq, Eq, Hash)]
pub struct Kept(u64);

impl Internable for Kept {
    const USE_GC: bool = true;

    ghost USE_GC = { true };
}

impl Numeral for Kept {
    fn of(number: u64) -> Kept {
        Kept(number)
    }
}

impl Numeral for Unhashed {
    fn of(number: u64) -> Unhashed {
        Unhashed(number)
    }
}

/// A value that refers to others of its storage, collected.
#[derive(Drop, PartialEq, Eq, Hash)]
pub struct Node {
    pub children: Vec<InternedRef<Node>>,
    pub owned: Vec<Interned<Node>>,
    pub label: u64,
}

impl Internable for Node {
    const USE_GC: bool = true;

    ghost USE_GC = { true };
}
