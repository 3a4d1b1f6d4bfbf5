//! Inference as a textbook has it: types are trees, which are compared part by part, and what is
//! unknown is general where nothing in scope speaks of it.
use crate::tests::random::{Expression, expression_at, less, put};
use std::alloc::Global;
use std::process::Abort;

/// A type of an arena, over the places of its parts. Equal types may have many places.
#[derive(Clone, Copy)]
pub enum Plain {
    Integer,
    Boolean,
    Unknown,
    Is(usize),
    Any(usize),
    Function(usize, usize),
    Pair(usize, usize),
}

impl Plain {
    // A type of the same kind over other parts.
    fn over(self, a: usize, b: usize) -> Plain {
        match self {
            Plain::Function(..) => Plain::Function(a, b),
            _ => Plain::Pair(a, b),
        }
    }

    // What is written between the parts, and how closely each is held.
    fn sign(self) -> (u8, &'static str, u8) {
        match self {
            Plain::Function(..) => (1, " -> ", 0),
            _ => (2, " * ", 2),
        }
    }
}

/// Why an expression has no type.
#[derive(Clone, Copy)]
pub enum Kind {
    Unbound,
    Clash,
    Infinite,
}

/// Types, and the names in scope, the innermost last.
#[derive(Drop)]
pub struct Reference {
    alloc: Global,
    types: Vec<Plain>,
    scope: Vec<(u8, usize)>,
    // The variables of the type that is being written.
    seen: Vec<usize>,
    // What was found wrong first.
    wrong: Option<Kind>,
}

impl Reference {
    pub fn new(alloc: Global) -> Reference {
        Reference {
            alloc,
            types: Vec::new(alloc),
            scope: Vec::new(alloc),
            seen: Vec::new(alloc),
            wrong: None,
        }
    }

    fn fail(&mut self, kind: Kind) {
        if self.wrong.is_none() {
            self.wrong = Some(kind);
        }
    }

    fn add(&mut self, rt: &impl Abort, plain: Plain) -> usize {
        let place = self.types.len();
        self.types.push(plain).expect(rt, "memory");
        place
    }

    // Where a type stands that is known to be another.
    fn find(&self, place: usize) -> (usize, Plain) {
        let mut place = place;
        for _ in 0..self.types.len() {
            match self.types.get(place) {
                Some(Plain::Is(next)) => place = *next,
                Some(plain) => return (place, *plain),
                None => return (place, Plain::Unknown),
            }
        }
        (place, Plain::Unknown)
    }

    fn set(&mut self, place: usize, plain: Plain) {
        if let Some(old) = self.types.get_mut(place) {
            *old = plain;
        }
    }

    // Whether an unknown type is a part of a type.
    fn occurs(&self, fuel: u32, unknown: usize, place: usize) -> bool {
        let (place, plain) = self.find(place);
        if place == unknown || fuel == 0 {
            return true;
        }
        match plain {
            Plain::Function(a, b) | Plain::Pair(a, b) => {
                self.occurs(fuel - 1, unknown, a) || self.occurs(fuel - 1, unknown, b)
            }
            _ => false,
        }
    }

    fn unify(&mut self, rt: &impl Abort, fuel: u32, left: usize, right: usize) {
        let fuel = less(rt, fuel);
        let (left, first) = self.find(left);
        let (right, second) = self.find(right);
        match (first, second) {
            (Plain::Unknown, _) => self.bind(left, right),
            (_, Plain::Unknown) => self.bind(right, left),
            (Plain::Function(a, b), Plain::Function(c, d))
            | (Plain::Pair(a, b), Plain::Pair(c, d)) => {
                self.unify(rt, fuel, a, c);
                self.unify(rt, fuel, b, d);
            }
            (Plain::Integer, Plain::Integer) | (Plain::Boolean, Plain::Boolean) => {}
            _ => self.fail(Kind::Clash),
        }
    }

    fn bind(&mut self, unknown: usize, to: usize) {
        if unknown == to {
            return;
        }
        if self.occurs(FUEL, unknown, to) {
            self.fail(Kind::Infinite);
        } else {
            self.set(unknown, Plain::Is(to));
        }
    }

    // Whether something in scope speaks of an unknown type.
    fn is_free(&self, unknown: usize) -> bool {
        self.scope
            .iter()
            .any(|bound| self.occurs(FUEL, unknown, bound.1))
    }

    // A copy in which what is unknown and not free is any type.
    fn general(&mut self, rt: &impl Abort, fuel: u32, place: usize) -> usize {
        let fuel = less(rt, fuel);
        let (place, plain) = self.find(place);
        match plain {
            Plain::Unknown if !self.is_free(place) => self.add(rt, Plain::Any(place)),
            Plain::Function(a, b) | Plain::Pair(a, b) => {
                let a = self.general(rt, fuel, a);
                let b = self.general(rt, fuel, b);
                self.add(rt, plain.over(a, b))
            }
            _ => place,
        }
    }

    // A copy in which any type is a new unknown one.
    fn instance(
        &mut self,
        rt: &impl Abort,
        fuel: u32,
        place: usize,
        fresh: &mut Vec<(usize, usize)>,
    ) -> usize {
        let fuel = less(rt, fuel);
        let (place, plain) = self.find(place);
        match plain {
            Plain::Any(number) => self.fresh(rt, number, fresh),
            Plain::Function(a, b) | Plain::Pair(a, b) => {
                let a = self.instance(rt, fuel, a, fresh);
                let b = self.instance(rt, fuel, b, fresh);
                self.add(rt, plain.over(a, b))
            }
            _ => place,
        }
    }

    fn fresh(&mut self, rt: &impl Abort, number: usize, fresh: &mut Vec<(usize, usize)>) -> usize {
        for pair in fresh.iter() {
            if pair.0 == number {
                return pair.1;
            }
        }
        let place = self.add(rt, Plain::Unknown);
        fresh.push((number, place)).expect(rt, "memory");
        place
    }

    // The place of the innermost type of a name.
    fn look_up(&self, name: u8) -> Option<usize> {
        for bound in self.scope.iter().rev() {
            if bound.0 == name {
                return Some(bound.1);
            }
        }
        None
    }

    fn name(&mut self, rt: &impl Abort, name: u8) -> usize {
        match self.look_up(name) {
            Some(place) => self.instance(rt, FUEL, place, &mut Vec::new(self.alloc)),
            None => {
                self.fail(Kind::Unbound);
                self.add(rt, Plain::Unknown)
            }
        }
    }

    fn bind_name(&mut self, rt: &impl Abort, name: u8, place: usize) {
        self.scope.push((name, place)).expect(rt, "memory");
    }

    // The types of two expressions, in order.
    #[cycle(infer)]
    fn two(
        &mut self,
        rt: &impl Abort,
        fuel: u32,
        all: &[Expression],
        first: usize,
        second: usize,
    ) -> (usize, usize) {
        let first = self.infer(rt, fuel, all, first);
        (first, self.infer(rt, fuel, all, second))
    }

    // The type of an expression in which a name is bound to a type.
    #[cycle(infer)]
    fn within(
        &mut self,
        rt: &impl Abort,
        fuel: u32,
        all: &[Expression],
        (name, place): (u8, usize),
        at: usize,
    ) -> usize {
        self.bind_name(rt, name, place);
        let inferred = self.infer(rt, fuel, all, at);
        self.scope.pop();
        inferred
    }

    // The type of an expression. Where it has none, any type, and what is wrong.
    #[cycle(infer)]
    fn infer(&mut self, rt: &impl Abort, fuel: u32, all: &[Expression], at: usize) -> usize {
        let fuel = less(rt, fuel);
        match expression_at(rt, all, at) {
            Expression::Integer => self.add(rt, Plain::Integer),
            Expression::Boolean => self.add(rt, Plain::Boolean),
            Expression::Name(name) => self.name(rt, name),
            Expression::Lambda(name, body) => {
                let parameter = self.add(rt, Plain::Unknown);
                let body = self.within(rt, fuel, all, (name, parameter), body);
                self.add(rt, Plain::Function(parameter, body))
            }
            Expression::Apply(function, argument) => {
                let (function, argument) = self.two(rt, fuel, all, function, argument);
                self.apply(rt, function, argument)
            }
            Expression::Let(name, bound, body) => {
                let bound = self.infer(rt, fuel, all, bound);
                let general = self.general(rt, FUEL, bound);
                self.within(rt, fuel, all, (name, general), body)
            }
            Expression::LetRec(name, bound, body) => {
                let own = self.add(rt, Plain::Unknown);
                let bound = self.within(rt, fuel, all, (name, own), bound);
                let general = self.own(rt, own, bound);
                self.within(rt, fuel, all, (name, general), body)
            }
            Expression::If(condition, first, second) => {
                let condition = self.infer(rt, fuel, all, condition);
                self.expect(rt, condition, Plain::Boolean);
                let (first, second) = self.two(rt, fuel, all, first, second);
                self.unify(rt, FUEL, first, second);
                first
            }
            Expression::Pair(first, second) => {
                let (first, second) = self.two(rt, fuel, all, first, second);
                self.add(rt, Plain::Pair(first, second))
            }
            Expression::Operate(compares, left, right) => {
                let (left, right) = self.two(rt, fuel, all, left, right);
                self.operate(rt, compares, left, right)
            }
        }
    }

    // What is bound to its own name, in general.
    fn own(&mut self, rt: &impl Abort, own: usize, bound: usize) -> usize {
        self.unify(rt, FUEL, own, bound);
        self.general(rt, FUEL, bound)
    }

    fn apply(&mut self, rt: &impl Abort, function: usize, argument: usize) -> usize {
        let answer = self.add(rt, Plain::Unknown);
        let wanted = self.add(rt, Plain::Function(argument, answer));
        self.unify(rt, FUEL, function, wanted);
        answer
    }

    fn operate(&mut self, rt: &impl Abort, compares: bool, left: usize, right: usize) -> usize {
        self.expect(rt, left, Plain::Integer);
        self.expect(rt, right, Plain::Integer);
        let answer = if compares {
            Plain::Boolean
        } else {
            Plain::Integer
        };
        self.add(rt, answer)
    }

    fn expect(&mut self, rt: &impl Abort, place: usize, plain: Plain) {
        let wanted = self.add(rt, plain);
        self.unify(rt, FUEL, place, wanted);
    }

    /// Declares an expression under a name, and answers its type.
    pub fn declare(
        &mut self,
        rt: &impl Abort,
        name: u8,
        all: &[Expression],
        at: usize,
    ) -> Result<usize, Kind> {
        self.wrong = None;
        let inferred = self.infer(rt, FUEL, all, at);
        match self.wrong {
            Some(kind) => Err(kind),
            None => {
                let general = self.general(rt, FUEL, inferred);
                self.bind_name(rt, name, general);
                Ok(general)
            }
        }
    }

    /// Appends a type.
    pub fn write(&mut self, rt: &impl Abort, out: &mut String, place: usize) {
        self.seen.clear();
        self.write_part(rt, FUEL, out, place, 0);
    }

    #[cycle(write)]
    fn write_part(
        &mut self,
        rt: &impl Abort,
        fuel: u32,
        out: &mut String,
        place: usize,
        holds: u8,
    ) {
        let fuel = less(rt, fuel);
        let plain = self.find(place).1;
        match plain {
            Plain::Integer => put(rt, out, "int"),
            Plain::Boolean => put(rt, out, "bool"),
            Plain::Any(number) => put_variable(rt, out, self.index_of(rt, number)),
            Plain::Function(a, b) | Plain::Pair(a, b) => {
                self.write_parts(rt, fuel, out, (a, plain.sign(), b), holds);
            }
            _ => put(rt, out, "?"),
        }
    }

    #[cycle(write)]
    fn write_parts(
        &mut self,
        rt: &impl Abort,
        fuel: u32,
        out: &mut String,
        (a, (left, between, right), b): (usize, (u8, &str, u8), usize),
        holds: u8,
    ) {
        let (before, behind) = if holds >= left { ("(", ")") } else { ("", "") };
        put(rt, out, before);
        self.write_part(rt, fuel, out, a, left);
        put(rt, out, between);
        self.write_part(rt, fuel, out, b, right);
        put(rt, out, behind);
    }

    // The index of a variable among those that were seen, of which it is one then.
    fn index_of(&mut self, rt: &impl Abort, number: usize) -> usize {
        let known = self.seen.iter().position(|other| *other == number);
        let index = known.unwrap_or(self.seen.len());
        if known.is_none() {
            self.seen.push(number).expect(rt, "memory");
        }
        index
    }
}

// Appends a variable: 'a to 'z, 'a1 to 'z1, and so on.
fn put_variable(rt: &impl Abort, out: &mut String, index: usize) {
    let letter = char::from(b'a' + (index % 26) as u8);
    let written = match index / 26 {
        0 => write!(out, "'{letter}"),
        round => write!(out, "'{letter}{round}"),
    };
    written.expect(rt, "memory");
}

/// How deep expressions and types may be.
pub const FUEL: u32 = 200;
