//! Random expressions.
ghost use Rattle.std.specs.Prelude.{◌<◌};

use std::alloc::Global;
use std::process::Abort;

/// An expression of an arena, over the places of its parts.
#[derive(Clone, Copy)]
pub enum Expression {
    Integer,
    Boolean,
    Name(u8),
    Lambda(u8, usize),
    Apply(usize, usize),
    Let(u8, usize, usize),
    LetRec(u8, usize, usize),
    If(usize, usize, usize),
    Pair(usize, usize),
    /// Whether the operator compares.
    Operate(bool, usize, usize),
}

/// Expressions from a seed.
#[derive(Drop)]
pub struct Generator {
    pub all: Vec<Expression>,
    // The names that are bound.
    bound: Vec<u8>,
    seed: u64,
}

impl Generator {
    pub fn new(alloc: Global, seed: u64) -> Generator {
        Generator {
            all: Vec::new(alloc),
            bound: Vec::new(alloc),
            seed,
        }
    }

    // A number below this one, or 0.
    fn below(&mut self, end: u64) -> u64 {
        self.seed = self
            .seed
            .wrapping_mul(6364136223846793005)
            .wrapping_add(1442695040888963407);
        (self.seed >> 33) % end.max(1)
    }

    fn add(&mut self, rt: &impl Abort, expression: Expression) -> usize {
        let place = self.all.len();
        self.all.push(expression).expect(rt, "memory");
        place
    }

    fn name(&mut self) -> u8 {
        (self.below(4) % 4) as u8
    }

    // Mostly a name that is bound.
    fn leaf(&mut self, rt: &impl Abort) -> usize {
        let any = self.name();
        let choice = self.below(50);
        let last = self.bound.len().saturating_sub(1);
        let bound = self
            .bound
            .get(last.saturating_sub(choice as usize % 3))
            .copied();
        let leaf = match choice {
            0 => Expression::Name(any),
            1..10 => Expression::Boolean,
            _ => bound.map_or(Expression::Integer, Expression::Name),
        };
        self.add(rt, leaf)
    }

    // An expression in which a name is bound.
    #[cycle(generator)]
    fn within(&mut self, rt: &impl Abort, name: u8, depth: u32) -> usize {
        self.bound.push(name).expect(rt, "memory");
        let place = self.make(rt, depth);
        self.bound.pop();
        place
    }

    #[cycle(generator)]
    fn two(&mut self, rt: &impl Abort, depth: u32) -> (usize, usize) {
        (self.make(rt, depth), self.make(rt, depth))
    }

    /// The place of a new expression that is at most so deep.
    #[cycle(generator)]
    pub fn make(&mut self, rt: &impl Abort, depth: u32) -> usize {
        if depth == 0 {
            return self.leaf(rt);
        }
        let depth = depth - 1;
        let name = self.name();
        let expression = match self.below(14) {
            0 => return self.leaf(rt),
            1..5 => Expression::Lambda(name, self.within(rt, name, depth)),
            5 => {
                let bound = self.make(rt, depth);
                Expression::Let(name, bound, self.within(rt, name, depth))
            }
            6 => {
                let bound = self.within(rt, name, depth);
                Expression::LetRec(name, bound, self.within(rt, name, depth))
            }
            7 => {
                let condition = self.make(rt, depth);
                let (first, second) = self.two(rt, depth);
                Expression::If(condition, first, second)
            }
            choice => {
                let (first, second) = self.two(rt, depth);
                match choice {
                    8 => Expression::Operate(false, first, second),
                    9 => Expression::Operate(true, first, second),
                    10 => Expression::Pair(first, second),
                    _ => Expression::Apply(first, second),
                }
            }
        };
        self.add(rt, expression)
    }
}

/// The expression at a place.
pub fn expression_at(rt: &impl Abort, all: &[Expression], at: usize) -> Expression {
    *all.get(at).expect(rt, "an expression")
}

/// One less fuel, of which there has to be some.
pub fn less(rt: &impl Abort, fuel: u32) -> u32
    ensures { result < fuel }
{
    assert!(rt; fuel > 0);
    fuel - 1
}

/// Appends a text.
pub fn put(rt: &impl Abort, out: &mut String, text: &str) {
    out.push_str(text).expect(rt, "memory");
}

/// Appends an expression as it is written, each part in parentheses.
#[cycle(write_expression)]
pub fn write_expression(
    rt: &impl Abort,
    out: &mut String,
    fuel: u32,
    all: &[Expression],
    at: usize,
) {
    let fuel = less(rt, fuel);
    let expression = expression_at(rt, all, at);
    let (before, name, between) = words(expression);
    put(rt, out, "(");
    put(rt, out, before);
    put(rt, out, name);
    put(rt, out, between);
    write_parts(rt, out, fuel, all, expression);
    put(rt, out, ")");
}

// Appends the parts of an expression.
#[cycle(write_expression)]
fn write_parts(
    rt: &impl Abort,
    out: &mut String,
    fuel: u32,
    all: &[Expression],
    expression: Expression,
) {
    match expression {
        Expression::Integer | Expression::Boolean | Expression::Name(_) => {}
        Expression::Lambda(_, body) => write_expression(rt, out, fuel, all, body),
        Expression::Apply(first, second)
        | Expression::Let(_, first, second)
        | Expression::LetRec(_, first, second)
        | Expression::Pair(first, second)
        | Expression::Operate(_, first, second) => {
            write_two(rt, out, fuel, all, (first, sign(expression), second));
        }
        Expression::If(condition, first, second) => {
            write_two(rt, out, fuel, all, (condition, " then ", first));
            put(rt, out, " else ");
            write_expression(rt, out, fuel, all, second);
        }
    }
}

#[cycle(write_expression)]
fn write_two(
    rt: &impl Abort,
    out: &mut String,
    fuel: u32,
    all: &[Expression],
    (first, between, second): (usize, &str, usize),
) {
    write_expression(rt, out, fuel, all, first);
    put(rt, out, between);
    write_expression(rt, out, fuel, all, second);
}

// What is written before the first part, with the name that is bound in it, or that it is.
fn words(expression: Expression) -> (&'static str, &'static str, &'static str) {
    match expression {
        Expression::Integer => ("7", "", ""),
        Expression::Boolean => ("true", "", ""),
        Expression::Name(name) => (name_text(name), "", ""),
        Expression::Lambda(name, _) => ("fun ", name_text(name), " -> "),
        Expression::Let(name, ..) => ("let ", name_text(name), " = "),
        Expression::LetRec(name, ..) => ("let rec ", name_text(name), " = "),
        Expression::If(..) => ("if ", "", ""),
        _ => ("", "", ""),
    }
}

// What is written between two parts.
fn sign(expression: Expression) -> &'static str {
    match expression {
        Expression::Let(..) | Expression::LetRec(..) => " in ",
        Expression::Pair(..) => ", ",
        Expression::Operate(true, ..) => " < ",
        Expression::Operate(false, ..) => " + ",
        _ => " ",
    }
}

/// A name as it is written.
pub fn name_text(name: u8) -> &'static str {
    match name {
        0 => "x",
        1 => "y",
        2 => "z",
        _ => "f",
    }
}
