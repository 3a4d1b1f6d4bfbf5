//! Values of cells, and what functions make of them.
ghost use Rattle.std.specs.Prelude.{◌≡◌, ◌-◌, ◌^◌, ℤ, FitsSigned, IfSome};
ghost use Rattle.std.specs.Int.{w64};
ghost use Rattle.std.specs.Option.{SomeIff};
ghost use Rattle.queries.specs.Value.{exact_number, number_of, value_of, IsWithin, included, total_of};

use crate::key::{Function, Key};
use std::fmt;
use thiserror::Error;

/// Why a cell has no number.
#[derive(Clone, Copy, PartialEq, Eq, Debug, Error)]
pub enum CellError {
    /// When a number doesn't fit 64 bits.
    #[error("overflow")]
    Overflow,
    /// When a number is divided by zero.
    #[error("division by zero")]
    DivisionByZero,
    /// When an operation lacks an operand. The parser makes no such formula.
    #[error("incomplete formula")]
    Incomplete,
}

/// The value of a query.
#[derive(Clone, Copy, PartialEq, Eq, Debug)]
pub enum Value {
    /// Of a cell without a formula. It counts as zero.
    Empty,
    /// A number.
    Number(i64),
    /// An error, which passes on to what reads it.
    Error(CellError),
}

/// The answer to a query.
#[derive(Clone, Copy, PartialEq, Eq, Debug)]
pub enum Answer {
    /// Its value.
    Value(Value),
    /// It has none, since what it reads leads to a query that reads itself in the end: this one.
    Cycle(Key),
}

impl Value {
    /// As a number.
    pub fn number(self) -> Result<i64, CellError>
        ensures { result ≡ number_of self }
    {
        match self {
            Value::Empty => Ok(0),
            Value::Number(number) => Ok(number),
            Value::Error(error) => Err(error),
        }
    }

    /// Of a number, or of why there is none.
    pub fn of(outcome: Result<i64, CellError>) -> Value
        ensures { result ≡ value_of outcome }
    {
        outcome.map_or_else(Value::Error, Value::Number)
    }
}

/// The number, where it fits 64 bits.
pub fn exact(number: Option<i64>) -> Result<i64, CellError>
    ensures { (n : ℤ) → SomeIff number (FitsSigned w64 n) n → result ≡ exact_number n }
{
    number.ok_or(CellError::Overflow)
}

// One more number. What fewer than 2^63 come to fits.
fn include(function: Function, so_far: Option<i128>, number: i64) -> i128
    requires { IfSome so_far (IsWithin (2 ^ 63 - 1)) }
    ensures { result ≡ included function so_far number }
{
    let number = i128::from(number);
    match (function, so_far) {
        (Function::Count, None) => 1,
        (Function::Count, Some(count)) => count + 1,
        (_, None) => number,
        (Function::Sum, Some(sum)) => sum + number,
        (Function::Min, Some(least)) => least.min(number),
        (Function::Max, Some(greatest)) => greatest.max(number),
    }
}

/// What a function makes of values: empty ones are passed over, and without any number it is zero.
/// The first error among them passes on; else it is `Overflow` where the number doesn't fit.
pub fn total(function: Function, values: &[Value]) -> Result<i64, CellError>
    ensures { result ≡ total_of function values.now }
{
    let mut so_far = None;
    for value in values {
        match value {
            Value::Empty => {}
            Value::Number(number) => so_far = Some(include(function, so_far, *number)),
            Value::Error(error) => return Err(*error),
        }
    }
    exact(i64::try_from(so_far.unwrap_or(0)).ok())
}

impl fmt::Display for Value {
    fn fmt<W: fmt::Write>(&self, f: &mut fmt::Formatter<W>) -> fmt::Result {
        match self {
            Value::Empty => write!(f, "empty"),
            Value::Number(number) => write!(f, "{number}"),
            Value::Error(error) => write!(f, "{error}"),
        }
    }
}

impl fmt::Display for Answer {
    fn fmt<W: fmt::Write>(&self, f: &mut fmt::Formatter<W>) -> fmt::Result {
        match self {
            Answer::Value(value) => write!(f, "{value}"),
            Answer::Cycle(through) => write!(f, "cycle through {through}"),
        }
    }
}
