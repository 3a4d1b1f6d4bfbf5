//! Formulas in postfix order, and their values.
ghost use Rattle.std.specs.Prelude.{◌≡◌, ◌∷◌, ◌++◌, List, [], ℤ, reverse, Result, IfOk, MatchResult};
ghost use Rattle.queries.specs.Formula.{applied, run, formula_of};
ghost use Rattle.queries.specs.Tree.{Tree, postfix, tree_number};
ghost use Rattle.queries.specs.Value.{and_then, value_of};
ghost use Rattle.queries.specs.declared.formula.Step.{Step as StepType};
ghost use Rattle.queries.specs.declared.formula.Step.TheVariants.{Apply as apply_step};
ghost use Rattle.queries.specs.declared.value.Value.{Value as ValueType};

use crate::key::Key;
use crate::value::{CellError, Value, exact};
use std::alloc::{AllocError, Global};
use std::marker::Model;

/// An operation on two numbers.
#[derive(Clone, Copy, PartialEq, Eq, Debug)]
pub enum Operator {
    /// The sum.
    Add,
    /// The difference.
    Subtract,
    /// The product.
    Multiply,
    /// The quotient, without its fraction.
    Divide,
}

/// A step of a formula.
#[derive(Clone, Copy, PartialEq, Eq, Debug)]
pub enum Step {
    /// A number.
    Literal(i64),
    /// The value of the query at this index of what the formula reads.
    Read(usize),
    /// Less than nothing.
    Negate,
    /// An operation on the last two numbers.
    Apply(Operator),
}

/// A formula: which queries it reads, and its steps, operands before what is done with them.
#[derive(Drop, Debug)]
pub struct Formula {
    reads: Vec<Key>,
    steps: Vec<Step>,
}

impl Model for Formula {
    ghost use Rattle.queries.specs.Formula.{Postfix};

    ghost Value = { Postfix };

    ghost view = { λ f. record { reads = f.reads.items; steps = f.steps.items } };
}

impl Formula {
    /// The formula that reads these queries and has these steps.
    pub fn new(reads: Vec<Key>, steps: Vec<Step>) -> Formula
        ensures reads { result.reads ≡ reads.items }
        ensures steps { result.steps ≡ steps.items }
    {
        Formula { reads, steps }
    }

    /// What it reads, in order.
    pub fn reads(&self) -> &[Key]
        ensures { result.now ≡ self.now.reads }
    {
        self.reads.as_slice()
    }

    /// Its steps.
    pub fn steps(&self) -> &[Step]
        ensures { result.now ≡ self.now.steps }
    {
        self.steps.as_slice()
    }
}

impl Operator {
    /// The exact number, where it fits 64 bits.
    pub fn apply(self, left: i64, right: i64) -> Result<i64, CellError>
        ensures { result ≡ applied self left right }
    {
        match self {
            Operator::Add => exact(left.checked_add(right)),
            Operator::Subtract => exact(left.checked_sub(right)),
            Operator::Multiply => exact(left.checked_mul(right)),
            Operator::Divide if right == 0 => Err(CellError::DivisionByZero),
            Operator::Divide => exact(left.checked_div(right)),
        }
    }
}

// The number that a step gives. It takes its operands off the stack.
fn step_number(step: Step, values: &[Value], stack: &mut Vec<i64>) -> Result<i64, CellError>
    ensures { (steps : List StepType) → run values.now (step ∷ steps) (reverse stack.old.items)
        ≡ and_then result (λ n. run values.now steps (n ∷ reverse stack.new.items)) }
{
    match step {
        Step::Literal(number) => Ok(number),
        Step::Read(index) => values.get(index).ok_or(CellError::Incomplete)?.number(),
        Step::Negate => exact(stack.pop().ok_or(CellError::Incomplete)?.checked_neg()),
        Step::Apply(operator) => {
            let right = stack.pop().ok_or(CellError::Incomplete)?;
            let left = stack.pop().ok_or(CellError::Incomplete)?;
            operator.apply(left, right)
        }
    }
}

/// The value of a formula with these steps, where it reads these values.
pub fn formula_value(alloc: Global, steps: &[Step], values: &[Value]) -> Result<Value, AllocError>
    ensures { IfOk result (λ value. value ≡ formula_of steps.now values.now) }
{
    let mut stack = Vec::new(alloc);
    for step in steps {
        match step_number(*step, values, &mut stack) {
            Ok(number) => stack.push(number)?,
            Err(error) => return Ok(Value::Error(error)),
        }
    }
    Ok(Value::of(stack.pop().ok_or(CellError::Incomplete)))
}

/// A law: a formula in postfix order comes to what its tree does.
pub fn a_formula_comes_to_what_its_tree_does()
    ensures { (tree : Tree) (values : List ValueType) →
        formula_of (postfix tree) values ≡ value_of (tree_number values tree) }
{}
