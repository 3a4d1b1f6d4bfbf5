//! What lines ask for. Formulas are read by operator precedence, and without recursion.
use crate::formula::{Formula, Operator, Step};
use crate::key::Key;
use crate::place::{Block, Place};
pub use crate::token::ParseError;
use crate::token::{Token, TokenKind, Tokens};
use std::alloc::{AllocError, Global};

/// The most cells that a block may have.
pub const MOST_CELLS: u64 = 1048576;

/// What a line asks for.
#[derive(Drop, Debug)]
pub enum Line {
    /// Nothing: it is blank, but for a comment behind `#`.
    Nothing,
    /// A formula for a cell.
    Set(Place, Formula),
    /// That a cell has no formula.
    Clear(Place),
    /// The value of a cell.
    Show(Place),
    /// The value of each cell with a formula.
    ShowAll,
    /// How queries were answered.
    Stats,
    /// A collection.
    Collect,
}

/// What a line asks for.
pub fn parse_line(alloc: Global, text: &str) -> Result<Line, ParseError> {
    let mut tokens = Tokens::new(text);
    let first = tokens.next()?;
    let line = match first.kind {
        TokenKind::End => Line::Nothing,
        TokenKind::Cell(place) => {
            tokens.expect(TokenKind::Equals, "an equals sign should stand here")?;
            Line::Set(place, parse_formula(alloc, &mut tokens)?)
        }
        TokenKind::Clear => Line::Clear(tokens.next()?.cell()?),
        TokenKind::Show => match tokens.next()? {
            token if token.kind == TokenKind::All => Line::ShowAll,
            token => Line::Show(token.cell()?),
        },
        TokenKind::Stats => Line::Stats,
        TokenKind::Collect => Line::Collect,
        _ => return Err(first.wrong("a command or a cell should stand here")),
    };
    tokens.expect(TokenKind::End, "the line should end here")?;
    Ok(line)
}

// A block in parentheses: a cell, or two with a colon between them.
fn parse_block(tokens: &mut Tokens) -> Result<Block, ParseError> {
    tokens.expect(TokenKind::Opening, "'(' should stand here")?;
    let first = tokens.next()?.cell()?;
    let token = tokens.next()?;
    match token.kind {
        TokenKind::Closing => Ok(Block::between(first, first)),
        TokenKind::Colon => {
            let block = Block::between(first, tokens.next()?.cell()?);
            if block.cells() > MOST_CELLS {
                return Err(token.wrong("these are more than 1048576 cells"));
            }
            tokens.expect(TokenKind::Closing, "')' should stand here")?;
            Ok(block)
        }
        _ => Err(token.wrong("':' or ')' should stand here")),
    }
}

// The formula that the rest of a line is.
fn parse_formula(alloc: Global, tokens: &mut Tokens) -> Result<Formula, ParseError> {
    let mut parser = Parser {
        reads: Vec::new(alloc),
        steps: Vec::new(alloc),
        waiting: Vec::new(alloc),
        wants_operand: true,
    };
    for _ in 0..u64::MAX {
        let token = tokens.next()?;
        match token.kind {
            _ if parser.wants_operand => parser.operand(token, tokens)?,
            TokenKind::End => break,
            _ => parser.operator(token)?,
        }
    }
    parser.finish()
}

// What waits for its right operand, or for its closing parenthesis.
#[derive(Clone, Copy)]
enum Waiting {
    Step(Step),
    Opening(Token),
}

// A formula as far as it was read.
#[derive(Drop)]
struct Parser {
    reads: Vec<Key>,
    steps: Vec<Step>,
    waiting: Vec<Waiting>,
    wants_operand: bool,
}

impl Parser {
    // A token where an operand should stand.
    fn operand(&mut self, token: Token, tokens: &mut Tokens) -> Result<(), ParseError> {
        let step = match token.kind {
            TokenKind::Opening => return Ok(self.waiting.push(Waiting::Opening(token))?),
            TokenKind::Operator(Operator::Subtract) => {
                return Ok(self.waiting.push(Waiting::Step(Step::Negate))?);
            }
            TokenKind::Number(number) => Step::Literal(number),
            TokenKind::Cell(place) => self.read(Key::Cell(place))?,
            TokenKind::Function(function) => {
                self.read(Key::Total(function, parse_block(tokens)?))?
            }
            _ => return Err(token.wrong("a number, a cell, a function or '(' should stand here")),
        };
        self.steps.push(step)?;
        self.wants_operand = false;
        Ok(())
    }

    // The step that reads a query.
    fn read(&mut self, key: Key) -> Result<Step, AllocError> {
        let index = self.reads.len();
        self.reads.push(key)?;
        Ok(Step::Read(index))
    }

    // A token where an operator should stand.
    fn operator(&mut self, token: Token) -> Result<(), ParseError> {
        match token.kind {
            TokenKind::Operator(operator) => {
                let step = Step::Apply(operator);
                self.unwind(precedence(step))?;
                self.waiting.push(Waiting::Step(step))?;
                self.wants_operand = true;
            }
            TokenKind::Closing => {
                self.unwind(0)?;
                let opening = self.waiting.pop();
                opening.ok_or(token.wrong("there is no '(' to close"))?;
            }
            _ => return Err(token.wrong("an operator should stand here")),
        }
        Ok(())
    }

    // The steps of all that waits and binds at least so tightly.
    fn unwind(&mut self, least: u8) -> Result<(), AllocError> {
        while let Some(Waiting::Step(step)) = self.waiting.last().copied() {
            if precedence(step) < least {
                break;
            }
            self.waiting.pop();
            self.steps.push(step)?;
        }
        Ok(())
    }

    // The formula, where the line ends.
    fn finish(mut self) -> Result<Formula, ParseError> {
        self.unwind(0)?;
        match self.waiting.pop() {
            Some(Waiting::Opening(token)) => Err(token.wrong("this '(' isn't closed")),
            _ => Ok(Formula::new(self.reads, self.steps)),
        }
    }
}

// How tightly a step binds.
fn precedence(step: Step) -> u8 {
    match step {
        Step::Apply(Operator::Add | Operator::Subtract) => 1,
        Step::Apply(Operator::Multiply | Operator::Divide) => 2,
        _ => 3,
    }
}
