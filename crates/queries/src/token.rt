//! Tokens of a line.
use crate::formula::Operator;
use crate::key::Function;
use crate::place::{COLUMNS, Place, ROWS};
use std::alloc::AllocError;
use std::num::IntErrorKind;
use text_run::{Language, Words};
use thiserror::Error;

/// Why a line isn't read.
#[derive(Clone, Copy, Debug, Error)]
pub enum ParseError {
    /// When the text is wrong at a column, which counts from one.
    #[error("column {column}: {problem}")]
    Syntax {
        /// Where.
        column: u64,
        /// What is wrong.
        problem: &'static str,
    },
    /// When a request for memory was refused.
    #[error(transparent)]
    Memory(#[from(alloc)] AllocError),
}

/// What a token is.
#[derive(Clone, Copy, PartialEq, Eq, Debug)]
pub enum TokenKind {
    /// A number.
    Number(i64),
    /// A cell.
    Cell(Place),
    /// A function.
    Function(Function),
    /// `clear`
    Clear,
    /// `show`
    Show,
    /// `all`
    All,
    /// `stats`
    Stats,
    /// `collect`
    Collect,
    /// An operator.
    Operator(Operator),
    /// `(`
    Opening,
    /// `)`
    Closing,
    /// `:`
    Colon,
    /// `=`
    Equals,
    /// The end of the line.
    End,
}

/// A token, and where it begins: the column counts from one.
#[derive(Clone, Copy, Debug)]
pub struct Token {
    /// What it is.
    pub kind: TokenKind,
    /// Where it begins.
    pub column: u64,
}

impl Token {
    /// The problem, where this token begins.
    pub fn wrong(self, problem: &'static str) -> ParseError {
        let column = self.column;
        ParseError::Syntax { column, problem }
    }

    /// The cell that it is.
    pub fn cell(self) -> Result<Place, ParseError> {
        match self.kind {
            TokenKind::Cell(place) => Ok(place),
            _ => Err(self.wrong("a cell should stand here")),
        }
    }
}

// What the words of a line are.
struct Formulas;

impl Language for Formulas {
    const COMMENT: char = '#';

    fn is_of_word(character: char) -> bool {
        character.is_ascii_alphanumeric()
    }

    fn other_word(_text: &str) -> Option<usize> {
        None
    }
}

/// The tokens of a line, one at a time.
#[derive(Clone, Copy)]
pub struct Tokens<'a>(Words<'a>);

impl<'a> Tokens<'a> {
    /// All of a line. It ends where its last token does.
    pub fn new(line: &'a str) -> Tokens<'a> {
        let read = line
            .split_once(Formulas::COMMENT)
            .map_or(line, |(read, _)| read);
        Tokens(Words::new(read.trim_end(), text_run::Place::START))
    }

    /// The next token. Behind the last it is `End` for ever.
    pub fn next(&mut self) -> Result<Token, ParseError> {
        let (word, place) = self.0.next::<Formulas>();
        let column = place.column;
        let kind = token_kind(word).map_err(|problem| ParseError::Syntax { column, problem })?;
        Ok(Token { kind, column })
    }

    /// Passes a token of this kind, or tells the problem.
    pub fn expect(&mut self, kind: TokenKind, problem: &'static str) -> Result<(), ParseError> {
        let token = self.next()?;
        if token.kind != kind {
            return Err(token.wrong(problem));
        }
        Ok(())
    }
}

// The token that a word is, or what is wrong with it.
fn token_kind(word: &str) -> Result<TokenKind, &'static str> {
    Ok(match word {
        "" => TokenKind::End,
        "+" => TokenKind::Operator(Operator::Add),
        "-" => TokenKind::Operator(Operator::Subtract),
        "*" => TokenKind::Operator(Operator::Multiply),
        "/" => TokenKind::Operator(Operator::Divide),
        "(" => TokenKind::Opening,
        ")" => TokenKind::Closing,
        ":" => TokenKind::Colon,
        "=" => TokenKind::Equals,
        "SUM" => TokenKind::Function(Function::Sum),
        "MIN" => TokenKind::Function(Function::Min),
        "MAX" => TokenKind::Function(Function::Max),
        "COUNT" => TokenKind::Function(Function::Count),
        "clear" => TokenKind::Clear,
        "show" => TokenKind::Show,
        "all" => TokenKind::All,
        "stats" => TokenKind::Stats,
        "collect" => TokenKind::Collect,
        _ if word.starts_with(|c: char| c.is_ascii_digit()) => {
            TokenKind::Number(decimal(word, "this number is above 9223372036854775807")?)
        }
        _ if word.starts_with(|c: char| c.is_ascii_alphabetic()) => TokenKind::Cell(cell(word)?),
        _ => return Err("this character stands nowhere"),
    })
}

// A number in decimal digits, or what is wrong with it.
fn decimal(digits: &str, too_large: &'static str) -> Result<i64, &'static str> {
    digits.parse::<i64>().map_err(|error| match error.kind() {
        IntErrorKind::PosOverflow => too_large,
        _ => "this is no cell, no function and no command",
    })
}

// A cell: the letters of its column, and the number of its row.
fn cell(word: &str) -> Result<Place, &'static str> {
    const NO_SUCH_CELL: &str = "the cells end at XFD1048576";
    let digits = word.trim_start_matches(|c: char| c.is_ascii_uppercase());
    let row = decimal(digits, NO_SUCH_CELL)?;
    let mut column = 0i64;
    for letter in word.bytes().take_while(|byte| byte.is_ascii_uppercase()) {
        let digit = i64::from(letter.wrapping_sub(b'A' - 1));
        column = column.saturating_mul(26).saturating_add(digit);
    }
    if column < 1 || COLUMNS < column || row < 1 || ROWS < row {
        return Err(NO_SUCH_CELL);
    }
    Ok(Place::new((column - 1) as u32, (row - 1) as u32))
}
