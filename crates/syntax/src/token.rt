//! Tokens.
ghost use Rattle.std.specs.Prelude.{◌≡◌};
ghost use Rattle.ra_ap_intern.specs.Symbols.{symbol_name};
ghost use Rattle.syntax.specs.Lexeme.{operator_head, operator_of, precedence as precedence_of};

use ra_ap_intern::{Symbol, SymbolRef, SymbolTable, laws, sym};
use std::alloc::AllocError;
use text_run::Place;

/// An infix operator. `a + b` is another way to write the call `add(a, b)`, and so on.
#[derive(Clone, Copy, PartialEq, Eq, Debug)]
pub enum Operator {
    Add,
    Subtract,
    Multiply,
    Divide,
    Less,
    Equal,
}

/// All operators.
pub const OPERATORS: [Operator; 6] = [
    Operator::Add,
    Operator::Subtract,
    Operator::Multiply,
    Operator::Divide,
    Operator::Less,
    Operator::Equal,
];

/// Punctuation and keywords.
#[derive(Clone, Copy, PartialEq, Eq, Debug)]
pub enum Mark {
    Open,
    Close,
    Comma,
    If,
    Then,
    Else,
    Let,
    Equals,
    In,
    Fn,
    Semicolon,
}

/// A token.
#[derive(Clone, Copy, PartialEq, Eq)]
pub enum Token {
    /// A name or a number.
    Atom(SymbolRef),
    /// A name, and the parenthesis after it.
    Call(SymbolRef),
    Infix(Operator),
    Mark(Mark),
}

/// A token, and where it begins.
#[derive(Clone, Copy)]
pub struct PlacedToken {
    pub token: Token,
    pub place: Place,
}

impl Operator {
    /// How tightly it binds.
    pub fn precedence(self) -> u8
        ensures { result ≡ precedence_of self }
    {
        match self {
            Operator::Equal | Operator::Less => 1,
            Operator::Add | Operator::Subtract => 2,
            Operator::Multiply | Operator::Divide => 3,
        }
    }

    /// The head of its terms.
    pub fn head(self) -> Symbol
        ensures { symbol_name result ≡ operator_head self }
    {
        match self {
            Operator::Add => sym::add,
            Operator::Subtract => sym::sub,
            Operator::Multiply => sym::mul,
            Operator::Divide => sym::div,
            Operator::Less => sym::lt,
            Operator::Equal => sym::eq,
        }
    }

    /// The operator of a head, if it is one.
    #[tactic(auto, unfolding(ra_ap_intern::specs::Symbols::source_of))]
    pub fn of(head: &Symbol) -> Option<Operator>
        ensures { result ≡ operator_of (symbol_name head.now) }
    {
        laws::symbols_are_what_they_name();
        OPERATORS
            .iter()
            .copied()
            .find(|operator| operator.head() == *head)
    }
}

impl Token {
    /// The operator, mark or keyword that is written so. None of another word.
    // As a call of its own, reading would take a sixth longer.
    #[inline(always)]
    pub fn spelled(word: &str) -> Option<Token> {
        Some(match word {
            "(" => Token::Mark(Mark::Open),
            ")" => Token::Mark(Mark::Close),
            "," => Token::Mark(Mark::Comma),
            "if" => Token::Mark(Mark::If),
            "then" => Token::Mark(Mark::Then),
            "else" => Token::Mark(Mark::Else),
            "let" => Token::Mark(Mark::Let),
            "=" => Token::Mark(Mark::Equals),
            "in" => Token::Mark(Mark::In),
            "fn" => Token::Mark(Mark::Fn),
            ";" => Token::Mark(Mark::Semicolon),
            "+" => Token::Infix(Operator::Add),
            "-" => Token::Infix(Operator::Subtract),
            "*" => Token::Infix(Operator::Multiply),
            "/" => Token::Infix(Operator::Divide),
            "<" => Token::Infix(Operator::Less),
            "==" => Token::Infix(Operator::Equal),
            _ => return None,
        })
    }

    // How an operator, a mark or a keyword is written. None of a name or a number.
    fn spelling(self) -> Option<&'static str> {
        let word = WORDS.iter().find(|w| Token::spelled(w) == Some(self))?;
        Some(*word)
    }

    /// Writes it as it is written in a program.
    pub fn write(self, names: &SymbolTable, out: &mut String) -> Result<(), AllocError> {
        match self {
            Token::Atom(name) => out.push_str(name.as_str(names).unwrap_or("?")),
            Token::Call(name) => {
                out.push_str(name.as_str(names).unwrap_or("?"))?;
                out.push('(')
            }
            Token::Infix(_) | Token::Mark(_) => out.push_str(self.spelling().unwrap_or("?")),
        }
    }
}

/// The operators, marks and keywords, as they are written.
const WORDS: [&str; 17] = [
    "(", ")", ",", "if", "then", "else", "let", "=", "in", "fn", ";", "+", "-", "*", "/", "<", "==",
];
