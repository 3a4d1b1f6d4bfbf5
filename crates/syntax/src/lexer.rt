//! Tokens from text. What is defined is a name behind `let`, and a name with its parameters behind
//! `fn`.
use crate::fault::{Fault, Stop};
use crate::token::{Mark, PlacedToken, Token};
use ra_ap_intern::SymbolTable;
use std::alloc::Global;
use text_run::{Language, Place, Words};

// What the words of the language are.
struct Syntactic;

impl Language for Syntactic {
    const COMMENT: char = '#';

    fn is_of_word(character: char) -> bool {
        character.is_ascii_alphanumeric() || character == '_'
    }

    fn other_word(text: &str) -> Option<usize> {
        text.starts_with("==").then_some(2)
    }
}

// What has to come next of what is defined.
#[derive(Clone, Copy)]
enum Header {
    Free,
    Name,
    Function,
    Parameter,
    Separator,
    Equals,
}

impl Header {
    // What has to come behind the token of a word, or behind the end, which has none; or what is
    // expected in its place.
    fn behind(self, found: Option<Token>, word: &str) -> Result<Header, &'static str> {
        let is_name = !word.starts_with(|c: char| c.is_ascii_digit());
        match (self, found) {
            (Header::Free, Some(Token::Mark(Mark::Let))) => Ok(Header::Name),
            (Header::Free, Some(Token::Mark(Mark::Fn))) => Ok(Header::Function),
            (Header::Free, _) => Ok(Header::Free),
            (Header::Name, Some(Token::Atom(_))) if is_name => Ok(Header::Equals),
            (Header::Function, Some(Token::Call(_))) => Ok(Header::Parameter),
            (Header::Parameter, Some(Token::Atom(_))) if is_name => Ok(Header::Separator),
            (Header::Separator, Some(Token::Mark(Mark::Comma))) => Ok(Header::Parameter),
            (Header::Separator, Some(Token::Mark(Mark::Close))) => Ok(Header::Equals),
            (Header::Equals, Some(Token::Mark(Mark::Equals))) => Ok(Header::Free),
            (Header::Name | Header::Parameter, _) => Err("a name"),
            (Header::Function, _) => Err("a name and its parameters"),
            (Header::Separator, _) => Err("`,` or `)`"),
            (Header::Equals, _) => Err("`=`"),
        }
    }
}

/// The tokens of a version.
#[derive(Drop)]
pub struct Lexer {
    pub tokens: Vec<PlacedToken>,
    /// Where the line that was read last ends, or where in it reading stopped.
    pub end: Place,
    header: Header,
}

impl Lexer {
    /// No token.
    pub fn new(alloc: Global) -> Lexer {
        Lexer {
            tokens: Vec::new(alloc),
            end: Place::START,
            header: Header::Free,
        }
    }

    /// Adds the tokens of these lines, of which the first has this number. `Unexpected` at the
    /// first word that is no token, or whose token can't stand in what is defined, with those
    /// before it added; and at the end, where that is within what is defined.
    pub fn read(&mut self, lines: &[&str], from: u64, names: &mut SymbolTable) -> Result<(), Stop> {
        for (text, line) in lines.iter().zip(from..u64::MAX) {
            self.read_line(text, line, names)?;
        }
        self.pass(None, "", self.end)
    }

    // Adds the tokens of the line of this number.
    fn read_line(&mut self, text: &str, line: u64, names: &mut SymbolTable) -> Result<(), Stop> {
        let mut words = Words::new(text, Place { line, column: 1 });
        for _ in 0..=text.len() {
            let (word, place) = words.next::<Syntactic>();
            self.end = place;
            if word.is_empty() {
                break;
            }
            let token = token_of(word, &mut words, names)?;
            let token = token.ok_or(Stop::unexpected(place, "a token", None))?;
            self.pass(Some(token), word, place)?;
            self.tokens
                .push(PlacedToken { token, place })
                .map_err(Fault::from)?;
        }
        Ok(())
    }

    // Goes on behind the token of a word that is found at this place, or behind the end.
    fn pass(&mut self, found: Option<Token>, word: &str, place: Place) -> Result<(), Stop> {
        let refused = |expected| Stop::unexpected(place, expected, found);
        self.header = self.header.behind(found, word).map_err(refused)?;
        Ok(())
    }
}

// The token of a word, if it is one: an operator, a mark or a keyword, a name, of which an open
// parenthesis may be part, or a number.
fn token_of(
    word: &str,
    words: &mut Words<'_>,
    names: &mut SymbolTable,
) -> Result<Option<Token>, Fault> {
    if let Some(token) = Token::spelled(word) {
        return Ok(Some(token));
    }
    let is_name = word.starts_with(|c: char| c.is_ascii_alphabetic() || c == '_');
    if !is_name && !word.chars().all(|c| c.is_ascii_digit()) {
        return Ok(None);
    }
    let name = names.get_or_intern(word)?;
    if is_name && words.passes::<Syntactic>("(") {
        Ok(Some(Token::Call(name)))
    } else {
        Ok(Some(Token::Atom(name)))
    }
}
