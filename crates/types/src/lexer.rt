//! The words of the language.
use crate::step::{Action, Combination};
use text_run::Language;

/// The language, as words are cut from a text.
pub struct Functional;

impl Language for Functional {
    const COMMENT: char = '#';

    fn is_of_word(character: char) -> bool {
        character.is_alphanumeric() || character == '_' || character == '\''
    }

    fn other_word(text: &str) -> Option<usize> {
        (text.starts_with("->") || text.starts_with("==")).then_some(2)
    }
}

// The words that are no names, though they begin as names do.
const KEYWORDS: [&str; 9] = [
    "let", "rec", "in", "if", "then", "else", "fun", "true", "false",
];

/// Whether a word is a name.
pub fn is_name(word: &str) -> bool {
    word.starts_with(|c: char| c.is_alphabetic() || c == '_') && !KEYWORDS.contains(&word)
}

/// What a number or a truth value is. None where a word is neither.
pub fn literal(word: &str) -> Option<Action> {
    match word {
        "" => None,
        "true" | "false" => Some(Action::Boolean),
        _ if word.bytes().all(|byte| byte.is_ascii_digit()) => Some(Action::Integer),
        _ => None,
    }
}

/// How tightly a function binds its argument, tighter than any operator.
pub const APPLICATION: u8 = 4;

/// How tightly two operands are bound, the greater, the tighter, and what they become, where this
/// word is between them, or begins the second. None where they aren't.
pub fn between(word: &str) -> Option<(u8, Combination)> {
    match word {
        "<" | "==" => Some((1, Combination::Comparison)),
        "+" | "-" => Some((2, Combination::Arithmetic)),
        "*" => Some((3, Combination::Arithmetic)),
        _ if word == "(" || is_name(word) || literal(word).is_some() => {
            Some((APPLICATION, Combination::Application))
        }
        _ => None,
    }
}
