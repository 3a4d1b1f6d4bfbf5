//! The words of a text.
use crate::place::Place;

/// What the words of a language are. A character is a word of its own where nothing else is said.
pub trait Language {
    /// What begins a comment, which ends with its line.
    const COMMENT: char;

    /// Whether a character and those of its kind behind it are one word.
    fn is_of_word(character: char) -> bool;

    /// How many bytes a word of another form takes, where a text begins with one.
    fn other_word(text: &str) -> Option<usize>;
}

/// The words of a text, one at a time.
#[derive(Clone, Copy)]
pub struct Words<'a> {
    rest: &'a str,
    place: Place,
}

impl<'a> Words<'a> {
    /// All words of a text that begins at this place.
    pub fn new(text: &'a str, place: Place) -> Words<'a> {
        Words { rest: text, place }
    }

    /// The next word, and where it begins. Behind the last one it is empty.
    pub fn next<L: Language>(&mut self) -> (&'a str, Place) {
        self.pass_blanks(L::COMMENT);
        let place = self.place;
        (self.take(first_length::<L>(self.rest)), place)
    }

    /// Passes this word, if it comes.
    pub fn passes<L: Language>(&mut self, word: &str) -> bool {
        let mut ahead = *self;
        let comes = ahead.next::<L>().0 == word;
        if comes {
            *self = ahead;
        }
        comes
    }

    // Passes blanks and comments.
    fn pass_blanks(&mut self, comment: char) {
        for _ in 0..self.rest.len() {
            let end = if self.rest.starts_with(comment) {
                self.rest.find('\n')
            } else {
                self.rest.find(|c: char| !c.is_whitespace())
            };
            let end = end.unwrap_or(self.rest.len());
            if end == 0 {
                break;
            }
            self.take(end);
        }
    }

    // Takes so many bytes, or all where that is the end of no character.
    fn take(&mut self, length: usize) -> &'a str {
        let (taken, rest) = self
            .rest
            .split_at_checked(length)
            .unwrap_or((self.rest, ""));
        self.place = self.place.behind(taken);
        self.rest = rest;
        taken
    }
}

// The length of the word that a text begins with. No blank is part of it.
fn first_length<L: Language>(text: &str) -> usize {
    if let Some(length) = L::other_word(text) {
        return length;
    }
    match text.chars().next() {
        Some(first) if L::is_of_word(first) => text
            .find(|c: char| c.is_whitespace() || !L::is_of_word(c))
            .unwrap_or(text.len()),
        Some(first) => first.len_utf8(),
        None => 0,
    }
}
