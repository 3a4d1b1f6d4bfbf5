//! Where something stands in a text.
use std::fmt;

/// A line, and a character in it, both counted from one.
#[derive(Clone, Copy, PartialEq, Eq, Debug)]
pub struct Place {
    /// The line.
    pub line: u64,
    /// The column, in characters.
    pub column: u64,
}

impl Place {
    /// The place of the first character.
    pub const START: Place = Place { line: 1, column: 1 };

    /// The place behind a text that begins here.
    pub fn behind(self, text: &str) -> Place {
        let mut place = self;
        for character in text.chars() {
            if character == '\n' {
                place.line = place.line.saturating_add(1);
                place.column = 1;
            } else {
                place.column = place.column.saturating_add(1);
            }
        }
        place
    }
}

impl fmt::Display for Place {
    fn fmt<W: fmt::Write>(&self, f: &mut fmt::Formatter<W>) -> fmt::Result {
        let Place { line, column } = self;
        write!(f, "{line}:{column}")
    }
}
