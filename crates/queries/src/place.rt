//! Places of cells, and blocks of them.
ghost use Rattle.std.specs.Prelude.{◌≡◌};

use std::fmt;

/// How many columns there are: the last is `XFD`.
pub const COLUMNS: i64 = 16384;

/// How many rows there are.
pub const ROWS: i64 = 1048576;

/// The place of a cell, its column and its row counted from zero.
#[derive(Clone, Copy, PartialEq, Eq, PartialOrd, Ord, Hash, Debug)]
pub struct Place {
    /// The column.
    pub column: u32,
    /// The row.
    pub row: u32,
}

/// A rectangle of cells: from one column up to another, and from one row up to another. What a
/// range ends at isn't in it.
#[derive(Clone, Copy, PartialEq, Eq, Hash, Debug)]
pub struct Block {
    /// The first column.
    pub left: u32,
    /// The column behind the last.
    pub right: u32,
    /// The first row.
    pub top: u32,
    /// The row behind the last.
    pub bottom: u32,
}

impl Place {
    /// The place at a column and a row, counted from zero.
    pub fn new(column: u32, row: u32) -> Place
        ensures column { result.column ≡ column }
        ensures row { result.row ≡ row }
    {
        Place { column, row }
    }
}

impl Block {
    /// The smallest block with two places in it.
    pub fn between(one: Place, other: Place) -> Block {
        Block {
            left: one.column.min(other.column),
            right: one.column.max(other.column).saturating_add(1),
            top: one.row.min(other.row),
            bottom: one.row.max(other.row).saturating_add(1),
        }
    }

    /// How many cells are in it.
    pub fn cells(&self) -> u64 {
        let columns = u64::from(self.right.saturating_sub(self.left));
        let rows = u64::from(self.bottom.saturating_sub(self.top));
        columns.saturating_mul(rows)
    }
}

// The letter of a digit.
fn letter(digit: u32) -> char {
    char::from(b'A' + (digit % 26) as u8)
}

impl fmt::Display for Place {
    fn fmt<W: fmt::Write>(&self, f: &mut fmt::Formatter<W>) -> fmt::Result {
        let column = self.column;
        if column >= 702 {
            write!(f, "{}", letter((column - 702) / 676))?;
        }
        if column >= 26 {
            write!(f, "{}", letter((column - 26) / 26))?;
        }
        write!(f, "{}{}", letter(column), u64::from(self.row) + 1)
    }
}

impl fmt::Display for Block {
    fn fmt<W: fmt::Write>(&self, f: &mut fmt::Formatter<W>) -> fmt::Result {
        let first = Place::new(self.left, self.top);
        let last = Place::new(self.right.saturating_sub(1), self.bottom.saturating_sub(1));
        write!(f, "{first}:{last}")
    }
}
