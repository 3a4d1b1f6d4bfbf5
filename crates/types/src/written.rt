//! Types as they are written.
use crate::store::Types;
use crate::value::{TypeNode, TypeRef};
use std::fmt;

/// How many pieces of a type are written. A type may be small by its handles and yet large to
/// write.
const MOST_PIECES: usize = 100;

// What is yet to be written.
#[derive(Clone, Copy)]
enum Piece {
    // A type, and how tightly what is around it binds it: 0 where nothing does, 1 where functions
    // take it, 2 where it is a part of a pair.
    Type(TypeRef, u8),
    Text(&'static str),
}

/// A type of a store as it is written: of one that is too long the beginning, and two dots.
#[derive(Clone, Copy)]
pub struct Written<'a> {
    pub types: &'a Types,
    pub handle: TypeRef,
}

impl fmt::Display for Written<'_> {
    fn fmt<W: fmt::Write>(&self, f: &mut fmt::Formatter<W>) -> fmt::Result {
        let mut open = Vec::new(self.types.allocator());
        self.write(f, &mut open, self.handle, 0)?;
        for _ in 1..MOST_PIECES {
            match open.pop() {
                Some(Piece::Text(text)) => f.write_str(text)?,
                Some(Piece::Type(handle, around)) => self.write(f, &mut open, handle, around)?,
                None => return Ok(()),
            }
        }
        f.write_str(if open.is_empty() { "" } else { ".." })
    }
}

impl Written<'_> {
    // Writes a type, or leaves its parts open, in parentheses where they have to be held together.
    fn write<W: fmt::Write>(
        &self,
        f: &mut fmt::Formatter<W>,
        open: &mut Vec<Piece>,
        handle: TypeRef,
        around: u8,
    ) -> fmt::Result {
        let (first, between, second, strength) = match self.types.get(handle) {
            None => return f.write_str("?"),
            Some(TypeNode::Integer) => return f.write_str("int"),
            Some(TypeNode::Boolean) => return f.write_str("bool"),
            Some(TypeNode::Unknown(number)) => return write!(f, "_{number}"),
            Some(TypeNode::Any(number)) => return write_variable(f, number),
            Some(TypeNode::Function(from, to)) => ((from, 1), " -> ", (to, 0), 1),
            Some(TypeNode::Pair(first, second)) => ((first, 2), " * ", (second, 2), 2),
        };
        let pieces = [
            Piece::Text(")"),
            Piece::Type(second.0, second.1),
            Piece::Text(between),
            Piece::Type(first.0, first.1),
            Piece::Text("("),
        ];
        let is_held = around >= strength;
        let pieces = if is_held { &pieces[..] } else { &pieces[1..4] };
        Ok(open.extend_from_slice(pieces)?)
    }
}

// 'a to 'z, then 'a1 to 'z1, and so on.
fn write_variable<W: fmt::Write>(f: &mut fmt::Formatter<W>, number: u64) -> fmt::Result {
    let letter = char::from(b'a' + (number % 26) as u8);
    match number / 26 {
        0 => write!(f, "'{letter}"),
        round => write!(f, "'{letter}{round}"),
    }
}
