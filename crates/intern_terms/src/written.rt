//! Terms as texts.
use crate::handle::TermRef;
use crate::store::TermStore;
use ra_ap_intern::SymbolTable;
use std::alloc::AllocError;
use std::hash::BuildHasher;

// The arguments of a term that is being written, and how many of them were begun.
#[derive(Drop)]
struct Arguments<'a> {
    all: &'a [TermRef],
    begun: usize,
}

impl<B: BuildHasher> TermStore<B> {
    /// A term as a text, such as `f(x, g(y))`, its heads as this table reads them. Where its tree
    /// has more than so many terms, shared ones counted wherever they stand, the text ends in `…`
    /// after that many.
    ///
    /// A head that the table can't read, and a term of another store or one that is gone, is shown
    /// by its name: `#3.5` is birth 5 of the storage of number 3. Where there is no memory,
    /// `AllocError`. It never recurses.
    pub fn written<N: BuildHasher>(
        &self,
        term: TermRef,
        table: &SymbolTable<N>,
        most: usize,
    ) -> Result<String, AllocError> {
        let mut text = String::new(self.alloc());
        let mut open = Vec::new(self.alloc());
        let mut term = term;
        for _ in 0..most {
            self.write_head(term, table, &mut text)?;
            open.push(Arguments {
                all: self.args(term).unwrap_or(&[]),
                begun: 0,
            })?;
            match next_argument(&mut open, &mut text)? {
                Some(argument) => term = argument,
                None => return Ok(text),
            }
        }
        text.push('…')?;
        Ok(text)
    }

    // Writes a term's head, or the name of what can't be read.
    fn write_head<N: BuildHasher>(
        &self,
        term: TermRef,
        table: &SymbolTable<N>,
        text: &mut String,
    ) -> Result<(), AllocError> {
        let Some(head) = self.head(term) else {
            return text.push_str(&format!(in self.alloc(); "{}", term.name())?);
        };
        match (head.as_str(table), head.name()) {
            (None, Some(name)) => text.push_str(&format!(in self.alloc(); "{}", name)?),
            (shown, _) => text.push_str(shown.unwrap_or("")),
        }
    }
}

// The next argument that is to be written, of the last term that has one left. Terms that have none
// are closed.
fn next_argument<'a>(
    open: &mut Vec<Arguments<'a>>,
    text: &mut String,
) -> Result<Option<TermRef>, AllocError> {
    while let Some(mut arguments) = open.pop() {
        if let Some(argument) = arguments.all.get(arguments.begun) {
            text.push_str(if arguments.begun == 0 { "(" } else { ", " })?;
            arguments.begun += 1;
            open.push(arguments)?;
            return Ok(Some(*argument));
        }
        if !arguments.all.is_empty() {
            text.push(')')?;
        }
    }
    Ok(None)
}
