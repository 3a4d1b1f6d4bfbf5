//! Symbols as they are written.
use super::{Symbol, SymbolRef, SymbolTable};
use intern_table::FixedState;
use std::fmt;
use std::hash::BuildHasher;

/// A symbol with the table that reads it. It is written as its text, or as its name (`#3.5`) where
/// the text is gone or is another table's.
#[derive_where(Clone, Copy)]
pub struct SymbolDisplay<'a, B: BuildHasher = FixedState> {
    pub(super) symbol: SymbolRef,
    pub(super) table: &'a SymbolTable<B>,
}

impl<B: BuildHasher> fmt::Display for SymbolDisplay<'_, B> {
    fn fmt<W: fmt::Write>(&self, f: &mut fmt::Formatter<W>) -> fmt::Result {
        match (self.symbol.as_str(self.table), self.symbol.name()) {
            (None, Some(name)) => fmt::Display::fmt(&name, f),
            (text, _) => fmt::Display::fmt(text.unwrap_or(""), f),
        }
    }
}

// A preset is shown by its text, any other symbol by its name, since it is read by its table alone.
impl fmt::Debug for SymbolRef {
    fn fmt<W: fmt::Write>(&self, f: &mut fmt::Formatter<W>) -> fmt::Result {
        match (self.preset_text(), self.name()) {
            (None, Some(name)) => write!(f, "Symbol({name})"),
            (text, _) => write!(f, "Symbol({:?})", text.unwrap_or("")),
        }
    }
}

impl fmt::Debug for Symbol {
    fn fmt<W: fmt::Write>(&self, f: &mut fmt::Formatter<W>) -> fmt::Result {
        fmt::Debug::fmt(&self.as_ref(), f)
    }
}
