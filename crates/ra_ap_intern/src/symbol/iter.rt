//! The texts of a table, one after the other.
ghost use Rattle.std.specs.Iterator.{YieldsFirstBy, item_count};
ghost use Rattle.ra_ap_intern.specs.Symbols.{symbol_ref_name};

use super::{Packed, SymbolRef};
use intern_store::EntryKey;
use intern_table::{Iter as TableIter, Text};
use std::marker::Model;

/// The texts that a table keeps, each with a reference to its symbol. It is seen as the list of
/// those that are left.
#[derive(Drop)]
pub struct SymbolIter<'a> {
    pub(super) number: u64,
    pub(super) entries: TableIter<'a, Text, u64>,
}

impl<'a> Model for SymbolIter<'a> {
    ghost use Rattle.std.specs.Prelude.{ℕ, List, map};
    ghost use Rattle.ra_ap_intern.specs.Symbols.{Named};

    ghost Value = { List (Named × List ℕ) };

    ghost use Rattle.ra_ap_intern.specs.Symbols.{text_with_name};

    ghost view = { λ it. map (text_with_name it.number) it.entries };
}

impl<'a> Iterator for SymbolIter<'a> {
    type Item = (SymbolRef, &'a str);

    ghost next_gives = { YieldsFirstBy (λ e. (symbol_ref_name e.0, e.1.now)) (λ rest. rest) };

    ghost remaining = { item_count (λ rest. rest) };

    fn next(&mut self) -> Option<(SymbolRef, &'a str)> {
        let (spot, text, _) = self.entries.next()?;
        let storage = self.number;
        let symbol = SymbolRef(Packed::runtime(EntryKey { storage, spot }));
        Some((symbol, text.as_str()))
    }
}
