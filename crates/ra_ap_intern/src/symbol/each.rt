//! Interning of texts in turn.
ghost use Rattle.std.specs.Prelude.{◌+◌, ◌<◌, length, vec_len, vec_capacity, IfErr, OnOk, map as list_map};
ghost use Rattle.ra_ap_intern.specs.Symbols.{AddsTexts, IsRefusedText, symbol_name};

use super::{Symbol, SymbolTable};
use intern_store::Refusal;
use std::hash::BuildHasher;

impl<B: BuildHasher> SymbolTable<B> {
    /// Interns texts in turn, as [`Symbol::intern`] does, and adds their symbols to a list.
    ///
    /// It asks for room in the list first, for all symbols at once. Refused: `OutOfMemory` where
    /// there is none, and then nothing has changed; else as the first text that is (`CountFull`,
    /// `NumbersUsedUp`, `OutOfMemory`). The symbols of those before it are in the list then.
    pub fn extend(&mut self, texts: &[&str], symbols: &mut Vec<Symbol>) -> Result<(), Refusal>
        ensures ok { OnOk result (AddsTexts self.old self.new (list_map (λ t. t.now) texts.now)
            (list_map symbol_name symbols.old.items) (list_map symbol_name symbols.new.items)) }
        ensures refused { IfErr result (IsRefusedText self.old self.new
            (list_map (λ t. t.now) texts.now)
            (list_map symbol_name symbols.old.items) (list_map symbol_name symbols.new.items)
            (vec_capacity symbols.old < vec_len symbols.old + length texts.now)) }
    {
        if symbols.reserve(texts.len()).is_err() {
            return Err(Refusal::OutOfMemory);
        }
        for text in texts {
            let symbol = Symbol::intern(self, text)?;
            symbols.push_reserved(symbol);
        }
        Ok(())
    }
}
