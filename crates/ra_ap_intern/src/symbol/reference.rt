//! References to symbols.
ghost use Rattle.std.specs.Prelude.{◌≡◌, false, IfOk};
ghost use Rattle.std.specs.Option.{option_map};
ghost use Rattle.intern_store.specs.Outcome.{Owes, Becomes};
ghost use Rattle.intern_store.specs.State.{counted_up, full, any_count, released};
ghost use Rattle.ra_ap_intern.specs.Symbols.{displayed, symbol_name, symbol_ref_name, entry_name, own_text, text_of, count_of, due_of, at_entry};

use super::packed::{Source, text_of_preset};
use super::{Symbol, SymbolDisplay, SymbolRef, SymbolTable};
use intern_store::{Name, Refusal};
use std::hash::BuildHasher;

impl SymbolRef {
    /// The name of the symbol's entry: the table's number and the birth. None for a preset.
    pub fn name(self) -> Option<Name>
        ensures { result ≡ entry_name (symbol_ref_name self) }
    {
        let Source::Runtime(key) = self.0.source() else {
            return None;
        };
        Some(key.name())
    }

    /// The text: a preset's, whatever the table, or else the one that the table keeps.
    /// None for a symbol of another table, and for one whose text is gone.
    pub fn as_str<'a, B: BuildHasher>(self, table: &'a SymbolTable<B>) -> Option<&'a str>
        ensures { option_map (λ t. t.now) result ≡ text_of table.now (symbol_ref_name self) }
    {
        match self.0.source() {
            Source::Preset(place) => text_of_preset(place),
            Source::Runtime(key) => {
                let text = table.inner.store.own(key.storage)?.get(key.spot)?;
                Some(text.as_str())
            }
        }
    }

    /// The count of the symbol's text. None for a preset, for a symbol of another table, and for
    /// one whose text is gone.
    pub fn count<B: BuildHasher>(self, table: &SymbolTable<B>) -> Option<u64>
        ensures { result ≡ count_of table.now (symbol_ref_name self) }
    {
        match self.0.source() {
            Source::Preset(_) => None,
            Source::Runtime(key) => table.inner.store.count(key),
        }
    }

    /// The symbol as it is written by `{}`: its text, or its name where that can't be read.
    pub fn display<B: BuildHasher>(self, table: &SymbolTable<B>) -> SymbolDisplay<'_, B>
        ensures { displayed result ≡ (symbol_ref_name self, table.now) }
    {
        SymbolDisplay {
            symbol: self,
            table,
        }
    }

    /// A symbol of the same text, which counts one more unless it is a preset.
    /// Refused, never for a preset: `Foreign`, `Gone`, `CountFull`.
    pub fn to_owned<B: BuildHasher>(self, table: &mut SymbolTable<B>) -> Result<Symbol, Refusal>
        ensures ok { IfOk result (λ s. symbol_name s ≡ symbol_ref_name self) }
        ensures refused { Owes result
            (due_of table.old (symbol_ref_name self) (full table.old.top)) }
        ensures state { Becomes result table.old table.new
            (at_entry counted_up table.old (symbol_ref_name self)) }
    {
        match self.0.source() {
            Source::Preset(_) => Ok(Symbol(self.0)),
            Source::Runtime(key) => {
                table.inner.store.count_up(key)?;
                Ok(Symbol(self.0))
            }
        }
    }

    /// Gives a count of the text up, which a symbol had that was dropped without `release`, also as
    /// a part of a value that a collection removed. With the last count the text goes. A preset
    /// stays. Refused, never for a preset: `Foreign`, `Gone`.
    pub fn decrease_refcount<B: BuildHasher>(
        self,
        table: &mut SymbolTable<B>,
    ) -> Result<(), Refusal>
        ensures refused { Owes result (due_of table.old (symbol_ref_name self) any_count) }
        ensures state { Becomes result table.old table.new
            (at_entry (released false) table.old (symbol_ref_name self)) }
    {
        match self.0.source() {
            Source::Preset(_) => Ok(()),
            Source::Runtime(key) => {
                table.inner.store.release(key, false)?;
                Ok(())
            }
        }
    }

    /// The text of a preset, for which no table is needed. None for a symbol of a table.
    pub fn preset_text(self) -> Option<&'static str>
        ensures { option_map (λ t. t.now) result ≡ own_text (symbol_ref_name self) }
    {
        match self.0.source() {
            Source::Preset(place) => text_of_preset(place),
            Source::Runtime(_) => None,
        }
    }
}
