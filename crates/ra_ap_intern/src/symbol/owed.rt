//! Symbols that must be released.
ghost use Rattle.std.specs.Prelude.{◌≡◌, IfOk, false};
ghost use Rattle.std.specs.Option.{option_map};
ghost use Rattle.intern_store.specs.Outcome.{Owes, OwesBack, Becomes};
ghost use Rattle.intern_store.specs.State.{any_count, counted_up, full, released};
ghost use Rattle.ra_ap_intern.specs.Symbols.{at_entry, due_of, entry_name, symbol_name, symbol_of, symbol_ref_name, text_of};

use super::{Symbol, SymbolRef, SymbolTable};
use intern_store::{Name, Refusal, Refused};
use std::fmt;
use std::hash::BuildHasher;

/// A symbol that can't be dropped: a program that lets one go is refused as it is compiled.
///
/// It is made from a [`Symbol`], counts as that does, and is compared, ordered and hashed by what
/// it names alone. It ends in `release`, or in `into_symbol`, which says where a count stays. Where
/// a call is refused and `?` would let one go, take `into_symbol` first.
#[derive(PartialEq, Eq, PartialOrd, Ord, Hash)]
pub struct OwedSymbol {
    symbol: Symbol,
}

impl fmt::Debug for OwedSymbol {
    fn fmt<W: fmt::Write>(&self, f: &mut fmt::Formatter<W>) -> fmt::Result {
        write!(f, "Owed({:?})", self.symbol)
    }
}

impl From<Symbol> for OwedSymbol {
    ghost from_gives = { λ symbol owed. symbol_of owed ≡ symbol };

    fn from(symbol: Symbol) -> OwedSymbol {
        OwedSymbol { symbol }
    }
}

impl<'a> From<&'a OwedSymbol> for SymbolRef {
    ghost from_gives = { λ owed reference.
        symbol_ref_name reference ≡ symbol_name (symbol_of owed.now) };

    fn from(owed: &'a OwedSymbol) -> SymbolRef {
        owed.as_ref()
    }
}

impl OwedSymbol {
    /// A second symbol of the same text, which counts one more unless it is a preset.
    /// Refused, never for a preset: `Foreign`, `Gone`, `CountFull`.
    pub fn clone<B: BuildHasher>(&self, table: &mut SymbolTable<B>) -> Result<OwedSymbol, Refusal>
        ensures ok { IfOk result (λ s.
            symbol_name (symbol_of s) ≡ symbol_name (symbol_of self.now)) }
        ensures refused { Owes result
            (due_of table.old (symbol_name (symbol_of self.now)) (full table.old.top)) }
        ensures state { Becomes result table.old table.new
            (at_entry counted_up table.old (symbol_name (symbol_of self.now))) }
    {
        Ok(OwedSymbol::from(self.symbol.clone(table)?))
    }

    /// Gives the symbol up, with its count. With the last one the text goes. A preset stays.
    /// Refused, with the symbol back and never for a preset: `Foreign`, `Gone`.
    pub fn release<B: BuildHasher>(
        self,
        table: &mut SymbolTable<B>,
    ) -> Result<(), Refused<OwedSymbol>>
        ensures refused { OwesBack result
            (due_of table.old (symbol_name (symbol_of self)) any_count) self }
        ensures state { Becomes result table.old table.new
            (at_entry (released false) table.old (symbol_name (symbol_of self))) }
    {
        self.into_symbol()
            .release(table)
            .map_err(|refused| Refused {
                why: refused.why,
                back: OwedSymbol {
                    symbol: refused.back,
                },
            })
    }

    /// The symbol as one that may be dropped: its count is its holder's affair again.
    pub fn into_symbol(self) -> Symbol
        ensures { result ≡ symbol_of self }
    {
        let OwedSymbol { symbol } = self;
        symbol
    }

    /// The text: a preset's, whatever the table, or else the one that the table keeps.
    /// None for a symbol of another table, and for one whose text is gone.
    pub fn as_str<'a, B: BuildHasher>(&self, table: &'a SymbolTable<B>) -> Option<&'a str>
        ensures { option_map (λ t. t.now) result
            ≡ text_of table.now (symbol_name (symbol_of self.now)) }
    {
        self.symbol.as_str(table)
    }

    /// A reference to the symbol.
    pub fn as_ref(&self) -> SymbolRef
        ensures { symbol_ref_name result ≡ symbol_name (symbol_of self.now) }
    {
        self.symbol.as_ref()
    }

    /// The name of the symbol's entry: the table's number and the birth. None for a preset.
    pub fn name(&self) -> Option<Name>
        ensures { result ≡ entry_name (symbol_name (symbol_of self.now)) }
    {
        self.symbol.name()
    }
}
