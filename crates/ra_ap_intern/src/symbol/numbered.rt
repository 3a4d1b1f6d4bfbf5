//! The numbered lists: the symbols of numbers and of generated names.
ghost use Rattle.std.specs.Prelude.{◌≡◌, IfOk, option_and_then, decimal};
ghost use Rattle.intern_presets.specs.Numbers.{number_value};
ghost use Rattle.intern_presets.specs.Presets.{generated_text};
ghost use Rattle.intern_store.specs.Outcome.{MayWant, Becomes};
ghost use Rattle.ra_ap_intern.specs.Symbols.{symbol_name, symbol_ref_name, text_of, symbol_in, due_symbol, is_new_text};

use super::{Symbol, SymbolRef, SymbolTable};
use intern_presets::{digits, generated, number};
use intern_store::Refusal;
use std::hash::BuildHasher;

/// The symbols of numbers.
pub enum Integer {}

impl Integer {
    /// The symbol of a number's decimal digits, as [`Symbol::intern`] gives it: up to 255 a preset,
    /// which takes no memory and is never refused.
    ///
    /// Refused above 255: `CountFull` where the digits are stored and their count is at the limit;
    /// `NumbersUsedUp` and `OutOfMemory` where they are not stored.
    pub fn get<B: BuildHasher>(table: &mut SymbolTable<B>, n: usize) -> Result<Symbol, Refusal>
        ensures ok { IfOk result (λ s.
            symbol_name s ≡ (symbol_in table.old (decimal n)).symbol) }
        ensures refused { MayWant result (due_symbol table.old (decimal n))
            (is_new_text table.old (decimal n)) }
        ensures state { Becomes result table.old table.new
            (symbol_in table.old (decimal n)).table }
    {
        Symbol::intern(table, digits(n).as_str())
    }

    /// The number that a symbol's text writes, as std's parse as `usize` reads it: an optional `+`,
    /// and then decimal digits of a number below 2^64. None for any other text, and for a symbol
    /// that can't be read. It takes no memory.
    pub fn as_uint<B: BuildHasher>(symbol: &Symbol, table: &SymbolTable<B>) -> Option<usize>
        ensures { result
            ≡ option_and_then number_value (text_of table.now (symbol_name symbol.now)) }
    {
        symbol.as_ref().as_uint(table)
    }
}

impl SymbolRef {
    /// The number that the symbol's text writes, as [`Integer::as_uint`] reads it. It takes no
    /// memory.
    pub fn as_uint<B: BuildHasher>(self, table: &SymbolTable<B>) -> Option<usize>
        ensures { result ≡ option_and_then number_value (text_of table.now (symbol_ref_name self)) }
    {
        number(self.as_str(table)?)
    }
}

/// The symbols of generated names.
pub enum RaGeneratedName {}

impl RaGeneratedName {
    /// The symbol of `<ra@gennew>` and a number's decimal digits, as [`Symbol::intern`] gives it:
    /// up to 255 a preset, which takes no memory and is never refused.
    ///
    /// Refused above 255: `CountFull` where the name is stored and its count is at the limit;
    /// `NumbersUsedUp` and `OutOfMemory` where it is not stored.
    pub fn get<B: BuildHasher>(table: &mut SymbolTable<B>, n: usize) -> Result<Symbol, Refusal>
        ensures ok { IfOk result (λ s.
            symbol_name s ≡ (symbol_in table.old (generated_text n)).symbol) }
        ensures refused { MayWant result (due_symbol table.old (generated_text n))
            (is_new_text table.old (generated_text n)) }
        ensures state { Becomes result table.old table.new
            (symbol_in table.old (generated_text n)).table }
    {
        Symbol::intern(table, generated(n).as_str())
    }
}
