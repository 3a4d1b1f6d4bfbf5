//! Names as symbols: a lexer's keywords, and a scope, which has values under names.
#![tactic(auto)]

ghost use Rattle.std.specs.Prelude.{◌≡◌, ◌⊎◌, ℕ, List, map as list_map, Some, None, IfOk, IfErr, OnOk, OnErr, if◌then◌else◌, option_copied};
ghost use Rattle.std.specs.List.{slice_get};
ghost use Rattle.std.specs.Str.{bytes_eq};
ghost use Rattle.ra_ap_intern.specs.Outcome.{Becomes};
ghost use Rattle.ra_ap_intern.specs.Refusal.TheVariants.{OutOfMemory};
ghost use Rattle.ra_ap_intern.specs.State.{new_state};
ghost use Rattle.ra_ap_intern.specs.Symbols.{Named, symbol_name, symbol_in, due_symbol, text_of};
ghost use Rattle.ra_ap_intern.specs.Under.{under_text};

use indexmap::IndexMap;
use ra_ap_intern::{Refusal, Symbol, SymbolRef, SymbolTable, laws};
use std::alloc::Global;

/// The symbols of a lexer's keywords, in their order. Refused: `CountFull`, `NumbersUsedUp`,
/// `OutOfMemory`; the words before the one that was refused are counted once more then.
pub fn keywords(
    alloc: Global,
    names: &mut SymbolTable,
    words: &[&str],
) -> Result<Vec<Symbol>, Refusal>
    ensures { IfOk result (λ symbols. (i : ℕ) (word : List ℕ) →
        slice_get (list_map (λ w. w.now) words.now) i ≡ Some word → (a : Named)
        × (slice_get (list_map symbol_name symbols.items) i ≡ Some a)
        × (text_of names.new a ≡ Some word)) }
{
    let _number = names.number();
    let mut symbols = Vec::new(alloc);
    names.extend(words, &mut symbols)?;
    Ok(symbols)
}

/// A scope: what is declared, under the symbols of a table.
#[derive(Drop)]
pub struct Scope<V> {
    /// The names.
    pub names: SymbolTable,
    /// What is declared under each, in the order in which names came up first.
    pub values: IndexMap<SymbolRef, V>,
}

impl<V: Drop> Scope<V> {
    /// A scope with nothing declared.
    pub fn new(alloc: Global, number: u64) -> Scope<V>
        ensures names { result.names ≡ new_state number u64.MAX u64.MAX }
        ensures values { (text : List ℕ) → under_text result.names result.values text ≡ None }
    {
        Scope {
            names: SymbolTable::new(alloc, number),
            values: IndexMap::new(alloc),
        }
    }

    /// Declares a value under a name, which counts the name once more. Refused, with nothing
    /// changed: `CountFull`, `NumbersUsedUp`, `OutOfMemory`.
    pub fn declare(&mut self, name: &str, value: V) -> Result<(), Refusal>
        ensures ok { OnOk result (due_symbol self.old.names name.now ≡ None) }
        ensures refused { IfErr result (λ why.
            (why ≡ OutOfMemory) ⊎ (due_symbol self.old.names name.now ≡ Some why)) }
        ensures names { Becomes result self.old.names self.new.names
            (symbol_in self.old.names name.now).table }
        ensures declares { OnOk result ((text : List ℕ) →
            under_text self.new.names self.new.values text ≡ (if bytes_eq name.now text
            then Some value else under_text self.old.names self.old.values text)) }
        ensures stays { OnErr result ((text : List ℕ) →
            under_text self.new.names self.new.values text
            ≡ under_text self.old.names self.old.values text) }
    {
        laws::symbol_references_are_what_they_name();
        let _number = self.names.number();
        self.values.reserve(1)?;
        let symbol = Symbol::intern(&mut self.names, name)?;
        let stored: Result<_, _> = self.values.insert(symbol.as_ref(), value);
        stored.unwrap();
        Ok(())
    }

    /// What was declared last under a name. None where nothing was. It takes no memory.
    pub fn look_up(&self, name: &str) -> Option<&V>
        ensures { option_copied result ≡ under_text self.now.names self.now.values name.now }
    {
        laws::symbol_references_are_what_they_name();
        self.values.get(&self.names.get(name)?)
    }
}
