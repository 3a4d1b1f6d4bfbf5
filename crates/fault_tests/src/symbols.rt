//! Tables of texts.
use crate::fault::{Fault, ensure, refused};
use crate::storage::Storage;
use crate::values::text_of;
use ra_ap_intern::{Refusal, Symbol, SymbolRef, SymbolTable, Text, sym};
use std::alloc::{AllocError, Global};

/// A call that gives the symbol of a text.
#[derive(Clone, Copy)]
pub(crate) enum Call {
    /// `Symbol::intern`.
    Intern,
    /// `SymbolTable::get_or_intern`.
    Alone,
    /// `Integer::get`.
    Integer,
    /// `RaGeneratedName::get`.
    Generated,
}

/// A table with the call that stores texts in it.
#[derive(Drop)]
pub(crate) struct Symbols {
    table: SymbolTable,
    call: Call,
}

/// A number with the text that the call makes of it.
#[derive(Drop)]
pub(crate) struct Input {
    number: usize,
    text: Text,
}

impl Symbols {
    /// An empty table.
    pub(crate) fn new(alloc: Global, call: Call) -> Symbols {
        Symbols {
            table: SymbolTable::new(alloc, 3),
            call,
        }
    }

    fn intern(&mut self, input: &Input) -> Result<Symbol, Refusal> {
        match self.call {
            Call::Intern => Symbol::intern(&mut self.table, input.text.as_str()),
            Call::Alone => intern_alone(&mut self.table, input.text.as_str()),
            Call::Integer => sym::Integer::get(&mut self.table, input.number),
            Call::Generated => sym::RaGeneratedName::get(&mut self.table, input.number),
        }
    }

    // The number that the input's text writes.
    fn written(&self, input: &Input) -> Option<usize> {
        match self.call {
            Call::Integer => Some(input.number),
            _ => None,
        }
    }
}

impl Call {
    // The text that the call makes of a number.
    fn text(self, alloc: Global, number: usize) -> Result<Text, AllocError> {
        let text = match self {
            Call::Intern | Call::Alone => return text_of(alloc, number as u64),
            Call::Integer => format!(in alloc; "{number}")?,
            Call::Generated => format!(in alloc; "<ra@gennew>{number}")?,
        };
        Text::new(alloc, text.as_str())
    }
}

impl Storage for Symbols {
    type Input = Input;

    type Offer = ();

    type Reference = SymbolRef;

    fn call(&self) -> &'static str {
        match self.call {
            Call::Intern => "Symbol::intern",
            Call::Alone => "SymbolTable::get_or_intern",
            Call::Integer => "Integer::get",
            Call::Generated => "RaGeneratedName::get",
        }
    }

    // The texts of numbers up to 255 are presets.
    fn input(&self, alloc: Global, number: u64) -> Result<Input, AllocError> {
        let number = 256 + (number % 1_000_000) as usize;
        let text = self.call.text(alloc, number)?;
        Ok(Input { number, text })
    }

    fn offer(&self, _alloc: Global, _input: &Input) -> Result<(), AllocError> {
        Ok(())
    }

    fn store(&mut self, _offer: (), input: &Input) -> Result<SymbolRef, Fault> {
        match self.intern(input) {
            Ok(symbol) => Ok(symbol.as_ref()),
            Err(why) => Err(refused(why, true)),
        }
    }

    fn lengths(&self) -> (usize, usize) {
        (self.table.len(), self.table.iter().count())
    }

    // A birth can't be seen.
    fn shows(&self, reference: SymbolRef, input: &Input, _number: u64) -> bool {
        let text = input.text.as_str();
        self.table.get(text) == Some(reference) && reference.as_str(&self.table) == Some(text)
    }

    fn keeps(&self) -> bool {
        false
    }

    fn free(&mut self, reference: SymbolRef, _input: &Input) -> Result<(), Fault> {
        let mut last = reference.to_owned(&mut self.table)?;
        last.decrease_refcount(&mut self.table)?;
        last.release(&mut self.table)?;
        ensure(
            reference.as_str(&self.table).is_none(),
            "a text that is gone is read",
        )
    }

    fn pass(&mut self, reference: SymbolRef, _offer: (), input: &Input) -> Result<(), Fault> {
        let mut again = self.intern(input)?;
        ensure(
            again.as_ref() == reference,
            "a stored text has another symbol",
        )?;
        has_count(&self.table, &again, 2)?;
        own_twice(&mut self.table, reference)?;
        again.decrease_refcount(&mut self.table)?;
        let number = sym::Integer::as_uint(&again, &self.table);
        ensure(
            number == self.written(input),
            "a text writes another number",
        )?;
        again.release(&mut self.table)?;
        intern_preset(&mut self.table)
    }
}

// Takes over the count that the table keeps.
fn intern_alone(table: &mut SymbolTable, text: &str) -> Result<Symbol, Refusal> {
    let mut symbol = table.get_or_intern(text)?.to_owned(table)?;
    symbol.decrease_refcount(table)?;
    Ok(symbol)
}

fn has_count(table: &SymbolTable, symbol: &Symbol, count: u64) -> Result<(), Fault> {
    ensure(
        table.count(symbol) == Some(count),
        "a text has another count",
    )
}

// Makes two more symbols of a text that has two counts, and releases the first. The second is
// dropped, and keeps its count.
fn own_twice(table: &mut SymbolTable, reference: SymbolRef) -> Result<(), Fault> {
    let third = reference.to_owned(table)?;
    let fourth = third.clone(table)?;
    has_count(table, &fourth, 4)?;
    third.release(table)?;
    Ok(())
}

fn intern_preset(table: &mut SymbolTable) -> Result<(), Fault> {
    let preset = Symbol::intern(table, "Clone")?;
    ensure(preset == sym::Clone, "a preset has another symbol")
}
