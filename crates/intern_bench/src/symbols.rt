//! The workload `sym`: symbols of texts that are no presets.
use crate::numbers::Generator;
use crate::storage::Storage;
use ra_ap_intern::{Refusal, Symbol, SymbolTable};
use std::alloc::{AllocError, Global};

impl Storage for SymbolTable {
    type Input = String;

    type Handle = Symbol;

    fn make(alloc: Global) -> SymbolTable {
        SymbolTable::new(alloc, 0)
    }

    fn input(
        alloc: Global,
        _place: usize,
        generator: &mut Generator,
    ) -> Result<String, AllocError> {
        let number = generator.draw();
        format!(in alloc; "x{number}")
    }

    fn entries(&self) -> usize {
        self.len()
    }

    fn intern(&mut self, input: &String) -> Result<Symbol, Refusal> {
        Symbol::intern(self, input.as_str())
    }

    // The text's length and its last byte.
    fn read(&self, handle: &Symbol) -> Result<u64, Refusal> {
        let Some(text) = handle.as_str(self) else {
            return Err(Refusal::Gone);
        };
        let last = text.as_bytes().last().copied().unwrap_or(0);
        Ok((text.len() as u64).wrapping_add(u64::from(last)))
    }

    fn release(&mut self, handle: Symbol) -> Result<(), Refusal> {
        match handle.release(self) {
            Ok(()) => Ok(()),
            Err(refused) => Err(refused.why),
        }
    }
}
