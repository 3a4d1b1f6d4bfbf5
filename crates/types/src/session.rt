//! The answers to a text of declarations.
ghost use Rattle.std.specs.Prelude.{◌≡◌, ◌↔◌, Some, OnOk};
ghost use Rattle.ra_ap_intern.specs.Handle.{ref_name};
ghost use Rattle.ra_ap_intern.specs.Symbols.{Named, symbol_ref_name};
ghost use Rattle.types.specs.Environment.{Declares, KeepsOthers, declared_as};
ghost use Rattle.types.specs.Tree.{Tree};

use crate::error::{Failure, Result, TypeError};
use crate::infer::Inference;
use crate::parser::Parser;
use crate::value::{TypeNode, TypeRef};
use ra_ap_intern::SymbolRef;
use std::alloc::Global;

/// The number of the table of names.
const NAMES: u64 = 1;

/// The number of the store of types.
const TYPES: u64 = 2;

/// How many types there are at least before they are collected.
const FEW_TYPES: usize = 1000;

/// The answers to all declarations of a text, a line each. `OutOfMemory` or `Refused` when there is
/// no memory.
pub fn answer_all(alloc: Global, text: &str) -> Result<String> {
    let mut session = Session {
        alloc,
        parser: Parser::new(alloc, NAMES, text),
        inference: Inference::new(alloc, TYPES),
        kept: 0,
        removed: 0,
        out: String::new(alloc),
    };
    session.answer_all()?;
    Ok(session.out)
}

/// The names, what is declared, and the answers so far.
#[derive(Drop)]
struct Session<'a> {
    alloc: Global,
    parser: Parser<'a>,
    inference: Inference,
    // How many types the last collection left, and how many all removed.
    kept: usize,
    removed: usize,
    out: String,
}

impl Session<'_> {
    // Answers all declarations, with a last line on what was kept.
    fn answer_all(&mut self) -> Result<()> {
        self.declare_parts()?;
        for _ in 0..u64::MAX {
            if !self.answer()? {
                break;
            }
        }
        self.collect(0)?;
        let names = self.inference.environment.declared.len();
        let (kept, removed) = (self.kept, self.removed);
        write!(
            self.out,
            "{names} names, {kept} types, {removed} types removed\n"
        )?;
        Ok(())
    }

    // fst : 'a * 'b -> 'a; snd : 'a * 'b -> 'b
    fn declare_parts(&mut self) -> Result<()> {
        let environment = &mut self.inference.environment;
        let first = environment.types.make(TypeNode::Any(0))?;
        let second = environment.types.make(TypeNode::Any(1))?;
        let pair = environment.types.pair(first, second)?;
        for (name, part) in [("fst", first), ("snd", second)] {
            let function = environment.types.function(pair, part)?;
            environment.declare(self.parser.names.get_or_intern(name)?, function)?;
        }
        Ok(())
    }

    // Answers the next declaration. Whether there was one.
    fn answer(&mut self) -> Result<bool> {
        match self.parser.next() {
            Ok(Some(name)) => self.declare(name)?,
            Ok(None) => return Ok(false),
            Err(failure) => self.tell_failure(failure)?,
        }
        Ok(true)
    }

    /// Infers the type of the declaration that was read, declares its name with it, and tells it,
    /// or tells why it has none. What the other names stand for stays.
    fn declare(&mut self, name: SymbolRef) -> Result<()>
        ensures { KeepsOthers (symbol_ref_name name)
            self.old.inference.environment self.new.inference.environment }
    {
        self.collect(self.kept.max(FEW_TYPES))?;
        match self.inference.infer(self.parser.steps.as_slice()) {
            Ok(handle) => self.bind(name, handle),
            Err(failure) => self.tell_failure(failure),
        }
    }

    // Declares a name with a type, and tells it.
    fn bind(&mut self, name: SymbolRef, handle: TypeRef) -> Result<()>
        ensures others { KeepsOthers (symbol_ref_name name)
            self.old.inference.environment self.new.inference.environment }
        ensures declares { OnOk result (declared_as self.new.inference.environment.declared
            (symbol_ref_name name) ≡ Some (ref_name handle)) }
    {
        self.inference.environment.declare(name, handle)?;
        let name = name.display(&self.parser.names);
        let written = self.inference.environment.types.written(handle);
        Ok(write!(self.out, "{name} : {written}\n")?)
    }

    fn tell_failure(&mut self, failure: Failure) -> Result<()>
        ensures { self.new.inference ≡ self.old.inference }
    {
        let Failure { place, error } = failure;
        if let TypeError::OutOfMemory(_) | TypeError::Refused(_) = error {
            return Err(error);
        }
        write!(self.out, "{place}: {error}")?;
        let types = &self.inference.environment.types;
        match error {
            TypeError::Unbound(name) => write!(self.out, " {}", name.display(&self.parser.names))?,
            TypeError::Clash(a, b) => {
                write!(self.out, " {} with {}", types.written(a), types.written(b))?;
            }
            TypeError::Infinite(a, b) => {
                write!(self.out, ": {} = {}", types.written(a), types.written(b))?;
            }
            _ => {}
        }
        Ok(self.out.push('\n')?)
    }

    // Collects the types, where there are more than twice so many.
    fn collect(&mut self, few: usize) -> Result<()>
        ensures { (name : Named) (tree : Tree) →
            Declares self.old.inference.environment name tree ↔
            Declares self.new.inference.environment name tree }
    {
        if self.inference.environment.types.len() / 2 <= few {
            return Ok(());
        }
        let collected = self.inference.environment.collect(self.alloc)?;
        self.kept = self.inference.environment.types.len();
        self.removed = self.removed.saturating_add(collected.removed);
        Ok(())
    }
}
