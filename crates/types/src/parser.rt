//! Parses declarations into steps.
ghost use Rattle.std.specs.Prelude.{◌≡◌};

use crate::error::{Failure, Result, TypeError};
use crate::lexer::{APPLICATION, Functional, between, is_name, literal};
use crate::step::{Action, Combination, Step};
use ra_ap_intern::{SymbolRef, SymbolTable};
use std::alloc::{AllocError, Global};
use text_run::{Place, Words};

// What was begun and isn't ended, with the step at its end.
#[derive(Clone, Copy)]
enum Begun {
    // What ends at this word. Not each has a step.
    Until(&'static str, Option<Step>),
    // What ends before what binds less tightly than this, or where what is around it ends.
    Open(u8, Step),
}

/// Reads declarations, one after the other.
#[derive(Drop)]
pub struct Parser<'a> {
    /// The names in the text.
    pub names: SymbolTable,
    /// The steps of the last declaration.
    pub steps: Vec<Step>,
    // The innermost last.
    begun: Vec<Begun>,
    // The next word, where it stands, and the words behind it.
    word: &'a str,
    place: Place,
    words: Words<'a>,
}

impl<'a> Parser<'a> {
    /// At the beginning of a text, as if behind a semicolon.
    pub fn new(alloc: Global, number: u64, text: &'a str) -> Parser<'a> {
        Parser {
            names: SymbolTable::new(alloc, number),
            steps: Vec::new(alloc),
            begun: Vec::new(alloc),
            word: ";",
            place: Place::START,
            words: Words::new(text, Place::START),
        }
    }

    /// Reads the steps of the next declaration, and answers the name that it declares. None at the
    /// end. After an error the next one begins behind the next semicolon.
    pub fn next(&mut self) -> Result<Option<SymbolRef>, Failure> {
        self.pass_rest();
        self.begun.clear();
        self.steps.clear();
        let declared = self.declaration();
        let place = self.place;
        declared.map_err(|error| Failure { place, error })
    }

    // Passes what is left of a declaration, and the semicolons behind it.
    fn pass_rest(&mut self) {
        let mut has_ended = false;
        for _ in 0..u64::MAX {
            has_ended = has_ended || self.word == ";";
            if self.word.is_empty() || has_ended && self.word != ";" {
                break;
            }
            self.advance();
        }
    }

    fn advance(&mut self) {
        (self.word, self.place) = self.words.next::<Functional>();
    }

    // Passes this word, if it comes.
    fn passes(&mut self, word: &str) -> bool {
        let comes = self.word == word;
        if comes {
            self.advance();
        }
        comes
    }

    // The name that comes, where nothing else may.
    fn name(&mut self, expected: &'static str) -> Result<SymbolRef> {
        if !is_name(self.word) {
            return Err(TypeError::Expected(expected));
        }
        Ok(self.names.get_or_intern(self.word)?)
    }

    // An action at the next word.
    fn step(&self, action: Action) -> Step {
        let place = self.place;
        Step { action, place }
    }

    fn emit(&mut self, action: Action) -> Result<()> {
        let step = self.step(action);
        Ok(self.steps.push(step)?)
    }

    // Begins what has no end of its own.
    fn open(&mut self, strength: u8, combination: Combination) -> Result<()> {
        let step = self.step(Action::Combine(combination));
        Ok(self.begun.push(Begun::Open(strength, step))?)
    }

    // Takes a declaration up to its semicolon.
    fn declaration(&mut self) -> Result<Option<SymbolRef>> {
        if self.word.is_empty() {
            return Ok(None);
        }
        if !is_name(self.word) && !matches!(self.word, "let" | "rec") {
            return Err(TypeError::Expected("a declaration"));
        }
        self.passes("let");
        let name = self.binding(";")?;
        let mut whole = false;
        for _ in 0..u64::MAX {
            if self.begun.is_empty() {
                break;
            }
            whole = if whole { self.infix()? } else { self.prefix()? };
        }
        Ok(Some(name))
    }

    // Takes `rec name parameter .. =`. What is bound ends at this word.
    fn binding(&mut self, end: &'static str) -> Result<SymbolRef> {
        let is_recursive = self.passes("rec");
        let name = self.name("a name")?;
        let step = self.step(Action::EndBinding(name));
        self.begun.push(Begun::Until(end, Some(step)))?;
        self.emit(Action::BeginBinding)?;
        if is_recursive {
            self.parameter(Combination::Recursion, "a name")?;
        } else {
            self.advance();
        }
        self.parameters("=", "a parameter or =")?;
        Ok(name)
    }

    // Takes parameters, and the word behind them.
    fn parameters(&mut self, end: &str, expected: &'static str) -> Result<()> {
        for _ in 0..u64::MAX {
            if self.passes(end) {
                break;
            }
            self.parameter(Combination::Function, expected)?;
        }
        Ok(())
    }

    // Takes a name that stands for one type in what it begins.
    fn parameter(&mut self, begins: Combination, expected: &'static str) -> Result<()> {
        let name = self.name(expected)?;
        self.open(0, begins)?;
        self.emit(Action::BeginFunction(name))?;
        self.advance();
        Ok(())
    }

    // Takes what an operand begins with. Whether that is the whole operand.
    fn prefix(&mut self) -> Result<bool> {
        let place = self.place;
        if self.passes("(") {
            self.begun.push(Begun::Until(")", None))?;
        } else if self.passes("if") {
            let action = Action::Condition;
            self.begun
                .push(Begun::Until("then", Some(Step { action, place })))?;
        } else if self.passes("let") {
            self.binding("in")?;
        } else if self.passes("fun") {
            self.parameter(Combination::Function, "a name")?;
            self.parameters("->", "a parameter or ->")?;
        } else {
            let action = match literal(self.word) {
                Some(action) => action,
                None => Action::Variable(self.name("an expression")?),
            };
            self.emit(action)?;
            self.advance();
            return Ok(true);
        }
        Ok(false)
    }

    // Takes what stands behind an operand. Whether an operand is whole then.
    fn infix(&mut self) -> Result<bool> {
        let Some((strength, combination)) = between(self.word) else {
            self.end_open(0)?;
            return self.end();
        };
        self.end_open(strength)?;
        self.open(strength, combination)?;
        // An argument begins with the word that tells that it comes.
        if strength < APPLICATION {
            self.advance();
        }
        Ok(false)
    }

    // Ends what has no end of its own, and binds at least so tightly.
    fn end_open(&mut self, strength: u8) -> Result<()> {
        let ends = |begun: &mut Begun| matches!(*begun, Begun::Open(own, _) if strength <= own);
        while let Some(Begun::Open(_, step)) = self.begun.pop_if(ends) {
            self.steps.push(step)?;
        }
        Ok(())
    }

    // Ends, or goes on with, what was begun last. Whether it is a whole operand.
    fn end(&mut self) -> Result<bool> {
        let Some(Begun::Until(end, step)) = self.begun.pop() else {
            return Err(TypeError::NoOperand);
        };
        let word = self.word;
        if word == "," && end == ")" && step.is_none() {
            let step = self.step(Action::Combine(Combination::Pair));
            self.begun.push(Begun::Until(")", Some(step)))?;
        } else if word != end {
            return Err(TypeError::Unended(end));
        } else if let Some(step) = step {
            self.steps.push(step)?;
        }
        match word {
            ";" => return Ok(true),
            "in" => self.open(0, Combination::Scope)?,
            "then" => self.begun.push(Begun::Until("else", None))?,
            "else" => self.open(0, Combination::Branches)?,
            _ => {}
        }
        self.advance();
        Ok(word == ")")
    }
}
