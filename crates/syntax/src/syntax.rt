//! Syntax trees in a store of terms, and what makes them token by token.
ghost use Rattle.std.specs.Prelude.{◌≡◌, ◌↔◌, IsTrue, List, IfOk, IfErr, OnOk, map as list_map};
ghost use Rattle.intern_terms.specs.Handle.{term_name};
ghost use Rattle.intern_terms.specs.Tree.{Tree, Trees, tree as tree_of, no_more, UnfoldsTo};
ghost use Rattle.ra_ap_intern.specs.State.{new_state};
ghost use Rattle.ra_ap_intern.specs.Symbols.{symbol_ref_name};
ghost use Rattle.syntax.specs.Frames.{shape_of};
ghost use Rattle.intern_terms.specs.Tree.{AllUnfold};
ghost use Rattle.ra_ap_intern.specs.Name.{Name as TermName};
ghost use Rattle.syntax.specs.Lexeme.{lexeme, lexemes};
ghost use Rattle.syntax.specs.Printing.{AreItems, program_tokens};
ghost use Rattle.syntax.specs.Machine.{program as program_of, Unclosed, Reading, step as stepped_to, begun, gone_on, marked, completed, reduced, with_last};
ghost use Rattle.syntax.specs.Parsing.{Keeps, Stand, IsUnclosed, Opens, Reads, ReadsBefore, Reaches, IsValue, OnUnexpected};

use crate::fault::{Fault, Stop};
use crate::machine::{Form, Frame, Machine, Spot};
use crate::token::{Mark, Operator, PlacedToken, Token};
use intern_terms::{TermRef, TermStore, laws};
use ra_ap_intern::{SymbolRef, SymbolTable};
use std::alloc::Global;
use text_run::Place;

/// Syntax trees, each kept once, and the names in them.
///
/// A name or a number is a term without arguments, and every other tree is the term of a head over
/// its parts: a call of its function over its arguments, `a + b` of `add`, `if a then b else c` of
/// `then`, `let x = a in b` and the item `let x = a;` of `let`, and `fn f(x) = a;` of `fn`.
#[derive(Drop)]
pub struct Syntax {
    pub alloc: Global,
    pub names: SymbolTable,
    pub terms: TermStore,
}

/// A program: its items, and the spots of their parts.
#[derive(Drop)]
pub struct Program {
    pub items: Vec<TermRef>,
    pub spots: Vec<Spot>,
}

impl Program {
    /// No item.
    pub fn new(alloc: Global) -> Program {
        Program {
            items: Vec::new(alloc),
            spots: Vec::new(alloc),
        }
    }
}

impl Syntax {
    /// No tree, and no name.
    pub fn new(alloc: Global) -> Syntax
        ensures { result.terms ≡ new_state 2 u64.MAX u64.MAX }
    {
        Syntax {
            alloc,
            names: SymbolTable::new(alloc, 1),
            terms: TermStore::new(alloc, 2),
        }
    }

    /// Whether two trees are equal, in constant time.
    pub fn same(&self, first: TermRef, second: TermRef) -> bool
        ensures { (t u : Tree) → UnfoldsTo self.now.terms (term_name first) t →
            UnfoldsTo self.now.terms (term_name second) u → IsTrue result ↔ (t ≡ u) }
    {
        laws::terms_are_equal_exactly_if_their_trees_are();
        // What `number` says of the state is said here too.
        let _number = self.terms.number();
        first == second
    }

    /// The program that the tokens are, which end at this place. A program that was printed is read
    /// as the items that it was printed from.
    pub fn parse(&mut self, tokens: &[PlacedToken], end: Place) -> Result<Program, Stop>
        ensures again { IfOk result (λ p. (names : List TermName) (items : Trees) →
            AllUnfold self.old.terms names items → AreItems items →
            lexemes tokens.now ≡ program_tokens items → list_map term_name p.items.items ≡ names) }
        ensures refused { IfErr result (λ stop. OnUnexpected stop ((items : Trees) →
            AreItems items → lexemes tokens.now ≡ program_tokens items → ⊥)) }
        ensures program { IfOk result (λ p. (items : Trees)
            × (program_of (lexemes tokens.now) ≡ Some items)
            × Stand self.new.terms p.items.items items) }
        ensures unexpected { IfErr result (λ stop. OnUnexpected stop (
            program_of (lexemes tokens.now) ≡ None)) }
        ensures keeps { Keeps self.old.terms self.new.terms }
    {
        let mut machine = Machine::new(self.alloc);
        for placed in tokens {
            self.step(&mut machine, *placed)?;
        }
        // What `number` says of the state is said here too.
        let _number = self.terms.number();
        if machine.is_whole() {
            let Machine { items, spots, .. } = machine;
            Ok(Program { items, spots })
        } else {
            Err(Stop::unexpected(end, machine.expected(), None))
        }
    }

    /// Goes on by a token.
    pub fn step(&mut self, machine: &mut Machine, placed: PlacedToken) -> Result<(), Stop>
        ensures ok { OnOk result ((r : Reading) → Reads self.old.terms machine.old r →
            Reaches self.new.terms machine.new (stepped_to r (lexeme placed.token))) }
        ensures unexpected { IfErr result (λ stop. OnUnexpected stop ((r : Reading) →
            Reads self.old.terms machine.old r → stepped_to r (lexeme placed.token) ≡ None)) }
        ensures keeps { Keeps self.old.terms self.new.terms }
    {
        match machine.value {
            None => self.begin(machine, placed),
            Some(value) => self.go_on(machine, value, placed),
        }
    }

    // A token where an expression or an item begins.
    fn begin(&mut self, machine: &mut Machine, placed: PlacedToken) -> Result<(), Stop>
        requires { machine.old.value ≡ None }
        ensures ok { OnOk result ((items : Trees) (os : List Unclosed) →
            ReadsBefore self.old.terms machine.old items os →
            Reaches self.new.terms machine.new (begun items os (lexeme placed.token))) }
        ensures unexpected { IfErr result (λ stop. OnUnexpected stop (
            (items : Trees) (os : List Unclosed) → ReadsBefore self.old.terms machine.old items os →
            begun items os (lexeme placed.token) ≡ None)) }
        ensures keeps { Keeps self.old.terms self.new.terms }
    {
        let in_item = !machine.is_between_items();
        let opened = Form::opened(placed.token, in_item);
        match placed.token {
            Token::Atom(name) if in_item => Ok(self.begin_atom(machine, name, placed.place)?),
            Token::Atom(_) => Err(machine.refuse(placed)),
            Token::Call(_) | Token::Infix(_) | Token::Mark(_) => match opened {
                Some(form) => Ok(machine.open(self.alloc, form, placed.place)?),
                None => Err(machine.refuse(placed)),
            },
        }
    }

    // A name or a number where an expression begins.
    fn begin_atom(
        &mut self,
        machine: &mut Machine,
        name: SymbolRef,
        place: Place,
    ) -> Result<(), Fault>
        ensures items { machine.new.items ≡ machine.old.items }
        ensures frames { machine.new.frames ≡ machine.old.frames }
        ensures value { OnOk result (IsValue self.new.terms machine.new.value
            (Some (tree_of (symbol_ref_name name) no_more))) }
        ensures keeps { Keeps self.old.terms self.new.terms }
    {
        let value = self.terms.term_of(name, &[], &mut self.names)?;
        let first = machine.spots.len();
        machine.note(place, first)?;
        machine.value = Some(value);
        Ok(())
    }

    // A token behind an expression.
    fn go_on(
        &mut self,
        machine: &mut Machine,
        value: TermRef,
        placed: PlacedToken,
    ) -> Result<(), Stop>
        ensures ok { OnOk result ((items : Trees) (os : List Unclosed) (t : Tree) →
            ReadsBefore self.old.terms machine.old items os →
            UnfoldsTo self.old.terms (term_name value) t →
            Reaches self.new.terms machine.new (gone_on items os t (lexeme placed.token))) }
        ensures unexpected { IfErr result (λ stop. OnUnexpected stop (
            (items : Trees) (os : List Unclosed) (t : Tree) →
            ReadsBefore self.old.terms machine.old items os →
            UnfoldsTo self.old.terms (term_name value) t →
            gone_on items os t (lexeme placed.token) ≡ None)) }
        ensures keeps { Keeps self.old.terms self.new.terms }
    {
        match placed.token {
            Token::Infix(operator) => {
                let left = self.reduce(machine, value, Some(operator))?;
                Ok(machine.open_infix(self.alloc, operator, left)?)
            }
            Token::Mark(mark) => {
                let whole = self.reduce(machine, value, None)?;
                self.mark(machine, whole, mark, placed)
            }
            Token::Atom(_) | Token::Call(_) => Err(machine.refuse(placed)),
        }
    }

    // Ends each form that ends before an operator, or before a mark.
    fn reduce(
        &mut self,
        machine: &mut Machine,
        value: TermRef,
        before: Option<Operator>,
    ) -> Result<TermRef, Fault>
        ensures reduced { IfOk result (λ n. (os : List Unclosed) (t : Tree) →
            Opens self.old.terms machine.old.frames.items os →
            UnfoldsTo self.old.terms (term_name value) t →
            let r = reduced before os t in Opens self.new.terms machine.new.frames.items r.0
            × UnfoldsTo self.new.terms (term_name n) r.1) }
        ensures items { machine.new.items ≡ machine.old.items }
        ensures keeps { Keeps self.old.terms self.new.terms }
    {
        let mut value = value;
        while let Some(frame) = machine.pop_yielding(before) {
            value = self.complete(machine, frame, value)?;
        }
        Ok(value)
    }

    // A mark behind the last part so far of the innermost form.
    fn mark(
        &mut self,
        machine: &mut Machine,
        value: TermRef,
        mark: Mark,
        placed: PlacedToken,
    ) -> Result<(), Stop>
        ensures ok { OnOk result ((items : Trees) (os : List Unclosed) (t : Tree) →
            ReadsBefore self.old.terms machine.old items os →
            UnfoldsTo self.old.terms (term_name value) t →
            Reaches self.new.terms machine.new (marked items os t mark)) }
        ensures unexpected { IfErr result (λ stop. OnUnexpected stop (
            (items : Trees) (os : List Unclosed) (t : Tree) →
            ReadsBefore self.old.terms machine.old items os →
            UnfoldsTo self.old.terms (term_name value) t →
            marked items os t mark ≡ None)) }
        ensures keeps { Keeps self.old.terms self.new.terms }
    {
        let refused = machine.refuse(placed);
        let Some(frame) = machine.frames.pop() else {
            return Err(refused);
        };
        let parts = frame.parts.len();
        let is_outermost = machine.is_between_items();
        if frame.form.separates(parts, mark) {
            Ok(machine.push_part(frame, value)?)
        } else if frame.form.closes(mark) {
            machine.value = Some(self.complete(machine, frame, value)?);
            Ok(())
        } else if frame.form.closes_item(parts, mark, is_outermost) {
            let item = self.complete(machine, frame, value)?;
            Ok(machine.push_item(item)?)
        } else {
            Err(refused)
        }
    }

    // The tree of a form with its last part.
    fn complete(
        &mut self,
        machine: &mut Machine,
        frame: Frame,
        value: TermRef,
    ) -> Result<TermRef, Fault>
        ensures completed { IfOk result (λ n. (o : Unclosed) (t : Tree) →
            IsUnclosed self.old.terms frame o → UnfoldsTo self.old.terms (term_name value) t →
            UnfoldsTo self.new.terms (term_name n) (completed o t)) }
        ensures items { machine.new.items ≡ machine.old.items }
        ensures frames { machine.new.frames ≡ machine.old.frames }
        ensures keeps { Keeps self.old.terms self.new.terms }
    {
        let Some(head) = frame.form.head() else {
            return Ok(value);
        };
        machine.note(frame.place, frame.first)?;
        let mut parts = frame.parts;
        parts.push(value)?;
        Ok(self.terms.term_of(head, parts.as_slice(), &mut self.names)?)
    }
}
