//! The parser's stack: the forms that are open, and what goes on in them.
ghost use Rattle.std.specs.Prelude.{◌≡◌, ◌++◌, ◌∷◌, [], length, ◌&&◌, is_none, IfSome, IfNone, OnOk, true};
ghost use Rattle.std.specs.Option.{option_map};
ghost use Rattle.ra_ap_intern.specs.Symbols.{symbol_ref_name};
ghost use Rattle.syntax.specs.Lexeme.{lexeme};
ghost use Rattle.syntax.specs.Machine.{opened as shape_opened, yields as shape_yields, separates as shape_separates, closes as shape_closes, closes_item as shape_closes_item, head_of};
ghost use Rattle.syntax.specs.Frames.{shape_of, opened_by, Opened, NoneYields, no_frame};
ghost use Rattle.syntax.specs.Parsing.{IsUnexpected};
ghost use Rattle.syntax.specs.declared.machine.Form.TheVariants.{Infix as infix_form};

use crate::fault::{Fault, Stop};
use crate::token::{Mark, Operator, PlacedToken, Token};
use intern_terms::TermRef;
use ra_ap_intern::{SymbolRef, sym};
use std::alloc::Global;
use text_run::Place;

/// What an open form will be.
#[derive(Clone, Copy, PartialEq, Eq)]
pub enum Form {
    /// An expression in parentheses.
    Group,
    /// A call: its arguments.
    Call(SymbolRef),
    /// An infix operator: its sides.
    Infix(Operator),
    /// `if a then b else c`: these three.
    Choice,
    /// `let x = a in b`: these three. Of an item `let x = a;` the first two.
    Binding,
    /// An item `fn f(x) = a;`: these two.
    Definition,
}

/// A form of which some parts were read.
#[derive(Drop)]
pub struct Frame {
    pub form: Form,
    pub parts: Vec<TermRef>,
    /// Where it begins.
    pub place: Place,
    /// How many spots there were before its first part.
    pub first: usize,
}

/// Where a part of a tree begins, and how many parts it has, itself among them. The spots of a
/// tree stand in the order in which its parts end, so that those of a part stand just before it.
#[derive(Clone, Copy, PartialEq, Eq, Debug)]
pub struct Spot {
    pub place: Place,
    pub size: usize,
}

/// What was read of a program: whole items, open forms, and the expression before the next token.
#[derive(Drop)]
pub struct Machine {
    pub items: Vec<TermRef>,
    pub frames: Vec<Frame>,
    pub value: Option<TermRef>,
    pub spots: Vec<Spot>,
}

impl Form {
    /// The form that a token opens, between items or in an item. Atoms open none.
    pub fn opened(token: Token, in_item: bool) -> Option<Form>
        ensures { opened_by result ≡ shape_opened (lexeme token) in_item }
    {
        match token {
            Token::Mark(Mark::Fn) if !in_item => Some(Form::Definition),
            Token::Mark(Mark::Let) => Some(Form::Binding),
            Token::Call(name) if in_item => Some(Form::Call(name)),
            Token::Mark(Mark::Open) if in_item => Some(Form::Group),
            Token::Mark(Mark::If) if in_item => Some(Form::Choice),
            _ => None,
        }
    }

    /// The head of its terms. A group has none.
    pub fn head(self) -> Option<SymbolRef>
        ensures { option_map symbol_ref_name result ≡ head_of (shape_of self) }
    {
        match self {
            Form::Group => None,
            Form::Call(name) => Some(name),
            Form::Infix(operator) => Some(operator.head().as_ref()),
            Form::Choice => Some(sym::then.as_ref()),
            Form::Binding => Some(sym::let_.as_ref()),
            Form::Definition => Some(sym::fn_.as_ref()),
        }
    }

    /// Whether another part follows behind a mark, and so many parts and one more.
    pub fn separates(self, parts: usize, mark: Mark) -> bool
        ensures { result ≡ shape_separates (shape_of self) parts mark }
    {
        match (self, mark) {
            (Form::Call(_), Mark::Comma) => true,
            (Form::Choice, Mark::Then) => parts == 0,
            (Form::Choice, Mark::Else) | (Form::Binding, Mark::In) => parts == 1,
            (Form::Binding | Form::Definition, Mark::Equals) => parts == 0,
            _ => false,
        }
    }

    /// Whether a mark closes the form.
    pub fn closes(self, mark: Mark) -> bool
        ensures { result ≡ shape_closes (shape_of self) mark }
    {
        matches!((self, mark), (Form::Group | Form::Call(_), Mark::Close))
    }

    /// Whether a mark behind so many parts and one more ends the form as an item: the outermost
    /// one.
    pub fn closes_item(self, parts: usize, mark: Mark, is_outermost: bool) -> bool
        ensures { result ≡ (shape_closes_item (shape_of self) parts mark && is_outermost) }
    {
        let is_definition = matches!(self, Form::Binding | Form::Definition);
        is_definition && mark == Mark::Semicolon && parts == 1 && is_outermost
    }

    /// Whether the form ends with its next part, if what follows is this operator, or a mark.
    pub fn yields(self, parts: usize, before: Option<Operator>) -> bool
        ensures { result ≡ shape_yields (shape_of self) parts before }
    {
        match (self, before) {
            (Form::Infix(operator), Some(next)) => next.precedence() <= operator.precedence(),
            (Form::Infix(_), None) => true,
            (Form::Choice | Form::Binding, None) => parts == 2,
            _ => false,
        }
    }

    // What can stand behind so many parts and one more. A semicolon ends only the outermost form.
    fn expected_behind(self, parts: usize, is_outermost: bool) -> &'static str {
        match (self, parts) {
            (Form::Group, _) => "an operator or `)`",
            (Form::Call(_), _) => "an operator, `,` or `)`",
            (Form::Choice, 0) => "an operator or `then`",
            (Form::Choice, _) => "an operator or `else`",
            (Form::Binding | Form::Definition, 0) => "`=`",
            (Form::Binding, _) if !is_outermost => "an operator or `in`",
            (Form::Binding | Form::Definition | Form::Infix(_), _) => "an operator or `;`",
        }
    }
}

impl Machine {
    /// Nothing was read.
    pub fn new(alloc: Global) -> Machine
        ensures items { result.items.items ≡ [] }
        ensures frames { result.frames.items ≡ [] }
        ensures value { result.value ≡ None }
    {
        Machine {
            items: Vec::new(alloc),
            frames: Vec::new(alloc),
            value: None,
            spots: Vec::new(alloc),
        }
    }

    /// Whether no form is open.
    pub fn is_between_items(&self) -> bool
        ensures { result ≡ no_frame self.now.frames.items }
    {
        self.frames.is_empty()
    }

    /// Whether only whole items were read.
    pub fn is_whole(&self) -> bool
        ensures { result ≡ (no_frame self.now.frames.items && is_none self.now.value) }
    {
        self.is_between_items() && self.value.is_none()
    }

    /// Opens a form before its first part.
    pub fn open(&mut self, alloc: Global, form: Form, place: Place) -> Result<(), Fault>
        ensures items { self.new.items ≡ self.old.items }
        ensures value { self.new.value ≡ self.old.value }
        ensures frames { OnOk result (Opened self.old.frames.items self.new.frames.items form []) }
    {
        self.frames.push(Frame {
            form,
            parts: Vec::new(alloc),
            place,
            first: self.spots.len(),
        })?;
        Ok(())
    }

    /// Opens the form of an operator, behind its left side, which was read last.
    pub fn open_infix(
        &mut self,
        alloc: Global,
        operator: Operator,
        left: TermRef,
    ) -> Result<(), Fault>
        ensures items { self.new.items ≡ self.old.items }
        ensures value { OnOk result (self.new.value ≡ None) }
        ensures frames { OnOk result (Opened self.old.frames.items self.new.frames.items
            (infix_form operator) (left ∷ [])) }
    {
        let size = self.spots.last().map_or(0, |spot| spot.size);
        let frame = Frame {
            form: Form::Infix(operator),
            parts: Vec::new(alloc),
            place: self.spots.last().map_or(Place::START, |spot| spot.place),
            first: self.spots.len().saturating_sub(size),
        };
        self.push_part(frame, left)
    }

    /// Adds a part to a form, of which another follows.
    pub fn push_part(&mut self, frame: Frame, part: TermRef) -> Result<(), Fault>
        ensures items { self.new.items ≡ self.old.items }
        ensures value { OnOk result (self.new.value ≡ None) }
        ensures frames { OnOk result (Opened self.old.frames.items self.new.frames.items
            frame.form (frame.parts.items ++ part ∷ [])) }
    {
        let mut frame = frame;
        frame.parts.push(part)?;
        self.frames.push(frame)?;
        self.value = None;
        Ok(())
    }

    /// Adds an item.
    pub fn push_item(&mut self, item: TermRef) -> Result<(), Fault>
        ensures items { OnOk result (self.new.items.items ≡ self.old.items.items ++ item ∷ []) }
        ensures value { OnOk result (self.new.value ≡ None) }
        ensures frames { self.new.frames ≡ self.old.frames }
    {
        self.items.push(item)?;
        self.value = None;
        Ok(())
    }

    /// Takes the innermost form, if it ends before this operator, or before a mark.
    pub fn pop_yielding(&mut self, before: Option<Operator>) -> Option<Frame>
        ensures items { self.new.items ≡ self.old.items }
        ensures value { self.new.value ≡ self.old.value }
        ensures some { IfSome result (λ f.
            (self.old.frames.items ≡ self.new.frames.items ++ f ∷ [])
            × (shape_yields (shape_of f.form) (length f.parts.items) before ≡ true)) }
        ensures stays { IfNone result (self.new.frames.items ≡ self.old.frames.items) }
        ensures none { IfNone result (NoneYields self.old.frames.items before) }
    {
        let frame = self.frames.last()?;
        if frame.form.yields(frame.parts.len(), before) {
            self.frames.pop()
        } else {
            None
        }
    }

    /// Notes where a part begins that ends now, with all the spots from the first on.
    pub fn note(&mut self, place: Place, first: usize) -> Result<(), Fault>
        ensures items { self.new.items ≡ self.old.items }
        ensures frames { self.new.frames ≡ self.old.frames }
        ensures value { self.new.value ≡ self.old.value }
    {
        let size = self.spots.len().saturating_sub(first).saturating_add(1);
        self.spots.push(Spot { place, size })?;
        Ok(())
    }

    /// What can stand next: behind an expression, in the innermost form that doesn't end with it.
    pub fn expected(&self) -> &'static str {
        let goes_on = |frame: &Frame| !frame.form.yields(frame.parts.len(), None);
        let depth = self.frames.iter().rposition(goes_on).unwrap_or(0);
        match self.frames.get(depth) {
            None => "`fn` or `let`",
            Some(_) if self.value.is_none() => "an expression",
            Some(frame) => frame.form.expected_behind(frame.parts.len(), depth == 0),
        }
    }

    /// What is told of a token that can't stand where it does.
    pub fn refuse(&self, placed: PlacedToken) -> Stop
        ensures { IsUnexpected result }
    {
        Stop::unexpected(placed.place, self.expected(), Some(placed.token))
    }
}
