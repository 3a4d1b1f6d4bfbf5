//! Tokens from trees.
ghost use Rattle.std.specs.Prelude.{◌≡◌, ℕ, ◌+◌, ◌*◌, ◌≤◌, ◌++◌, ◌∷◌, [], List, length, map as list_map, reverse, IfOk, IfErr, OnOk};
ghost use Rattle.intern_terms.specs.Handle.{term_name};
ghost use Rattle.intern_terms.specs.Tree.{Tree, Trees, UnfoldsTo};
ghost use Rattle.ra_ap_intern.specs.Symbols.{symbol_name, same_named};
ghost use Rattle.syntax.specs.Lexeme.{Lexeme, lexeme};
ghost use Rattle.syntax.specs.Parsing.{Stand};
ghost use Rattle.syntax.specs.Pieces.{Spell, Lay, Prints, comma_pieces};
ghost use Rattle.syntax.specs.Printing.{tokens_of, tokens_of_each, item_tokens, written, keywords, definition, item_mark, name_or_call, defined_tokens, IsItem};
ghost use Rattle.syntax.specs.declared.printer.Piece.TheVariants.{Token as token_piece};
ghost use Rattle.syntax.specs.declared.token.Token.TheVariants.{Mark as mark_token};

use crate::fault::Fault;
use crate::syntax::Syntax;
use crate::token::{Mark, Operator, Token};
use intern_terms::TermRef;
use ra_ap_intern::{Symbol, laws, sym};
use std::alloc::AllocError;

/// What is still to be printed: a token, or a tree.
#[derive(Clone, Copy)]
pub enum Piece {
    Token(Token),
    Tree(TermRef),
}

impl Syntax {
    /// An expression as tokens: operators, `if` and `let` stand in parentheses, so that it is read
    /// again without regard to precedence. Refused as `TooLong` where it takes more than so many
    /// pieces: one for each token and each tree, at most twice as many as tokens.
    pub fn print(&self, tree: TermRef, most: usize) -> Result<Vec<Token>, Fault>
        ensures tokens { (t : Tree) → UnfoldsTo self.now.terms (term_name tree) t →
            IfOk result (λ tokens. list_map lexeme tokens.items ≡ tokens_of t) }
        ensures long { (t : Tree) → UnfoldsTo self.now.terms (term_name tree) t →
            IfErr result (λ why. why ≡ Fault.TooLong → most ≤ 2 * length (tokens_of t)) }
    {
        self.print_pieces(self.layout(tree)?, most)
    }

    /// An item as tokens.
    pub fn print_item(&self, item: TermRef, most: usize) -> Result<Vec<Token>, Fault>
        ensures tokens { (t : Tree) → UnfoldsTo self.now.terms (term_name item) t → IsItem t →
            IfOk result (λ tokens. list_map lexeme tokens.items ≡ item_tokens t) }
        ensures long { (t : Tree) → UnfoldsTo self.now.terms (term_name item) t → IsItem t →
            IfErr result (λ why. why ≡ Fault.TooLong → most ≤ 2 * length (item_tokens t)) }
    {
        self.print_pieces(self.item_layout(item)?, most)
    }

    /// What an item defines as tokens: a name or a call, also where its head is an operator's.
    pub fn print_defined(&self, defined: TermRef, most: usize) -> Result<Vec<Token>, Fault>
        ensures tokens { (t : Tree) → UnfoldsTo self.now.terms (term_name defined) t →
            IfOk result (λ tokens. list_map lexeme tokens.items ≡ defined_tokens t) }
        ensures long { (t : Tree) → UnfoldsTo self.now.terms (term_name defined) t →
            IfErr result (λ why. why ≡ Fault.TooLong → most ≤ 2 * length (defined_tokens t)) }
    {
        self.print_pieces(self.defined_layout(defined)?, most)
    }

    // The tokens of pieces.
    fn print_pieces(&self, layout: Vec<Piece>, most: usize) -> Result<Vec<Token>, Fault>
        ensures tokens { (spelled : List Lexeme) → Spell self.now.terms layout.items spelled →
            IfOk result (λ tokens. list_map lexeme tokens.items ≡ spelled) }
        ensures long { (spelled : List Lexeme) → Spell self.now.terms layout.items spelled →
            IfErr result (λ why. why ≡ Fault.TooLong → most ≤ 2 * length spelled) }
    {
        let mut tokens = Vec::new(self.alloc);
        let mut pieces = Vec::new(self.alloc);
        push_all(layout, &mut pieces)?;
        for _ in 0..most {
            let Some(piece) = pieces.pop() else {
                return Ok(tokens);
            };
            match piece {
                Piece::Token(token) => tokens.push(token)?,
                Piece::Tree(tree) => push_all(self.layout(tree)?, &mut pieces)?,
            }
        }
        Err(Fault::TooLong)
    }

    // A tree as the tokens of its own, and its parts between them.
    fn layout(&self, tree: TermRef) -> Result<Vec<Piece>, AllocError>
        ensures { (t : Tree) → UnfoldsTo self.now.terms (term_name tree) t →
            IfOk result (λ pieces. Lay self.now.terms pieces.items (tokens_of t)) }
    {
        match self.terms.node(tree) {
            Some((head, parts)) => self.spell(head, parts),
            None => Ok(Vec::new(self.alloc)),
        }
    }

    // A head and parts as pieces: an operator and its sides, `if`, `let`, a call, or a name.
    fn spell(&self, head: &Symbol, parts: &[TermRef]) -> Result<Vec<Piece>, AllocError>
        ensures { (ts : Trees) → Stand self.now.terms parts.now ts → IfOk result (λ pieces.
            Lay self.now.terms pieces.items (written (symbol_name head.now) (tokens_of_each ts))) }
    {
        match parts {
            &[left, right] => match Operator::of(head) {
                Some(operator) => Ok(vec![in self.alloc;
                    mark(Mark::Open),
                    Piece::Tree(left),
                    Piece::Token(Token::Infix(operator)),
                    Piece::Tree(right),
                    mark(Mark::Close),
                ]?),
                None => self.spell_defined(head, parts),
            },
            &[first, second, third] => match keywords_of(head) {
                Some((begin, middle, end)) => Ok(vec![in self.alloc;
                    mark(Mark::Open),
                    mark(begin),
                    Piece::Tree(first),
                    mark(middle),
                    Piece::Tree(second),
                    mark(end),
                    Piece::Tree(third),
                    mark(Mark::Close),
                ]?),
                None => self.spell_defined(head, parts),
            },
            [] | [_] => self.spell_defined(head, parts),
            [_, _, _, _, ..] => self.spell_defined(head, parts),
        }
    }

    // An item as the tokens of its own, and its two parts between them.
    fn item_layout(&self, item: TermRef) -> Result<Vec<Piece>, AllocError>
        ensures { (t : Tree) → UnfoldsTo self.now.terms (term_name item) t → IsItem t →
            IfOk result (λ pieces. Spell self.now.terms pieces.items (item_tokens t)) }
    {
        match self.terms.node(item) {
            Some((head, &[defined, value])) => self.spell_item(head, defined, value),
            _ => Ok(Vec::new(self.alloc)),
        }
    }

    // A definition.
    fn spell_item(
        &self,
        head: &Symbol,
        defined: TermRef,
        value: TermRef,
    ) -> Result<Vec<Piece>, AllocError>
        ensures { (t u : Tree) → UnfoldsTo self.now.terms (term_name defined) t →
            UnfoldsTo self.now.terms (term_name value) u → IfOk result (λ pieces.
            Spell self.now.terms pieces.items (definition (symbol_name head.now)
            (defined_tokens t) (tokens_of u))) }
    {
        let name = self.defined_layout(defined)?;
        let mut pieces = vec![in self.alloc; mark(keyword_of(head))]?;
        pieces.extend_from_slice(name.as_slice())?;
        pieces.extend_from_slice(&[
            mark(Mark::Equals),
            Piece::Tree(value),
            mark(Mark::Semicolon),
        ])?;
        Ok(pieces)
    }

    // What an item defines as pieces.
    fn defined_layout(&self, defined: TermRef) -> Result<Vec<Piece>, AllocError>
        ensures { (t : Tree) → UnfoldsTo self.now.terms (term_name defined) t →
            IfOk result (λ pieces. Lay self.now.terms pieces.items (defined_tokens t)) }
    {
        match self.terms.node(defined) {
            Some((head, parts)) => self.spell_defined(head, parts),
            None => Ok(Vec::new(self.alloc)),
        }
    }

    // A name, or a call of a head over parts, with commas between them.
    fn spell_defined(&self, head: &Symbol, parts: &[TermRef]) -> Result<Vec<Piece>, AllocError>
        ensures { (ts : Trees) → Stand self.now.terms parts.now ts → IfOk result (λ pieces.
            Lay self.now.terms pieces.items
            (name_or_call (symbol_name head.now) (tokens_of_each ts))) }
    {
        let Some((first, others)) = parts.split_first() else {
            return Ok(vec![in self.alloc; Piece::Token(Token::Atom(head.as_ref()))]?);
        };
        let mut pieces = Vec::new(self.alloc);
        pieces.push(Piece::Token(Token::Call(head.as_ref())))?;
        pieces.push(Piece::Tree(*first))?;
        push_arguments(others, &mut pieces)?;
        pieces.push(mark(Mark::Close))?;
        Ok(pieces)
    }

    /// Writes tokens as a text.
    pub fn write(&self, tokens: &[Token], out: &mut String) -> Result<(), Fault> {
        let mut before = None;
        for token in tokens {
            if is_spaced(before, *token) {
                out.push(' ')?;
            }
            token.write(&self.names, out)?;
            before = Some(*token);
        }
        Ok(())
    }
}

// Whether a head is another.
fn is_head(head: &Symbol, other: &Symbol) -> bool
    ensures { result ≡ same_named (symbol_name head.now) (symbol_name other.now) }
{
    laws::symbols_are_what_they_name();
    head == other
}

// What stands before the three parts of `if` and of `let`.
fn keywords_of(head: &Symbol) -> Option<(Mark, Mark, Mark)>
    ensures { result ≡ keywords (symbol_name head.now) }
{
    if is_head(head, &sym::then) {
        Some((Mark::If, Mark::Then, Mark::Else))
    } else if is_head(head, &sym::let_) {
        Some((Mark::Let, Mark::Equals, Mark::In))
    } else {
        None
    }
}

// What a definition with this head begins with.
fn keyword_of(head: &Symbol) -> Mark
    ensures { result ≡ item_mark (symbol_name head.now) }
{
    if is_head(head, &sym::fn_) {
        Mark::Fn
    } else {
        Mark::Let
    }
}

fn mark(mark: Mark) -> Piece
    ensures { result ≡ token_piece (mark_token mark) }
{
    Piece::Token(Token::Mark(mark))
}

// Puts each argument behind a comma.
fn push_arguments(others: &[TermRef], pieces: &mut Vec<Piece>) -> Result<(), AllocError>
    ensures { OnOk result (pieces.new.items ≡ pieces.old.items ++ comma_pieces others.now) }
{
    for term in others {
        pieces.push(mark(Mark::Comma))?;
        pieces.push(Piece::Tree(*term))?;
    }
    Ok(())
}

// Puts pieces on a stack, the first on top.
fn push_all(layout: Vec<Piece>, pieces: &mut Vec<Piece>) -> Result<(), AllocError>
    ensures { OnOk result (reverse pieces.new.items ≡ layout.items ++ reverse pieces.old.items) }
{
    let mut layout = layout;
    while let Some(piece) = layout.pop() {
        pieces.push(piece)?;
    }
    Ok(())
}

// Whether a space stands between two tokens: none behind an open parenthesis, and none before a
// closed one, a comma or a semicolon.
fn is_spaced(before: Option<Token>, token: Token) -> bool {
    match (before, token) {
        (None | Some(Token::Call(_) | Token::Mark(Mark::Open)), _) => false,
        (_, Token::Mark(Mark::Close | Mark::Comma | Mark::Semicolon)) => false,
        _ => true,
    }
}
