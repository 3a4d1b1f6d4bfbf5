//! Versions of a program, a line `---` between two: how large each is, and what changed.
//!
//! A program is a list of items, `fn name(a, b) = expression;` or `let name = expression;`. An
//! expression is a name, a number, a call `f(x, y)`, an infix `+ - * / < ==`, `if c then a else b`,
//! `let x = e in b`, or one in parentheses. A call has at least one argument. `#` begins a comment.
//!
//! Trees are terms, each kept once, and compared by their handles: of two versions only what
//! differs is looked at. A version with an error is told and passed over.
#![tactic(auto)]

pub mod change;
pub mod fault;
pub mod lexer;
mod machine;
mod printer;
mod report;
pub mod session;
pub mod syntax;
pub mod token;
