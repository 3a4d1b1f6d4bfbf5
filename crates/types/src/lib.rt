//! The principal types of a small functional language: those of the declarations of a text.
#![tactic(auto)]

mod copy;
pub mod environment;
pub mod error;
pub mod infer;
pub mod laws;
mod lexer;
pub mod parser;
mod scope;
pub mod session;
pub mod step;
pub mod store;
mod unify;
mod unknowns;
pub mod value;
mod written;
