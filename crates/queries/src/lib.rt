//! A spreadsheet over an incremental cache of queries: the answers to the lines of a text.
#![tactic(auto)]

pub mod cache;
pub mod fault;
pub mod formula;
pub mod key;
mod needed;
pub mod parser;
mod path;
pub mod place;
pub mod run;
pub mod sheet;
pub mod spreadsheet;
mod token;
pub mod value;
