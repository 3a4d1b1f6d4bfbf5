//! The presets: the texts that every table of symbols knows, each with its place.
//!
//! Places 0 to 255 have the digits of the integers, 256 to 511 the generated names, and those from
//! 512 on the texts of the constants, in rising order of bytes. No call takes memory.
#![tactic(auto)]

pub mod laws;
mod numbers;
mod places;
mod slots;
mod table;
mod texts;

pub use numbers::{digits, generated, number};
pub use places::{place, text};

#[cfg(test)]
mod tests;
