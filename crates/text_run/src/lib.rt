//! Programs that read a text, and write the answers to it.
#![tactic(auto)]

mod place;
#[cfg(test)]
mod tests;
mod words;

pub use place::Place;
use std::alloc::{AllocError, Global};
use std::fmt::Display;
use std::io;
use std::io::{ErrorKind, Read, Write};
use std::process::ExitCode;
use thiserror::Error;
pub use words::{Language, Words};

/// A program that answers a text.
pub trait Program {
    /// Why it gave up.
    type Fault: Display + Drop;

    /// Its name, which stands before what it tells on standard error.
    const NAME: &'static str;

    /// The answers to a text.
    fn answers(alloc: Global, text: &str) -> Result<String, Self::Fault>;
}

/// Why a run gave up. But for `Output`, nothing was written.
#[derive(Debug, Drop, Error)]
enum RunError<F: Display> {
    /// When a read failed.
    #[error("input failed")]
    Input,
    /// When the input isn't UTF-8.
    #[error("input is not UTF-8")]
    NotText,
    /// When there was no memory for the input.
    #[error("out of memory")]
    OutOfMemory(AllocError),
    /// When the program gave up.
    #[error("{0}")]
    Answers(F),
    /// When a write failed: a beginning of the answers was written.
    #[error("output failed")]
    Output,
}

/// Runs a program on standard input and standard output. Where it gives up it tells why, a line on
/// standard error, and the status is 2.
pub fn run<P: Program>(rt: &HostRuntime) -> ExitCode {
    match serve::<P, _, _>(rt.alloc(), rt.stdin(), &mut rt.stdout()) {
        Ok(()) => ExitCode::SUCCESS,
        Err(error) => {
            let _ = eprintln!(rt; "{}: {error}", P::NAME);
            ExitCode::from(2)
        }
    }
}

// Reads all input, answers it in memory, and then writes the answers. A byte order mark at its
// beginning is no part of the text.
fn serve<P: Program, R: Read + Drop, W: Write>(
    alloc: Global,
    input: R,
    output: &mut W,
) -> Result<(), RunError<P::Fault>> {
    let text = io::read_to_string(alloc, input).map_err(|error| match error.kind() {
        ErrorKind::InvalidData => RunError::NotText,
        ErrorKind::OutOfMemory => RunError::OutOfMemory(AllocError),
        _ => RunError::Input,
    })?;
    let text = text.as_str();
    let text = text.strip_prefix('\u{FEFF}').unwrap_or(text);
    let answers = P::answers(alloc, text).map_err(RunError::Answers)?;
    output
        .write_all(answers.as_bytes())
        .map_err(|_| RunError::Output)
}
