//! Infers the principal types of a small functional language: reads declarations, and writes the
//! type of each.
#![tactic(auto)]

#[cfg(test)]
mod tests;

use std::alloc::Global;
use std::process::ExitCode;
use text_run::{Program, run};
use types::error::TypeError;
use types::session::answer_all;

struct Types;

impl Program for Types {
    type Fault = TypeError;

    const NAME: &'static str = "types";

    fn answers(alloc: Global, text: &str) -> Result<String, TypeError> {
        answer_all(alloc, text)
    }
}

fn main(rt: HostRuntime) -> ExitCode {
    run::<Types>(&rt)
}
