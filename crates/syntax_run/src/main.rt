//! Reads versions of a program, a line `---` between two, and tells of each how large it is and
//! what changed.
#![tactic(auto)]

#[cfg(test)]
mod tests;

use std::alloc::Global;
use std::process::ExitCode;
use syntax::fault::Fault;
use syntax::session::answer_all;
use text_run::{Program, run};

struct Syntax;

impl Program for Syntax {
    type Fault = Fault;

    const NAME: &'static str = "syntax";

    fn answers(alloc: Global, text: &str) -> Result<String, Fault> {
        answer_all(alloc, text)
    }
}

fn main(rt: HostRuntime) -> ExitCode {
    run::<Syntax>(&rt)
}
