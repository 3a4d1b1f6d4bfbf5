//! A spreadsheet over an incremental cache of queries: reads lines, and writes an answer to each.
#![tactic(auto)]

#[cfg(test)]
mod tests;

use queries::fault::Fault;
use queries::run::answer_all;
use std::alloc::Global;
use std::process::ExitCode;
use text_run::{Program, run};

struct Queries;

impl Program for Queries {
    type Fault = Fault;

    const NAME: &'static str = "queries";

    fn answers(alloc: Global, text: &str) -> Result<String, Fault> {
        answer_all(alloc, text)
    }
}

fn main(rt: HostRuntime) -> ExitCode {
    run::<Queries>(&rt)
}
