//! Datalog: reads facts, rules and questions, and writes the answers.
#![tactic(auto)]

#[cfg(test)]
mod tests;

use rules::answers::answer_all;
use rules::fault::Fault;
use std::alloc::Global;
use std::process::ExitCode;
use text_run::{Program, run};

struct Rules;

impl Program for Rules {
    type Fault = Fault;

    const NAME: &'static str = "rules";

    fn answers(alloc: Global, text: &str) -> Result<String, Fault> {
        answer_all(alloc, text)
    }
}

fn main(rt: HostRuntime) -> ExitCode {
    run::<Rules>(&rt)
}
