//! Measures the library: the time of its calls, and the memory of its entries.
#![tactic(auto)]

mod arguments;
mod churn;
mod collections;
mod keepers;
mod loops;
mod memory;
mod nodes;
mod numbers;
mod report;
mod shapes;
mod slices;
mod storage;
mod symbols;
mod terms;
mod values;
mod workload;

use anyhow::Result;
use arguments::{Group, Job, USAGE};
use intern_terms::TermStore;
use keepers::Bare;
use memory::Memory;
use ra_ap_intern::{InternSliceStorage, InternStorage, NearSliceStorage, SymbolTable};
use shapes::Shape;
use slices::Row;
use std::alloc::Global;
use std::env;
use std::process::ExitCode;
use std::rt::Clock;
use terms::{BARE, TERMS};
use values::Number;
use workload::{COUNTED, SLICES};

// The exit status of a call with wrong arguments.
const WRONG_ARGUMENTS: u8 = 2;

fn measure_group(rt: &(impl Clock + Memory + Print), alloc: Global, job: &Job<'_>) -> Result<()> {
    match job.group {
        Group::Symbols => workload::measure_all::<SymbolTable>(rt, alloc, job, &COUNTED),
        Group::Values => workload::measure_all::<InternStorage<Number>>(rt, alloc, job, &COUNTED),
        Group::Churn => churn::measure_all::<InternStorage<Number>>(rt, alloc, job),
        Group::Slices => workload::measure_all::<InternSliceStorage<Row>>(rt, alloc, job, &SLICES),
        Group::Near => workload::measure_all::<NearSliceStorage<Row, 4>>(rt, alloc, job, &SLICES),
        Group::Chain => collections::measure_all(rt, alloc, job, Shape::chain(job.entries)),
        Group::Fan => collections::measure_all(rt, alloc, job, Shape::fan(job.entries)),
        Group::Dag => collections::measure_all(rt, alloc, job, Shape::dag(job.entries)),
        Group::Churned => collections::measure_churned(rt, alloc, job, Shape::chain(job.entries)),
        Group::Terms => terms::measure_all::<TermStore>(rt, alloc, job, &TERMS),
        Group::Bare => terms::measure_all::<InternSliceStorage<Bare>>(rt, alloc, job, &BARE),
    }
}

fn run(
    rt: &(impl Clock + Memory + Print + Eprint),
    alloc: Global,
    words: &[String],
) -> Result<ExitCode> {
    if words.len() < 2 {
        println!(rt; "{USAGE}")?;
        return Ok(ExitCode::SUCCESS);
    }
    match Job::parse(words) {
        Ok(job) => {
            measure_group(rt, alloc, &job)?;
            Ok(ExitCode::SUCCESS)
        }
        Err(error) => {
            eprintln!(rt; "intern_bench: {error}; {USAGE}")?;
            Ok(ExitCode::from(WRONG_ARGUMENTS))
        }
    }
}

fn main(rt: HostRuntime) -> Result<ExitCode> {
    let words = env::args(&rt)?.collect::<Vec<String>>(rt.alloc())?;
    run(&rt, rt.alloc(), &words)
}
