//! Makes the calls that take no memory, and checks each answer, also where they are refused for
//! another reason than want of memory.
//!
//! Marks on standard error say which calls follow (`marks`). Only what prepares them asks for
//! memory, and asks for it once more where it is refused: so the program writes the same, whatever
//! was refused.
#![tactic(auto)]

mod collector;
mod fault;
mod handles;
mod marks;
mod presets;
mod slices;
mod symbols;
mod values;

use crate::fault::Fault;
use std::alloc::Global;
use std::process::ExitCode;

/// Checks the calls of each kind. Another kind joins by a line.
fn check_all(rt: &(impl Print + Eprint), alloc: Global) -> Result<(), Fault> {
    values::check(rt, alloc)?;
    rt.println("values")?;
    slices::check(rt, alloc)?;
    rt.println("slices")?;
    symbols::check(rt, alloc)?;
    rt.println("symbols")?;
    collector::check(rt, alloc)?;
    rt.println("collector")?;
    presets::check(rt)?;
    rt.println("presets")?;
    Ok(())
}

fn main(rt: HostRuntime) -> ExitCode {
    match check_all(&rt, rt.alloc()) {
        Ok(()) => {
            marks::ends(&rt);
            ExitCode::SUCCESS
        }
        Err(fault) => {
            let _ = rt.eprintln(fault.text());
            ExitCode::FAILURE
        }
    }
}
