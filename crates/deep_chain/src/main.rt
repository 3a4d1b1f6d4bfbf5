//! Collects a chain of nodes, each the child of the next: first with an owner of the last, which
//! keeps all, and then without one.
//!
//! `tools/deep_chain` runs it on a small stack. Neither a collection nor the end of a value may
//! take stack for each node of a path.
#![tactic(auto)]

mod node;

use crate::node::{Node, store_chain};
use anyhow::Result;
use ra_ap_intern::{GarbageCollector, InternStorage, Refusal};
use std::alloc::Global;

/// How many nodes there are.
const NODES: u64 = 1_000_000;

fn main(rt: HostRuntime) -> Result<()> {
    let alloc = rt.alloc();
    let mut nodes = InternStorage::new(alloc, 1);
    let last = store_chain(&mut nodes, NODES)?.ok_or(Refusal::Gone)?;
    let owned = last.to_owned(&mut nodes)?;
    collect(&rt, alloc, &mut nodes)?;
    let released = owned.release(&mut nodes);
    released.map_err(|refused| refused.why)?;
    collect(&rt, alloc, &mut nodes)
}

// Collects, and prints what that did.
fn collect(rt: &impl Print, alloc: Global, nodes: &mut InternStorage<Node>) -> Result<()> {
    let did = GarbageCollector::new(alloc).collect(nodes)?;
    println!(rt;
        "visits {}, mark calls {}, removed {}",
        did.visits, did.mark_calls, did.removed
    )?;
    Ok(())
}
