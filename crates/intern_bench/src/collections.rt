//! The workloads in which entries are collected.
use crate::arguments::Job;
use crate::loops::check_entries;
use crate::memory::Memory;
use crate::nodes::{Node, disown_all, own_all, store_node, store_nodes};
use crate::report::Measurement;
use crate::shapes::Shape;
use anyhow::Result;
use ra_ap_intern::{GarbageCollector, InternStorage, Interned, InternedRef, Refusal};
use std::alloc::Global;
use std::rt::Clock;
use std::time::Instant;

// One of the loops that are timed.
#[derive(Clone, Copy)]
enum Step {
    // Stores the nodes that aren't stored.
    Build,
    // Owns the roots.
    Own,
    // Collects, which keeps all.
    KeepAll,
    // Releases the roots.
    Disown,
    // Collects, which drops all.
    DropAll,
}

// The steps behind the building, with their names in the report.
const STEPS: [(&str, Step); 4] = [
    ("f1", Step::Own),
    ("f2", Step::KeepAll),
    ("f3", Step::Disown),
    ("f4", Step::DropAll),
];

/// Measures the steps over the nodes of a shape, and prints a line for each.
pub(crate) fn measure_all(
    rt: &(impl Clock + Memory + Print),
    alloc: Global,
    job: &Job<'_>,
    shape: Shape,
) -> Result<()> {
    let mut nodes = Nodes::prepare(alloc, shape)?;
    nodes.measure(rt, "f0", Step::Build)?.print(rt, job)?;
    nodes.measure_rest(rt, job)
}

/// The same where the later half of the nodes was collected and is stored again, without the
/// building.
pub(crate) fn measure_churned(
    rt: &(impl Clock + Memory + Print),
    alloc: Global,
    job: &Job<'_>,
    shape: Shape,
) -> Result<()> {
    let mut nodes = Nodes::prepare(alloc, shape)?;
    nodes.churn()?;
    nodes.measure_rest(rt, job)
}

// A storage of nodes, with room for what the loops list.
#[derive(Drop)]
struct Nodes {
    alloc: Global,
    shape: Shape,
    storage: InternStorage<Node>,
    // The stored nodes.
    listed: Vec<InternedRef<Node>>,
    // The handles of the roots.
    roots: Vec<Interned<Node>>,
}

impl Nodes {
    // The lists' room is filled with handles of one entry and emptied again, so that the system has
    // given its pages before any loop is measured.
    fn prepare(alloc: Global, shape: Shape) -> Result<Nodes> {
        let mut storage = InternStorage::new(alloc, 0);
        let extra = store_node(&mut storage, Node::alone(u64::MAX))?;
        let mut nodes = Nodes {
            alloc,
            shape,
            storage,
            listed: Vec::with_capacity(alloc, shape.nodes)?,
            roots: Vec::with_capacity(alloc, shape.roots)?,
        };
        nodes.listed.resize(shape.nodes, extra)?;
        nodes.own()?;
        nodes.disown()?;
        nodes.listed.clear();
        nodes.collect(0)?;
        Ok(nodes)
    }

    fn build(&mut self) -> Result<()> {
        store_nodes(&mut self.storage, &self.shape, &mut self.listed)
    }

    fn own(&mut self) -> Result<()> {
        let first = self.shape.first_root();
        let roots = self.listed.get(first..).ok_or(Refusal::Gone)?;
        own_all(&mut self.storage, roots, &mut self.roots)
    }

    fn disown(&mut self) -> Result<()> {
        disown_all(&mut self.storage, &mut self.roots)?;
        Ok(())
    }

    // Collects, which has to leave so many entries.
    fn collect(&mut self, left: usize) -> Result<()> {
        GarbageCollector::new(self.alloc).collect(&mut self.storage)?;
        check_entries(self.storage.len(), left)
    }

    // Stores the nodes, collects the later half of them, and stores these again.
    fn churn(&mut self) -> Result<()> {
        self.build()?;
        let kept = self.shape.nodes - self.shape.nodes / 2;
        self.listed.truncate(kept);
        let last = self.listed.last().ok_or(Refusal::Gone)?;
        self.roots
            .push(InternedRef::to_owned(*last, &mut self.storage)?)?;
        self.collect(kept)?;
        self.disown()?;
        self.build()
    }

    fn run(&mut self, step: Step) -> Result<()> {
        match step {
            Step::Build => self.build(),
            Step::Own => self.own(),
            Step::KeepAll => self.collect(self.shape.nodes),
            Step::Disown => self.disown(),
            Step::DropAll => self.collect(0),
        }
    }

    // How many calls, or how many entries that a collection looks at, a step has.
    fn operations(&self, step: Step) -> usize {
        match step {
            Step::Own | Step::Disown => self.shape.roots,
            _ => self.shape.nodes,
        }
    }

    fn measure(
        &mut self,
        rt: &(impl Clock + Memory),
        metric: &'static str,
        step: Step,
    ) -> Result<Measurement> {
        rt.forget_peak()?;
        let before = rt.now()?;
        let start = Instant::now(rt)?;
        self.run(step)?;
        let time = start.elapsed(rt)?;
        let memory = match step {
            Step::Build | Step::KeepAll => rt.peak()?.saturating_sub(before),
            _ => 0,
        };
        Ok(Measurement {
            memory,
            ..Measurement::of_time(metric, self.operations(step), time, 0)
        })
    }

    // Measures the steps behind the building.
    fn measure_rest(&mut self, rt: &(impl Clock + Memory + Print), job: &Job<'_>) -> Result<()> {
        for (metric, step) in STEPS {
            self.measure(rt, metric, step)?.print(rt, job)?;
        }
        Ok(())
    }
}
