//! The workloads in which entries are stored, read and released.
use crate::arguments::Job;
use crate::loops::{
    check_entries, draw_inputs, intern_all, intern_at, make_room, release_all, sum_at,
};
use crate::memory::Memory;
use crate::numbers::{Generator, scattered};
use crate::report::Measurement;
use crate::storage::Storage;
use anyhow::Result;
use std::alloc::{AllocError, Global};
use std::mem;
use std::rt::Clock;
use std::time::Instant;

/// One of the loops that are timed.
#[derive(Clone, Copy)]
pub(crate) enum Step {
    /// Interns every input, none of which is stored.
    Fresh,
    /// Interns every input again.
    Hits,
    /// Reads the entry of every input.
    Reads,
    /// Releases the handles of the hits, which leaves the entries.
    Releases,
    /// Releases the other handles, which removes the entries.
    Removals,
}

/// The steps of entries that are counted, with their names in the report.
pub(crate) const COUNTED: [(&str, Step); 5] = [
    ("a", Step::Fresh),
    ("b", Step::Hits),
    ("c", Step::Reads),
    ("d0", Step::Releases),
    ("d", Step::Removals),
];

/// The steps of slices, with their names in the report.
pub(crate) const SLICES: [(&str, Step); 3] = [
    ("e1", Step::Fresh),
    ("e2", Step::Hits),
    ("e3", Step::Reads),
];

/// Measures the steps over a storage, and prints a line for each.
pub(crate) fn measure_all<S: Storage>(
    rt: &(impl Clock + Memory + Print),
    alloc: Global,
    job: &Job<'_>,
    steps: &[(&'static str, Step)],
) -> Result<()> {
    let mut workload = Workload::<S>::prepare(alloc, job.entries)?;
    for (metric, step) in steps {
        workload.arrange(alloc, *step)?;
        workload.measure(rt, metric, *step)?.print(rt, job)?;
    }
    Ok(())
}

/// A storage, and what its loops take. All of it is made before they are timed.
#[derive(Drop)]
struct Workload<S: Storage> {
    storage: S,
    // How many entries there are once every input is stored.
    entries: usize,
    inputs: Vec<S::Input>,
    // The places of the inputs, in the order of hits and reads.
    order: Vec<usize>,
    // The handles of the fresh inputs.
    handles: Vec<S::Handle>,
    // The handles of the stored ones.
    hits: Vec<S::Handle>,
}

impl<S: Storage> Workload<S> {
    fn prepare(alloc: Global, entries: usize) -> Result<Workload<S>> {
        let mut generator = Generator::of_inputs();
        let inputs = draw_inputs::<S>(alloc, entries, &mut generator)?;
        let extra = S::input(alloc, entries, &mut generator)?;
        let mut storage = S::make(alloc);
        let warm_up = storage.intern(&extra)?;
        let handles = make_room(alloc, &mut storage, &extra, entries)?;
        let hits = make_room(alloc, &mut storage, &extra, entries)?;
        storage.release(warm_up)?;
        Ok(Workload {
            entries: storage.entries().saturating_add(entries),
            storage,
            inputs,
            order: scattered(alloc, entries)?,
            handles,
            hits,
        })
    }

    // Entries are removed in the order of hits and reads.
    fn arrange(&mut self, alloc: Global, step: Step) -> Result<(), AllocError> {
        if let Step::Removals = step {
            let handles = mem::try_take(&mut self.handles)?;
            self.handles = gathered(alloc, handles, &self.order)?;
        }
        Ok(())
    }

    fn run(&mut self, step: Step) -> Result<u64> {
        let storage = &mut self.storage;
        let mut check = 0;
        match step {
            Step::Fresh => intern_all(storage, &self.inputs, &mut self.handles)?,
            Step::Hits => intern_at(storage, &self.inputs, &self.order, &mut self.hits)?,
            Step::Reads => check = sum_at(storage, &self.handles, &self.order)?,
            Step::Releases => release_all(storage, mem::try_take(&mut self.hits)?.into_iter())?,
            Step::Removals => release_all(storage, mem::try_take(&mut self.handles)?.into_iter())?,
        }
        Ok(check)
    }

    // How many entries there must be after a step.
    fn entries_after(&self, step: Step) -> usize {
        match step {
            Step::Removals => 0,
            _ => self.entries,
        }
    }

    fn measure(
        &mut self,
        rt: &(impl Clock + Memory),
        metric: &'static str,
        step: Step,
    ) -> Result<Measurement> {
        let before = rt.now()?;
        let start = Instant::now(rt)?;
        let check = self.run(step)?;
        let time = start.elapsed(rt)?;
        let memory = match step {
            Step::Fresh => rt.peak()?.saturating_sub(before),
            _ => 0,
        };
        check_entries(self.storage.entries(), self.entries_after(step))?;
        Ok(Measurement {
            memory,
            ..Measurement::of_time(metric, self.inputs.len(), time, check)
        })
    }
}

// The handles in the order of these places.
fn gathered<H: Drop>(
    alloc: Global,
    handles: Vec<H>,
    order: &[usize],
) -> Result<Vec<H>, AllocError> {
    let mut slots = handles
        .into_iter()
        .map(Some)
        .collect::<Vec<Option<H>>>(alloc)?;
    order
        .iter()
        .filter_map(|place| slots.get_mut(*place)?.take())
        .collect(alloc)
}
