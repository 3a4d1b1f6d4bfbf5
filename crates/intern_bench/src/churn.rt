//! The workload `churn`: entries come and go.
use crate::arguments::Job;
use crate::loops::{check_entries, draw_inputs, intern_all, make_room, release_all, sum_at};
use crate::memory::Memory;
use crate::numbers::Generator;
use crate::report::Measurement;
use crate::storage::Storage;
use anyhow::Result;
use std::alloc::Global;
use std::rt::Clock;
use std::time::{Duration, Instant};

// How often half of the entries go and as many come.
const ROUNDS: usize = 4;

/// Measures a storage in which entries come and go, and prints a line for each loop, and for the
/// memory at its peak and at the end.
pub(crate) fn measure_all<S: Storage>(
    rt: &(impl Clock + Memory + Print),
    alloc: Global,
    job: &Job<'_>,
) -> Result<()> {
    let entries = job.entries;
    let mut churn = Churn::<S>::prepare(alloc, entries)?;
    let before = rt.now()?;
    churn.settle()?;
    churn
        .measure_reads(rt, "h1", &churn.survivors)?
        .print(rt, job)?;
    churn.measure_rounds(rt)?.print(rt, job)?;
    churn.measure_reads(rt, "h3", &churn.live)?.print(rt, job)?;
    let peak = rt.peak()?.saturating_sub(before);
    Measurement::of_memory("h4", entries, peak).print(rt, job)?;
    let now = rt.now()?.saturating_sub(before);
    Measurement::of_memory("h5", entries, now).print(rt, job)?;
    check_entries(churn.storage.entries(), entries)
}

/// A storage, and what its loops take. All of it is made before they are timed.
#[derive(Drop)]
struct Churn<S: Storage> {
    storage: S,
    // What is interned first.
    first: Vec<S::Input>,
    // What takes the place of every second one.
    second: Vec<S::Input>,
    // What comes in the rounds.
    others: Vec<S::Input>,
    // Draws the orders.
    orders: Generator,
    // The places of the handles that survive the first releases, in the order of reads.
    survivors: Vec<usize>,
    // The same of all live handles.
    live: Vec<usize>,
    // The handles of the live entries.
    handles: Vec<S::Handle>,
}

impl<S: Storage> Churn<S> {
    fn prepare(alloc: Global, entries: usize) -> Result<Churn<S>> {
        let half = entries / 2;
        let mut generator = Generator::of_inputs();
        let first = draw_inputs::<S>(alloc, entries, &mut generator)?;
        let second = draw_inputs::<S>(alloc, half, &mut generator)?;
        let others = draw_inputs::<S>(alloc, half.saturating_mul(ROUNDS), &mut generator)?;
        let extra = S::input(alloc, entries, &mut generator)?;
        let mut orders = Generator::of_orders();
        let mut storage = S::make(alloc);
        let warm_up = storage.intern(&extra)?;
        let handles = make_room(alloc, &mut storage, &extra, entries)?;
        storage.release(warm_up)?;
        Ok(Churn {
            storage,
            handles,
            first,
            second,
            others,
            survivors: orders.shuffled(alloc, entries - half)?,
            live: orders.shuffled(alloc, entries)?,
            orders,
        })
    }

    // Stores the first entries, and puts others in the place of every second one.
    fn settle(&mut self) -> Result<()> {
        intern_all(&mut self.storage, &self.first, &mut self.handles)?;
        let mut leaves = true;
        let leaving = self.handles.extract_if(.., |_| {
            leaves = !leaves;
            leaves
        });
        release_all(&mut self.storage, leaving)?;
        intern_all(&mut self.storage, &self.second, &mut self.handles)
    }

    fn measure_reads(
        &self,
        rt: &impl Clock,
        metric: &'static str,
        order: &[usize],
    ) -> Result<Measurement> {
        let start = Instant::now(rt)?;
        let check = sum_at(&self.storage, &self.handles, order)?;
        Ok(Measurement::of_time(metric, order.len(), start.elapsed(rt)?, check))
    }

    // In each round drawn entries go, and others come.
    fn measure_rounds(&mut self, rt: &impl Clock) -> Result<Measurement> {
        let mut time = Duration::ZERO;
        let half = self.second.len();
        for others in self.others.chunks(half.max(1)) {
            self.orders.shuffle_tail(&mut self.handles, half);
            let start = Instant::now(rt)?;
            let leaving = (0..half).map_while(|_| self.handles.pop());
            release_all(&mut self.storage, leaving)?;
            intern_all(&mut self.storage, others, &mut self.handles)?;
            time = time.saturating_add(start.elapsed(rt)?);
        }
        Ok(Measurement::of_time("h2", self.others.len(), time, 0))
    }
}
