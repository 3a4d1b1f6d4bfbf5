//! What the program prints.
use crate::arguments::Job;
use std::io;
use std::time::Duration;

/// What was measured of one loop.
#[derive(Clone, Copy)]
pub(crate) struct Measurement {
    /// The loop's name in the report.
    pub(crate) metric: &'static str,
    /// How many calls the loop made.
    pub(crate) operations: usize,
    /// The time of the loop.
    pub(crate) time: Duration,
    /// The growth of the process's memory in bytes, or 0 where it isn't measured.
    pub(crate) memory: u64,
    /// What every implementation must agree on, or 0.
    pub(crate) check: u64,
}

impl Measurement {
    /// A measurement of time.
    pub(crate) fn of_time(
        metric: &'static str,
        operations: usize,
        time: Duration,
        check: u64,
    ) -> Measurement {
        Measurement {
            metric,
            operations,
            time,
            memory: 0,
            check,
        }
    }

    /// A measurement of memory.
    pub(crate) fn of_memory(metric: &'static str, entries: usize, memory: u64) -> Measurement {
        Measurement {
            metric,
            operations: entries,
            time: Duration::ZERO,
            memory,
            check: 0,
        }
    }

    /// Prints the measurement as a line of values with tabs between.
    pub(crate) fn print(&self, rt: &impl Print, job: &Job<'_>) -> io::Result<()> {
        let Measurement {
            metric,
            operations,
            time,
            memory,
            check,
        } = *self;
        let Job {
            name,
            group_name,
            group: _,
            entries,
        } = job;
        let nanoseconds = time.as_nanos();
        println!(rt;
            "{name}\t{group_name}\t{metric}\t{entries}\t\
             {operations}\t{nanoseconds}\t{memory}\t{check:016x}"
        )
    }
}
