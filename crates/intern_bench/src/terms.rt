//! The workload of terms: leaves, each with a head of its own, and as many terms over two leaves.
//!
//! The lower half of the places are leaves, whose heads are the symbols of `x` and the place.
//! Behind them, the terms have one head, `upper`: the one that stands `i` places behind the first
//! is over the leaves `i` and `7 i + 3` modulo the number of leaves. So no two terms are equal.
use crate::arguments::Job;
use crate::keepers::Keeper;
use crate::loops::check_entries;
use crate::memory::Memory;
use crate::numbers::scattered;
use crate::report::Measurement;
use anyhow::Result;
use ra_ap_intern::{Refusal, Symbol, SymbolTable};
use std::alloc::Global;
use std::rt::Clock;
use std::time::Instant;

/// One of the loops that are timed.
#[derive(Clone, Copy)]
pub(crate) enum Step {
    /// Stores every term, none of which is stored.
    Build,
    /// Stores every term again.
    Find,
    /// Reads the head and the arguments of every term.
    Read,
    /// Compares every handle with the one that was found again.
    Compare,
    /// Walks the trees of the upper terms.
    Walk,
    /// Keeps the upper terms, and collects, which keeps all.
    KeepAll,
    /// Releases them, and collects, which drops all.
    DropAll,
}

/// The steps of a store of terms, with their names in the report.
pub(crate) const TERMS: [(&str, Step); 7] = [
    ("t1", Step::Build),
    ("t2", Step::Find),
    ("t3", Step::Read),
    ("t4", Step::Compare),
    ("t5", Step::Walk),
    ("t6", Step::KeepAll),
    ("t7", Step::DropAll),
];

/// Those of a storage that has no walks.
pub(crate) const BARE: [(&str, Step); 6] = [
    ("t1", Step::Build),
    ("t2", Step::Find),
    ("t3", Step::Read),
    ("t4", Step::Compare),
    ("t6", Step::KeepAll),
    ("t7", Step::DropAll),
];

/// Measures the steps, and prints a line for each.
pub(crate) fn measure_all<K: Keeper>(
    rt: &(impl Clock + Memory + Print),
    alloc: Global,
    job: &Job<'_>,
    steps: &[(&'static str, Step)],
) -> Result<()> {
    let mut workload = Workload::<K>::prepare(alloc, job.entries)?;
    for (metric, step) in steps {
        workload.measure(rt, metric, *step)?.print(rt, job)?;
    }
    Ok(())
}

// What keeps terms, and what the loops take. All of it is made before they are timed.
#[derive(Drop)]
struct Workload<K: Keeper> {
    alloc: Global,
    keeper: K,
    // How many leaves there are, and how many terms.
    leaves: usize,
    entries: usize,
    // The head of the upper terms.
    upper: Symbol,
    // A head for each term that is built, and one for each that is found again.
    heads: Vec<Symbol>,
    heads_again: Vec<Symbol>,
    // The places of the terms, in the order in which they are found again and read.
    order: Vec<usize>,
    // The terms, and in that order those that were found again.
    terms: Vec<K::Handle>,
    found: Vec<K::Handle>,
    // The upper terms, while they are kept.
    kept: Vec<K::Owned>,
}

impl<K: Keeper> Workload<K> {
    // The lists' room is filled with handles of one term and emptied again, so that the system has
    // given its pages before any loop is measured.
    fn prepare(alloc: Global, entries: usize) -> Result<Workload<K>> {
        let mut table = SymbolTable::new(alloc, 1);
        let mut keeper = K::make(alloc);
        let extra = keeper.store_leaf(symbol(&mut table, "warm-up")?)?;
        let places = (0..entries).collect::<Vec<usize>>(alloc)?;
        let order = scattered(alloc, entries)?;
        let leaves = entries - entries / 2;
        let mut workload = Workload {
            alloc,
            keeper,
            leaves,
            entries,
            upper: head(alloc, &mut table, leaves, leaves)?,
            heads: heads(alloc, &mut table, leaves, &places)?,
            heads_again: heads(alloc, &mut table, leaves, &order)?,
            order,
            terms: Vec::with_capacity(alloc, entries)?,
            found: Vec::with_capacity(alloc, entries)?,
            kept: Vec::with_capacity(alloc, entries / 2)?,
        };
        workload.terms.resize(entries, extra)?;
        workload.found.resize(entries, extra)?;
        workload.keep()?;
        workload.drop_all()?;
        workload.terms.clear();
        workload.found.clear();
        Ok(workload)
    }

    fn build(&mut self) -> Result<()> {
        for head in self.heads.drain(..) {
            let place = self.terms.len();
            let term = store_at(&mut self.keeper, &self.terms, self.leaves, place, head)?;
            self.terms.push(term)?;
        }
        Ok(())
    }

    fn find(&mut self) -> Result<()> {
        for head in self.heads_again.drain(..) {
            let place = *self.order.get(self.found.len()).ok_or(Refusal::Gone)?;
            let term = store_at(&mut self.keeper, &self.terms, self.leaves, place, head)?;
            self.found.push(term)?;
        }
        Ok(())
    }

    // The sum over all terms: one more than the place, times what its reading tells.
    fn read(&self) -> Result<u64> {
        let first = *self.terms.first().ok_or(Refusal::Gone)?;
        let mut sum = 0u64;
        for place in &self.order {
            let term = *self.terms.get(*place).ok_or(Refusal::Gone)?;
            let (head, args) = self.keeper.read(term).ok_or(Refusal::Gone)?;
            let told = told::<K>(*head == self.upper, args, first);
            sum = sum.wrapping_add((*place as u64).wrapping_add(1).wrapping_mul(told));
        }
        Ok(sum)
    }

    // How many terms are those that were found again.
    fn compare(&self) -> Result<u64> {
        let mut equal = 0u64;
        for (place, found) in self.order.iter().zip(self.found.iter()) {
            let term = self.terms.get(*place).ok_or(Refusal::Gone)?;
            equal = equal.wrapping_add(u64::from(*term == *found));
        }
        Ok(equal)
    }

    fn walk(&self) -> Result<u64> {
        let roots = self.terms.get(self.leaves..).ok_or(Refusal::Gone)?;
        Ok(self.keeper.walked(roots)? as u64)
    }

    fn keep(&mut self) -> Result<()> {
        for term in self.terms.get(self.leaves..).ok_or(Refusal::Gone)? {
            self.kept.push(self.keeper.keep(*term)?)?;
        }
        Ok(())
    }

    // Collects, which has to leave so many terms.
    fn collect(&mut self, left: usize) -> Result<()> {
        self.keeper.sweep(self.alloc)?;
        check_entries(self.keeper.entries(), left)
    }

    fn keep_all(&mut self) -> Result<()> {
        self.keep()?;
        self.collect(self.entries)
    }

    fn drop_all(&mut self) -> Result<()> {
        for term in self.kept.drain(..) {
            self.keeper.give_up(term)?;
        }
        self.collect(0)
    }

    fn run(&mut self, step: Step) -> Result<u64> {
        match step {
            Step::Build => self.build()?,
            Step::Find => self.find()?,
            Step::Read => return self.read(),
            Step::Compare => return self.compare(),
            Step::Walk => return self.walk(),
            Step::KeepAll => self.keep_all()?,
            Step::DropAll => self.drop_all()?,
        }
        Ok(0)
    }

    fn measure(
        &mut self,
        rt: &(impl Clock + Memory),
        metric: &'static str,
        step: Step,
    ) -> Result<Measurement> {
        rt.forget_peak()?;
        let before = rt.now()?;
        let start = Instant::now(rt)?;
        let check = self.run(step)?;
        let time = start.elapsed(rt)?;
        let memory = match step {
            Step::Build | Step::Walk => rt.peak()?.saturating_sub(before),
            _ => 0,
        };
        Ok(Measurement {
            memory,
            ..Measurement::of_time(metric, self.entries, time, check)
        })
    }
}

// The head of the term of a place.
fn head(alloc: Global, table: &mut SymbolTable, leaves: usize, place: usize) -> Result<Symbol> {
    if place < leaves {
        let text = format!(in alloc; "x{place}")?;
        Ok(symbol(table, text.as_str())?)
    } else {
        Ok(symbol(table, "upper")?)
    }
}

// The symbol of a text. With the calls of this in it, `head` took the prover far longer.
fn symbol(table: &mut SymbolTable, text: &str) -> Result<Symbol, Refusal> {
    Symbol::intern(table, text)
}

// The heads of the terms of these places.
fn heads(
    alloc: Global,
    table: &mut SymbolTable,
    leaves: usize,
    places: &[usize],
) -> Result<Vec<Symbol>> {
    let mut heads = Vec::with_capacity(alloc, places.len())?;
    for place in places {
        heads.push(head(alloc, table, leaves, *place)?)?;
    }
    Ok(heads)
}

// Stores the term of a place, whose leaves are among the terms.
fn store_at<K: Keeper>(
    keeper: &mut K,
    terms: &[K::Handle],
    leaves: usize,
    place: usize,
    head: Symbol,
) -> Result<K::Handle, Refusal> {
    let Some(upper) = place.checked_sub(leaves) else {
        return keeper.store_leaf(head);
    };
    let other = upper.wrapping_mul(7).wrapping_add(3).checked_rem(leaves);
    let first = terms.get(upper).ok_or(Refusal::Gone)?;
    let second = terms.get(other.unwrap_or(0)).ok_or(Refusal::Gone)?;
    keeper.store_upper(head, *first, *second)
}

// What a term adds to the sum of all that is read: whether its head is that of the upper terms, how
// many arguments it has, and how many of them are the first leaf.
fn told<K: Keeper>(is_upper: bool, args: &[K::Handle], first: K::Handle) -> u64 {
    let mut told = u64::from(is_upper).wrapping_add((args.len() as u64).wrapping_mul(2));
    for argument in args {
        told = told.wrapping_add(u64::from(*argument == first).wrapping_mul(3));
    }
    told
}
