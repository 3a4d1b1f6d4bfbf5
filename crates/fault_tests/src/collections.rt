//! Calls of the collector.
mod grove;
pub(crate) mod node;

ghost use Rattle.std.specs.Prelude.{◌≡◌, true};
ghost use Rattle.ra_ap_intern.specs.Families.{are_distinct};

use crate::fault::{Fault, ensure};
use crate::marks;
use grove::{Grove, Left, owns_branch, owns_node};
use ra_ap_intern::{Collected, Family, GarbageCollector, GcInternedVisit, Name};
use std::alloc::{AllocError, Global};
use std::ops::ControlFlow;

/// How many nodes, and how many branches, the large family has.
const LARGE: usize = 256;

/// A call that collects.
#[derive(Clone, Copy)]
pub(crate) enum Collection {
    /// `GarbageCollector::collect`.
    Plain,
    /// `GarbageCollector::collect_keeping`.
    Keeping,
    /// `GarbageCollector::collect_from`.
    From,
    /// `GarbageCollector::trace`, and then `Trace::sweep`.
    Tracing,
}

impl Collection {
    fn name(self) -> &'static str {
        match self {
            Collection::Plain => "GarbageCollector::collect",
            Collection::Keeping => "GarbageCollector::collect_keeping",
            Collection::From => "GarbageCollector::collect_from",
            Collection::Tracing => "GarbageCollector::trace",
        }
    }

    // What it leaves.
    fn left(self) -> Left {
        match self {
            Collection::Plain => Left::Reached,
            Collection::Keeping | Collection::From | Collection::Tracing => Left::Listed,
        }
    }

    // Its answer where there are two nodes and a branch.
    fn small(self) -> Collected {
        match self {
            Collection::Plain => told(2, 0, 1),
            Collection::Keeping | Collection::From | Collection::Tracing => told(3, 0, 0),
        }
    }

    // Its answer for the large family.
    fn large(self) -> Collected {
        match self {
            Collection::Plain => told(224, 64, 288),
            Collection::Keeping | Collection::From | Collection::Tracing => told(288, 96, 224),
        }
    }

    // Makes the call, with a new collector.
    fn collect(
        self,
        rt: &impl Eprint,
        alloc: Global,
        grove: &mut Grove,
    ) -> Result<Collected, Fault> {
        let Grove {
            storages,
            listed,
            roots,
            ..
        } = grove;
        self.collect_family(rt, alloc, storages, listed.as_slice(), roots)
    }

    // Makes it on any family. What holds of a family's parts costs the prover nothing here.
    fn collect_family<F: Family, R: GcInternedVisit>(
        self,
        rt: &impl Eprint,
        alloc: Global,
        family: &mut F,
        listed: &[Name],
        roots: &R,
    ) -> Result<Collected, Fault>
        requires { F.collected ≡ true }
    {
        if !GarbageCollector::distinct(family) {
            return Err(Fault::Wrong("two storages of a family have one number"));
        }
        marks::asks(rt, self.name());
        let gc = GarbageCollector::new(alloc);
        let collected = match self {
            Collection::Plain => gc.collect(family),
            Collection::Keeping => gc.collect_keeping(family, listed),
            Collection::From => gc.collect_from(family, roots),
            Collection::Tracing => trace_and_sweep(rt, gc, family, roots),
        };
        collected.map_err(|_| Fault::NoMemory)
    }

    // Makes the call on a family of so many nodes and so many branches.
    fn check_of(
        self,
        rt: &impl Eprint,
        alloc: Global,
        (nodes, branches): (usize, usize),
        wanted: Collected,
    ) -> Result<(), Fault> {
        marks::prepares(rt);
        let mut grove = Grove::make(alloc, nodes, branches)?;
        self.check_on(rt, alloc, &mut grove, wanted)
    }

    // Makes the call on a family of all entries, once more on what is left, where many places are
    // vacant, and once more where these were used again.
    fn check_on(
        self,
        rt: &impl Eprint,
        alloc: Global,
        grove: &mut Grove,
        wanted: Collected,
    ) -> Result<(), Fault> {
        self.check_once(rt, alloc, grove, Some(Left::All), wanted)?;
        let nothing_removed = Collected {
            removed: 0,
            ..wanted
        };
        self.check_once(rt, alloc, grove, Some(self.left()), nothing_removed)?;
        marks::prepares(rt);
        grove.store_again(self.left())?;
        self.check_once(rt, alloc, grove, None, wanted)
    }

    // Makes the call. Where it is refused, the family is as it was, and the call is made once more.
    fn collect_surely(
        self,
        rt: &impl Eprint,
        alloc: Global,
        grove: &mut Grove,
        before: Option<Left>,
    ) -> Result<Collected, Fault> {
        match self.collect(rt, alloc, grove) {
            Err(Fault::NoMemory) => {
                marks::refused(rt, self.name());
                grove.check_before(before)?;
                self.collect(rt, alloc, grove)
            }
            collected => collected,
        }
    }

    // Makes the call, which has to tell this.
    fn check_once(
        self,
        rt: &impl Eprint,
        alloc: Global,
        grove: &mut Grove,
        before: Option<Left>,
        wanted: Collected,
    ) -> Result<(), Fault> {
        marks::takes_none(rt, "reads");
        grove.check_before(before)?;
        let collected = self.collect_surely(rt, alloc, grove, before)?;
        marks::takes_none(rt, "reads");
        ensure(collected == wanted, "a collection tells something else")?;
        grove.check(self.left())
    }
}

fn trace_and_sweep<F: Family, R: GcInternedVisit>(
    rt: &impl Eprint,
    gc: GarbageCollector,
    family: &mut F,
    roots: &R,
) -> Result<Collected, AllocError>
    requires distinct { are_distinct (F.numbers family.old) ≡ true }
    requires collected { F.collected ≡ true }
{
    let trace = gc.trace(family, roots)?;
    marks::takes_none(rt, "Trace::sweep");
    Ok(trace.sweep(family))
}

fn told(visits: usize, mark_calls: u64, removed: usize) -> Collected {
    Collected {
        visits,
        mark_calls,
        removed,
    }
}

/// Checks a call that collects: on a family of three entries, and on a large one.
pub(crate) fn check_collection(
    rt: &(impl Print + Eprint),
    alloc: Global,
    call: Collection,
) -> Result<(), Fault> {
    call.check_of(rt, alloc, (2, 1), call.small())?;
    call.check_of(rt, alloc, (LARGE, LARGE), call.large())?;
    println!(rt; "{}: {}", call.name(), call.large().visits)?;
    Ok(())
}

/// Checks `register`, and the calls of a collector that take no memory.
pub(crate) fn check_registration(rt: &(impl Print + Eprint), alloc: Global) -> Result<(), Fault> {
    check_registration_of(rt, alloc, 2, 1)?;
    let length = check_registration_of(rt, alloc, LARGE, LARGE)?;
    println!(rt; "GarbageCollector::register: {length}")?;
    Ok(())
}

// Checks them on a family of so many nodes and so many branches, and tells its length.
fn check_registration_of(
    rt: &impl Eprint,
    alloc: Global,
    nodes: usize,
    branches: usize,
) -> Result<usize, Fault> {
    marks::prepares(rt);
    let grove = Grove::make(alloc, nodes, branches)?;
    Registration::check_on(rt, alloc, &grove)
}

/// A collector of a family, and what it has to answer.
#[derive(Drop)]
struct Registration<'a> {
    gc: GarbageCollector,
    grove: &'a Grove,
    is_registered: bool,
    // Whether each entry had a mark call.
    is_marked: bool,
}

impl Registration<'_> {
    // Checks the calls on a family, and tells its length.
    fn check_on(rt: &impl Eprint, alloc: Global, grove: &Grove) -> Result<usize, Fault> {
        let mut registration = Registration {
            gc: GarbageCollector::new(alloc),
            grove,
            is_registered: false,
            is_marked: false,
        };
        registration.check(rt)
    }

    // Registers the family twice. The mark calls after the first are forgotten at the second.
    fn check(&mut self, rt: &impl Eprint) -> Result<usize, Fault> {
        self.mark_all(rt)?;
        self.register(rt)?;
        self.mark_all(rt)?;
        self.register(rt)?;
        self.mark_all(rt)?;
        Ok(self.grove.len())
    }

    // Registers the family. Where that is refused, all is as it was, and it is tried once more.
    fn register(&mut self, rt: &impl Eprint) -> Result<(), Fault> {
        marks::asks(rt, "GarbageCollector::register");
        if self.try_register().is_err() {
            marks::refused(rt, "GarbageCollector::register");
            self.is_as_it_was()?;
            self.try_register()?;
        }
        self.is_registered = true;
        self.is_marked = false;
        marks::takes_none(rt, "reads");
        self.is_as_it_was()
    }

    fn try_register(&mut self) -> Result<(), Fault> {
        register(&mut self.gc, &self.grove.storages)
    }

    fn is_as_it_was(&self) -> Result<(), Fault> {
        self.grove.check(Left::All)?;
        self.check_marks()
    }

    // Fails unless exactly the entries without owners are marked that had a mark call.
    fn check_marks(&self) -> Result<(), Fault> {
        let has_marks = self.is_registered && self.is_marked;
        for (reference, number) in self.grove.nodes.iter().zip(0..) {
            ensure(
                self.gc.is_marked(reference.name()) == (has_marks && !owns_node(number)),
                "the mark of a node is wrong",
            )?;
        }
        for (reference, number) in self.grove.branches.iter().zip(0..) {
            ensure(
                self.gc.is_marked(reference.name()) == (has_marks && !owns_branch(number)),
                "the mark of a slice is wrong",
            )?;
        }
        let calls = if self.is_marked { self.grove.len() } else { 0 };
        ensure(
            self.gc.visits() == 0 && self.gc.mark_calls() == calls as u64,
            "a tally of a collector is wrong",
        )
    }

    // Makes a mark call for each entry.
    fn mark_all(&mut self, rt: &impl Eprint) -> Result<(), Fault> {
        marks::takes_none(rt, "mark calls");
        let is_known = self.is_registered;
        for (reference, number) in self.grove.nodes.iter().zip(0..) {
            let answer = self.gc.mark_interned_alive(*reference);
            ensure(
                answer == flow(is_known && !owns_node(number)),
                "a mark call for a node answers something else",
            )?;
        }
        for (reference, number) in self.grove.branches.iter().zip(0..) {
            let answer = self.gc.mark_interned_slice_alive(*reference);
            ensure(
                answer == flow(is_known && !owns_branch(number)),
                "a mark call for a slice answers something else",
            )?;
        }
        self.is_marked = true;
        self.check_marks()
    }
}

fn register<F: Family>(gc: &mut GarbageCollector, family: &F) -> Result<(), Fault>
    requires { F.collected ≡ true }
{
    if !GarbageCollector::distinct(family) {
        return Err(Fault::Wrong("two storages of a family have one number"));
    }
    gc.register(family)?;
    Ok(())
}

fn flow(marks: bool) -> ControlFlow<()> {
    if marks {
        ControlFlow::Continue(())
    } else {
        ControlFlow::Break(())
    }
}
