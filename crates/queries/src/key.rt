//! Queries, and the handles that name them.
ghost use Rattle.std.specs.Prelude.{true, []};

use crate::place::{Block, Place};
use ra_ap_intern::{GarbageCollector, GcInternedVisit, InternStorage, Internable, InternedRef};
use std::fmt;

/// What is made of the values of a block.
#[derive(Clone, Copy, PartialEq, Eq, Hash, Debug)]
pub enum Function {
    /// Their sum. It alone has to fit, and no sum on the way.
    Sum,
    /// The least number.
    Min,
    /// The greatest number.
    Max,
    /// How many numbers there are.
    Count,
}

/// A query.
#[derive(Clone, Copy, PartialEq, Eq, Hash, Debug)]
pub enum Key {
    /// The value of a cell.
    Cell(Place),
    /// What a function makes of a block.
    Total(Function, Block),
}

/// The handle of a query, which names it in the cache.
pub type KeyRef = InternedRef<Key>;

/// The queries that have handles.
pub type Keys = InternStorage<Key>;

impl Internable for Key {
    const USE_GC: bool = true;

    ghost USE_GC = { true };
}

impl GcInternedVisit for Key {
    ghost children = { λ _. [] };

    fn visit_with(&self, _gc: &mut GarbageCollector) {}
}

impl Function {
    /// Its name in a formula.
    pub fn name(self) -> &'static str {
        match self {
            Function::Sum => "SUM",
            Function::Min => "MIN",
            Function::Max => "MAX",
            Function::Count => "COUNT",
        }
    }
}

impl fmt::Display for Key {
    fn fmt<W: fmt::Write>(&self, f: &mut fmt::Formatter<W>) -> fmt::Result {
        match self {
            Key::Cell(place) => write!(f, "{place}"),
            Key::Total(function, block) => write!(f, "{}({block})", function.name()),
        }
    }
}
