//! What a sweep keeps.
ghost use Rattle.std.specs.Prelude.{nat_eq};
ghost use Rattle.std.specs.HashSet.{contains};

use intern_store::{Keeps, Spot};
use std::alloc::Global;
use std::collections::HashSet;
use std::process::Abort;

/// Keeps the births that the set has.
#[derive(Drop)]
pub(crate) struct Marked(HashSet<u64>);

impl Keeps for Marked {
    ghost marked = { λ m. contains nat_eq m.0 };

    fn is_marked(&self, spot: Spot) -> bool {
        self.0.contains(&spot.birth)
    }
}

/// Marks that keep these births.
pub(crate) fn marks_of(rt: &impl Abort, alloc: Global, births: &[u64]) -> Marked {
    let mut marks = HashSet::new(alloc);
    for birth in births {
        marks.insert(*birth).expect(rt, "memory");
    }
    Marked(marks)
}

/// Marks that keep the births below this one that a step divides.
pub(crate) fn marks_by(rt: &impl Abort, alloc: Global, births: u64, step: u64) -> Marked {
    let mut marks = HashSet::new(alloc);
    for birth in 0..births {
        if birth.checked_rem(step) == Some(0) {
            marks.insert(birth).expect(rt, "memory");
        }
    }
    Marked(marks)
}
