//! The kinds of slices that the tests intern.
ghost use Rattle.std.specs.Prelude.{true, []};

use intern_fixtures::{Unhashed, Word};
use ra_ap_intern::{GarbageCollector, GcInternedSliceVisit, SliceInternable};

/// Numbers behind a word. They declare nothing.
pub struct Numbers;

impl SliceInternable for Numbers {
    type Header = Word;

    type SliceType = u64;

    const USE_GC: bool = true;

    ghost USE_GC = { true };
}

impl GcInternedSliceVisit for Numbers {
    ghost header_children = { λ _. [] };

    ghost slice_children = { λ _. [] };

    fn visit_header(_header: &Word, _gc: &mut GarbageCollector) {}

    fn visit_slice(_slice: &[u64], _gc: &mut GarbageCollector) {}
}

/// Items of no size behind a word.
pub struct Units;

impl SliceInternable for Units {
    type Header = Word;

    type SliceType = ();

    const USE_GC: bool = true;

    ghost USE_GC = { true };
}

/// A number with a mark, which is neither compared nor hashed.
#[derive_where(Clone, Copy, Debug, PartialEq, Eq, Hash)]
pub struct Marked {
    pub number: u64,
    #[derive_where(skip(EqHashOrd))]
    pub mark: u64,
}

/// Marked numbers behind a marked number.
pub struct MarkedNumbers;

impl SliceInternable for MarkedNumbers {
    type Header = Marked;

    type SliceType = Marked;

    const USE_GC: bool = true;

    ghost USE_GC = { true };
}

/// Numbers behind a number, where no number writes anything to a hash.
pub struct UnhashedNumbers;

impl SliceInternable for UnhashedNumbers {
    type Header = Unhashed;

    type SliceType = Unhashed;

    const USE_GC: bool = true;

    ghost USE_GC = { true };
}
