//! Values and kinds of slices that only these tests intern.
ghost use Rattle.std.specs.Prelude.{true, []};
ghost use Rattle.std.specs.Cmp.Rules.{hashing};
ghost use Rattle.std.proofs.Common.{rules};

use intern_fixtures::StringSlice;
use ra_ap_intern::{
    GarbageCollector, GcInternedSliceVisit, GcInternedVisit, Internable, InternedRef,
    InternedSliceRef, SliceInternable,
};
use std::hash::{Hash, Hasher};

/// A value over one slice of numbers, which it declares.
#[derive(Drop, PartialEq, Eq, Hash)]
pub struct Outer(pub InternedSliceRef<StringSlice>);

impl Internable for Outer {
    const USE_GC: bool = true;

    ghost USE_GC = { true };
}

impl GcInternedVisit for Outer {
    ghost use Rattle.std.specs.Prelude.{◌∷◌};
    ghost use Rattle.ra_ap_intern.specs.Handle.{ref_name};

    ghost children = { λ outer. ref_name outer.0 ∷ [] };

    fn visit_with(&self, gc: &mut GarbageCollector) {
        let _ = gc.mark_interned_slice_alive(self.0);
    }
}

/// A value over a slice of values of its own type. It declares the slice, where it is over one.
#[derive(Drop, PartialEq, Eq, Hash)]
pub struct Link(pub Option<InternedSliceRef<LinkSlice>>);

impl Internable for Link {
    const USE_GC: bool = true;

    ghost USE_GC = { true };
}

impl GcInternedVisit for Link {
    ghost use Rattle.std.specs.Prelude.{map, option_to_list};
    ghost use Rattle.ra_ap_intern.specs.Handle.{ref_name};

    ghost children = { λ link. map ref_name (option_to_list link.0) };

    fn visit_with(&self, gc: &mut GarbageCollector) {
        if let Some(slice) = self.0 {
            let _ = gc.mark_interned_slice_alive(slice);
        }
    }
}

/// Links without anything before them, each of which is declared.
pub struct LinkSlice;

impl SliceInternable for LinkSlice {
    type Header = ();

    type SliceType = InternedRef<Link>;

    const USE_GC: bool = true;

    ghost USE_GC = { true };
}

impl GcInternedSliceVisit for LinkSlice {
    ghost use Rattle.std.specs.Prelude.{map};
    ghost use Rattle.ra_ap_intern.specs.Handle.{ref_name};

    ghost header_children = { λ _. [] };

    ghost slice_children = { λ items. map ref_name items };

    fn visit_header(_header: &(), _gc: &mut GarbageCollector) {}

    fn visit_slice(slice: &[InternedRef<Link>], gc: &mut GarbageCollector) {
        for link in slice {
            let _ = gc.mark_interned_alive(*link);
        }
    }
}

/// Items of no size behind a text.
pub struct UnitSlice;

impl SliceInternable for UnitSlice {
    type Header = String;

    type SliceType = ();

    const USE_GC: bool = true;

    ghost USE_GC = { true };
}

impl GcInternedSliceVisit for UnitSlice {
    ghost header_children = { λ _. [] };

    ghost slice_children = { λ _. [] };

    fn visit_header(_header: &String, _gc: &mut GarbageCollector) {}

    fn visit_slice(_slice: &[()], _gc: &mut GarbageCollector) {}
}

/// A number. It declares nothing.
#[derive(Drop, PartialEq, Eq, Hash)]
pub struct Plain(pub u64);

impl Internable for Plain {
    const USE_GC: bool = true;

    ghost USE_GC = { true };
}

impl GcInternedVisit for Plain {
    ghost children = { λ _. [] };

    fn visit_with(&self, _gc: &mut GarbageCollector) {}
}

/// Numbers behind a number. They declare nothing.
pub struct List;

impl SliceInternable for List {
    type Header = u64;

    type SliceType = u64;

    const USE_GC: bool = true;

    ghost USE_GC = { true };
}

impl GcInternedSliceVisit for List {
    ghost header_children = { λ _. [] };

    ghost slice_children = { λ _. [] };

    fn visit_header(_header: &u64, _gc: &mut GarbageCollector) {}

    fn visit_slice(_slice: &[u64], _gc: &mut GarbageCollector) {}
}

/// A number whose hash writes nothing, so that all have the same hash. It declares nothing.
#[derive(Clone, Copy, PartialEq, Eq)]
pub struct Alike(pub u64);

impl Hash for Alike {
    ghost hash_input = { λ _. [] };

    ghost respects_eq = { Prim.search (hashing, rules) };

    fn hash<H: Hasher>(&self, _state: &mut H) {}
}

impl Internable for Alike {
    const USE_GC: bool = true;

    ghost USE_GC = { true };
}

impl GcInternedVisit for Alike {
    ghost children = { λ _. [] };

    fn visit_with(&self, _gc: &mut GarbageCollector) {}
}
