//! Kinds of slices, with what they declare.
ghost use Rattle.std.specs.Prelude.{true, []};

use crate::nodes::Node;
use ra_ap_intern::{GarbageCollector, GcInternedSliceVisit, InternedRef, SliceInternable};

/// Numbers behind a text. They declare nothing.
pub struct StringSlice;

impl SliceInternable for StringSlice {
    type Header = String;

    type SliceType = u32;

    const USE_GC: bool = true;

    ghost USE_GC = { true };
}

impl GcInternedSliceVisit for StringSlice {
    ghost header_children = { λ _. [] };

    ghost slice_children = { λ _. [] };

    fn visit_header(_header: &String, _gc: &mut GarbageCollector) {}

    fn visit_slice(_slice: &[u32], _gc: &mut GarbageCollector) {}
}

/// Nodes behind a number. They are declared in order.
pub struct NodeSlice;

impl SliceInternable for NodeSlice {
    type Header = u64;

    type SliceType = InternedRef<Node>;

    const USE_GC: bool = true;

    ghost USE_GC = { true };
}

impl GcInternedSliceVisit for NodeSlice {
    ghost use Rattle.std.specs.Prelude.{map};
    ghost use Rattle.ra_ap_intern.specs.Handle.{ref_name};

    ghost header_children = { λ _. [] };

    ghost slice_children = { λ items. map ref_name items };

    fn visit_header(_header: &u64, _gc: &mut GarbageCollector) {}

    fn visit_slice(slice: &[InternedRef<Node>], gc: &mut GarbageCollector) {
        for child in slice {
            let _ = gc.mark_interned_alive(*child);
        }
    }
}
