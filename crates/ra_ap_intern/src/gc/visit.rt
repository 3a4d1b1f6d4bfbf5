//! What values declare.
ghost use Rattle.std.specs.Prelude.{◌≡◌};
ghost use Rattle.intern_marks.specs.Marks.{marks};

use super::GarbageCollector;
use crate::intern_slice::SliceInternable;

/// A value that declares which entries it needs: a collection keeps these with it.
///
/// A visit marks each of its references by [`GarbageCollector::mark_interned_alive`] or
/// [`GarbageCollector::mark_interned_slice_alive`], and nothing more: the collector goes on from
/// there.
pub trait GcInternedVisit {
    ghost use Rattle.std.specs.Prelude.{List};
    ghost use Rattle.intern_store.specs.declared.names.Name.{Name};

    // The names that a value declares.
    ghost children: { Self → List Name };

    /// Marks what the value declares, in the order of `children`.
    fn visit_with(&self, gc: &mut GarbageCollector)
        ensures { gc.new ≡ marks gc.old (children self.now) };
}

/// A kind of slices whose headers and items declare which entries they need.
pub trait GcInternedSliceVisit: SliceInternable {
    ghost use Rattle.std.specs.Prelude.{List};
    ghost use Rattle.intern_store.specs.declared.names.Name.{Name};

    // The names that a header declares.
    ghost header_children: { Self.Header → List Name };

    // The names that a list of items declares.
    ghost slice_children: { List Self.SliceType → List Name };

    /// Marks what a header declares, in the order of `header_children`.
    fn visit_header(header: &Self::Header, gc: &mut GarbageCollector)
        ensures { gc.new ≡ marks gc.old (header_children header.now) };

    /// Marks what a list of items declares, in the order of `slice_children`.
    fn visit_slice(slice: &[Self::SliceType], gc: &mut GarbageCollector)
        ensures { gc.new ≡ marks gc.old (slice_children slice.now) };
}
