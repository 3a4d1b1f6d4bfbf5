//! Values that declare nothing: keys of maps, and parts of pairs, are often such.
use super::GarbageCollector;
use super::visit::GcInternedVisit;
use crate::symbol::{Symbol, SymbolRef};
use intern_table::Text;

impl GcInternedVisit for () {
    ghost use Rattle.std.specs.Prelude.{[]};

    ghost children = { λ _. [] };

    fn visit_with(&self, _gc: &mut GarbageCollector) {}
}

impl GcInternedVisit for u32 {
    ghost use Rattle.std.specs.Prelude.{[]};

    ghost children = { λ _. [] };

    fn visit_with(&self, _gc: &mut GarbageCollector) {}
}

impl GcInternedVisit for u64 {
    ghost use Rattle.std.specs.Prelude.{[]};

    ghost children = { λ _. [] };

    fn visit_with(&self, _gc: &mut GarbageCollector) {}
}

impl GcInternedVisit for usize {
    ghost use Rattle.std.specs.Prelude.{[]};

    ghost children = { λ _. [] };

    fn visit_with(&self, _gc: &mut GarbageCollector) {}
}

impl GcInternedVisit for String {
    ghost use Rattle.std.specs.Prelude.{[]};

    ghost children = { λ _. [] };

    fn visit_with(&self, _gc: &mut GarbageCollector) {}
}

impl GcInternedVisit for Text {
    ghost use Rattle.std.specs.Prelude.{[]};

    ghost children = { λ _. [] };

    fn visit_with(&self, _gc: &mut GarbageCollector) {}
}

impl GcInternedVisit for Symbol {
    ghost use Rattle.std.specs.Prelude.{[]};

    ghost children = { λ _. [] };

    fn visit_with(&self, _gc: &mut GarbageCollector) {}
}

impl GcInternedVisit for SymbolRef {
    ghost use Rattle.std.specs.Prelude.{[]};

    ghost children = { λ _. [] };

    fn visit_with(&self, _gc: &mut GarbageCollector) {}
}
