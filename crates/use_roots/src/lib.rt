//! A collection from roots, over values of three types.
#![tactic(auto)]

ghost use Rattle.std.specs.Prelude.{◌≡◌, ◌+◌, ℕ, true, [], ◌∷◌, List, Some, IfOk, OnErr};
ghost use Rattle.ra_ap_intern.specs.Families.{IsCollection, are_distinct};
ghost use Rattle.ra_ap_intern.specs.Handle.{ref_name};
ghost use Rattle.ra_ap_intern.specs.Name.{Name};
ghost use Rattle.ra_ap_intern.specs.Names.{has};
ghost use Rattle.ra_ap_intern.specs.Reach.{Reached};
ghost use Rattle.ra_ap_intern.specs.State.{reads, counts};
ghost use Rattle.use_roots.specs.Code.{of_word, of_class, of_method, names_in, classes_in, methods_in, entries_in, begins_at, cut};

use ra_ap_intern::{
    Collected, GarbageCollector, GcInternedVisit, InternStorage, Internable, InternedRef, Pair,
    Text,
};
use std::alloc::{AllocError, Global};

/// A name.
#[derive(Drop, PartialEq, Eq, Hash)]
pub struct Word(pub Text);

/// A class: its name, and its bases.
#[derive(Drop, PartialEq, Eq, Hash)]
pub struct Class(pub InternedRef<Word>, pub Vec<InternedRef<Class>>);

/// A method: its name, and its class.
#[derive(Drop, PartialEq, Eq, Hash)]
pub struct Method(pub InternedRef<Word>, pub InternedRef<Class>);

impl Internable for Word {
    const USE_GC: bool = true;

    ghost USE_GC = { true };
}

impl Internable for Class {
    const USE_GC: bool = true;

    ghost USE_GC = { true };
}

impl Internable for Method {
    const USE_GC: bool = true;

    ghost USE_GC = { true };
}

impl GcInternedVisit for Word {
    ghost children = { of_word };

    fn visit_with(&self, _gc: &mut GarbageCollector) {}
}

impl GcInternedVisit for Class {
    ghost children = { of_class };

    #[tactic(auto, using(ra_ap_intern::proofs::Visitors::marks_append))]
    fn visit_with(&self, gc: &mut GarbageCollector) {
        self.0.visit_with(gc);
        self.1.visit_with(gc);
    }
}

impl GcInternedVisit for Method {
    ghost children = { of_method };

    fn visit_with(&self, gc: &mut GarbageCollector) {
        (self.0, self.1).visit_with(gc);
    }
}

/// Names, classes and methods.
pub type Code = Pair<Pair<InternStorage<Word>, InternStorage<Class>>, InternStorage<Method>>;

/// Removes what is neither counted, nor one of these two, nor declared by what stays. Where there
/// is no memory, `AllocError`, and nothing has changed.
pub fn collect(
    alloc: Global,
    code: &mut Code,
    class: InternedRef<Class>,
    method: InternedRef<Method>,
) -> Result<Collected, AllocError>
    requires distinct { are_distinct ((names_in code.old).number ∷ (classes_in code.old).number
        ∷ (methods_in code.old).number ∷ []) ≡ true }
    ensures ok { let begins = begins_at (ref_name class) (ref_name method) code.old in
        IfOk result (λ told. (kept : List Name)
        × IsCollection begins (entries_in code.old) kept told
        × (code.new ≡ cut code.old (has kept))) }
    ensures err { OnErr result (code.new ≡ code.old) }
    ensures class { reads (classes_in code.new) (ref_name class)
        ≡ reads (classes_in code.old) (ref_name class) }
    ensures method { reads (methods_in code.new) (ref_name method)
        ≡ reads (methods_in code.old) (ref_name method) }
    ensures reached { (n : Name) →
        Reached (begins_at (ref_name class) (ref_name method) code.old) (entries_in code.old) n →
        (reads (names_in code.new) n ≡ reads (names_in code.old) n)
        × (reads (classes_in code.new) n ≡ reads (classes_in code.old) n)
        × (reads (methods_in code.new) n ≡ reads (methods_in code.old) n) }
    ensures counted { (n : Name) (c : ℕ) → counts (names_in code.old) n ≡ Some (c + 1) →
        (reads (names_in code.new) n ≡ reads (names_in code.old) n)
        × (counts (names_in code.new) n ≡ Some (c + 1)) }
{
    let roots = [class.name(), method.name()];
    GarbageCollector::new(alloc).collect_keeping(code, &roots)
}
