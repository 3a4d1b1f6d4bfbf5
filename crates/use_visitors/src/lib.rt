//! Values that declare what they need: a visitor is a line a field.
#![tactic(auto)]

ghost use Rattle.std.specs.Prelude.{true, ◌++◌};
ghost use Rattle.std.specs.List.{flat_map};
ghost use Rattle.ra_ap_intern.specs.Visitors.{of_option, own_name};

use ra_ap_intern::{
    GarbageCollector, GcInternedSliceVisit, GcInternedVisit, Internable, InternedRef,
    SliceInternable,
};

/// A type: of a name, or the lists of another.
#[derive(Drop, PartialEq, Eq, Hash)]
pub enum TypeNode {
    Named(u32),
    List(InternedRef<TypeNode>),
}

impl Internable for TypeNode {
    const USE_GC: bool = true;

    ghost USE_GC = { true };
}

impl GcInternedVisit for TypeNode {
    ghost use Rattle.use_visitors.specs.Types.{of_type};

    ghost children = { of_type };

    fn visit_with(&self, gc: &mut GarbageCollector) {
        match self {
            TypeNode::Named(_) => {}
            TypeNode::List(item) => item.visit_with(gc),
        }
    }
}

/// The types of a method.
#[derive(Drop, PartialEq, Eq, Hash)]
pub struct Signature {
    pub receiver: Option<InternedRef<TypeNode>>,
    pub bound: (InternedRef<TypeNode>, InternedRef<TypeNode>),
    pub answers: [InternedRef<TypeNode>; 2],
    pub parameters: Vec<InternedRef<TypeNode>>,
}

impl GcInternedVisit for Signature {
    ghost children = { λ s. of_option own_name s.receiver
        ++ (own_name s.bound.0 ++ own_name s.bound.1)
        ++ flat_map own_name s.answers
        ++ flat_map own_name s.parameters.items };

    #[tactic(auto, using(ra_ap_intern::proofs::Visitors::marks_append))]
    fn visit_with(&self, gc: &mut GarbageCollector) {
        // Taken apart whole, so that the compiler shows a field that isn't visited.
        let Signature {
            receiver,
            bound,
            answers,
            parameters,
        } = self;
        receiver.visit_with(gc);
        bound.visit_with(gc);
        answers.visit_with(gc);
        parameters.visit_with(gc);
    }
}

/// Signatures, each before the types that it is used at.
pub struct Uses;

impl SliceInternable for Uses {
    type Header = Signature;

    type SliceType = InternedRef<TypeNode>;

    const USE_GC: bool = true;

    ghost USE_GC = { true };
}

impl GcInternedSliceVisit for Uses {
    ghost header_children = { ⟦<Signature as GcInternedVisit>⟧.children };

    ghost slice_children = { flat_map own_name };

    fn visit_header(header: &Signature, gc: &mut GarbageCollector) {
        header.visit_with(gc);
    }

    fn visit_slice(slice: &[InternedRef<TypeNode>], gc: &mut GarbageCollector) {
        gc.mark_all(slice);
    }
}
