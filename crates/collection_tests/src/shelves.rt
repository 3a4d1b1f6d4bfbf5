//! A value whose visitor is a line a field.
ghost use Rattle.std.specs.Prelude.{true};

use crate::nodes::{Nodes, intern_leaf};
use crate::steps::{collects_declared, collects_from, intern};
use intern_fixtures::{Node, drop_values, new_values};
use ra_ap_intern::{GarbageCollector, GcInternedVisit, Internable, InternedRef, Pair};
use std::alloc::Global;
use std::process::Abort;

/// Nodes, declared one by one, in a pair, and in a list.
#[derive(Drop, PartialEq, Eq, Hash)]
struct Shelf {
    first: Option<InternedRef<Node>>,
    pair: (InternedRef<Node>, InternedRef<Node>),
    more: Vec<InternedRef<Node>>,
}

impl Internable for Shelf {
    const USE_GC: bool = true;

    ghost USE_GC = { true };
}

impl GcInternedVisit for Shelf {
    ghost use Rattle.std.specs.Prelude.{◌++◌};
    ghost use Rattle.std.specs.List.{flat_map};
    ghost use Rattle.ra_ap_intern.specs.Visitors.{of_option, own_name};

    ghost children = { λ shelf. of_option own_name shelf.first
        ++ (own_name shelf.pair.0 ++ own_name shelf.pair.1)
        ++ flat_map own_name shelf.more.items };

    #[tactic(auto, using(ra_ap_intern::proofs::Visitors::marks_append))]
    fn visit_with(&self, gc: &mut GarbageCollector) {
        self.first.visit_with(gc);
        self.pair.visit_with(gc);
        self.more.visit_with(gc);
    }
}

#[test]
fn each_field_is_visited(rt: HostRuntime) {
    let alloc = rt.alloc();
    let mut nodes: Nodes = new_values(alloc, 1);
    let a = intern_leaf(&rt, alloc, &mut nodes, 0, 0);
    let b = intern_leaf(&rt, alloc, &mut nodes, 1, 1);
    let c = intern_leaf(&rt, alloc, &mut nodes, 2, 2);
    let d = intern_leaf(&rt, alloc, &mut nodes, 3, 3);
    let _alone = intern_leaf(&rt, alloc, &mut nodes, 4, 4);
    let mut more = Vec::new(alloc);
    more.push(d).expect(&rt, "memory");
    let shelf = Shelf {
        first: Some(a),
        pair: (b, c),
        more,
    };
    keeps_four(&rt, shelf, nodes, alloc);
}

/// A collection keeps the shelf, and the four nodes that it declares.
fn keeps_four(rt: &impl Abort, shelf: Shelf, nodes: Nodes, alloc: Global) {
    let mut shelves = new_values(alloc, 2);
    let shelf: InternedRef<Shelf> = intern(rt, &mut shelves, shelf, 0);
    let mut family = Pair {
        first: nodes,
        second: shelves,
    };
    collects_declared(rt, alloc, &mut family, &shelf, (5, 4, 1));
    drop_values(family.first);
    drop_values(family.second);
}

#[test]
fn each_part_of_a_triple_is_visited(rt: HostRuntime) {
    let alloc = rt.alloc();
    let mut nodes: Nodes = new_values(alloc, 1);
    let a = intern_leaf(&rt, alloc, &mut nodes, 0, 0);
    let b = intern_leaf(&rt, alloc, &mut nodes, 1, 1);
    let c = intern_leaf(&rt, alloc, &mut nodes, 2, 2);
    let _alone = intern_leaf(&rt, alloc, &mut nodes, 3, 3);
    collects_from(&rt, alloc, &mut nodes, &(a, b, c), (3, 0, 1));
    assert!(rt; nodes.contains(a) && nodes.contains(b) && nodes.contains(c));
    drop_values(nodes);
}
