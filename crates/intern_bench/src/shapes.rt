//! How the nodes of a workload refer to one another.

// How many layers there are where nodes refer to two of the layer below.
const LAYERS: usize = 30;

// How far apart the nodes are that neighbours of a layer refer to, beside those below them.
const SPREAD: usize = 31;

/// Nodes, each of which refers to nodes before it. The last ones are owned.
#[derive(Clone, Copy)]
pub(crate) struct Shape {
    /// How many nodes there are.
    pub(crate) nodes: usize,
    /// How many of them are owned.
    pub(crate) roots: usize,
    links: Links,
}

// What nodes refer to.
#[derive(Clone, Copy)]
enum Links {
    // The node before.
    Previous,
    // The first node.
    First,
    // Two nodes of the layer below. Each layer has so many.
    Below(usize),
}

impl Shape {
    /// Each node but the first refers to the one before it. The last is owned.
    pub(crate) fn chain(nodes: usize) -> Shape {
        Shape {
            nodes,
            roots: nodes.min(1),
            links: Links::Previous,
        }
    }

    /// This many owned nodes, which refer to one more.
    pub(crate) fn fan(roots: usize) -> Shape {
        Shape {
            nodes: roots.saturating_add(1),
            roots,
            links: Links::First,
        }
    }

    /// About this many nodes in layers. Those of the highest are owned.
    pub(crate) fn dag(nodes: usize) -> Shape {
        let width = nodes / LAYERS;
        Shape {
            nodes: width.saturating_mul(LAYERS),
            roots: width,
            links: Links::Below(width.max(1)),
        }
    }

    /// The place of the first owned node.
    pub(crate) fn first_root(&self) -> usize {
        self.nodes.saturating_sub(self.roots)
    }

    /// The places of what the node of a place refers to.
    pub(crate) fn children(&self, place: usize) -> (Option<usize>, Option<usize>) {
        match self.links {
            Links::Previous => (place.checked_sub(1), None),
            Links::First => (place.checked_sub(place.max(1)), None),
            Links::Below(width) => (place.checked_sub(width), across(width, place)),
        }
    }
}

// The place of another node of the layer below.
fn across(width: usize, place: usize) -> Option<usize> {
    let layer = place.checked_div(width)?;
    let column = place.checked_rem(width)?;
    let start = place.saturating_sub(column).checked_sub(width)?;
    let step = column.wrapping_mul(SPREAD).wrapping_add(layer);
    start.checked_add(step.checked_rem(width)?)
}
