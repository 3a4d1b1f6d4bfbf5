//! A family of two storages, and what it has to answer.
use super::node::{Branch, Node, items_of};
use crate::fault::{Fault, ensure};
use crate::scene::room;
use ra_ap_intern::{
    GarbageCollector, HeaderSlice, InternSliceStorage, InternStorage, Interned, InternedRef,
    InternedSlice, InternedSliceRef, Name, NoStorages, Pair, Refused,
};
use std::alloc::Global;

/// A storage of nodes, and one of branches.
pub(crate) type Storages = Pair<Pair<NoStorages, InternStorage<Node>>, InternSliceStorage<Branch>>;

/// Which entries are left.
#[derive(Clone, Copy)]
pub(crate) enum Left {
    /// All that were stored.
    All,
    /// Those that paths from owned entries reach.
    Reached,
    /// Those, and those that paths from listed entries reach.
    Listed,
}

/// A family with a reference to each entry. The nodes have the numbers, and the births, from 0 on,
/// and so have the branches.
///
/// Of four nodes the first is owned, and the last declares the one before it. Of eight branches
/// these are owned: 0, 3 and 4. Numbers 3 and 7 declare the node of their number.
#[derive(Drop)]
pub(crate) struct Grove {
    pub(crate) storages: Storages,
    pub(crate) nodes: Vec<InternedRef<Node>>,
    pub(crate) branches: Vec<InternedSliceRef<Branch>>,
    /// The names of some entries that aren't owned.
    pub(crate) listed: Vec<Name>,
    /// References to the same entries.
    pub(crate) roots: (Vec<InternedRef<Node>>, Vec<InternedSliceRef<Branch>>),
}

/// Whether the node of a number is owned.
pub(crate) fn owns_node(number: usize) -> bool {
    number % 4 == 0
}

/// Whether the branch of a number is owned.
pub(crate) fn owns_branch(number: usize) -> bool {
    matches!(number % 8, 0 | 3 | 4)
}

// Whether the node of a number is listed.
fn lists_node(number: usize) -> bool {
    number % 16 == 1
}

// Whether the branch of a number is listed.
fn lists_branch(number: usize) -> bool {
    number % 16 == 7
}

impl Left {
    /// Whether the node of a number is left.
    fn has_node(self, number: usize) -> bool {
        let is_reached = matches!(number % 8, 0 | 2 | 3 | 4);
        match self {
            Left::All => true,
            Left::Reached => is_reached,
            Left::Listed => is_reached || matches!(number % 16, 1 | 6 | 7),
        }
    }

    /// Whether the branch of a number is left.
    fn has_branch(self, number: usize) -> bool {
        match self {
            Left::All => true,
            Left::Reached => owns_branch(number),
            Left::Listed => owns_branch(number) || lists_branch(number),
        }
    }

    // How many of so many nodes and so many branches are left.
    fn lengths(self, nodes: usize, branches: usize) -> (usize, usize) {
        (
            (0..nodes).filter(|number| self.has_node(*number)).count(),
            (0..branches)
                .filter(|number| self.has_branch(*number))
                .count(),
        )
    }
}

// No storages in a family, and then two.
fn make_storages(alloc: Global) -> Storages {
    let nodes = GarbageCollector::add_storage(NoStorages, InternStorage::new(alloc, 5));
    GarbageCollector::add_slice_storage(nodes, InternSliceStorage::new(alloc, 6))
}

impl Grove {
    /// A family of so many nodes and so many branches.
    pub(crate) fn make(alloc: Global, nodes: usize, branches: usize) -> Result<Grove, Fault> {
        let mut grove = Grove {
            nodes: room(alloc, nodes)?,
            branches: room(alloc, branches)?,
            listed: room(alloc, nodes)?,
            roots: (room(alloc, nodes)?, room(alloc, branches)?),
            storages: make_storages(alloc),
        };
        grove.fill(nodes, branches)?;
        Ok(grove)
    }

    fn fill(&mut self, nodes: usize, branches: usize) -> Result<(), Fault> {
        for number in 0..nodes {
            self.add_node(number)?;
        }
        for number in 0..branches {
            self.add_branch(number)?;
        }
        Ok(())
    }

    /// How many entries were stored.
    pub(crate) fn len(&self) -> usize {
        self.nodes.len().saturating_add(self.branches.len())
    }

    fn add_node(&mut self, number: usize) -> Result<(), Fault> {
        let (reference, _) = self.store_node(number)?;
        if owns_node(number) {
            drop(reference.to_owned(&mut self.storages.first.second)?);
        }
        if lists_node(number) {
            self.listed.push(reference.name())?;
            self.roots.0.push(reference)?;
        }
        self.nodes.push(reference)?;
        Ok(())
    }

    fn add_branch(&mut self, number: usize) -> Result<(), Fault> {
        let (reference, _) = self.store_branch(number)?;
        if owns_branch(number) {
            drop(reference.to_owned(&mut self.storages.second)?);
        }
        if lists_branch(number) {
            self.listed.push(reference.name())?;
            self.roots.1.push(reference)?;
        }
        self.branches.push(reference)?;
        Ok(())
    }

    // The value of a node.
    fn node(&self, number: usize) -> Node {
        let child = if number % 4 == 3 {
            self.nodes.get(number - 1).copied()
        } else {
            None
        };
        Node::new(number, child)
    }

    // The header of a branch.
    fn header(&self, number: usize) -> Node {
        let child = if number % 4 == 3 {
            self.nodes.get(number).copied()
        } else {
            None
        };
        Node::new(number, child)
    }

    // Interns a node, at the second try where the first is refused, and tells whether it was
    // stored.
    fn store_node(&mut self, number: usize) -> Result<(InternedRef<Node>, bool), Fault> {
        let node = self.node(number);
        let nodes = &mut self.storages.first.second;
        let (reference, back) = match Interned::new_gc(nodes, node) {
            Ok(stored) => stored,
            Err(Refused { why: _, back }) => Interned::new_gc(nodes, back)?,
        };
        Ok((reference, back.is_some()))
    }

    // The same for a branch.
    fn store_branch(&mut self, number: usize) -> Result<(InternedSliceRef<Branch>, bool), Fault> {
        let header = self.header(number);
        let items = items_of(number);
        let branches = &mut self.storages.second;
        let (reference, back) = match InternedSlice::from_header_and_slice(
            branches, header, items,
        ) {
            Ok(stored) => stored,
            Err(Refused { why: _, back }) => {
                InternedSlice::from_header_and_slice(branches, back, items)?
            }
        };
        Ok((reference, back.is_some()))
    }

    /// Fails unless the family has exactly the entries that are left, as they were stored.
    pub(crate) fn check(&self, left: Left) -> Result<(), Fault> {
        self.check_lengths(left)?;
        self.check_nodes(left)?;
        self.check_branches(left)
    }

    /// The same before a call. With `None` all entries are there, those that had gone again.
    pub(crate) fn check_before(&self, left: Option<Left>) -> Result<(), Fault> {
        match left {
            Some(left) => self.check(left),
            None => self.check_stored(),
        }
    }

    // Fails unless the family has exactly the values that were stored, of whichever births.
    fn check_stored(&self) -> Result<(), Fault> {
        self.check_lengths(Left::All)?;
        let (nodes, branches) = (&self.storages.first.second, &self.storages.second);
        for number in 0..self.nodes.len() {
            ensure(nodes.get(&self.node(number)).is_some(), "a node is gone")?;
        }
        for number in 0..self.branches.len() {
            ensure(
                branches
                    .get(&self.header(number), items_of(number))
                    .is_some(),
                "a slice is gone",
            )?;
        }
        Ok(())
    }

    fn check_nodes(&self, left: Left) -> Result<(), Fault> {
        for (reference, number) in self.nodes.iter().zip(0..) {
            ensure(
                self.shows_node(*reference, number, left.has_node(number)),
                "a node of a family is wrong",
            )?;
        }
        Ok(())
    }

    fn check_branches(&self, left: Left) -> Result<(), Fault> {
        for (reference, number) in self.branches.iter().zip(0..) {
            ensure(
                self.shows_branch(*reference, number, left.has_branch(number)),
                "a slice of a family is wrong",
            )?;
        }
        Ok(())
    }

    fn check_lengths(&self, left: Left) -> Result<(), Fault> {
        let (nodes, branches) = (&self.storages.first.second, &self.storages.second);
        let lengths = left.lengths(self.nodes.len(), self.branches.len());
        ensure(
            (nodes.len(), branches.len()) == lengths
                && (nodes.iter().count(), branches.iter().count()) == lengths,
            "a storage of a family has another length",
        )
    }

    // Whether a node is found, read and counted as it was stored, or not at all where it is gone.
    fn shows_node(&self, reference: InternedRef<Node>, number: usize, is_left: bool) -> bool {
        let node = self.node(number);
        let nodes = &self.storages.first.second;
        let count = u64::from(owns_node(number));
        reference.as_raw() == number as u64
            && nodes.get(&node) == is_left.then_some(reference)
            && reference.get(nodes) == is_left.then_some(&node)
            && nodes.count(reference) == is_left.then_some(count)
    }

    // The same for a branch.
    fn shows_branch(
        &self,
        reference: InternedSliceRef<Branch>,
        number: usize,
        is_left: bool,
    ) -> bool {
        let header = self.header(number);
        let items = items_of(number);
        let branches = &self.storages.second;
        let count = u64::from(owns_branch(number));
        reference.name().birth == number as u64
            && branches.get(&header, items) == is_left.then_some(reference)
            && reads(reference.get(branches), &header, items) == is_left
            && branches.count(reference) == is_left.then_some(count)
    }

    /// Interns all that was stored once more. What is left keeps its birth, and the rest gets the
    /// births that follow.
    pub(crate) fn store_again(&mut self, left: Left) -> Result<(), Fault> {
        self.store_nodes_again(left)?;
        self.store_branches_again(left)
    }

    fn store_nodes_again(&mut self, left: Left) -> Result<(), Fault> {
        let mut next = self.nodes.len();
        for number in 0..self.nodes.len() {
            let is_left = left.has_node(number);
            let (reference, was_stored) = self.store_node(number)?;
            let birth = birth_of(number, &mut next, is_left);
            ensure(
                was_stored == is_left && reference.as_raw() == birth,
                "a node has another birth after a collection",
            )?;
        }
        Ok(())
    }

    fn store_branches_again(&mut self, left: Left) -> Result<(), Fault> {
        let mut next = self.branches.len();
        for number in 0..self.branches.len() {
            let is_left = left.has_branch(number);
            let (reference, was_stored) = self.store_branch(number)?;
            let birth = birth_of(number, &mut next, is_left);
            ensure(
                was_stored == is_left && reference.name().birth == birth,
                "a slice has another birth after a collection",
            )?;
        }
        Ok(())
    }
}

// Whether an entry has this header and these items.
fn reads(read: Option<HeaderSlice<'_, Node, u64>>, header: &Node, items: &[u64]) -> bool {
    let Some(read) = read else {
        return false;
    };
    *read.header.header == *header && read.header.length == items.len() && read.slice == items
}

// The birth of an entry: its number where it is left, and else the next one.
fn birth_of(number: usize, next: &mut usize, is_left: bool) -> u64 {
    if is_left {
        return number as u64;
    }
    let birth = *next as u64;
    *next = next.saturating_add(1);
    birth
}
