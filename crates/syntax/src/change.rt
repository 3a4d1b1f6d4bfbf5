//! What changed from a tree to another.
ghost use Rattle.std.specs.Prelude.{◌≡◌, ◌≢◌, ◌↔◌, ◌≤◌, ◌++◌, length, map as list_map, reverse, IfOk, IfErr, IfSome, IfNone, OnOk};
ghost use Rattle.intern_terms.specs.Handle.{term_name};
ghost use Rattle.intern_terms.specs.Tree.{Tree, tree as tree_of, Trees, UnfoldsTo};
ghost use Rattle.ra_ap_intern.specs.Symbols.{Named};
ghost use Rattle.syntax.specs.Changes.{Alike, BringLeast, Changed, HaveParts, size, swap, olds_of, news_of};
ghost use Rattle.syntax.specs.Parsing.{Stand};

use crate::fault::Fault;
use crate::machine::Spot;
use crate::syntax::Syntax;
use intern_terms::{TermRef, laws as trees};
use ra_ap_intern::laws as names;
use std::alloc::AllocError;

/// A part of a tree, and the index of its spot.
#[derive(Clone, Copy)]
pub struct Part {
    pub tree: TermRef,
    pub spot: usize,
}

/// A part of a tree, and what stands in its place.
#[derive(Clone, Copy)]
pub struct Change {
    pub old: Part,
    pub new: Part,
}

/// The spots of two programs.
#[derive(Clone, Copy)]
pub struct Spots<'a> {
    pub old: &'a [Spot],
    pub new: &'a [Spot],
}

impl Syntax {
    /// What changed: the smallest parts with another head, or another number of parts. Equal parts
    /// are passed over without a look at their parts. Refused as `TooLong` where more than so many
    /// parts were looked at, which are no more than the old tree has terms in it.
    pub fn changes(
        &self,
        whole: Change,
        spots: Spots<'_>,
        most: usize,
    ) -> Result<Vec<Change>, Fault>
        ensures changed { (t u : Tree) → UnfoldsTo self.now.terms (term_name whole.old.tree) t →
            UnfoldsTo self.now.terms (term_name whole.new.tree) u →
            IfOk result (λ changes. Changed self.now.terms t u (list_map swap changes.items)) }
        // They bring no more terms in all than any other change of parts that makes the new tree.
        ensures least { (t u : Tree) → UnfoldsTo self.now.terms (term_name whole.old.tree) t →
            UnfoldsTo self.now.terms (term_name whole.new.tree) u →
            IfOk result (λ changes. BringLeast self.now.terms t u (list_map swap changes.items)) }
        ensures long { (t u : Tree) → UnfoldsTo self.now.terms (term_name whole.old.tree) t →
            UnfoldsTo self.now.terms (term_name whole.new.tree) u →
            IfErr result (λ why. why ≡ Fault.TooLong → most ≤ size t) }
    {
        trees::each_term_has_one_tree();
        let mut changes = Vec::new(self.alloc);
        let mut pairs = Vec::new(self.alloc);
        pairs.push(whole)?;
        for _ in 0..most {
            let Some(pair) = pairs.pop() else {
                return Ok(changes);
            };
            if self.same(pair.old.tree, pair.new.tree) {
                continue;
            }
            match self.inside(pair) {
                Some((olds, news)) => push_parts(pair, olds, news, spots, &mut pairs)?,
                None => changes.push(pair)?,
            }
        }
        Err(Fault::TooLong)
    }

    // The parts of two trees with the same head and the same number of parts.
    fn inside(&self, pair: Change) -> Option<(&[TermRef], &[TermRef])>
        ensures length { IfSome result (λ r. length r.0.now ≡ length r.1.now) }
        ensures some { (t u : Tree) → UnfoldsTo self.now.terms (term_name pair.old.tree) t →
            UnfoldsTo self.now.terms (term_name pair.new.tree) u →
            IfSome result (λ r. HaveParts self.now.terms t u r.0.now r.1.now) }
        ensures none { (t u : Tree) → UnfoldsTo self.now.terms (term_name pair.old.tree) t →
            UnfoldsTo self.now.terms (term_name pair.new.tree) u →
            IfNone result (Alike t u → ⊥) }
    {
        names::symbols_are_what_they_name();
        let (head, olds) = self.terms.node(pair.old.tree)?;
        let (other, news) = self.terms.node(pair.new.tree)?;
        (head == other && olds.len() == news.len()).then_some((olds, news))
    }
}

// Puts the parts of a pair on the stack, the first pair on top.
fn push_parts(
    pair: Change,
    olds: &[TermRef],
    news: &[TermRef],
    spots: Spots<'_>,
    pairs: &mut Vec<Change>,
) -> Result<(), AllocError>
    requires { length olds.now ≡ length news.now }
    ensures olds { OnOk result (olds_of (reverse pairs.new.items)
        ≡ olds.now ++ olds_of (reverse pairs.old.items)) }
    ensures news { OnOk result (news_of (reverse pairs.new.items)
        ≡ news.now ++ news_of (reverse pairs.old.items)) }
{
    let Change { mut old, mut new } = pair;
    old.spot = old.spot.saturating_sub(1);
    new.spot = new.spot.saturating_sub(1);
    let mut left = olds.len();
    while left > 0 {
        left -= 1;
        old.tree = olds[left];
        new.tree = news[left];
        pairs.push(Change { old, new })?;
        old.spot = before(spots.old, old.spot);
        new.spot = before(spots.new, new.spot);
    }
    Ok(())
}

/// The spot of the part before the part of this spot.
pub fn before(spots: &[Spot], spot: usize) -> usize {
    let size = spots.get(spot).map_or(1, |s| s.size);
    spot.saturating_sub(size)
}
