//! A header with its items: what a table of slices keeps, and what a read of it lends.
ghost use Rattle.std.specs.Prelude.{◌≡◌};
ghost use Rattle.std.specs.Cmp.Lexicographic.{pointwise};
ghost use Rattle.intern_table.specs.Sliced.{sliced_eq};
ghost use Rattle.std.specs.Cmp.Rules.{comparing};
ghost use Rattle.std.proofs.Common.{rules};

use std::cmp::Eq;
use std::marker::Model;

/// A header, and the length of its slice.
#[derive_where(Clone, Copy)]
pub struct HeaderWithLength<'a, H> {
    /// The header.
    pub header: &'a H,
    /// How many items the slice has.
    pub length: usize,
}

/// A header with its slice, both borrowed from the table.
#[derive_where(Clone, Copy)]
pub struct HeaderSlice<'a, H, S> {
    /// The header and the length.
    pub header: HeaderWithLength<'a, H>,
    /// The items.
    pub slice: &'a [S],
}

/// A header with its slice, as contracts see it. No value of this type is made: the items of all
/// slices lie in one vector.
pub struct SliceValue<H, S> {
    header: H,
    items: Vec<S>,
}

impl<H, S> Model for SliceValue<H, S> {
    ghost use Rattle.intern_table.specs.Sliced.{Sliced, sliced_code};

    ghost Value = { Sliced H S };

    ghost coded = { sliced_code H.code S.code };

    ghost view = { λ a. record { header = a.header; items = a.items.items } };
}

impl<H: PartialEq, S: PartialEq> PartialEq for SliceValue<H, S> {
    ghost eq = { sliced_eq H.eq S.eq };

    ghost laws = { Prim.search (comparing, rules) };

    fn eq(&self, other: &SliceValue<H, S>) -> bool {
        self.header == other.header && self.items == other.items
    }
}

impl<H: Eq, S: Eq> Eq for SliceValue<H, S> {
    ghost laws = { Prim.search (comparing, rules) };
}

// Up to so many items are compared one by one. A comparison of more is a call of its own, made for
// long slices.
const FEW: usize = 8;

/// Whether slices have equal items, one by one.
pub(crate) fn equal_items<S: PartialEq>(first: &[S], second: &[S]) -> bool
    ensures { result ≡ pointwise S.eq first.now second.now }
{
    if first.len() != second.len() {
        return false;
    }
    if first.len() > FEW {
        return first == second;
    }
    for at in 0..first.len() {
        if first[at] != second[at] {
            return false;
        }
    }
    true
}
