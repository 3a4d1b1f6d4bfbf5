//! What kinds of entries storages keep.
ghost use Rattle.std.specs.Prelude.{Bool};

use crate::intern::Internable;
use crate::intern_slice::SliceInternable;
use intern_store::Entries;
use intern_table::{Far, Layout, SliceTable, Table};
use std::hash::BuildHasher;
use std::marker::PhantomData;

/// What a storage keeps, and in which table: [`Values`] or [`Slices`], hashed by a hasher that `B`
/// builds.
pub trait Kind<B> {
    /// The table of the entries.
    type Table: Entries<Hasher = B>;

    /// Whether entries stay until a collection (collected mode), or go with their last owner
    /// (counted mode).
    const USE_GC: bool;

    ghost USE_GC: { Bool };
}

/// Single values of a type.
// The pointer lets a type hold handles of itself.
pub struct Values<T> {
    marker: PhantomData<*const T>,
}

/// Headers with lists of items, of a kind, whose items lie where a layout says: in one vector
/// ([`Far`]), or up to so many in the entry ([`Near`](crate::Near)).
pub struct Slices<T, L = Far> {
    marker: PhantomData<*const (T, L)>,
}

impl<T: Internable, B: BuildHasher> Kind<B> for Values<T> {
    type Table = Table<T, B>;

    const USE_GC: bool = T::USE_GC;

    ghost USE_GC = { T.Internable.USE_GC };
}

impl<T: SliceInternable, L: Layout<T::SliceType>, B: BuildHasher> Kind<B> for Slices<T, L> {
    type Table = SliceTable<T::Header, T::SliceType, L::Near, B>;

    const USE_GC: bool = T::USE_GC;

    ghost USE_GC = { T.SliceInternable.USE_GC };
}
