//! Where the items of slices lie: in the entries, or in one vector with those of others.
ghost use Rattle.std.specs.Prelude.{◌≡◌, ◌^◌, ◌&&◌, ℕ, List, Result, Err, length, nat_le, nat_lt, if◌then◌else◌};
ghost use Rattle.std.specs.Result.{result_map_both};
ghost use Rattle.intern_table.specs.Joined.{far_in, items_in, HasItems};
ghost use Rattle.intern_table.specs.Layouts.{own_items};
ghost use Rattle.intern_table.specs.Read.{read, shown_row};

use crate::own_array::OwnArray;
use crate::pool::{SlicePayload, part};
use crate::slice::{HeaderSlice, HeaderWithLength};
use intern_index::Packed;

/// Where a kind of slices keeps its items: [`Far`] or [`Near`].
pub trait Layout<S> {
    /// What an entry has of its items.
    type Near: NearItems<S>;
}

/// The items of all slices lie in one vector.
pub struct Far;

/// Up to `N` items, and at most 2³² - 1, lie in the entry, which has room for `N` whether they are
/// used or not. The items of longer slices lie in one vector.
pub struct Near<const N: usize>;

impl<S> Layout<S> for Far {
    type Near = FarItems;
}

impl<S: Copy, const N: usize> Layout<S> for Near<N> {
    type Near = OwnItems<S, N>;
}

/// What an entry has of the items of its slice: all, or how many lie in the vector.
pub trait NearItems<S>: Drop {
    // The items, or how many lie in the vector.
    ghost near_of: { Self → Result (List S) ℕ };

    // How many of so many items lie outside of the entry, in the vector.
    ghost outside: { ℕ → ℕ };

    /// What an entry is to have of these items.
    fn of(items: &[S]) -> Self
        ensures outside { far_in (near_of result) ≡ outside (length items.now) }
        ensures items { HasItems (near_of result) items.now };

    /// The items. Where they lie in the vector, `Err` with how many there are.
    fn items(&self) -> Result<&[S], usize>
        ensures { result_map_both (λ own. own.now) (λ n. n) result ≡ near_of self.now };
}

/// No items: they lie in the vector.
#[derive(Drop)]
pub struct FarItems {
    length: Packed,
}

impl<S> NearItems<S> for FarItems {
    ghost near_of = { λ a. Err a.length };

    ghost outside = { λ n. n };

    fn of(items: &[S]) -> FarItems {
        FarItems {
            length: Packed::of(items.len() as u64),
        }
    }

    fn items(&self) -> Result<&[S], usize> {
        Err(self.length.get() as usize)
    }
}

/// Up to `N` items, and at most 2³² - 1, or how many items lie in the vector. So it is with an
/// empty slice, which has no item to fill an array with.
#[derive(Drop)]
pub enum OwnItems<S, const N: usize> {
    /// The items.
    Near(OwnArray<S, N>),
    /// How many items lie in the vector.
    Far(Packed),
}

impl<S: Copy, const N: usize> NearItems<S> for OwnItems<S, N> {
    ghost near_of = { own_items };

    ghost outside = { λ n. if nat_le n N && nat_lt n (2 ^ 32) then 0 else n };

    fn of(items: &[S]) -> OwnItems<S, N> {
        match OwnArray::of(items) {
            Some(own) => OwnItems::Near(own),
            None => OwnItems::Far(Packed::of(items.len() as u64)),
        }
    }

    fn items(&self) -> Result<&[S], usize> {
        match self {
            OwnItems::Near(own) => Ok(own.items()),
            OwnItems::Far(length) => Err(length.get() as usize),
        }
    }
}

/// What an entry of slices keeps beside its payload.
#[derive(Drop)]
pub struct SliceRow<H, A> {
    pub(crate) header: H,
    pub(crate) near: A,
}

impl<H, A> SliceRow<H, A> {
    /// The items of the slice; `all` are those in the vector.
    pub(crate) fn items<'a, S>(&'a self, payload: SlicePayload, all: &'a [S]) -> &'a [S]
    where
        A: NearItems<S>,
        ensures { result.now ≡ items_in (A.near_of self.now.near) payload.start all.now }
    {
        match self.near.items() {
            Ok(own) => own,
            Err(length) => part(all, payload.start.get() as usize, length),
        }
    }

    /// The header and the slice; `all` are the items in the vector.
    pub(crate) fn read<'a, S>(
        &'a self,
        payload: SlicePayload,
        all: &'a [S],
    ) -> HeaderSlice<'a, H, S>
    where
        A: NearItems<S>,
        ensures { read result ≡ shown_row A.near_of all.now self.now payload }
    {
        let slice = self.items(payload, all);
        let header = HeaderWithLength {
            header: &self.header,
            length: slice.len(),
        };
        HeaderSlice { header, slice }
    }
}

/// How many items lie in the vector.
pub(crate) fn far_length<S, A: NearItems<S>>(near: &A) -> usize
    ensures { result ≡ far_in (A.near_of near.now) }
{
    match near.items() {
        Ok(_) => 0,
        Err(length) => length,
    }
}
