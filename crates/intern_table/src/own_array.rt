//! Items of a slice, in an array of their own.
ghost use Rattle.std.specs.Prelude.{◌≡◌, ◌<◌, ◌≤◌, ◌↔◌, ◌^◌, IfSome, IsSome, length, take};

/// An array, and how many items of a slice it begins with.
#[derive(Drop)]
pub struct OwnArray<S, const N: usize> {
    length: u32,
    array: [S; N],
    ghost within: { length ≤ N },
}

impl<S: Copy, const N: usize> OwnArray<S, N> {
    /// An array that begins with these items, if there is one and they fit.
    pub(crate) fn of(items: &[S]) -> Option<OwnArray<S, N>>
        ensures fits { IsSome result
            ↔ ((0 < length items.now) × (length items.now ≤ N) × (length items.now < 2 ^ 32)) }
        ensures items { IfSome result (λ own. take own.length own.array ≡ items.now) }
    {
        let first = items.first()?;
        let length = u32::try_from(items.len()).ok()?;
        if items.len() > N {
            return None;
        }
        let mut array = [*first; N];
        array[..items.len()].copy_from_slice(items);
        Some(OwnArray { length, array })
    }

    /// The items.
    pub(crate) fn items(&self) -> &[S]
        ensures { result.now ≡ take self.now.length self.now.array }
    {
        &self.array[..self.length as usize]
    }
}
