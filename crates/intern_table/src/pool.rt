//! The items of slices, in one vector.
ghost use Rattle.std.specs.Prelude.{◌≡◌, ◌<◌, ℕ, length, take, drop};
ghost use Rattle.std.specs.Option.{option_map};
ghost use Rattle.std.specs.FinMap.{get};
ghost use Rattle.intern_table.specs.Joined.{read_entry, IsLaid, IsCovered};

use crate::layout::{NearItems, SliceRow, far_length};
use intern_index::{BirthOrder, Change, Index, Packed};

/// Where the items of an entry begin that lie in the vector, and its count.
#[derive(Clone, Copy)]
pub struct SlicePayload {
    pub(crate) start: Packed,
    pub(crate) count: Packed,
}

/// The items from a start on, at most this many.
pub(crate) fn part<S>(items: &[S], start: usize, count: usize) -> &[S]
    ensures { result.now ≡ take count (drop start items.now) }
{
    let from = &items[start.min(items.len())..];
    &from[..count.min(from.len())]
}

// Another start.
#[derive(Clone, Copy)]
struct MoveTo {
    start: usize,
}

impl Change<SlicePayload> for MoveTo {
    ghost changed = { λ c p. record p { start = c.start } };

    fn changed(&self, payload: SlicePayload) -> SlicePayload {
        SlicePayload {
            start: Packed::of(self.start as u64),
            ..payload
        }
    }
}

/// Moves the items of all entries down that lie in the vector, in the order of births, and cuts off
/// what is behind the last. It takes no memory.
pub(crate) fn compact<H, S: Copy, A: NearItems<S>>(
    index: &mut Index<SliceRow<H, A>, SlicePayload, BirthOrder>,
    items: &mut Vec<S>,
)
    requires { IsLaid A.near_of index.old.entries (length items.old.items) }
    ensures laid { IsLaid A.near_of index.new.entries (length items.new.items) }
    ensures same { (b : ℕ) →
        option_map (read_entry A.near_of items.new.items) (get index.new.entries b)
        ≡ option_map (read_entry A.near_of items.old.items) (get index.old.entries b) }
    ensures full { (i : ℕ) → i < length items.new.items →
        IsCovered A.near_of index.new.entries i }
    ensures buckets { index.new.buckets ≡ index.old.buckets }
{
    let mut end = 0;
    let mut last = None;
    for at in 0..index.len() {
        let Some((spot, row, payload)) = index.nth(at, last) else {
            unreachable!();
        };
        let far = far_length(&row.near);
        let start = payload.start.get() as usize;
        index.change(spot, &MoveTo { start: end });
        items.copy_within(start..start + far, end);
        end += far;
        last = Some(spot);
    }
    items.truncate(end);
}
