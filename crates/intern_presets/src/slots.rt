//! Where to look for a text among those of the constants.
ghost use Rattle.std.specs.Prelude.{◌≡◌, ◌<◌, ◌⊎◌, ℕ, Some, get_or, slice_get};
ghost use Rattle.intern_presets.specs.Slots.{slot_of};
ghost use Rattle.intern_presets.specs.Table.{table};

use crate::table::{BASE, SLOT_COUNT, SLOTS};

/// Two indices, of which one is the text's where it is a constant's.
pub(crate) fn candidates(text: &str) -> (u16, u16)
    ensures { (i : ℕ) → slice_get table i ≡ Some text.now → (i ≡ result.0) ⊎ (i ≡ result.1) }
{
    let slot = slot(text);
    (SLOTS[slot], SLOTS[slot + 1])
}

/// The slot of a text: the number to the base `BASE` whose digits are its first byte, those at a
/// quarter and at half of its length, and its last, modulo `SLOT_COUNT`.
fn slot(text: &str) -> usize
    ensures is { result ≡ slot_of text.now }
    ensures within { result < SLOT_COUNT }
{
    let len = text.len();
    let first = byte_at(text, 0);
    let quarter = byte_at(text, len / 4);
    let half = byte_at(text, len / 2);
    let last = byte_at(text, len.saturating_sub(1));
    (((first * BASE + quarter) * BASE + half) * BASE + last) % SLOT_COUNT
}

/// The byte at an index, and 0 past the last.
fn byte_at(text: &str, index: usize) -> usize
    ensures is { result ≡ get_or text.now index 0 }
    ensures small { result < 256 }
{
    match text.as_bytes().get(index) {
        Some(byte) => *byte as usize,
        None => 0,
    }
}
