//! The text at a place, and the place of a text.
ghost use Rattle.std.specs.Prelude.{◌≡◌, ◌<◌, ℕ, ◌↔◌, slice_get, map, Some, decimal};
ghost use Rattle.std.specs.Option.{option_eq, option_map};
ghost use Rattle.std.specs.Str.{bytes_eq};
ghost use Rattle.intern_presets.specs.Presets.{preset_text, place_of};
ghost use Rattle.intern_presets.specs.Table.{table};

use crate::numbers::PREFIX;
use crate::slots::candidates;
use crate::texts::{generated_texts, integer_texts, table_texts};
use itoa::Buffer;

/// The place of the first generated name.
const FIRST_GENERATED: u16 = 256;

/// The place of the first constant's text.
const FIRST_CONSTANT: u16 = 512;

/// The text at a place, and `None` past the last one.
///
/// Takes no memory.
pub fn text(place: u16) -> Option<&'static str>
    ensures { option_map (λ t. t.now) result ≡ preset_text place }
{
    if place < FIRST_GENERATED {
        text_at(integer_texts(), place)
    } else if place < FIRST_CONSTANT {
        text_at(generated_texts(), place - FIRST_GENERATED)
    } else {
        text_at(table_texts(), place - FIRST_CONSTANT)
    }
}

/// The place of a text, where it is a preset, and else `None`.
///
/// Takes no memory.
pub fn place(text: &str) -> Option<u16>
    ensures { result ≡ place_of text.now }
{
    if let Some(n) = small_number(text) {
        return Some(n as u16);
    }
    if let Some(digits) = text.strip_prefix(PREFIX) {
        let n = small_number(digits)?;
        return Some(n as u16 + FIRST_GENERATED);
    }
    let index = index_of(text)?;
    Some(index + FIRST_CONSTANT)
}

/// The text at an index, if there is one.
fn text_at<'a>(texts: &[&'a str], index: u16) -> Option<&'a str>
    ensures { option_map (λ t. t.now) result ≡ slice_get (map (λ t. t.now) texts.now) index }
{
    texts.get(index as usize).copied()
}

/// Where a text stands among those of the constants.
fn index_of(text: &str) -> Option<u16>
    ensures { (i : ℕ) → (result ≡ Some i) ↔ (slice_get table i ≡ Some text.now) }
{
    let (first, second) = candidates(text);
    if stands_at(text, first) {
        Some(first)
    } else if stands_at(text, second) {
        Some(second)
    } else {
        None
    }
}

/// Whether a text is that of the constant at an index.
fn stands_at(text: &str, index: u16) -> bool
    ensures { result ≡ option_eq bytes_eq (slice_get table index) (Some text.now) }
{
    text_at(table_texts(), index) == Some(text)
}

/// The number below 256 whose decimal digits the text consists of.
fn small_number(text: &str) -> Option<u8>
    ensures { (n : ℕ) → (result ≡ Some n) ↔ ((n < 256) × (text.now ≡ decimal n)) }
{
    match text.parse::<u8>() {
        Ok(n) => {
            if Buffer::new().format(n) == text {
                Some(n)
            } else {
                None
            }
        }
        Err(_) => None,
    }
}
