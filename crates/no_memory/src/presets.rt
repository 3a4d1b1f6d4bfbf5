//! The presets' texts and places, and the texts of numbers.
use crate::fault::{Fault, ensure};
use crate::marks::takes_none;
use intern_presets::{digits, generated, number, place, text};

/// More places than there are.
const PLACES: u16 = 2048;

/// Checks each call.
pub(crate) fn check(rt: &impl Eprint) -> Result<(), Fault> {
    takes_none(rt, "text, place");
    for at in 0..PLACES {
        ensure(match text(at) {
            Some(text) => place(text) == Some(at),
            None => at > 512,
        })?;
    }
    ensure(place("no preset, and longer than any") == None && place("256") == None)?;
    takes_none(rt, "digits, generated, number");
    for n in [0, 255, 256, usize::MAX] {
        ensure(number(digits(n).as_str()) == Some(n))?;
        ensure(number(generated(n).as_str()) == None)?;
    }
    Ok(())
}
