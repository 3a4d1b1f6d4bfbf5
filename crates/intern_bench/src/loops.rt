//! The loops over a storage, most of which are timed.
ghost use Rattle.std.specs.Iterator.{IsFinite};

use crate::numbers::Generator;
use crate::storage::Storage;
use anyhow::{Result, ensure};
use ra_ap_intern::Refusal;
use std::alloc::{AllocError, Global};

/// The inputs of this many entries.
pub(crate) fn draw_inputs<S: Storage>(
    alloc: Global,
    entries: usize,
    generator: &mut Generator,
) -> Result<Vec<S::Input>, AllocError> {
    let mut inputs = Vec::with_capacity(alloc, entries)?;
    for place in 0..entries {
        inputs.push(S::input(alloc, place, generator)?)?;
    }
    Ok(inputs)
}

/// Interns inputs in their order, and keeps the handles.
pub(crate) fn intern_all<S: Storage>(
    storage: &mut S,
    inputs: &[S::Input],
    handles: &mut Vec<S::Handle>,
) -> Result<()> {
    for input in inputs {
        handles.push(storage.intern(input)?)?;
    }
    Ok(())
}

/// Interns the inputs at these places, and keeps the handles.
pub(crate) fn intern_at<S: Storage>(
    storage: &mut S,
    inputs: &[S::Input],
    order: &[usize],
    handles: &mut Vec<S::Handle>,
) -> Result<()> {
    for place in order {
        let input = inputs.get(*place).ok_or(Refusal::Gone)?;
        handles.push(storage.intern(input)?)?;
    }
    Ok(())
}

/// Reads the entries of the handles at these places, and sums up what they add.
pub(crate) fn sum_at<S: Storage>(
    storage: &S,
    handles: &[S::Handle],
    order: &[usize],
) -> Result<u64> {
    let mut sum = 0u64;
    for place in order {
        let handle = handles.get(*place).ok_or(Refusal::Gone)?;
        sum = sum.wrapping_add(storage.read(handle)?);
    }
    Ok(sum)
}

/// Releases handles in their order.
pub(crate) fn release_all<S: Storage, I: Iterator<Item = S::Handle> + Drop>(
    storage: &mut S,
    handles: I,
) -> Result<()>
    requires can { I.can_next handles }
    requires ends { IsFinite (I.remaining handles) }
{
    for handle in handles {
        storage.release(handle)?;
    }
    Ok(())
}

/// Room for this many handles. It is filled with handles of one entry and emptied again, so that
/// the system has given its pages before any loop is measured.
pub(crate) fn make_room<S: Storage>(
    alloc: Global,
    storage: &mut S,
    input: &S::Input,
    handles: usize,
) -> Result<Vec<S::Handle>> {
    let mut room = Vec::with_capacity(alloc, handles)?;
    for _ in 0..handles {
        room.push(storage.intern(input)?)?;
    }
    release_all(storage, room.drain(..))?;
    Ok(room)
}

/// Refuses a storage in which a loop left a wrong number of entries.
pub(crate) fn check_entries(entries: usize, wanted: usize) -> Result<()> {
    ensure!(
        entries == wanted,
        "a loop left {entries} entries in the place of {wanted}"
    );
    Ok(())
}
