//! The queries that are being computed, each since the one before wants its value.
ghost use Rattle.std.specs.HashSet.{contains_by};
ghost use Rattle.std.specs.Prelude.{◌≡◌, ◌↔◌, ◌∷◌, ◌++◌, [], length, slice_get, All, Any, OnOk, MatchOption, IsTrue, true};
ghost use Rattle.ra_ap_intern.specs.Handle.{ref_name};
ghost use Rattle.ra_ap_intern.specs.Named.{same_name};

use crate::key::{Key, KeyRef};
use crate::value::Value;
use ra_ap_intern::laws;
use std::alloc::{AllocError, Global};
use std::collections::HashSet;

/// A query that is being computed.
#[derive(Drop)]
pub struct Frame {
    /// The query.
    pub key: Key,
    /// Its handle.
    pub handle: KeyRef,
    /// What it reads, in order.
    pub wants: Vec<Key>,
    /// The values that it has read so far.
    pub values: Vec<Value>,
}

/// The queries that wait for a value, the first at the front.
#[derive(Drop)]
pub struct Path {
    /// The queries.
    pub frames: Vec<Frame>,
    // The handles of all that waited so far, those that wait among them.
    waited: HashSet<KeyRef>,
    ghost noted: { All (λ frame. contains_by
        (λ r. same_name (ref_name frame.handle) (ref_name r)) waited ≡ true) frames.items },
}

impl Frame {
    /// The query whose value it reads next.
    pub fn next(&self) -> Option<Key>
        ensures { result ≡ slice_get self.now.wants.items (length self.now.values.items) }
    {
        self.wants.get(self.values.len()).copied()
    }
}

impl Path {
    /// No query waits.
    pub fn new(alloc: Global) -> Path
        ensures { result.frames.items ≡ [] }
    {
        Path {
            frames: Vec::new(alloc),
            waited: HashSet::new(alloc),
        }
    }

    /// One more query waits.
    pub fn push(&mut self, frame: Frame) -> Result<(), AllocError>
        ensures { OnOk result (self.new.frames.items ≡ self.old.frames.items ++ frame ∷ []) }
    {
        laws::references_are_names::<Key>();
        self.waited.insert(frame.handle)?;
        Ok(self.frames.push(frame)?)
    }

    /// The last query goes on.
    pub fn pop(&mut self) -> Option<Frame>
        ensures { MatchOption result (self.old.frames.items ≡ [])
            (λ frame. self.old.frames.items ≡ self.new.frames.items ++ frame ∷ []) }
    {
        self.frames.pop()
    }

    /// Whether a query waits.
    pub fn has(&self, handle: KeyRef) -> bool
        ensures { IsTrue result ↔ Any (λ frame. ref_name frame.handle ≡ ref_name handle)
            self.now.frames.items }
    {
        laws::references_are_names::<Key>();
        self.waited.contains(&handle) && is_among(&self.frames, handle)
    }
}

// Whether a query is one of these.
fn is_among(frames: &[Frame], handle: KeyRef) -> bool
    ensures { IsTrue result ↔ Any (λ frame. ref_name frame.handle ≡ ref_name handle) frames.now }
{
    laws::references_are_names::<Key>();
    for frame in frames {
        if frame.handle == handle {
            return true;
        }
    }
    false
}
