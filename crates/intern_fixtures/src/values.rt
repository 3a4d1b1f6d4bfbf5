//! Values to intern.
ghost use Rattle.std.specs.Prelude.{false, []};
ghost use Rattle.std.specs.Cmp.Rules.{hashing};
ghost use Rattle.std.proofs.Common.{rules};

use ra_ap_intern::Internable;
use std::alloc::{AllocError, Global};
use std::hash::{Hash, Hasher};

/// A text, counted.
#[derive(Debug, Drop, PartialEq, Eq, Hash)]
pub struct Word(String);

impl Internable for Word {
    const USE_GC: bool = false;

    ghost USE_GC = { false };
}

impl Word {
    /// The text.
    pub fn text(&self) -> &str {
        self.0.as_str()
    }
}

/// The word of a text.
pub fn make_word(alloc: Global, text: &str) -> Result<Word, AllocError> {
    Ok(Word(String::from_str(alloc, text)?))
}

/// A number, counted, whose hash writes nothing, so that all have the same hash.
#[derive(Clone, Copy, Debug, PartialEq, Eq)]
pub struct Unhashed(pub u64);

impl Hash for Unhashed {
    ghost hash_input = { λ _. [] };

    ghost respects_eq = { Prim.search (hashing, rules) };

    fn hash<H: Hasher>(&self, _state: &mut H) {}
}

impl Internable for Unhashed {
    const USE_GC: bool = false;

    ghost USE_GC = { false };
}
