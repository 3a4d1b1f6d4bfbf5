//! What is known of a registered name.
ghost use Rattle.std.specs.Prelude.{◌≡◌, not, ◌&&◌, ◌||◌};

use intern_store::Name;

/// Whether an entry was counted when its name was registered, and whether it is marked.
#[derive(Clone, Copy, PartialEq, Eq)]
pub struct Flags {
    /// Whether the entry was counted.
    pub is_counted: bool,
    /// Whether the entry is marked.
    pub is_marked: bool,
}

impl Flags {
    /// Whether the name may be marked, and isn't.
    pub(crate) fn is_next(self, counted_too: bool) -> bool
        ensures { result ≡ ((counted_too || not self.is_counted) && not self.is_marked) }
    {
        (counted_too || !self.is_counted) && !self.is_marked
    }
}

/// A name, and what is known of it.
#[derive(Clone, Copy)]
pub(crate) struct Registered {
    pub(crate) name: Name,
    pub(crate) flags: Flags,
}
