//! What handles are made of.
ghost use Rattle.std.specs.Prelude.{◌≡◌, ◌-◌, ◌^◌};
ghost use Rattle.intern_store.specs.Named.{key_name};

use std::fmt;

/// A storage's limits.
#[derive(Clone, Copy, Debug, PartialEq, Eq)]
pub struct Limits {
    /// The greatest count that an entry may have, at least 1.
    pub top: u64,
    /// How many births the storage may give in all.
    pub numbers: u64,
}

/// What a handle names: an entry, by the number of its storage and by its birth.
///
/// The births of a storage begin at 0, rise by one, and are never given twice. A name is shown as
/// `#3.5`: birth 5 of the storage of number 3.
#[derive(Clone, Copy, Debug, PartialEq, Eq, PartialOrd, Ord, Hash)]
pub struct Name {
    /// The storage's number.
    pub storage: u64,
    /// The entry's birth.
    pub birth: u64,
}

impl fmt::Display for Name {
    fn fmt<W: fmt::Write>(&self, f: &mut fmt::Formatter<W>) -> fmt::Result {
        write!(f, "#{}.{}", self.storage, self.birth)
    }
}

/// Where an entry is: its birth, and the place where it was found.
///
/// The birth alone decides, and is compared, ordered and hashed. The place saves a look-up, since
/// an entry stays where it is.
#[derive_where(Clone, Copy, PartialEq, Eq, PartialOrd, Ord, Hash)]
pub struct Spot {
    /// The entry's birth.
    pub birth: u64,
    /// The place where it was found.
    #[derive_where(skip(EqHashOrd))]
    pub place: usize,
}

/// What a handle holds: the number of a storage, and where the entry is in it. It is compared,
/// ordered and hashed by its name alone.
#[derive(Clone, Copy, PartialEq, Eq, PartialOrd, Ord, Hash)]
pub struct EntryKey {
    /// The storage's number.
    pub storage: u64,
    /// Where the entry is.
    pub spot: Spot,
}

impl Limits {
    /// The largest limits, which a storage has that is given none.
    pub const MAX: Limits = Limits {
        top: u64::MAX,
        numbers: u64::MAX,
    };
}

impl Default for Limits {
    ghost is_default = { λ limits. (limits.top ≡ 2 ^ 64 - 1) × (limits.numbers ≡ 2 ^ 64 - 1) };

    fn default() -> Limits {
        Limits::MAX
    }
}

impl EntryKey {
    /// The entry's name.
    pub fn name(self) -> Name
        ensures { result ≡ key_name self }
    {
        Name {
            storage: self.storage,
            birth: self.spot.birth,
        }
    }
}
