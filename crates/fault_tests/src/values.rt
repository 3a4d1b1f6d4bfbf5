//! Storages of values, in both modes.
ghost use Rattle.std.specs.Prelude.{true, false};
ghost use Rattle.std.specs.Cmp.Rules.{hashing};
ghost use Rattle.std.specs.Hash as fed;
ghost use Rattle.std.proofs.Common.{rules};

use crate::fault::{Fault, ensure, refused};
use crate::storage::Storage;
use ra_ap_intern::{InternStorage, Internable, Interned, InternedRef, Refused, Text};
use std::alloc::{AllocError, Global};
use std::hash::{Hash, Hasher};

/// A text, collected.
#[derive(Drop, PartialEq, Eq, Hash)]
pub(crate) struct Term(Text);

impl Internable for Term {
    const USE_GC: bool = true;

    ghost USE_GC = { true };
}

/// A number, counted. All numbers have one hash, which is among the greatest: so a table soon has
/// no bucket left for them, before it is built anew and also while that is done.
#[derive(Clone, Copy, PartialEq, Eq)]
pub(crate) struct OneHash(u64);

impl Hash for OneHash {
    ghost hash_input = { λ _. fed.u8 116 };

    ghost respects_eq = { Prim.search (hashing, rules) };

    fn hash<H: Hasher>(&self, state: &mut H) {
        state.write_u8(116);
    }
}

impl Internable for OneHash {
    const USE_GC: bool = false;

    ghost USE_GC = { false };
}

// What an interning answers: a reference, and what came back.
type Answer<T> = (InternedRef<T>, Option<T>);

/// A value with the call that interns it.
pub(crate) trait Value: Internable + Drop {
    /// The call's name.
    fn call() -> &'static str;

    /// The value of a number.
    fn make(alloc: Global, number: u64) -> Result<Self, AllocError>;

    /// A second value that is equal.
    fn copy(&self, alloc: Global) -> Result<Self, AllocError>;

    /// Makes the call. An owned handle that it gives is dropped, and keeps its count.
    fn intern(
        storage: &mut InternStorage<Self>,
        value: Self,
    ) -> Result<Answer<Self>, Refused<Self>>;

    /// How much the call adds to the count.
    fn counts() -> u64;
}

/// The text of a number: every second one is longer than lies in an entry.
pub(crate) fn text_of(alloc: Global, number: u64) -> Result<Text, AllocError> {
    let text = if number % 2 == 0 {
        format!(in alloc; "text {number}")?
    } else {
        format!(in alloc; "a text of more than 24 bytes, {number}")?
    };
    Text::new(alloc, text.as_str())
}

impl Value for Text {
    fn call() -> &'static str {
        "Interned::new"
    }

    fn make(alloc: Global, number: u64) -> Result<Text, AllocError> {
        text_of(alloc, number)
    }

    fn copy(&self, alloc: Global) -> Result<Text, AllocError> {
        Text::new(alloc, self.as_str())
    }

    fn intern(
        storage: &mut InternStorage<Text>,
        value: Text,
    ) -> Result<Answer<Text>, Refused<Text>> {
        let (handle, back) = Interned::new(storage, value)?;
        Ok((handle.as_ref(), back))
    }

    fn counts() -> u64 {
        1
    }
}

impl Value for OneHash {
    fn call() -> &'static str {
        "Interned::new, where all values have one hash"
    }

    fn make(_alloc: Global, number: u64) -> Result<OneHash, AllocError> {
        Ok(OneHash(number))
    }

    fn copy(&self, _alloc: Global) -> Result<OneHash, AllocError> {
        Ok(*self)
    }

    fn intern(
        storage: &mut InternStorage<OneHash>,
        value: OneHash,
    ) -> Result<Answer<OneHash>, Refused<OneHash>> {
        let (handle, back) = Interned::new(storage, value)?;
        Ok((handle.as_ref(), back))
    }

    fn counts() -> u64 {
        1
    }
}

impl Value for Term {
    fn call() -> &'static str {
        "Interned::new_gc"
    }

    fn make(alloc: Global, number: u64) -> Result<Term, AllocError> {
        Ok(Term(text_of(alloc, number)?))
    }

    fn copy(&self, alloc: Global) -> Result<Term, AllocError> {
        Ok(Term(Text::new(alloc, self.0.as_str())?))
    }

    fn intern(
        storage: &mut InternStorage<Term>,
        value: Term,
    ) -> Result<Answer<Term>, Refused<Term>> {
        Interned::new_gc(storage, value)
    }

    fn counts() -> u64 {
        0
    }
}

impl<T: Value> Storage for InternStorage<T> {
    type Input = T;

    type Offer = T;

    type Reference = InternedRef<T>;

    fn call(&self) -> &'static str {
        T::call()
    }

    fn input(&self, alloc: Global, number: u64) -> Result<T, AllocError> {
        T::make(alloc, number)
    }

    fn offer(&self, alloc: Global, input: &T) -> Result<T, AllocError> {
        input.copy(alloc)
    }

    fn store(&mut self, offer: T, input: &T) -> Result<InternedRef<T>, Fault> {
        match T::intern(self, offer) {
            Ok((reference, None)) => Ok(reference),
            Ok(_) => Err(Fault::Wrong("a new value came back")),
            Err(Refused { why, back }) => Err(refused(why, back == *input)),
        }
    }

    fn lengths(&self) -> (usize, usize) {
        (self.len(), self.iter().count())
    }

    fn shows(&self, reference: InternedRef<T>, input: &T, number: u64) -> bool {
        reference.as_raw() == number
            && self.get(input) == Some(reference)
            && InternedRef::from_raw(self, number) == Ok(reference)
            && reference.get(self) == Some(input)
            && self.count(reference) == Some(T::counts())
    }

    fn keeps(&self) -> bool {
        T::USE_GC
    }

    fn free(&mut self, reference: InternedRef<T>, input: &T) -> Result<(), Fault> {
        let last = Interned::from_raw(self, reference.as_raw())?;
        let freed = last.release(self)?;
        ensure(
            freed.as_ref() == Some(input),
            "a freed value did not come back",
        )?;
        ensure(reference.get(self).is_none(), "a freed value is read")
    }

    fn pass(&mut self, reference: InternedRef<T>, offer: T, input: &T) -> Result<(), Fault> {
        intern_again(self, reference, offer, input)?;
        if T::counts() > 0 {
            reference.decrement_refcount(self)?;
        }
        let second = own_twice(self, reference)?;
        let taken = take_over(self, &second, input)?;
        release(self, taken)?;
        release(self, second)
    }
}

// Interns a value that is stored: it comes back.
fn intern_again<T: Value>(
    storage: &mut InternStorage<T>,
    reference: InternedRef<T>,
    offer: T,
    input: &T,
) -> Result<(), Fault> {
    let (again, back) = T::intern(storage, offer)?;
    ensure(again == reference, "a stored value has another birth")?;
    ensure(
        back.as_ref() == Some(input),
        "a stored value did not come back",
    )
}

// Makes two owned handles of a value, and gives the second. The first is dropped.
fn own_twice<T: Value>(
    storage: &mut InternStorage<T>,
    reference: InternedRef<T>,
) -> Result<Interned<T>, Fault> {
    let owned = reference.to_owned(storage)?;
    Ok(owned.clone(storage)?)
}

// Takes over the count of a handle that was dropped, where there is a second one.
fn take_over<T: Value>(
    storage: &InternStorage<T>,
    second: &Interned<T>,
    input: &T,
) -> Result<Interned<T>, Fault> {
    let taken = Interned::from_raw(storage, second.as_ref().as_raw())?;
    ensure(taken == *second, "two handles of a value differ")?;
    ensure(
        taken.get(storage) == Some(input),
        "a handle reads something else",
    )?;
    Ok(taken)
}

// Releases a handle of a value that stays.
fn release<T: Value>(storage: &mut InternStorage<T>, handle: Interned<T>) -> Result<(), Fault> {
    let freed = handle.release(storage)?;
    ensure(freed.is_none(), "a value was freed that has owners")
}
