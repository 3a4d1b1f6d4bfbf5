//! A million calls on a storage of each kind, beside a list of what the storage keeps: a quarter of
//! them is drawn, and after each its number is looked up, read and counted.
ghost use Rattle.std.specs.Prelude.{◌≡◌, true};

use crate::kinds::{List, Plain};
use crate::steps::{is_equal, push};
use intern_fixtures::{Dice, allowed, drop_slices, drop_values, new_slices, new_values};
use ra_ap_intern::{
    Family, GarbageCollector, InternSliceStorage, InternStorage, Interned, InternedRef,
    InternedSlice, InternedSliceRef, Layout, NearSliceStorage, Ref, Refusal, Slices, Storage,
    Values,
};
use std::alloc::Global;
use std::process::Abort;

/// How many numbers there are, each of which has at most one entry.
const NUMBERS: u64 = 1_000;

/// How many rounds there are, with a collection after each.
const ROUNDS: u64 = 25;

/// How many calls are drawn in a round.
const CALLS: u64 = 10_000;

/// A storage in collected mode, whose entries stand for numbers.
trait Shelf<K> {
    /// The entry of a number, and whether it is new.
    fn intern(&mut self, number: u64) -> Result<(Ref<K>, bool), Refusal>;

    /// The entry of a number, if there is one.
    fn find(&self, number: u64) -> Option<Ref<K>>;

    /// The number of an entry, if that is there.
    fn read(&self, entry: Ref<K>) -> Option<u64>;

    /// The count of an entry, if that is there.
    fn count(&self, entry: Ref<K>) -> Option<u64>;

    /// Counts an entry once more.
    fn own(&mut self, entry: Ref<K>) -> Result<(), Refusal>;

    /// Counts an entry once less.
    fn disown(&mut self, entry: Ref<K>) -> Result<(), Refusal>;

    /// Removes the entries that aren't counted, and tells how many these were.
    fn collect(&mut self, alloc: Global) -> Option<usize>;
}

impl Shelf<Values<Plain>> for InternStorage<Plain> {
    fn intern(&mut self, number: u64) -> Result<(InternedRef<Plain>, bool), Refusal> {
        let (entry, back) = allowed(Interned::new_gc(self, Plain(number)))?;
        Ok((entry, back.is_none()))
    }

    fn find(&self, number: u64) -> Option<InternedRef<Plain>> {
        self.get(&Plain(number))
    }

    fn read(&self, entry: InternedRef<Plain>) -> Option<u64> {
        Some(entry.get(self)?.0)
    }

    fn count(&self, entry: InternedRef<Plain>) -> Option<u64> {
        self.count(entry)
    }

    fn own(&mut self, entry: InternedRef<Plain>) -> Result<(), Refusal> {
        let _ = entry.to_owned(self)?;
        Ok(())
    }

    fn disown(&mut self, entry: InternedRef<Plain>) -> Result<(), Refusal> {
        entry.decrement_refcount(self)
    }

    fn collect(&mut self, alloc: Global) -> Option<usize> {
        removed(self, alloc)
    }
}

/// The list of a number: none to four times the number itself.
fn items(list: &[u64; 4]) -> &[u64] {
    &list[..(list[0] % 5) as usize]
}

impl<L: Layout<u64>> Shelf<Slices<List, L>> for Storage<Slices<List, L>> {
    fn intern(&mut self, number: u64) -> Result<(InternedSliceRef<List, L>, bool), Refusal> {
        let list = [number; 4];
        let answer = InternedSlice::from_header_and_slice(self, number, items(&list));
        let (entry, back) = allowed(answer)?;
        Ok((entry, back.is_none()))
    }

    fn find(&self, number: u64) -> Option<InternedSliceRef<List, L>> {
        self.get(&number, items(&[number; 4]))
    }

    fn read(&self, entry: InternedSliceRef<List, L>) -> Option<u64> {
        let list = entry.get(self)?;
        let number = *list.header.header;
        if list.slice == items(&[number; 4]) {
            Some(number)
        } else {
            None
        }
    }

    fn count(&self, entry: InternedSliceRef<List, L>) -> Option<u64> {
        self.count(entry)
    }

    fn own(&mut self, entry: InternedSliceRef<List, L>) -> Result<(), Refusal> {
        let _ = entry.to_owned(self)?;
        Ok(())
    }

    fn disown(&mut self, entry: InternedSliceRef<List, L>) -> Result<(), Refusal> {
        entry.decrement_refcount(self)
    }

    fn collect(&mut self, alloc: Global) -> Option<usize> {
        removed(self, alloc)
    }
}

/// How many entries a collection removes.
fn removed<F: Family>(storage: &mut F, alloc: Global) -> Option<usize>
    requires { F.collected ≡ true }
{
    if !GarbageCollector::distinct(storage) {
        return None;
    }
    let collected = GarbageCollector::new(alloc).collect(storage).ok()?;
    Some(collected.removed)
}

/// What is known of a number: the last entry that it got, and its count while that is there.
#[derive_where(Clone, Copy)]
struct Known<K> {
    entry: Option<Ref<K>>,
    count: Option<u64>,
}

/// A storage, what is known of each number, and how many births were given.
#[derive(Drop)]
struct Run<'a, K, S: Shelf<K>> {
    storage: &'a mut S,
    known: Vec<Known<K>>,
    births: u64,
}

impl<'a, K, S: Shelf<K>> Run<'a, K, S> {
    fn new(rt: &impl Abort, alloc: Global, storage: &'a mut S) -> Run<'a, K, S> {
        let mut known = Vec::new(alloc);
        for _ in 0..NUMBERS {
            push(
                rt,
                &mut known,
                Known {
                    entry: None,
                    count: None,
                },
            );
        }
        Run {
            storage,
            known,
            births: 0,
        }
    }

    /// Makes a call on the entry of a number. An entry is owned half as often as disowned, so that
    /// many aren't counted.
    fn call(&mut self, rt: &impl Abort, number: u64, call: u64) {
        let known = self
            .known
            .get(number as usize)
            .copied()
            .expect(rt, "a number");
        let now = match call {
            0 | 1 => self.intern(rt, number, known),
            2 => self.own(rt, known),
            _ => self.disown(rt, known),
        };
        self.is_as_told(rt, number, now);
        let place = self.known.get_mut(number as usize).expect(rt, "a number");
        *place = now;
    }

    /// Interns a number, which gets the next birth if it isn't stored.
    fn intern(&mut self, rt: &impl Abort, number: u64, known: Known<K>) -> Known<K> {
        let (entry, is_new) = self.storage.intern(number).expect(rt, "interned");
        is_equal(rt, is_new, known.count.is_none());
        if is_new {
            is_equal(rt, entry.name().birth, self.births);
            self.births = self.births.wrapping_add(1);
        } else {
            assert!(rt; known.entry == Some(entry));
        }
        Known {
            entry: Some(entry),
            count: Some(known.count.unwrap_or(0)),
        }
    }

    /// Counts the entry once more, if it is there.
    fn own(&mut self, rt: &impl Abort, known: Known<K>) -> Known<K> {
        let Some(entry) = known.entry else {
            return known;
        };
        let answer = self.storage.own(entry);
        is_equal(rt, answer, known.count.map(|_| ()).ok_or(Refusal::Gone));
        Known {
            count: known.count.map(|count| count.wrapping_add(1)),
            ..known
        }
    }

    /// Counts the entry once less, if it is there and counted.
    fn disown(&mut self, rt: &impl Abort, known: Known<K>) -> Known<K> {
        let Some(entry) = known.entry else {
            return known;
        };
        let answer = self.storage.disown(entry);
        let (expected, count) = match known.count {
            None => (Err(Refusal::Gone), None),
            Some(0) => (Err(Refusal::CountZero), Some(0)),
            Some(count) => (Ok(()), Some(count - 1)),
        };
        is_equal(rt, answer, expected);
        Known { count, ..known }
    }

    /// The number is found, read and counted as is known, and its last entry once it is gone is
    /// not.
    fn is_as_told(&self, rt: &impl Abort, number: u64, known: Known<K>) {
        let Some(entry) = known.entry else {
            assert!(rt; self.storage.find(number).is_none());
            return;
        };
        let stored = known.count.map(|_| entry);
        assert!(rt; self.storage.find(number) == stored);
        is_equal(rt, self.storage.read(entry), known.count.map(|_| number));
        is_equal(rt, self.storage.count(entry), known.count);
    }

    /// A collection removes the entries that aren't counted, and no others.
    fn collect(&mut self, rt: &impl Abort, alloc: Global) {
        let mut gone = 0usize;
        for known in self.known.iter_mut() {
            if known.count == Some(0) {
                known.count = None;
                gone = gone.wrapping_add(1);
            }
        }
        is_equal(rt, self.storage.collect(alloc), Some(gone));
        for (number, known) in self.known.iter().enumerate() {
            self.is_as_told(rt, number as u64, *known);
        }
    }
}

/// Draws the calls of all rounds, and collects after each.
fn draws<K, S: Shelf<K>>(rt: &impl Abort, alloc: Global, storage: &mut S) {
    let mut run = Run::new(rt, alloc, storage);
    let mut dice = Dice::new(1);
    for _ in 0..ROUNDS {
        for _ in 0..CALLS {
            run.call(rt, dice.below(NUMBERS), dice.below(5));
        }
        run.collect(rt, alloc);
    }
}

#[test]
fn a_million_calls_on_values(rt: HostRuntime) {
    let mut storage: InternStorage<Plain> = new_values(rt.alloc(), 1);
    draws(&rt, rt.alloc(), &mut storage);
    drop_values(storage);
}

#[test]
fn a_million_calls_on_slices(rt: HostRuntime) {
    let mut storage: InternSliceStorage<List> = new_slices(rt.alloc(), 1);
    draws(&rt, rt.alloc(), &mut storage);
    drop_slices(storage);
}

#[test]
fn a_million_calls_on_near_slices(rt: HostRuntime) {
    let mut storage: NearSliceStorage<List, 2> = NearSliceStorage::new(rt.alloc(), 1);
    draws(&rt, rt.alloc(), &mut storage);
}
