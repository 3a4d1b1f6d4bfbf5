//! Steps of many tests over numbers behind a word, each with the answer that it must get.
ghost use Rattle.std.specs.Prelude.{◌≡◌, true};

use crate::kinds::Numbers;
use intern_fixtures::{Word, allowed, make_word, refusal, told};
use ra_ap_intern::{
    Family, GarbageCollector, HeaderSlice, InternSliceStorage, InternedSlice, InternedSliceRef,
    Refusal, Refused, SliceInternable,
};
use std::alloc::Global;
use std::fmt::Debug;
use std::process::Abort;

/// The values are equal.
pub fn is_equal<V: Copy + PartialEq + Debug>(rt: &impl Abort, found: V, wanted: V) {
    assert_eq!(rt; found, wanted);
}

/// A storage of numbers behind a word.
pub type Numbered = InternSliceStorage<Numbers>;

/// Adds a value at the end of a list.
pub fn push<V: Drop>(rt: &impl Abort, list: &mut Vec<V>, value: V) {
    let pushed: Result<_, _> = list.push(value);
    pushed.expect(rt, "memory");
}

/// The word of a text.
pub fn word_of(rt: &impl Abort, alloc: Global, text: &str) -> Word {
    make_word(alloc, text).expect(rt, "memory")
}

/// The call was refused for this reason.
fn is_refused<A: Drop>(rt: &impl Abort, answer: Result<A, Refusal>, reason: Refusal) {
    is_reason(rt, refusal(answer).expect(rt, "refused"), reason);
}

/// This is the reason of a refusal.
pub fn is_reason(rt: &impl Abort, why: Refusal, reason: Refusal) {
    is_equal(rt, why, reason);
}

/// Interns items behind a header, which get this birth. It gives the header that comes back, if one
/// does.
pub fn intern<K: SliceInternable>(
    rt: &impl Abort,
    storage: &mut InternSliceStorage<K>,
    header: K::Header,
    items: &[K::SliceType],
    birth: u64,
) -> (InternedSliceRef<K>, Option<K::Header>)
where
    K::Header: Drop,
    requires { K.SliceInternable.USE_GC ≡ true }
{
    let answer = InternedSlice::from_header_and_slice(storage, header, items);
    let (slice, back) = allowed(answer).expect(rt, "interned");
    has_birth(rt, slice, birth);
    (slice, back)
}

/// Interns a pair that isn't stored: it gets this birth and count zero, and nothing comes back.
pub fn intern_new(
    rt: &impl Abort,
    alloc: Global,
    storage: &mut Numbered,
    (text, items): (&str, &[u64]),
    birth: u64,
) -> InternedSliceRef<Numbers> {
    let (slice, back) = intern(rt, storage, word_of(rt, alloc, text), items, birth);
    assert!(rt; back.is_none());
    has_count(rt, storage, slice, 0);
    slice
}

/// Interns a pair that is stored under this birth: the header comes back, and no entry is added.
pub fn intern_again(
    rt: &impl Abort,
    alloc: Global,
    storage: &mut Numbered,
    (text, items): (&str, &[u64]),
    birth: u64,
) -> InternedSliceRef<Numbers> {
    let len = storage.len();
    let (slice, back) = intern(rt, storage, word_of(rt, alloc, text), items, birth);
    is_equal(rt, back.as_ref().map(Word::text), Some(text));
    has_len(rt, storage, len);
    slice
}

/// Interns a pair that isn't stored where all births are given: the header comes back, and no entry
/// is added.
pub fn intern_in_vain(
    rt: &impl Abort,
    alloc: Global,
    storage: &mut Numbered,
    (text, items): (&str, &[u64]),
) {
    let len = storage.len();
    let header = word_of(rt, alloc, text);
    let answer = InternedSlice::from_header_and_slice(storage, header, items);
    let Refused { why, back } = answer.err().expect(rt, "refused");
    is_reason(rt, why, Refusal::NumbersUsedUp);
    is_equal(rt, back.text(), text);
    has_len(rt, storage, len);
}

/// Collects a storage, of any kind: what is known of one makes the proof long. It tells the visits,
/// the mark calls and the removed entries.
pub fn collect_one<F: Family>(
    rt: &impl Abort,
    alloc: Global,
    storage: &mut F,
) -> Option<(usize, u64, usize)>
    requires { F.collected ≡ true }
{
    assert!(rt; GarbageCollector::distinct(storage));
    told(GarbageCollector::new(alloc).collect(storage))
}

/// Reads this pair by a reference.
pub fn reads(
    rt: &impl Abort,
    storage: &Numbered,
    slice: InternedSliceRef<Numbers>,
    pair: (&str, &[u64]),
) {
    is_pair(rt, slice.get(storage), pair);
}

/// Reads this pair by an owned handle.
pub fn owner_reads(
    rt: &impl Abort,
    storage: &Numbered,
    owned: &InternedSlice<Numbers>,
    pair: (&str, &[u64]),
) {
    is_pair(rt, owned.get(storage), pair);
}

/// This pair was read, and the number of its items.
pub fn is_pair(
    rt: &impl Abort,
    read: Option<HeaderSlice<Word, u64>>,
    (text, items): (&str, &[u64]),
) {
    let read = read.expect(rt, "stored");
    is_equal(rt, read.header.header.text(), text);
    is_equal(rt, read.header.length, items.len());
    is_equal(rt, read.slice, items);
}

/// The reference names this birth.
pub fn has_birth<T>(rt: &impl Abort, slice: InternedSliceRef<T>, birth: u64) {
    is_equal(rt, slice.name().birth, birth);
}

/// The entry has this count.
pub fn has_count(
    rt: &impl Abort,
    storage: &Numbered,
    slice: InternedSliceRef<Numbers>,
    count: u64,
) {
    is_equal(rt, storage.count(slice), Some(count));
}

/// The storage has this many entries.
pub fn has_len(rt: &impl Abort, storage: &Numbered, len: usize) {
    is_equal(rt, storage.len(), len);
}

/// Makes an owned handle, after which the entry has this count.
pub fn own(
    rt: &impl Abort,
    storage: &mut Numbered,
    slice: InternedSliceRef<Numbers>,
    count: u64,
) -> InternedSlice<Numbers> {
    let owned = slice.to_owned(storage).expect(rt, "owned");
    assert!(rt; owned.as_ref() == slice);
    has_count(rt, storage, slice, count);
    owned
}

/// Makes a second owned handle, after which the entry has this count.
pub fn clone(
    rt: &impl Abort,
    storage: &mut Numbered,
    owned: &InternedSlice<Numbers>,
    count: u64,
) -> InternedSlice<Numbers> {
    let second = owned.clone(storage).expect(rt, "cloned");
    assert!(rt; second == *owned);
    has_count(rt, storage, owned.as_ref(), count);
    second
}

/// Releases an owned handle, after which the entry has this count.
pub fn release(rt: &impl Abort, storage: &mut Numbered, owned: InternedSlice<Numbers>, count: u64) {
    let slice = owned.as_ref();
    allowed(owned.release(storage)).expect(rt, "released");
    has_count(rt, storage, slice, count);
}

/// Takes a count back, after which the entry has this count.
pub fn decrement(
    rt: &impl Abort,
    storage: &mut Numbered,
    slice: InternedSliceRef<Numbers>,
    count: u64,
) {
    slice.decrement_refcount(storage).expect(rt, "decremented");
    has_count(rt, storage, slice, count);
}

/// Is refused an owned handle for this reason.
pub fn not_owned(
    rt: &impl Abort,
    storage: &mut Numbered,
    slice: InternedSliceRef<Numbers>,
    reason: Refusal,
) {
    is_refused(rt, slice.to_owned(storage), reason);
}

/// Is refused a second handle for this reason.
pub fn not_cloned(
    rt: &impl Abort,
    storage: &mut Numbered,
    owned: &InternedSlice<Numbers>,
    reason: Refusal,
) {
    is_refused(rt, owned.clone(storage), reason);
}

/// Is refused to give a handle up for this reason: the handle comes back.
pub fn not_released(
    rt: &impl Abort,
    storage: &mut Numbered,
    owned: InternedSlice<Numbers>,
    reason: Refusal,
) -> InternedSlice<Numbers> {
    let slice = owned.as_ref();
    let Refused { why, back } = owned.release(storage).err().expect(rt, "refused");
    is_reason(rt, why, reason);
    assert!(rt; back.as_ref() == slice);
    back
}

/// Is refused to take a count back for this reason.
pub fn not_decremented(
    rt: &impl Abort,
    storage: &mut Numbered,
    slice: InternedSliceRef<Numbers>,
    reason: Refusal,
) {
    is_refused(rt, slice.decrement_refcount(storage), reason);
}

/// Each call that takes a handle refuses this one, and a reference to its entry, for the same
/// reason. It gives the handle back.
pub fn refused_in_each_way(
    rt: &impl Abort,
    storage: &mut Numbered,
    owned: InternedSlice<Numbers>,
    reason: Refusal,
) -> InternedSlice<Numbers> {
    let slice = owned.as_ref();
    let len = storage.len();
    reads_nothing(rt, storage, &owned);
    not_cloned(rt, storage, &owned, reason);
    not_owned(rt, storage, slice, reason);
    not_decremented(rt, storage, slice, reason);
    let back = not_released(rt, storage, owned, reason);
    has_len(rt, storage, len);
    back
}

/// No call reads anything by this handle, nor by a reference to its entry.
fn reads_nothing(rt: &impl Abort, storage: &Numbered, owned: &InternedSlice<Numbers>) {
    let slice = owned.as_ref();
    assert!(rt; owned.get(storage).is_none());
    assert!(rt; slice.get(storage).is_none());
    is_equal(rt, storage.count(slice), None);
}
