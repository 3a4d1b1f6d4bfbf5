//! Steps of tests over values of any type, each with the answer that it must get.
ghost use Rattle.std.specs.Prelude.{◌≡◌, true, false};

use intern_fixtures::{allowed, refusal};
use ra_ap_intern::{
    InternStorage, Internable, Interned, InternedRef, Name, Refusal, Refused, Reserved, Values,
};
use std::fmt::Debug;
use std::process::Abort;

/// The values are equal.
pub fn is_equal<V: Copy + PartialEq + Debug>(rt: &impl Abort, found: V, wanted: V) {
    assert_eq!(rt; found, wanted);
}

/// There is nothing.
pub fn is_none<V: Drop>(rt: &impl Abort, found: Option<V>) {
    assert!(rt; found.is_none());
}

/// Both references are of one entry.
pub fn is_same<T>(rt: &impl Abort, found: InternedRef<T>, wanted: InternedRef<T>) {
    assert!(rt; found == wanted);
}

/// Adds a value at the end of a list.
pub fn push<V: Drop>(rt: &impl Abort, list: &mut Vec<V>, value: V) {
    let pushed: Result<_, _> = list.push(value);
    pushed.expect(rt, "memory");
}

/// The call was refused for this reason.
fn is_refused<A: Drop>(rt: &impl Abort, answer: Result<A, Refusal>, reason: Refusal) {
    is_reason(rt, refusal(answer).expect(rt, "refused"), reason);
}

/// This is the reason of a refusal.
pub fn is_reason(rt: &impl Abort, why: Refusal, reason: Refusal) {
    is_equal(rt, why, reason);
}

/// The reference names this birth.
pub fn has_birth<T>(rt: &impl Abort, reference: InternedRef<T>, birth: u64) {
    is_equal(rt, reference.as_raw(), birth);
}

/// The reference names this birth in the storage of this number.
pub fn has_name<T>(rt: &impl Abort, reference: InternedRef<T>, (storage, birth): (u64, u64)) {
    is_equal(rt, reference.name(), Name { storage, birth });
}

/// How many entries the storage has. A test that calls `len` itself is proved for longer.
pub fn length<T: Internable>(storage: &InternStorage<T>) -> usize {
    storage.len()
}

/// The count of an entry, or none. A test that calls `count` itself is proved for longer.
pub fn counted<T: Internable>(
    storage: &InternStorage<T>,
    reference: InternedRef<T>,
) -> Option<u64> {
    storage.count(reference)
}

/// The entry has this count.
pub fn has_count<T: Internable>(
    rt: &impl Abort,
    storage: &InternStorage<T>,
    reference: InternedRef<T>,
    count: u64,
) {
    is_equal(rt, counted(storage, reference), Some(count));
}

/// The storage has this many entries.
pub fn has_len<T: Internable>(rt: &impl Abort, storage: &InternStorage<T>, len: usize) {
    is_equal(rt, length(storage), len);
}

/// The storage has this number, and no entry.
pub fn is_empty<T: Internable>(rt: &impl Abort, storage: &InternStorage<T>, number: u64) {
    is_equal(rt, storage.number(), number);
    has_len(rt, storage, 0);
}

/// Interns a value that is counted and isn't stored: it gets this birth and count 1, and nothing
/// comes back.
pub fn intern_new<T: Internable + Drop>(
    rt: &impl Abort,
    storage: &mut InternStorage<T>,
    value: T,
    birth: u64,
) -> Interned<T>
    requires { T.Internable.USE_GC ≡ false }
{
    let (handle, back) = allowed(Interned::new(storage, value)).expect(rt, "interned");
    has_birth(rt, handle.as_ref(), birth);
    is_none(rt, back);
    has_count(rt, storage, handle.as_ref(), 1);
    handle
}

/// Interns a value that is counted and is stored under this birth: its entry has this count then,
/// and the value comes back.
pub fn intern_again<T: Internable + Drop>(
    rt: &impl Abort,
    storage: &mut InternStorage<T>,
    value: T,
    counted: (u64, u64),
) -> (Interned<T>, T)
    requires { T.Internable.USE_GC ≡ false }
{
    let (birth, count) = counted;
    let len = length(storage);
    let (handle, back) = allowed(Interned::new(storage, value)).expect(rt, "interned");
    has_birth(rt, handle.as_ref(), birth);
    has_count(rt, storage, handle.as_ref(), count);
    has_len(rt, storage, len);
    (handle, back.expect(rt, "the value"))
}

/// Interns a value that is counted and is refused for this reason: no entry is added, and the value
/// comes back.
pub fn not_interned<T: Internable + Drop>(
    rt: &impl Abort,
    storage: &mut InternStorage<T>,
    value: T,
    reason: Refusal,
) -> T
    requires { T.Internable.USE_GC ≡ false }
{
    let len = length(storage);
    let Refused { why, back } = Interned::new(storage, value).err().expect(rt, "refused");
    is_reason(rt, why, reason);
    has_len(rt, storage, len);
    back
}

/// Interns a value that is collected and isn't stored: it gets this birth and count 0, and nothing
/// comes back.
pub fn intern_new_gc<T: Internable + Drop>(
    rt: &impl Abort,
    storage: &mut InternStorage<T>,
    value: T,
    birth: u64,
) -> InternedRef<T>
    requires { T.Internable.USE_GC ≡ true }
{
    let (reference, back) = allowed(Interned::new_gc(storage, value)).expect(rt, "interned");
    has_birth(rt, reference, birth);
    is_none(rt, back);
    has_count(rt, storage, reference, 0);
    reference
}

/// Room for this many more entries.
pub fn reserve<'a, T: Internable>(
    rt: &impl Abort,
    storage: &'a mut InternStorage<T>,
    additional: usize,
) -> &'a mut Reserved<Values<T>> {
    storage.reserve(additional).expect(rt, "memory")
}

/// Reads nothing, and there is no count.
pub fn reads_nothing<T: Internable>(
    rt: &impl Abort,
    storage: &InternStorage<T>,
    reference: InternedRef<T>,
) {
    assert!(rt; reference.get(storage).is_none());
    is_equal(rt, counted(storage, reference), None);
}

/// The entry of a birth.
pub fn stored<T: Internable>(
    rt: &impl Abort,
    storage: &InternStorage<T>,
    birth: u64,
) -> InternedRef<T> {
    InternedRef::from_raw(storage, birth).expect(rt, "stored")
}

/// Finds no entry of a birth.
pub fn not_found<T: Internable + Drop>(rt: &impl Abort, storage: &InternStorage<T>, birth: u64) {
    is_refused(rt, InternedRef::from_raw(storage, birth), Refusal::Gone);
    not_taken_over(rt, storage, birth, Refusal::Gone);
}

/// Is refused an owned handle of a birth for this reason.
pub fn not_taken_over<T: Internable + Drop>(
    rt: &impl Abort,
    storage: &InternStorage<T>,
    birth: u64,
    reason: Refusal,
) {
    is_refused(rt, Interned::from_raw(storage, birth), reason);
}

/// Takes over a count of the entry of this birth, which stays as it is.
pub fn take_over<T: Internable>(
    rt: &impl Abort,
    storage: &InternStorage<T>,
    (birth, count): (u64, u64),
) -> Interned<T> {
    let taken = Interned::from_raw(storage, birth).expect(rt, "taken over");
    has_birth(rt, taken.as_ref(), birth);
    has_count(rt, storage, taken.as_ref(), count);
    taken
}

/// Makes an owned handle of a reference, after which the entry has this count.
pub fn own<T: Internable>(
    rt: &impl Abort,
    storage: &mut InternStorage<T>,
    reference: InternedRef<T>,
    count: u64,
) -> Interned<T> {
    let owned = reference.to_owned(storage).expect(rt, "owned");
    is_same(rt, owned.as_ref(), reference);
    has_count(rt, storage, reference, count);
    owned
}

/// Is refused a second handle for this reason.
pub fn not_cloned<T: Internable + Drop>(
    rt: &impl Abort,
    storage: &mut InternStorage<T>,
    handle: &Interned<T>,
    reason: Refusal,
) {
    is_refused(rt, handle.clone(storage), reason);
}

/// Is refused an owned handle of a reference for this reason.
pub fn not_owned<T: Internable + Drop>(
    rt: &impl Abort,
    storage: &mut InternStorage<T>,
    reference: InternedRef<T>,
    reason: Refusal,
) {
    is_refused(rt, reference.to_owned(storage), reason);
}

/// Takes one count back, after which the entry has this count.
pub fn count_down<T: Internable>(
    rt: &impl Abort,
    storage: &mut InternStorage<T>,
    reference: InternedRef<T>,
    count: u64,
) {
    is_equal(rt, reference.decrement_refcount(storage), Ok(()));
    has_count(rt, storage, reference, count);
}

/// Is refused to take one count back for this reason.
pub fn not_counted_down<T: Internable>(
    rt: &impl Abort,
    storage: &mut InternStorage<T>,
    reference: InternedRef<T>,
    reason: Refusal,
) {
    is_refused(rt, reference.decrement_refcount(storage), reason);
}

/// Releases a handle that frees nothing, after which the entry has this count.
pub fn release<T: Internable + Drop>(
    rt: &impl Abort,
    storage: &mut InternStorage<T>,
    handle: Interned<T>,
    count: u64,
) {
    let reference = handle.as_ref();
    let freed = allowed(handle.release(storage)).expect(rt, "released");
    is_none(rt, freed);
    has_count(rt, storage, reference, count);
}

/// Releases the last handle: its entry is gone, and the value comes back.
pub fn release_last<T: Internable + Drop>(
    rt: &impl Abort,
    storage: &mut InternStorage<T>,
    handle: Interned<T>,
) -> T {
    let reference = handle.as_ref();
    let freed = allowed(handle.release(storage)).expect(rt, "released");
    reads_nothing(rt, storage, reference);
    freed.expect(rt, "the value")
}

/// Is refused a release for this reason. The handle comes back, and no entry goes.
pub fn not_released<T: Internable + Drop>(
    rt: &impl Abort,
    storage: &mut InternStorage<T>,
    handle: Interned<T>,
    reason: Refusal,
) -> Interned<T> {
    let (len, reference) = (length(storage), handle.as_ref());
    let Refused { why, back } = handle.release(storage).err().expect(rt, "refused");
    is_reason(rt, why, reason);
    is_same(rt, back.as_ref(), reference);
    has_len(rt, storage, len);
    back
}

/// Each call that takes a handle refuses this one, and a reference to its entry, for the same
/// reason. Nothing is read by them. The handle comes back, and no entry goes.
pub fn refused_in_each_way<T: Internable + Drop>(
    rt: &impl Abort,
    storage: &mut InternStorage<T>,
    handle: Interned<T>,
    reason: Refusal,
) -> Interned<T> {
    let reference = handle.as_ref();
    assert!(rt; handle.get(storage).is_none());
    reads_nothing(rt, storage, reference);
    not_cloned(rt, storage, &handle, reason);
    not_owned(rt, storage, reference, reason);
    not_counted_down(rt, storage, reference, reason);
    not_released(rt, storage, handle, reason)
}

/// Each call that takes a count back, or over, is refused it, since there is none. The handle comes
/// back, and its entry stays.
pub fn not_lowered<T: Internable + Drop>(
    rt: &impl Abort,
    storage: &mut InternStorage<T>,
    handle: Interned<T>,
) -> Interned<T> {
    let reference = handle.as_ref();
    not_counted_down(rt, storage, reference, Refusal::CountZero);
    not_taken_over(rt, storage, reference.as_raw(), Refusal::CountZero);
    let back = not_released(rt, storage, handle, Refusal::CountZero);
    has_count(rt, storage, reference, 0);
    back
}

/// Each call that counts a handle's entry once more is refused, since this count is the greatest.
pub fn not_raised<T: Internable + Drop>(
    rt: &impl Abort,
    storage: &mut InternStorage<T>,
    handle: &Interned<T>,
    count: u64,
) {
    let reference = handle.as_ref();
    not_cloned(rt, storage, handle, Refusal::CountFull);
    not_owned(rt, storage, reference, Refusal::CountFull);
    has_count(rt, storage, reference, count);
}
