//! Steps of tests over texts that are collected, each with the answer that it must get.
ghost use Rattle.std.specs.Prelude.{◌≡◌, true};

use crate::steps::{self, has_birth, has_len, is_equal, is_reason, length};
use intern_fixtures::{GcString, make_gc_string, told};
use ra_ap_intern::{
    Family, GarbageCollector, InternStorage, Interned, InternedRef, Refusal, Refused,
};
use std::alloc::Global;
use std::process::Abort;

/// A storage of texts that are collected.
pub type Strings = InternStorage<GcString>;

/// The collected text.
fn string_of(rt: &impl Abort, alloc: Global, text: &str) -> GcString {
    make_gc_string(alloc, text).expect(rt, "memory")
}

/// Interns a text that isn't stored: it gets this birth and count 0, and nothing comes back.
pub fn intern_new(
    rt: &impl Abort,
    alloc: Global,
    storage: &mut Strings,
    text: &str,
    birth: u64,
) -> InternedRef<GcString> {
    steps::intern_new_gc(rt, storage, string_of(rt, alloc, text), birth)
}

/// Interns a text that is stored under this birth: it comes back, and no entry is added.
pub fn intern_again(
    rt: &impl Abort,
    alloc: Global,
    storage: &mut Strings,
    text: &str,
    birth: u64,
) -> InternedRef<GcString> {
    let len = length(storage);
    let answer = Interned::new_gc(storage, string_of(rt, alloc, text));
    let (string, back) = answer.expect(rt, "interned");
    has_birth(rt, string, birth);
    is_equal(rt, back.as_ref().map(GcString::text), Some(text));
    has_len(rt, storage, len);
    string
}

/// Interns a text that isn't stored where all births are given: it comes back, and no entry is
/// added.
pub fn not_interned(rt: &impl Abort, alloc: Global, storage: &mut Strings, text: &str) {
    let len = length(storage);
    let answer = Interned::new_gc(storage, string_of(rt, alloc, text));
    let Refused { why, back } = answer.err().expect(rt, "refused");
    is_reason(rt, why, Refusal::NumbersUsedUp);
    is_equal(rt, back.text(), text);
    has_len(rt, storage, len);
}

/// Collects a storage of one text that nothing counts: no entry is left.
pub fn collect_the_only_one(rt: &impl Abort, alloc: Global, storage: &mut Strings) {
    collects(rt, alloc, storage, (0, 0, 1));
    has_len(rt, storage, 0);
}

/// Collects a family: the visits, the mark calls and the removed entries are these.
fn collects<F: Family>(rt: &impl Abort, alloc: Global, family: &mut F, answer: (usize, u64, usize))
    requires { F.collected ≡ true }
{
    assert!(rt; GarbageCollector::distinct(family));
    let collected = GarbageCollector::new(alloc).collect(family);
    is_equal(rt, told(collected), Some(answer));
}
