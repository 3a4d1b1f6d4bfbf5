//! A closed pool leaves no word.
use crate::steps::is_equal;
use ra_ap_intern::{InternedRef, Text};
use std::process::Abort;
use use_pools::Pool;

fn add(rt: &impl Abort, pool: &mut Pool, word: &str) -> InternedRef<Text> {
    pool.add(word).expect(rt, "memory")
}

/// Forgets the last word, which comes back where it is told.
fn forget(rt: &impl Abort, pool: &mut Pool, word: Option<&str>) {
    let back = pool.forget().expect(rt, "a handle");
    is_equal(rt, back.as_ref().map(|word| word.as_str()), word);
}

#[test]
fn a_closed_pool_leaves_no_word(rt: HostRuntime) {
    let mut pool = Pool::new(rt.alloc(), 1);
    let first = add(&rt, &mut pool, "to");
    let other = add(&rt, &mut pool, "be");
    let again = add(&rt, &mut pool, "to");
    assert!(rt; first == again);
    assert!(rt; first != other);
    is_equal(&rt, pool.len(), 3);

    // The word stays while another handle of it is held.
    forget(&rt, &mut pool, None);
    assert!(rt; first.get(&pool.words).is_some_and(|word| word.is("to")));
    forget(&rt, &mut pool, Some("be"));
    is_equal(&rt, pool.len(), 1);

    let words = pool.close();
    assert!(rt; words.is_empty());
    assert!(rt; words.get_text("to").is_none());
}

#[test]
fn an_empty_pool_forgets_nothing(rt: HostRuntime) {
    let mut pool = Pool::new(rt.alloc(), 1);
    assert!(rt; pool.forget().is_none());
    assert!(rt; pool.close().is_empty());
}
