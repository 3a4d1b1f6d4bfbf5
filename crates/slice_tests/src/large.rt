//! Storages with many slices.
use crate::steps::{intern_again, intern_new, reads};
use intern_fixtures::{drop_slices, new_slices};

#[test]
fn ten_thousand_slices_are_kept_apart(rt: HostRuntime) {
    let alloc = rt.alloc();
    let mut storage = new_slices(alloc, 1);
    for k in 0..10_000 {
        let _ = intern_new(&rt, alloc, &mut storage, ("a", &[k]), k);
    }
    assert_eq!(rt; storage.len(), 10_000);
    for k in 0..10_000 {
        let slice = intern_again(&rt, alloc, &mut storage, ("a", &[k]), k);
        reads(&rt, &storage, slice, ("a", &[k]));
    }
    drop_slices(storage);
}
