//! Steps that tests share.
use std::fmt::Debug;
use std::process::Abort;

/// The values are equal.
pub(crate) fn is_equal<V: Copy + PartialEq + Debug>(rt: &impl Abort, found: V, wanted: V) {
    assert_eq!(rt; found, wanted);
}
