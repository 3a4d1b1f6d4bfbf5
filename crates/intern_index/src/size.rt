//! The sizes of types, in bytes.

/// The size of an optional value.
pub(crate) fn size_of_option<T>() -> usize {
    let none: Option<T> = None;
    let size = size_of_val(&none);
    match none {
        None => size,
        Some(_) => unreachable!(),
    }
}

/// The size of a value.
pub fn size_of_one<T>() -> usize {
    // An array of two has the same tag and padding as an array of one.
    size_of_option::<[T; 2]>().saturating_sub(size_of_option::<[T; 1]>())
}
