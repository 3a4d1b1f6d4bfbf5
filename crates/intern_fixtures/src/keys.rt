//! Handles as the keys of a set and of a map.
use std::alloc::{AllocError, Global};
use std::cmp::Eq;
use std::collections::{HashMap, HashSet};
use std::hash::Hash;

/// Whether a set takes an equal key for the one that it has, and another for another.
pub fn a_set_tells_apart<K: Hash + Eq + Drop>(
    alloc: Global,
    key: K,
    equal: K,
    other: &K,
) -> Result<bool, AllocError> {
    let mut set = HashSet::new(alloc);
    let is_new = set.insert(key)?;
    let is_found = set.contains(&equal);
    let is_other_found = set.contains(other);
    let is_equal_new = set.insert(equal)?;
    Ok(is_new && is_found && !is_other_found && !is_equal_new)
}

/// Whether a map gives the value of the key that it has for an equal one, and nothing for another.
pub fn a_map_tells_apart<K: Hash + Eq + Drop>(
    alloc: Global,
    key: K,
    equal: &K,
    other: &K,
) -> Result<bool, AllocError> {
    let mut map = HashMap::new(alloc);
    let before = map.insert(key, 5)?;
    let value = map.get(equal).copied();
    let other_value = map.get(other).copied();
    Ok(before == None && value == Some(5) && other_value == None)
}
