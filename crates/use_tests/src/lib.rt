//! Tests of the callers to copy from: what each does with values of its own.
#![tactic(auto)]

#[cfg(test)]
mod counts;
#[cfg(test)]
mod hashers;
#[cfg(test)]
mod lists;
#[cfg(test)]
mod lookups;
#[cfg(test)]
mod memos;
#[cfg(test)]
mod names;
#[cfg(test)]
mod nodes;
#[cfg(test)]
mod owed;
#[cfg(test)]
mod paths;
#[cfg(test)]
mod pools;
#[cfg(test)]
mod refusals;
#[cfg(test)]
mod removed;
#[cfg(test)]
mod room;
#[cfg(test)]
mod roots;
#[cfg(test)]
mod steps;
#[cfg(test)]
mod terms;
#[cfg(test)]
mod types;
#[cfg(test)]
mod unwraps;
#[cfg(test)]
mod visitors;
#[cfg(test)]
mod walks;
#[cfg(test)]
mod words;
