//! What the crates of tests share: values to intern, handles as keys, and short words for what a
//! call answers.
#![tactic(auto)]

mod answers;
mod dice;
mod keys;
mod nodes;
mod slices;
mod storages;
mod values;

pub use answers::{allowed, refusal, told};
pub use dice::Dice;
pub use keys::{a_map_tells_apart, a_set_tells_apart};
pub use nodes::{GcString, Node, make_gc_string, make_node};
pub use slices::{NodeSlice, StringSlice};
pub use storages::{
    drop_slices, drop_values, limited_slices, limited_values, new_slices, new_values,
};
pub use values::{Unhashed, Word, make_word};
