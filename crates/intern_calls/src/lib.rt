//! Calls of the library on handles in slots: what each takes, does and replies.
#![tactic(auto)]

mod call;
mod parts;
mod reply;
mod slot;
mod slots;

pub use call::{Call, Kind, Which};
pub use parts::Parts;
pub use reply::{Back, Reply};
pub use slot::Slot;
pub use slots::Slots;
