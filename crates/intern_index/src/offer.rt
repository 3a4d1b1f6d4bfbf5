//! What is offered to an index.
ghost use Rattle.std.specs.Prelude.{◌≡◌, ℕ, IsOk, IfOk, IfErr};

use std::alloc::Global;

/// What names a value to store, and is made into it once there is room.
pub trait Offer<T>: Sized {
    // The value that would be stored.
    ghost value: { Self → T };

    // How much of it takes memory of its own, outside of its entry.
    ghost outside: { Self → ℕ };

    /// The value to store, or the offer back where there is no memory for it.
    fn into_value(self, alloc: Global) -> Result<T, Self>
        ensures ok { IfOk result (λ v. v ≡ value self) }
        ensures err { IfErr result (λ back. back ≡ self) }
        ensures inside { outside self ≡ 0 → IsOk result };
}

// A value is offered as itself.
impl<T> Offer<T> for T {
    ghost value = { λ v. v };

    ghost outside = { λ _. 0 };

    fn into_value(self, _alloc: Global) -> Result<T, T> {
        Ok(self)
    }
}
