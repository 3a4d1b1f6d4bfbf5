//! A value handed out by the only handle of it, as `Rc::try_unwrap` of std hands one out.
#![tactic(auto)]

ghost use Rattle.std.specs.Prelude.{◌≡◌, ◌≢◌, false, Some, IfOk, IfErr};
ghost use Rattle.ra_ap_intern.specs.Handle.{name_of};
ghost use Rattle.ra_ap_intern.specs.Name.{Name};
ghost use Rattle.ra_ap_intern.specs.Outcome.{Becomes};
ghost use Rattle.ra_ap_intern.specs.State.{counts, reads, taken};

use ra_ap_intern::{InternStorage, Internable, Interned, Refused};

/// The value of a handle, taken out of the storage, where no other handle counts: else the handle
/// comes back, and nothing has changed. Other values stay.
pub fn try_unwrap<T: Internable + Drop>(
    storage: &mut InternStorage<T>,
    handle: Interned<T>,
) -> Result<T, Interned<T>>
    requires { T.Internable.USE_GC ≡ false }
    ensures only { IfOk result (λ value. counts storage.old (name_of handle) ≡ Some 1) }
    ensures value { IfOk result (λ value. reads storage.old (name_of handle) ≡ Some value) }
    ensures shared { IfErr result (λ back. counts storage.old (name_of handle) ≢ Some 1) }
    ensures back { IfErr result (λ back. back ≡ handle) }
    ensures state { Becomes result storage.old storage.new
        (taken storage.old (name_of handle).birth) }
    ensures others { (n : Name) → n.birth ≢ (name_of handle).birth →
        reads storage.new n ≡ reads storage.old n }
{
    if storage.count(handle.as_ref()) != Some(1) {
        return Err(handle);
    }
    match handle.release(storage) {
        Ok(Some(value)) => Ok(value),
        Ok(None) => unreachable!(),
        Err(Refused { back, .. }) => Err(back),
    }
}
