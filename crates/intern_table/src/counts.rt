//! Changes of counts.
ghost use Rattle.std.specs.Prelude.{◌-◌};
ghost use Rattle.intern_store.specs.Kept.{raised};

use crate::pool::SlicePayload;
use intern_index::{Change, Packed};

/// One more, below a limit.
#[derive(Clone, Copy)]
pub(crate) struct Raise {
    pub(crate) top: u64,
}

/// One less, above zero.
#[derive(Clone, Copy)]
pub(crate) struct Lower;

/// The same change of the count of a slice.
#[derive(Clone, Copy)]
pub(crate) struct OfCount<C>(pub(crate) C);

impl Change<u64> for Raise {
    ghost changed = { λ c n. raised c.top n };

    fn changed(&self, count: u64) -> u64 {
        if count < self.top { count + 1 } else { count }
    }
}

impl Change<u64> for Lower {
    ghost changed = { λ c n. n - 1 };

    fn changed(&self, count: u64) -> u64 {
        count.saturating_sub(1)
    }
}

impl<C: Change<u64>> Change<SlicePayload> for OfCount<C> {
    ghost changed = { λ c p. record p { count = C.changed c.0 p.count } };

    fn changed(&self, payload: SlicePayload) -> SlicePayload {
        SlicePayload {
            count: Packed::of(self.0.changed(payload.count.get())),
            ..payload
        }
    }
}
