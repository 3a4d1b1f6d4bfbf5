//! What a symbol names, in 24 bytes.
ghost use Rattle.std.specs.Prelude.{◌≡◌, refl};
ghost use Rattle.std.specs.Option.{option_map};
ghost use Rattle.std.specs.Ordering.{on, as_partial_cmp};
ghost use Rattle.std.specs.Cmp.{on_total, partial_order_from_own_ties, partial_order_from_total};
ghost use Rattle.std.specs.Cmp.Rules.{comparing, hashing};
ghost use Rattle.std.proofs.Common.{rules};
ghost use Rattle.intern_presets.specs.Presets.{preset_text};
ghost use Rattle.ra_ap_intern.specs.Symbols.{source_of, source_name};
ghost use Rattle.ra_ap_intern.specs.contracts.symbol.packed.SourceOrd.TheImpl.Laws.{total-law as source_total};

use crate::optional::NOWHERE;
use intern_store::{EntryKey, Spot};
use std::cmp::{Eq, Ordering};
use std::hash::{Hash, Hasher};

// Where the text of a symbol is: at the place of a preset, or in the entry of a table.
#[derive(Clone, Copy, PartialEq, Eq, PartialOrd, Ord, Hash)]
pub(super) enum Source {
    Preset(u64),
    Runtime(EntryKey),
}

// A source in 24 bytes, where the enum takes 32: the number of a table, and the birth and the place
// of an entry. A preset stands as the birth of what lies nowhere. It is compared, ordered and
// hashed as the source is.
#[derive_where(Clone, Copy)]
pub(super) struct Packed(pub(super) u64, pub(super) u64, pub(super) usize);

impl Packed {
    pub(super) fn preset(place: u16) -> Packed
        ensures { source_name (source_of result) ≡ source_name (Source.Preset place) }
    {
        Packed(0, u64::from(place), NOWHERE)
    }

    pub(super) fn runtime(key: EntryKey) -> Packed
        ensures { source_name (source_of result) ≡ source_name (Source.Runtime key) }
    {
        // A place saves a look-up alone, so that any will do.
        let place = key.spot.place.min(NOWHERE - 1);
        Packed(key.storage, key.spot.birth, place)
    }

    pub(super) fn source(self) -> Source
        ensures { result ≡ source_of self }
    {
        let Packed(storage, birth, place) = self;
        if place == NOWHERE {
            return Source::Preset(birth);
        }
        let spot = Spot { birth, place };
        Source::Runtime(EntryKey { storage, spot })
    }
}

impl PartialEq for Packed {
    ghost eq = { on source_of ⟦<Source as PartialEq>⟧.eq };

    ghost laws = { Prim.search (comparing, rules) };

    fn eq(&self, other: &Packed) -> bool {
        self.source() == other.source()
    }
}

impl Eq for Packed {
    ghost laws = { Prim.search (comparing, rules) };
}

impl PartialOrd for Packed {
    ghost partial_cmp = { as_partial_cmp (on source_of ⟦<Source as Ord>⟧.cmp) };

    ghost laws = { partial_order_from_own_ties
        (partial_order_from_total (on_total source_of {R = ⟦<Source as Ord>⟧.cmp} source_total))
        (Prim.search (comparing, rules)) };

    fn partial_cmp(&self, other: &Packed) -> Option<Ordering> {
        Some(self.cmp(other))
    }
}

impl Ord for Packed {
    ghost cmp = { on source_of ⟦<Source as Ord>⟧.cmp };

    ghost total = { on_total source_of {R = ⟦<Source as Ord>⟧.cmp} source_total };

    ghost matches_partial_cmp = { λ _ _. refl };

    ghost matches_eq = { Prim.search (comparing, rules) };

    fn cmp(&self, other: &Packed) -> Ordering {
        self.source().cmp(&other.source())
    }
}

impl Hash for Packed {
    ghost hash_input = { λ a. ⟦<Source as Hash>⟧.hash_input (source_of a) };

    ghost respects_eq = { Prim.search (hashing, rules) };

    fn hash<H: Hasher>(&self, state: &mut H) {
        self.source().hash(state);
    }
}

// The text of the preset at a place, if one is there.
pub(super) fn text_of_preset(place: u64) -> Option<&'static str>
    ensures { option_map (λ t. t.now) result ≡ preset_text place }
{
    match u16::try_from(place) {
        Ok(place) => intern_presets::text(place),
        Err(_) => None,
    }
}
