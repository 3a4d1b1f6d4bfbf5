//! What a collector learns of a storage.
ghost use Rattle.std.specs.FinMap as map;
ghost use Rattle.std.specs.Prelude.{◌≡◌, None, OnOk, nat_eq};
ghost use Rattle.std.specs.List.{IsDistinct};
ghost use Rattle.std.specs.Map.{keys_of};
ghost use Rattle.intern_marks.specs.Learning.{Learns};
ghost use Rattle.intern_store.specs.declared.names.Name.{Name as EntryName};
ghost use Rattle.ra_ap_intern.specs.Families.{counted_entries};

use intern_marks::{Flags, Marks};
use intern_store::EntryKey;
use intern_table::{Counted, Counts};
use std::alloc::AllocError;

/// Registers the entries of the storage of a number, none of which is registered. With `roots`, the
/// counted ones are marked at once. Where there is no memory for that, `AllocError`, and some of
/// them may be registered.
pub(super) fn learn_counts<T, N: Counted>(
    number: u64,
    counts: Counts<'_, T, N>,
    marks: &mut Marks,
    roots: bool,
) -> Result<(), AllocError>
    requires distinct { IsDistinct nat_eq (keys_of counts) }
    requires new { (x : EntryName) → x.storage ≡ number → map.get marks.old.registered x ≡ None }
    ensures { OnOk result (Learns roots (counted_entries number counts.entry) marks.old marks.new) }
{
    for (spot, count) in counts {
        let key = EntryKey {
            storage: number,
            spot,
        };
        let is_counted = count != 0;
        let flags = Flags {
            is_counted,
            is_marked: roots && is_counted,
        };
        marks.add(key, flags)?;
    }
    Ok(())
}
