//! Lists of numbers, each under a label and stored once: two are compared by their handles.
#![tactic(auto)]

ghost use Rattle.std.specs.Prelude.{◌≡◌, ◌↔◌, true, Some, IfOk, IfSome};
ghost use Rattle.std.specs.Option.{option_map};
ghost use Rattle.ra_ap_intern.specs.Handle.{ref_name};
ghost use Rattle.ra_ap_intern.specs.Outcome.{Becomes, MayWant};
ghost use Rattle.ra_ap_intern.specs.Sliced.{Sliced, sliced_eq};
ghost use Rattle.ra_ap_intern.specs.Slices.{slice_of, slice_in, slice_name_in, due_slice, is_new_slice};
ghost use Rattle.ra_ap_intern.specs.State.{reads, name_of_value};
ghost use Rattle.use_lists.specs.Lists.{Labelled, same_list};

use ra_ap_intern::{Far, InternSliceStorage, InternedSliceRef, Refusal, SliceInternable, laws};

/// Lists of numbers behind a label.
pub struct Numbers;

impl SliceInternable for Numbers {
    type Header = u32;

    type SliceType = u64;

    const USE_GC: bool = true;

    ghost USE_GC = { true };
}

/// A handle of a list.
pub type ListRef = InternedSliceRef<Numbers>;

/// A store of lists. Handles tell stores apart by their numbers alone.
pub type Lists = InternSliceStorage<Numbers>;

/// The handle of a list, which is stored where no equal one is. Refused: `NumbersUsedUp` and
/// `OutOfMemory` where it isn't stored.
pub fn intern(lists: &mut Lists, label: u32, numbers: &[u64]) -> Result<ListRef, Refusal>
    ensures name { IfOk result (λ l.
        ref_name l ≡ slice_name_in same_list lists.old label numbers.now) }
    ensures refused { MayWant result (due_slice same_list lists.old label numbers.now)
        (is_new_slice same_list lists.old label numbers.now) }
    ensures state { Becomes result lists.old lists.new
        (slice_in same_list lists.old label numbers.now).state }
    ensures reads { IfOk result (λ l.
        reads lists.new (ref_name l) ≡ Some (slice_of label numbers.now)) }
{
    equal_lists_are_the_same();
    let list = lists.get_or_intern(label, numbers)?;
    Ok(list)
}

/// The same of a list of any kind, behind any header.
pub fn intern_any<T: SliceInternable>(
    lists: &mut InternSliceStorage<T>,
    header: T::Header,
    items: &[T::SliceType],
) -> Result<InternedSliceRef<T>, Refusal>
where
    T::Header: Drop,
    requires { T.SliceInternable.USE_GC ≡ true }
    ensures name { let eq = sliced_eq T.Header.eq T.SliceType.eq in
        IfOk result (λ l. ref_name l ≡ slice_name_in eq lists.old header items.now) }
    ensures refused { let eq = sliced_eq T.Header.eq T.SliceType.eq in
        MayWant result (due_slice eq lists.old header items.now)
        (is_new_slice eq lists.old header items.now) }
    ensures state { let eq = sliced_eq T.Header.eq T.SliceType.eq in
        Becomes result lists.old lists.new (slice_in eq lists.old header items.now).state }
    ensures reads { let eq = sliced_eq T.Header.eq T.SliceType.eq in
        IfOk result (λ l. (w : Sliced T.Header T.SliceType)
        × (reads lists.new (ref_name l) ≡ Some w) × (eq (slice_of header items.now) w ≡ true)) }
{
    let list = lists.get_or_intern(header, items)?;
    Ok(list)
}

/// The handle of a list. None where it isn't stored. It takes no memory.
pub fn find(lists: &Lists, label: u32, numbers: &[u64]) -> Option<ListRef>
    ensures name { option_map ref_name result
        ≡ name_of_value same_list lists.now (slice_of label numbers.now) }
    ensures reads { IfSome result (λ l.
        reads lists.now (ref_name l) ≡ Some (slice_of label numbers.now)) }
{
    equal_lists_are_the_same();
    let list = lists.get(&label, numbers)?;
    Some(list)
}

/// The label and the numbers of a list. None for a handle of another store, or of a list that is
/// gone.
pub fn read(lists: &Lists, list: ListRef) -> Option<(u32, &[u64])>
    ensures { option_map (λ l. slice_of l.0 l.1.now) result ≡ reads lists.now (ref_name list) }
{
    let read = list.get(lists)?;
    Some((*read.header.header, read.slice))
}

/// Whether two handles are equal, which they are exactly if their lists are. It reads neither.
pub fn is_same(lists: &Lists, first: ListRef, second: ListRef) -> bool
    ensures names { (result ≡ true) ↔ (ref_name first ≡ ref_name second) }
    ensures lists { (v w : Labelled) →
        reads lists.now (ref_name first) ≡ Some v → reads lists.now (ref_name second) ≡ Some w →
        (result ≡ true) ↔ (v ≡ w) }
{
    equal_lists_are_the_same();
    laws::slice_references_are_names::<Numbers>();
    laws::handles_tell_slices::<Numbers, Far>();
    let _number = lists.number();
    first == second
}

/// Lists are equal exactly if their labels are the same and their numbers are.
pub fn equal_lists_are_the_same()
    ensures { (v w : Labelled) → (same_list v w ≡ true) ↔ (v ≡ w) }
{}
