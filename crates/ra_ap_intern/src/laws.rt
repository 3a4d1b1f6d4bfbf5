//! Laws of the definitions, each the contract of a function that does nothing.
ghost use Rattle.std.specs.Prelude.{◌≡◌, ◌<◌, ◌+◌, ◌^◌, ◌↔◌, ℕ, List, Bool, true, false, if◌then◌else◌, Some, None, decimal, option_and_then};
ghost use Rattle.std.specs.List.{list_all};
ghost use Rattle.std.specs.Str.{bytes_eq};
ghost use Rattle.intern_marks.specs.Names.{has};
ghost use Rattle.intern_marks.specs.Reach.{Entry, entry_of, IsReachedSet, IsClosed, starts_with};
ghost use Rattle.intern_presets.specs.Numbers.{number_value};
ghost use Rattle.intern_presets.specs.Presets.{preset_text, place_of};
ghost use Rattle.intern_store.specs.State.{State, Stored, IsState, IsGone, reads, counts, entry_at, count_at, birth_of, is_new, interned, interned_name, name_in, counted_up, counted_down, released, kept, due_interning, full, any_count};
ghost use Rattle.intern_store.specs.declared.names.Name.{Name};
ghost use Rattle.intern_table.specs.Sliced.{Sliced, sliced_eq};
ghost use Rattle.ra_ap_intern.specs.Constants.{constants};
ghost use Rattle.ra_ap_intern.specs.Families.{IsCollection, kept_named};
ghost use Rattle.ra_ap_intern.specs.Handle.{handle_of, name_cmp, name_of, ref_name};
ghost use Rattle.ra_ap_intern.specs.Symbols.{IsTable, Named, Counted, named_cmp, symbol_name, symbol_of, symbol_ref_name, has_its_text, text_of, symbol_in, due_symbol, at_entry, is_new_text};
ghost use Rattle.ra_ap_intern.specs.Symbols.Named.{preset, entry};
ghost use Rattle.ra_ap_intern.specs.declared.gc.Collected.{Collected as Told};
ghost use Rattle.intern_table.specs.declared.layout.Far.{Far};
ghost use Rattle.ra_ap_intern.specs.declared.kind.Slices.{Slices as SliceKind};
ghost use Rattle.ra_ap_intern.specs.declared.kind.Values.{Values as ValueKind};
ghost use Rattle.ra_ap_intern.specs.declared.owed.Owed.{Owed as ToRelease};
ghost use Rattle.ra_ap_intern.specs.declared.storage.Owned.{Owned as Handle};
ghost use Rattle.ra_ap_intern.specs.declared.storage.Ref.{Ref as Reference};
ghost use Rattle.ra_ap_intern.specs.declared.symbol.Symbol.{Symbol as Sym};
ghost use Rattle.ra_ap_intern.specs.declared.symbol.SymbolRef.{SymbolRef as SymRef};
ghost use Rattle.ra_ap_intern.specs.declared.symbol.owed.OwedSymbol.{OwedSymbol as OwedSym};

use crate::gc::Family;
use crate::intern::{Interned, InternedRef};
use crate::intern_slice::{InternedSlice, InternedSliceRef, SliceInternable};
use crate::kind::{Slices, Values};
use crate::owed::Owed;
use crate::storage::{Owned, Ref};
use crate::symbol::{OwedSymbol, Symbol, SymbolRef};
pub use intern_marks::laws::{
    roots_without_entries_begin_nothing, what_is_reached_is_the_least_closed_set,
};
use intern_table::SliceValue;
use std::cmp::Eq;
use std::hash::Hash;

/// Names of entries of one storage are equal exactly if the values that they read are.
#[tactic(auto, using(crate::proofs::CallerReads::read_once))]
pub fn names_tell_values<T: Eq>()
    ensures { (s : State T) → IsState T.eq s → (n m : Name) (v w : T) →
        reads s n ≡ Some v → reads s m ≡ Some w → (n ≡ m) ↔ (T.eq v w ≡ true) }
{}

/// What is gone stays gone: a birth that was given and has no entry has none after any change of
/// its storage.
pub fn what_is_gone_stays_gone<T: Eq>()
    ensures interned { (s : State T) (v : T) (b : ℕ) →
        IsGone s b → IsGone (interned T.eq s v).state b }
    ensures counted_up { (s : State T) (c b : ℕ) → IsGone s b → IsGone (counted_up s c) b }
    ensures counted_down { (s : State T) (c b : ℕ) → IsGone s b → IsGone (counted_down s c) b }
    ensures released { (s : State T) (stays : Bool) (c b : ℕ) →
        IsGone s b → IsGone (released stays s c) b }
    ensures swept { (s : State T) (marked : ℕ → Bool) (b : ℕ) →
        IsGone s b → IsGone (kept s marked) b }
{}

/// A birth is given once: the birth of a new entry is the next one, which no change of a storage
/// lowers, and which is past it then.
pub fn a_birth_is_given_once<T: Eq>()
    ensures fresh { (s : State T) (v : T) → birth_of T.eq s v ≡ None →
        (interned T.eq s v).birth ≡ s.next }
    ensures given { (s : State T) (v : T) → birth_of T.eq s v ≡ None →
        (interned T.eq s v).state.next ≡ s.next + 1 }
    ensures stored { (s : State T) (v : T) (b : ℕ) → birth_of T.eq s v ≡ Some b →
        (interned T.eq s v).state.next ≡ s.next }
    ensures counted_up { (s : State T) (c : ℕ) → (counted_up s c).next ≡ s.next }
    ensures counted_down { (s : State T) (c : ℕ) → (counted_down s c).next ≡ s.next }
    ensures released { (s : State T) (stays : Bool) (c : ℕ) →
        (released stays s c).next ≡ s.next }
    ensures swept { (s : State T) (marked : ℕ → Bool) → (kept s marked).next ≡ s.next }
{}

/// A sweep leaves each marked entry as it was, and no other.
pub fn a_sweep_leaves_what_is_marked<T>()
    ensures { (s : State T) (marked : ℕ → Bool) (b : ℕ) →
        entry_at (kept s marked) b ≡ (if marked b then entry_at s b else None) }
{}

/// The name that interning gives reads an equal value.
pub fn what_is_interned_is_read<T: Eq>()
    ensures { (s : State T) (v : T) → (w : T)
        × (reads (interned T.eq s v).state (interned_name T.eq s v) ≡ Some w) × (T.eq v w ≡ true) }
{}

/// Interning a value that is stored changes nothing but its count, and wants no memory. In counted
/// mode its count alone can refuse it, in collected mode nothing can.
pub fn what_is_stored_is_found<T: Eq>()
    ensures memory { (s : State T) (v : T) (b : ℕ) → birth_of T.eq s v ≡ Some b →
        is_new T.eq s v ≡ false }
    ensures unchanged { (s : State T) (v : T) (b : ℕ) → birth_of T.eq s v ≡ Some b →
        interned T.eq s v ≡ record { birth = b; state = s } }
    ensures counted { (s : State T) (v : T) (b n : ℕ) → birth_of T.eq s v ≡ Some b →
        count_at s b ≡ Some n → due_interning T.eq s v (full s.top) ≡ full s.top n }
    ensures collected { (s : State T) (v : T) (b : ℕ) → birth_of T.eq s v ≡ Some b →
        due_interning T.eq s v any_count ≡ None }
{}

/// Handles of any kind are equal exactly if their names are, equal ones hash alike, and they are
/// ordered as their names: by the storages' numbers, and then by the births.
pub fn handles_are_names<K>()
    ensures owned { (a b : Handle K) →
        (⟦<Owned<K> as PartialEq>⟧.eq a b ≡ true) ↔ (name_of a ≡ name_of b) }
    ensures owned_hashed { (a b : Handle K) → name_of a ≡ name_of b →
        ⟦<Owned<K> as Hash>⟧.hash_input a ≡ ⟦<Owned<K> as Hash>⟧.hash_input b }
    ensures owned_ordered { (a b : Handle K) →
        ⟦<Owned<K> as Ord>⟧.cmp a b ≡ name_cmp (name_of a) (name_of b) }
    ensures reference { (a b : Reference K) →
        (⟦<Ref<K> as PartialEq>⟧.eq a b ≡ true) ↔ (ref_name a ≡ ref_name b) }
    ensures reference_hashed { (a b : Reference K) → ref_name a ≡ ref_name b →
        ⟦<Ref<K> as Hash>⟧.hash_input a ≡ ⟦<Ref<K> as Hash>⟧.hash_input b }
    ensures reference_ordered { (a b : Reference K) →
        ⟦<Ref<K> as Ord>⟧.cmp a b ≡ name_cmp (ref_name a) (ref_name b) }
    ensures owed { (a b : ToRelease K) →
        (⟦<Owed<K> as PartialEq>⟧.eq a b ≡ true) ↔ (name_of (handle_of a) ≡ name_of (handle_of b)) }
    ensures owed_hashed { (a b : ToRelease K) → name_of (handle_of a) ≡ name_of (handle_of b) →
        ⟦<Owed<K> as Hash>⟧.hash_input a ≡ ⟦<Owed<K> as Hash>⟧.hash_input b }
    ensures owed_ordered { (a b : ToRelease K) → ⟦<Owed<K> as Ord>⟧.cmp a b
        ≡ name_cmp (name_of (handle_of a)) (name_of (handle_of b)) }
{}

/// Owned handles are equal exactly if their names are, and equal ones hash alike.
pub fn owned_handles_are_names<T>()
    ensures equal { (a b : Handle (ValueKind T)) →
        (⟦<Interned<T> as PartialEq>⟧.eq a b ≡ true) ↔ (name_of a ≡ name_of b) }
    ensures hashed { (a b : Handle (ValueKind T)) → name_of a ≡ name_of b →
        ⟦<Interned<T> as Hash>⟧.hash_input a ≡ ⟦<Interned<T> as Hash>⟧.hash_input b }
{
    handles_are_names::<Values<T>>();
}

/// References are equal exactly if their names are, and equal ones hash alike.
pub fn references_are_names<T>()
    ensures equal { (a b : Reference (ValueKind T)) →
        (⟦<InternedRef<T> as PartialEq>⟧.eq a b ≡ true) ↔ (ref_name a ≡ ref_name b) }
    ensures hashed { (a b : Reference (ValueKind T)) → ref_name a ≡ ref_name b →
        ⟦<InternedRef<T> as Hash>⟧.hash_input a ≡ ⟦<InternedRef<T> as Hash>⟧.hash_input b }
{
    handles_are_names::<Values<T>>();
}

/// Handles that read values of one storage are equal exactly if the values are.
pub fn handles_tell_values<T: Eq>()
    ensures owned { (s : State T) → IsState T.eq s → (a b : Handle (ValueKind T)) (v w : T) →
        reads s (name_of a) ≡ Some v → reads s (name_of b) ≡ Some w →
        (⟦<Interned<T> as PartialEq>⟧.eq a b ≡ true) ↔ (T.eq v w ≡ true) }
    ensures reference { (s : State T) → IsState T.eq s →
        (a b : Reference (ValueKind T)) (v w : T) →
        reads s (ref_name a) ≡ Some v → reads s (ref_name b) ≡ Some w →
        (⟦<InternedRef<T> as PartialEq>⟧.eq a b ≡ true) ↔ (T.eq v w ≡ true) }
    ensures owed { (s : State T) → IsState T.eq s → (a b : ToRelease (ValueKind T)) (v w : T) →
        reads s (name_of (handle_of a)) ≡ Some v → reads s (name_of (handle_of b)) ≡ Some w →
        (⟦<Owed<Values<T>> as PartialEq>⟧.eq a b ≡ true) ↔ (T.eq v w ≡ true) }
{
    handles_are_names::<Values<T>>();
    names_tell_values::<T>();
}

/// Names of entries of one storage of slices are equal exactly if the headers that they read are
/// equal, and the items one by one.
pub fn names_tell_slices<T: SliceInternable>()
    ensures { let eq = sliced_eq T.Header.eq T.SliceType.eq in
        (s : State (Sliced T.Header T.SliceType)) → IsState eq s →
        (n m : Name) (v w : Sliced T.Header T.SliceType) →
        reads s n ≡ Some v → reads s m ≡ Some w → (n ≡ m) ↔ (eq v w ≡ true) }
{
    names_tell_values::<SliceValue<T::Header, T::SliceType>>();
}

/// Handles that read slices of one storage, of either layout, are equal exactly if the headers are,
/// and the items one by one.
pub fn handles_tell_slices<T: SliceInternable, L>()
    ensures owned { let eq = sliced_eq T.Header.eq T.SliceType.eq in
        (s : State (Sliced T.Header T.SliceType)) → IsState eq s →
        (a b : Handle (SliceKind T L)) (v w : Sliced T.Header T.SliceType) →
        reads s (name_of a) ≡ Some v → reads s (name_of b) ≡ Some w →
        (⟦<InternedSlice<T, L> as PartialEq>⟧.eq a b ≡ true) ↔ (eq v w ≡ true) }
    ensures reference { let eq = sliced_eq T.Header.eq T.SliceType.eq in
        (s : State (Sliced T.Header T.SliceType)) → IsState eq s →
        (a b : Reference (SliceKind T L)) (v w : Sliced T.Header T.SliceType) →
        reads s (ref_name a) ≡ Some v → reads s (ref_name b) ≡ Some w →
        (⟦<InternedSliceRef<T, L> as PartialEq>⟧.eq a b ≡ true) ↔ (eq v w ≡ true) }
    ensures owed { let eq = sliced_eq T.Header.eq T.SliceType.eq in
        (s : State (Sliced T.Header T.SliceType)) → IsState eq s →
        (a b : ToRelease (SliceKind T L)) (v w : Sliced T.Header T.SliceType) →
        reads s (name_of (handle_of a)) ≡ Some v → reads s (name_of (handle_of b)) ≡ Some w →
        (⟦<Owed<Slices<T, L>> as PartialEq>⟧.eq a b ≡ true) ↔ (eq v w ≡ true) }
{
    handles_are_names::<Slices<T, L>>();
    names_tell_slices::<T>();
}

/// The name that interning a header with items gives reads an equal one.
pub fn a_slice_that_is_interned_is_read<T: SliceInternable>()
    ensures { let eq = sliced_eq T.Header.eq T.SliceType.eq in
        (s : State (Sliced T.Header T.SliceType)) (v : Sliced T.Header T.SliceType) →
        (w : Sliced T.Header T.SliceType)
        × (reads (interned eq s v).state (interned_name eq s v) ≡ Some w) × (eq v w ≡ true) }
{
    what_is_interned_is_read::<SliceValue<T::Header, T::SliceType>>();
}

/// A slice that is gone stays gone: a birth that was given and has no entry has none after any
/// change of its storage.
pub fn a_gone_slice_stays_gone<T: SliceInternable>()
    ensures interned { let eq = sliced_eq T.Header.eq T.SliceType.eq in
        (s : State (Sliced T.Header T.SliceType)) (v : Sliced T.Header T.SliceType) (b : ℕ) →
        IsGone s b → IsGone (interned eq s v).state b }
    ensures counted_up { (s : State (Sliced T.Header T.SliceType)) (c b : ℕ) →
        IsGone s b → IsGone (counted_up s c) b }
    ensures counted_down { (s : State (Sliced T.Header T.SliceType)) (c b : ℕ) →
        IsGone s b → IsGone (counted_down s c) b }
    ensures swept { (s : State (Sliced T.Header T.SliceType)) (marked : ℕ → Bool) (b : ℕ) →
        IsGone s b → IsGone (kept s marked) b }
{
    what_is_gone_stays_gone::<SliceValue<T::Header, T::SliceType>>();
}

/// The birth of a new slice is given once: it is the next one, which no change of a storage lowers,
/// and which is past it then.
pub fn a_slices_birth_is_given_once<T: SliceInternable>()
    ensures fresh { let eq = sliced_eq T.Header.eq T.SliceType.eq in
        (s : State (Sliced T.Header T.SliceType)) (v : Sliced T.Header T.SliceType) →
        birth_of eq s v ≡ None → (interned eq s v).birth ≡ s.next }
    ensures given { let eq = sliced_eq T.Header.eq T.SliceType.eq in
        (s : State (Sliced T.Header T.SliceType)) (v : Sliced T.Header T.SliceType) →
        birth_of eq s v ≡ None → (interned eq s v).state.next ≡ s.next + 1 }
    ensures stored { let eq = sliced_eq T.Header.eq T.SliceType.eq in
        (s : State (Sliced T.Header T.SliceType)) (v : Sliced T.Header T.SliceType) (b : ℕ) →
        birth_of eq s v ≡ Some b → (interned eq s v).state.next ≡ s.next }
    ensures counted_up { (s : State (Sliced T.Header T.SliceType)) (c : ℕ) →
        (counted_up s c).next ≡ s.next }
    ensures counted_down { (s : State (Sliced T.Header T.SliceType)) (c : ℕ) →
        (counted_down s c).next ≡ s.next }
    ensures swept { (s : State (Sliced T.Header T.SliceType)) (marked : ℕ → Bool) →
        (kept s marked).next ≡ s.next }
{
    a_birth_is_given_once::<SliceValue<T::Header, T::SliceType>>();
}

/// Interning a slice that is stored changes nothing, wants no memory, and nothing can refuse it.
pub fn a_stored_slice_is_found<T: SliceInternable>()
    ensures memory { let eq = sliced_eq T.Header.eq T.SliceType.eq in
        (s : State (Sliced T.Header T.SliceType)) (v : Sliced T.Header T.SliceType) (b : ℕ) →
        birth_of eq s v ≡ Some b → is_new eq s v ≡ false }
    ensures unchanged { let eq = sliced_eq T.Header.eq T.SliceType.eq in
        (s : State (Sliced T.Header T.SliceType)) (v : Sliced T.Header T.SliceType) (b : ℕ) →
        birth_of eq s v ≡ Some b → interned eq s v ≡ record { birth = b; state = s } }
    ensures collected { let eq = sliced_eq T.Header.eq T.SliceType.eq in
        (s : State (Sliced T.Header T.SliceType)) (v : Sliced T.Header T.SliceType) (b : ℕ) →
        birth_of eq s v ≡ Some b → due_interning eq s v any_count ≡ None }
{
    what_is_stored_is_found::<SliceValue<T::Header, T::SliceType>>();
}

/// Owned handles of slices are equal exactly if their names are, and equal ones hash alike.
pub fn owned_slices_are_names<T>()
    ensures equal { (a b : Handle (SliceKind T Far)) →
        (⟦<InternedSlice<T> as PartialEq>⟧.eq a b ≡ true) ↔ (name_of a ≡ name_of b) }
    ensures hashed { (a b : Handle (SliceKind T Far)) → name_of a ≡ name_of b →
        ⟦<InternedSlice<T> as Hash>⟧.hash_input a ≡ ⟦<InternedSlice<T> as Hash>⟧.hash_input b }
{
    handles_are_names::<Slices<T>>();
}

/// References to slices are equal exactly if their names are, and equal ones hash alike.
pub fn slice_references_are_names<T>()
    ensures equal { (a b : Reference (SliceKind T Far)) →
        (⟦<InternedSliceRef<T> as PartialEq>⟧.eq a b ≡ true)
        ↔ (ref_name a ≡ ref_name b) }
    ensures hashed { (a b : Reference (SliceKind T Far)) → ref_name a ≡ ref_name b →
        ⟦<InternedSliceRef<T> as Hash>⟧.hash_input a
        ≡ ⟦<InternedSliceRef<T> as Hash>⟧.hash_input b }
{
    handles_are_names::<Slices<T>>();
}

/// Symbols of one table that can be read are equal exactly if their texts are.
pub fn symbols_tell_texts()
    ensures { (s : State (List ℕ)) → IsState bytes_eq s → IsTable s →
        (a b : Named) (t u : List ℕ) →
        text_of s a ≡ Some t → text_of s b ≡ Some u → (a ≡ b) ↔ (t ≡ u) }
{}

/// Symbols are equal exactly if they name the same preset or the same entry, and equal ones hash
/// alike.
pub fn symbols_are_what_they_name()
    ensures equal { (a b : Sym) →
        (⟦<Symbol as PartialEq>⟧.eq a b ≡ true) ↔ (symbol_name a ≡ symbol_name b) }
    ensures hashed { (a b : Sym) → symbol_name a ≡ symbol_name b →
        ⟦<Symbol as Hash>⟧.hash_input a ≡ ⟦<Symbol as Hash>⟧.hash_input b }
{}

/// References to symbols are equal exactly if they name the same preset or the same entry, and
/// equal ones hash alike.
pub fn symbol_references_are_what_they_name()
    ensures equal { (a b : SymRef) →
        (⟦<SymbolRef as PartialEq>⟧.eq a b ≡ true) ↔ (symbol_ref_name a ≡ symbol_ref_name b) }
    ensures hashed { (a b : SymRef) → symbol_ref_name a ≡ symbol_ref_name b →
        ⟦<SymbolRef as Hash>⟧.hash_input a ≡ ⟦<SymbolRef as Hash>⟧.hash_input b }
{}

/// Symbols that must be released are equal exactly if they name the same preset or the same entry,
/// and equal ones hash alike.
pub fn owed_symbols_are_what_they_name()
    ensures equal { (a b : OwedSym) → (⟦<OwedSymbol as PartialEq>⟧.eq a b ≡ true)
        ↔ (symbol_name (symbol_of a) ≡ symbol_name (symbol_of b)) }
    ensures hashed { (a b : OwedSym) → symbol_name (symbol_of a) ≡ symbol_name (symbol_of b) →
        ⟦<OwedSymbol as Hash>⟧.hash_input a ≡ ⟦<OwedSymbol as Hash>⟧.hash_input b }
{}

/// Symbols, references to them, and symbols that must be released, that read texts of one table,
/// are equal exactly if the texts are.
pub fn handles_tell_texts()
    ensures symbols { (s : State (List ℕ)) → IsState bytes_eq s → IsTable s →
        (a b : Sym) (t u : List ℕ) →
        text_of s (symbol_name a) ≡ Some t → text_of s (symbol_name b) ≡ Some u →
        (⟦<Symbol as PartialEq>⟧.eq a b ≡ true) ↔ (t ≡ u) }
    ensures references { (s : State (List ℕ)) → IsState bytes_eq s → IsTable s →
        (a b : SymRef) (t u : List ℕ) →
        text_of s (symbol_ref_name a) ≡ Some t → text_of s (symbol_ref_name b) ≡ Some u →
        (⟦<SymbolRef as PartialEq>⟧.eq a b ≡ true) ↔ (t ≡ u) }
    ensures owed { (s : State (List ℕ)) → IsState bytes_eq s → IsTable s →
        (a b : OwedSym) (t u : List ℕ) → text_of s (symbol_name (symbol_of a)) ≡ Some t →
        text_of s (symbol_name (symbol_of b)) ≡ Some u →
        (⟦<OwedSymbol as PartialEq>⟧.eq a b ≡ true) ↔ (t ≡ u) }
{
    symbols_tell_texts();
    symbols_are_what_they_name();
    symbol_references_are_what_they_name();
    owed_symbols_are_what_they_name();
}

/// Symbols, references to them, and symbols that must be released are ordered as what they name:
/// presets by their places, and then entries by their names.
pub fn symbols_are_ordered_as_what_they_name()
    ensures symbols { (a b : Sym) →
        ⟦<Symbol as Ord>⟧.cmp a b ≡ named_cmp (symbol_name a) (symbol_name b) }
    ensures references { (a b : SymRef) →
        ⟦<SymbolRef as Ord>⟧.cmp a b ≡ named_cmp (symbol_ref_name a) (symbol_ref_name b) }
    ensures owed { (a b : OwedSym) → ⟦<OwedSymbol as Ord>⟧.cmp a b
        ≡ named_cmp (symbol_name (symbol_of a)) (symbol_name (symbol_of b)) }
{}

/// The symbol of a text reads the text.
pub fn a_symbol_reads_its_text()
    ensures { (s : State (List ℕ)) (t : List ℕ) → let i = symbol_in s t in
        text_of i.table i.symbol ≡ Some t }
{}

/// A preset's text gives the preset, with every table, and leaves the table as it is.
pub fn a_presets_text_gives_the_preset()
    ensures { (s : State (List ℕ)) (p : ℕ) (t : List ℕ) → preset_text p ≡ Some t →
        symbol_in s t ≡ record { symbol = preset p; table = s } }
{}

/// No table has a preset's text: none of its entries reads one.
pub fn presets_are_in_no_table()
    ensures { (s : State (List ℕ)) → IsTable s → (p : ℕ) (t : List ℕ) →
        preset_text p ≡ Some t → birth_of bytes_eq s t ≡ None }
{}

/// The symbol of a number's digits writes that number.
pub fn integers_are_read_back()
    ensures { (s : State (List ℕ)) (n : ℕ) → n < 2 ^ 64 → let i = symbol_in s (decimal n) in
        option_and_then number_value (text_of i.table i.symbol) ≡ Some n }
{}

/// A text that is gone stays gone after any change of its table: its symbols read nothing ever
/// again.
pub fn a_gone_text_stays_gone()
    ensures interned { (s : State (List ℕ)) (t : List ℕ) (b : ℕ) →
        IsGone s b → IsGone (symbol_in s t).table b }
    ensures cloned { (s : State (List ℕ)) (a : Named) (b : ℕ) →
        IsGone s b → IsGone (at_entry counted_up s a) b }
    ensures released { (s : State (List ℕ)) (a : Named) (b : ℕ) →
        IsGone s b → IsGone (at_entry (released false) s a) b }
{}

/// The birth of a new text is given once: it is the next one, which no change of a table lowers,
/// and which is past it then.
pub fn a_texts_birth_is_given_once()
    ensures fresh { (s : State (List ℕ)) (t : List ℕ) →
        place_of t ≡ None → birth_of bytes_eq s t ≡ None →
        (symbol_in s t).symbol ≡ entry (name_in s s.next) }
    ensures given { (s : State (List ℕ)) (t : List ℕ) →
        place_of t ≡ None → birth_of bytes_eq s t ≡ None →
        (symbol_in s t).table.next ≡ s.next + 1 }
    ensures stored { (s : State (List ℕ)) (t : List ℕ) (b : ℕ) →
        birth_of bytes_eq s t ≡ Some b → (symbol_in s t).table.next ≡ s.next }
    ensures cloned { (s : State (List ℕ)) (a : Named) →
        (at_entry counted_up s a).next ≡ s.next }
    ensures released { (s : State (List ℕ)) (a : Named) →
        (at_entry (released false) s a).next ≡ s.next }
{}

/// Interning a text that is stored gives a symbol of its entry, counts it once more, and wants no
/// memory. Its count alone can refuse it.
pub fn a_stored_text_is_found()
    ensures memory { (s : State (List ℕ)) (t : List ℕ) (b : ℕ) →
        birth_of bytes_eq s t ≡ Some b → is_new_text s t ≡ false }
    ensures counted_up { (s : State (List ℕ)) (t : List ℕ) (b : ℕ) →
        place_of t ≡ None → birth_of bytes_eq s t ≡ Some b →
        symbol_in s t ≡ record { symbol = entry (name_in s b); table = counted_up s b } }
    ensures refused { (s : State (List ℕ)) (t : List ℕ) (b n : ℕ) →
        place_of t ≡ None → birth_of bytes_eq s t ≡ Some b → count_at s b ≡ Some n →
        due_symbol s t ≡ full s.top n }
{}

/// Each constant has its text.
pub fn constants_have_their_texts()
    ensures { list_all has_its_text constants ≡ true }
{}

/// A family that was cut to a set of names is left as it is by the same cut.
pub fn a_cut_family_is_cut_no_more<F: Family>()
    ensures { (f : F) (set : Name → Bool) → F.kept (F.kept f set) set ≡ F.kept f set }
{}

/// A second collection from the same roots, with no call between, removes nothing, and says so.
pub fn a_second_collection_removes_nothing<F: Family>()
    ensures told { (f : F) (listed names again : List Name) (told : Told) →
        let all = F.entries f in
        IsReachedSet (starts_with listed all) all names →
        let left = F.entries (F.kept f (has names)) in
        IsCollection (starts_with listed left) left again told → told.removed ≡ 0 }
    ensures left { (f : F) (listed names again : List Name) → let all = F.entries f in
        IsReachedSet (starts_with listed all) all names →
        let left = F.kept f (has names) in
        IsReachedSet (starts_with listed (F.entries left)) (F.entries left) again →
        F.kept left (has again) ≡ left }
{}

/// Where each child of an entry is that of an entry, a collection leaves it so.
pub fn a_closed_family_stays_closed<F: Family>()
    ensures { (f : F) (listed names : List Name) → let all = F.entries f in
        IsReachedSet (starts_with listed all) all names →
        IsClosed all → IsClosed (F.entries (F.kept f (has names))) }
{}

/// A collection leaves the entry of each name that paths reach as it was, and no other.
pub fn a_collection_leaves_what_it_keeps<F: Family>()
    ensures { (f : F) (listed names : List Name) → let all = F.entries f in
        IsReachedSet (starts_with listed all) all names → (n : Name) →
        entry_of (F.entries (F.kept f (has names))) n
        ≡ (if has names n then entry_of all n else None) }
{}

/// What a collection answers and leaves depends on the family and the roots alone: two answers to
/// collections of one family from the same roots are equal, and so is what they leave.
pub fn a_collection_depends_on_the_family_and_the_roots_alone<F: Family>()
    ensures told { (f : F) (listed names others : List Name) (told again : Told) →
        let all = F.entries f in
        IsCollection (starts_with listed all) all names told →
        IsCollection (starts_with listed all) all others again → told ≡ again }
    ensures left { (f : F) (listed names others : List Name) (told again : Told) →
        let all = F.entries f in
        IsCollection (starts_with listed all) all names told →
        IsCollection (starts_with listed all) all others again →
        F.kept f (has names) ≡ F.kept f (has others) }
{}

/// What is reached depends on the family and the roots alone.
pub fn what_is_reached_is_one_set()
    ensures { (begins : Name → Bool) (family : List Entry) (names others : List Name) →
        IsReachedSet begins family names → IsReachedSet begins family others →
        has names ≡ has others }
{}

/// A storage that is cut to a set of names has their reads and counts, and nothing of the others.
/// Its number, limits and next birth stay.
pub fn a_cut_storage_reads_what_the_set_has<T>()
    ensures reads { (s : State T) (set : Name → Bool) (n : Name) →
        reads (kept_named s set) n ≡ (if set n then reads s n else None) }
    ensures counts { (s : State T) (set : Name → Bool) (n : Name) →
        counts (kept_named s set) n ≡ (if set n then counts s n else None) }
    ensures rest { (s : State T) (set : Name → Bool) →
        kept_named s set ≡ record s { map = (kept_named s set).map } }
{}
