//! Laws of runs, each the contract of a function that does nothing.
ghost use Rattle.std.specs.Prelude.{◌≡◌, List, ◌++◌, Option};
ghost use Rattle.std.specs.List.{All, AllPairs};
ghost use Rattle.ra_ap_intern.specs.Name.{Name};
ghost use Rattle.intern_calls.specs.Step.{Keeps};
ghost use Rattle.intern_calls.specs.World.{WorldState, kinds_of};
ghost use Rattle.intern_calls.specs.declared.call.Which.{Which};
ghost use Rattle.intern_calls.specs.declared.reply.Reply.{Reply};
ghost use Rattle.intern_world.specs.Along.{TellsApart, KeepsNames, Collects};
ghost use Rattle.intern_world.specs.Ledger.{Balances, count_in_part};
ghost use Rattle.intern_world.specs.Run.{Turn, IsRun, IsWorld, worlds};

use ra_ap_intern::{GcInternedSliceVisit, GcInternedVisit, Internable, laws};

/// Two runs, the second from the world in which the first ends, are one run.
pub fn runs_one_after_the_other_are_one_run<
    C: Internable,
    G: Internable + GcInternedVisit,
    S: GcInternedSliceVisit,
>()
    ensures { let kinds = kinds_of C.eq G.eq S.Header.eq S.SliceType.eq G.children
        S.header_children S.slice_children in
        (w middle end : WorldState C G S.Header S.SliceType)
        (first second : List (Turn C G S S.Header S.SliceType)) →
        IsRun kinds w first middle → IsRun kinds middle second end →
        IsRun kinds w (first ++ second) end }
{}

/// At each world of a run handles of one kind that read something in their storage are equal
/// exactly if the values are, and symbols that can be read exactly if their texts are.
pub fn handles_tell_values_along_runs<
    C: Internable,
    G: Internable + GcInternedVisit,
    S: GcInternedSliceVisit,
>()
    ensures { let kinds = kinds_of C.eq G.eq S.Header.eq S.SliceType.eq G.children
        S.header_children S.slice_children in
        (w end : WorldState C G S.Header S.SliceType)
        (turns : List (Turn C G S S.Header S.SliceType)) →
        IsRun kinds w turns end → All (TellsApart kinds) (worlds w turns) }
{
    laws::names_tell_values::<C>();
    laws::names_tell_values::<G>();
    laws::names_tell_slices::<S>();
    laws::symbols_tell_texts();
}

/// At each later world of a run a name reads what it read, or nothing; and what is gone stays
/// gone.
pub fn names_keep_what_they_read<
    C: Internable,
    G: Internable + GcInternedVisit,
    S: GcInternedSliceVisit,
>()
    ensures { let kinds = kinds_of C.eq G.eq S.Header.eq S.SliceType.eq G.children
        S.header_children S.slice_children in
        (w end : WorldState C G S.Header S.SliceType)
        (turns : List (Turn C G S S.Header S.SliceType)) →
        IsRun kinds w turns end → AllPairs KeepsNames (worlds w turns) }
{}

/// After any turns of a run each entry's count is what it was, and what the turns added, less what
/// they took.
pub fn counts_balance<C: Internable, G: Internable + GcInternedVisit, S: GcInternedSliceVisit>()
    ensures { let kinds = kinds_of C.eq G.eq S.Header.eq S.SliceType.eq G.children
        S.header_children S.slice_children in
        (w end : WorldState C G S.Header S.SliceType)
        (turns : List (Turn C G S S.Header S.SliceType)) → IsRun kinds w turns end →
        (done rest : List (Turn C G S S.Header S.SliceType)) →
        turns ≡ done ++ rest → Balances w done }
{}

/// Each collection of a run that succeeds leaves what paths reach from counted entries, visits each
/// of these once, and tells how many it removed.
pub fn collections_leave_what_is_reached<
    C: Internable,
    G: Internable + GcInternedVisit,
    S: GcInternedSliceVisit,
>()
    ensures { let kinds = kinds_of C.eq G.eq S.Header.eq S.SliceType.eq G.children
        S.header_children S.slice_children in
        (w end : WorldState C G S.Header S.SliceType)
        (turns : List (Turn C G S S.Header S.SliceType)) →
        IsRun kinds w turns end → All (Collects kinds) turns }
{}

/// After a collection that begins also at handles in slots, a name reads what it read, or nothing,
/// and what is gone stays gone; and each entry counts what it did: what was removed counted
/// nothing.
pub fn a_collection_keeps_names_and_counts<
    C: Internable,
    G: Internable + GcInternedVisit,
    S: GcInternedSliceVisit,
>()
    ensures names { let kinds = kinds_of C.eq G.eq S.Header.eq S.SliceType.eq G.children
        S.header_children S.slice_children in
        (w after : WorldState C G S.Header S.SliceType) (roots : Option (List Name))
        (reply : Reply C G S.Header) →
        IsWorld kinds w → Keeps kinds w roots reply after → KeepsNames w after }
    ensures counts { let kinds = kinds_of C.eq G.eq S.Header.eq S.SliceType.eq G.children
        S.header_children S.slice_children in
        (w after : WorldState C G S.Header S.SliceType) (roots : Option (List Name))
        (reply : Reply C G S.Header) →
        IsWorld kinds w → Keeps kinds w roots reply after → (part : Which) (n : Name) →
        count_in_part after part n ≡ count_in_part w part n }
{}
