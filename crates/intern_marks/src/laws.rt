//! Laws of collections, each the contract of a function that does nothing.
ghost use Rattle.std.specs.FinMap as map;
ghost use Rattle.std.specs.Prelude.{◌≡◌, ◌≤◌, Bool, true, false, List, Some, length, slice_get};
ghost use Rattle.intern_store.specs.declared.names.Name.{Name};
ghost use Rattle.intern_marks.specs.Names.{has};
ghost use Rattle.intern_marks.specs.Learning.{Learns};
ghost use Rattle.intern_marks.specs.Marks.{Marks, fresh, roots, marks, begun};
ghost use Rattle.intern_marks.specs.Reach.{Entry, IsReachedSet, Reached, IsClosed, kept_entries, children_in, is_entry, starts, starts_with};
ghost use Rattle.intern_marks.specs.Trace.{IsTrace};

/// Once a family was learnt, with the counted entries as roots, and the listed ones are placed, a
/// trace has begun.
pub fn placing_the_roots_begins_a_trace()
    ensures { (family : List Entry) (listed : List Name) (m : Marks) →
        Learns true family (fresh map.empty) m →
        IsTrace (starts_with listed family) family (roots m listed) }
{}

/// A visit of the first pending name, which marks its children, goes on with the trace.
pub fn a_visit_goes_on_with_the_trace()
    ensures { (family : List Entry) (listed : List Name) (m : Marks) (name : Name) →
        IsTrace (starts_with listed family) family m → slice_get m.marked m.visits ≡ Some name →
        IsTrace (starts_with listed family) family (marks (begun m) (children_in family name)) }
{}

/// Where all that is marked was visited, it is what paths reach, each name once.
pub fn at_its_end_a_trace_has_visited_what_is_reached()
    ensures { (family : List Entry) (listed : List Name) (m : Marks) →
        IsTrace (starts_with listed family) family m → length m.marked ≤ m.visits →
        IsReachedSet (starts_with listed family) family m.marked }
{}

/// Roots that name no entry begin no path.
pub fn roots_without_entries_begin_nothing()
    ensures { (family : List Entry) (listed : List Name) →
        ((x : Name) → has listed x ≡ true → is_entry family x ≡ false) →
        starts_with listed family ≡ starts family }
{}

/// What is reached is the least set that has the names at which paths begin and, with each name,
/// its children that are entries.
pub fn what_is_reached_is_the_least_closed_set()
    ensures begins { (begins : Name → Bool) (family : List Entry) (name : Name) →
        begins name ≡ true → Reached begins family name }
    ensures closed { (begins : Name → Bool) (family : List Entry) (parent name : Name) →
        Reached begins family parent → has (children_in family parent) name ≡ true →
        is_entry family name ≡ true → Reached begins family name }
    ensures least { (begins : Name → Bool) (family : List Entry) (set : Name → Bool) →
        ((x : Name) → begins x ≡ true → set x ≡ true) →
        ((parent x : Name) → set parent ≡ true → has (children_in family parent) x ≡ true →
        is_entry family x ≡ true → set x ≡ true) →
        (name : Name) → Reached begins family name → set name ≡ true }
{}

/// What is reached is reached again once the rest is gone, from the same roots, so a second
/// collection keeps all that the first has left.
#[tactic(auto, using(crate::proofs::Reaching::filter_twice))]
pub fn a_second_collection_keeps_all()
    ensures reached { (family : List Entry) (listed names : List Name) →
        IsReachedSet (starts_with listed family) family names →
        let rest = kept_entries family names in IsReachedSet (starts_with listed rest) rest names }
    ensures kept { (family : List Entry) (names : List Name) →
        let rest = kept_entries family names in kept_entries rest names ≡ rest }
{}

/// Where each child of an entry is that of an entry, the same holds of what is left.
pub fn a_closed_family_stays_closed()
    ensures { (family : List Entry) (listed names : List Name) →
        IsReachedSet (starts_with listed family) family names →
        IsClosed family → IsClosed (kept_entries family names) }
{}
