//! Paths, each stored once over its parent, and spelled by a loop that goes up.
#![tactic(auto)]

ghost use Rattle.std.specs.Prelude.{◌≡◌, ◌↔◌, true, map as list_map, IsSome, IfOk};
ghost use Rattle.std.specs.Option.{option_map};
ghost use Rattle.ra_ap_intern.specs.Handle.{name_if, ref_name};
ghost use Rattle.ra_ap_intern.specs.Name.{Name};
ghost use Rattle.ra_ap_intern.specs.Order.{Falls, IsBuilt, line_end};
ghost use Rattle.ra_ap_intern.specs.State.{State, IsState, reads};
ghost use Rattle.ra_ap_intern.specs.Symbols.{symbol_ref_name};
ghost use Rattle.ra_ap_intern.specs.declared.kind.Values.{Values as ValueKind};
ghost use Rattle.ra_ap_intern.specs.declared.storage.Ref.{Ref as Reference};
ghost use Rattle.use_paths.specs.Paths.{declared_by, last_of, parent_of, spelled};
ghost use Rattle.use_paths.specs.declared.Path.{Path as Node};

use ra_ap_intern::{
    GarbageCollector, GcInternedVisit, InternStorage, Internable, InternedRef, OptionalInternedRef,
    SymbolRef, laws,
};
use std::alloc::{AllocError, Global};
use std::cmp::PartialEq;

/// A path: its last name, and its parent, if it has one.
#[derive(Drop, PartialEq, Eq, Hash)]
pub enum Path {
    /// A name within a parent, or alone.
    Within {
        parent: OptionalInternedRef<Path>,
        name: SymbolRef,
    },
}

impl Path {
    /// The parent, if there is one, and the last name.
    pub fn parts(&self) -> (OptionalInternedRef<Path>, SymbolRef)
        ensures parent { name_if result.0 ≡ parent_of self.now }
        ensures name { symbol_ref_name result.1 ≡ last_of self.now }
    {
        let Path::Within { parent, name } = self;
        (*parent, *name)
    }
}

/// A handle of a path.
pub type PathRef = InternedRef<Path>;

impl Internable for Path {
    const USE_GC: bool = true;

    ghost USE_GC = { true };
}

impl GcInternedVisit for Path {
    ghost children = { declared_by };

    fn visit_with(&self, gc: &mut GarbageCollector) {
        let (parent, _) = self.parts();
        parent.visit_with(gc);
    }
}

/// The names of a path, the last first. None where it isn't of this storage, or is gone. Where
/// there is no memory, `AllocError`.
pub fn spell(
    alloc: Global,
    paths: &InternStorage<Path>,
    path: PathRef,
) -> Result<Option<Vec<SymbolRef>>, AllocError>
    requires { Falls declared_by paths.now }
    ensures { IfOk result (λ names. option_map (λ v. list_map symbol_ref_name v.items) names
        ≡ spelled paths.now (ref_name path)) }
{
    let mut names = Vec::new(alloc);
    let mut next = Some(path);
    while let Some(path) = next {
        let Some(path) = path.get(paths) else {
            return Ok(None);
        };
        let (parent, name) = path.parts();
        names.push(name)?;
        next = parent.get();
    }
    Ok(Some(names))
}

/// The first name of a path, that of the one above it without a parent. None where one of these
/// isn't of this storage, or is gone.
pub fn first_name(paths: &InternStorage<Path>, path: PathRef) -> Option<SymbolRef>
    requires { Falls declared_by paths.now }
    ensures { option_map symbol_ref_name result
        ≡ line_end parent_of last_of paths.now (ref_name path) }
{
    let (mut next, mut first) = path.get(paths)?.parts();
    while let Some(above) = next.get() {
        (next, first) = above.get(paths)?.parts();
    }
    Some(first)
}

/// Paths are equal exactly if they have the same parent, or none, and the same last name.
pub fn paths_are_their_parts()
    ensures { (v w : Node) → (⟦<Path as PartialEq>⟧.eq v w ≡ true)
        ↔ ((parent_of v ≡ parent_of w) × (last_of v ≡ last_of w)) }
{
    laws::symbol_references_are_what_they_name();
}

/// Where the parents of all paths are stored, what can be read is spelled, and its handle equals
/// exactly those that are spelled the same.
pub fn handles_tell_paths()
    ensures spelled { (s : State Node) → IsBuilt declared_by s → (n : Name) →
        IsSome (reads s n) → IsSome (spelled s n) }
    ensures equal { (s : State Node) → IsState ⟦<Path as PartialEq>⟧.eq s → IsBuilt declared_by s →
        (a b : Reference (ValueKind Node)) → IsSome (reads s (ref_name a)) →
        (⟦<PathRef as PartialEq>⟧.eq a b ≡ true)
        ↔ (spelled s (ref_name a) ≡ spelled s (ref_name b)) }
{
    paths_are_their_parts();
    laws::references_are_names::<Path>();
}
