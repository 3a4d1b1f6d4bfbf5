//! The names of a scope, each owned until the scope is closed.
//!
//! An `Owed` can't be dropped, so neither can a `Scope`: who forgets to close one, or to release a
//! name in it, is refused as the program is compiled.
#![tactic(auto)]

ghost use Rattle.std.specs.Prelude.{◌≡◌, [], ◌∷◌, IfOk, OnErr};
ghost use Rattle.ra_ap_intern.specs.Handle.{ref_name};
ghost use Rattle.ra_ap_intern.specs.Outcome.{Becomes};
ghost use Rattle.ra_ap_intern.specs.State.{interned_name, interned_counted, due_interning, full};
ghost use Rattle.use_owed.specs.Scope.{closed, IsClosed, IsRefused};

use ra_ap_intern::{InternStorage, InternedRef, Owed, OwedValue, Refusal, Refused, Text};
use std::alloc::Global;
use std::cmp::PartialEq;
use std::marker::Model;

/// The names that a scope declares. Contracts see the list of them, the last first.
pub struct Scope {
    names: Vec<OwedValue<Text>>,
}

impl Model for Scope {
    ghost use Rattle.std.specs.Prelude.{List, ◌≤◌};
    ghost use Rattle.std.specs.Vec.{vec_len, vec_capacity};
    ghost use Rattle.ra_ap_intern.specs.Name.{Name};
    ghost use Rattle.use_owed.specs.Scope.{last_first};

    ghost Value = { List Name };

    ghost view = { λ a. last_first a.names.items };

    ghost invariant = { λ a. vec_len a.names ≤ vec_capacity a.names };
}

impl Scope {
    /// A scope that declares nothing.
    pub fn new(alloc: Global) -> Scope
        ensures { result ≡ [] }
    {
        Scope {
            names: Vec::new(alloc),
        }
    }

    /// Declares a name. Refused, and nothing has changed: `CountFull` where it is stored,
    /// `NumbersUsedUp` where it isn't, and `OutOfMemory`.
    pub fn declare(
        &mut self,
        texts: &mut InternStorage<Text>,
        name: Text,
    ) -> Result<InternedRef<Text>, Refusal>
        ensures name { let eq = ⟦<Text as PartialEq>⟧.eq in
            IfOk result (λ r. ref_name r ≡ interned_name eq texts.old name) }
        ensures declared { IfOk result (λ r. self.new ≡ ref_name r ∷ self.old) }
        ensures undeclared { OnErr result (self.new ≡ self.old) }
        ensures refused { let eq = ⟦<Text as PartialEq>⟧.eq in
            IsRefused result (due_interning eq texts.old name (full texts.old.top)) }
        ensures state { let eq = ⟦<Text as PartialEq>⟧.eq in
            Becomes result texts.old texts.new (interned_counted eq texts.old name) }
    {
        self.names.reserve(1)?;
        let handle = texts.get_or_intern(name)?;
        let reference = handle.as_ref();
        self.names.push(Owed::from(handle)).unwrap();
        Ok(reference)
    }

    /// Releases the names, the last first. Where a release is refused, with what is still declared:
    /// `Foreign`, `Gone`, `CountZero`.
    pub fn close(self, texts: &mut InternStorage<Text>) -> Result<(), Refused<Scope>>
        ensures names { IsClosed result (closed texts.old self) }
        ensures state { texts.new ≡ (closed texts.old self).state }
    {
        let Scope { mut names } = self;
        while let Some(name) = names.pop() {
            if let Err(Refused { why, back }) = name.release(texts) {
                names.push(back).unwrap();
                let back = Scope { names };
                return Err(Refused { why, back });
            }
        }
        names.destroy_empty();
        Ok(())
    }
}
