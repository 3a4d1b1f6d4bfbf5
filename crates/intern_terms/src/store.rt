//! The store of terms.
ghost use Rattle.std.specs.Prelude.{◌≡◌, ◌<◌, ◌≤◌, ◌==◌, ℕ, List, map as list_map, Some, None, IsSome, is_some, IsPermutation, IfOk, OnErr, if◌then◌else◌};
ghost use Rattle.std.specs.FinMap as map;
ghost use Rattle.std.specs.Option.{option_map};
ghost use Rattle.ra_ap_intern.specs.Names.{has};
ghost use Rattle.ra_ap_intern.specs.Families.{IsCollection, kept_named};
ghost use Rattle.ra_ap_intern.specs.Memory.{least_memory};
ghost use Rattle.ra_ap_intern.specs.Name.{Name as TermName};
ghost use Rattle.ra_ap_intern.specs.Order.{due_each};
ghost use Rattle.ra_ap_intern.specs.Outcome.{Owes, OwesBack, MayWant, MayWantBack, Becomes};
ghost use Rattle.ra_ap_intern.specs.Reach.{starts, starts_with};
ghost use Rattle.ra_ap_intern.specs.Slices.{slice_of, slice_name_in, slice_in, slice_back, is_new_slice, named_slices};
ghost use Rattle.ra_ap_intern.specs.State.{new_state, name_of_value, reads, counts, counted_up, counted_down, due, full, zero_count, any_count};
ghost use Rattle.ra_ap_intern.specs.Symbols.{given_up, symbol_name, symbol_ref_name};
ghost use Rattle.ra_ap_intern.specs.declared.symbol.Symbol.{Symbol as Head};
ghost use Rattle.intern_terms.specs.Handle.{term_name, owned_name};
ghost use Rattle.intern_terms.specs.Store.{IsTerms, Node, names_in, same_node, due_term, due_term_of, terms_of, with_head, without_heads};
ghost use Rattle.intern_terms.specs.Tree.{Tree as TermTree, Trees as TermTrees, tree as tree_of, UnfoldsTo, AllUnfold};

use crate::handle::{Term, TermRef, Terms};
use crate::iter::TermIter;
use ra_ap_intern::{
    Collected, FixedState, GarbageCollector, GcInternedVisit, InternSliceStorage, InternedSlice,
    Limits, Name, Refusal, Refused, Symbol, SymbolRef, SymbolTable, Trace,
};
use std::alloc::{AllocError, Global};
use std::hash::BuildHasher;
use std::marker::Model;

/// A store of terms. Each is kept once: a head over the same arguments is the same term. Terms are
/// hashed by a hasher that `B` builds.
///
/// Only a term that isn't stored, a collection, `walk` and `written` take memory.
#[derive(Drop)]
pub struct TermStore<B: BuildHasher = FixedState> {
    alloc: Global,
    terms: InternSliceStorage<Terms, B>,
}

impl<B: BuildHasher> Model for TermStore<B> {
    ghost use Rattle.ra_ap_intern.specs.Sliced.{Sliced, sliced_code};
    ghost use Rattle.ra_ap_intern.specs.State.{State, state_code};
    ghost use Rattle.ra_ap_intern.specs.contracts.symbol.Symbol as symbol;
    ghost use Rattle.ra_ap_intern.specs.declared.symbol.Symbol.{Symbol};
    ghost use Rattle.intern_terms.specs.contracts.handle.TermRef as term;
    ghost use Rattle.intern_terms.specs.Store.{IsBuilt};
    ghost use Rattle.intern_terms.specs.declared.handle.TermRef.{TermRef};

    ghost Value = { State (Sliced Symbol TermRef) };

    ghost coded = { state_code (sliced_code symbol.the_row.coded term.the_row.coded) };

    ghost view = { λ a. a.terms };

    ghost invariant = { λ a. IsBuilt a.terms };
}

impl TermStore {
    /// An empty store with the largest limits. It takes no memory.
    ///
    /// Terms tell stores apart by their numbers alone: give each store one of its own.
    pub fn new(alloc: Global, number: u64) -> Self
        ensures { result ≡ new_state number u64.MAX u64.MAX }
    {
        TermStore {
            alloc,
            terms: InternSliceStorage::new(alloc, number),
        }
    }

    /// An empty store with limits of its own. It takes no memory.
    pub fn with_limits(alloc: Global, number: u64, limits: Limits) -> Self
        requires { 0 < limits.top }
        ensures { result ≡ new_state number limits.top limits.numbers }
    {
        TermStore::with_hasher(alloc, number, limits, FixedState::new())
    }
}

impl<B: BuildHasher> TermStore<B> {
    /// An empty store with limits of its own, which hashes terms by what `hasher` builds. It takes
    /// no memory.
    ///
    /// The seed of [`FixedState`] is known, so that whoever chooses the terms can let all of them
    /// share a bucket. Give a store of such terms `RandomState::new(&rt)?`.
    pub fn with_hasher(alloc: Global, number: u64, limits: Limits, hasher: B) -> Self
        requires { 0 < limits.top }
        ensures { result ≡ new_state number limits.top limits.numbers }
    {
        TermStore {
            alloc,
            terms: InternSliceStorage::with_hasher(alloc, number, limits, hasher),
        }
    }

    /// The store's number.
    pub fn number(&self) -> u64
        ensures number { result ≡ self.now.number }
        ensures state { IsTerms self.now }
    {
        self.terms.number()
    }

    /// How many terms there are.
    pub fn len(&self) -> usize
        ensures len { result ≡ map.len self.now.map }
        ensures state { IsTerms self.now }
    {
        // What `number` says of the state is said here too.
        let _number = self.number();
        self.terms.len()
    }

    /// Whether there is no term.
    pub fn is_empty(&self) -> bool
        ensures { result ≡ (map.len self.now.map == 0) }
    {
        self.terms.is_empty()
    }

    /// The bytes of memory that the store holds: its slots, used or not, what finds them, and the
    /// arguments of terms; eight for each term at least. The store itself is not counted.
    pub fn memory(&self) -> usize
        ensures { least_memory (map.len self.now.map) ≤ result }
    {
        self.terms.memory()
    }

    /// The term with this head over these arguments.
    ///
    /// Where it is stored, the head given comes back beside the term. Otherwise it is stored, with
    /// count zero, which may take memory. Refused, with the head back: `Foreign` or `Gone`, as the
    /// first argument that can't be read; then, where the term isn't stored, `NumbersUsedUp` and
    /// `OutOfMemory`. After a refusal nothing has changed.
    pub fn term(
        &mut self,
        head: Symbol,
        args: &[TermRef],
    ) -> Result<(TermRef, Option<Symbol>), Refused<Symbol>>
        ensures name { IfOk result (λ r.
            term_name r.0 ≡ slice_name_in same_node self.old head args.now) }
        ensures back { IfOk result (λ r. r.1 ≡ slice_back same_node self.old head args.now) }
        ensures refused { MayWantBack result (due_term self.old head args.now)
            (is_new_slice same_node self.old head args.now) head }
        ensures state { Becomes result self.old self.new
            (slice_in same_node self.old head args.now).state }
        ensures tree { IfOk result (λ r. (trees : TermTrees) →
            AllUnfold self.old (list_map term_name args.now) trees →
            UnfoldsTo self.new (term_name r.0) (tree_of (symbol_name head) trees)) }
        ensures trees { (name : TermName) (t : TermTree) →
            UnfoldsTo self.old name t → UnfoldsTo self.new name t }
    {
        if let Err(why) = self.check_all(args) {
            return Err(Refused { why, back: head });
        }
        let (reference, back) = InternedSlice::from_header_and_slice(&mut self.terms, head, args)?;
        Ok((TermRef { reference }, back))
    }

    /// The term with a referenced head over these arguments. The head is counted once more in its
    /// table exactly where the term wasn't stored yet.
    ///
    /// Refused: `Foreign`, `Gone` and `CountFull`, as [`SymbolRef::to_owned`] refuses the head,
    /// also where the term is stored; then as [`TermStore::term`] is. After a refusal nothing has
    /// changed.
    pub fn term_of<N: BuildHasher>(
        &mut self,
        head: SymbolRef,
        args: &[TermRef],
        heads: &mut SymbolTable<N>,
    ) -> Result<TermRef, Refusal>
        ensures owned { (owner : Head) × (symbol_name owner ≡ symbol_ref_name head)
            × IfOk result (λ t. term_name t ≡ slice_name_in same_node self.old owner args.now)
            × MayWant result (due_term_of self.old heads.old owner args.now)
            (is_new_slice same_node self.old owner args.now)
            × Becomes result self.old self.new
            (slice_in same_node self.old owner args.now).state
            × Becomes result heads.old heads.new
            (with_head self.old heads.old owner args.now) }
        ensures tree { IfOk result (λ t. (trees : TermTrees) →
            AllUnfold self.old (list_map term_name args.now) trees →
            UnfoldsTo self.new (term_name t) (tree_of (symbol_ref_name head) trees)) }
        ensures trees { (name : TermName) (t : TermTree) →
            UnfoldsTo self.old name t → UnfoldsTo self.new name t }
    {
        // What `number` says of the table is said here too.
        let _number = heads.number();
        let owner = head.to_owned(heads)?;
        self.term_or_give_up(owner, args, heads)
    }

    // The term with this head over these arguments. A head that isn't stored is given up in its
    // table.
    fn term_or_give_up<N: BuildHasher>(
        &mut self,
        head: Symbol,
        args: &[TermRef],
        heads: &mut SymbolTable<N>,
    ) -> Result<TermRef, Refusal>
        ensures name { IfOk result (λ t.
            term_name t ≡ slice_name_in same_node self.old head args.now) }
        ensures refused { MayWant result (due_term self.old head args.now)
            (is_new_slice same_node self.old head args.now) }
        ensures state { Becomes result self.old self.new
            (slice_in same_node self.old head args.now).state }
        ensures heads { let without = given_up heads.old (symbol_name head) in
            Becomes result without heads.new
            (if is_new_slice same_node self.old head args.now then heads.old else without) }
        ensures tree { IfOk result (λ t. (trees : TermTrees) →
            AllUnfold self.old (list_map term_name args.now) trees →
            UnfoldsTo self.new (term_name t) (tree_of (symbol_name head) trees)) }
        ensures trees { (name : TermName) (t : TermTree) →
            UnfoldsTo self.old name t → UnfoldsTo self.new name t }
    {
        match self.term(head, args) {
            Ok((term, None)) => Ok(term),
            Ok((term, Some(back))) => {
                give_up(back.as_ref(), heads);
                Ok(term)
            }
            Err(refused) => {
                give_up(refused.back.as_ref(), heads);
                Err(refused.why)
            }
        }
    }

    /// The term with this head over these arguments, where it is stored. It takes no memory.
    pub fn get(&self, head: &Symbol, args: &[TermRef]) -> Option<TermRef>
        ensures { option_map term_name result
            ≡ name_of_value same_node self.now (slice_of head.now args.now) }
    {
        let reference = self.terms.get(head, args)?;
        Some(TermRef { reference })
    }

    /// The term with a referenced head over these arguments, where it is stored. It takes no
    /// memory, and counts nothing.
    pub fn get_of(&self, head: SymbolRef, args: &[TermRef]) -> Option<TermRef>
        ensures { (owner : Head) → symbol_name owner ≡ symbol_ref_name head →
            option_map term_name result
            ≡ name_of_value same_node self.now (slice_of owner args.now) }
    {
        let reference = self.terms.find(head, args)?;
        Some(TermRef { reference })
    }

    /// Whether the store has a term of this name: one of another store, or one that is gone, it
    /// hasn't.
    pub fn contains(&self, term: TermRef) -> bool
        ensures there { result ≡ is_some (reads self.now (term_name term)) }
        ensures state { IsTerms self.now }
    {
        // What `number` says of the state is said here too.
        let _number = self.number();
        self.terms.count(term.reference).is_some()
    }

    /// Whether a term is here, and why it can't be read where it isn't. Refused: `Foreign`, `Gone`.
    pub fn check(&self, term: TermRef) -> Result<(), Refusal>
        ensures { Owes result (due self.now (term_name term) any_count) }
    {
        self.terms.check(term.reference)
    }

    /// How many owners a term has. None for a term of another store, or one that is gone.
    pub fn count(&self, term: TermRef) -> Option<u64>
        ensures { result ≡ counts self.now (term_name term) }
    {
        self.terms.count(term.reference)
    }

    /// The terms, in no promised order. It takes no memory, and goes over as many places as there
    /// were terms at one time.
    pub fn iter(&self) -> TermIter<'_>
        ensures { IsPermutation result (names_in self.now) }
    {
        TermIter {
            entries: self.terms.iter(),
        }
    }

    /// A term's head with its arguments. None for a term of another store, or one that is gone.
    pub fn node(&self, term: TermRef) -> Option<(&Symbol, &[TermRef])>
        ensures { option_map (λ r. slice_of r.0.now r.1.now) result
            ≡ reads self.now (term_name term) }
    {
        let read = term.reference.get(&self.terms)?;
        Some((read.header.header, read.slice))
    }

    /// A term's head. None for a term of another store, or one that is gone.
    pub fn head(&self, term: TermRef) -> Option<&Symbol>
        ensures { option_map (λ h. h.now) result
            ≡ option_map (λ v. v.header) (reads self.now (term_name term)) }
    {
        Some(term.reference.get(&self.terms)?.header.header)
    }

    /// A term's arguments. None for a term of another store, or one that is gone.
    pub fn args(&self, term: TermRef) -> Option<&[TermRef]>
        ensures { option_map (λ a. a.now) result
            ≡ option_map (λ v. v.items) (reads self.now (term_name term)) }
    {
        Some(term.reference.get(&self.terms)?.slice)
    }

    /// The term of a name, which may come from anywhere. It looks the birth up, and takes no
    /// memory. Refused: `Foreign`, `Gone`.
    pub fn named(&self, name: Name) -> Result<TermRef, Refusal>
        ensures ok { IfOk result (λ t. term_name t ≡ name) }
        ensures refused { Owes result (due self.now name any_count) }
    {
        let reference = self.terms.reference(name)?;
        Ok(TermRef { reference })
    }

    /// Keeps a term, and so all that is in its tree: it is counted once more.
    /// Refused: `Foreign`, `Gone`, `CountFull`.
    pub fn keep(&mut self, term: TermRef) -> Result<Term, Refusal>
        ensures ok { IfOk result (λ t. owned_name t ≡ term_name term) }
        ensures refused { Owes result (due self.old (term_name term) (full self.old.top)) }
        ensures state { Becomes result self.old self.new
            (counted_up self.old (term_name term).birth) }
        ensures trees { (name : TermName) (t : TermTree) →
            UnfoldsTo self.old name t → UnfoldsTo self.new name t }
    {
        let owned = term.reference.to_owned(&mut self.terms)?;
        Ok(Term { owned })
    }

    /// Removes every term that is in no tree of a term that is kept. No birth is given again. The
    /// head of a term that goes keeps its count in its table ([`TermStore::collect_releasing`]
    /// gives it up). Where there is no memory, `AllocError`, and the store is as it was.
    pub fn collect(&mut self) -> Result<Collected, AllocError>
        ensures ok { IfOk result (λ told. (names : List TermName)
            × IsCollection (starts (terms_of self.old)) (terms_of self.old) names told
            × (self.new ≡ kept_named self.old (has names))) }
        ensures err { OnErr result (self.new ≡ self.old) }
        ensures trees { (name : TermName) (t : TermTree) → IsSome (reads self.new name) →
            UnfoldsTo self.old name t → UnfoldsTo self.new name t }
    {
        GarbageCollector::new(self.alloc).collect(&mut self.terms)
    }

    /// Does the same, and leaves the trees of what a visitor declares too: a [`TermRef`], or an
    /// option, a pair, an array, a vector or a slice of such, or a value of a type with a visitor
    /// of its own. A term of another store, one that is gone, or one that is declared twice, adds
    /// nothing. Refused as [`TermStore::collect`].
    pub fn collect_from<R: GcInternedVisit>(&mut self, roots: &R) -> Result<Collected, AllocError>
        ensures ok { IfOk result (λ told. (names : List TermName)
            × IsCollection (starts_with (R.children roots.now) (terms_of self.old))
            (terms_of self.old) names told
            × (self.new ≡ kept_named self.old (has names))) }
        ensures err { OnErr result (self.new ≡ self.old) }
        ensures trees { (name : TermName) (t : TermTree) → IsSome (reads self.new name) →
            UnfoldsTo self.old name t → UnfoldsTo self.new name t }
    {
        GarbageCollector::new(self.alloc).collect_from(&mut self.terms, roots)
    }

    /// Removes what [`TermStore::collect`] does, and leaves the trees of these terms too. One of
    /// another store, one that is gone, or one that is listed twice, adds nothing. Refused as
    /// there.
    pub fn collect_keeping(&mut self, roots: &[TermRef]) -> Result<Collected, AllocError>
        ensures ok { IfOk result (λ told. (names : List TermName)
            × IsCollection (starts_with (list_map term_name roots.now) (terms_of self.old))
            (terms_of self.old) names told
            × (self.new ≡ kept_named self.old (has names))) }
        ensures err { OnErr result (self.new ≡ self.old) }
        ensures trees { (name : TermName) (t : TermTree) → IsSome (reads self.new name) →
            UnfoldsTo self.old name t → UnfoldsTo self.new name t }
    {
        self.collect_from(&roots)
    }

    /// Does what [`TermStore::collect_keeping`] does, and gives up what the heads of the terms that
    /// go count in a table: a text that nothing else counts goes with them. A head that is a
    /// preset, or that the table can't read, changes nothing there. Where there is no memory,
    /// `AllocError`, and both are as they were.
    pub fn collect_releasing<N: BuildHasher>(
        &mut self,
        roots: &[TermRef],
        heads: &mut SymbolTable<N>,
    ) -> Result<Collected, AllocError>
        ensures ok { IfOk result (λ told. (names : List TermName)
            × IsCollection (starts_with (list_map term_name roots.now) (terms_of self.old))
            (terms_of self.old) names told
            × (self.new ≡ kept_named self.old (has names))
            × (listed : List (TermName × (Node × ℕ)))
            × IsPermutation listed (named_slices self.old)
            × (heads.new ≡ without_heads (has names) listed heads.old)) }
        ensures err { OnErr result ((self.new ≡ self.old) × (heads.new ≡ heads.old)) }
        ensures trees { (name : TermName) (t : TermTree) → IsSome (reads self.new name) →
            UnfoldsTo self.old name t → UnfoldsTo self.new name t }
    {
        let trace = GarbageCollector::new(self.alloc).trace(&self.terms, &roots)?;
        self.release_heads(&trace, heads);
        Ok(trace.sweep(&mut self.terms))
    }

    // Gives up the heads of the terms that don't stay.
    fn release_heads<N: BuildHasher>(&self, trace: &Trace, heads: &mut SymbolTable<N>)
        ensures { (listed : List (TermName × (Node × ℕ)))
            × IsPermutation listed (named_slices self.now)
            × (heads.new ≡ without_heads (has trace.now.marked) listed heads.old) }
    {
        for (term, node) in self.terms.iter() {
            if !trace.keeps(term) {
                give_up(node.header.header.as_ref(), heads);
            }
        }
    }

    // Where the store's memory is from.
    pub(crate) fn alloc(&self) -> Global {
        self.alloc
    }

    /// Whether terms can all be read, and why the first one that can't be can't: so a term of these
    /// arguments is refused. Refused: `Foreign`, `Gone`.
    pub fn check_all(&self, args: &[TermRef]) -> Result<(), Refusal>
        ensures refused { Owes result (due_each self.now (list_map term_name args.now)) }
        ensures state { IsTerms self.now }
    {
        // What `number` says of the state is said here too.
        let _number = self.number();
        for term in args {
            self.check(*term)?;
        }
        Ok(())
    }
}

// Gives up a count of a symbol, where the table has it.
fn give_up<N: BuildHasher>(head: SymbolRef, heads: &mut SymbolTable<N>)
    ensures { heads.new ≡ given_up heads.old (symbol_ref_name head) }
{
    let _ = head.decrease_refcount(heads);
}

impl<'a, B: BuildHasher> IntoIterator for &'a TermStore<B> {
    type Item = TermRef;

    type IntoIter = TermIter<'a>;

    ghost into_iter_gives = { λ store terms. IsPermutation terms (names_in store.now) };

    fn into_iter(self) -> TermIter<'a> {
        self.iter()
    }
}

impl Term {
    /// A second owner of the term, which is counted once more.
    /// Refused: `Foreign`, `Gone`, `CountFull`.
    pub fn clone<B: BuildHasher>(&self, store: &mut TermStore<B>) -> Result<Term, Refusal>
        ensures ok { IfOk result (λ t. owned_name t ≡ owned_name self.now) }
        ensures refused { Owes result (due store.old (owned_name self.now) (full store.old.top)) }
        ensures state { Becomes result store.old store.new
            (counted_up store.old (owned_name self.now).birth) }
        ensures trees { (name : TermName) (t : TermTree) →
            UnfoldsTo store.old name t → UnfoldsTo store.new name t }
    {
        store.keep(self.as_ref())
    }

    /// Gives the term up, with its count. It stays until a collection.
    /// Refused, with the term back: `Foreign`, `Gone`, `CountZero`.
    pub fn release<B: BuildHasher>(self, store: &mut TermStore<B>) -> Result<(), Refused<Term>>
        ensures refused { OwesBack result (due store.old (owned_name self) zero_count) self }
        ensures state { Becomes result store.old store.new
            (counted_down store.old (owned_name self).birth) }
        ensures trees { (name : TermName) (t : TermTree) →
            UnfoldsTo store.old name t → UnfoldsTo store.new name t }
    {
        self.owned
            .release(&mut store.terms)
            .map_err(|refused| Refused {
                why: refused.why,
                back: Term {
                    owned: refused.back,
                },
            })
    }
}
