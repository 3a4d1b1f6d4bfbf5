//! Interning of texts.
//!
//! A [`Symbol`] stands for a text. The presets are in no table, and many of them are constants,
//! such as `sym::Clone`; every other text is stored in a [`SymbolTable`] while it is counted.
//!
//! A symbol that is dropped without `release` keeps its count.
ghost use Rattle.std.specs.Prelude.{◌≡◌, ◌<◌, ◌≤◌, ◌==◌, if◌then◌else◌, false, true, length, Some, None, IsPermutation, IfOk};
ghost use Rattle.std.specs.Borrow.{sem};
ghost use Rattle.std.specs.FinMap as map;
ghost use Rattle.std.specs.Option.{option_map};
ghost use Rattle.std.specs.Str.{bytes_eq};
ghost use Rattle.intern_store.specs.Memory.{least_memory};
ghost use Rattle.intern_store.specs.Outcome.{Owes, OwesBack, MayWant, Becomes, Spends};
ghost use Rattle.intern_store.specs.State.{IsState, new_state, counted_up, due, full, any_count, released};
ghost use Rattle.ra_ap_intern.specs.Symbols.{IsTable, displayed, entry, symbol_name, symbol_ref_name, named_in, named_texts, entry_name, own_text, text_of, count_of, symbol_in, due_of, due_symbol, is_new_text, at_entry};
ghost use Rattle.ra_ap_intern.specs.declared.symbol.symbols.TheConstants as sym;

mod display;
mod each;
mod iter;
mod numbered;
mod owed;
mod packed;
mod reference;
pub mod symbols;

pub use display::SymbolDisplay;
use intern_store::{Limits, Name, Refusal, Refused, Store};
use intern_table::{Equivalent, FixedState, Table, Text};
pub use iter::SymbolIter;
pub use owed::OwedSymbol;
use packed::Packed;
use std::alloc::Global;
use std::cmp::Eq;
use std::hash::{BuildHasher, Hash};
use std::marker::Model;

/// A table of texts, each kept once, and only while it is counted. The presets are in no table.
/// Texts are hashed by a hasher that `B` builds.
///
/// A text that is stored or a preset takes no memory. Any other is copied, which takes none where
/// it has up to 24 bytes and room was reserved for it.
#[derive(Drop)]
pub struct SymbolTable<B: BuildHasher = FixedState> {
    inner: ReservedTexts<B>,
}

/// The texts of a symbol table, and the room that is left for more: what [`SymbolTable::reserve`]
/// lends.
///
/// While there is room, interning a text of up to 24 bytes takes no memory, and so is refused for
/// no want of it. Contracts see the table's state, its hasher, and the room.
#[derive(Drop)]
pub struct ReservedTexts<B: BuildHasher = FixedState> {
    store: Store<Table<Text, B>>,
}

impl<B: BuildHasher> Model for ReservedTexts<B> {
    ghost use Rattle.std.specs.Prelude.{List, ℕ};
    ghost use Rattle.std.specs.Coded.{coded_list, coded_ℕ};
    ghost use Rattle.intern_store.specs.State.{Stocked, stocked_code};
    ghost use Rattle.ra_ap_intern.specs.Symbols.{IsTable};

    ghost Value = { Stocked (List ℕ) B };

    ghost coded = { stocked_code (coded_list coded_ℕ) B.code };

    ghost view = { λ a. a.store };

    ghost invariant = { λ a. IsTable a.store.state };
}

impl<B: BuildHasher> Model for SymbolTable<B> {
    ghost use Rattle.std.specs.Prelude.{List, ℕ};
    ghost use Rattle.std.specs.Coded.{coded_list, coded_ℕ};
    ghost use Rattle.intern_store.specs.State.{State, state_code};

    ghost Value = { State (List ℕ) };

    ghost coded = { state_code (coded_list coded_ℕ) };

    ghost view = { λ a. a.inner.state };
}

/// A symbol: a preset, or a handle of a text in a table, which counts one.
///
/// Symbols are compared, ordered and hashed by what they name alone, so two of one table are equal
/// exactly if their texts are. Their order is that of presets and then of names, and not of texts.
#[derive(Drop)]
#[derive(PartialEq, Eq, PartialOrd, Ord, Hash)]
pub struct Symbol(Packed);

/// A reference to a symbol, which counts nothing. It is compared, ordered and hashed by what it
/// names alone.
#[derive(Clone, Copy, PartialEq, Eq, PartialOrd, Ord, Hash)]
pub struct SymbolRef(Packed);

// A reference looks a symbol up by what both name.
impl Equivalent<Symbol> for SymbolRef {
    ghost use Rattle.std.proofs.Common.{rules};
    ghost use Rattle.std.specs.Cmp.Rules.{comparing, hashing};
    ghost use Rattle.ra_ap_intern.specs.Symbols.{same_named, symbol_name, symbol_ref_name};

    ghost equivalent = { λ r s. same_named (symbol_ref_name r) (symbol_name s) };

    ghost respects_hash = { Prim.search (hashing, rules) };

    ghost respects_eq = { Prim.search (comparing, rules) };

    fn equivalent(&self, symbol: &Symbol) -> bool {
        self.0 == symbol.0
    }
}

impl SymbolTable {
    /// An empty table with the largest limits. It takes no memory.
    ///
    /// Symbols tell tables apart by their numbers alone: give each table one of its own.
    pub fn new(alloc: Global, number: u64) -> Self
        ensures { result ≡ new_state number u64.MAX u64.MAX }
    {
        SymbolTable {
            inner: ReservedTexts {
                store: Store::new(alloc, number),
            },
        }
    }

    /// An empty table with limits of its own. It takes no memory.
    pub fn with_limits(alloc: Global, number: u64, limits: Limits) -> Self
        requires { 0 < limits.top }
        ensures { result ≡ new_state number limits.top limits.numbers }
    {
        SymbolTable::with_hasher(alloc, number, limits, FixedState::new())
    }
}

impl<B: BuildHasher> SymbolTable<B> {
    ghost use Rattle.ra_ap_intern.specs.Reserved.{LendsTexts};

    /// An empty table with limits of its own, which hashes texts by what `hasher` builds. It takes
    /// no memory.
    ///
    /// The seed of [`FixedState`] is known, so that whoever chooses the texts can let all of them
    /// share a bucket. Give a table of such texts `RandomState::new(&rt)?`.
    pub fn with_hasher(alloc: Global, number: u64, limits: Limits, hasher: B) -> Self
        requires { 0 < limits.top }
        ensures { result ≡ new_state number limits.top limits.numbers }
    {
        SymbolTable {
            inner: ReservedTexts {
                store: Store::with_hasher(alloc, number, limits, hasher),
            },
        }
    }

    /// Lends the table with room for this many more texts of up to 24 bytes: until the loan ends,
    /// the next so many that aren't stored yet are refused for no want of memory. Refused:
    /// `OutOfMemory`.
    ///
    /// The room stays when the loan ends. It takes what so many entries may need at most, whichever
    /// slots they use: more than interning them one by one does. Where the hash tables are built
    /// anew, each stored text is hashed again.
    pub fn reserve(&mut self, additional: usize) -> Result<&mut ReservedTexts<B>, Refusal>
        ensures* lends { sem 𝓛 (LendsTexts B.row B.Hasher.row B.BuildHasher B.Hasher.Hasher
            self.entry result) }
        ensures refused { MayWant result None true }
        ensures state { IfOk result (λ r. r.now.state ≡ self.old) }
        ensures room { IfOk result (λ r. additional ≤ r.now.room) }
    {
        self.inner.store.reserve(additional)?;
        Ok(&mut self.inner)
    }

    /// The table's number.
    pub fn number(&self) -> u64
        ensures number { result ≡ self.now.number }
        ensures state { IsState bytes_eq self.now }
        ensures table { IsTable self.now }
    {
        self.inner.store.number()
    }

    /// How many texts the table keeps. Presets don't count.
    pub fn len(&self) -> usize
        ensures { result ≡ map.len self.now.map }
    {
        self.inner.store.len()
    }

    /// Whether the table keeps no text.
    pub fn is_empty(&self) -> bool
        ensures { result ≡ (map.len self.now.map == 0) }
    {
        self.inner.store.is_empty()
    }

    /// The bytes of memory that the table holds: its slots, used or not, with texts of up to 24
    /// bytes, and what finds them; eight for each text at least. Longer texts lie elsewhere and are
    /// not counted, and neither is the table itself.
    pub fn memory(&self) -> usize
        ensures { least_memory (map.len self.now.map) ≤ result }
    {
        self.inner.store.memory()
    }

    /// A reference to the symbol of a text: a preset's, or that of a text that the table keeps.
    /// None for any other text. It takes no memory.
    pub fn get(&self, text: &str) -> Option<SymbolRef>
        ensures { option_map symbol_ref_name result ≡ named_in self.now text.now }
    {
        // No table keeps a preset's text.
        let packed = match self.inner.store.find(&text) {
            Some(key) => Packed::runtime(key),
            None => Packed::preset(intern_presets::place(text)?),
        };
        Some(SymbolRef(packed))
    }

    /// A reference to the symbol of a text, which the table keeps: unless it is a preset, it is
    /// counted once more, until [`SymbolRef::decrease_refcount`] gives that count up. For tables
    /// that only grow, and for values that hold references. Refused as [`Symbol::intern`]:
    /// `CountFull`, `NumbersUsedUp`, `OutOfMemory`.
    pub fn get_or_intern(&mut self, text: &str) -> Result<SymbolRef, Refusal>
        ensures ok { IfOk result (λ r.
            symbol_ref_name r ≡ (symbol_in self.old text.now).symbol) }
        ensures refused { MayWant result (due_symbol self.old text.now)
            (is_new_text self.old text.now) }
        ensures state { Becomes result self.old self.new (symbol_in self.old text.now).table }
    {
        let symbol = self.inner.intern(text)?;
        Ok(symbol.as_ref())
    }

    /// The texts that the table keeps, each with a reference to its symbol, in no promised order.
    /// Presets are none of them. It takes no memory, and goes over as many places as there were
    /// texts at one time.
    pub fn iter(&self) -> SymbolIter<'_>
        ensures { IsPermutation result (named_texts self.now) }
    {
        SymbolIter {
            number: self.inner.store.number(),
            entries: self.inner.store.table().iter(),
        }
    }

    /// The reference of the symbol of a name, which may come from anywhere. It looks the birth up,
    /// and takes no memory. Refused: `Foreign`, `Gone`.
    pub fn reference(&self, name: Name) -> Result<SymbolRef, Refusal>
        ensures ok { IfOk result (λ r. symbol_ref_name r ≡ entry name) }
        ensures refused { Owes result (due self.now name any_count) }
    {
        let Name { storage, birth } = name;
        if storage != self.number() {
            return Err(Refusal::Foreign);
        }
        let key = self.inner.store.entry(birth)?;
        Ok(SymbolRef(Packed::runtime(key)))
    }

    /// The count of a symbol's text. None for a preset, for a symbol of another table, and for one
    /// whose text is gone.
    pub fn count(&self, symbol: &Symbol) -> Option<u64>
        ensures { result ≡ count_of self.now (symbol_name symbol.now) }
    {
        symbol.as_ref().count(self)
    }

    /// Whether the text of a symbol can be read, and why it can't be where it can't.
    /// Refused, never for a preset: `Foreign`, `Gone`.
    pub fn check(&self, symbol: SymbolRef) -> Result<(), Refusal>
        ensures { Owes result (due_of self.now (symbol_ref_name symbol) any_count) }
    {
        let Some(name) = symbol.name() else {
            return Ok(());
        };
        if name.storage != self.number() {
            return Err(Refusal::Foreign);
        }
        if symbol.count(self).is_none() {
            return Err(Refusal::Gone);
        }
        Ok(())
    }
}

impl<'a, B: BuildHasher> IntoIterator for &'a SymbolTable<B> {
    type Item = (SymbolRef, &'a str);

    type IntoIter = SymbolIter<'a>;

    ghost into_iter_gives = { λ table texts. IsPermutation texts (named_texts table.now) };

    fn into_iter(self) -> SymbolIter<'a> {
        self.iter()
    }
}

impl<B: BuildHasher> ReservedTexts<B> {
    /// What [`Symbol::intern`] does. Where there is room, a text of up to 24 bytes that isn't
    /// stored takes of it. Refused as there, but with `OutOfMemory` only where there is no room, or
    /// the text is longer.
    pub fn intern(&mut self, text: &str) -> Result<Symbol, Refusal>
        ensures ok { IfOk result (λ s.
            symbol_name s ≡ (symbol_in self.old.state text.now).symbol) }
        ensures refused { MayWant result (due_symbol self.old.state text.now)
            (is_new_text self.old.state text.now) }
        ensures roomy { 0 < self.old.room → length text.now ≤ 24 →
            Owes result (due_symbol self.old.state text.now) }
        ensures room { Spends result self.old.room self.new.room
            (if is_new_text self.old.state text.now then 1 else 0) }
        ensures state { Becomes result self.old.state self.new.state
            (symbol_in self.old.state text.now).table }
    {
        // No table keeps a preset's text, so the presets are looked at only for what isn't stored.
        let hash = match self.store.count_up_stored(&text) {
            Ok(Ok(key)) => return Ok(Symbol(Packed::runtime(key))),
            Ok(Err(hash)) => hash,
            Err(why) => return Err(why),
        };
        if let Some(preset) = intern_presets::place(text) {
            return Ok(Symbol(Packed::preset(preset)));
        }
        match self.store.add_counted(hash, text) {
            Ok(key) => Ok(Symbol(Packed::runtime(key))),
            Err(Refused { why, .. }) => Err(why),
        }
    }
}

impl Symbol {
    /// The symbol of a text. A preset's text gives its constant, and the table stays as it is; any
    /// other is counted once more. Only a text that isn't stored is copied, which may take memory.
    ///
    /// Refused, never for a preset: `CountFull` where the text is stored and its count is at the
    /// limit; `NumbersUsedUp` and `OutOfMemory` where it isn't stored.
    pub fn intern<B: BuildHasher>(table: &mut SymbolTable<B>, text: &str) -> Result<Symbol, Refusal>
        ensures ok { IfOk result (λ s. symbol_name s ≡ (symbol_in table.old text.now).symbol) }
        ensures refused { MayWant result (due_symbol table.old text.now)
            (is_new_text table.old text.now) }
        ensures state { Becomes result table.old table.new
            (symbol_in table.old text.now).table }
    {
        table.inner.intern(text)
    }

    /// The symbol of the empty text, which is a preset.
    pub fn empty() -> Symbol
        ensures { result ≡ sym._empty_sym }
    {
        symbols::_empty_sym
    }

    /// A reference to the symbol.
    pub fn as_ref(&self) -> SymbolRef
        ensures { symbol_ref_name result ≡ symbol_name self.now }
    {
        SymbolRef(self.0)
    }

    /// The name of the symbol's entry: the table's number and the birth. None for a preset.
    pub fn name(&self) -> Option<Name>
        ensures { result ≡ entry_name (symbol_name self.now) }
    {
        self.as_ref().name()
    }

    /// The text: a preset's, whatever the table, or else the one that the table keeps.
    /// None for a symbol of another table, and for one whose text is gone.
    pub fn as_str<'a, B: BuildHasher>(&self, table: &'a SymbolTable<B>) -> Option<&'a str>
        ensures { option_map (λ t. t.now) result ≡ text_of table.now (symbol_name self.now) }
    {
        self.as_ref().as_str(table)
    }

    /// The text of a preset, for which no table is needed. None for a symbol of a table.
    pub fn preset_text(&self) -> Option<&'static str>
        ensures { option_map (λ t. t.now) result ≡ own_text (symbol_name self.now) }
    {
        self.as_ref().preset_text()
    }

    /// The symbol as it is written by `{}`: its text, or its name where that can't be read.
    pub fn display<'a, B: BuildHasher>(&self, table: &'a SymbolTable<B>) -> SymbolDisplay<'a, B>
        ensures { displayed result ≡ (symbol_name self.now, table.now) }
    {
        self.as_ref().display(table)
    }

    /// A second symbol of the same text, which counts one more unless it is a preset.
    /// Refused, never for a preset: `Foreign`, `Gone`, `CountFull`.
    pub fn clone<B: BuildHasher>(&self, table: &mut SymbolTable<B>) -> Result<Symbol, Refusal>
        ensures ok { IfOk result (λ s. symbol_name s ≡ symbol_name self.now) }
        ensures refused { Owes result
            (due_of table.old (symbol_name self.now) (full table.old.top)) }
        ensures state { Becomes result table.old table.new
            (at_entry counted_up table.old (symbol_name self.now)) }
    {
        self.as_ref().to_owned(table)
    }

    /// Gives the symbol up, with its count. With the last one the text goes. A preset stays.
    /// Refused, with the symbol back and never for a preset: `Foreign`, `Gone`.
    pub fn release<B: BuildHasher>(self, table: &mut SymbolTable<B>) -> Result<(), Refused<Symbol>>
        ensures refused { OwesBack result (due_of table.old (symbol_name self) any_count) self }
        ensures state { Becomes result table.old table.new
            (at_entry (released false) table.old (symbol_name self)) }
    {
        self.as_ref()
            .decrease_refcount(table)
            .map_err(|why| Refused { why, back: self })
    }

    /// Takes back the count of a symbol that was dropped without `release`. With the last count the
    /// text goes. This symbol stays as it is, and so does a preset.
    /// Refused, never for a preset: `Foreign`, `Gone`.
    pub fn decrease_refcount<B: BuildHasher>(
        &mut self,
        table: &mut SymbolTable<B>,
    ) -> Result<(), Refusal>
        ensures refused { Owes result (due_of table.old (symbol_name self.old) any_count) }
        ensures symbol { self.new ≡ self.old }
        ensures state { Becomes result table.old table.new
            (at_entry (released false) table.old (symbol_name self.old)) }
    {
        self.as_ref().decrease_refcount(table)
    }
}

impl<'a> From<&'a Symbol> for SymbolRef {
    ghost from_gives = { λ symbol reference. symbol_ref_name reference ≡ symbol_name symbol.now };

    fn from(symbol: &'a Symbol) -> SymbolRef {
        symbol.as_ref()
    }
}
