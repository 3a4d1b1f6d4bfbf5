//! A spreadsheet: a sheet, and a cache of its queries.
ghost use Rattle.std.specs.Prelude.{◌≡◌, ◌↔◌, [], Some, None, Contains, IsSome, IfOk, OnOk, OnErr, if◌then◌else◌};
ghost use Rattle.std.specs.FinMap as map;
ghost use Rattle.std.specs.List.Sorted.{IsStrictlySortedBy};
ghost use Rattle.ra_ap_intern.specs.Interning.{ReadsOn};
ghost use Rattle.ra_ap_intern.specs.State.{new_state};
ghost use Rattle.queries.specs.Cache.{CountsOn, no_counts};
ghost use Rattle.queries.specs.Evaluation.{Answers};
ghost use Rattle.queries.specs.Spreadsheet.{IsCleared};
ghost use Rattle.queries.specs.Sheet.{formula_at, same_place, place_order};
ghost use Rattle.queries.specs.declared.key.Key.TheVariants.{Cell as cell_key};
ghost use Rattle.queries.specs.declared.place.Place.{Place as PlaceType};

use crate::cache::{Cache, Counts};
use crate::fault::Fault;
use crate::formula::Formula;
use crate::key::Key;
use crate::needed::needed_handles;
use crate::place::Place;
use crate::sheet::Sheet;
use crate::value::Answer;
use std::alloc::{AllocError, Global};
use std::marker::Model;

/// A spreadsheet.
#[derive(Drop)]
pub struct Spreadsheet {
    alloc: Global,
    sheet: Sheet,
    cache: Cache,
}

impl Model for Spreadsheet {
    ghost use Rattle.std.specs.Coded.{coded_list, coded×};
    ghost use Rattle.queries.specs.Cache.{IsCache};
    ghost use Rattle.queries.specs.Formula.{postfix_code};
    ghost use Rattle.queries.specs.Spreadsheet.{Book, book_code};
    ghost use Rattle.queries.specs.contracts.cache.Counts as counts;
    ghost use Rattle.queries.specs.contracts.formula.Step as step;
    ghost use Rattle.queries.specs.contracts.key.Key as key;
    ghost use Rattle.queries.specs.contracts.place.Place as place;

    ghost Value = { Book };

    ghost coded = { book_code (coded_list (coded× place.the_row.coded
        (postfix_code key.the_row.coded step.the_row.coded))) key.the_row.coded
        counts.the_row.coded };

    ghost view = { λ a. record {
      sheet = a.sheet;
      keys = a.cache.keys;
      counts = a.cache.counts;
    } };

    ghost invariant = { λ a. IsCache a.sheet a.cache };
}

impl Spreadsheet {
    /// No cell has a formula.
    pub fn new(alloc: Global) -> Spreadsheet
        ensures sheet { result.sheet ≡ [] }
        ensures queries { result.keys ≡ new_state 1 u64.MAX u64.MAX }
        ensures counts { result.counts ≡ no_counts }
    {
        Spreadsheet {
            alloc,
            sheet: Sheet::new(alloc),
            cache: Cache::new(alloc),
        }
    }

    /// Gives a cell a formula, in place of the one that it had. Where there is no memory or no
    /// further revision, nothing changes.
    pub fn set(&mut self, place: Place, formula: Formula) -> Result<(), Fault>
        ensures ok { OnOk result ((p : PlaceType) → formula_at self.new.sheet p
            ≡ (if same_place place p then Some formula else formula_at self.old.sheet p)) }
        ensures queries { self.new.keys ≡ self.old.keys }
        ensures counts { self.new.counts ≡ self.old.counts }
        ensures err { OnErr result (self.new ≡ self.old) }
    {
        self.cache.raise(place)?;
        Ok(self.sheet.set(place, formula)?)
    }

    /// Takes the formula of a cell away.
    pub fn clear(&mut self, place: Place) -> Result<(), Fault>
        ensures ok { OnOk result ((p : PlaceType) → formula_at self.new.sheet p
            ≡ (if same_place place p then None else formula_at self.old.sheet p)) }
        ensures queries { self.new.keys ≡ self.old.keys }
        ensures counts { self.new.counts ≡ self.old.counts }
        ensures err { OnErr result (self.new ≡ self.old) }
    {
        self.cache.raise(place)?;
        self.sheet.clear(place);
        Ok(())
    }

    /// The value of a cell, or a query through which it leads back to itself.
    pub fn answer(&mut self, place: Place) -> Result<Answer, Fault>
        ensures answer { IfOk result (Answers self.old.sheet (cell_key place)) }
        ensures sheet { self.new.sheet ≡ self.old.sheet }
        ensures queries { ReadsOn self.old.keys self.new.keys }
        ensures counts { CountsOn self.old.counts self.new.counts }
    {
        self.cache.answer(&self.sheet, Key::Cell(place))
    }

    /// The cells that have formulas, in order and each once.
    pub fn places(&self) -> Result<Vec<Place>, AllocError>
        ensures order { IfOk result (λ places. IsStrictlySortedBy place_order places.items) }
        ensures cells { IfOk result (λ places. (p : PlaceType) →
            Contains places.items p ↔ IsSome (formula_at self.now.sheet p)) }
    {
        self.sheet.places()
    }

    /// How queries were answered so far.
    pub fn counts(&self) -> Counts
        ensures { result ≡ self.now.counts }
    {
        self.cache.counts
    }

    /// How many queries have handles.
    pub fn queries(&self) -> usize
        ensures { result ≡ map.len self.now.keys.map }
    {
        self.cache.keys.len()
    }

    /// Removes the queries that no cell with a formula needs, and tells how many. Where there is
    /// no memory, nothing changes.
    pub fn collect(&mut self) -> Result<usize, AllocError>
        ensures ok { IfOk result (IsCleared self.old self.new) }
        ensures err { OnErr result (self.new ≡ self.old) }
    {
        let needed = needed_handles(self.alloc, &self.sheet, &self.cache.keys)?;
        self.cache.collect(needed.as_slice())
    }
}
