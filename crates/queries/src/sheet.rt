//! Sheets: which cells have which formulas.
ghost use Rattle.std.specs.Prelude.{◌≡◌, ◌↔◌, ◌-◌, ◌++◌, [], Some, None, Contains, IsSome, IfOk, OnOk, OnErr, if◌then◌else◌};
ghost use Rattle.std.specs.List.Sorted.{IsStrictlySortedBy};
ghost use Rattle.queries.specs.Sheet.{formula_at, same_place, place_order, reads_of, gives, block_cells, column_cells};
ghost use Rattle.queries.specs.declared.place.Place.{Place as PlaceType};

use crate::formula::{Formula, formula_value};
use crate::key::Key;
use crate::place::{Block, Place};
use crate::value::{Value, total};
use std::alloc::{AllocError, Global};
use std::collections::HashMap;
use std::marker::Model;

/// The formulas of cells.
#[derive(Drop)]
pub struct Sheet {
    alloc: Global,
    formulas: HashMap<Place, Formula>,
}

impl Model for Sheet {
    ghost use Rattle.queries.specs.Sheet.{Formulas};

    ghost Value = { Formulas };

    ghost view = { λ s. s.formulas.entries };
}

impl Sheet {
    /// No cell has a formula.
    pub fn new(alloc: Global) -> Sheet
        ensures { result ≡ [] }
    {
        Sheet {
            alloc,
            formulas: HashMap::new(alloc),
        }
    }

    /// Gives a cell a formula, in place of the one that it had. Where there is no memory,
    /// `AllocError`, and nothing changes.
    pub fn set(&mut self, place: Place, formula: Formula) -> Result<(), AllocError>
        ensures ok { OnOk result ((p : PlaceType) → formula_at self.new p
            ≡ (if same_place place p then Some formula else formula_at self.old p)) }
        ensures err { OnErr result (self.new ≡ self.old) }
    {
        self.formulas.insert(place, formula)?;
        Ok(())
    }

    /// Takes the formula of a cell away.
    pub fn clear(&mut self, place: Place)
        ensures { (p : PlaceType) → formula_at self.new p
            ≡ (if same_place place p then None else formula_at self.old p) }
    {
        let _ = self.formulas.remove(&place);
    }

    /// The cells that have formulas, in order and each once.
    pub fn places(&self) -> Result<Vec<Place>, AllocError>
        ensures order { IfOk result (λ places. IsStrictlySortedBy place_order places.items) }
        ensures cells { IfOk result (λ places. (p : PlaceType) →
            Contains places.items p ↔ IsSome (formula_at self.now p)) }
    {
        let mut places: Vec<Place> = self.formulas.keys().copied().collect(self.alloc)?;
        places.sort()?;
        Ok(places)
    }

    /// What a query reads, in order.
    pub fn reads(&self, key: Key) -> Result<Vec<Key>, AllocError>
        ensures { IfOk result (λ reads. reads.items ≡ reads_of self.now key) }
    {
        match key {
            Key::Cell(place) => match self.formulas.get(&place) {
                Some(formula) => Vec::from_slice(self.alloc, formula.reads()),
                None => Ok(Vec::new(self.alloc)),
            },
            Key::Total(_, block) => cells_of(self.alloc, block),
        }
    }

    /// What a query gives, where it reads these values.
    pub fn give(&self, key: Key, values: &[Value]) -> Result<Value, AllocError>
        ensures { IfOk result (λ value. value ≡ gives self.now key values.now) }
    {
        match key {
            Key::Cell(place) => match self.formulas.get(&place) {
                Some(formula) => formula_value(self.alloc, formula.steps(), values),
                None => Ok(Value::Empty),
            },
            Key::Total(function, _) => Ok(Value::of(total(function, values))),
        }
    }
}

// The cells of a block, column by column.
fn cells_of(alloc: Global, block: Block) -> Result<Vec<Key>, AllocError>
    ensures { IfOk result (λ cells. cells.items ≡ block_cells block) }
{
    let mut cells = Vec::new(alloc);
    for column in block.left..block.right {
        push_column(&mut cells, column, block.top, block.bottom)?;
    }
    Ok(cells)
}

// Adds the cells of a column, from one row up to another.
fn push_column(cells: &mut Vec<Key>, column: u32, top: u32, bottom: u32) -> Result<(), AllocError>
    ensures { OnOk result (cells.new.items
        ≡ cells.old.items ++ column_cells top (bottom - top) column) }
{
    for row in top..bottom {
        cells.push(Key::Cell(Place { column, row }))?;
    }
    Ok(())
}
