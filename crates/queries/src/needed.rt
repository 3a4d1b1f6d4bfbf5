//! Which queries cells with formulas need.
ghost use Rattle.std.specs.Prelude.{◌≡◌, ◌↔◌, Contains, IfOk, OnOk, map as list_map};
ghost use Rattle.ra_ap_intern.specs.Handle.{ref_name};
ghost use Rattle.queries.specs.Needed.{AreNeeded, IsFormulaCell, IsNeeded, TakesReads};
ghost use Rattle.queries.specs.Sheet.{reads_of};
ghost use Rattle.queries.specs.declared.key.Key.{Key as KeyType};

use crate::key::{Key, KeyRef, Keys};
use crate::sheet::Sheet;
use indexmap::IndexSet;
use std::alloc::{AllocError, Global};

/// The handles of the queries that cells with formulas need.
pub fn needed_handles(alloc: Global, sheet: &Sheet, keys: &Keys) -> Result<Vec<KeyRef>, AllocError>
    ensures { IfOk result (λ handles.
        AreNeeded sheet.now keys.now (list_map ref_name handles.items)) }
{
    let _number = keys.number();
    let needed = needed_keys(alloc, sheet, keys)?;
    let mut handles = Vec::new(alloc);
    for key in needed.as_slice() {
        if let Some(handle) = keys.get(key) {
            handles.push(handle)?;
        }
    }
    Ok(handles)
}

// The cells with formulas, and what they need. Memos don't tell, since an edited cell has none.
fn needed_keys(alloc: Global, sheet: &Sheet, keys: &Keys) -> Result<IndexSet<Key>, AllocError>
    ensures { IfOk result (λ needed. (key : KeyType) →
        Contains needed.keys key ↔ IsNeeded sheet.now keys.now key) }
{
    let mut needed = formula_cells(alloc, sheet)?;
    let mut index = 0;
    while index < needed.len() {
        let key = needed[index];
        need_reads(sheet, keys, key, &mut needed)?;
        index += 1;
    }
    Ok(needed)
}

// The cells with formulas.
fn formula_cells(alloc: Global, sheet: &Sheet) -> Result<IndexSet<Key>, AllocError>
    ensures { IfOk result (λ cells. (key : KeyType) →
        Contains cells.keys key ↔ IsFormulaCell sheet.now key) }
{
    let mut cells = IndexSet::new(alloc);
    for place in &sheet.places()? {
        cells.insert(Key::Cell(*place))?;
    }
    Ok(cells)
}

// What a query reads is needed too, if it has a handle.
fn need_reads(
    sheet: &Sheet,
    keys: &Keys,
    key: Key,
    needed: &mut IndexSet<Key>,
) -> Result<(), AllocError>
    ensures { OnOk result (TakesReads keys.now (reads_of sheet.now key)
        needed.old.keys needed.new.keys) }
{
    let _number = keys.number();
    for read in &sheet.reads(key)? {
        if keys.get(read).is_some() {
            needed.insert(*read)?;
        }
    }
    Ok(())
}
