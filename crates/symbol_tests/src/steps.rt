//! Steps of many tests over a table of symbols, each with the answer that it must get.
//!
//! A step that gets another answer ends the test.
ghost use Rattle.std.specs.Prelude.{◌<◌};

use intern_fixtures::{allowed, refusal};
use ra_ap_intern::sym::{Integer, RaGeneratedName};
use ra_ap_intern::{Limits, Refusal, Refused, Symbol, SymbolRef, SymbolTable};
use std::alloc::Global;
use std::fmt::Debug;
use std::process::Abort;

/// The values are equal.
pub fn is_equal<V: Copy + PartialEq + Debug>(rt: &impl Abort, found: V, wanted: V) {
    assert_eq!(rt; found, wanted);
}

/// A new table. A test that makes it itself is proved for longer, and so is one that drops it.
pub fn new_table(alloc: Global, number: u64) -> SymbolTable {
    SymbolTable::new(alloc, number)
}

/// A new table with these limits.
pub fn limited_table(alloc: Global, number: u64, limits: Limits) -> SymbolTable
    requires { 0 < limits.top }
{
    SymbolTable::with_limits(alloc, number, limits)
}

/// Drops a table.
pub fn drop_table(_table: SymbolTable) {}

/// The table keeps this many texts.
pub fn keeps(rt: &impl Abort, table: &SymbolTable, len: usize) {
    is_equal(rt, table.len(), len);
}

/// The call was refused for this reason.
fn is_refused<A: Drop>(rt: &impl Abort, answer: Result<A, Refusal>, reason: Refusal) {
    is_reason(rt, refusal(answer).expect(rt, "refused"), reason);
}

/// This is the reason of a refusal.
fn is_reason(rt: &impl Abort, why: Refusal, reason: Refusal) {
    is_equal(rt, why, reason);
}

/// The symbol reads this text, of which the table has this count.
fn reads(
    rt: &impl Abort,
    table: &SymbolTable,
    symbol: &Symbol,
    text: Option<&str>,
    count: Option<u64>,
) {
    is_equal(
        rt,
        (symbol.as_str(table), table.count(symbol)),
        (text, count),
    );
}

/// The symbol reads this text, which the table keeps with this count.
pub fn is_stored(rt: &impl Abort, table: &SymbolTable, symbol: &Symbol, text: &str, count: u64) {
    reads(rt, table, symbol, Some(text), Some(count));
}

/// The symbol reads this text, of which the table has no count.
pub fn is_preset(rt: &impl Abort, table: &SymbolTable, symbol: &Symbol, text: &str) {
    reads(rt, table, symbol, Some(text), None);
}

/// The symbol has no text and no count in this table.
pub fn reads_nothing(rt: &impl Abort, table: &SymbolTable, symbol: &Symbol) {
    reads(rt, table, symbol, None, None);
}

/// The symbol's text writes this number, or none.
pub fn writes(rt: &impl Abort, table: &SymbolTable, symbol: &Symbol, number: Option<usize>) {
    let text = symbol.as_str(table);
    is_equal(rt, (text, Integer::as_uint(symbol, table)), (text, number));
}

/// Interns a text.
pub fn intern(rt: &impl Abort, table: &mut SymbolTable, text: &str) -> Symbol {
    Symbol::intern(table, text).expect(rt, "the text is interned")
}

/// Interns a text that isn't stored, after which the table keeps this many texts.
pub fn intern_new(rt: &impl Abort, table: &mut SymbolTable, text: &str, len: usize) -> Symbol {
    let symbol = intern(rt, table, text);
    is_stored(rt, table, &symbol, text, 1);
    keeps(rt, table, len);
    symbol
}

/// Interns a text that is stored, after which it has this count.
pub fn intern_again(rt: &impl Abort, table: &mut SymbolTable, text: &str, count: u64) -> Symbol {
    let len = table.len();
    let symbol = intern(rt, table, text);
    is_stored(rt, table, &symbol, text, count);
    keeps(rt, table, len);
    symbol
}

/// Interns a preset's text, which leaves the table with this many texts.
pub fn intern_preset(rt: &impl Abort, table: &mut SymbolTable, text: &str, len: usize) -> Symbol {
    let symbol = intern(rt, table, text);
    is_preset(rt, table, &symbol, text);
    keeps(rt, table, len);
    symbol
}

/// Interns a preset's text, which gives this symbol.
pub fn gives(rt: &impl Abort, table: &mut SymbolTable, text: &str, preset: &Symbol) {
    let symbol = intern(rt, table, text);
    assert!(rt; symbol == *preset, "{text}");
    is_preset(rt, table, preset, text);
}

/// Is refused the symbol of a text for this reason.
pub fn not_interned(rt: &impl Abort, table: &mut SymbolTable, text: &str, reason: Refusal) {
    is_refused(rt, Symbol::intern(table, text), reason);
}

/// The symbol of a number, whose text writes the number.
pub fn integer(rt: &impl Abort, table: &mut SymbolTable, n: usize) -> Symbol {
    let symbol = Integer::get(table, n).expect(rt, "the number has a symbol");
    writes(rt, table, &symbol, Some(n));
    symbol
}

/// Is refused the symbol of a number for this reason.
pub fn no_integer(rt: &impl Abort, table: &mut SymbolTable, n: usize, reason: Refusal) {
    is_refused(rt, Integer::get(table, n), reason);
}

/// The symbol of a number's generated name, whose text writes no number.
pub fn generated(rt: &impl Abort, table: &mut SymbolTable, n: usize) -> Symbol {
    let symbol = RaGeneratedName::get(table, n).expect(rt, "the number has a generated name");
    writes(rt, table, &symbol, None);
    symbol
}

/// Is refused the symbol of a generated name for this reason.
pub fn no_generated(rt: &impl Abort, table: &mut SymbolTable, n: usize, reason: Refusal) {
    is_refused(rt, RaGeneratedName::get(table, n), reason);
}

/// Makes a second symbol, after which the text has this count.
pub fn clone(
    rt: &impl Abort,
    table: &mut SymbolTable,
    symbol: &Symbol,
    count: Option<u64>,
) -> Symbol {
    let second = symbol.clone(table).expect(rt, "a second symbol is made");
    assert!(rt; second == *symbol);
    is_equal(rt, table.count(symbol), count);
    second
}

/// Is refused a second symbol for this reason.
pub fn not_cloned(rt: &impl Abort, table: &mut SymbolTable, symbol: &Symbol, reason: Refusal) {
    is_refused(rt, symbol.clone(table), reason);
}

/// Is refused a symbol of a reference for this reason.
pub fn not_owned(rt: &impl Abort, table: &mut SymbolTable, symbol: SymbolRef, reason: Refusal) {
    is_refused(rt, symbol.to_owned(table), reason);
}

/// Releases a symbol, after which the table keeps this many texts.
pub fn release(rt: &impl Abort, table: &mut SymbolTable, symbol: Symbol, len: usize) {
    is_equal(rt, allowed(symbol.release(table)), Ok(()));
    keeps(rt, table, len);
}

/// Is refused the release of a symbol for this reason. The same symbol comes back.
pub fn not_released(
    rt: &impl Abort,
    table: &mut SymbolTable,
    symbol: Symbol,
    reason: Refusal,
) -> Symbol {
    let reference = symbol.as_ref();
    let Refused { why, back } = symbol
        .release(table)
        .expect_err(rt, "the release is refused");
    is_reason(rt, why, reason);
    assert!(rt; back.as_ref() == reference);
    back
}

/// Takes one count back, after which the text has this count.
pub fn decrease(rt: &impl Abort, table: &mut SymbolTable, symbol: &mut Symbol, count: Option<u64>) {
    is_equal(rt, symbol.decrease_refcount(table), Ok(()));
    is_equal(rt, table.count(symbol), count);
}

/// Takes the last count back, after which the text is gone and the table keeps this many.
pub fn free(rt: &impl Abort, table: &mut SymbolTable, symbol: &mut Symbol, len: usize) {
    decrease(rt, table, symbol, None);
    reads_nothing(rt, table, symbol);
    keeps(rt, table, len);
}

/// Is refused to take one count back for this reason.
pub fn not_decreased(
    rt: &impl Abort,
    table: &mut SymbolTable,
    symbol: &mut Symbol,
    reason: Refusal,
) {
    is_refused(rt, symbol.decrease_refcount(table), reason);
}
