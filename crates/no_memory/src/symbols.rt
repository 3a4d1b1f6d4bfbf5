//! Tables of texts, symbols, and the numbered lists.
use crate::fault::{Fault, ensure, gives_back, is_refused, of_owed_symbol};
use crate::marks::{prepares, takes_none};
use ra_ap_intern::sym::{Integer, RaGeneratedName};
use ra_ap_intern::{FixedState, Limits, OwedSymbol, Refusal, Symbol, SymbolRef, SymbolTable, sym};
use std::alloc::Global;

/// A text that is stored, and counted once. Like the next two it is longer than lies in an entry.
const LIVE: &str = "a text of more than 24 bytes that is counted once";

/// One whose count is at its limit.
const FULL: &str = "a text of more than 24 bytes whose count is at its limit";

/// One that was stored, and is gone.
const GONE: &str = "a text of more than 24 bytes that is gone";

/// A number whose digits and whose generated name are stored, and counted once.
const NUMBER: usize = 300;

/// A number of which neither is stored.
const NEW: usize = 301;

/// The limits of the table, which gives its last birth to the last of these.
const LIMITS: Limits = Limits { top: 2, numbers: 5 };

/// A symbol of each text, and one of another table.
#[derive(Drop)]
struct Symbols {
    live: Symbol,
    full: Symbol,
    gone: Symbol,
    integer: Symbol,
    generated: Symbol,
    foreign: Symbol,
}

/// Checks each call.
pub(crate) fn check(rt: &impl Eprint, alloc: Global) -> Result<(), Fault> {
    check_making(rt, alloc)?;
    prepares(rt);
    check_over(rt, alloc, &mut make(alloc))
}

fn make(alloc: Global) -> SymbolTable {
    SymbolTable::with_limits(alloc, 1, LIMITS)
}

fn make_hashed(alloc: Global) -> SymbolTable {
    SymbolTable::with_hasher(alloc, 1, LIMITS, FixedState::new())
}

fn check_over(rt: &impl Eprint, alloc: Global, table: &mut SymbolTable) -> Result<(), Fault> {
    let mut symbols = fill_surely(alloc, table)?;
    check_calls(rt, table, &mut symbols)?;
    check_release(rt, table, symbols)
}

fn check_calls(
    rt: &impl Eprint,
    table: &mut SymbolTable,
    symbols: &mut Symbols,
) -> Result<(), Fault> {
    check_table(rt, table)?;
    check_look_ups(rt, table, symbols)?;
    check_reads(rt, table, symbols)?;
    check_names(rt, symbols)?;
    check_numbers(rt, table, symbols)?;
    check_presets(rt, table)?;
    check_interning(rt, table, symbols)?;
    check_integers(rt, table, symbols)?;
    check_generated(rt, table, symbols)?;
    check_owning(rt, table, symbols)?;
    check_lowering(rt, table, symbols)?;
    check_owed(rt, table, symbols)
}

// Stores the texts, in a table that is made anew where that is refused.
fn fill_surely(alloc: Global, table: &mut SymbolTable) -> Result<Symbols, Fault> {
    match fill(alloc, table) {
        Ok(symbols) => Ok(symbols),
        Err(_) => {
            *table = make(alloc);
            fill(alloc, table)
        }
    }
}

// Stores the texts.
fn fill(alloc: Global, table: &mut SymbolTable) -> Result<Symbols, Fault> {
    let live = Symbol::intern(table, LIVE)?;
    let full = Symbol::intern(table, FULL)?;
    drop(full.clone(table)?);
    let integer = Integer::get(table, NUMBER)?;
    let generated = RaGeneratedName::get(table, NUMBER)?;
    let mut gone = Symbol::intern(table, GONE)?;
    gone.decrease_refcount(table)?;
    let foreign = Symbol::intern(&mut SymbolTable::new(alloc, 2), LIVE)?;
    Ok(Symbols {
        live,
        full,
        gone,
        integer,
        generated,
        foreign,
    })
}

fn check_making(rt: &impl Eprint, alloc: Global) -> Result<(), Fault> {
    takes_none(rt, "SymbolTable::new");
    ensure(is_empty(SymbolTable::new(alloc, 1)))?;
    takes_none(rt, "SymbolTable::with_limits");
    ensure(is_empty(make(alloc)))?;
    takes_none(rt, "SymbolTable::with_hasher");
    ensure(is_empty(make_hashed(alloc)))
}

fn is_empty(table: SymbolTable) -> bool {
    table.is_empty()
}

fn check_table(rt: &impl Eprint, table: &SymbolTable) -> Result<(), Fault> {
    takes_none(
        rt,
        "SymbolTable::number, SymbolTable::len, SymbolTable::is_empty",
    );
    ensure(table.number() == 1 && table.len() == 4 && !table.is_empty())?;
    takes_none(rt, "SymbolTable::memory");
    ensure(table.memory() > 0)?;
    check_walk(rt, table)
}

fn check_look_ups(rt: &impl Eprint, table: &SymbolTable, symbols: &Symbols) -> Result<(), Fault> {
    takes_none(rt, "SymbolTable::get");
    ensure(
        table.get(LIVE) == Some(symbols.live.as_ref())
            && table.get("Clone") == Some(sym::Clone.as_ref())
            && table.get(GONE) == None,
    )?;
    takes_none(rt, "SymbolTable::count");
    ensure(
        table.count(&symbols.full) == Some(2)
            && table.count(&sym::Clone) == None
            && table.count(&symbols.gone) == None
            && table.count(&symbols.foreign) == None,
    )?;
    check_readable(rt, table, symbols)
}

fn check_readable(rt: &impl Eprint, table: &SymbolTable, symbols: &Symbols) -> Result<(), Fault> {
    takes_none(rt, "SymbolTable::check");
    table.check(symbols.live.as_ref())?;
    is_refused(table.check(symbols.gone.as_ref()), Refusal::Gone)
}

fn check_walk(rt: &impl Eprint, table: &SymbolTable) -> Result<(), Fault> {
    takes_none(
        rt,
        "SymbolTable::iter, a loop over a table, SymbolRef::count",
    );
    for (symbol, _) in table {
        ensure(symbol.count(table).is_some())?;
    }
    ensure(table.iter().count() == 4)
}

fn check_reads(rt: &impl Eprint, table: &SymbolTable, symbols: &Symbols) -> Result<(), Fault> {
    takes_none(rt, "Symbol::as_str");
    ensure(
        symbols.live.as_str(table) == Some(LIVE)
            && symbols.gone.as_str(table) == None
            && symbols.foreign.as_str(table) == None,
    )?;
    takes_none(rt, "Symbol::as_ref, SymbolRef::as_str");
    ensure(
        symbols.full.as_ref().as_str(table) == Some(FULL)
            && symbols.gone.as_ref().as_str(table) == None
            && symbols.foreign.as_ref().as_str(table) == None,
    )?;
    takes_none(rt, "Symbol::display, SymbolRef::display");
    let _ = symbols.live.display(table);
    let _ = symbols.live.as_ref().display(table);
    Ok(())
}

fn check_names(rt: &impl Eprint, symbols: &Symbols) -> Result<(), Fault> {
    takes_none(rt, "SymbolRef::from");
    ensure(SymbolRef::from(&symbols.live) == symbols.live.as_ref())?;
    takes_none(rt, "Symbol::name, SymbolRef::name");
    ensure(symbols.foreign.name() == symbols.foreign.as_ref().name() && sym::Clone.name() == None)?;
    takes_none(rt, "comparisons of symbols");
    ensure(symbols.live != symbols.foreign && symbols.live < symbols.full)
}

fn check_numbers(rt: &impl Eprint, table: &SymbolTable, symbols: &Symbols) -> Result<(), Fault> {
    takes_none(rt, "Integer::as_uint, SymbolRef::as_uint");
    ensure(symbols.integer.as_ref().as_uint(table) == Some(NUMBER))?;
    ensure(
        Integer::as_uint(&symbols.integer, table) == Some(NUMBER)
            && Integer::as_uint(&symbols.generated, table) == None
            && Integer::as_uint(&symbols.gone, table) == None,
    )
}

// Presets, of which no table keeps anything.
fn check_presets(rt: &impl Eprint, table: &mut SymbolTable) -> Result<(), Fault> {
    takes_none(rt, "calls on presets");
    ensure(Symbol::empty() == sym::_empty_sym)?;
    let mut symbol = Symbol::intern(table, "Clone")?;
    ensure(symbol == sym::Clone && symbol.as_str(table) == Some("Clone"))?;
    ensure(symbol.clone(table)? == sym::Clone)?;
    ensure(symbol.as_ref().to_owned(table)? == sym::Clone)?;
    symbol.decrease_refcount(table)?;
    symbol.release(table)?;
    takes_none(rt, "Integer::get and RaGeneratedName::get, up to 255");
    for number in 0..256 {
        ensure(Integer::as_uint(&Integer::get(table, number)?, table) == Some(number))?;
        ensure(RaGeneratedName::get(table, number)?.name() == None)?;
    }
    Ok(())
}

// Texts that are stored, and one that isn't, while all births are given.
fn check_interning(
    rt: &impl Eprint,
    table: &mut SymbolTable,
    symbols: &Symbols,
) -> Result<(), Fault> {
    takes_none(rt, "Symbol::intern");
    let mut again = Symbol::intern(table, LIVE)?;
    ensure(again == symbols.live)?;
    again.decrease_refcount(table)?;
    is_refused(Symbol::intern(table, FULL), Refusal::CountFull)?;
    is_refused(Symbol::intern(table, GONE), Refusal::NumbersUsedUp)
}

// The same of digits. At the end their count is at its limit.
fn check_integers(
    rt: &impl Eprint,
    table: &mut SymbolTable,
    symbols: &Symbols,
) -> Result<(), Fault> {
    takes_none(rt, "Integer::get");
    ensure(Integer::get(table, NUMBER)? == symbols.integer)?;
    is_refused(Integer::get(table, NUMBER), Refusal::CountFull)?;
    is_refused(Integer::get(table, NEW), Refusal::NumbersUsedUp)
}

// The same of generated names.
fn check_generated(
    rt: &impl Eprint,
    table: &mut SymbolTable,
    symbols: &Symbols,
) -> Result<(), Fault> {
    takes_none(rt, "RaGeneratedName::get");
    ensure(RaGeneratedName::get(table, NUMBER)? == symbols.generated)?;
    is_refused(RaGeneratedName::get(table, NUMBER), Refusal::CountFull)?;
    is_refused(RaGeneratedName::get(table, NEW), Refusal::NumbersUsedUp)
}

fn check_owning(rt: &impl Eprint, table: &mut SymbolTable, symbols: &Symbols) -> Result<(), Fault> {
    takes_none(rt, "Symbol::clone");
    ensure(symbols.live.clone(table)? == symbols.live)?;
    is_refused(symbols.foreign.clone(table), Refusal::Foreign)?;
    is_refused(symbols.gone.clone(table), Refusal::Gone)?;
    is_refused(symbols.full.clone(table), Refusal::CountFull)?;
    takes_none(rt, "SymbolRef::to_owned");
    is_refused(symbols.live.as_ref().to_owned(table), Refusal::CountFull)?;
    is_refused(symbols.foreign.as_ref().to_owned(table), Refusal::Foreign)?;
    is_refused(symbols.gone.as_ref().to_owned(table), Refusal::Gone)
}

// Takes back what `check_owning` counted, and what interning the number counted.
fn check_lowering(
    rt: &impl Eprint,
    table: &mut SymbolTable,
    symbols: &mut Symbols,
) -> Result<(), Fault> {
    takes_none(rt, "Symbol::decrease_refcount");
    symbols.live.decrease_refcount(table)?;
    is_refused(symbols.foreign.decrease_refcount(table), Refusal::Foreign)?;
    is_refused(symbols.gone.decrease_refcount(table), Refusal::Gone)?;
    takes_none(rt, "SymbolRef::decrease_refcount");
    symbols.integer.as_ref().decrease_refcount(table)?;
    is_refused(
        symbols.gone.as_ref().decrease_refcount(table),
        Refusal::Gone,
    )?;
    takes_none(rt, "SymbolRef::to_owned");
    ensure(symbols.integer.as_ref().to_owned(table)? == symbols.integer)
}

// A symbol that must be released.
fn check_owed(rt: &impl Eprint, table: &mut SymbolTable, symbols: &Symbols) -> Result<(), Fault> {
    let live = symbols.live.as_ref();
    takes_none(
        rt,
        "OwedSymbol::from, OwedSymbol::as_str, OwedSymbol::as_ref, OwedSymbol::name",
    );
    let owed = OwedSymbol::from(symbols.live.clone(table)?);
    let is_read = owed.as_str(table) == Some(LIVE);
    let is_same = owed.as_ref() == live && owed.name() == live.name();
    takes_none(rt, "OwedSymbol::clone, OwedSymbol::release");
    let second = owed.clone(table).map(OwedSymbol::into_symbol);
    of_owed_symbol(owed.release(table))?;
    is_refused(second, Refusal::CountFull)?;
    ensure(is_read && is_same)
}

fn check_release(rt: &impl Eprint, table: &mut SymbolTable, symbols: Symbols) -> Result<(), Fault> {
    let Symbols {
        live,
        full,
        gone,
        integer: _,
        generated: _,
        foreign,
    } = symbols;
    takes_none(rt, "Symbol::release");
    full.release(table)?;
    live.release(table)?;
    ensure(table.get(LIVE) == None)?;
    gives_back(foreign.release(table), Refusal::Foreign)?;
    let gone = gives_back(gone.release(table), Refusal::Gone)?;
    takes_none(rt, "OwedSymbol::release");
    gives_back(
        of_owed_symbol(OwedSymbol::from(gone).release(table)),
        Refusal::Gone,
    )?;
    Ok(())
}
