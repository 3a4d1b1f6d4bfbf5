//! Many values that are interned by one call, and added to a list.
ghost use Rattle.std.specs.Prelude.{◌≡◌, true};

use crate::fault::{Fault, ensure};
use crate::marks;
use crate::one_entry::Large;
use crate::scene::room;
use ra_ap_intern::{
    InternHandle, InternStorage, Internable, Interned, InternedRef, Refusal, Refused, SymbolTable,
};
use std::alloc::{AllocError, Global};
use std::vec::IntoIter;

/// Texts, of which one is a preset, one is there twice, and some have more than 24 bytes.
const TEXTS: &[&str] = &[
    "Clone",
    "a text of up to 24 bytes",
    "one text of more than 24 bytes",
    "a text of up to 24 bytes",
    "another text of more than 24 bytes",
];

/// The letters, in order.
const LETTERS: &str = "abcdefghijklmnopqrstuvwxyzabc";

/// A letter with much beside it, collected.
#[derive(Clone, Copy, PartialEq, Eq, Hash)]
struct Kept(Large);

impl Internable for Kept {
    const USE_GC: bool = true;

    ghost USE_GC = { true };
}

/// The value of a letter.
trait Letter: Internable + Drop {
    fn of(letter: char) -> Self;
}

impl Letter for Large {
    fn of(letter: char) -> Large {
        Large::new(letter)
    }
}

impl Letter for Kept {
    fn of(letter: char) -> Kept {
        Kept(Large::new(letter))
    }
}

/// A handle in a list, with the call that adds it.
trait Listed<T: Internable>: InternHandle<T> + Drop {
    /// The call's name.
    fn call() -> &'static str;

    fn reference(&self) -> InternedRef<T>;
}

impl<T: Internable + Drop> Listed<T> for Interned<T> {
    fn call() -> &'static str {
        "InternStorage::extend"
    }

    fn reference(&self) -> InternedRef<T> {
        self.as_ref()
    }
}

impl<T: Internable + Drop> Listed<T> for InternedRef<T> {
    fn call() -> &'static str {
        "InternStorage::extend, of references"
    }

    fn reference(&self) -> InternedRef<T> {
        *self
    }
}

/// Checks the call in counted mode. Where it is refused, the value that came back is interned, and
/// then those that were left.
pub(crate) fn check_owned(rt: &(impl Print + Eprint), alloc: Global) -> Result<(), Fault> {
    marks::prepares(rt);
    let letters = letters_of(alloc)?;
    let handles: Vec<Interned<Large>> = Vec::new(alloc);
    check_letters(rt, &mut InternStorage::new(alloc, 1), letters, handles)
}

/// Checks it so in collected mode.
pub(crate) fn check_references(rt: &(impl Print + Eprint), alloc: Global) -> Result<(), Fault> {
    marks::prepares(rt);
    let letters = letters_of(alloc)?;
    let references: Vec<InternedRef<Kept>> = Vec::new(alloc);
    check_letters(rt, &mut InternStorage::new(alloc, 1), letters, references)
}

fn letters_of<T: Letter>(alloc: Global) -> Result<IntoIter<T>, AllocError> {
    let mut letters = room(alloc, LETTERS.len())?;
    for letter in LETTERS.chars() {
        letters.push(T::of(letter))?;
    }
    Ok(letters.into_iter())
}

fn check_letters<T: Letter, H: Listed<T>>(
    rt: &(impl Print + Eprint),
    storage: &mut InternStorage<T>,
    mut letters: IntoIter<T>,
    mut handles: Vec<H>,
) -> Result<(), Fault>
    requires { T.Internable.USE_GC ≡ H.USE_GC }
{
    let all = letters.len();
    marks::asks(rt, H::call());
    if let Err(refused) = storage.extend(&mut letters, &mut handles) {
        marks::refused(rt, H::call());
        ensure(
            handles
                .len()
                .saturating_add(letters.len())
                .saturating_add(1)
                == all,
            "a value or a handle was lost",
        )?;
        go_on(storage, refused, &mut handles)?;
        storage.extend(&mut letters, &mut handles)?;
    }
    have_letters(storage, handles.as_slice())?;
    println!(rt; "{}: {}", H::call(), handles.len())?;
    Ok(())
}

/// Checks the call of a table. Where it is refused, the texts without a symbol in the list are
/// interned.
pub(crate) fn check_texts(rt: &(impl Print + Eprint), alloc: Global) -> Result<(), Fault> {
    let mut table = SymbolTable::new(alloc, 1);
    let mut symbols = Vec::new(alloc);
    let call = "SymbolTable::extend";
    marks::asks(rt, call);
    if let Err(why) = table.extend(TEXTS, &mut symbols) {
        marks::refused(rt, call);
        ensure(why == Refusal::OutOfMemory, "a text is refused wrongly")?;
        let interned = symbols.len().min(TEXTS.len());
        table.extend(&TEXTS[interned..], &mut symbols)?;
    }
    ensure(symbols.len() == TEXTS.len(), "symbols are missing")?;
    for (symbol, text) in symbols.iter().zip(TEXTS) {
        ensure(
            symbol.as_str(&table) == Some(*text),
            "a symbol reads another text",
        )?;
    }
    println!(rt; "{}: {}", call, table.len())?;
    Ok(())
}

// Interns the value that was refused, at the first try, and there is room for its handle at the
// second.
fn go_on<T: Letter, H: Listed<T>>(
    storage: &mut InternStorage<T>,
    refused: Refused<T>,
    handles: &mut Vec<H>,
) -> Result<(), Fault>
    requires { T.Internable.USE_GC ≡ H.USE_GC }
{
    let Refused { why, back } = refused;
    ensure(why == Refusal::OutOfMemory, "a value is refused wrongly")?;
    let (handle, _) = H::intern(storage, back)?;
    handles.push(handle)?;
    Ok(())
}

// The handles read the letters in order, each of its own birth, or of the first of its letter.
fn have_letters<T: Letter, H: Listed<T>>(
    storage: &InternStorage<T>,
    handles: &[H],
) -> Result<(), Fault> {
    ensure(
        handles.len() == LETTERS.len() && storage.len() == 26,
        "letters are missing",
    )?;
    for ((handle, letter), number) in handles.iter().zip(LETTERS.chars()).zip(0..) {
        let reference = handle.reference();
        ensure(
            reference.as_raw() == number % 26 && reference.get(storage) == Some(&T::of(letter)),
            "a handle reads another letter",
        )?;
    }
    Ok(())
}
