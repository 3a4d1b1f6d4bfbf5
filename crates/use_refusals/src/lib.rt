//! Refusals, passed on as they are, with what was given, or in an error of one's own.
#![tactic(auto)]

ghost use Rattle.std.specs.Prelude.{◌≡◌, ◌≢◌, [], None, IfOk, OnOk, IfErr};
ghost use Rattle.std.specs.Str.{bytes_eq};
ghost use Rattle.ra_ap_intern.specs.Handle.{name_of};
ghost use Rattle.ra_ap_intern.specs.Outcome.{Becomes, MayWant, MayWantBack};
ghost use Rattle.ra_ap_intern.specs.State.{is_new, interned_name, interned_counted, due_interning, full};
ghost use Rattle.ra_ap_intern.specs.Symbols.{symbol_in, symbol_name};
ghost use Rattle.use_refusals.specs.Both.{IsOfEither};
ghost use Rattle.use_refusals.specs.WordError.{IsFor};

use ra_ap_intern::{InternStorage, Interned, Refusal, Refused, Symbol, SymbolTable, Text};
use thiserror::Error;

/// A word, and the line that it stands in.
#[derive(Debug, Drop, PartialEq)]
pub struct Token {
    pub word: Text,
    pub line: u32,
}

/// Why a word has no handle.
#[derive(Debug, Drop, PartialEq, Error)]
pub enum WordError {
    /// It has no letters.
    #[error("the word is empty")]
    Empty,
    /// It isn't stored, or can't be counted once more.
    #[error("no handle of the word: {0}")]
    Refused(Refusal),
}

impl From<Refusal> for WordError {
    ghost use Rattle.std.specs.Prelude.{◌≡◌};
    ghost use Rattle.use_refusals.specs.declared.WordError.TheVariants.{Refused as refused};

    ghost from_gives = { λ why error. error ≡ refused why };

    fn from(why: Refusal) -> WordError {
        WordError::Refused(why)
    }
}

/// The handle of a word. `?` passes the refusal on by itself; the word is dropped then.
pub fn handle_of(words: &mut InternStorage<Text>, word: Text) -> Result<Interned<Text>, Refusal>
    ensures name { IfOk result (λ h. name_of h ≡ interned_name bytes_eq words.old word) }
    ensures refused { MayWant result (due_interning bytes_eq words.old word (full words.old.top))
        (is_new bytes_eq words.old word) }
    ensures state { Becomes result words.old words.new (interned_counted bytes_eq words.old word) }
{
    let (handle, _) = Interned::new(words, word)?;
    Ok(handle)
}

/// The handle of a token's word, beside its line. Where it is refused, the whole token comes back.
pub fn handle_of_token(
    words: &mut InternStorage<Text>,
    token: Token,
) -> Result<(Interned<Text>, u32), Refused<Token>>
    ensures name { IfOk result (λ r. name_of r.0 ≡ interned_name bytes_eq words.old token.word) }
    ensures line { IfOk result (λ r. r.1 ≡ token.line) }
    ensures refused { MayWantBack result
        (due_interning bytes_eq words.old token.word (full words.old.top))
        (is_new bytes_eq words.old token.word) token }
    ensures state { Becomes result words.old words.new
        (interned_counted bytes_eq words.old token.word) }
{
    let Token { word, line } = token;
    match Interned::new(words, word) {
        Ok((handle, _)) => Ok((handle, line)),
        Err(Refused { why, back: word }) => {
            let back = Token { word, line };
            Err(Refused { why, back })
        }
    }
}

/// The handle of a word with letters. `?` makes the refusal an error.
pub fn handle_of_some(
    words: &mut InternStorage<Text>,
    word: Text,
) -> Result<Interned<Text>, WordError>
    ensures name { IfOk result (λ h. name_of h ≡ interned_name bytes_eq words.old word) }
    ensures ok { OnOk result ((word ≢ [])
        × (due_interning bytes_eq words.old word (full words.old.top) ≡ None)) }
    ensures refused { IfErr result (λ error. IsFor error words.old word) }
    ensures state { Becomes result words.old words.new (interned_counted bytes_eq words.old word) }
{
    if word.as_str().is_empty() {
        return Err(WordError::Empty);
    }
    Ok(handle_of(words, word)?)
}

/// A word in two interners: its handle, and its symbol. Where the symbol is refused, the handle is
/// released: what was stored for it goes again, and only its birth stays used.
pub fn handle_and_symbol(
    words: &mut InternStorage<Text>,
    table: &mut SymbolTable,
    word: &str,
) -> Result<(Interned<Text>, Symbol), Refusal>
    ensures names { IfOk result (λ r.
        (name_of r.0 ≡ interned_name bytes_eq words.old word.now)
        × (symbol_name r.1 ≡ (symbol_in table.old word.now).symbol)) }
    ensures refused { IfErr result (λ w. IsOfEither w words.old words.new table.old word.now) }
    ensures words { OnOk result (words.new ≡ interned_counted bytes_eq words.old word.now) }
    ensures table { Becomes result table.old table.new (symbol_in table.old word.now).table }
{
    // What `number` says is used here: that no two words are equal.
    let _number = words.number();
    let handle = words.intern_text(word)?;
    match Symbol::intern(table, word) {
        Ok(symbol) => Ok((handle, symbol)),
        Err(why) => {
            let _freed = handle.release(words);
            Err(why)
        }
    }
}
