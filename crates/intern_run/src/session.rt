//! The texts, the symbols, the slots with their handles, and the answer to one line.
ghost use Rattle.std.specs.Prelude.{◌≡◌, OnOk, ok_or};
ghost use Rattle.intern_presets.specs.Numbers.{number_value};
ghost use Rattle.intern_run.specs.Answers.{new_session, reply, one_word, new_reply, clone_reply, read_reply};
ghost use Rattle.intern_run.specs.Answers.{same_words, release_reply, symbol_reply, at_slot};
ghost use Rattle.intern_run.specs.Told.{Replies, Answers};

use crate::answer::{Answer, CommandError, tell};
use crate::slots::Slots;
use intern_presets::number;
use ra_ap_intern::{InternStorage, Symbol, SymbolTable, Text};
use std::alloc::{AllocError, Global};
use std::marker::Model;

/// The storage's number.
const TEXTS: u64 = 1;

/// The table's number.
const SYMBOLS: u64 = 2;

/// One storage of texts, one table of symbols, and the handles that were given out, each in a slot.
#[derive(Drop)]
pub struct Session {
    texts: InternStorage<Text>,
    symbols: SymbolTable,
    slots: Slots,
}

impl Model for Session {
    ghost use Rattle.intern_run.specs.Answers.{SessionState, session_code};

    ghost Value = { SessionState };

    ghost coded = { session_code };

    ghost view = { λ s. record { texts = s.texts; symbols = s.symbols; slots = s.slots } };
}

impl Session {
    /// A session with no text, no symbol and no slot.
    pub fn new(alloc: Global) -> Session
        ensures { result ≡ new_session }
    {
        Session {
            texts: InternStorage::new(alloc, TEXTS),
            symbols: SymbolTable::new(alloc, SYMBOLS),
            slots: Slots::new(alloc),
        }
    }

    /// Appends the answer to the line, with its line feed.
    ///
    /// An error is want of memory.
    pub fn answer(&mut self, line: &str, out: &mut String) -> Result<(), AllocError>
        ensures { OnOk result (Answers self.new out.old out.new (reply self.old line.now)) }
    {
        let Some((word, rest)) = line.split_once(' ') else {
            return tell(self.word(line), out);
        };
        match word {
            "new" => tell(self.add(rest), out),
            "clone" => tell(self.duplicate(rest), out),
            "read" => tell(self.read(rest), out),
            "same" => tell(self.same(rest), out),
            "release" => tell(self.release(rest), out),
            "sym" => tell(self.symbol(rest), out),
            _ => tell(Err(CommandError::BadCommand), out),
        }
    }

    // A line without a space: `len`
    fn word(&self, line: &str) -> Result<Answer<'_>, CommandError>
        ensures { Replies self.now result (one_word self.now line.now) }
    {
        if line == "len" {
            Ok(Answer::Len(self.texts.len()))
        } else {
            Err(CommandError::BadCommand)
        }
    }

    // `new TEXT`
    fn add(&mut self, text: &str) -> Result<Answer<'static>, CommandError>
        ensures { Replies self.new result (new_reply self.old text.now) }
    {
        let is_new = self.texts.get_text(text).is_none();
        let handle = self.texts.intern_text(text)?;
        let birth = handle.as_ref().as_raw();
        let slot = self.slots.push(handle)?;
        Ok(Answer::Made {
            slot,
            birth,
            is_new,
        })
    }

    // `clone N`
    fn duplicate(&mut self, text: &str) -> Result<Answer<'static>, CommandError>
        ensures { Replies self.new result
            (at_slot self.old (number_value text.now) (λ n. clone_reply self.old)) }
    {
        let n = slot_number(text)?;
        let handle = self.slots.get(n)?;
        let second = handle.clone(&mut self.texts)?;
        let slot = self.slots.push(second)?;
        Ok(Answer::Slot(slot))
    }

    // `read N`
    fn read(&self, text: &str) -> Result<Answer<'_>, CommandError>
        ensures { Replies self.now result
            (at_slot self.now (number_value text.now) (λ n. read_reply self.now)) }
    {
        let n = slot_number(text)?;
        match self.slots.get(n)?.get(&self.texts) {
            Some(text) => Ok(Answer::Text(text.as_str())),
            None => Err(CommandError::NoSlot),
        }
    }

    // `same N M`
    fn same(&self, text: &str) -> Result<Answer<'_>, CommandError>
        ensures { Replies self.now result (same_words self.now text.now) }
    {
        let Some((first, second)) = text.split_once(' ') else {
            return Err(CommandError::BadCommand);
        };
        let n = slot_number(first)?;
        let m = slot_number(second)?;
        let one = self.slots.get(n)?;
        let other = self.slots.get(m)?;
        Ok(Answer::Same(one == other))
    }

    // `release N`. A handle that is refused goes back into its slot.
    fn release(&mut self, text: &str) -> Result<Answer<'static>, CommandError>
        ensures { Replies self.new result
            (at_slot self.old (number_value text.now) (release_reply self.old)) }
    {
        let n = slot_number(text)?;
        let handle = self.slots.take(n)?;
        match handle.release(&mut self.texts) {
            Ok(freed) => Ok(Answer::Freed(freed)),
            Err(refused) => {
                self.slots.put_back(n, refused.back);
                Err(CommandError::Refused(refused.why))
            }
        }
    }

    // `sym TEXT`. The symbol is let fall, and keeps its count.
    fn symbol(&mut self, text: &str) -> Result<Answer<'static>, CommandError>
        ensures { Replies self.new result (symbol_reply self.old text.now) }
    {
        let symbol = Symbol::intern(&mut self.symbols, text)?;
        let count = self.symbols.count(&symbol);
        let len = self.symbols.len();
        Ok(Answer::Symbol { count, len })
    }
}

// The number that a text writes.
fn slot_number(text: &str) -> Result<usize, CommandError>
    ensures { result ≡ ok_or (number_value text.now) CommandError.BadCommand }
{
    number(text).ok_or(CommandError::BadCommand)
}
