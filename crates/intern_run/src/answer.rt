//! What a command comes to, and how it is written.
ghost use Rattle.std.specs.Prelude.{◌≡◌, OnOk, IsErr};
ghost use Rattle.ra_ap_intern.specs.Refusal.TheVariants.{OutOfMemory};
ghost use Rattle.intern_run.specs.declared.answer.CommandError.TheVariants as error;
ghost use Rattle.intern_run.specs.Told.{Writes, answer_text, error_text, told_text, no_memory};

use ra_ap_intern::{Refusal, Refused, Text};
use std::alloc::AllocError;

/// What a command that was carried out tells.
#[derive(Drop)]
pub enum Answer<'a> {
    /// The slot of a text's handle, the text's birth, and whether the text is new.
    Made {
        slot: usize,
        birth: u64,
        is_new: bool,
    },
    /// The slot of a second handle.
    Slot(usize),
    /// The text that a handle reads.
    Text(&'a str),
    /// Whether two handles are equal.
    Same(bool),
    /// The text that the last handle gave up.
    Freed(Option<Text>),
    /// How many texts there are.
    Len(usize),
    /// A symbol's count, which a preset hasn't, and how many texts have symbols.
    Symbol {
        count: Option<u64>,
        len: usize,
    },
}

/// Why a command wasn't carried out.
#[derive(Drop)]
pub enum CommandError {
    /// There is no such command.
    BadCommand,
    /// The slot is empty, or there is none of this number.
    NoSlot,
    /// The storage, or the table, refused the call.
    Refused(Refusal),
}

impl From<Refusal> for CommandError {
    ghost from_gives = { λ why e. e ≡ error.Refused why };

    fn from(why: Refusal) -> CommandError {
        CommandError::Refused(why)
    }
}

impl<H: Drop> From<Refused<H>> for CommandError {
    ghost from_gives = { λ refused e. e ≡ error.Refused refused.why };

    fn from(refused: Refused<H>) -> CommandError {
        CommandError::Refused(refused.why)
    }
}

impl From<AllocError> for CommandError {
    ghost from_gives = { λ _ e. e ≡ error.Refused OutOfMemory };

    fn from(_error: AllocError) -> CommandError {
        CommandError::Refused(Refusal::OutOfMemory)
    }
}

impl Answer<'_> {
    /// Appends the answer, with its line feed.
    fn write(&self, out: &mut String) -> Result<(), AllocError>
        ensures { OnOk result (Writes out.old out.new (answer_text self.now)) }
    {
        match self {
            Answer::Made {
                slot,
                birth,
                is_new: true,
            } => write!(out, "slot {slot} birth {birth} new\n"),
            Answer::Made { slot, birth, .. } => {
                write!(out, "slot {slot} birth {birth} stored\n")
            }
            Answer::Slot(slot) => write!(out, "slot {slot}\n"),
            Answer::Text(text) => write!(out, "text {text}\n"),
            Answer::Same(true) => out.push_str("yes\n"),
            Answer::Same(false) => out.push_str("no\n"),
            Answer::Freed(Some(text)) => {
                let text = text.as_str();
                write!(out, "freed {text}\n")
            }
            Answer::Freed(None) => out.push_str("kept\n"),
            Answer::Len(len) => write!(out, "len {len}\n"),
            Answer::Symbol {
                count: Some(count),
                len,
            } => write!(out, "count {count} len {len}\n"),
            Answer::Symbol { count: None, len } => write!(out, "preset len {len}\n"),
        }
    }
}

impl CommandError {
    /// Appends the answer, with its line feed. Want of memory has none: it ends the run.
    fn write(&self, out: &mut String) -> Result<(), AllocError>
        ensures text { OnOk result (Writes out.old out.new (error_text self.now)) }
        ensures memory { self.now ≡ error.Refused OutOfMemory → IsErr result }
    {
        match self {
            CommandError::BadCommand => out.push_str("bad command\n"),
            CommandError::NoSlot => out.push_str("no slot\n"),
            CommandError::Refused(Refusal::CountFull) => out.push_str("refused 4\n"),
            CommandError::Refused(Refusal::NumbersUsedUp) => out.push_str("refused 5\n"),
            CommandError::Refused(Refusal::OutOfMemory) => Err(AllocError),
            CommandError::Refused(_) => out.push_str("no slot\n"),
        }
    }
}

/// Appends the answer to a command, with its line feed.
///
/// An error is want of memory.
pub fn tell(told: Result<Answer<'_>, CommandError>, out: &mut String) -> Result<(), AllocError>
    ensures text { OnOk result (Writes out.old out.new (told_text told.entry)) }
    ensures memory { told.entry ≡ no_memory → IsErr result }
{
    match told {
        Ok(answer) => answer.write(out),
        Err(error) => error.write(out),
    }
}
