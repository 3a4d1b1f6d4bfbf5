//! The texts that a table keeps.
ghost use Rattle.std.specs.Prelude.{◌≡◌, ◌≤◌, ◌-◌, length, IfOk, IsOk, nat_eq, string_bytes};
ghost use Rattle.std.specs.Cmp.Lexicographic.{pointwise};
ghost use Rattle.std.specs.Cmp.Rules.{comparing, hashing};
ghost use Rattle.std.specs.Hash as fed;
ghost use Rattle.std.specs.Str.{bytes_eq};
ghost use Rattle.std.proofs.Common.{rules};

use crate::offered::{Offered, hash_value};
use arrayvec::ArrayString;
use indexmap::Equivalent;
use intern_index::Offer;
use std::alloc::{AllocError, Global};
use std::cmp::Eq;
use std::fmt;
use std::hash::{BuildHasher, Hash, Hasher};
use std::marker::Model;

/// How many bytes a short text has at most.
const SHORT: usize = 24;

/// A text that is kept. A short one that was copied lies in the entry itself. Contracts see its
/// bytes, and not the room that they lie in.
#[derive(Drop)]
pub struct Text {
    form: Form,
}

#[derive(Drop)]
enum Form {
    Short(ArrayString<SHORT>),
    Long(String),
}

impl Model for Text {
    ghost use Rattle.std.specs.Prelude.{List, ℕ};
    ghost use Rattle.std.specs.Coded.{coded_list, coded_ℕ};

    ghost Value = { List ℕ };

    ghost coded = { coded_list coded_ℕ };

    ghost use Rattle.intern_table.specs.Forms.{form_bytes};

    ghost view = { λ a. form_bytes a.form };
}

impl PartialEq for Text {
    ghost eq = { pointwise nat_eq };

    ghost laws = { Prim.search (comparing, rules) };

    fn eq(&self, other: &Text) -> bool {
        self.as_str() == other.as_str()
    }
}

impl Eq for Text {
    ghost laws = { Prim.search (comparing, rules) };
}

impl fmt::Debug for Text {
    fn fmt<W: fmt::Write>(&self, f: &mut fmt::Formatter<W>) -> fmt::Result {
        fmt::Debug::fmt(self.as_str(), f)
    }
}

impl fmt::Display for Text {
    fn fmt<W: fmt::Write>(&self, f: &mut fmt::Formatter<W>) -> fmt::Result {
        fmt::Display::fmt(self.as_str(), f)
    }
}

// What is a string already is kept as it is, with the memory that it has.
impl From<String> for Text {
    ghost from_gives = { λ string text. text ≡ string_bytes string };

    fn from(string: String) -> Text {
        Text {
            form: Form::Long(string),
        }
    }
}

impl Hash for Text {
    ghost hash_input = { fed.str };

    ghost respects_eq = { Prim.search (hashing, rules) };

    fn hash<H: Hasher>(&self, state: &mut H) {
        self.as_str().hash(state);
    }
}

impl Text {
    /// A copy of a text. One of up to 24 bytes takes no memory.
    pub fn new(alloc: Global, text: &str) -> Result<Text, AllocError>
        ensures copy { IfOk result (λ t. t ≡ text.now) }
        ensures short { length text.now ≤ 24 → IsOk result }
    {
        let form = match ArrayString::from(text) {
            Ok(short) => Form::Short(short),
            Err(_) => Form::Long(String::from_str(alloc, text)?),
        };
        Ok(Text { form })
    }

    /// The text.
    pub fn as_str(&self) -> &str
        ensures { result.now ≡ self.now }
    {
        match &self.form {
            Form::Short(text) => text.as_str(),
            Form::Long(text) => text.as_str(),
        }
    }

    /// Whether it is this text.
    pub fn is(&self, text: &str) -> bool
        ensures { result ≡ bytes_eq self.now text.now }
    {
        self.as_str() == text
    }
}

// What is borrowed is copied once it is stored. A text of more than 24 bytes lies outside of its
// entry.
impl<'a> Offer<Text> for &'a str {
    ghost value = { λ s. s.now };

    ghost outside = { λ s. length s.now - 24 };

    fn into_value(self, alloc: Global) -> Result<Text, &'a str> {
        Text::new(alloc, self).map_err(|_| self)
    }
}

// A borrowed text looks up the text with its bytes.
impl Equivalent<Text> for &str {
    ghost use Rattle.std.proofs.Common.{ap};
    ghost use Rattle.std.specs.Cmp.Lexicographic.{bytes_decides, nat_list_eq_equiv};

    ghost equivalent = { λ q t. bytes_eq q.now t };

    ghost respects_hash = { λ q t is. ap fed.str ((bytes_decides q.now t).0 is) };

    ghost respects_eq = { λ q t u. nat_list_eq_equiv.congr q.now t u };

    fn equivalent(&self, stored: &Text) -> bool {
        *self == stored.as_str()
    }
}

impl Offered<Text> for &str {
    fn equals(&self, stored: &Text) -> bool {
        self.equivalent(stored)
    }

    fn hashed<B: BuildHasher>(&self, hasher: &B) -> u64 {
        hash_value(hasher, self)
    }
}
