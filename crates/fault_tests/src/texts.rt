//! Texts that are interned as they are borrowed.
use crate::fault::{Fault, ensure, refused};
use crate::marks;
use crate::storage::Storage;
use crate::values::text_of;
use ra_ap_intern::{InternStorage, InternedRef, Text};
use std::alloc::{AllocError, Global};

/// The call that copies a text.
const COPY: &str = "Text::new";

/// A text that is longer than lies in an entry.
const LONG: &str = "a text of more than 24 by";

/// Checks the copy of a text. Where it is refused, it is made once more.
pub(crate) fn check_copy(rt: &(impl Print + Eprint), alloc: Global) -> Result<(), Fault> {
    marks::asks(rt, COPY);
    let text = match Text::new(alloc, LONG) {
        Ok(text) => text,
        Err(AllocError) => {
            marks::refused(rt, COPY);
            Text::new(alloc, LONG)?
        }
    };
    marks::takes_none(rt, "Text::as_str");
    ensure(text.as_str() == LONG, "a copy of a text differs from it")?;
    println!(rt; "{COPY}: {}", text.as_str().len())?;
    Ok(())
}

/// A storage of texts.
#[derive(Drop)]
pub(crate) struct Texts(pub(crate) InternStorage<Text>);

impl Storage for Texts {
    type Input = Text;

    type Offer = ();

    type Reference = InternedRef<Text>;

    fn call(&self) -> &'static str {
        "InternStorage::intern_text"
    }

    fn input(&self, alloc: Global, number: u64) -> Result<Text, AllocError> {
        text_of(alloc, number)
    }

    fn offer(&self, _alloc: Global, _input: &Text) -> Result<(), AllocError> {
        Ok(())
    }

    fn store(&mut self, _offer: (), input: &Text) -> Result<InternedRef<Text>, Fault> {
        match self.0.intern_text(input.as_str()) {
            Ok(handle) => Ok(handle.as_ref()),
            Err(why) => Err(refused(why, true)),
        }
    }

    fn lengths(&self) -> (usize, usize) {
        self.0.lengths()
    }

    fn shows(&self, reference: InternedRef<Text>, input: &Text, number: u64) -> bool {
        self.0.get_text(input.as_str()) == Some(reference) && self.0.shows(reference, input, number)
    }

    fn keeps(&self) -> bool {
        false
    }

    fn free(&mut self, reference: InternedRef<Text>, input: &Text) -> Result<(), Fault> {
        self.0.free(reference, input)
    }

    fn pass(
        &mut self,
        reference: InternedRef<Text>,
        _offer: (),
        input: &Text,
    ) -> Result<(), Fault> {
        let again = self.0.intern_text(input.as_str())?;
        ensure(
            again.as_ref() == reference,
            "a stored text has another birth",
        )?;
        let freed = again.release(&mut self.0)?;
        ensure(freed.is_none(), "a text was freed that has owners")
    }
}
