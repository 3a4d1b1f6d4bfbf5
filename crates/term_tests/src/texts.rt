//! How a plain tree is written, in full and cut off.
use intern_terms::TermRef;
use std::alloc::Global;
use std::fmt::Debug;
use std::process::Abort;

/// A tree as a text, with the places at which its heads begin.
#[derive(Drop)]
pub struct Text {
    whole: String,
    starts: Vec<usize>,
}

/// The values are equal.
pub fn is_equal<V: Copy + PartialEq + Debug>(rt: &impl Abort, found: V, wanted: V) {
    assert_eq!(rt; found, wanted);
}

/// Adds a value at the end of a list.
pub fn push<V: Drop>(rt: &impl Abort, list: &mut Vec<V>, value: V) {
    let pushed: Result<_, _> = list.push(value);
    pushed.expect(rt, "memory");
}

impl Text {
    /// A head that stands alone.
    pub fn new(rt: &impl Abort, alloc: Global, head: &str) -> Text {
        let mut starts = Vec::new(alloc);
        push(rt, &mut starts, 0);
        Text {
            whole: String::from_str(alloc, head).expect(rt, "memory"),
            starts,
        }
    }

    /// What stands for a term that can't be read: its name.
    pub fn named(rt: &impl Abort, alloc: Global, term: TermRef) -> Text {
        let name = term.name();
        let shown = format!(in alloc; "#{}.{}", name.storage, name.birth);
        Text::new(rt, alloc, shown.expect(rt, "memory").as_str())
    }

    /// Adds a text at the end.
    pub fn write(&mut self, rt: &impl Abort, more: &str) {
        self.whole.push_str(more).expect(rt, "memory");
    }

    /// Adds the text of an argument at the end.
    pub fn add(&mut self, rt: &impl Abort, argument: &Text) {
        let place = self.whole.len();
        for start in &argument.starts {
            push(rt, &mut self.starts, place.saturating_add(*start));
        }
        self.write(rt, argument.whole.as_str());
    }

    /// Whether a text is this one, cut off after so many heads.
    pub fn is_written(&self, most: usize, text: &str) -> bool {
        match self.starts.get(most) {
            None => text == self.whole.as_str(),
            Some(start) => is_cut(self.whole.as_str(), *start, text),
        }
    }
}

/// Whether a text is the beginning of another, up to a place, and then `…`.
fn is_cut(whole: &str, place: usize, text: &str) -> bool {
    match text.strip_suffix('…') {
        Some(beginning) => whole.get(..place) == Some(beginning),
        None => false,
    }
}
