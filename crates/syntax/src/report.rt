//! What changed from a program to the next.
use crate::change::{Change, Part, Spots, before};
use crate::fault::Fault;
use crate::machine::Spot;
use crate::syntax::{Program, Syntax};
use indexmap::IndexMap;
use intern_terms::TermRef;
use ra_ap_intern::SymbolRef;
use std::collections::HashMap;
use text_run::Place;

/// How many pieces of a text are written, and how many parts are looked at, at the most.
const MOST: usize = 1 << 40;

// What an item defines: a name, and how many items before it define the same name.
#[derive(Clone, Copy, PartialEq, Eq, Hash)]
struct Definition {
    name: SymbolRef,
    earlier: usize,
}

// The items of a program under what they define, in order.
type Items = IndexMap<Definition, Part>;

/// What is told of changes, and the trees in it.
#[derive(Drop)]
pub struct Report<'a> {
    pub syntax: &'a Syntax,
    pub out: &'a mut String,
}

impl Report<'_> {
    /// Tells each item that was added, each that was removed, and in each other what changed. Of a
    /// name that is defined more than once, each definition is compared with the one of the same
    /// number.
    pub fn tell_changes(&mut self, old: &Program, new: &Program) -> Result<(), Fault> {
        let spots = Spots {
            old: old.spots.as_slice(),
            new: new.spots.as_slice(),
        };
        let olds = self.items(old)?;
        let news = self.items(new)?;
        self.tell_removed(&olds, &news, spots.old)?;
        self.tell_others(&olds, &news, spots)
    }

    // Tells each item that is no longer defined.
    fn tell_removed(&mut self, olds: &Items, news: &Items, spots: &[Spot]) -> Result<(), Fault> {
        for (definition, item) in olds.iter() {
            if !news.contains_key(definition) {
                self.tell_item("  removed at ", spots, *item)?;
            }
        }
        Ok(())
    }

    // Tells each item that wasn't defined before, and what changed in the others.
    fn tell_others(&mut self, olds: &Items, news: &Items, spots: Spots<'_>) -> Result<(), Fault> {
        for (definition, item) in news.iter() {
            match olds.get(definition) {
                Some(old) => self.tell_changed(*old, *item, spots)?,
                None => self.tell_item("  added at ", spots.new, *item)?,
            }
        }
        Ok(())
    }

    // Tells an item that was added or removed.
    fn tell_item(&mut self, what: &str, spots: &[Spot], item: Part) -> Result<(), Fault> {
        self.tell(what, spots, item, item)?;
        Ok(self.out.push('\n')?)
    }

    // Tells what changed from an item to another.
    fn tell_changed(&mut self, old: Part, new: Part, spots: Spots<'_>) -> Result<(), Fault> {
        let changes = self.syntax.changes(Change { old, new }, spots, MOST)?;
        for change in changes.as_slice() {
            self.tell("  changed at ", spots.old, old, change.old)?;
            self.tell(", now at ", spots.new, new, change.new)?;
            self.out.push('\n')?;
        }
        Ok(())
    }

    // Tells what became of a part of an item, where it begins, and how it stands there: as all of
    // the item, as what it defines, or as an expression.
    fn tell(&mut self, what: &str, spots: &[Spot], item: Part, part: Part) -> Result<(), Fault> {
        let place = spots.get(part.spot).map_or(Place::START, |spot| spot.place);
        write!(self.out, "{what}{place}: ")?;
        let value = item.spot.saturating_sub(1);
        let tokens = if part.spot == item.spot {
            self.syntax.print_item(part.tree, MOST)?
        } else if part.spot == before(spots, value) {
            self.syntax.print_defined(part.tree, MOST)?
        } else {
            self.syntax.print(part.tree, MOST)?
        };
        self.syntax.write(tokens.as_slice(), self.out)
    }

    // The items of a program.
    fn items(&self, program: &Program) -> Result<Items, Fault> {
        let mut items = IndexMap::new(self.syntax.alloc);
        let mut counts = HashMap::new(self.syntax.alloc);
        for part in self.parts(program)?.as_slice().iter().rev() {
            if let Some(name) = self.defined(part.tree) {
                let earlier = counts.get(&name).copied().unwrap_or(0usize);
                counts.insert(name, earlier.saturating_add(1))?;
                items.insert(Definition { name, earlier }, *part)?;
            }
        }
        Ok(items)
    }

    // The items of a program, the last first.
    fn parts(&self, program: &Program) -> Result<Vec<Part>, Fault> {
        let spots = program.spots.as_slice();
        let mut spot = spots.len().saturating_sub(1);
        let mut parts = Vec::new(self.syntax.alloc);
        for tree in program.items.as_slice().iter().rev() {
            parts.push(Part { tree: *tree, spot })?;
            spot = before(spots, spot);
        }
        Ok(parts)
    }

    // The name that an item defines: the head of its first part.
    fn defined(&self, item: TermRef) -> Option<SymbolRef> {
        let first = self.syntax.terms.args(item)?.first()?;
        Some(self.syntax.terms.head(*first)?.as_ref())
    }
}
