//! The calls of a run that may want memory, each with the values and the texts of a number.
use super::{Calls, TestWorld};
use crate::collections::node::{Branch, Node, items_of};
use crate::values::text_of;
use intern_world::{Back, Call, Slot};
use ra_ap_intern::{HeaderSlice, InternSliceStorage, InternStorage, SymbolTable, Text, sym};
use std::alloc::{AllocError, Global};

/// How many nodes a world has before all others.
pub(crate) const FOUNDERS: usize = 2;

/// A call that may want memory.
#[derive(Clone, Copy, PartialEq, Eq)]
pub(crate) enum CallKind {
    /// `Call::New`.
    New,
    /// `Call::NewGc`.
    NewGc,
    /// `Call::FromHeaderAndSlice`.
    FromHeaderAndSlice,
    /// `Call::Intern`.
    Intern,
    /// `Call::IntegerGet`.
    IntegerGet,
    /// `Call::GeneratedGet`.
    GeneratedGet,
    /// `Call::Collect`.
    Collect,
}

/// Each of these calls, a collection at the end.
pub(crate) const ALL: [CallKind; 7] = [
    CallKind::New,
    CallKind::NewGc,
    CallKind::FromHeaderAndSlice,
    CallKind::Intern,
    CallKind::IntegerGet,
    CallKind::GeneratedGet,
    CallKind::Collect,
];

impl CallKind {
    /// The call's name.
    pub(crate) fn name(self) -> &'static str {
        match self {
            CallKind::New => "Call::New",
            CallKind::NewGc => "Call::NewGc",
            CallKind::FromHeaderAndSlice => "Call::FromHeaderAndSlice",
            CallKind::Intern => "Call::Intern",
            CallKind::IntegerGet => "Call::IntegerGet",
            CallKind::GeneratedGet => "Call::GeneratedGet",
            CallKind::Collect => "Call::Collect",
        }
    }

    /// Whether what the call stores goes with a collection.
    pub(crate) fn is_collected(self) -> bool {
        matches!(self, CallKind::NewGc | CallKind::FromHeaderAndSlice)
    }
}

/// The values and the texts of a number. No two numbers have equal ones.
#[derive(Drop)]
pub(crate) struct Input {
    number: usize,
    text: Text,
    generated: Text,
}

impl Input {
    fn try_make(alloc: Global, number: usize) -> Result<Input, AllocError> {
        Ok(Input {
            number,
            generated: generated_of(alloc, number)?,
            text: text_of(alloc, number as u64)?,
        })
    }

    /// The input of a number, at the second try where the first is refused.
    pub(crate) fn make(alloc: Global, number: usize) -> Result<Input, AllocError> {
        match Input::try_make(alloc, number) {
            Ok(input) => Ok(input),
            Err(_) => Input::try_make(alloc, number),
        }
    }

    // The node, which is the header of the slice too.
    fn node(&self) -> Node {
        Node::new(self.number, None)
    }

    // The call of a kind.
    fn call(&self, alloc: Global, kind: CallKind) -> Result<Call<Text, Node, Branch>, AllocError> {
        Ok(match kind {
            CallKind::New => Call::New(Text::new(alloc, self.text.as_str())?),
            CallKind::NewGc => Call::NewGc(self.node()),
            CallKind::FromHeaderAndSlice => {
                Call::FromHeaderAndSlice(self.node(), items_of(self.number).to_vec(alloc)?)
            }
            CallKind::Intern => Call::Intern(String::from_str(alloc, self.text.as_str())?),
            CallKind::IntegerGet => Call::IntegerGet(large(self.number)),
            CallKind::GeneratedGet => Call::GeneratedGet(large(self.number)),
            CallKind::Collect => Call::Collect,
        })
    }

    fn try_calls(&self, alloc: Global, kinds: &[CallKind]) -> Result<Calls, AllocError> {
        let mut calls = Vec::with_capacity(alloc, kinds.len())?;
        for kind in kinds {
            let call = self.call(alloc, *kind)?;
            calls.push(call)?;
        }
        Ok(calls)
    }

    /// The calls of these kinds, at the second try where the first is refused.
    pub(crate) fn calls(&self, alloc: Global, kinds: &[CallKind]) -> Result<Calls, AllocError> {
        match self.try_calls(alloc, kinds) {
            Ok(calls) => Ok(calls),
            Err(_) => self.try_calls(alloc, kinds),
        }
    }

    /// Whether a call is that one.
    pub(crate) fn is_call(&self, kind: CallKind, call: &Call<Text, Node, Branch>) -> bool {
        match (kind, call) {
            (CallKind::New, Call::New(text)) => *text == self.text,
            (CallKind::NewGc, Call::NewGc(node)) => *node == self.node(),
            (CallKind::FromHeaderAndSlice, Call::FromHeaderAndSlice(header, items)) => {
                *header == self.node() && items.as_slice() == items_of(self.number)
            }
            (CallKind::Intern, Call::Intern(text)) => text.as_str() == self.text.as_str(),
            (CallKind::IntegerGet, Call::IntegerGet(n)) => *n == large(self.number),
            (CallKind::GeneratedGet, Call::GeneratedGet(n)) => *n == large(self.number),
            (CallKind::Collect, Call::Collect) => true,
            _ => false,
        }
    }

    /// Whether this comes back of the call where it is refused for want of memory.
    pub(crate) fn is_back(&self, kind: CallKind, back: &Back<Text, Node, Node>) -> bool {
        match (kind, back) {
            (CallKind::New, Back::Counted(text)) => *text == self.text,
            (CallKind::NewGc, Back::Value(node)) => *node == self.node(),
            (CallKind::FromHeaderAndSlice, Back::Header(header)) => *header == self.node(),
            (CallKind::New | CallKind::NewGc | CallKind::FromHeaderAndSlice, _) => false,
            (_, Back::Nothing) => true,
            _ => false,
        }
    }

    /// Whether a slot holds the handle that the call gave, which reads what was stored, or nothing
    /// where that is gone.
    pub(crate) fn is_held(
        &self,
        kind: CallKind,
        slot: &Slot<Text, Node, Branch>,
        world: &TestWorld,
        is_gone: bool,
    ) -> bool {
        match kind {
            CallKind::New => self.is_text_in(slot, world.counted()),
            CallKind::NewGc => self.is_node_in(slot, world.values(), is_gone),
            CallKind::FromHeaderAndSlice => self.is_branch_in(slot, world.slices(), is_gone),
            CallKind::Intern => is_symbol_in(slot, world.table(), &self.text),
            CallKind::IntegerGet => self.is_integer_in(slot, world.table()),
            CallKind::GeneratedGet => is_symbol_in(slot, world.table(), &self.generated),
            CallKind::Collect => false,
        }
    }

    fn is_text_in(&self, slot: &Slot<Text, Node, Branch>, texts: &InternStorage<Text>) -> bool {
        let Slot::Counted(handle) = slot else {
            return false;
        };
        handle.as_ref().as_raw() == self.number as u64
            && handle.get(texts) == Some(&self.text)
            && texts.count(handle.as_ref()) == Some(1)
    }

    fn is_node_in(
        &self,
        slot: &Slot<Text, Node, Branch>,
        nodes: &InternStorage<Node>,
        is_gone: bool,
    ) -> bool {
        let Slot::ValueRef(reference) = slot else {
            return false;
        };
        let node = self.node();
        reference.as_raw() == self.number.saturating_add(FOUNDERS) as u64
            && reference.get(nodes) == (!is_gone).then_some(&node)
            && nodes.count(*reference) == (!is_gone).then_some(0)
    }

    fn is_branch_in(
        &self,
        slot: &Slot<Text, Node, Branch>,
        branches: &InternSliceStorage<Branch>,
        is_gone: bool,
    ) -> bool {
        let Slot::SliceRef(reference) = slot else {
            return false;
        };
        reference.name().birth == self.number as u64
            && self.is_read(reference.get(branches)) == !is_gone
            && branches.count(*reference) == (!is_gone).then_some(0)
    }

    fn is_integer_in(&self, slot: &Slot<Text, Node, Branch>, table: &SymbolTable) -> bool {
        let Slot::Symbol(symbol) = slot else {
            return false;
        };
        sym::Integer::as_uint(symbol, table) == Some(large(self.number))
            && table.count(symbol) == Some(1)
    }

    fn is_read(&self, read: Option<HeaderSlice<'_, Node, u64>>) -> bool {
        let Some(read) = read else {
            return false;
        };
        *read.header.header == self.node() && read.slice == items_of(self.number)
    }
}

// The text of the generated name of a number.
fn generated_of(alloc: Global, number: usize) -> Result<Text, AllocError> {
    let text = format!(in alloc; "<ra@gennew>{}", large(number))?;
    Text::new(alloc, text.as_str())
}

// The number whose texts are stored. Those of numbers up to 255 are presets.
fn large(number: usize) -> usize {
    number.saturating_add(256)
}

// Whether a slot holds the only symbol of this text.
fn is_symbol_in(slot: &Slot<Text, Node, Branch>, table: &SymbolTable, text: &Text) -> bool {
    let Slot::Symbol(symbol) = slot else {
        return false;
    };
    symbol.as_str(table) == Some(text.as_str()) && table.count(symbol) == Some(1)
}
