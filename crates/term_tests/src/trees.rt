//! A model of a store in plain trees: what each call must answer, and what is left after it.
use crate::texts::{Text, push};
use intern_terms::TermRef;
use ra_ap_intern::Refusal;
use std::alloc::Global;
use std::process::Abort;

/// A node of a tree: the number of its head, and over how many trees it stands.
#[derive(Clone, Copy, PartialEq, Eq)]
pub struct Node {
    head: usize,
    width: usize,
}

/// A tree: its nodes, each before the trees that it stands over. So two trees are equal exactly if
/// their lists are, and a tree is within another exactly if its list is a part of the other's.
type Tree = Vec<Node>;

/// A term that was made: its reference, its arguments, its tree, how the tree is written, how many
/// owners it has, and whether no collection has removed it.
#[derive(Drop)]
pub struct Entry {
    pub term: TermRef,
    pub head: usize,
    pub args: Vec<TermRef>,
    pub text: Text,
    pub count: u64,
    tree: Tree,
    is_there: bool,
}

/// What a term owes: a refusal, or it is stored, or gets the next birth.
#[derive(Clone, Copy)]
pub enum Due {
    Refused(Refusal),
    Found(TermRef),
    New,
}

/// The terms of a store by their births, with its number and its limits.
#[derive(Drop)]
pub struct Trees {
    alloc: Global,
    number: u64,
    top: u64,
    numbers: usize,
    entries: Vec<Entry>,
}

/// The text of a head.
pub fn text_of(head: usize) -> &'static str {
    match head {
        0 => "x",
        1 => "f",
        2 => "g",
        _ => "self",
    }
}

/// The place of a term's birth.
pub fn birth_of(term: TermRef) -> usize {
    term.name().birth as usize
}

impl Trees {
    /// A new store, which has none.
    pub fn new(alloc: Global, number: u64, top: u64, numbers: usize) -> Trees {
        Trees {
            alloc,
            number,
            top,
            numbers,
            entries: Vec::new(alloc),
        }
    }

    /// How many births were given.
    pub fn births(&self) -> usize {
        self.entries.len()
    }

    /// How many terms there are.
    pub fn len(&self) -> usize {
        let mut len = 0usize;
        for entry in &self.entries {
            if entry.is_there {
                len = len.saturating_add(1);
            }
        }
        len
    }

    /// The term of a birth.
    pub fn term_at(&self, rt: &impl Abort, birth: usize) -> TermRef {
        let entry = self.entries.get(birth);
        entry.expect(rt, "a birth that was given").term
    }

    /// The entry of a term of the store, whether it is there or gone.
    fn own(&self, term: TermRef) -> Option<&Entry> {
        if term.name().storage == self.number {
            self.entries.get(birth_of(term))
        } else {
            None
        }
    }

    /// What a term reads.
    pub fn read(&self, term: TermRef) -> Option<&Entry> {
        match self.own(term) {
            Some(entry) if entry.is_there => Some(entry),
            _ => None,
        }
    }

    /// Whether the store has a term.
    pub fn is_there(&self, term: TermRef) -> bool {
        self.read(term).is_some()
    }

    /// Why a term can't be read, if it can't.
    pub fn unread(&self, term: TermRef) -> Option<Refusal> {
        if term.name().storage != self.number {
            Some(Refusal::Foreign)
        } else if self.is_there(term) {
            None
        } else {
            Some(Refusal::Gone)
        }
    }

    /// Why one of these terms can't be read, the first that can't.
    fn first_unread(&self, args: &[TermRef]) -> Option<Refusal> {
        for arg in args {
            let why = self.unread(*arg);
            if why.is_some() {
                return why;
            }
        }
        None
    }

    /// Whether two terms of the store read equal trees. None where one of them can't be read.
    pub fn are_equal(&self, term: TermRef, other: TermRef) -> Option<bool> {
        match (self.read(term), self.read(other)) {
            (Some(entry), Some(second)) => Some(entry.tree.as_slice() == second.tree.as_slice()),
            _ => None,
        }
    }

    /// The nodes of the trees of those terms that can be read.
    pub fn size_of(&self, args: &[TermRef]) -> usize {
        let mut size = 0usize;
        for arg in args {
            if let Some(entry) = self.read(*arg) {
                size = size.saturating_add(entry.tree.len());
            }
        }
        size
    }

    /// The tree with this head over the trees of these terms.
    fn tree_over(&self, rt: &impl Abort, head: usize, args: &[TermRef]) -> Tree {
        let mut tree = Vec::new(self.alloc);
        let width = args.len();
        push(rt, &mut tree, Node { head, width });
        for arg in args {
            if let Some(entry) = self.read(*arg) {
                tree.extend_from_slice(&entry.tree).expect(rt, "memory");
            }
        }
        tree
    }

    /// How the tree with this head over the trees of these terms is written.
    fn text_over(&self, rt: &impl Abort, head: usize, args: &[TermRef]) -> Text {
        let mut text = Text::new(rt, self.alloc, text_of(head));
        let mut before = "(";
        for arg in args {
            if let Some(entry) = self.read(*arg) {
                text.write(rt, before);
                text.add(rt, &entry.text);
                before = ", ";
            }
        }
        if !args.is_empty() {
            text.write(rt, ")");
        }
        text
    }

    /// Whether a text is what is written of a term, cut off after so many heads.
    pub fn is_written(&self, rt: &impl Abort, term: TermRef, most: usize, text: &str) -> bool {
        match self.read(term) {
            Some(entry) => entry.text.is_written(most, text),
            None => Text::named(rt, self.alloc, term).is_written(most, text),
        }
    }

    /// The term that has this tree.
    fn find(&self, tree: &[Node]) -> Option<TermRef> {
        for entry in &self.entries {
            if entry.is_there && entry.tree.as_slice() == tree {
                return Some(entry.term);
            }
        }
        None
    }

    /// What the term with this head over these arguments owes.
    pub fn due(&self, rt: &impl Abort, head: usize, args: &[TermRef]) -> Due {
        if let Some(why) = self.first_unread(args) {
            return Due::Refused(why);
        }
        match self.find(&self.tree_over(rt, head, args)) {
            Some(term) => Due::Found(term),
            None if self.births() >= self.numbers => Due::Refused(Refusal::NumbersUsedUp),
            None => Due::New,
        }
    }

    /// Adds a term with this head over these arguments.
    pub fn add(&mut self, rt: &impl Abort, term: TermRef, head: usize, args: &[TermRef]) {
        let entry = Entry {
            term,
            head,
            args: args.to_vec(self.alloc).expect(rt, "memory"),
            text: self.text_over(rt, head, args),
            count: 0,
            tree: self.tree_over(rt, head, args),
            is_there: true,
        };
        push(rt, &mut self.entries, entry);
    }

    /// What a further owner of this term owes.
    pub fn due_owner(&self, term: TermRef) -> Option<Refusal> {
        match self.read(term) {
            None => self.unread(term),
            Some(entry) if entry.count >= self.top => Some(Refusal::CountFull),
            Some(_) => None,
        }
    }

    /// What giving up an owner of this term owes.
    pub fn due_release(&self, term: TermRef) -> Option<Refusal> {
        match self.read(term) {
            None => self.unread(term),
            Some(entry) if entry.count == 0 => Some(Refusal::CountZero),
            Some(_) => None,
        }
    }

    /// One owner more of a term of the store.
    pub fn count_up(&mut self, term: TermRef) {
        if let Some(entry) = self.entries.get_mut(birth_of(term)) {
            entry.count = entry.count.saturating_add(1);
        }
    }

    /// One owner less of a term of the store.
    pub fn count_down(&mut self, term: TermRef) {
        if let Some(entry) = self.entries.get_mut(birth_of(term)) {
            entry.count = entry.count.saturating_sub(1);
        }
    }

    /// Removes each term that is within no tree of an owned term, nor of a term of this list. It
    /// tells how many stay, how many arguments these have, and how many go.
    pub fn collect(&mut self, rt: &impl Abort, roots: &[TermRef]) -> (usize, u64, usize) {
        let before = self.len();
        let is_left = self.within(rt, roots, true);
        let marks = self.leave(&is_left);
        let left = self.len();
        (left, marks, before.saturating_sub(left))
    }

    /// Removes each term whose birth isn't left. It tells how many arguments the others have.
    fn leave(&mut self, is_left: &[bool]) -> u64 {
        let mut marks = 0u64;
        for birth in 0..is_left.len() {
            let args = self.leave_one(birth, is_left[birth]);
            marks = marks.saturating_add(args as u64);
        }
        marks
    }

    /// Removes the term of a birth if it isn't left. It tells how many arguments one that is has.
    fn leave_one(&mut self, birth: usize, is_left: bool) -> usize {
        match self.entries.get_mut(birth) {
            Some(entry) if is_left => entry.args.len(),
            Some(entry) => {
                entry.is_there = false;
                0
            }
            None => 0,
        }
    }

    /// For each birth, whether it is that of a term that is within the tree of a term of this list,
    /// or, if so asked, of an owned term.
    pub fn within(&self, rt: &impl Abort, roots: &[TermRef], also_owned: bool) -> Vec<bool> {
        let starts = self.starts(rt, roots, also_owned);
        let mut answer = Vec::new(self.alloc);
        for entry in &self.entries {
            let is_within = entry.is_there && self.is_within_one(&entry.tree, &starts);
            push(rt, &mut answer, is_within);
        }
        answer
    }

    /// The terms that are there and are listed, or, if so asked, owned.
    fn starts(&self, rt: &impl Abort, roots: &[TermRef], also_owned: bool) -> Vec<TermRef> {
        let mut starts = Vec::new(self.alloc);
        for entry in &self.entries {
            let is_owned = also_owned && entry.count > 0;
            if entry.is_there && (is_owned || roots.contains(&entry.term)) {
                push(rt, &mut starts, entry.term);
            }
        }
        starts
    }

    /// For each birth, that it isn't.
    pub fn none(&self, rt: &impl Abort) -> Vec<bool> {
        let mut answer = Vec::new(self.alloc);
        for _ in 0..self.births() {
            push(rt, &mut answer, false);
        }
        answer
    }

    /// Whether a tree is within that of one of these terms.
    fn is_within_one(&self, tree: &[Node], starts: &[TermRef]) -> bool {
        for term in starts {
            if let Some(entry) = self.read(*term)
                && is_part(tree, &entry.tree)
            {
                return true;
            }
        }
        false
    }
}

/// Whether a list is a part of another.
fn is_part(part: &[Node], whole: &[Node]) -> bool {
    for start in 0..whole.len() {
        if let Some(rest) = whole.get(start..)
            && rest.starts_with(part)
        {
            return true;
        }
    }
    false
}
