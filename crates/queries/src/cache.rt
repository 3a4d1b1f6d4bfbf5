//! The cache: what each query came to, and when that was last known to be right.
ghost use Rattle.std.specs.Prelude.{◌≡◌, ◌↔◌, ◌⊎◌, ◌∷◌, Bool, true, false, List, [], map as list_map, Some, None, All, IsErrOf, IfOk, IsOkUnless, OnOk, OnErr, IfSome, IsSome, length, slice_get, option_copied, if◌then◌else◌};
ghost use Rattle.ra_ap_intern.specs.Handle.{ref_name};
ghost use Rattle.ra_ap_intern.specs.Interning.{ReadsOn};
ghost use Rattle.ra_ap_intern.specs.Name.{Name as KeyName};
ghost use Rattle.ra_ap_intern.specs.Named.{same_name};
ghost use Rattle.ra_ap_intern.specs.State.{IsState, new_state, reads, name_of_value};
ghost use Rattle.queries.specs.Cache.{Handle, memo_at, IsMemo, IsCache, IsCollected, CountsOn, HasGiven, current_answer, memo_now, no_counts, one_computed, one_verified};
ghost use Rattle.queries.specs.Evaluation.{Evaluates, IsRight, LeadsToCycle};
ghost use Rattle.queries.specs.Path.{WaitsFor, IsWaiting, IsFrame, IsPath, IsStuck, GoesOn};
ghost use Rattle.queries.specs.Sheet.{Formulas, formula_at, same_place, gives};
ghost use Rattle.queries.specs.Steps.{IsNearer, IsSettled, KeepsBegun, same_key, steps_left};
ghost use Rattle.queries.specs.declared.cache.Memo.{Memo as MemoType};
ghost use Rattle.queries.specs.declared.key.Key.{Key as KeyType};
ghost use Rattle.queries.specs.declared.path.Frame.{Frame as FrameType};
ghost use Rattle.queries.specs.declared.place.Place.{Place as PlaceType};

use crate::fault::Fault;
use crate::key::{Key, KeyRef, Keys};
use crate::path::{Frame, Path};
use crate::place::Place;
use crate::sheet::Sheet;
use crate::value::{Answer, Value};
use ra_ap_intern::{GarbageCollector, Interned, Refusal, laws};
use std::alloc::{AllocError, Global};
use std::collections::HashMap;
use std::mem;

/// What a query came to.
#[derive(Drop)]
pub struct Memo {
    /// The answer.
    pub answer: Answer,
    /// The values that it read, in order.
    pub values: Vec<Value>,
    /// The revision at which the answer was last right.
    pub verified: u64,
}

/// How queries were answered.
#[derive(Clone, Copy, Default, PartialEq, Eq, Debug)]
pub struct Counts {
    /// From the values that they read.
    pub computed: u64,
    /// By an older memo, since all that it had read was the same again.
    pub verified: u64,
    /// By a memo of this revision.
    pub reused: u64,
}

/// The memos of queries, under their handles.
#[derive(Drop)]
pub struct Cache {
    alloc: Global,
    /// The queries.
    pub keys: Keys,
    /// What they came to.
    pub memos: HashMap<KeyRef, Memo>,
    /// How many edits there were.
    pub revision: u64,
    /// How queries were answered.
    pub counts: Counts,
}

// The answer to the first query of an evaluation, where that was its last step.
type Found = Option<Answer>;

impl Cache {
    /// Nothing is known.
    pub fn new(alloc: Global) -> Cache
        ensures keys { result.keys ≡ new_state 1 u64.MAX u64.MAX }
        ensures counts { result.counts ≡ no_counts }
        ensures cache { (sheet : Formulas) → IsCache sheet result }
    {
        Cache {
            alloc,
            keys: Keys::new(alloc, 1),
            memos: HashMap::new(alloc),
            revision: 0,
            counts: Counts::default(),
        }
    }

    /// The formula of a cell has changed: its memo goes, and no other is right by itself any more.
    /// Refused as `RevisionsUsedUp` at the last revision.
    pub fn raise(&mut self, place: Place) -> Result<(), Fault>
        ensures cache { OnOk result ((old new : Formulas) → IsCache old self.old →
            ((p : PlaceType) → same_place place p ≡ false → formula_at new p ≡ formula_at old p) →
            IsCache new self.new) }
        ensures keys { self.new.keys ≡ self.old.keys }
        ensures counts { self.new.counts ≡ self.old.counts }
        ensures err { OnErr result (self.new ≡ self.old) }
        ensures used_up { IsErrOf result Fault.RevisionsUsedUp ↔ (self.old.revision ≡ u64.MAX) }
        ensures otherwise { IsOkUnless result Fault.RevisionsUsedUp }
    {
        laws::references_are_names::<Key>();
        let _number = self.keys.number();
        self.revision = self.revision.checked_add(1).ok_or(Fault::RevisionsUsedUp)?;
        if let Some(handle) = self.keys.get(&Key::Cell(place)) {
            let _ = self.memos.remove(&handle);
        }
        Ok(())
    }

    /// The answer to a query.
    pub fn answer(&mut self, sheet: &Sheet, root: Key) -> Result<Answer, Fault>
        requires { IsCache sheet.now self.old }
        ensures right { IfOk result (IsRight sheet.now root) }
        ensures on { ReadsOn self.old.keys self.new.keys }
        ensures counts { CountsOn self.old.counts self.new.counts }
        ensures cache { IsCache sheet.now self.new }
    {
        let handle = self.handle(root)?;
        if let Some(answer) = self.current(handle) {
            self.counts.reused = self.counts.reused.saturating_add(1);
            return Ok(answer);
        }
        let mut path = Path::new(self.alloc);
        let mut top = self.open(sheet, root, handle)?;
        // Each step leaves fewer, so this ends.
        'steps: loop {
            if let Some(answer) = self.advance(sheet, &mut path, &mut top)? {
                return Ok(answer);
            }
        }
    }

    // The handle of a query.
    fn handle(&mut self, key: Key) -> Result<KeyRef, Refusal>
        ensures stored { IfOk result (λ handle. reads self.new.keys (ref_name handle) ≡ Some key) }
        ensures on { ReadsOn self.old.keys self.new.keys }
        ensures counts { self.new.counts ≡ self.old.counts }
        ensures keyed { OnOk result (IsState same_key self.new.keys) }
        ensures found { IfOk result (λ handle.
            name_of_value same_key self.new.keys key ≡ Some (ref_name handle)) }
        ensures begun { OnOk result ((frames : List FrameType) →
            KeepsBegun self.old frames self.new frames) }
        ensures cache { (sheet : Formulas) → IsCache sheet self.old → IsCache sheet self.new }
    {
        let _number = self.keys.number();
        let (handle, _) = Interned::new_gc(&mut self.keys, key)?;
        Ok(handle)
    }

    // The memo of a query.
    fn memo(&self, handle: KeyRef) -> Option<&Memo>
        ensures { option_copied result ≡ memo_at self.now (ref_name handle) }
    {
        self.memos.get(&handle)
    }

    // A memo of this revision, in place of the one that the query had.
    fn put(&mut self, handle: KeyRef, answer: Answer, values: Vec<Value>) -> Result<(), AllocError>
        ensures keys { self.new.keys ≡ self.old.keys }
        ensures counts { self.new.counts ≡ self.old.counts }
        ensures revision { self.new.revision ≡ self.old.revision }
        ensures memos { let memo = memo_now answer values self.old.revision in
            OnOk result ((name : KeyName) → memo_at self.new name
            ≡ (if same_name (ref_name handle) name then Some memo else memo_at self.old name)) }
        ensures cache { let memo = memo_now answer values self.old.revision in
            (sheet : Formulas) → IsCache sheet self.old →
            IsMemo sheet self.old.keys self.old.revision (ref_name handle) memo →
            IsCache sheet self.new }
    {
        laws::references_are_names::<Key>();
        let verified = self.revision;
        let memo = Memo {
            answer,
            values,
            verified,
        };
        self.memos.insert(handle, memo)?;
        Ok(())
    }

    // The answer of a memo of this revision.
    fn current(&self, handle: KeyRef) -> Option<Answer>
        ensures exact { result
            ≡ current_answer (memo_at self.now (ref_name handle)) self.now.revision }
        ensures right { (sheet : Formulas) (key : KeyType) → IsCache sheet self.now →
            reads self.now.keys (ref_name handle) ≡ Some key → IfSome result (IsRight sheet key) }
    {
        let memo = self.memo(handle)?;
        (memo.verified == self.revision).then_some(memo.answer)
    }

    // Begins to compute a query.
    fn open(&self, sheet: &Sheet, key: Key, handle: KeyRef) -> Result<Frame, Fault>
        requires { reads self.now.keys (ref_name handle) ≡ Some key }
        ensures key { IfOk result (λ frame. frame.key ≡ key) }
        ensures handle { IfOk result (λ frame. frame.handle ≡ handle) }
        ensures values { IfOk result (λ frame. frame.values.items ≡ []) }
        ensures frame { IfOk result (IsFrame sheet.now self.now.keys) }
    {
        Ok(Frame {
            key,
            handle,
            wants: sheet.reads(key)?,
            values: Vec::new(self.alloc),
        })
    }

    // One step of an evaluation: the query at the end of the path reads a value, or is settled.
    fn advance(&mut self, sheet: &Sheet, path: &mut Path, top: &mut Frame) -> Result<Found, Fault>
        requires cache { IsCache sheet.now self.old }
        requires frame { IsFrame sheet.now self.old.keys top.old }
        requires path { (first : KeyType)
            × IsPath sheet.now self.old.keys first path.old.frames.items top.old.key }
        ensures on { ReadsOn self.old.keys self.new.keys }
        ensures counts { CountsOn self.old.counts self.new.counts }
        ensures cache { IsCache sheet.now self.new }
        ensures goes_on { (root : KeyType) →
            IsPath sheet.now self.old.keys root path.old.frames.items top.old.key →
            IfOk result (GoesOn sheet.now self.new.keys root top.new path.new.frames.items) }
        ensures nearer { (root : KeyType) →
            IsPath sheet.now self.old.keys root path.old.frames.items top.old.key →
            IfOk result (IsNearer sheet.now root self.new (top.new ∷ path.new.frames.items)
            (steps_left sheet.now root self.old (top.old ∷ path.old.frames.items))) }
    {
        let Some(key) = top.next() else {
            return self.finish(sheet, path, top);
        };
        let handle = self.handle(key)?;
        match self.known(path, top, key, handle) {
            Some(Answer::Value(value)) => {
                self.counts.reused = self.counts.reused.saturating_add(1);
                top.values.push(value)?;
                Ok(None)
            }
            Some(Answer::Cycle(through)) => {
                self.give_up(path, top, through)?;
                Ok(Some(Answer::Cycle(through)))
            }
            None => {
                let opened = self.open(sheet, key, handle)?;
                path.push(mem::replace(top, opened))?;
                Ok(None)
            }
        }
    }

    // The answer to a query as far as it is known: by a memo, or since it waits for itself.
    fn known(&self, path: &Path, top: &Frame, key: Key, handle: KeyRef) -> Option<Answer>
        requires stored { reads self.now.keys (ref_name handle) ≡ Some key }
        requires waits { WaitsFor top.now key }
        ensures known { IsSome result ↔ (IsSome
            (current_answer (memo_at self.now (ref_name handle)) self.now.revision)
            ⊎ IsWaiting (ref_name handle) top.now path.now.frames.items) }
        ensures right { (sheet : Formulas) (root : KeyType) → IsCache sheet self.now →
            IsFrame sheet self.now.keys top.now →
            IsPath sheet self.now.keys root path.now.frames.items top.now.key →
            IfSome result (IsRight sheet key) }
    {
        laws::references_are_names::<Key>();
        if let Some(answer) = self.current(handle) {
            return Some(answer);
        }
        let waits = top.handle == handle || path.has(handle);
        waits.then_some(Answer::Cycle(key))
    }

    // The query has read all its values, and the one that waits for it goes on.
    fn finish(&mut self, sheet: &Sheet, path: &mut Path, top: &mut Frame) -> Result<Found, Fault>
        requires cache { IsCache sheet.now self.old }
        requires frame { IsFrame sheet.now self.old.keys top.old }
        requires complete { slice_get top.old.wants.items (length top.old.values.items) ≡ None }
        ensures keys { self.new.keys ≡ self.old.keys }
        ensures counts { CountsOn self.old.counts self.new.counts }
        ensures cache { IsCache sheet.now self.new }
        ensures goes_on { (root : KeyType) →
            IsPath sheet.now self.old.keys root path.old.frames.items top.old.key →
            IfOk result (GoesOn sheet.now self.new.keys root top.new path.new.frames.items) }
        ensures nearer { (root : KeyType) →
            IsPath sheet.now self.old.keys root path.old.frames.items top.old.key →
            IfOk result (IsNearer sheet.now root self.new (top.new ∷ path.new.frames.items)
            (steps_left sheet.now root self.old (top.old ∷ path.old.frames.items))) }
    {
        let _number = self.keys.number();
        let value = self.settle(sheet, top)?;
        let Some(waiting) = path.pop() else {
            return Ok(Some(Answer::Value(value)));
        };
        *top = waiting;
        top.values.push(value)?;
        Ok(None)
    }

    // The value of a query that has read all its values.
    fn settle(&mut self, sheet: &Sheet, frame: &mut Frame) -> Result<Value, Fault>
        requires cache { IsCache sheet.now self.old }
        requires frame { IsFrame sheet.now self.old.keys frame.old }
        requires complete { slice_get frame.old.wants.items (length frame.old.values.items) ≡ None }
        ensures value { IfOk result (λ value. Evaluates sheet.now frame.old.key value) }
        ensures verified { OnOk result
            (HasGiven self.old (ref_name frame.old.handle) frame.old.values.items →
            self.new.counts ≡ one_verified self.old.counts) }
        ensures computed { OnOk result
            ((HasGiven self.old (ref_name frame.old.handle) frame.old.values.items → ⊥) →
            self.new.counts ≡ one_computed self.old.counts) }
        ensures counts { CountsOn self.old.counts self.new.counts }
        ensures keys { self.new.keys ≡ self.old.keys }
        ensures settled { OnOk result (IsSettled self.old (ref_name frame.old.handle) self.new) }
        ensures cache { IsCache sheet.now self.new }
    {
        let value = self.given(sheet, frame)?;
        let values = mem::replace(&mut frame.values, Vec::new(self.alloc));
        self.put(frame.handle, Answer::Value(value), values)?;
        Ok(value)
    }

    // What a query gives from the values that it has read: what it gave from them before, or else
    // it is computed.
    fn given(&mut self, sheet: &Sheet, frame: &Frame) -> Result<Value, AllocError>
        requires cache { IsCache sheet.now self.old }
        requires stored { reads self.old.keys (ref_name frame.now.handle) ≡ Some frame.now.key }
        ensures given { IfOk result (λ value.
            value ≡ gives sheet.now frame.now.key frame.now.values.items) }
        ensures verified { HasGiven self.old (ref_name frame.now.handle) frame.now.values.items →
            self.new.counts ≡ one_verified self.old.counts }
        ensures computed { let name = ref_name frame.now.handle in
            (HasGiven self.old name frame.now.values.items → ⊥) →
            self.new.counts ≡ one_computed self.old.counts }
        ensures counts { CountsOn self.old.counts self.new.counts }
        ensures keys { self.new.keys ≡ self.old.keys }
        ensures memos { self.new.memos ≡ self.old.memos }
        ensures revision { self.new.revision ≡ self.old.revision }
        ensures cache { IsCache sheet.now self.new }
    {
        if let Some(value) = self.unchanged(frame) {
            self.counts.verified = self.counts.verified.saturating_add(1);
            return Ok(value);
        }
        self.counts.computed = self.counts.computed.saturating_add(1);
        sheet.give(frame.key, frame.values.as_slice())
    }

    // The value of an older memo, where all that it read is the same again.
    fn unchanged(&self, frame: &Frame) -> Option<Value>
        ensures known { IsSome result
            ↔ HasGiven self.now (ref_name frame.now.handle) frame.now.values.items }
        ensures right { (sheet : Formulas) → IsCache sheet self.now →
            reads self.now.keys (ref_name frame.now.handle) ≡ Some frame.now.key →
            IfSome result (λ value. value ≡ gives sheet frame.now.key frame.now.values.items) }
    {
        let memo = self.memo(frame.handle)?;
        match memo.answer {
            Answer::Value(value) => (memo.values == frame.values).then_some(value),
            Answer::Cycle(_) => None,
        }
    }

    // None of the queries on the path has a value.
    fn give_up(&mut self, path: &Path, top: &Frame, through: Key) -> Result<(), AllocError>
        ensures keys { self.new.keys ≡ self.old.keys }
        ensures counts { self.new.counts ≡ self.old.counts }
        ensures cache { (sheet : Formulas) → IsCache sheet self.old →
            IsStuck sheet self.old.keys through top.now →
            All (IsStuck sheet self.old.keys through) path.now.frames.items →
            IsCache sheet self.new }
    {
        let answer = Answer::Cycle(through);
        self.put(top.handle, answer, Vec::new(self.alloc))?;
        for frame in &path.frames {
            self.put(frame.handle, answer, Vec::new(self.alloc))?;
        }
        Ok(())
    }

    /// Removes all queries but these, with their memos, and tells how many. Where there is no
    /// memory, nothing changes.
    pub fn collect(&mut self, needed: &[KeyRef]) -> Result<usize, AllocError>
        ensures ok { IfOk result
            (IsCollected (list_map ref_name needed.now) self.old self.new) }
        ensures err { OnErr result (self.new ≡ self.old) }
        ensures counts { self.new.counts ≡ self.old.counts }
        ensures right { (sheet : Formulas) → IsCache sheet self.old → IsCache sheet self.new }
    {
        let collected = GarbageCollector::new(self.alloc).collect_from(&mut self.keys, &needed)?;
        let keys = &self.keys;
        self.memos.retain(|handle, _| keys.contains(*handle));
        Ok(collected.removed)
    }
}
