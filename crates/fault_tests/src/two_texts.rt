//! Two texts and a slice, and the collection that keeps one text and the slice.
ghost use Rattle.std.specs.Prelude.{◌≡◌, true};

use crate::fault::{Fault, ensure};
use crate::marks;
use intern_fixtures::{GcString, StringSlice, make_gc_string};
use ra_ap_intern::{
    Collected, Family, GarbageCollector, InternSliceStorage, InternStorage, Interned, InternedRef,
    InternedSlice, InternedSliceRef, NoStorages, Pair,
};
use std::alloc::Global;

/// The call that collects them.
const CALL: &str = "GarbageCollector::collect, of two texts and a slice";

type Texts = InternStorage<GcString>;

type Slices = InternSliceStorage<StringSlice>;

/// A storage of texts, and one of slices.
type Storages = Pair<Pair<NoStorages, Texts>, Slices>;

/// The texts "abc", which is owned, and "def", and two numbers behind "abc", which are owned.
#[derive(Drop)]
struct Scene {
    family: Storages,
    abc: InternedRef<GcString>,
    def: InternedRef<GcString>,
    slice: InternedSliceRef<StringSlice>,
}

/// Checks the collection.
pub(crate) fn check_two_texts(rt: &(impl Print + Eprint), alloc: Global) -> Result<(), Fault> {
    marks::prepares(rt);
    let mut scene = make_scene(alloc)?;
    scene.check(rt, alloc)
}

// At the second try where the first is refused.
fn make_scene(alloc: Global) -> Result<Scene, Fault> {
    match try_scene(alloc) {
        Ok(scene) => Ok(scene),
        Err(_) => try_scene(alloc),
    }
}

fn try_scene(alloc: Global) -> Result<Scene, Fault> {
    let mut family = make_storages(alloc);
    let (abc, def) = store_texts(alloc, &mut family.first.second)?;
    let slice = store_slice(alloc, &mut family.second)?;
    Ok(Scene {
        family,
        abc,
        def,
        slice,
    })
}

fn make_storages(alloc: Global) -> Storages {
    let texts = GarbageCollector::add_storage(NoStorages, InternStorage::new(alloc, 1));
    GarbageCollector::add_slice_storage(texts, InternSliceStorage::new(alloc, 2))
}

// Interns the text that is owned, and the one that isn't.
fn store_texts(
    alloc: Global,
    texts: &mut Texts,
) -> Result<(InternedRef<GcString>, InternedRef<GcString>), Fault> {
    let abc = store_text(alloc, texts, "abc")?;
    drop(abc.to_owned(texts)?);
    let def = store_text(alloc, texts, "def")?;
    Ok((abc, def))
}

fn store_text(
    alloc: Global,
    texts: &mut Texts,
    text: &str,
) -> Result<InternedRef<GcString>, Fault> {
    let (reference, _) = Interned::new_gc(texts, make_gc_string(alloc, text)?)?;
    Ok(reference)
}

// Interns the slice twice, and owns it. It gives the second reference, which is equal to the first.
fn store_slice(alloc: Global, slices: &mut Slices) -> Result<InternedSliceRef<StringSlice>, Fault> {
    let (first, _) = store_numbers(alloc, slices)?;
    let (second, is_stored) = store_numbers(alloc, slices)?;
    ensure(first == second && is_stored, "a slice was stored twice")?;
    drop(second.to_owned(slices)?);
    Ok(second)
}

// Interns the two numbers behind the text, and tells whether they were stored before.
fn store_numbers(
    alloc: Global,
    slices: &mut Slices,
) -> Result<(InternedSliceRef<StringSlice>, bool), Fault> {
    let text = String::from_str(alloc, "abc")?;
    let (slice, back) = InternedSlice::from_header_and_slice(slices, text, &[123, 456])?;
    Ok((slice, back.is_some()))
}

// Collects any family. What holds of a family's parts costs the prover nothing here.
fn collect<F: Family>(alloc: Global, family: &mut F) -> Result<Collected, Fault>
    requires { F.collected ≡ true }
{
    if !GarbageCollector::distinct(family) {
        return Err(Fault::Wrong("two storages of a family have one number"));
    }
    let collected = GarbageCollector::new(alloc).collect(family);
    collected.map_err(|_| Fault::NoMemory)
}

impl Scene {
    fn check(&mut self, rt: &(impl Print + Eprint), alloc: Global) -> Result<(), Fault> {
        marks::takes_none(rt, "reads");
        self.is_whole()?;
        let collected = self.collect_surely(rt, alloc)?;
        marks::takes_none(rt, "reads");
        self.is_cut(collected)?;
        println!(rt; "{CALL}: {}", collected.visits)?;
        Ok(())
    }

    // Where the call is refused, all is as it was, and it is made once more.
    fn collect_surely(&mut self, rt: &impl Eprint, alloc: Global) -> Result<Collected, Fault> {
        marks::asks(rt, CALL);
        match self.collect(alloc) {
            Err(Fault::NoMemory) => {
                marks::refused(rt, CALL);
                self.is_whole()?;
                self.collect(alloc)
            }
            collected => collected,
        }
    }

    fn collect(&mut self, alloc: Global) -> Result<Collected, Fault> {
        collect(alloc, &mut self.family)
    }

    // Fails unless all is there, as it was stored and counted.
    fn is_whole(&self) -> Result<(), Fault> {
        self.has_lengths(2, 1)?;
        self.keeps_owned()?;
        self.reads_def(Some("def"), Some(0))
    }

    // Fails unless the text is gone that nobody owns, and all else is there.
    fn is_cut(&self, told: Collected) -> Result<(), Fault> {
        ensure(
            (told.visits, told.mark_calls, told.removed) == (2, 0, 1),
            "the collection of two texts and a slice tells something else",
        )?;
        self.has_lengths(1, 1)?;
        self.keeps_owned()?;
        self.reads_def(None, None)
    }

    fn has_lengths(&self, texts: usize, slices: usize) -> Result<(), Fault> {
        ensure(
            self.family.first.second.len() == texts && self.family.second.len() == slices,
            "a storage of texts or of slices has another length",
        )
    }

    // Fails unless the text that is owned, and the slice, are there.
    fn keeps_owned(&self) -> Result<(), Fault> {
        let (texts, slices) = (&self.family.first.second, &self.family.second);
        ensure(
            texts.count(self.abc) == Some(1)
                && slices.count(self.slice) == Some(1)
                && self.abc.get(texts).map(GcString::text) == Some("abc"),
            "an owned text or slice has another count",
        )?;
        let is_read = match self.slice.get(slices) {
            Some(read) => {
                read.header.header.as_str() == "abc"
                    && read.header.length == 2
                    && read.slice == [123, 456].as_slice()
            }
            None => false,
        };
        ensure(is_read, "an owned slice reads something else")
    }

    // Fails unless the text that nobody owns reads this, and has this count.
    fn reads_def(&self, text: Option<&str>, count: Option<u64>) -> Result<(), Fault> {
        let texts = &self.family.first.second;
        ensure(
            self.def.get(texts).map(GcString::text) == text && texts.count(self.def) == count,
            "a text that nobody owns reads something else",
        )
    }
}
