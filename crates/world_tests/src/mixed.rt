//! Many calls of all kinds, in the order that a generator draws.
ghost use Rattle.std.specs.Prelude.{◌<◌};

use crate::model::{GENERATED, INTEGERS, KeyRow, Model};
use crate::rows::tells;
use crate::worlds::{Texts, drop_world, new_world, push};
use intern_fixtures::Dice;
use intern_world::{Kind, Which};
use std::alloc::Global;
use std::process::Abort;

#[test]
fn ten_thousand_calls(rt: HostRuntime) {
    let alloc = rt.alloc();
    let mut world = new_world(alloc);
    let mut model = Model::new(alloc);
    let rows = draw_all(&rt, alloc, &mut model);
    tells(&rt, alloc, &mut world, &rows);
    is_as_told(&rt, alloc, &mut world, &model);
    drop_world(world);
}

/// Draws 10,000 calls, each with the model's reply.
fn draw_all(rt: &impl Abort, alloc: Global, model: &mut Model) -> Vec<KeyRow> {
    let mut dice = Dice::new(1);
    let mut rows = Vec::new(alloc);
    for _ in 0..10_000 {
        push(rt, &mut rows, draw(rt, model, &mut dice));
    }
    rows
}

/// Each slot reads what the model has there, each count is that of the model, and so is how many
/// entries there are.
fn is_as_told(rt: &impl Abort, alloc: Global, world: &mut Texts, model: &Model) {
    let mut rows = Vec::new(alloc);
    for slot in 0..model.len() {
        push(rt, &mut rows, model.reads_all(slot));
        push(rt, &mut rows, model.count(slot));
    }
    for which in [Which::Counted, Which::Values, Which::Slices, Which::Symbols] {
        push(rt, &mut rows, model.len_of(which));
    }
    tells(rt, alloc, world, &rows);
    assert!(rt; world.slot(model.len()).is_none());
}

/// Draws a call.
fn draw(rt: &impl Abort, model: &mut Model, dice: &mut Dice) -> KeyRow {
    match dice.below(4) {
        0 => draw_making(rt, model, dice),
        1 => draw_counting(rt, model, dice),
        2 => draw_reading(model, dice),
        _ => draw_telling(model, dice),
    }
}

fn draw_making(rt: &impl Abort, model: &mut Model, dice: &mut Dice) -> KeyRow {
    let number = draw_number(dice) as usize;
    match dice.below(9) {
        0 => model.new_counted(rt, dice.below(100)),
        1 => model.new_value(rt, dice.below(100)),
        2 => model.new_slice(rt, dice.below(100)),
        3 => model.intern(rt, draw_key(dice)),
        4 => model.integer(rt, number),
        5 => model.generated(rt, number),
        6 => model.empty(rt),
        7 => model.put(rt),
        _ => model.from_raw(rt, draw_kind(dice), dice.below(200)),
    }
}

fn draw_counting(rt: &impl Abort, model: &mut Model, dice: &mut Dice) -> KeyRow {
    let slot = draw_slot(model, dice);
    match dice.below(8) {
        0 => model.as_ref(rt, slot),
        1 => model.clone(rt, slot),
        2 | 3 => model.to_owned(rt, slot),
        4 | 5 | 6 => model.release(slot),
        _ => model.decrement(slot),
    }
}

fn draw_reading(model: &mut Model, dice: &mut Dice) -> KeyRow {
    let slot = draw_slot(model, dice);
    match dice.below(5) {
        0 | 1 | 2 => model.reads_all(slot),
        3 => model.reads(slot, draw_key(dice), draw_part(dice)),
        _ => model.same(slot, draw_slot(model, dice)),
    }
}

fn draw_telling(model: &mut Model, dice: &mut Dice) -> KeyRow {
    let slot = draw_slot(model, dice);
    match dice.below(9) {
        0 => model.collect(),
        1 => model.as_raw(slot),
        2 | 3 => model.len_of(draw_part(dice)),
        4 => model.uint(slot),
        _ => model.count(slot),
    }
}

/// One of the last 39 slots, or the number of none.
fn draw_slot(model: &Model, dice: &mut Dice) -> usize {
    model.len().saturating_sub(dice.below(40) as usize)
}

/// The key of a text, which is a preset or isn't.
fn draw_key(dice: &mut Dice) -> u64 {
    match dice.below(3) {
        0 => INTEGERS + draw_number(dice),
        1 => GENERATED + draw_number(dice),
        _ => dice.below(100),
    }
}

/// A number about 256, from which on the texts of numbers are no presets.
fn draw_number(dice: &mut Dice) -> u64
    ensures { result < 272 }
{
    240 + dice.below(32)
}

fn draw_kind(dice: &mut Dice) -> Kind {
    match dice.below(4) {
        0 => Kind::Counted,
        1 => Kind::CountedRef,
        2 => Kind::Value,
        _ => Kind::ValueRef,
    }
}

fn draw_part(dice: &mut Dice) -> Which {
    match dice.below(4) {
        0 => Which::Counted,
        1 => Which::Values,
        2 => Which::Slices,
        _ => Which::Symbols,
    }
}
