//! The numbers that the workloads are made of.
ghost use Rattle.std.specs.Prelude.{◌≤◌};

use std::alloc::{AllocError, Global};

/// A prime. N places are visited in steps of it: each once, unless N is a multiple of it.
pub(crate) const STRIDE: usize = 7_368_787;

/// A linear congruential generator.
#[derive(Drop)]
pub(crate) struct Generator {
    state: u64,
}

impl Generator {
    const FACTOR: u64 = 6_364_136_223_846_793_005;

    const STEP: u64 = 1_442_695_040_888_963_407;

    /// The generator of what is stored.
    pub(crate) fn of_inputs() -> Generator {
        Generator {
            state: 0x9E37_79B9_7F4A_7C15,
        }
    }

    /// The generator of the orders in which entries come and go.
    pub(crate) fn of_orders() -> Generator {
        Generator {
            state: 0x243F_6A88_85A3_08D3,
        }
    }

    /// The next number.
    pub(crate) fn draw(&mut self) -> u64 {
        self.state = self
            .state
            .wrapping_mul(Self::FACTOR)
            .wrapping_add(Self::STEP);
        self.state
    }

    /// The upper 32 bits of the next number.
    pub(crate) fn draw_upper_half(&mut self) -> u32 {
        (self.draw() >> 32) as u32
    }

    // A place up to `last`. Below 2^32 each is about as likely, and `min` changes nothing.
    fn draw_place(&mut self, last: usize) -> usize
        ensures { result ≤ last }
    {
        let places = (last as u64).wrapping_add(1);
        let place = u64::from(self.draw_upper_half()).wrapping_mul(places) >> 32;
        (place as usize).min(last)
    }

    /// Fills the last `count` places, from the end, each with an item drawn from those up to it.
    pub(crate) fn shuffle_tail<T>(&mut self, items: &mut [T], count: usize) {
        let len = items.len();
        for place in (len.saturating_sub(count)..len).rev() {
            items.swap(place, self.draw_place(place));
        }
    }

    /// The places from 0 to `entries` - 1 in a drawn order.
    pub(crate) fn shuffled(
        &mut self,
        alloc: Global,
        entries: usize,
    ) -> Result<Vec<usize>, AllocError> {
        let mut order = (0..entries).collect::<Vec<usize>>(alloc)?;
        self.shuffle_tail(&mut order, entries);
        Ok(order)
    }
}

/// The places from 0 to `entries` - 1 in an order that leaps about.
pub(crate) fn scattered(alloc: Global, entries: usize) -> Result<Vec<usize>, AllocError> {
    let mut order = Vec::with_capacity(alloc, entries)?;
    for place in 0..entries {
        order.push(place.wrapping_mul(STRIDE) % entries)?;
    }
    Ok(order)
}
