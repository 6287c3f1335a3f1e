//! Random numbers for a search, which follow from its seed alone.

use ctt_problem::{Instance, RoomNo, SlotNo};
use rand_core::{Rng, SeedableRng};
use rand_xoshiro::Xoshiro256PlusPlus;

/// A source of random numbers.
#[derive(Drop)]
pub(crate) struct Draws {
    words: Xoshiro256PlusPlus,
}

impl Draws {
    /// Returns the source that a seed begins.
    pub(crate) fn new(seed: u64) -> Self {
        Draws {
            words: Xoshiro256PlusPlus::seed_from_u64(seed),
        }
    }

    /// Returns the next word.
    pub(crate) fn word(&mut self) -> u64 {
        self.words.next_u64()
    }

    /// Draws a number below a limit, or 0 if the limit is 0.
    pub(crate) fn below(&mut self, limit: u16) -> u16 {
        let word = self.word() >> 32;
        if limit == 0 {
            return 0;
        }
        (word % u64::from(limit)) as u16
    }

    /// Draws a slot.
    pub(crate) fn slot(&mut self, instance: &Instance) -> SlotNo {
        SlotNo::new(self.below(instance.slots()))
    }

    /// Draws a room.
    pub(crate) fn room(&mut self, instance: &Instance) -> RoomNo {
        RoomNo::new(self.below(instance.rooms()))
    }
}
