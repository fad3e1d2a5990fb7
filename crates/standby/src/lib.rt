// The standby's half of the link: the arrival of a record or an image, and what is owed. The definitions are in specs/.
#![tactic(auto)]

ghost use Rattle.std.specs.Prelude.{◌≡◌};
ghost use Rattle.standby.specs.Arriving.{conflict, met};

use std::cmp::Ordering;

pub mod arriving;
pub mod loading;
pub mod owing;

// The standby's numbers. A record or an image that is not refused is met. All four are 0 on a fresh standby.
#[derive(Clone, Copy)]
pub struct Numbers {
    // The last change applied in its run.
    pub n: u64,
    // The highest number met in the highest run met.
    pub h: u64,
    // Its run.
    pub run: u32,
    // The highest run met.
    pub highest: u32,
}

impl Numbers {
    // Whether the numbers are none that a standby has.
    #[tactic(auto, unfolding(crate::specs::Arriving::conflict))]
    pub(crate) fn in_conflict(self) -> bool
        ensures { result ≡ conflict self }
    {
        self.highest < self.run || self.run == self.highest && self.h < self.n
    }

    // The numbers once a number of a run is met, by a record or an image that is not refused.
    #[tactic(auto, unfolding(crate::specs::Arriving::met, crate::specs::Arriving::higher))]
    pub(crate) fn meet(self, run: u32, number: u64) -> Numbers
        ensures { result ≡ met self run number }
    {
        match run.cmp(&self.highest) {
            Ordering::Greater => Numbers {
                h: number,
                highest: run,
                ..self
            },
            Ordering::Equal => Numbers {
                h: self.h.max(number),
                ..self
            },
            Ordering::Less => self,
        }
    }
}

// What an arrival that is not refused answers: its change was applied, had been before, or is not due yet; or its image was taken.
#[derive(Clone, Copy, PartialEq, Eq)]
pub enum Arrival {
    Applied,
    Repeat,
    Early,
    Taken,
}

// The answer of an arrival that is not refused, and the numbers after it.
#[derive(Clone, Copy)]
pub struct Arrived {
    pub arrival: Arrival,
    pub numbers: Numbers,
}
