ghost use Rattle.std.specs.Prelude.{◌≡◌};
ghost use Rattle.search.specs.Readings.{progress_of, cover_of, stored_of, refusal_of};

use crate::jobs::{Searching, Unworked, Worked};
use rows::refusals::Refusal;
use steps::numbers::Progress;

impl Searching {
    // The last cover: the rank most recently answered, at first nothing.
    pub fn cover(&self) -> Option<u16>
        ensures { result ≡ self.now.numbers.progress.cover }
    {
        self.numbers.progress.cover
    }
}

impl Worked {
    // How far the job has come, whatever its state.
    fn progress(&self) -> Progress
        ensures { result ≡ progress_of self.now }
    {
        match self {
            Worked::Searching(j) => j.numbers.progress,
            Worked::Found(j) => j.progress,
            Worked::NoPlan(j) => j.progress,
            Worked::OutOfSpace(j) => j.progress,
        }
    }

    // The last cover of the job, whatever its state.
    pub fn cover(&self) -> Option<u16>
        ensures { result ≡ cover_of self.now }
    {
        self.progress().cover
    }

    // The nodes that the job has stored.
    pub fn stored(&self) -> u16
        ensures { result ≡ stored_of self.now }
    {
        self.progress().stored
    }
}

// The refusal of the same name; the job is given up.
impl From<Unworked> for Refusal {
    ghost from_gives = { λ u r. r ≡ refusal_of u };

    fn from(u: Unworked) -> Refusal {
        match u {
            Unworked::Idle(_) => Refusal::Idle,
            Unworked::Torn(_, _) => Refusal::Torn,
        }
    }
}
