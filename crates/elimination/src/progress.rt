// How far the work is, and what ends it.
ghost use Rattle.std.specs.Prelude.{◌≡◌, ◌+◌, ◌<◌, ◌^◌};
ghost use Rattle.whole.specs.Word.{first_set};
ghost use Rattle.elimination.specs.declared.progress.Stop.TheVariants.{Wide};

use whole::number::PastLimit;

/// How far the work is: the rounds so far, and the word in which bit j is 1 exactly when unknown j is still free.
#[derive(Clone, Copy, Debug, PartialEq, Eq)]
pub struct Progress {
    pub rounds: u32,
    pub free: u64,
}

impl Progress {
    /// No round yet, and the first `unknowns` bits set.
    pub fn start(unknowns: usize) -> Progress
        requires { unknowns < 64 }
        ensures { (result.rounds ≡ 0) × (result.free ≡ first_set unknowns) }
    {
        Progress {
            rounds: 0,
            free: whole::word::first(unknowns),
        }
    }

    /// One round more, with the word that it leaves.
    pub fn after_round(self, free: u64) -> Progress
        requires { self.rounds + 1 < 2 ^ 32 }
        ensures { (result.rounds ≡ self.rounds + 1) × (result.free ≡ free) }
    {
        Progress {
            rounds: self.rounds + 1,
            free,
        }
    }
}

/// Why an equation ends the work.
#[derive(Clone, Copy, Debug, PartialEq, Eq)]
pub enum Stop {
    /// No units agree.
    Clash,
    /// A number passed the limit.
    Wide,
}

impl From<PastLimit> for Stop {
    ghost from_gives = { λ _ stop. stop ≡ Wide };

    fn from(_past: PastLimit) -> Stop {
        Stop::Wide
    }
}

/// What ended the work, and the place of the equation at which it did.
#[derive(Clone, Copy, Debug, PartialEq, Eq)]
pub struct Stopped {
    pub why: Stop,
    pub at: usize,
}
