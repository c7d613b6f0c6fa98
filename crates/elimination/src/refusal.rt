// What the caller hears where the work is refused.
ghost use Rattle.std.specs.Prelude.{◌≡◌, ℕ, ◌<◌};
ghost use Rattle.elimination.specs.Refusals.{number_of, place_of, number_some, told_apart as refusals_apart, stopped_as};

use crate::progress::{Stop, Stopped};
use std::error::Error;
use std::fmt;

/// What every refusal has: document 01's number of it, which is never 0, and a place.
pub trait Refuses: Copy {
    ghost number: { Self → ℕ };

    ghost place: { Self → ℕ };

    fn number(self) -> u32
        ensures { result ≡ number self };

    fn place(self) -> usize
        ensures { result ≡ place self };

    ghost never_zero: { (r : Self) → 0 < number r };

    ghost told_apart: { (r s : Self) → number r ≡ number s → place r ≡ place s → r ≡ s };
}

/// Why the call refuses; those with a place have the equation's.
#[derive(Clone, Copy, Debug, PartialEq, Eq)]
pub enum Refusal {
    /// V is over 24.
    TooManyUnknowns,
    /// The length is not a multiple of 32.
    UnevenLength,
    /// A column from V to 23 is nonzero.
    UnusedColumn(usize),
    /// The lent table is below 32V numbers.
    TableTooShort,
    /// A number passed the limit.
    Wide(usize),
    /// The equation has no solution with those before it.
    Clash(usize),
}

impl Refuses for Refusal {
    ghost number = { number_of };

    ghost place = { place_of };

    fn number(self) -> u32 {
        match self {
            Refusal::TooManyUnknowns => 3,
            Refusal::UnevenLength => 4,
            Refusal::UnusedColumn(_) => 5,
            Refusal::TableTooShort => 8,
            Refusal::Wide(_) => 9,
            Refusal::Clash(_) => 10,
        }
    }

    fn place(self) -> usize {
        match self {
            Refusal::UnusedColumn(equation) | Refusal::Wide(equation) | Refusal::Clash(equation) =>
                equation,
            Refusal::TooManyUnknowns | Refusal::UnevenLength | Refusal::TableTooShort => 0,
        }
    }

    ghost never_zero = { number_some };

    ghost told_apart = { refusals_apart };
}

// `?` needs one for each type of refusal: there is no blanket impl of a foreign trait.
impl From<Stopped> for Refusal {
    ghost from_gives = { λ stopped refusal. refusal ≡ stopped_as stopped };

    fn from(stopped: Stopped) -> Refusal {
        match stopped.why {
            Stop::Clash => Refusal::Clash(stopped.at),
            Stop::Wide => Refusal::Wide(stopped.at),
        }
    }
}

impl fmt::Display for Refusal {
    fn fmt<W: fmt::Write>(&self, f: &mut fmt::Formatter<W>) -> fmt::Result {
        match self {
            Refusal::TooManyUnknowns => f.write_str("more than 24 unknowns"),
            Refusal::UnevenLength => f.write_str("the length is not a multiple of 32"),
            Refusal::UnusedColumn(i) => write!(f, "equation {i} is nonzero in an unused column"),
            Refusal::TableTooShort => f.write_str("the lent table is too short"),
            Refusal::Wide(i) => write!(f, "equation {i} passes the limit"),
            Refusal::Clash(i) => write!(f, "equation {i} clashes"),
        }
    }
}

impl Error for Refusal {}
