// What a caller hears of a refusal.
ghost use Rattle.std.specs.Prelude.{◌≡◌};
ghost use Rattle.sheet.specs.Refusals.{number_of, place_of, number_some, told_apart as refusals_apart, stopped_as};

use elimination::progress::{Stop, Stopped};
use elimination::refusal::Refuses;
use std::error::Error;
use std::fmt;

/// Why a call on a sheet is refused, in the order of the checks.
#[derive(Clone, Copy, Debug, PartialEq, Eq)]
pub enum Refusal {
    /// "length below 16 or above 3,104"
    Length,
    /// "last four bytes wrong"
    Mark,
    /// "V, U, C or N over its limit, or trailer byte 9 nonzero"
    Counts,
    /// "a distance or the length disagrees"
    Distances,
    /// "unit record out of range, or nonzero in columns V to 23"
    Record(usize),
    /// "channel byte ≥ U"
    Channel(usize),
    /// "line's code above 8, an operand out of range, an unused byte nonzero"
    Line(usize),
    /// "no such line", or no such channel
    Absent,
    /// "lent table too short"
    TableTooShort,
    /// "wide", at a line
    Wide(usize),
    /// "clash", at a line
    Clash(usize),
}

impl Refuses for Refusal {
    ghost number = { number_of };

    ghost place = { place_of };

    fn number(self) -> u32 {
        match self {
            Refusal::Length => 1,
            Refusal::Mark => 2,
            Refusal::Counts => 3,
            Refusal::Distances => 4,
            Refusal::Record(_) => 5,
            Refusal::Channel(_) => 6,
            Refusal::Line(_) => 7,
            Refusal::TableTooShort => 8,
            Refusal::Wide(_) => 9,
            Refusal::Clash(_) => 10,
            Refusal::Absent => 11,
        }
    }

    fn place(self) -> usize {
        match self {
            Refusal::Record(i) => i,
            Refusal::Channel(c) => c,
            Refusal::Line(k) | Refusal::Wide(k) | Refusal::Clash(k) => k,
            Refusal::Length
            | Refusal::Mark
            | Refusal::Counts
            | Refusal::Distances
            | Refusal::Absent
            | Refusal::TableTooShort => 0,
        }
    }

    ghost never_zero = { number_some };

    ghost told_apart = { refusals_apart };
}

// `?` needs one for each type of refusal: there is no blanket impl of a foreign trait.
impl From<Stopped> for Refusal {
    ghost from_gives = { λ stopped refusal. refusal ≡ stopped_as stopped };

    fn from(stopped: Stopped) -> Refusal {
        match stopped.why {
            Stop::Clash => Refusal::Clash(stopped.at),
            Stop::Wide => Refusal::Wide(stopped.at),
        }
    }
}

impl fmt::Display for Refusal {
    fn fmt<W: fmt::Write>(&self, f: &mut fmt::Formatter<W>) -> fmt::Result {
        match self {
            Refusal::Length => f.write_str("the length is below 16 or above 3,104"),
            Refusal::Mark => f.write_str("the last four bytes are wrong"),
            Refusal::Counts => f.write_str("a count is over its limit, or trailer byte 9 is not 0"),
            Refusal::Distances => f.write_str("a distance or the length disagrees"),
            Refusal::Record(i) => write!(f, "unit record {i} is out of range"),
            Refusal::Channel(c) => write!(f, "channel {c} names no unit record"),
            Refusal::Line(k) => write!(f, "line {k} has a wrong code, operand or last byte"),
            Refusal::Absent => f.write_str("there is no such line or channel"),
            Refusal::TableTooShort => f.write_str("the lent table is too short"),
            Refusal::Wide(k) => write!(f, "line {k} passes the limit"),
            Refusal::Clash(k) => write!(f, "line {k} clashes"),
        }
    }
}

impl Error for Refusal {}
