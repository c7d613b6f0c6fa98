// A line: the rows that the line table names for it.
ghost use Rattle.std.specs.Prelude.{◌≡◌, ◌+◌, ◌<◌, length};
ghost use Rattle.sheet_rules.specs.Shape.{line_at};
ghost use Rattle.sheet.specs.Views.{line_view};
ghost use Rattle.sheet.specs.Store.{UnitSum, EquationSum};

use crate::operation::Operation;

/// "Lines, N of 4 bytes: code, a, b, and a last byte that is 0."
#[derive(Clone, Copy, Debug, PartialEq, Eq)]
pub struct Line {
    /// A byte: the rules speak of every byte.
    pub code: u8,
    pub a: u8,
    pub b: u8,
    pub last: u8,
}

/// Where a row comes from: all exponents 0, an earlier line, a channel's record, a unit record, an unknown.
#[derive(Clone, Copy, Debug, PartialEq, Eq)]
pub enum Source {
    /// Not the want of a row: the row of zeros.
    Nothing,
    Line(usize),
    Channel(usize),
    Record(usize),
    Unknown(usize),
}

/// A row, or one row less a multiple of another.
#[derive(Clone, Copy, Debug, PartialEq, Eq)]
pub enum Sum {
    Alone(Source),
    Less(Source, i32, Source),
}

impl Line {
    /// The line at a place: so its callers have it.
    pub fn read(s: &[u8], at: usize) -> Line
        requires { at + 3 < length s.now }
        ensures { line_view result ≡ line_at s.now at }
    {
        Line {
            code: s[at],
            a: s[at + 1],
            b: s[at + 2],
            last: s[at + 3],
        }
    }

    /// The column "unit of this line".
    pub fn unit(self) -> Sum
        ensures { UnitSum (line_view self) result }
    {
        let a = usize::from(self.a);
        let b = usize::from(self.b);
        match Operation::try_from(self.code) {
            Ok(Operation::Reading) => Sum::Alone(Source::Channel(a)),
            Ok(Operation::Add | Operation::Subtract) => Sum::Alone(Source::Line(a)),
            Ok(Operation::Multiply) => Sum::Less(Source::Line(a), -1, Source::Line(b)),
            Ok(Operation::Divide) => Sum::Less(Source::Line(a), 1, Source::Line(b)),
            Ok(Operation::Root) => Sum::Alone(Source::Unknown(b)),
            Ok(Operation::Stated) => Sum::Alone(Source::Record(b)),
            Ok(Operation::Number | Operation::LessThan) | Err(_) => Sum::Alone(Source::Nothing),
        }
    }

    /// The column "equation".
    pub fn equation(self) -> Option<Sum>
        ensures { EquationSum (line_view self) result }
    {
        let a = Source::Line(usize::from(self.a));
        let b = usize::from(self.b);
        match Operation::try_from(self.code).ok()? {
            Operation::Add | Operation::Subtract | Operation::LessThan => {
                Some(Sum::Less(a, 1, Source::Line(b)))
            }
            Operation::Root => Some(Sum::Less(a, 2, Source::Unknown(b))),
            Operation::Stated => Some(Sum::Less(a, 1, Source::Record(b))),
            Operation::Number | Operation::Reading | Operation::Multiply | Operation::Divide =>
                None,
        }
    }
}
