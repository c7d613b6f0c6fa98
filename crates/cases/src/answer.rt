// An answer as its line has it.
use elimination::progress::Progress;
use elimination::refusal::Refuses;
use std::fmt;

/// An answer as four numbers: number, place, rounds and mask. An accepted one has number and place 0, and a refusal rounds and mask.
#[derive(Clone, Copy)]
pub struct Heard<R>(pub Result<Progress, R>);

impl<R: Refuses> fmt::Display for Heard<R> {
    fn fmt<W: fmt::Write>(&self, f: &mut fmt::Formatter<W>) -> fmt::Result {
        match self.0 {
            Ok(done) => write!(f, "0 0 {} {}", done.rounds, done.free),
            Err(refusal) => write!(f, "{} {} 0 0", refusal.number(), refusal.place()),
        }
    }
}

/// The word T and each number of a table.
#[derive(Clone, Copy, Debug)]
pub struct Table<'a>(pub &'a [i32]);

impl fmt::Display for Table<'_> {
    fn fmt<W: fmt::Write>(&self, f: &mut fmt::Formatter<W>) -> fmt::Result {
        f.write_str("T")?;
        for number in self.0 {
            write!(f, " {number}")?;
        }
        Ok(())
    }
}
