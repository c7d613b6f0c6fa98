// The lines of a well-formed sheet in order, each through the elimination.
ghost use Rattle.std.specs.Prelude.{◌≡◌, ◌+◌, ◌≤◌, ◌<◌, OnOk, OnErr, IfErr};
ghost use Rattle.elimination.specs.Views.{outcome_of, verdict_of};
ghost use Rattle.sheet_rules.specs.Work.{line_outcome, solved};
ghost use Rattle.sheet.specs.Sheets.{shape_in, bytes_in};
ghost use Rattle.sheet.specs.Working.{Stepping};
ghost use Rattle.sheet.specs.Rooms.{SameWork};

use crate::room::Work;
use elimination::progress::{Progress, Stop, Stopped};

impl Work<'_> {
    /// The next line: its unit, then its equation through the elimination.
    pub fn work_line(&mut self, done: Progress) -> Result<Progress, Stop>
        requires { (self.old.units.done < self.old.units.sheet.parts.shape.lines) × Stepping (shape_in self.old.units.sheet) done self.old.elimination.table.now }
        ensures outcome { line_outcome (shape_in self.old.units.sheet) (bytes_in self.old.units.sheet) self.old.units.done self.old.elimination.table.now done.rounds done.free ≡ outcome_of result self.new.elimination.table.now }
        ensures done { OnOk result (self.new.units.done ≡ self.old.units.done + 1) }
        ensures refused { OnErr result ((self.old.units.done ≤ self.new.units.done) × (self.new.units.done ≤ self.old.units.done + 1)) }
        ensures room { SameWork self.old self.new }
    {
        let k = self.units.done;
        self.units.add_next(self.row, self.other)?;
        if !self.units.known().equation(k, self.row, self.other)? {
            return Ok(done);
        }
        self.elimination.one(self.row, done)
    }

    /// All lines, from the start of the table.
    pub fn solve(&mut self) -> Result<Progress, Stopped>
        requires { self.old.units.done ≡ 0 }
        ensures verdict { solved (shape_in self.old.units.sheet) (bytes_in self.old.units.sheet) ≡ verdict_of result self.new.elimination.table.now }
        ensures done { OnOk result (self.new.units.done ≡ self.old.units.sheet.parts.shape.lines) }
        ensures refused { IfErr result (λ stopped. (stopped.at ≤ self.new.units.done) × (self.new.units.done ≤ stopped.at + 1)) }
        ensures room { SameWork self.old self.new }
    {
        // Over lines, where `Elimination::each` goes over numbers: the place is the line's.
        self.elimination.start();
        let shape = self.units.sheet.parts.shape;
        let mut done = Progress::start(shape.unknowns);
        for k in 0..shape.lines {
            done = self.work_line(done).map_err(|why| Stopped { why, at: k })?;
        }
        Ok(done)
    }
}
