// One equation, and equations in order.
ghost use Rattle.std.specs.Prelude.{◌≡◌, ℕ, ◌≤◌, ◌<◌, length};
ghost use Rattle.whole.specs.Division.{quotient};
ghost use Rattle.row.specs.Judged.{judged, judged_of};
ghost use Rattle.row.specs.Requires.{Replaceable};
ghost use Rattle.row.specs.Table.{start as start_table, replaced};
ghost use Rattle.elimination_rules.specs.Equation.{solve as rule_solve, one as rule_one, eliminate as rule_eliminate};
ghost use Rattle.elimination_rules.specs.Call.{fuel};
ghost use Rattle.elimination.specs.Requires.{ReadyLists, Countable, smallest_size};
ghost use Rattle.elimination.specs.Room.{Ready, Placed, Lined, SameRoom};
ghost use Rattle.elimination.specs.Views.{outcome_of, verdict_of};

use crate::progress::{Progress, Stop, Stopped};
use crate::room::Elimination;
use crate::round::{Turned, round};
use whole::number::PastLimit;

/// The rounds of the equation, "and repeat with what remains": the smallest unknown's size falls at each call.
pub fn solve(
    table: &mut [i32],
    e: &mut [i32],
    q: &mut [i32],
    u: usize,
    v: usize,
    done: Progress,
) -> Result<Progress, Stop>
    requires { ReadyLists u v table.old e.old q.old × Countable u done.rounds e.old }
    ensures { (n : ℕ) → smallest_size u e.old < n → rule_solve quotient n u v table.old e.old done.rounds done.free ≡ outcome_of result table.new }
{
    match round(table, e, q, u, v, done.free)? {
        Turned::Holds => Ok(done),
        Turned::Solved(free) => Ok(done.after_round(free)),
        Turned::Again => solve(table, e, q, u, v, done.after_round(done.free)),
    }
}

impl Elimination<'_> {
    // `Ready` as in round.rt.
    /// The rounds of the equation.
    #[inline(always)]
    pub fn solve(&mut self, done: Progress) -> Result<Progress, Stop>
        requires { Ready self.old × Countable self.old.unknown_columns done.rounds self.old.equation.now }
        ensures solved { (n : ℕ) → smallest_size self.old.unknown_columns self.old.equation.now < n → rule_solve quotient n self.old.unknown_columns self.old.unknowns self.old.table.now self.old.equation.now done.rounds done.free ≡ outcome_of result self.new.table.now }
        ensures sums { self.new.sums.now ≡ self.old.sums.now }
        ensures room { SameRoom self.old self.new }
    {
        let u = self.unknown_columns;
        let v = self.unknowns;
        let table = &mut *self.table;
        let equation = &mut *self.equation;
        let quotients = &mut *self.quotients;
        solve(table, equation, quotients, u, v, done)
    }

    /// The table becomes each unknown equal to itself.
    #[inline(always)]
    pub fn start(&mut self)
        requires { self.old.unknowns ≤ length self.old.equation.now }
        ensures begins { self.new.table.now ≡ start_table (length self.old.equation.now) self.old.unknowns }
        ensures room { SameRoom self.old self.new }
    {
        let w = self.equation.len();
        let v = self.unknowns;
        crate::table::start(self.table, w, v);
    }

    /// The equation becomes e with each unknown of its first u columns replaced by its row, up to the first number past the limit.
    #[inline(always)]
    fn replace_first(&mut self, e: &[i32], u: usize) -> Result<(), PastLimit>
        requires { Replaceable u self.old.unknowns self.old.table.now e.now self.old.sums.now self.old.equation.now }
        ensures judged { judged (replaced u self.old.unknowns self.old.table.now e.now) ≡ judged_of result self.new.equation.now }
        ensures table { self.new.table.now ≡ self.old.table.now }
        ensures quotients { self.new.quotients.now ≡ self.old.quotients.now }
        ensures room { SameRoom self.old self.new }
    {
        let v = self.unknowns;
        // Named first: of a field lent as `&[T]` a proof keeps only the length.
        let sums = &mut *self.sums;
        let table = &mut *self.table;
        let equation = &mut *self.equation;
        row::add::replace(sums, table, e, equation, u, v)
    }

    /// The equation becomes e with each unknown replaced by its row, up to the first number past the limit.
    #[inline(always)]
    pub fn replace(&mut self, e: &[i32]) -> Result<(), PastLimit>
        requires { Replaceable self.old.unknown_columns self.old.unknowns self.old.table.now e.now self.old.sums.now self.old.equation.now }
        ensures judged { judged (replaced self.old.unknown_columns self.old.unknowns self.old.table.now e.now) ≡ judged_of result self.new.equation.now }
        ensures table { self.new.table.now ≡ self.old.table.now }
        ensures quotients { self.new.quotients.now ≡ self.old.quotients.now }
        ensures room { SameRoom self.old self.new }
    {
        let u = self.unknown_columns;
        self.replace_first(e, u)
    }

    /// One equation: judged, its unknowns replaced, judged again, and solved.
    #[inline(always)]
    pub fn one(&mut self, e: &[i32], done: Progress) -> Result<Progress, Stop>
        requires { Placed self.old e.now done.rounds }
        ensures outcome { rule_one quotient fuel self.old.unknown_columns self.old.unknowns self.old.table.now e.now done.rounds done.free ≡ outcome_of result self.new.table.now }
        ensures room { SameRoom self.old self.new }
    {
        if !row::test::all_in_limit(e) {
            return Err(Stop::Wide);
        }
        let u = self.unknown_columns;
        self.replace_first(e, u)?;
        self.solve(done)
    }

    /// The equations in order, from the start of the table.
    pub fn each(&mut self, es: &[i32], count: usize) -> Result<Progress, Stopped>
        requires { Lined self.old es.now count }
        ensures verdict { rule_eliminate quotient fuel self.old.unknown_columns self.old.unknowns (length self.old.equation.now) count es.now ≡ verdict_of result self.new.table.now }
        ensures room { SameRoom self.old self.new }
    {
        self.start();
        let w = self.equation.len();
        let mut done = Progress::start(self.unknowns);
        // Not by `chunks_exact`: an equation may have no columns.
        for i in 0..count {
            done = self
                .one(&es[i * w..(i + 1) * w], done)
                .map_err(|why| Stopped { why, at: i })?;
        }
        Ok(done)
    }
}
