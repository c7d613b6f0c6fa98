// One round.
ghost use Rattle.std.specs.Prelude.{◌≡◌, true, ◌<◌, length};
ghost use Rattle.whole.specs.Division.{quotient};
ghost use Rattle.row.specs.Row.{all_in_limit};
ghost use Rattle.elimination_rules.specs.Round.{upright as upright_row, turn as rule_turn, round as rule_round};
ghost use Rattle.elimination.specs.Requires.{ReadyLists, Picked};
ghost use Rattle.elimination.specs.Room.{Ready, SameRoom};
ghost use Rattle.elimination.specs.Divided.{Divided};
ghost use Rattle.elimination.specs.Views.{turn_of};

use crate::progress::Stop;
use crate::room::Elimination;
use whole::number::PastLimit;

/// What a round comes to; a solved one has the free word.
#[derive(Clone, Copy, Debug, PartialEq, Eq)]
pub enum Turned {
    Holds,
    Solved(u64),
    Again,
}

/// "If its exponent p is negative, negate the whole equation".
pub fn upright(e: &mut [i32], j: usize)
    requires { (all_in_limit e.old ≡ true) × (j < length e.old) }
    ensures { e.new ≡ upright_row e.old j }
{
    if e[j] < 0 {
        row::change::negate(e);
    }
}

// The rounds are functions of slices, and the methods lend them the room. What calls itself is never inlined: if it took the room, LLVM
// would keep the room in memory, and know none of its widths.
/// e becomes the remainders by its number at j, made positive, which is returned, and q the quotients.
pub fn divide_by(e: &mut [i32], q: &mut [i32], j: usize) -> i32
    requires { (all_in_limit e.old ≡ true) × (length q.old ≡ length e.old) × Picked (length e.old) j e.old }
    ensures { Divided (upright_row e.old j) j result e.new q.new }
{
    upright(e, j);
    let p = e[j];
    row::change::divide(e, q, p);
    p
}

/// The round that picked j.
pub fn turn(
    table: &mut [i32],
    e: &mut [i32],
    q: &mut [i32],
    u: usize,
    v: usize,
    free: u64,
    j: usize,
) -> Result<Turned, Stop>
    requires { ReadyLists u v table.old e.old q.old × Picked u j e.old }
    ensures { rule_turn quotient u v table.old (upright_row e.old j) free j ≡ turn_of result table.new e.new }
{
    let p = divide_by(e, q, j);
    if row::test::all_zero(&e[..u]) {
        if !row::test::all_zero(&e[u..]) {
            return Err(Stop::Clash);
        }
        // Not by `?`: that the last round is judged too shows where this one value is edited.
        if let Err(PastLimit) = crate::table::swap_rows(table, q, j, v) {
            return Err(Stop::Wide);
        }
        return Ok(Turned::Solved(whole::word::without(free, j)));
    }
    e[j] = p;
    q[j] = 0;
    crate::table::swap_rows(table, q, j, v)?;
    Ok(Turned::Again)
}

/// One round of an equation over the first u columns' unknowns.
pub fn round(
    table: &mut [i32],
    e: &mut [i32],
    q: &mut [i32],
    u: usize,
    v: usize,
    free: u64,
) -> Result<Turned, Stop>
    requires { ReadyLists u v table.old e.old q.old }
    ensures { rule_round quotient u v table.old e.old free ≡ turn_of result table.new e.new }
{
    match row::smallest::smallest(&e[..u]) {
        Some(picked) => turn(table, e, q, u, v, free, picked.column),
        None if row::test::all_zero(&e[u..]) => Ok(Turned::Holds),
        None => Err(Stop::Clash),
    }
}

// `Ready` is asked for, and is no invariant of the room: an equation is judged after it was replaced.
impl Elimination<'_> {
    /// The equation, with its number at j made positive, is divided by that number, which is returned: `equation` becomes the
    /// remainders, and `quotients` the quotients.
    pub fn divide_by(&mut self, j: usize) -> i32
        requires { (all_in_limit self.old.equation.now ≡ true) × Picked (length self.old.equation.now) j self.old.equation.now }
        ensures divided { Divided (upright_row self.old.equation.now j) j result self.new.equation.now self.new.quotients.now }
        ensures table { self.new.table.now ≡ self.old.table.now }
        ensures sums { self.new.sums.now ≡ self.old.sums.now }
        ensures room { SameRoom self.old self.new }
    {
        let equation = &mut *self.equation;
        let quotients = &mut *self.quotients;
        divide_by(equation, quotients, j)
    }

    /// The round that picked j.
    pub fn turn(&mut self, free: u64, j: usize) -> Result<Turned, Stop>
        requires { Ready self.old × Picked self.old.unknown_columns j self.old.equation.now }
        ensures turned { rule_turn quotient self.old.unknown_columns self.old.unknowns self.old.table.now (upright_row self.old.equation.now j) free j ≡ turn_of result self.new.table.now self.new.equation.now }
        ensures sums { self.new.sums.now ≡ self.old.sums.now }
        ensures room { SameRoom self.old self.new }
    {
        let u = self.unknown_columns;
        let v = self.unknowns;
        let table = &mut *self.table;
        let equation = &mut *self.equation;
        let quotients = &mut *self.quotients;
        turn(table, equation, quotients, u, v, free, j)
    }

    /// One round.
    pub fn round(&mut self, free: u64) -> Result<Turned, Stop>
        requires { Ready self.old }
        ensures turned { rule_round quotient self.old.unknown_columns self.old.unknowns self.old.table.now self.old.equation.now free ≡ turn_of result self.new.table.now self.new.equation.now }
        ensures sums { self.new.sums.now ≡ self.old.sums.now }
        ensures room { SameRoom self.old self.new }
    {
        let u = self.unknown_columns;
        let v = self.unknowns;
        let table = &mut *self.table;
        let equation = &mut *self.equation;
        let quotients = &mut *self.quotients;
        round(table, equation, quotients, u, v, free)
    }
}
