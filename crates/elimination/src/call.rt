// The elimination as other bench tools call it.
ghost use Rattle.std.specs.Prelude.{◌≡◌, ◌*◌, ◌≤◌, length};
ghost use Rattle.whole.specs.Division.{quotient};
ghost use Rattle.elimination_rules.specs.Equation.{eliminate as rule_eliminate};
ghost use Rattle.elimination_rules.specs.Call.{fuel, on_verdict, eliminated};
ghost use Rattle.elimination.specs.Room.{Lined, SameRoom};
ghost use Rattle.elimination.specs.Refusals.{number_of, place_of, stopped_number, stopped_place};
ghost use Rattle.elimination.specs.Views.{verdict_of};
ghost use Rattle.elimination.specs.Heard.{answer_of};

use crate::progress::{Progress, Stopped};
use crate::refusal::Refusal;
use crate::room::Elimination;

/// Columns of unknowns, used or not.
const UNKNOWN_COLUMNS: usize = 24;
/// Columns of a row.
const COLUMNS: usize = 32;
/// Numbers of a table that has a row for each column of unknowns.
const TABLE_LENGTH: usize = UNKNOWN_COLUMNS * COLUMNS;

/// The front of the caller's table takes the rows of the own table, where they are accepted.
pub fn publish(
    verdict: Result<Progress, Stopped>,
    own: &[i32],
    table: &mut [i32],
) -> Result<Progress, Stopped>
    requires { length own.now ≤ length table.old }
    ensures { on_verdict table.old (verdict_of verdict own.now) ≡ answer_of stopped_number stopped_place result table.new }
{
    let done = verdict?;
    row::change::copy(own, table);
    Ok(done)
}

impl Elimination<'_> {
    /// The equations in order, and the caller's table written where they are accepted.
    pub fn work(&mut self, es: &[i32], count: usize, table: &mut [i32]) -> Result<Progress, Stopped>
        requires { Lined self.old es.now count × (self.old.unknowns * length self.old.equation.now ≤ length table.old) }
        ensures answer { on_verdict table.old (rule_eliminate quotient fuel self.old.unknown_columns self.old.unknowns (length self.old.equation.now) count es.now) ≡ answer_of stopped_number stopped_place result table.new }
        ensures room { SameRoom self.old self.new }
    {
        let verdict = self.each(es, count);
        publish(verdict, self.table, table)
    }
}

/// The work with an own table and sums that are lent, and with the rest of the room. Never inlined: LLVM would see that these two are
/// apart, and add up by twos, for which the machine has no product.
#[inline(never)]
fn work_in(
    own: &mut [i32],
    sums: &mut [i64],
    v: usize,
    es: &[i32],
    count: usize,
    table: &mut [i32],
) -> Result<Progress, Stopped>
    requires { (length own.old ≡ 32 * v) × (length sums.old ≡ 32) × (v ≤ 24) × (32 * v ≤ length table.old) × (length es.now ≡ count * 32) }
    ensures { on_verdict table.old (rule_eliminate quotient fuel 24 v 32 count es.now) ≡ answer_of stopped_number stopped_place result table.new }
{
    let mut equation = [0i32; COLUMNS];
    let mut quotients = [0i32; COLUMNS];
    let mut elimination = Elimination {
        table: own,
        equation: &mut equation,
        quotients: &mut quotients,
        sums,
        unknown_columns: UNKNOWN_COLUMNS,
        unknowns: v,
    };
    elimination.work(es, count, table)
}

/// Owns the room: fixed memory, as firmware has it. The owner of a sheet's room is in crate `sheet`: this crate knows no sheets.
fn owner(v: usize, es: &[i32], count: usize, table: &mut [i32]) -> Result<Progress, Stopped>
    requires { (v ≤ 24) × (32 * v ≤ length table.old) × (length es.now ≡ count * 32) }
    ensures { on_verdict table.old (rule_eliminate quotient fuel 24 v 32 count es.now) ≡ answer_of stopped_number stopped_place result table.new }
{
    let mut own = [0i32; TABLE_LENGTH];
    let mut sums = [0i64; COLUMNS];
    work_in(&mut own[..COLUMNS * v], &mut sums, v, es, count, table)
}

/// V, equations of 32 numbers end to end, and a lent table of at least 32V numbers.
pub fn eliminate(v: usize, numbers: &[i32], table: &mut [i32]) -> Result<Progress, Refusal>
    ensures { eliminated v numbers.now table.old ≡ answer_of number_of place_of result table.new }
{
    if UNKNOWN_COLUMNS < v {
        return Err(Refusal::TooManyUnknowns);
    }
    if numbers.len() % COLUMNS != 0 {
        return Err(Refusal::UnevenLength);
    }
    let count = numbers.len() / COLUMNS;
    if let Some(equation) = crate::columns::first_used(
        numbers,
        COLUMNS,
        UNKNOWN_COLUMNS,
        v,
        count,
    ) {
        return Err(Refusal::UnusedColumn(equation));
    }
    if table.len() < COLUMNS * v {
        return Err(Refusal::TableTooShort);
    }
    Ok(owner(v, numbers, count, table)?)
}
