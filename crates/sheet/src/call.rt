// The calls on a sheet. None of them asks anything of its caller: bad input is refused.
ghost use Rattle.std.specs.Prelude.{◌≡◌, true, ◌*◌, ◌≤◌, length};
ghost use Rattle.elimination.specs.Heard.{answer_of};
ghost use Rattle.sheet_rules.specs.Work.{solved};
ghost use Rattle.sheet_rules.specs.Calls.{check as rule_check, ask_line, ask_channel, lines_part};
ghost use Rattle.sheet.specs.Sheets.{shape_in, bytes_in};
ghost use Rattle.sheet.specs.Refusals.{number_of, place_of};
ghost use Rattle.sheet.specs.Asked.{Askable, answer_on, asked};

use crate::ask::Question;
use crate::check::check_sheet;
use crate::parts::Sheet;
use crate::refusal::Refusal;
use crate::room::Work;
use crate::units::Units;
use elimination::progress::Progress;
use elimination::room::Elimination;

// The work with a table and sums that are lent, and with the rest of the room: a row is 32 numbers, and there are 256 lines. Never
// inlined, for the reason of `elimination::call::work_in`.
#[inline(never)]
fn work_in(
    rows: &mut [i32],
    sums: &mut [i64],
    sheet: &Sheet,
    question: Question,
    table: &mut [i32],
) -> Result<Progress, Refusal>
    requires room { (length rows.old ≡ sheet.now.parts.shape.unknowns * sheet.now.parts.shape.columns) × (length sums.old ≡ sheet.now.parts.shape.columns) }
    requires asked { Askable (shape_in sheet.now) question table.old }
    ensures { answer_on (shape_in sheet.now) (bytes_in sheet.now) question table.old (solved (shape_in sheet.now) (bytes_in sheet.now)) ≡ answer_of number_of place_of result table.new }
{
    let mut store = [0i32; 8192];
    let mut equation = [0i32; 32];
    let mut quotients = [0i32; 32];
    let mut row = [0i32; 32];
    let mut other = [0i32; 32];
    let sheet = *sheet;
    let shape = sheet.parts.shape;
    let units = Units {
        sheet,
        store: &mut store,
        done: 0,
    };
    let elimination = Elimination {
        table: rows,
        equation: &mut equation,
        quotients: &mut quotients,
        sums,
        unknown_columns: shape.unknown_columns,
        unknowns: shape.unknowns,
    };
    let mut work = Work::new(units, elimination, &mut row, &mut other);
    work.answer(question, table)
}

// Owns the room: fixed memory, as firmware has it (there are 24 unknowns). The elimination's own owner stays beside it, since that
// crate knows no sheets.
fn owner(sheet: &Sheet, question: Question, table: &mut [i32]) -> Result<Progress, Refusal>
    requires { Askable (shape_in sheet.now) question table.old }
    ensures { answer_on (shape_in sheet.now) (bytes_in sheet.now) question table.old (solved (shape_in sheet.now) (bytes_in sheet.now)) ≡ answer_of number_of place_of result table.new }
{
    let mut rows = [0i32; 768];
    let mut sums = [0i64; 32];
    let shape = sheet.parts.shape;
    work_in(
        &mut rows[..shape.unknowns * shape.columns],
        &mut sums,
        sheet,
        question,
        table,
    )
}

// The answer to a question, in the lent table.
fn ask(s: &[u8], question: Question, table: &mut [i32]) -> Result<Progress, Refusal>
    ensures { asked s.now question table.old ≡ answer_of number_of place_of result table.new }
{
    let sheet = check_sheet(s)?;
    let shape = sheet.parts.shape;
    if !question.is_there(shape) {
        return Err(Refusal::Absent);
    }
    if table.len() < question.room(shape) {
        return Err(Refusal::TableTooShort);
    }
    owner(&sheet, question, table)
}

/// Works out every unit of the sheet, into a lent table of at least 32V numbers.
pub fn check(s: &[u8], table: &mut [i32]) -> Result<Progress, Refusal>
    ensures { rule_check s.now table.old ≡ answer_of number_of place_of result table.new }
{
    ask(s, Question::Table, table)
}

/// The unit of line k with the final table put in, into a lent table of at least 32 numbers.
pub fn ask_line(s: &[u8], k: usize, table: &mut [i32]) -> Result<Progress, Refusal>
    ensures { ask_line s.now k table.old ≡ answer_of number_of place_of result table.new }
{
    ask(s, Question::Line(k), table)
}

/// The same for the reading of channel c.
pub fn ask_channel(s: &[u8], c: usize, table: &mut [i32]) -> Result<Progress, Refusal>
    ensures { ask_channel s.now c table.old ≡ answer_of number_of place_of result table.new }
{
    ask(s, Question::Channel(c), table)
}

/// The caller's own bytes that hold the lines.
pub fn lines(s: &[u8]) -> &[u8]
    ensures { result.now ≡ lines_part s.now }
{
    let Ok(sheet) = check_sheet(s) else {
        return &s[..0];
    };
    let shape = sheet.parts.shape;
    // By its ends: parts differ in size.
    let from = shape.lines_at();
    &s[from..from + 4 * shape.lines]
}
