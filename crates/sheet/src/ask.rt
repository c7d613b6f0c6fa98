// What is asked of a sheet, and its answer.
ghost use Rattle.std.specs.Prelude.{◌≡◌, true, ◌*◌, ◌≤◌, ◌<◌, length, OnOk};
ghost use Rattle.std.specs.Result.{ForOk};
ghost use Rattle.row.specs.Row.{all_in_limit};
ghost use Rattle.row.specs.Judged.{judged, judged_of};
ghost use Rattle.row.specs.Table.{replaced};
ghost use Rattle.elimination.specs.Heard.{answer_of};
ghost use Rattle.elimination.specs.Views.{verdict_of};
ghost use Rattle.sheet_rules.specs.Work.{solved};
ghost use Rattle.sheet_rules.specs.Calls.{put_in};
ghost use Rattle.sheet.specs.Views.{shape_view};
ghost use Rattle.sheet.specs.Sheets.{shape_in, bytes_in, source_in};
ghost use Rattle.sheet.specs.Store.{Stored, Sourced};
ghost use Rattle.sheet.specs.Refusals.{number_of, place_of};
ghost use Rattle.sheet.specs.Rooms.{SameWork};
ghost use Rattle.sheet.specs.Asked.{is_there, room_for, Askable, answer_on};

use crate::line::Source;
use crate::parts::Sheet;
use crate::refusal::Refusal;
use crate::room::Work;
use crate::shape::Shape;
use crate::units;
use elimination::progress::{Progress, Stopped};
use whole::number::PastLimit;

/// What is asked of a sheet: its table, or the unit of a line or of a channel.
#[derive(Clone, Copy, Debug, PartialEq, Eq)]
pub enum Question {
    Table,
    Line(usize),
    Channel(usize),
}

impl Question {
    // Nothing else of a sheet than its shape is needed.
    /// Whether there is such a line or channel.
    pub fn is_there(self, shape: Shape) -> bool
        ensures { result ≡ is_there (shape_view shape) self }
    {
        match self {
            Question::Table => true,
            Question::Line(k) => k < shape.lines,
            Question::Channel(c) => c < shape.channels,
        }
    }

    /// How many numbers the lent table has to have.
    pub fn room(self, shape: Shape) -> usize
        requires { shape.columns * shape.unknowns < 65536 }
        ensures { result ≡ room_for (shape_view shape) self }
    {
        match self {
            Question::Table => shape.columns * shape.unknowns,
            Question::Line(_) | Question::Channel(_) => shape.columns,
        }
    }
}

/// A sheet with the verdict on it. Where that accepts, the store has the units of all lines, and the table is the final one; where
/// it refuses, any slices do. A lifetime for each, so that a caller may have each from elsewhere.
#[derive(Clone, Copy)]
pub struct Worked<'a, 'b, 'c> {
    pub sheet: Sheet<'a>,
    pub verdict: Result<Progress, Stopped>,
    pub store: &'b [i32],
    pub table: &'c [i32],
    ghost solved: { solved (shape_in sheet) (bytes_in sheet) ≡ verdict_of verdict table.now },
    ghost stored: { ForOk verdict (λ _. Stored (shape_in sheet) (bytes_in sheet) sheet.parts.shape.lines store.now) },
}

impl Worked<'_, '_, '_> {
    /// A row with the final table put in, in the lent table. A result past the limit is reported at the place.
    fn put_in(
        &self,
        unit: &[i32],
        place: usize,
        sums: &mut [i64],
        other: &mut [i32],
        table: &mut [i32],
    ) -> Result<Progress, Refusal>
        requires limit { all_in_limit unit.now ≡ true }
        requires rows { (length unit.now ≡ self.now.sheet.parts.shape.columns) × (length sums.old ≡ self.now.sheet.parts.shape.columns) × (length other.old ≡ self.now.sheet.parts.shape.columns) }
        requires room { self.now.sheet.parts.shape.columns ≤ length table.old }
        ensures { put_in (shape_in self.now.sheet) place unit.now table.old (solved (shape_in self.now.sheet) (bytes_in self.now.sheet)) ≡ answer_of number_of place_of result table.new }
    {
        let done = self.verdict?;
        let shape = self.sheet.parts.shape;
        row::add::replace(
            sums,
            self.table,
            unit,
            other,
            shape.unknown_columns,
            shape.unknowns,
        )
        .map_err(|_past| Refusal::Wide(place))?;
        row::change::copy(other, table);
        Ok(done)
    }
}

/// The answer to a question, in the lent table, by the verdict on the sheet. Apart from `Work::answer_question`: here store and own
/// table are only read, and but for the lent table no more is written than three rows.
pub fn answer_question(
    worked: &Worked,
    question: Question,
    sums: &mut [i64],
    unit: &mut [i32],
    other: &mut [i32],
    table: &mut [i32],
) -> Result<Progress, Refusal>
    requires asked { Askable (shape_in worked.now.sheet) question table.old }
    requires rows { (length sums.old ≡ worked.now.sheet.parts.shape.columns) × (length unit.old ≡ worked.now.sheet.parts.shape.columns) × (length other.old ≡ worked.now.sheet.parts.shape.columns) }
    ensures { answer_on (shape_in worked.now.sheet) (bytes_in worked.now.sheet) question table.old (solved (shape_in worked.now.sheet) (bytes_in worked.now.sheet)) ≡ answer_of number_of place_of result table.new }
{
    let done = worked.verdict?;
    let parts = worked.sheet.parts;
    let lines = parts.shape.lines;
    match question {
        Question::Table => {
            row::change::copy(worked.table, table);
            Ok(done)
        }
        Question::Line(k) => {
            units::read(worked.store, parts.bytes, parts.shape, lines, k, unit);
            worked.put_in(unit, k, sums, other, table)
        }
        Question::Channel(c) => {
            parts.record(parts.channel(c), unit);
            worked.put_in(unit, lines, sums, other, table)
        }
    }
}

impl Work<'_> {
    /// The row of a source with the final table put in, in the room of the equation.
    fn put_in(&mut self, source: Source) -> Result<(), PastLimit>
        requires there { Sourced (shape_in self.old.units.sheet) self.old.units.done source }
        requires row { all_in_limit (source_in self.old.units.sheet self.old.units.done source) ≡ true }
        requires table { all_in_limit self.old.elimination.table.now ≡ true }
        ensures judged { judged (replaced self.old.elimination.unknown_columns self.old.elimination.unknowns self.old.elimination.table.now (source_in self.old.units.sheet self.old.units.done source)) ≡ judged_of result self.new.elimination.equation.now }
        ensures table { self.new.elimination.table.now ≡ self.old.elimination.table.now }
        ensures done { self.new.units.done ≡ self.old.units.done }
        ensures store { self.new.units.store.now ≡ self.old.units.store.now }
        ensures quotients { self.new.elimination.quotients.now ≡ self.old.elimination.quotients.now }
        ensures other { self.new.other.now ≡ self.old.other.now }
        ensures room { SameWork self.old self.new }
    {
        self.units.known().load(source, self.row);
        self.elimination.replace(self.row)
    }

    /// The answer to a question, in the lent table, by the verdict on the sheet.
    pub fn answer_question(
        &mut self,
        verdict: Result<Progress, Stopped>,
        question: Question,
        table: &mut [i32],
    ) -> Result<Progress, Refusal>
        requires worked { solved (shape_in self.old.units.sheet) (bytes_in self.old.units.sheet) ≡ verdict_of verdict self.old.elimination.table.now }
        requires all_done { OnOk verdict (self.old.units.done ≡ self.old.units.sheet.parts.shape.lines) }
        requires asked { Askable (shape_in self.old.units.sheet) question table.old }
        ensures answer { answer_on (shape_in self.old.units.sheet) (bytes_in self.old.units.sheet) question table.old (solved (shape_in self.old.units.sheet) (bytes_in self.old.units.sheet)) ≡ answer_of number_of place_of result table.new }
        ensures table { self.new.elimination.table.now ≡ self.old.elimination.table.now }
        ensures done { self.new.units.done ≡ self.old.units.done }
        ensures store { self.new.units.store.now ≡ self.old.units.store.now }
        ensures quotients { self.new.elimination.quotients.now ≡ self.old.elimination.quotients.now }
        ensures other { self.new.other.now ≡ self.old.other.now }
        ensures room { SameWork self.old self.new }
    {
        // In the room's own slices: a proof keeps nothing of those that a struct's struct lends.
        let done = verdict?;
        let (source, place) = match question {
            Question::Table => {
                self.elimination.write_table(table);
                return Ok(done);
            }
            Question::Line(k) => (Source::Line(k), k),
            Question::Channel(c) => (Source::Channel(c), self.units.sheet.parts.shape.lines),
        };
        self.put_in(source).map_err(|_past| Refusal::Wide(place))?;
        self.elimination.write_equation(table);
        Ok(done)
    }

    /// The sheet worked, and the answer to a question.
    pub fn answer(&mut self, question: Question, table: &mut [i32]) -> Result<Progress, Refusal>
        requires { (self.old.units.done ≡ 0) × Askable (shape_in self.old.units.sheet) question table.old }
        ensures answer { answer_on (shape_in self.old.units.sheet) (bytes_in self.old.units.sheet) question table.old (solved (shape_in self.old.units.sheet) (bytes_in self.old.units.sheet)) ≡ answer_of number_of place_of result table.new }
        ensures room { SameWork self.old self.new }
    {
        let verdict = self.solve();
        self.answer_question(verdict, question, table)
    }
}
