// The units of a sheet's lines, as rows.
ghost use Rattle.std.specs.Prelude.{◌≡◌, map, ◌+◌, ◌<◌, length, OnOk, OnErr};
ghost use Rattle.row.specs.Judged.{judged, judged_of};
ghost use Rattle.sheet_rules.specs.Lines.{unit_at, equations_at};
ghost use Rattle.sheet.specs.Views.{shape_view};
ghost use Rattle.sheet.specs.Sheets.{shape_in, bytes_in, source_in, sum_in};
ghost use Rattle.sheet.specs.Steps.{stated_of};
ghost use Rattle.sheet.specs.Store.{Stored, Sourced, Summed};

use crate::line::{Source, Sum};
use crate::parts::Sheet;
use crate::shape::Shape;
use whole::number::PastLimit;

/// The unit of line k goes into the store. Only `give` and `read` know how units are stored, end to end. They ask less than `Known` and
/// `Units` hold (nothing of the bytes), so they stay functions of slices.
pub fn give(store: &mut [i32], s: &[u8], shape: Shape, k: usize, unit: &[i32])
    requires { Stored (shape_view shape) s.now k store.old × (k < shape.lines) × (length unit.now ≡ shape.columns) × (unit.now ≡ unit_at (shape_view shape) s.now k) }
    ensures { Stored (shape_view shape) s.now (k + 1) store.new }
{
    let from = shape.columns * k;
    row::change::copy(unit, &mut store[from..from + shape.columns]);
}

/// The unit of line i, of the first k.
pub fn read(store: &[i32], s: &[u8], shape: Shape, k: usize, i: usize, out: &mut [i32])
    requires { Stored (shape_view shape) s.now k store.now × (i < k) × (length out.old ≡ shape.columns) }
    ensures { out.new ≡ unit_at (shape_view shape) s.now i }
{
    let from = shape.columns * i;
    row::change::copy(&store[from..from + shape.columns], out);
}

/// The units of a sheet's first lines, to be read. Apart from `Units`, as a slice is from one that is lent to be written.
#[derive(Clone, Copy)]
pub struct Known<'a> {
    pub sheet: Sheet<'a>,
    pub store: &'a [i32],
    pub done: usize,
    ghost stored: { Stored (shape_in sheet) (bytes_in sheet) done store.now },
}

impl Known<'_> {
    /// The row of a source.
    pub fn load(&self, source: Source, out: &mut [i32])
        requires { Sourced (shape_in self.now.sheet) self.now.done source × (length out.old ≡ self.now.sheet.parts.shape.columns) }
        ensures { out.new ≡ source_in self.now.sheet self.now.done source }
    {
        let parts = self.sheet.parts;
        match source {
            Source::Nothing => row::change::clear(out),
            Source::Line(i) => read(self.store, parts.bytes, parts.shape, self.done, i, out),
            Source::Channel(c) => parts.record(parts.channel(c), out),
            Source::Record(i) => parts.record(i, out),
            Source::Unknown(j) => row::change::itself(out, j),
        }
    }

    /// The row of a sum.
    pub fn work_out(&self, sum: Sum, out: &mut [i32], other: &mut [i32]) -> Result<(), PastLimit>
        requires { Summed (shape_in self.now.sheet) self.now.done sum × (length out.old ≡ self.now.sheet.parts.shape.columns) × (length other.old ≡ self.now.sheet.parts.shape.columns) }
        ensures { judged (sum_in self.now.sheet self.now.done sum) ≡ judged_of result out.new }
    {
        match sum {
            Sum::Alone(first) => {
                self.load(first, out);
                if row::test::all_in_limit(out) {
                    Ok(())
                } else {
                    Err(PastLimit)
                }
            }
            Sum::Less(first, times, second) => {
                self.load(first, out);
                self.load(second, other);
                row::change::less(out, other, times)
            }
        }
    }

    /// The equation of line k. True: it has one. False is no failure, and the row is no answer: it is a room that is lent.
    pub fn equation(&self, k: usize, e: &mut [i32], other: &mut [i32]) -> Result<bool, PastLimit>
        requires { (k < self.now.done) × (length e.old ≡ self.now.sheet.parts.shape.columns) × (length other.old ≡ self.now.sheet.parts.shape.columns) }
        ensures { map judged (equations_at (shape_in self.now.sheet) (bytes_in self.now.sheet) k) ≡ stated_of result e.new }
    {
        let Some(sum) = self.sheet.parts.line(k).equation() else {
            return Ok(false);
        };
        self.work_out(sum, e, other)?;
        Ok(true)
    }
}

/// The same, with the store that they go into.
#[derive(Drop)]
pub struct Units<'a> {
    pub sheet: Sheet<'a>,
    pub store: &'a mut [i32],
    pub done: usize,
    ghost stored: { Stored (shape_in sheet) (bytes_in sheet) done store.now },
}

impl Units<'_> {
    /// The units so far.
    pub fn known(&self) -> Known<'_>
        ensures sheet { result.sheet ≡ self.now.sheet }
        ensures store { result.store.now ≡ self.now.store.now }
        ensures done { result.done ≡ self.now.done }
    {
        Known {
            sheet: self.sheet,
            store: self.store,
            done: self.done,
        }
    }

    /// The unit of the next line, worked out and stored.
    pub fn add_next(&mut self, unit: &mut [i32], other: &mut [i32]) -> Result<(), PastLimit>
        requires { (self.old.done < self.old.sheet.parts.shape.lines) × (length unit.old ≡ self.old.sheet.parts.shape.columns) × (length other.old ≡ self.old.sheet.parts.shape.columns) }
        ensures judged { judged (unit_at (shape_in self.old.sheet) (bytes_in self.old.sheet) self.old.done) ≡ judged_of result unit.new }
        ensures done { OnOk result (self.new.done ≡ self.old.done + 1) }
        ensures refused { OnErr result (self.new.done ≡ self.old.done) }
        ensures sheet { self.new.sheet ≡ self.old.sheet }
        ensures store { self.new.store.ghost_name ≡ self.old.store.ghost_name }
        ensures long { length self.new.store.now ≡ length self.old.store.now }
    {
        let parts = self.sheet.parts;
        let line = parts.line(self.done);
        self.known().work_out(line.unit(), unit, other)?;
        give(self.store, parts.bytes, parts.shape, self.done, unit);
        self.done += 1;
        Ok(())
    }
}
