// Checks 1 to 7. Before check 4 there are no `Parts`, and what checks a line or a count needs no more of a sheet than its shape.
ghost use Rattle.std.specs.Prelude.{◌≡◌, true, map, ◌≤◌, ◌<◌, length, IfOk, Ok};
ghost use Rattle.whole.specs.Bytes.{signed};
ghost use Rattle.whole.specs.Place.{found_of};
ghost use Rattle.row.specs.Row.{all_zero};
ghost use Rattle.row.specs.Requires.{all_within};
ghost use Rattle.sheet_rules.specs.Shape.{shape_of, unit_record};
ghost use Rattle.sheet_rules.specs.Good.{good_record, good_line, good_operands};
ghost use Rattle.sheet_rules.specs.Checks.{good_mark, good_counts, good_distances, first_record, first_channel, first_line, checked_sheet};
ghost use Rattle.sheet.specs.Views.{shape_view, line_view};
ghost use Rattle.sheet.specs.Operations.{code_for};
ghost use Rattle.sheet.specs.Refusals.{checked_of};

use crate::line::Line;
use crate::operation::Operation;
use crate::parts::{Parts, Sheet};
use crate::refusal::Refusal;
use crate::shape::Shape;

// Whether the last four bytes are right.
fn good_mark(s: &[u8]) -> bool
    requires { 16 ≤ length s.now }
    ensures { result ≡ good_mark s.now }
{
    s.ends_with(b"CSH1")
}

fn good_counts(s: &[u8], shape: Shape) -> bool
    requires { 16 ≤ length s.now }
    ensures { result ≡ good_counts s.now (shape_view shape) }
{
    let t = s.len() - 16;
    shape.unknowns <= 24
        && shape.records <= 64
        && shape.channels <= 16
        && shape.lines <= 256
        // One byte, and nothing plainer.
        && s[t + 9] == 0
}

fn good_distances(s: &[u8], shape: Shape) -> bool
    requires { (16 ≤ length s.now) × (good_counts s.now (shape_view shape) ≡ true) × (shape.columns ≤ 64) }
    ensures { result ≡ good_distances s.now (shape_view shape) }
{
    let t = s.len() - 16;
    let lines = 16 + 4 * shape.lines;
    let channels = lines + shape.channels;
    let records = channels + shape.columns * shape.records;
    let first = whole::bytes::number_at(s, t);
    first == records
        && whole::bytes::number_at(s, t + 2) == channels
        && whole::bytes::number_at(s, t + 4) == lines
        && first == s.len()
}

// "from −64 to 64"
fn in_range(bytes: &[u8]) -> bool
    ensures { result ≡ all_within 64 (map signed bytes.now) }
{
    bytes
        .iter()
        .all(|&b| whole::bytes::exponent(b).unsigned_abs() <= 64)
}

fn all_zero(bytes: &[u8]) -> bool
    ensures { result ≡ all_zero (map signed bytes.now) }
{
    bytes.iter().all(|&b| b == 0)
}

fn good_record(parts: &Parts, i: usize) -> bool
    requires { i < parts.now.shape.records }
    ensures { result ≡ good_record (shape_view parts.now.shape) (unit_record (shape_view parts.now.shape) parts.now.bytes.now i) }
{
    let row = parts.record_bytes(i);
    let shape = parts.shape;
    in_range(row) && all_zero(&row[shape.unknowns..shape.unknown_columns])
}

fn first_record(parts: &Parts) -> Option<usize>
    ensures { first_record parts.now.bytes.now (shape_view parts.now.shape) ≡ found_of result }
{
    (0..parts.shape.records).find(|&i| !good_record(parts, i))
}

fn first_channel(parts: &Parts) -> Option<usize>
    ensures { first_channel parts.now.bytes.now (shape_view parts.now.shape) ≡ found_of result }
{
    (0..parts.shape.channels).find(|&c| parts.shape.records <= parts.channel(c))
}

// "a, b" of line k, by its operation.
fn good_operands(shape: Shape, k: usize, operation: Operation, a: usize, b: usize) -> bool
    ensures { result ≡ good_operands (shape_view shape) k (code_for (Ok operation)) a b }
{
    match operation {
        Operation::Number => true,
        Operation::Reading => a < shape.channels && b == 0,
        Operation::Root => a < k && b < shape.unknowns,
        Operation::Stated => a < k && b < shape.records,
        Operation::Add
        | Operation::Subtract
        | Operation::Multiply
        | Operation::Divide
        | Operation::LessThan => a < k && b < k,
    }
}

fn good_line(shape: Shape, k: usize, line: Line) -> bool
    ensures { result ≡ good_line (shape_view shape) k (line_view line) }
{
    let Ok(operation) = Operation::try_from(line.code) else {
        return false;
    };
    line.last == 0
        && good_operands(
            shape,
            k,
            operation,
            usize::from(line.a),
            usize::from(line.b),
        )
}

fn first_line(parts: &Parts) -> Option<usize>
    ensures { first_line parts.now.bytes.now (shape_view parts.now.shape) ≡ found_of result }
{
    (0..parts.shape.lines).find(|&k| !good_line(parts.shape, k, parts.line(k)))
}

/// The sheet, or which check refuses it.
#[tactic(auto, unfolding(sheet_rules::specs::Checks::checked_sheet))]
pub fn check_sheet(s: &[u8]) -> Result<Sheet<'_>, Refusal>
    ensures checked { checked_sheet s.now ≡ checked_of result }
    ensures sheet { IfOk result (λ v. (v.parts.bytes.now ≡ s.now) × (shape_view v.parts.shape ≡ shape_of s.now)) }
{
    if !(16..=3104).contains(&s.len()) {
        return Err(Refusal::Length);
    }
    if !good_mark(s) {
        return Err(Refusal::Mark);
    }
    let shape = Shape::read(s);
    if !good_counts(s, shape) {
        return Err(Refusal::Counts);
    }
    if !good_distances(s, shape) {
        return Err(Refusal::Distances);
    }
    let parts = Parts { bytes: s, shape };
    if let Some(i) = first_record(&parts) {
        return Err(Refusal::Record(i));
    }
    if let Some(c) = first_channel(&parts) {
        return Err(Refusal::Channel(c));
    }
    if let Some(k) = first_line(&parts) {
        return Err(Refusal::Line(k));
    }
    Ok(Sheet { parts })
}
