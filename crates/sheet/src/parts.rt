// The parts of a sheet, by their numbers.
ghost use Rattle.std.specs.Prelude.{◌≡◌, map, ◌*◌, ◌<◌, length, take, drop};
ghost use Rattle.whole.specs.Bytes.{signed};
ghost use Rattle.sheet_rules.specs.Shape.{unit_record, channel, line};
ghost use Rattle.sheet_rules.specs.Formed.{Laid, Formed};
ghost use Rattle.sheet.specs.Views.{shape_view, line_view};

use crate::line::Line;
use crate::shape::Shape;

/// Bytes that are as long as the parts of their shape.
#[derive(Clone, Copy)]
pub struct Parts<'a> {
    pub bytes: &'a [u8],
    pub shape: Shape,
    ghost laid: { Laid (shape_view shape) bytes.now },
}

/// A well-formed sheet.
#[derive(Clone, Copy)]
pub struct Sheet<'a> {
    pub parts: Parts<'a>,
    ghost formed: { Formed (shape_view parts.shape) parts.bytes.now },
}

/// The exponents that bytes hold.
pub fn exponents(bytes: &[u8], out: &mut [i32])
    requires { length out.old ≡ length bytes.now }
    ensures { out.new ≡ map signed bytes.now }
{
    // By index: in a `for` over `zip` of `iter_mut` an invariant can't name the slice that is written.
    for (i, &b) in bytes.iter().enumerate() {
        out[i] = whole::bytes::exponent(b);
    }
}

// A part of the bytes is named by its ends: parts differ in size.
impl Parts<'_> {
    /// The bytes of unit record i.
    pub fn record_bytes(&self, i: usize) -> &[u8]
        requires { i < self.now.shape.records }
        ensures { result.now ≡ take self.now.shape.columns (drop (self.now.shape.columns * i) self.now.bytes.now) }
    {
        let from = self.shape.columns * i;
        &self.bytes[from..from + self.shape.columns]
    }

    /// Unit record i, as a row.
    pub fn record(&self, i: usize, out: &mut [i32])
        requires { (i < self.now.shape.records) × (length out.old ≡ self.now.shape.columns) }
        ensures { out.new ≡ unit_record (shape_view self.now.shape) self.now.bytes.now i }
    {
        exponents(self.record_bytes(i), out)
    }

    /// The record of channel c.
    pub fn channel(&self, c: usize) -> usize
        requires { c < self.now.shape.channels }
        ensures { result ≡ channel (shape_view self.now.shape) self.now.bytes.now c }
    {
        usize::from(self.bytes[self.shape.channels_at() + c])
    }

    /// Line k.
    pub fn line(&self, k: usize) -> Line
        requires { k < self.now.shape.lines }
        ensures { line_view result ≡ line (shape_view self.now.shape) self.now.bytes.now k }
    {
        Line::read(self.bytes, self.shape.lines_at() + 4 * k)
    }
}
