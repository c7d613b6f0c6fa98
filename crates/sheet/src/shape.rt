// How many parts a sheet has, and where they begin.
ghost use Rattle.std.specs.Prelude.{◌≡◌, ◌≤◌, ◌<◌, length};
ghost use Rattle.sheet_rules.specs.Shape.{shape_of, lines_at as rule_lines_at, channels_at as rule_channels_at};
ghost use Rattle.sheet.specs.Views.{shape_view};

/// How many there are of each, and of how many columns the rows are.
#[derive(Clone, Copy, Debug, PartialEq, Eq)]
pub struct Shape {
    pub unknown_columns: usize,
    pub columns: usize,
    pub unknowns: usize,
    pub records: usize,
    pub channels: usize,
    pub lines: usize,
}

impl Shape {
    /// The counts of the trailer. One fact is asked for: no type for it.
    pub fn read(s: &[u8]) -> Shape
        requires { 16 ≤ length s.now }
        ensures { shape_view result ≡ shape_of s.now }
    {
        let t = s.len() - 16;
        Shape {
            unknown_columns: 24,
            columns: 32,
            unknowns: usize::from(s[t + 6]),
            records: usize::from(s[t + 7]),
            channels: usize::from(s[t + 8]),
            lines: whole::bytes::number_at(s, t + 10),
        }
    }

    /// Where the channel bytes begin.
    pub fn channels_at(self) -> usize
        requires { rule_lines_at (shape_view self) < 65536 }
        ensures { result ≡ rule_channels_at (shape_view self) }
    {
        self.columns * self.records
    }

    /// Where the lines begin.
    pub fn lines_at(self) -> usize
        requires { rule_lines_at (shape_view self) < 65536 }
        ensures { result ≡ rule_lines_at (shape_view self) }
    {
        self.channels_at() + self.channels
    }
}
