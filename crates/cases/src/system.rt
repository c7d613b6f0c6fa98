// A system: V and the equations' numbers, for the elimination call.
ghost use Rattle.std.specs.Prelude.{◌≤◌, IsTrue};

use crate::answer::{Heard, Table};
use crate::pack::{self, Header, Kind, NotAPack, Stop};
use elimination::call;
use std::fmt;
use std::io::Read;

/// A system, and the table that its call is lent.
#[derive(Debug, Drop)]
pub struct System<'a> {
    unknowns: usize,
    numbers: &'a [i32],
    table: &'a mut [i32],
}

/// Whether a header is one of a system, within its limits.
fn is_system(header: &Header) -> bool
    ensures { IsTrue result → (header.now.room ≤ 1024) × (4 ≤ header.now.length) × (header.now.length ≤ 16384) }
{
    header.kind == Kind::System
        && header.room <= 1024
        && header.questions == 0
        && (4..=16384).contains(&header.length)
        && header.length % 4 == 0
}

impl<'a> System<'a> {
    /// The system that follows its header: its body passes through the bytes.
    pub fn read(
        input: &mut impl Read,
        header: Header,
        bytes: &mut [u8; 16384],
        numbers: &'a mut [i32; 4095],
        table: &'a mut [i32; 1024],
    ) -> Result<System<'a>, Stop> {
        if !is_system(&header) {
            return Err(Stop::from(NotAPack::Header));
        }
        let body = pack::body(input, bytes, header.length)?;
        let [unknowns, rest @ ..] = body.as_chunks::<4>().0 else {
            unreachable!()
        };
        for (number, &n) in numbers.iter_mut().zip(rest) {
            *number = i32::from_le_bytes(n);
        }
        Ok(System {
            // By `as`: std has no `From<u32>` for `usize`, and `try_from` would add a failure that can't be.
            unknowns: u32::from_le_bytes(*unknowns) as usize,
            numbers: &numbers[..rest.len()],
            table: &mut table[..header.room],
        })
    }

    /// Writes the line of the elimination's answer. Before the call, number i of its table is 7000 + i.
    pub fn answer_line(self, line: &mut impl fmt::Write) -> fmt::Result {
        let System {
            unknowns,
            numbers,
            table,
        } = self;
        for (number, start) in table.iter_mut().zip(7000..) {
            *number = start;
        }
        let heard = Heard(call::eliminate(unknowns, numbers, table));
        write!(line, "E {heard} {}\n", Table(table))
    }
}
