// Answers a pack of cases from standard input, a line each: tests/PACK.md has both formats.
// A file that is no pack shows on standard error alone. A read or a write that fails ends main with its error.
#![tactic(auto)]

mod answer;
mod line;
mod pack;
mod system;

use crate::line::LineWriter;
use crate::pack::{Header, Stop};
use crate::system::System;
use std::io::{self, Read};

// Each case, until the pack ends or breaks. The bytes hold its body, and then its line, which is at most 12,376 bytes: 2, 4
// words of 21, 2, and 1,024 of 12. So a line is written whole.
fn all(
    rt: &impl Print,
    input: &mut impl Read,
    bytes: &mut [u8; 16384],
    numbers: &mut [i32; 4095],
    table: &mut [i32; 1024],
) -> Result<(), Stop> {
    pack::start(input)?;
    // A count stands for a loop that waits on input: a loop has to end.
    for _ in 0..u64::MAX {
        let Some(header) = Header::read(input)? else {
            break;
        };
        let system = System::read(input, header, bytes, numbers, table)?;
        let mut line = LineWriter::new(rt, bytes);
        let written = system.answer_line(&mut line);
        line.finish(written)?;
    }
    Ok(())
}

// The answers; where standard input is no pack, why it is none.
fn main(rt: HostRuntime) -> io::Result<()> {
    let mut bytes = [0; 16384];
    let mut numbers = [0; 4095];
    let mut table = [0; 1024];
    match all(&rt, &mut rt.reader(), &mut bytes, &mut numbers, &mut table) {
        Ok(()) => Ok(()),
        Err(Stop::NotAPack(why)) => eprintln!(rt; "cases: standard input is not a pack: {why}"),
        Err(Stop::Io(error)) => Err(error),
    }
}
