// What an answer's line is gathered in: lent room, since the program has no heap.
ghost use Rattle.std.specs.Prelude.{◌≡◌, ◌+◌, ◌≤◌, ◌++◌, length, take, IsOk, OnOk};

use std::{fmt, io};

/// A writer that gathers text in lent room. It hands on what it has where no more fits, and at the end.
#[derive(Drop)]
pub struct LineWriter<'a, P> {
    to: &'a P,
    filled: usize,
    room: &'a mut [u8],
    /// What became of the last text that didn't fit.
    handed: io::Result<()>,
    ghost within: { filled ≤ length room.now },
}

impl<'a, P: Print> LineWriter<'a, P> {
    /// A line with no text yet.
    pub fn new(to: &'a P, room: &'a mut [u8]) -> LineWriter<'a, P>
        ensures empty { result.filled ≡ 0 }
    {
        LineWriter {
            to,
            filled: 0,
            room,
            handed: Ok(()),
        }
    }

    // Hands on what is gathered.
    fn hand_on(&mut self) -> io::Result<()>
        ensures { OnOk result (self.new.filled ≡ 0) }
    {
        let room = &*self.room;
        self.to.write_all(&room[..self.filled])?;
        self.filled = 0;
        Ok(())
    }

    // Hands on what is gathered, then a text that doesn't fit beside it.
    #[cold]
    fn pass(&mut self, text: &[u8]) -> fmt::Result {
        self.handed = match self.hand_on() {
            Ok(()) => self.to.write_all(text),
            error => error,
        };
        match self.handed {
            Ok(()) => Ok(()),
            Err(_) => Err(fmt::Error),
        }
    }

    /// Hands on what is left, where the line's text was written: else it says why not.
    pub fn finish(&mut self, written: fmt::Result) -> io::Result<()>
        ensures handed { OnOk result (IsOk self.old.handed) }
        ensures written { OnOk result (IsOk written) }
    {
        self.handed?;
        written?;
        self.hand_on()
    }
}

impl<P: Print> fmt::Write for LineWriter<'_, P> {
    // Text that fits is gathered, and can't fail.
    fn write_str(&mut self, text: &str) -> fmt::Result
        ensures gathers { self.old.filled + length text.now ≤ length self.old.room.now → IsOk result × (take self.new.filled self.new.room.now ≡ take self.old.filled self.old.room.now ++ text.now) }
    {
        let text = text.as_bytes();
        let filled = self.filled;
        let room = &mut *self.room;
        if text.len() <= room.len() - filled {
            room[filled..filled + text.len()].copy_from_slice(text);
            self.filled = filled + text.len();
            return Ok(());
        }
        self.pass(text)
    }
}
