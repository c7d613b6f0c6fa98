// The parts of a pack, and why standard input is none: tests/PACK.md has the format.
ghost use Rattle.std.specs.Prelude.{◌≡◌, ◌<◌, ◌≤◌, length, take, IfOk};
ghost use Rattle.std.specs.Io.KnownBytes.{Consumes, IsAtEnd};

use std::fmt;
use std::io::{self, Read};

/// Why standard input is not a pack.
#[derive(Clone, Copy, Debug, PartialEq, Eq)]
pub enum NotAPack {
    /// The file does not begin as a pack does.
    Start,
    /// A header breaks the limits.
    Header,
    /// The file ends inside a case.
    Cut,
}

impl fmt::Display for NotAPack {
    fn fmt<W: fmt::Write>(&self, f: &mut fmt::Formatter<W>) -> fmt::Result {
        f.write_str(match self {
            NotAPack::Start => "it does not begin with BENCHPK1",
            NotAPack::Header => "a header is out of the limits",
            NotAPack::Cut => "it ends inside a case",
        })
    }
}

/// What ends the answers before the pack ends.
#[derive(Debug, Drop)]
pub enum Stop {
    NotAPack(NotAPack),
    Io(io::Error),
}

impl From<NotAPack> for Stop {
    fn from(why: NotAPack) -> Stop {
        Stop::NotAPack(why)
    }
}

impl From<io::Error> for Stop {
    fn from(error: io::Error) -> Stop {
        Stop::Io(error)
    }
}

/// What a case is, by the first number of its header.
#[derive(Clone, Copy, Debug, PartialEq, Eq)]
pub enum Kind {
    Sheet,
    System,
}

impl TryFrom<u32> for Kind {
    type Error = NotAPack;

    fn try_from(number: u32) -> Result<Kind, NotAPack> {
        match number {
            1 => Ok(Kind::Sheet),
            2 => Ok(Kind::System),
            _ => Err(NotAPack::Header),
        }
    }
}

/// A header: the kind of its case, and its counts.
#[derive(Clone, Copy, Debug)]
pub struct Header {
    pub kind: Kind,
    pub room: usize,
    pub questions: usize,
    pub length: usize,
}

impl TryFrom<[u8; 16]> for Header {
    type Error = NotAPack;

    fn try_from(bytes: [u8; 16]) -> Result<Header, NotAPack> {
        let [kind, room, questions, length] = bytes.as_chunks::<4>().0 else {
            unreachable!()
        };
        Ok(Header {
            kind: Kind::try_from(u32::from_le_bytes(*kind))?,
            // By `as`: std has no `From<u32>` for `usize`, and `try_from` would add a failure that can't be.
            room: u32::from_le_bytes(*room) as usize,
            questions: u32::from_le_bytes(*questions) as usize,
            length: u32::from_le_bytes(*length) as usize,
        })
    }
}

/// Reads until the room is full or the input ends, and says how many bytes it put at the room's start. By hand, since std's
/// `take` and `read_to_end` promise none of the three clauses.
pub fn read_full<R: Read>(input: &mut R, room: &mut [u8]) -> io::Result<usize>
    ensures within { IfOk result (λ n. n ≤ length room.new) }
    ensures bytes { IfOk result (λ n. Consumes (R.remaining input.old) (R.remaining input.new) (take n room.new)) }
    ensures end { IfOk result (λ n. n < length room.new → IsAtEnd (R.remaining input.new)) }
{
    let mut done = 0;
    while done < room.len() {
        match input.read(&mut room[done..])? {
            0 => break,
            n => done += n,
        }
    }
    Ok(done)
}

/// Takes the bytes with which a pack begins.
pub fn start(input: &mut impl Read) -> Result<(), Stop> {
    // Exactly what is read: nothing beside it counts.
    let mut magic = [0; 8];
    read_full(input, &mut magic)?;
    if magic != *b"BENCHPK1" {
        return Err(Stop::from(NotAPack::Start));
    }
    Ok(())
}

impl Header {
    /// The next case's header. There is none where the pack ends.
    pub fn read(input: &mut impl Read) -> Result<Option<Header>, Stop> {
        // Exactly what is read: nothing beside it counts.
        let mut bytes = [0; 16];
        match read_full(input, &mut bytes)? {
            0 => Ok(None),
            16 => Ok(Some(Header::try_from(bytes)?)),
            _ => Err(Stop::from(NotAPack::Cut)),
        }
    }
}

/// A case's body of so many bytes, in lent room. One that the room is too short for is out of the limits.
pub fn body<'a>(input: &mut impl Read, room: &'a mut [u8], count: usize) -> Result<&'a [u8], Stop>
    ensures { IfOk result (λ bytes. length bytes.now ≡ count) }
{
    let Some(bytes) = room.get_mut(..count) else {
        return Err(Stop::from(NotAPack::Header));
    };
    if read_full(input, bytes)? < count {
        return Err(Stop::from(NotAPack::Cut));
    }
    Ok(bytes)
}
