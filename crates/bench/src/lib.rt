// The C interface: include/bench.h says what each call does.
#![tactic(auto)]

ghost use Rattle.std.specs.Prelude.{◌≡◌, List, ℤ, length};
ghost use Rattle.elimination_rules.specs.Call.{eliminated};
ghost use Rattle.elimination.specs.Heard.{answer_of};
ghost use Rattle.sheet_rules.specs.Calls.{check, ask_line, lines_part, lines_start};
ghost use Rattle.bench.specs.Spoken.{spoken_of};

use elimination::progress::Progress;
use elimination::refusal::Refuses;

/// An answer as C has it: the numbers of both cases.
#[repr(C)]
#[derive(Clone, Copy, Debug, PartialEq, Eq)]
pub struct BenchAnswer {
    pub number: u32,
    pub rounds: u32,
    pub place: u64,
    pub free: u64,
}

impl<R: Refuses> From<Result<Progress, R>> for BenchAnswer {
    ghost from_gives = { λ answer told. (t : List ℤ) → answer_of R.number R.place answer t ≡ spoken_of told t };

    fn from(answer: Result<Progress, R>) -> BenchAnswer {
        match answer {
            Ok(done) => BenchAnswer {
                number: 0,
                rounds: done.rounds,
                place: 0,
                free: done.free,
            },
            Err(refusal) => BenchAnswer {
                number: refusal.number(),
                rounds: 0,
                // C's type, by `as`: std has no `From<usize>` for `u64`.
                place: refusal.place() as u64,
                free: 0,
            },
        }
    }
}

#[unsafe(no_mangle)]
pub extern "C" fn bench_eliminate(v: usize, numbers: &[i32], table: &mut [i32]) -> BenchAnswer
    ensures { eliminated v numbers.now table.old ≡ spoken_of result table.new }
{
    BenchAnswer::from(elimination::call::eliminate(v, numbers, table))
}

#[unsafe(no_mangle)]
pub extern "C" fn bench_check(sheet: &[u8], table: &mut [i32]) -> BenchAnswer
    ensures { check sheet.now table.old ≡ spoken_of result table.new }
{
    BenchAnswer::from(sheet::call::check(sheet, table))
}

#[unsafe(no_mangle)]
pub extern "C" fn bench_line(sheet: &[u8], k: usize, table: &mut [i32]) -> BenchAnswer
    ensures { ask_line sheet.now k table.old ≡ spoken_of result table.new }
{
    BenchAnswer::from(sheet::call::ask_line(sheet, k, table))
}

/// A part as C has it: 0, 0 when empty.
#[repr(C)]
#[derive(Clone, Copy, Debug, PartialEq, Eq)]
pub struct BenchPart {
    pub start: u64,
    pub length: u64,
}

#[unsafe(no_mangle)]
pub extern "C" fn bench_lines(sheet: &[u8]) -> BenchPart
    ensures { (result.start ≡ lines_start sheet.now) × (result.length ≡ length (lines_part sheet.now)) }
{
    let n = sheet::call::lines(sheet).len();
    if n == 0 {
        return BenchPart {
            start: 0,
            length: 0,
        };
    }
    let start = sheet.len() - 16 - n;
    // C's type, by `as`, as above.
    BenchPart {
        start: start as u64,
        length: n as u64,
    }
}
