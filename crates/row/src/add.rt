// Rows added up in 64 bits, then judged complete and narrowed. A loop that writes one slice from another writes by index: in a
// `for` over a `zip` of `iter_mut` an invariant can't name the slice that is written, and std's contracts say only how long it is.
ghost use Rattle.std.specs.Prelude.{◌≡◌, true, ◌≤◌, length};
ghost use Rattle.row.specs.Row.{plus};
ghost use Rattle.row.specs.Judged.{judged, judged_of};
ghost use Rattle.row.specs.Table.{add_rows, constants as row_constants, replaced};
ghost use Rattle.row.specs.Requires.{all_within, Addable, Replaceable};

use whole::number::{self, PastLimit};

/// f times the row, added.
pub fn add_row(sums: &mut [i64], row: &[i32], f: i32)
    requires { (all_within 4000000000000000000 sums.old ≡ true) × (length row.now ≡ length sums.old) }
    ensures { sums.new ≡ plus f sums.old row.now }
{
    for (i, &x) in row.iter().enumerate() {
        sums[i] = number::plus_times(sums[i], f, x);
    }
}

/// Each row of the table times its number, added; a number 0 costs no pass over its row.
pub fn add_rows(sums: &mut [i64], table: &[i32], numbers: &[i32])
    requires { Addable numbers.now table.now sums.old }
    ensures { sums.new ≡ add_rows (length sums.old) numbers.now table.now sums.old }
{
    let w = sums.len();
    for (j, &f) in numbers.iter().enumerate() {
        if f != 0 {
            // Parts by their ends: a row may have no columns, which `chunks_exact` doesn't take.
            let a = j * w;
            add_row(sums, &table[a..a + w], f);
        }
    }
}

/// The columns of e from u on, with 0 in those before. Never inlined: of sums that it saw begin here LLVM would carry a part from row to
/// row in registers, which are too few.
#[inline(never)]
pub fn constants(sums: &mut [i64], e: &[i32], u: usize)
    requires { (u ≤ length e.now) × (length sums.old ≡ length e.now) }
    ensures { sums.new ≡ row_constants u e.now }
{
    sums.fill(0);
    for i in u..e.len() {
        sums[i] = i64::from(e[i]);
    }
}

/// The sums as numbers of 32 bits, up to the first past the limit.
pub fn settle(sums: &[i64], out: &mut [i32]) -> Result<(), PastLimit>
    requires { length out.old ≡ length sums.now }
    ensures { judged sums.now ≡ judged_of result out.new }
{
    for (i, &sum) in sums.iter().enumerate() {
        out[i] = number::judge(sum)?;
    }
    Ok(())
}

/// e with each of its first v unknowns replaced by its row, by way of the sums.
pub fn replace(
    sums: &mut [i64],
    table: &[i32],
    e: &[i32],
    out: &mut [i32],
    u: usize,
    v: usize,
) -> Result<(), PastLimit>
    requires { Replaceable u v table.now e.now sums.old out.old }
    ensures { judged (replaced u v table.now e.now) ≡ judged_of result out.new }
{
    constants(sums, e, u);
    add_rows(sums, table, &e[..v]);
    settle(sums, out)
}
