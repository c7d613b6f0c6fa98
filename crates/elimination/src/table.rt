// The table: a row for each unknown, end to end. Its rows are parts by their ends: of what was written through `chunks_exact_mut`,
// std's contracts say only how long it is, and a row may have no columns.
ghost use Rattle.std.specs.Prelude.{◌≡◌, true, ◌*◌, ◌≤◌, ◌<◌, length};
ghost use Rattle.row.specs.Row.{all_in_limit};
ghost use Rattle.row.specs.Judged.{judged, judged_of};
ghost use Rattle.row.specs.Table.{start as start_table};
ghost use Rattle.elimination_rules.specs.Round.{swap, swaps};
ghost use Rattle.elimination.specs.Requires.{Swappable};

use whole::number::PastLimit;

/// Each unknown equal to itself.
pub fn start(table: &mut [i32], w: usize, v: usize)
    requires { (length table.old ≡ v * w) × (v ≤ w) }
    ensures { table.new ≡ start_table w v }
{
    for j in 0..v {
        row::change::itself(&mut table[j * w..(j + 1) * w], j);
    }
}

/// The row with unknown j replaced; one that has none of it costs no pass.
pub fn swap_row(r: &mut [i32], q: &[i32], j: usize) -> Result<(), PastLimit>
    requires { (all_in_limit r.old ≡ true) × (length q.now ≡ length r.old) × (j < length r.old) }
    ensures { judged (swap j q.now r.old) ≡ judged_of result r.new }
{
    let f = r[j];
    if f == 0 {
        return Ok(());
    }
    row::change::less(r, q, f)
}

/// Every row with unknown j replaced, up to the first past the limit.
pub fn swap_rows(table: &mut [i32], q: &[i32], j: usize, v: usize) -> Result<(), PastLimit>
    requires { Swappable v j table.old q.now }
    ensures { judged (swaps v j q.now table.old) ≡ judged_of result table.new }
{
    let w = q.len();
    for i in 0..v {
        swap_row(&mut table[i * w..(i + 1) * w], q, j)?;
    }
    Ok(())
}
