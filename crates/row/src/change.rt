// Rows changed in place. A loop that writes one slice from another writes by index: in a `for` over a `zip` of `iter_mut` an
// invariant can't name the slice that is written, and std's contracts say only how long it is.
ghost use Rattle.std.specs.Prelude.{◌≡◌, true, ◌++◌, ◌≤◌, ◌<◌, pos, length, drop, replicate, ◌<ℤ◌};
ghost use Rattle.row.specs.Row.{all_in_limit, less as row_less};
ghost use Rattle.row.specs.Judged.{judged, judged_of};
ghost use Rattle.row.specs.Divide.{negated, quotients, remainders};
ghost use Rattle.row.specs.Table.{itself as itself_row};

use whole::number::{self, PastLimit};

/// Each number becomes its negation.
pub fn negate(r: &mut [i32])
    requires { all_in_limit r.old ≡ true }
    ensures { r.new ≡ negated r.old }
{
    for x in r.iter_mut() {
        *x = -*x;
    }
}

/// r becomes its remainders by p, and q the quotients.
pub fn divide(r: &mut [i32], q: &mut [i32], p: i32)
    requires { (pos 0 <ℤ p) × (length q.old ≡ length r.old) }
    ensures { (r.new ≡ remainders p r.old) × (q.new ≡ quotients p r.old) }
{
    for i in 0..r.len() {
        let divided = number::divide(r[i], p);
        r[i] = divided.r;
        q[i] = divided.q;
    }
}

/// r less f times q, up to the first number past the limit.
pub fn less(r: &mut [i32], q: &[i32], f: i32) -> Result<(), PastLimit>
    requires { length q.now ≡ length r.old }
    ensures { judged (row_less f r.old q.now) ≡ judged_of result r.new }
{
    for (i, &y) in q.iter().enumerate() {
        r[i] = number::judge(number::less_times(r[i], f, y))?;
    }
    Ok(())
}

/// The front of `to` becomes `from`; the rest stays. By index: std's `copy_from_slice` asks who links the library for `memmove`.
pub fn copy(from: &[i32], to: &mut [i32])
    requires { length from.now ≤ length to.old }
    ensures { to.new ≡ from.now ++ drop (length from.now) to.old }
{
    for (i, &x) in from.iter().enumerate() {
        to[i] = x;
    }
}

/// Each number becomes 0.
pub fn clear(r: &mut [i32])
    ensures { r.new ≡ replicate (length r.old) (pos 0) }
{
    r.fill(0);
}

/// Unknown j equal to itself.
pub fn itself(r: &mut [i32], j: usize)
    requires { j < length r.old }
    ensures { r.new ≡ itself_row (length r.old) j }
{
    clear(r);
    r[j] = 1;
}
