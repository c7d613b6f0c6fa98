// Tests of every number of a slice.
ghost use Rattle.std.specs.Prelude.{◌≡◌};
ghost use Rattle.row.specs.Row.{all_in_limit, all_zero};

/// Whether every number is within the limit.
pub fn all_in_limit(r: &[i32]) -> bool
    ensures { result ≡ all_in_limit r.now }
{
    r.iter().all(|&x| whole::number::in_limit(i64::from(x)))
}

/// Whether every number is 0.
pub fn all_zero(r: &[i32]) -> bool
    ensures { result ≡ all_zero r.now }
{
    r.iter().all(|&x| x == 0)
}
