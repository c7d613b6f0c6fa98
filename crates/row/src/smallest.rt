// The smallest exponent that is not 0.
ghost use Rattle.std.specs.Prelude.{◌≡◌, nat_abs};
ghost use Rattle.row.specs.Smallest.{better as better_pick, smallest as smallest_pick};
ghost use Rattle.row.specs.Picked.{pick_of};

/// A column with the size that stands in it.
#[derive(Clone, Copy, Debug, PartialEq, Eq)]
pub struct Picked {
    pub column: usize,
    pub size: u32,
}

/// Column i, which holds x, against the best of those before it.
pub fn better(best: Option<Picked>, i: usize, x: i32) -> Option<Picked>
    ensures { pick_of result ≡ better_pick i (nat_abs x) (pick_of best) }
{
    let size = x.unsigned_abs();
    if size == 0 {
        return best;
    }
    match best {
        Some(b) if b.size <= size => best,
        _ => Some(Picked { column: i, size }),
    }
}

/// The lowest column of the smallest size that is not 0.
pub fn smallest(r: &[i32]) -> Option<Picked>
    ensures { pick_of result ≡ smallest_pick r.now }
{
    let mut best = None;
    for (i, &x) in r.iter().enumerate() {
        best = better(best, i, x);
    }
    best
}
