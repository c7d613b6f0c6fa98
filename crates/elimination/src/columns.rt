// The columns that V leaves unused.
ghost use Rattle.std.specs.Prelude.{◌≡◌, ◌*◌, ◌≤◌, length};
ghost use Rattle.whole.specs.Place.{found_of};
ghost use Rattle.elimination_rules.specs.Call.{unused as rule_unused, first_used};

/// Whether columns v to u - 1 of the row are 0.
fn unused(r: &[i32], u: usize, v: usize) -> bool
    requires { (v ≤ u) × (u ≤ length r.now) }
    ensures { result ≡ rule_unused u v r.now }
{
    row::test::all_zero(&r[v..u])
}

/// The lowest of the equations, of w numbers each, with something in a column that is not used.
pub fn first_used(es: &[i32], w: usize, u: usize, v: usize, count: usize) -> Option<usize>
    requires { (length es.now ≡ count * w) × (v ≤ u) × (u ≤ w) }
    ensures { first_used u v w count 0 es.now ≡ found_of result }
{
    // Parts by their ends: an equation may have no columns, which `chunks_exact` doesn't take.
    (0..count).find(|&i| !unused(&es[i * w..(i + 1) * w], u, v))
}
