// Signed numbers of 32 bits, and sums of them in 64.
ghost use Rattle.std.specs.Prelude.{◌≡◌, true, ℤ, pos, nat_abs, neg_ℤ, ◌+ℤ◌, ◌-ℤ◌, ◌*ℤ◌, ◌<ℤ◌};
ghost use Rattle.whole.specs.Size.{in_limit, Within};
ghost use Rattle.whole.specs.Judge.{judge};
ghost use Rattle.whole.specs.Division.{quotient, remainder};

use std::error::Error;
use std::fmt;

/// The largest size that an exponent may have.
pub const LIMIT: u64 = 100_000_000;

/// An exponent passed the limit.
#[derive(Clone, Copy, Debug, PartialEq, Eq)]
pub struct PastLimit;

impl fmt::Display for PastLimit {
    fn fmt<W: fmt::Write>(&self, f: &mut fmt::Formatter<W>) -> fmt::Result {
        write!(f, "an exponent is past the limit of {LIMIT}")
    }
}

impl Error for PastLimit {}

/// x in 64 bits: `i64::from`, kept since it is public.
pub fn widen(x: i32) -> i64
    ensures { result ≡ x }
{
    i64::from(x)
}

/// The limit itself is allowed.
pub fn in_limit(x: i64) -> bool
    ensures { result ≡ in_limit x }
{
    let limit = LIMIT.cast_signed();
    (-limit..=limit).contains(&x)
}

/// x in 32 bits. By `as`, which a proof shows to lose nothing: `try_from` has a failure that can't be.
pub fn narrow(x: i64) -> i32
    requires { in_limit x ≡ true }
    ensures { result ≡ x }
{
    x as i32
}

/// The exponent that a sum comes to, where it is within the limit.
pub fn judge(x: i64) -> Result<i32, PastLimit>
    ensures { result ≡ judge x }
{
    if !in_limit(x) {
        return Err(PastLimit);
    }
    Ok(narrow(x))
}

/// The size of x, which for -2^31 only an unsigned number holds: `unsigned_abs`, kept since it is public.
pub fn size(x: i32) -> u32
    ensures { result ≡ nat_abs x }
{
    x.unsigned_abs()
}

/// The negation: `-`, kept since it is public.
pub fn minus(x: i32) -> i32
    requires { in_limit x ≡ true }
    ensures { result ≡ neg_ℤ x }
{
    -x
}

/// x less f times y: always fits 64 bits.
pub fn less_times(x: i32, f: i32, y: i32) -> i64
    ensures { result ≡ x -ℤ f *ℤ y }
{
    i64::from(x) - i64::from(f) * i64::from(y)
}

/// x and f times y: fits where x leaves room for one more product.
pub fn plus_times(x: i64, f: i32, y: i32) -> i64
    requires { Within 4000000000000000000 x }
    ensures { result ≡ x +ℤ f *ℤ y }
{
    x + i64::from(f) * i64::from(y)
}

/// A quotient and its remainder.
#[derive(Clone, Copy, Debug, PartialEq, Eq)]
pub struct Divided {
    pub q: i32,
    pub r: i32,
}

/// The machine divides toward zero: where that leaves a remainder below zero, one less and a divisor more.
pub fn divide(x: i32, p: i32) -> Divided
    requires { pos 0 <ℤ p }
    ensures { (result.q ≡ quotient x p) × (result.r ≡ remainder x p) }
{
    let q = x / p;
    let r = x % p;
    if r < 0 {
        return Divided { q: q - 1, r: r + p };
    }
    Divided { q, r }
}
