// The numbers that bytes hold.
ghost use Rattle.std.specs.Prelude.{◌+◌, ◌<◌, get_or, length, ◌≡◌};
ghost use Rattle.whole.specs.Bytes.{little_endian, signed};

/// The 16-bit number of the two bytes at a place, the low byte first. By a place: so its callers have it.
pub fn number_at(s: &[u8], at: usize) -> usize
    requires { at + 1 < length s.now }
    ensures { result ≡ little_endian (get_or s.now at 0) (get_or s.now (at + 1) 0) }
{
    usize::from(u16::from_le_bytes([s[at], s[at + 1]]))
}

/// The exponent that a byte holds, in two's complement.
#[tactic(auto, using(crate::proofs::Exponent::twos_complement))]
pub fn exponent(b: u8) -> i32
    ensures { result ≡ signed b }
{
    i32::from(b.cast_signed())
}
