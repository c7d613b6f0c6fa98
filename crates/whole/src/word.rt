// A word of free unknowns: bit j is set where unknown j is free.
ghost use Rattle.std.specs.Prelude.{◌<◌, eqb, ◌≡◌};
ghost use Rattle.whole.specs.Word.{bit, cleared, count, first_set};

/// The word whose first v bits are set.
pub fn first(v: usize) -> u64
    requires { v < 64 }
    ensures { result ≡ first_set v }
{
    (1u64 << v) - 1
}

/// Whether bit j is set.
pub fn is_set(word: u64, j: usize) -> bool
    requires { j < 64 }
    ensures { result ≡ eqb (bit j word) 1 }
{
    (word >> j) & 1 == 1
}

/// The word with bit j cleared and every other bit as it was.
pub fn without(word: u64, j: usize) -> u64
    requires { j < 64 }
    ensures { result ≡ cleared word j }
{
    word & !(1u64 << j)
}

/// How many bits are set.
pub fn ones(word: u64) -> u32
    ensures { result ≡ count 64 word }
{
    word.count_ones()
}
