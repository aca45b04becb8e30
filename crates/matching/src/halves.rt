// The halves of the rows in a number: those in which the top variable is 0, and those in which it is 1. A half has d variables.
ghost use Rattle.std.specs.Prelude.{◌≡◌, ◌≤◌, ◌<◌};
ghost use Rattle.matching.specs.Parts.{half_byte};

// Half b of the lowest bits of a word, which hold both halves.
pub(crate) fn half_bits(b: bool, d: usize, x: u64) -> u64
    requires { d ≤ 5 }
    ensures { result ≡ half_byte b d x }
{
    let rows = 1usize << d;
    x >> (usize::from(b) * rows) & ((1u64 << rows) - 1)
}

// The same of a byte.
pub(crate) fn half_byte(b: bool, d: usize, x: u8) -> u8
    requires { d < 3 }
    ensures { result ≡ half_byte b d x }
{
    half_bits(b, d, x.into()) as u8
}
