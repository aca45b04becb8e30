// Bytes, bits and words of lent slices: eight bits to a byte, the lowest first; past the end all is 0.
ghost use Rattle.std.specs.Prelude.{◌≡◌, ◌<◌, get_or};
ghost use Rattle.lists.specs.Bits.{digit};
ghost use Rattle.block.specs.Bits.{stream_bit, word_of};

use std::array;

// Byte i, or 0 past the end.
pub fn byte_at(bytes: &[u8], i: usize) -> u8
    ensures { result ≡ get_or bytes.now i 0 }
{
    bytes.get(i).copied().unwrap_or(0)
}

// The same as a number to compute with.
pub fn number_at(bytes: &[u8], i: usize) -> usize
    ensures { (result ≡ get_or bytes.now i 0) × (result < 256) }
{
    byte_at(bytes, i) as usize
}

// Bit i of a stream as a number.
#[tactic(auto, using(crate::proofs::StreamBits::bit_shifted))]
pub fn digit_at(bytes: &[u8], i: usize) -> u8
    ensures { result ≡ digit (stream_bit bytes.now i) }
{
    byte_at(bytes, i >> 3) >> (i & 7) & 1
}

// Eight bytes from byte `at` on as a word.
pub fn word_at(bytes: &[u8], at: usize) -> u64
    ensures { result ≡ word_of bytes.now at 8 }
{
    if bytes.len() < at {
        return 0;
    }
    let rest = &bytes[at..];
    if let Some(word) = rest.first_chunk() {
        return u64::from_le_bytes(*word);
    }
    u64::from_le_bytes(array::from_fn(|k| byte_at(rest, k)))
}
