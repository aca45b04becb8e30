// Up to eight bytes as one number, the first byte the lowest: read, written and merged.
ghost use Rattle.std.specs.Prelude.{◌≡◌, ◌+◌, ◌≤◌, length, take, drop};
ghost use Rattle.matching.specs.Bytes.{merge_byte};
ghost use Rattle.matching.specs.Inner.Words.{word_size, number_of, bytes_of};

// The bytes of a word; specs/Links.antt has the definition, `word_size`.
pub(crate) const WORD: usize = 8;

// The word at a.
pub(crate) fn word_at(s: &[u8], a: usize) -> u64
    requires { a + word_size ≤ length s.now }
    ensures { result ≡ number_of (take word_size (drop a s.now)) }
{
    u64::from_le_bytes([
        s[a],
        s[a + 1],
        s[a + 2],
        s[a + 3],
        s[a + 4],
        s[a + 5],
        s[a + 6],
        s[a + 7],
    ])
}

// The number of at most eight bytes.
pub(crate) fn number(bytes: &[u8]) -> u64
    requires { length bytes.now ≤ word_size }
    ensures { result ≡ number_of bytes.now }
{
    let mut x = 0;
    for (j, byte) in bytes.iter().enumerate() {
        x += u64::from(*byte) << (8 * j);
    }
    x
}

// Writes the lowest bytes of x, as many as there are. `copy_from_slice` of `to_le_bytes` would be slower: it calls memcpy where the length
// isn't known.
pub(crate) fn put_number(x: u64, bytes: &mut [u8])
    requires { length bytes.old ≤ word_size }
    ensures { bytes.new ≡ bytes_of (length bytes.old) x }
{
    let mut rest = x;
    for byte in bytes.iter_mut() {
        *byte = (rest % 256) as u8;
        rest >>= 8;
    }
}

// f as compared where c is 1, else g.
#[tactic(auto, unfolding(crate::specs::Bytes::merge_byte), using(crate::proofs::Parts::PartMerge::merge_plain))]
pub(crate) fn merge_word(i: bool, f: u64, c: u64, g: u64) -> u64
    ensures { result ≡ merge_byte i f c g }
{
    let kept = (g & c) ^ g;
    if i {
        return ((f & c) ^ c) | kept;
    }
    (f & c) | kept
}
