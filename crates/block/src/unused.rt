// The unused content of a block, which must be zero (document 01, section 1): by bytes, and by bits.
ghost use Rattle.std.specs.Prelude.{◌≡◌, ◌<◌};
ghost use Rattle.block.specs.Block.{content_size, unused_between, unused_zero, unused_bits_zero};
ghost use Rattle.block.specs.Inner.UnusedByte.{unused_byte_zero};

use crate::block::Block;
use crate::{CHECK_AT, CONTENT, CONTENT_AT};

impl Block<'_> {
    // Whether the bytes from byte `from` to before byte `end` are zero.
    pub fn unused_between(self, from: usize, end: usize) -> bool
        ensures { result ≡ unused_between self.entry.file.now self.entry.number from end }
    {
        (from..end).all(|i| self.byte(i) == 0)
    }

    // Whether the bytes from byte `from` to the check are zero.
    pub fn unused_zero(self, from: usize) -> bool
        ensures { result ≡ unused_zero self.entry.file.now self.entry.number from }
    {
        self.unused_between(from, CHECK_AT)
    }

    // Whether byte j of the content has no bit set from bit `used` of the content on.
    #[tactic(auto, using(crate::proofs::UnusedBits::byte_inside, crate::proofs::UnusedBits::byte_shifted))]
    fn unused_byte(self, used: usize, j: usize) -> bool
        requires { j < content_size }
        ensures { result ≡ unused_byte_zero self.entry.file.now self.entry.number used j }
    {
        let x = self.byte(CONTENT_AT + j);
        let at = 8 * j;
        at + 8 <= used || x >> used.saturating_sub(at) == 0
    }

    // Whether every bit of the content from bit `used` on is zero.
    pub fn unused_bits_zero(self, used: usize) -> bool
        ensures { result ≡ unused_bits_zero self.entry.file.now self.entry.number used }
    {
        (0..CONTENT).all(|j| self.unused_byte(used, j))
    }
}
