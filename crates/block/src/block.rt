// One block of a file: its bytes, its check, and its number (document 01, section 1).
ghost use Rattle.std.specs.Prelude.{◌≡◌, suc, ◌+◌, ◌*◌, ◌≤◌, ◌<◌};
ghost use Rattle.block.specs.Block.{check_at, whole_blocks, byte, check_of, good_check, good_number};

use crate::bits::number_at;
use crate::{BLOCK, CHECK_AT};

// Whether a file is some blocks, and whole ones.
#[tactic(auto, unfolding(crate::specs::Block::whole_blocks))]
pub fn whole_blocks(file: &[u8]) -> bool
    ensures { result ≡ whole_blocks file.now }
{
    !file.is_empty() && file.len() % BLOCK == 0
}

// Block `number` of a file.
#[derive(Clone, Copy)]
pub struct Block<'a> {
    pub file: &'a [u8],
    pub number: usize,
}

impl Block<'_> {
    // Byte i, or 0 past the file.
    pub fn byte(self, i: usize) -> usize
        ensures { (result ≡ byte self.entry.file.now self.entry.number i) × (result < 256) }
    {
        if self.file.len() / BLOCK < self.number {
            return 0;
        }
        let start = BLOCK * self.number;
        number_at(&self.file[start..], i)
    }

    // The sum of (i + 1) × byte i for the bytes before the check, modulo 65,521.
    #[tactic(auto, unfolding(crate::specs::Block::check_of))]
    fn check_of(self) -> usize
        ensures { result ≡ check_of self.entry.file.now self.entry.number }
    {
        // A loop: that the sum of a chain fits does not prove.
        let mut total: usize = 0;
        for i in 0..CHECK_AT {
            total += (i + 1) * self.byte(i);
        }
        total % 65521
    }

    // The stored check is compared as it stands.
    #[tactic(auto, unfolding(crate::specs::Block::good_check))]
    pub fn good_check(self) -> bool
        ensures { result ≡ good_check self.entry.file.now self.entry.number }
    {
        self.check_of() == self.byte(CHECK_AT) + 256 * self.byte(CHECK_AT + 1)
    }

    // Byte 1 and the block number.
    #[tactic(auto, unfolding(crate::specs::Block::good_number))]
    pub fn good_number(self) -> bool
        ensures { result ≡ good_number self.entry.file.now self.entry.number }
    {
        self.byte(1) == 0 && self.byte(2) + 256 * self.byte(3) == self.number
    }
}
