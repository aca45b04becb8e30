// The halves of a part of at most 128 rows: each is a word by itself, or bits of one, and so is what they come to.
ghost use Rattle.std.specs.Prelude.{◌≡◌, [], ◌∷◌, suc, ◌+◌, ◌≤◌, length, take, drop};
ghost use Rattle.reorder.specs.Sizes.{width};
ghost use Rattle.matching.specs.Links.{word_size};
ghost use Rattle.matching.specs.Parts.{half_bytes, half_part, offered_parts};
ghost use Rattle.matching.specs.Level.{part_at};
ghost use Rattle.matching.specs.Inner.Words.{number_of, part_of};
ghost use Rattle.matching.specs.Inner.Linking.{HasRoom, Links};

use crate::entries::Entries;
use crate::halves::half_bits;
use crate::narrow::Narrow;
use crate::words::{WORD, merge_word, word_at};
use reorder::width::width_of;

// Half b of the plane at a, where the half has d variables.
fn half_word(b: bool, d: usize, a: usize, work: &[u8]) -> u64
    requires variables { d ≤ 6 }
    requires in_work { a + width (suc d) + word_size ≤ length work.now }
    ensures { result ≡ number_of (half_bytes b d (width d) (take (width (suc d)) (drop a work.now))) }
{
    if d == 6 {
        return word_at(work, a + usize::from(b) * WORD);
    }
    half_bits(b, d, word_at(work, a))
}

// Half b of the part at a.
fn narrow_half(b: bool, d: usize, a: usize, work: &[u8]) -> Narrow
    requires variables { d ≤ 6 }
    requires in_work { a + (width (suc d) + width (suc d)) + word_size ≤ length work.now }
    ensures w { result.w ≡ width d }
    ensures part { part_of result.w result.values result.care ≡ half_part b d (part_at (suc d) a work.now) }
{
    Narrow {
        w: width_of(d),
        values: half_word(b, d, a, work),
        care: half_word(b, d, a + width_of(d + 1), work),
    }
}

impl Entries {
    // Links the halves of the part at a: the candidate that they become where they agree, else the 0-half and then the 1-half.
    pub(crate) fn link_narrow(&mut self, d: usize, a: usize, work: &mut [u8])
        requires variables { d ≤ 6 }
        requires in_work { a + (width (suc d) + width (suc d)) + word_size ≤ length work.old }
        requires room { HasRoom 2 (width d) self.old work.old }
        ensures { Links (width d) (offered_parts d (part_at (suc d) a work.old ∷ [])) self.old self.new work.old work.new }
    {
        let low = narrow_half(false, d, a, work);
        let high = narrow_half(true, d, a, work);
        if (high.values ^ low.values) & (high.care & low.care) == 0 {
            let both = Narrow {
                w: low.w,
                values: merge_word(false, high.values, high.care, low.values),
                care: high.care | low.care,
            };
            self.link_twice(&both, work);
        } else {
            self.link_both(&low, &high, work);
        }
    }
}
