// The number of cared bits in the stream (document 01, section 8), counted a word at a time.
ghost use Rattle.std.specs.Prelude.{◌≡◌, ◌+◌, ◌*◌, ◌-◌, ◌≤◌, ◌<◌, min};
ghost use Rattle.lists.specs.Bits.{digit};
ghost use Rattle.lists.specs.Sums.{sum_below};
ghost use Rattle.block.specs.Bits.{stream_bit};
ghost use Rattle.table.specs.Calls.{cared_answer};
ghost use Rattle.table.specs.Sizes.{most_bits};

use crate::{Answer, PLANE, Refusal, State};
use block::bits::word_at;

// The cared bits among the 64 from bit 64 × w on, of a stream of so many bits.
fn cared_in(care: &[u8], w: usize, bits: usize) -> usize
    requires { (bits ≤ most_bits) × (64 * w < bits) }
    ensures { (result ≡ sum_below (λ i. digit (stream_bit care.now (64 * w + i))) (min 64 (bits - 64 * w))) × (result ≤ 64) }
{
    let word = word_at(care, 8 * w);
    let left = bits - 64 * w;
    if 64 <= left {
        return u64::count_ones(word) as usize;
    }
    u64::count_ones(word & ((1u64 << left) - 1)) as usize
}

// The cared bits among the first so many.
fn cared_bits(care: &[u8], bits: usize) -> usize
    requires { bits ≤ most_bits }
    ensures { result ≡ sum_below (λ i. digit (stream_bit care.now i)) bits }
{
    let mut total: usize = 0;
    for w in 0..bits.div_ceil(64) {
        total += cared_in(care, w, bits);
    }
    total
}

// How many bits of the held table's stream are cared. Refuses with 10, then 21.
#[tactic(auto, unfolding(crate::specs::Calls::cared_answer, crate::specs::Calls::plane_size), using(crate::proofs::Held::held_small))]
pub fn cared(state: State, care: &[u8]) -> Answer
    ensures { result ≡ cared_answer state care.now }
{
    if care.len() < PLANE {
        return Err(Refusal::ShortBuffer);
    }
    if !state.holds_table() {
        return Err(Refusal::NoTable);
    }
    let n = state.n;
    Ok(cared_bits(care, state.m << n))
}
