// What the cells of a network file take: their blocks, and the numbers in each.
ghost use Rattle.std.specs.Prelude.{◌≡◌, ◌≤◌, ◌<◌};
ghost use Rattle.block.specs.Numbers.{number_limit};
ghost use Rattle.network_file.specs.File.{block_numbers, cell_blocks, carried_numbers};

use crate::{BLOCK_CELLS, BLOCK_NUMBERS};

// The blocks that so many cells take.
#[tactic(auto, unfolding(crate::specs::File::cell_blocks))]
pub(crate) fn blocks_for(count: usize) -> usize
    requires { count < number_limit }
    ensures { result ≡ cell_blocks count }
{
    count.div_ceil(BLOCK_CELLS)
}

// The numbers that block k carries, of so many cells.
pub(crate) fn carried(count: usize, k: usize) -> usize
    requires { (count < number_limit) × (1 ≤ k) × (k < number_limit) }
    ensures { (result ≡ carried_numbers count k) × (result ≤ block_numbers) }
{
    let before = BLOCK_NUMBERS * (k - 1);
    (3 * count).saturating_sub(before).min(BLOCK_NUMBERS)
}
