// The 16-bit numbers of a network file: those of a block's content, the count, the roots, and the cells'.
ghost use Rattle.std.specs.Prelude.{◌≡◌, ◌<◌, ◌≤◌};
ghost use Rattle.diagram.specs.Networks.Bound.{most_outputs};
ghost use Rattle.block.specs.Numbers.{number_limit};
ghost use Rattle.network_file.specs.File.{block_numbers, content_number, file_count, file_root, cell_number};

use crate::{BLOCK_NUMBERS, COUNT_AT, ROOTS_AT};
use block::CONTENT_AT;
use block::block::Block;

// Number j of a block's content.
fn content_number(block: Block, j: usize) -> usize
    requires { j ≤ block_numbers }
    ensures { (result ≡ content_number block.entry.file.now block.entry.number j) × (result < number_limit) }
{
    let at = CONTENT_AT + 2 * j;
    block.byte(at) + 256 * block.byte(at + 1)
}

// How many cells the heading counts.
pub(crate) fn file_count(file: &[u8]) -> usize
    ensures { (result ≡ file_count file.now) × (result < number_limit) }
{
    let heading = Block { file, number: 0 };
    content_number(heading, (COUNT_AT - CONTENT_AT) / 2)
}

// The heading's root j.
pub(crate) fn file_root(file: &[u8], j: usize) -> usize
    requires { j < most_outputs }
    ensures { (result ≡ file_root file.now j) × (result < number_limit) }
{
    let heading = Block { file, number: 0 };
    content_number(heading, (ROOTS_AT - CONTENT_AT) / 2 + j)
}

// Number x of the cells, three a cell.
pub(crate) fn cell_number(file: &[u8], x: usize) -> usize
    ensures { (result ≡ cell_number file.now x) × (result < number_limit) }
{
    let block = Block {
        file,
        number: 1 + x / BLOCK_NUMBERS,
    };
    content_number(block, x % BLOCK_NUMBERS)
}
