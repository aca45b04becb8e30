// The blocks of a network file written one after the other, each with its check (document 02, 2.2).
ghost use Rattle.std.specs.Prelude.{◌≡◌, suc, ◌+◌, ◌*◌, ◌≤◌, ◌<◌, length, set};
ghost use Rattle.lists.specs.Written.{over};
ghost use Rattle.block.specs.Block.{block_size, check_at};
ghost use Rattle.block.specs.Numbers.{number_limit, number_byte};
ghost use Rattle.network_file.specs.File.{cell_blocks};
ghost use Rattle.network_file.specs.Write.{file_size, block_content, file_byte};
ghost use Rattle.network_file.specs.Inner.Writable.{most_cell_blocks, Writable, block_sum};

use crate::content::{content_byte, number_byte};
use crate::sizes::blocks_for;
use block::{BLOCK, CHECK_AT};
use table::State;

// Writes byte i of block k, before the check, and gives what it adds to the check.
fn write_byte(
    state: State,
    roots: &[u16],
    cells: &[u16],
    k: usize,
    i: usize,
    file: &mut [u8],
) -> usize
    requires writable { Writable state × ((k ≤ most_cell_blocks) × (i < check_at)) }
    requires i_in_bounds { block_size * k + i < length file.old }
    ensures sum { (result ≡ suc i * block_content state roots.now cells.now k i) × (result ≤ check_at * 255) }
    ensures file { file.new
        ≡ set file.old (block_size * k + i) (block_content state roots.now cells.now k i) }
{
    let x = content_byte(state, roots, cells, k, i);
    let at = BLOCK * k + i;
    file[at] = x;
    (i + 1) * (x as usize)
}

// Writes the bytes of block k before the check, behind the blocks before it, and gives the sum that the check is of.
fn write_content(state: State, roots: &[u16], cells: &[u16], k: usize, file: &mut [u8]) -> usize
    requires writable { Writable state × (k ≤ most_cell_blocks) }
    requires k_in_bounds { block_size * suc k ≤ length file.old }
    requires file_value { file.old ≡ over (file_byte state roots.now cells.now) (block_size * k) file.old }
    ensures sum { result ≡ block_sum state roots.now cells.now k }
    ensures file { file.new
        ≡ over (file_byte state roots.now cells.now) (block_size * k + check_at) file.old }
{
    let mut total: usize = 0;
    for i in 0..CHECK_AT {
        total += write_byte(state, roots, cells, k, i, file);
    }
    total
}

// Writes the check of block k.
fn write_check(check: usize, k: usize, file: &mut [u8])
    requires check_lt_number_limit { (check < number_limit) × (k ≤ most_cell_blocks) }
    requires k_in_bounds { block_size * suc k ≤ length file.old }
    ensures { file.new
        ≡ set (set file.old (block_size * k + check_at) (number_byte check 0))
        (block_size * k + check_at + 1) (number_byte check 1) }
{
    let at = BLOCK * k + CHECK_AT;
    file[at] = number_byte(check, 0);
    file[at + 1] = number_byte(check, 1);
}

// Writes block k, behind the blocks before it.
fn write_block(state: State, roots: &[u16], cells: &[u16], k: usize, file: &mut [u8])
    requires writable { Writable state × (k ≤ most_cell_blocks) }
    requires k_in_bounds { block_size * suc k ≤ length file.old }
    requires file_value { file.old ≡ over (file_byte state roots.now cells.now) (block_size * k) file.old }
    ensures { file.new
        ≡ over (file_byte state roots.now cells.now) (block_size * suc k) file.old }
{
    let total = write_content(state, roots, cells, k, file);
    write_check(total % 65521, k, file);
}

// Writes the heading and the blocks of the cells.
pub(crate) fn write_blocks(state: State, roots: &[u16], cells: &[u16], file: &mut [u8])
    requires { Writable state × (file_size ≤ length file.old) }
    ensures { file.new
        ≡ over (file_byte state roots.now cells.now) (block_size * suc (cell_blocks state.count))
        file.old }
{
    let blocks = blocks_for(state.count);
    for k in 0..=blocks {
        write_block(state, roots, cells, k, file);
    }
}
