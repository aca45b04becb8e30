// Network files: writing one of held cells, and reading one again (document 02, 2.2).
#![tactic(auto)]

mod blocks;
mod content;
mod copy;
mod file;
mod good;
mod numbers;
pub mod read;
mod sizes;
mod verify;
mod work;
pub mod write;

use block::BLOCK;
use diagram::NODES;

// The cells that a block carries, and their numbers; specs/File.antt has the definitions, `block_cells` and `block_numbers`.
pub const BLOCK_CELLS: usize = 84;

pub(crate) const BLOCK_NUMBERS: usize = 3 * BLOCK_CELLS;

// Where the heading has the count and the roots; specs/File.antt has the definitions, `count_at` and `roots_at`.
pub(crate) const COUNT_AT: usize = 16;

pub(crate) const ROOTS_AT: usize = 18;

// The bytes of the longest file; specs/Write.antt has the definition, `file_size`.
pub const FILE: usize = BLOCK * (1 + (NODES + (BLOCK_CELLS - 1)) / BLOCK_CELLS);
