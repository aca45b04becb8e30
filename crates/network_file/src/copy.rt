// A network file's roots and cells, copied into lent numbers.
ghost use Rattle.std.specs.Prelude.{◌≡◌, ◌*◌, ◌≤◌, ◌<◌, length};
ghost use Rattle.lists.specs.Written.{over};
ghost use Rattle.block.specs.Numbers.{number_limit};
ghost use Rattle.lent.specs.Lent.{roots_size};
ghost use Rattle.network_file.specs.File.{file_root, cell_number};

use crate::numbers::{cell_number, file_root};
use lent::ROOTS;

// Copies all the roots.
#[tactic(auto, unfolding(lent::specs::Lent::roots_size))]
pub(crate) fn copy_roots(file: &[u8], roots: &mut [u16])
    requires { roots_size ≤ length roots.old }
    ensures { roots.new ≡ over (file_root file.now) roots_size roots.old }
{
    for (j, root) in roots[..ROOTS].iter_mut().enumerate() {
        *root = file_root(file, j) as u16;
    }
}

// Copies the first `count` cells.
pub(crate) fn copy_cells(file: &[u8], count: usize, cells: &mut [u16])
    requires { (count < number_limit) × (3 * count ≤ length cells.old) }
    ensures { cells.new ≡ over (cell_number file.now) (3 * count) cells.old }
{
    for (x, number) in cells[..3 * count].iter_mut().enumerate() {
        *number = cell_number(file, x) as u16;
    }
}
