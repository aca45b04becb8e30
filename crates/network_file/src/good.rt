// Number 24 on a network file's own cells and roots, for any count: whether they are a well-formed diagram.
ghost use Rattle.std.specs.Prelude.{◌≡◌, true, ◌≤◌, ◌<◌};
ghost use Rattle.lists.specs.Lists.{all, up_to};
ghost use Rattle.diagram.specs.Networks.Bound.{most_outputs};
ghost use Rattle.diagram.specs.Networks.Diagram.{later, refers, node_good, well_formed};
ghost use Rattle.block.specs.Numbers.{number_limit};
ghost use Rattle.table.specs.File.{file_outputs};
ghost use Rattle.lent.specs.Lent.{cells_by};
ghost use Rattle.network_file.specs.File.{file_count, file_root, cell_number, file_node, file_diagram};

use crate::numbers::{cell_number, file_root};

// Whether a reference is a constant, or to a counted cell at a level after p.
fn later_than(file: &[u8], count: usize, p: usize, r: usize) -> bool
    requires { count < number_limit }
    ensures { result ≡ later true (cells_by count (cell_number file.now)) p r }
{
    r < 2 || r <= count + count + 1 && p < cell_number(file, 3 * (r / 2 - 1))
}

// Whether cell i, from 0, has a level below n and edges only to later levels or constants.
fn node_good(file: &[u8], count: usize, n: usize, i: usize) -> bool
    requires { (count < number_limit) × (i < count) }
    ensures { result ≡ node_good true n (cells_by count (cell_number file.now)) (file_node file.now i) }
{
    let first = 3 * i;
    let p = cell_number(file, first);
    p < n
        && later_than(file, count, p, cell_number(file, first + 1))
        && later_than(file, count, p, cell_number(file, first + 2))
}

// Whether every counted cell is good.
fn nodes_good(file: &[u8], count: usize, n: usize) -> bool
    requires { count < number_limit }
    ensures { result ≡ all (node_good true n (cells_by count (cell_number file.now)))
        (cells_by count (cell_number file.now)).nodes }
{
    (0..count).all(|i| node_good(file, count, n, i))
}

// Whether each of the first m roots is a constant or to a counted cell.
fn roots_good(file: &[u8], count: usize, m: usize) -> bool
    requires { (count < number_limit) × (m ≤ most_outputs) }
    ensures { result ≡ all (λ j. refers true (cells_by count (cell_number file.now)) (file_root file.now j)) (up_to m) }
{
    (0..m).all(|j| file_root(file, j) <= count + count + 1)
}

// Whether the file's cells and roots are a well-formed diagram of n levels.
pub(crate) fn file_good(file: &[u8], count: usize, n: usize, m: usize) -> bool
    requires count_value { (count ≡ file_count file.now) × (m ≡ file_outputs file.now) }
    requires count_lt_number_limit { (count < number_limit) × (m ≤ most_outputs) }
    ensures { result ≡ well_formed true n m (file_diagram file.now) }
{
    roots_good(file, count, m) && nodes_good(file, count, n)
}
