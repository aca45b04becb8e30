// Numbers 24 and 32 of a network file that is good so far: whether its cells and roots are a well-formed diagram, and section 4's network
// of what they compute. No more cells than such a network ever has are copied for the second test; more are none.
ghost use Rattle.std.specs.Prelude.{◌≡◌, true, ◌*◌, ◌≤◌, ◌<◌, length};
ghost use Rattle.diagram.specs.Networks.Bound.{most_nodes};
ghost use Rattle.block.specs.Numbers.{number_limit};
ghost use Rattle.table.specs.Answer.{done};
ghost use Rattle.lent.specs.Lent.{roots_size};
ghost use Rattle.network_file.specs.File.{file_count, network_file_answer};
ghost use Rattle.network_file.specs.Read.{read_state};
ghost use Rattle.network_file.specs.Inner.Checked.{checked_answer};

use crate::copy::{copy_cells, copy_roots};
use crate::good::file_good;
use crate::numbers::file_count;
use block::block::Block;
use canonical::held::test_held;
use diagram::NODES;
use lent::ROOTS;
use table::order::read_order;
use table::{Answer, Refusal, Stage, State};

// The state that a file's heading says, with the network.
pub(crate) fn file_state(file: &[u8]) -> State
    ensures { result ≡ read_state file.now }
{
    let heading = Block { file, number: 0 };
    let n = heading.byte(4);
    let m = heading.byte(5);
    let order = read_order(file, n);
    let count = file_count(file);
    State {
        n,
        m,
        order,
        count,
        stage: Stage::Network,
    }
}

// The tests of a copy in these numbers.
fn copy_answer(file: &[u8], roots: &mut [u16], cells: &mut [u16]) -> Answer
    requires file_value { done (network_file_answer file.now) ≡ true }
    requires roots_size_in_bounds { (roots_size ≤ length roots.old) × (3 * file_count file.now ≤ length cells.old) }
    ensures { result ≡ checked_answer file.now }
{
    let held = file_state(file);
    let count = file_count(file);
    copy_roots(file, roots);
    copy_cells(file, count, cells);
    test_held(held, roots, cells)
}

// The tests of as many cells as a network may have.
fn few_answer(file: &[u8]) -> Answer
    requires file_value { done (network_file_answer file.now) ≡ true }
    requires file_bound { file_count file.now ≤ most_nodes }
    ensures { result ≡ checked_answer file.now }
{
    let mut roots = [0u16; ROOTS];
    let mut cells = [0u16; 3 * NODES];
    copy_answer(file, &mut roots, &mut cells)
}

// The tests of more.
fn many_answer(file: &[u8], count: usize) -> Answer
    requires file_value { done (network_file_answer file.now) ≡ true }
    requires count_value { (count ≡ file_count file.now) × (most_nodes < count) × (count < number_limit) }
    ensures { result ≡ checked_answer file.now }
{
    let heading = Block { file, number: 0 };
    let n = heading.byte(4);
    let m = heading.byte(5);
    if file_good(file, count, n, m) {
        return Err(Refusal::NotCanonical);
    }
    Err(Refusal::BadCells)
}

// What the cells and roots answer: 24, 32, or 0.
pub(crate) fn checked_answer(file: &[u8]) -> Answer
    requires { done (network_file_answer file.now) ≡ true }
    ensures { result ≡ checked_answer file.now }
{
    let count = file_count(file);
    if NODES < count {
        return many_answer(file, count);
    }
    few_answer(file)
}
