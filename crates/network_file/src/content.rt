// The bytes of a network file before the check of each block; specs/Write.antt has the definitions.
ghost use Rattle.std.specs.Prelude.{◌≡◌, ℕ, ◌≤◌, ◌<◌, T, get_or, take};
ghost use Rattle.diagram.specs.Networks.Bound.{most_variables, most_nodes};
ghost use Rattle.diagram.specs.Orders.Order.{is_order};
ghost use Rattle.block.specs.Block.{content_at, check_at};
ghost use Rattle.block.specs.Numbers.{number_limit, number_byte};
ghost use Rattle.block.specs.Sealed.{headed};
ghost use Rattle.network_file.specs.Write.{heading_byte, cells_byte, block_content};
ghost use Rattle.network_file.specs.Inner.Writable.{most_cell_blocks, Writable};

use crate::sizes::carried;
use crate::{BLOCK_NUMBERS, COUNT_AT, ROOTS_AT};
use block::CONTENT_AT;
use block::numbers::lent_number;
use diagram::VARIABLES;
use table::State;

// Byte b of a number of 16 bits, the low byte first.
pub(crate) fn number_byte(x: usize, b: usize) -> u8
    requires { x < number_limit }
    ensures { result ≡ number_byte x b }
{
    if b == 0 {
        (x % 256) as u8
    } else {
        (x / 256) as u8
    }
}

// Byte i of a block before its content: the kind, a zero, the block's number.
fn front_byte(kind: u8, k: usize, i: usize) -> u8
    requires { (k < number_limit) × (i < content_at) }
    ensures { (content : ℕ → ℕ) → result ≡ headed kind k content i }
{
    if i == 0 {
        return kind;
    }
    if i == 1 {
        return 0;
    }
    number_byte(k, i - 2)
}

// Entry p of an order of n variables, which fits a byte.
fn order_byte(order: [usize; VARIABLES], n: usize, p: usize) -> u8
    requires { (n ≤ most_variables) × (T (is_order n (take n order)) × (p < n)) }
    ensures { result ≡ get_or order p 0 }
{
    order[p] as u8
}

// Byte i of the heading: n, m, the order, the count, and the roots of the outputs; else zero.
fn heading_byte(state: State, roots: &[u16], i: usize) -> u8
    requires { Writable state × ((content_at ≤ i) × (i < check_at)) }
    ensures { result ≡ heading_byte state roots.now i }
{
    if i == 4 {
        return state.n as u8;
    }
    if i == 5 {
        return state.m as u8;
    }
    if i < 6 + state.n {
        let order = state.order;
        return order_byte(order, state.n, i - 6);
    }
    if i < COUNT_AT {
        return 0;
    }
    if i < ROOTS_AT {
        return number_byte(state.count, i - COUNT_AT);
    }
    if i < ROOTS_AT + 2 * state.m {
        let j = i - ROOTS_AT;
        return number_byte(lent_number(roots, j / 2), j % 2);
    }
    0
}

// Byte i of block k, which carries cells.
fn cells_byte(count: usize, cells: &[u16], k: usize, i: usize) -> u8
    requires count_le_most_nodes { (count ≤ most_nodes) × ((1 ≤ k) × (k ≤ most_cell_blocks)) }
    requires content_at_le_i { (content_at ≤ i) × (i < check_at) }
    ensures { result ≡ cells_byte count cells.now k i }
{
    if i < CONTENT_AT + 2 * carried(count, k) {
        let j = i - CONTENT_AT;
        return number_byte(lent_number(cells, BLOCK_NUMBERS * (k - 1) + j / 2), j % 2);
    }
    0
}

// Byte i of block k, before the check.
pub(crate) fn content_byte(state: State, roots: &[u16], cells: &[u16], k: usize, i: usize) -> u8
    requires { Writable state × ((k ≤ most_cell_blocks) × (i < check_at)) }
    ensures { result ≡ block_content state roots.now cells.now k i }
{
    if k == 0 {
        if i < CONTENT_AT {
            return front_byte(4, 0, i);
        }
        return heading_byte(state, roots, i);
    }
    if i < CONTENT_AT {
        return front_byte(5, k, i);
    }
    cells_byte(state.count, cells, k, i)
}
