// The text of a whole network.
ghost use Rattle.std.specs.Prelude.{◌++◌, ◌/◌, ◌≤◌, min, length};
ghost use Rattle.text.specs.Text.{in_turn, spaced, cell-keyword, node_text, cell_line, root_line, held_lines, total_lines, heading_lines, network_text};
ghost use Rattle.text.specs.Written.{Written};

use crate::line::put_order;
use crate::put::{put, put_line, put_number};
use block::numbers::lent_number;
use table::State;

// The numbers of one cell, and the line's end.
fn put_node(out: &mut [u8], at: usize, cell: &[u16; 3]) -> usize
    requires { at ≤ length out.old }
    ensures { Written out.old out.new at result (node_text cell.now 0) }
{
    let low = put_number(out, at, cell[0] as usize);
    let high = put_number(out, low, cell[1] as usize);
    let end = put_number(out, high, cell[2] as usize);
    put(out, end, b"\n")
}

// The line of one cell.
fn put_cell(out: &mut [u8], at: usize, number: usize, cell: &[u16; 3]) -> usize
    requires { at ≤ length out.old }
    ensures { Written out.old out.new at result (cell-keyword ++ (spaced number ++ node_text cell.now 0)) }
{
    let word = put(out, at, b"cell");
    let node = put_number(out, word, number);
    put_node(out, node, cell)
}

// The lines of the first cells, as many as are counted and lent.
fn put_cells(out: &mut [u8], at: usize, count: usize, cells: &[u16]) -> usize
    requires { at ≤ length out.old }
    ensures { Written out.old out.new at result
        (in_turn (cell_line cells.now) (min count (length cells.now / 3))) }
{
    let (nodes, _) = cells.as_chunks::<3>();
    let counted = &nodes[..count.min(nodes.len())];
    let mut next = at;
    for (i, cell) in counted.iter().enumerate() {
        next = put_cell(out, next, i + 1, cell);
    }
    next
}

// The line of one root.
fn put_root(out: &mut [u8], at: usize, roots: &[u16], j: usize) -> usize
    requires { at ≤ length out.old }
    ensures { Written out.old out.new at result (root_line roots.now j) }
{
    let output = put(out, at, b"root");
    let root = put_number(out, output, j);
    let end = put_number(out, root, lent_number(roots, j));
    put(out, end, b"\n")
}

// The lines of the first m roots.
fn put_roots(out: &mut [u8], at: usize, m: usize, roots: &[u16]) -> usize
    requires { at ≤ length out.old }
    ensures { Written out.old out.new at result (in_turn (root_line roots.now) m) }
{
    let mut next = at;
    for j in 0..m {
        next = put_root(out, next, roots, j);
    }
    next
}

// The held cells and roots; nothing where no network is held.
fn put_held(out: &mut [u8], at: usize, state: State, roots: &[u16], cells: &[u16]) -> usize
    requires { at ≤ length out.old }
    ensures { Written out.old out.new at result (held_lines state roots.now cells.now) }
{
    if state.holds_network() {
        let first = put_cells(out, at, state.count, cells);
        return put_roots(out, first, state.m, roots);
    }
    at
}

// The lines of the cared bits and of the count.
fn put_totals(out: &mut [u8], at: usize, cared: usize, count: usize) -> usize
    requires { at ≤ length out.old }
    ensures { Written out.old out.new at result (total_lines cared count) }
{
    let cells = put_line(out, at, b"cared", cared);
    put_line(out, cells, b"cells", count)
}

// The lines above the cells.
fn put_heading(out: &mut [u8], state: State, cared: usize) -> usize
    ensures { Written out.old out.new 0 result (heading_lines state cared) }
{
    let outputs = put_line(out, 0, b"inputs", state.n);
    let order = put_line(out, outputs, b"outputs", state.m);
    let count = put_order(out, order, state);
    put_totals(out, count, cared, state.count)
}

// Section 8's whole output for a state, its cared bits and its network.
pub fn network_text(
    out: &mut [u8],
    state: State,
    cared: usize,
    roots: &[u16],
    cells: &[u16],
) -> usize
    ensures { Written out.old out.new 0 result (network_text state cared roots.now cells.now) }
{
    let held = put_heading(out, state, cared);
    put_held(out, held, state, roots, cells)
}
