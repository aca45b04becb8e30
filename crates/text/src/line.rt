// The lines of a network's text other than its cells and roots: a word and a number, an order.
ghost use Rattle.std.specs.Prelude.{◌≤◌, length, get_or};
ghost use Rattle.text.specs.Text.{spaced, in_turn, line, state_order};
ghost use Rattle.text.specs.Written.{Written};

use crate::put::{put, put_line, put_number};
use diagram::VARIABLES;
use table::State;

// A word and a number.
pub fn number_line(out: &mut [u8], word: &[u8], x: usize) -> usize
    ensures { Written out.old out.new 0 result (line word.now x) }
{
    put_line(out, 0, word, x)
}

// The entries of an order, a space before each.
fn put_entries(out: &mut [u8], at: usize, order: &[usize]) -> usize
    requires { at ≤ length out.old }
    ensures { Written out.old out.new at result (in_turn (λ i. spaced (get_or order.now i 0)) (length order.now)) }
{
    let mut next = at;
    for &variable in order {
        next = put_number(out, next, variable);
    }
    next
}

// The order line of a state.
pub(crate) fn put_order(out: &mut [u8], at: usize, state: State) -> usize
    requires { at ≤ length out.old }
    ensures { Written out.old out.new at result (state_order state) }
{
    let order = state.order;
    let entries = put(out, at, b"order");
    let end = put_entries(out, entries, &order[..state.n.min(VARIABLES)]);
    put(out, end, b"\n")
}
