// Orders of the variables: the variable at each level, the top level first (document 01, sections 1 and 2).
ghost use Rattle.std.specs.Prelude.{◌≡◌, cond, map, suc, ◌+◌, ◌≤◌, ◌<◌, eqb, ltb, get_or, take, drop};
ghost use Rattle.lists.specs.Lists.{has, index, up_to};
ghost use Rattle.diagram.specs.Networks.Bound.{most_variables};
ghost use Rattle.diagram.specs.Orders.Order.{is_order};
ghost use Rattle.block.specs.Block.{byte};

use block::block::Block;
use diagram::VARIABLES;
use std::array;

// Whether the variable at level i stands again at a later level below n.
fn repeated(order: [usize; VARIABLES], n: usize, i: usize) -> bool
    requires { (n ≤ most_variables) × (i < n) }
    ensures { result ≡ has eqb (get_or order i 0) (drop (suc i) (take n order)) }
{
    order[i + 1..n].contains(&order[i])
}

// Whether the first n entries have each of the n variables once.
#[tactic(auto, using(crate::proofs::Ordering::Orders::entry_tests))]
pub(crate) fn is_order(order: [usize; VARIABLES], n: usize) -> bool
    requires { n ≤ most_variables }
    ensures { result ≡ is_order n (take n order) }
{
    for i in 0..n {
        if n <= order[i] || repeated(order, n, i) {
            return false;
        }
    }
    true
}

// Entry p of the heading's order, or 0 past n.
fn order_entry(file: &[u8], n: usize, p: usize) -> usize
    requires { p < most_variables }
    ensures { result ≡ cond (ltb p n) (byte file.now 0 (6 + p)) 0 }
{
    let heading = Block { file, number: 0 };
    if p < n { heading.byte(6 + p) } else { 0 }
}

// The heading's order, and zeros past n.
pub fn read_order(file: &[u8], n: usize) -> [usize; VARIABLES]
    ensures { result ≡ map (λ p. cond (ltb p n) (byte file.now 0 (6 + p)) 0) (up_to most_variables) }
{
    array::from_fn(|p| order_entry(file, n, p))
}

// The level of v in an order of n variables, or the order's length where it has none.
pub fn level_of(order: [usize; VARIABLES], n: usize, v: usize) -> usize
    ensures { result ≡ index eqb v (take n order) }
{
    let held = &order[..n.min(VARIABLES)];
    held.iter().position(|x| v == *x).unwrap_or(held.len())
}
