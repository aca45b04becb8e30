// An order with a variable moved to another level (document 01, section 5).
ghost use Rattle.std.specs.Prelude.{◌≡◌, ◌++◌, ◌+◌, ◌≤◌, ◌<◌, T, take, drop};
ghost use Rattle.diagram.specs.Networks.Bound.{most_variables};
ghost use Rattle.diagram.specs.Orders.Order.{is_order, moved};
ghost use Rattle.sift.specs.Inner.Entries.{other_entry, moved_entry};

use diagram::VARIABLES;
use table::order::level_of;

// The j-th of the others, where one stands at level q.
fn other(order: [usize; VARIABLES], q: usize, j: usize) -> usize
    requires { j + 1 < most_variables }
    ensures { result ≡ other_entry order q j }
{
    if j < q {
        return order[j];
    }
    order[j + 1]
}

// What stands at level i once v has moved from level q to level p.
fn moved_entry(order: [usize; VARIABLES], v: usize, q: usize, p: usize, i: usize) -> usize
    requires { (p < most_variables) × (i < most_variables) }
    ensures { result ≡ moved_entry order v q p i }
{
    if i < p {
        return other(order, q, i);
    }
    if i == p {
        return v;
    }
    other(order, q, i - 1)
}

// The order with v at level p, the others in sequence; entries past n are kept.
pub(crate) fn moved_to(
    order: [usize; VARIABLES],
    n: usize,
    v: usize,
    p: usize,
) -> [usize; VARIABLES]
    requires few { n ≤ most_variables }
    requires order { T (is_order n (take n order)) }
    requires levels { (v < n) × (p < n) }
    ensures { result ≡ moved v p (take n order) ++ drop n order }
{
    let q = level_of(order, n, v);
    let mut after = order;
    for i in 0..n {
        after[i] = moved_entry(order, v, q, p, i);
    }
    after
}
