// The variable that a pass sifts next: the unsifted one with the most nodes, the lowest on ties (document 01, section 5).
ghost use Rattle.std.specs.Prelude.{◌≡◌, ◌≤◌, T, take};
ghost use Rattle.lists.specs.Most.{most};
ghost use Rattle.diagram.specs.Networks.Bound.{most_variables};
ghost use Rattle.diagram.specs.Orders.Order.{is_order};
ghost use Rattle.sift.specs.Inner.Choice.{overtaken, nodes_at, unmarked};

use diagram::VARIABLES;
use table::order::level_of;

// A variable, and its nodes.
#[derive(Clone, Copy)]
pub(crate) struct Lead {
    pub variable: usize,
    pub nodes: usize,
}

// A variable takes the lead where it is not marked as sifted and has as many nodes or more.
fn overtake(lead: Lead, v: usize, nodes: usize, marked: bool) -> Lead
    ensures { result ≡ overtaken lead v nodes marked }
{
    if marked {
        return lead;
    }
    if nodes < lead.nodes {
        return lead;
    }
    Lead { variable: v, nodes }
}

// The unsifted variable with the most nodes, by the nodes of each level. It goes from the highest number down, so that on ties
// the lowest is left.
pub(crate) fn fullest(
    counts: [usize; VARIABLES],
    order: [usize; VARIABLES],
    sifted: [bool; VARIABLES],
    n: usize,
) -> usize
    requires few { n ≤ most_variables }
    requires order { T (is_order n (take n order)) }
    ensures { result ≡ most (nodes_at counts (take n order)) (unmarked n sifted) }
{
    let mut lead = Lead {
        variable: 0,
        nodes: 0,
    };
    for v in (0..n).rev() {
        let level = level_of(order, n, v);
        let nodes = counts[level];
        let marked = sifted[v];
        lead = overtake(lead, v, nodes, marked);
    }
    lead.variable
}
