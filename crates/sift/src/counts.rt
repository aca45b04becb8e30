// The counts of trials in one slice: those of level p, the nodes of each level with the variable at level p, stand from VARIABLES * p on.
ghost use Rattle.std.specs.Prelude.{◌≡◌, ◌+◌, ◌*◌, ◌≤◌, ◌<◌, length};
ghost use mathlib.Core.List.{sum};
ghost use Rattle.diagram.specs.Networks.Bound.{most_variables, most_nodes};
ghost use Rattle.fill.specs.Calls.{counts_size, counts_of};

use diagram::VARIABLES;

// Reads off the counts of level p.
pub(crate) fn counts_of(counts: &[usize], p: usize) -> [usize; VARIABLES]
    requires { (p < most_variables) × (counts_size ≤ length counts.now) }
    ensures { result ≡ counts_of p counts.now }
{
    let mut read = [0usize; VARIABLES];
    for l in 0..VARIABLES {
        read[l] = counts[VARIABLES * p + l];
    }
    read
}

// Adds up the counts of level p.
pub(crate) fn total_of(counts: &[usize], p: usize) -> usize
    requires p_lt_most_variables { (p < most_variables) × (counts_size ≤ length counts.now) }
    requires counts_bound { sum ◌+◌ 0 (counts_of p counts.now) ≤ most_nodes }
    ensures { result ≡ sum ◌+◌ 0 (counts_of p counts.now) }
{
    let mut total: usize = 0;
    for l in 0..VARIABLES {
        total += counts[VARIABLES * p + l];
    }
    total
}
