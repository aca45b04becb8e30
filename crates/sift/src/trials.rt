// Trying an order means filling and counting under it; trying a variable at every level, from the top down, finds the best of them
// (document 01, section 5; ties as in document 02, 2.3).
ghost use Rattle.std.specs.Prelude.{◌≡◌, ◌≤◌, ◌<◌, T, length};
ghost use Rattle.diagram.specs.Networks.Bound.{most_variables};
ghost use Rattle.table.specs.State.{good_heading, order_of, reordered_state};
ghost use Rattle.fill.specs.Work.{trials_zero};
ghost use Rattle.fill.specs.Calls.{held_table, enough, counts_size};
ghost use Rattle.sift.specs.Inner.Counts.{counts_under, MovedCounts};
ghost use Rattle.sift.specs.Inner.Trials.{taken, best_with, best_of, sifted_of};

use crate::counts::{counts_of, total_of};
use crate::order::moved_to;
use diagram::VARIABLES;
use fill::COUNTS;
use fill::counts::put_counts;
use table::order::level_of;
use table::{Stage, State};

// A table and an order of it, with the nodes of each level under that order.
#[derive(Clone, Copy)]
pub(crate) struct Counted<'v, 'c> {
    pub state: State,
    pub known: [usize; VARIABLES],
    pub values: &'v [u8],
    pub care: &'c [u8],
    ghost heading: { T (good_heading state.n state.m (order_of state)) },
    ghost counted: { known ≡ counts_under (held_table state values.now care.now) (order_of state) },
}

// The best level for a variable so far, the nodes with the variable there, and how many orders were tried to find it.
#[derive(Clone, Copy)]
pub(crate) struct Best {
    pub level: usize,
    pub cost: usize,
    pub tried: usize,
}

// The best level, and the nodes of each level with the variable there.
#[derive(Clone, Copy)]
pub(crate) struct Sifted {
    pub best: Best,
    pub counts: [usize; VARIABLES],
}

// The state with another order: its table, and no network.
pub(crate) fn reorder(state: State, order: [usize; VARIABLES]) -> State
    ensures { result ≡ reordered_state state order }
{
    State {
        n: state.n,
        m: state.m,
        order,
        count: 0,
        stage: Stage::Table,
    }
}

// Whether a level with so many nodes is taken: where none was tried before it, where it has fewer than the best, or as many and
// is the present one.
fn is_taken(best: Best, nodes: usize, present: bool) -> bool
    ensures { result ≡ taken best nodes present }
{
    if best.tried == 0 {
        return true;
    }
    if nodes == best.cost {
        return present;
    }
    nodes < best.cost
}

// Counts a trial of level p with so many nodes, and takes the level or leaves the best as it was.
fn try_level(best: Best, p: usize, nodes: usize, present: bool) -> Best
    requires { best.tried < most_variables }
    ensures { result ≡ best_with best p nodes present }
{
    let tried = best.tried + 1;
    if is_taken(best, nodes, present) {
        return Best {
            level: p,
            cost: nodes,
            tried,
        };
    }
    Best {
        level: best.level,
        cost: best.cost,
        tried,
    }
}

// Counts the nodes of each level with v at each level in turn, but where v stands: there they are known.
pub(crate) fn count_moves(table: &Counted, v: usize, counts: &mut [usize], work: &mut [u8])
    requires enough { T (enough table.now.values.now table.now.care.now work.old) }
    requires variable { v < table.now.state.n }
    requires room { counts_size ≤ length counts.old }
    ensures counts { MovedCounts (held_table table.now.state table.now.values.now table.now.care.now) v (order_of table.now.state) counts.new }
    ensures work { work.new ≡ trials_zero work.old }
{
    let state = table.state;
    let n = state.n;
    let order = state.order;
    let q = level_of(order, n, v);
    put_counts(counts, q, table.known);
    let top = moved_to(order, n, v, 0);
    let current = reorder(state, top);
    let _ = fill::try_levels(current, q, table.values, table.care, counts, work);
}

// Tries v at every level from the top down. Of those with the fewest nodes it takes the one where v stands, or else the topmost.
fn best_level(table: &Counted, v: usize, counts: &mut [usize], work: &mut [u8]) -> Best
    requires enough { T (enough table.now.values.now table.now.care.now work.old) }
    requires variable { v < table.now.state.n }
    requires room { counts_size ≤ length counts.old }
    ensures best { result ≡ best_of (held_table table.now.state table.now.values.now table.now.care.now) v (order_of table.now.state) }
    ensures counts { MovedCounts (held_table table.now.state table.now.values.now table.now.care.now) v (order_of table.now.state) counts.new }
    ensures work { work.new ≡ trials_zero work.old }
{
    count_moves(table, v, counts, work);
    let state = table.state;
    let order = state.order;
    let mut best = Best {
        level: 0,
        cost: 0,
        tried: 0,
    };
    for p in 0..state.n {
        let nodes = total_of(counts, p);
        best = try_level(best, p, nodes, order[p] == v);
    }
    best
}

// The best level for v, by the known counts of the state's order, and the counts with v there.
pub(crate) fn sift_one(table: &Counted, v: usize, work: &mut [u8]) -> Sifted
    requires enough { T (enough table.now.values.now table.now.care.now work.old) }
    requires variable { v < table.now.state.n }
    ensures sifted { result ≡ sifted_of (held_table table.now.state table.now.values.now table.now.care.now) v (order_of table.now.state) }
    ensures work { work.new ≡ trials_zero work.old }
{
    let mut counts = [0usize; COUNTS];
    let best = best_level(table, v, &mut counts, work);
    let left = counts_of(&counts, best.level);
    Sifted { best, counts: left }
}
