// Number 32: whether lent cells and roots are section 4's network of what they compute. No table is made: the structure decides it.
ghost use Rattle.std.specs.Prelude.{◌≡◌, true, ℕ, ◌+◌, ◌/◌, ◌≤◌, ◌<◌, length, get_or};
ghost use Rattle.diagram.specs.Networks.Bound.{most_variables, most_nodes};
ghost use Rattle.diagram.specs.Canonical.Structure.{structured};
ghost use Rattle.lent.specs.Lent.{lent_diagram};
ghost use Rattle.canonical.specs.Canonical.{canonical_answer};
ghost use Rattle.canonical.specs.Inner.Walk.{Own};

use crate::reduced::reduced;
use crate::walk::numbers_rise;
use diagram::NODES;
use lent::ROOTS;
use lent::cells::good_cells;
use table::{Answer, Refusal, State};

// Whether no node is redundant, none stands twice, and the numbering is section 4's.
fn is_structured(cells: &[u16], count: usize, roots: &[u16], n: usize, m: usize) -> bool
    requires n_le_most_variables { (n ≤ most_variables) × (count ≤ most_nodes) × Own count cells.now × (m ≤ length roots.now) }
    requires count_in_bounds { count ≤ length cells.now / 3 }
    requires by_index { (j : ℕ) → j < m → get_or roots.now j 0 ≤ count + count + 1 }
    ensures { result ≡ structured true n (lent_diagram count m cells.now roots.now) }
{
    if !reduced(cells, count) {
        return false;
    }
    numbers_rise(cells, count, n, roots, m)
}

// Answers 0 where the held cells and roots are section 4's network of what they compute. Refuses with 10, 22, 24, 32.
// More nodes than any network has are never one.
pub fn test_held(state: State, roots: &[u16], cells: &[u16]) -> Answer
    ensures { result ≡ canonical_answer state roots.now cells.now }
{
    if roots.len() < ROOTS {
        return Err(Refusal::ShortBuffer);
    }
    if !state.holds_network() {
        return Err(Refusal::NoNetwork);
    }
    if !good_cells(state, roots, cells) {
        return Err(Refusal::BadCells);
    }
    let count = state.count;
    if NODES < count {
        return Err(Refusal::NotCanonical);
    }
    if !is_structured(cells, count, roots, state.n, state.m) {
        return Err(Refusal::NotCanonical);
    }
    Ok(0)
}
