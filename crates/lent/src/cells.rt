// Lent cells and roots: whether the counted cells and the outputs' roots are a well-formed diagram (document 01, number 24).
ghost use Rattle.std.specs.Prelude.{◌≡◌, true, ◌/◌, ◌≤◌, ◌<◌, length};
ghost use Rattle.lists.specs.Lists.{all};
ghost use Rattle.diagram.specs.Networks.Diagram.{later, refers, node_good, well_formed};
ghost use Rattle.lent.specs.Lent.{lent_node, lent_cells, lent_diagram};
ghost use Rattle.lent.specs.Evaluate.{good_cells};

use table::State;

// The counted cells, all of them lent.
#[derive(Clone, Copy)]
struct Counted<'a> {
    cells: &'a [u16],
    count: usize,
    ghost count_in_bounds: { count ≤ length cells.now / 3 },
}

impl<'a> Counted<'a> {
    // Whether a reference is a constant, or to a counted cell at a level after p.
    fn later_than(&self, p: usize, r: usize) -> bool
        ensures { result ≡ later true (lent_cells self.now.count self.now.cells.now) p r }
    {
        if r < 2 {
            return true;
        }
        if self.count + self.count + 1 < r {
            return false;
        }
        p < self.cells[3 * (r / 2 - 1)] as usize
    }

    // Whether cell i, from 0, has a level below n and edges only to later levels or constants.
    fn node_good(&self, n: usize, i: usize) -> bool
        requires { i < self.now.count }
        ensures { result ≡ node_good true n (lent_cells self.now.count self.now.cells.now) (lent_node self.now.cells.now i) }
    {
        let p = self.cells[3 * i] as usize;
        let low = self.cells[3 * i + 1] as usize;
        let high = self.cells[3 * i + 2] as usize;
        p < n && self.later_than(p, low) && self.later_than(p, high)
    }

    // Whether every counted cell is good.
    fn nodes_good(&self, n: usize) -> bool
        ensures { result
            ≡ all (node_good true n (lent_cells self.now.count self.now.cells.now)) (lent_cells self.now.count self.now.cells.now).nodes }
    {
        (0..self.count).all(|i| self.node_good(n, i))
    }

    // Whether each root is a constant or to a counted cell.
    fn roots_good(&self, roots: &[u16]) -> bool
        ensures { result ≡ all (refers true (lent_cells self.now.count self.now.cells.now)) roots.now }
    {
        let most = self.count + self.count + 1;
        roots.iter().all(|root| *root as usize <= most)
    }

    // Whether these and the roots, one for each output, are a well-formed diagram of n levels.
    fn well_formed(&self, roots: &[u16], n: usize) -> bool
        ensures { result ≡ well_formed true n (length roots.now) (lent_diagram self.now.count (length roots.now) self.now.cells.now roots.now) }
    {
        self.roots_good(roots) && self.nodes_good(n)
    }
}

// Whether the lent cells are enough for the count, and with the roots a well-formed diagram: what number 24 asks.
pub fn good_cells(state: State, roots: &[u16], cells: &[u16]) -> bool
    ensures { result ≡ good_cells state roots.now cells.now }
{
    let count = state.count;
    if cells.len() / 3 < count || roots.len() < state.m {
        return false;
    }
    Counted { cells, count }.well_formed(&roots[..state.m], state.n)
}
