// What a row gives at a reference: from cell to cell along the edge for the row's bit (document 01, section 4).
ghost use Rattle.std.specs.Prelude.{◌≡◌, true, cond, ◌≤◌, ◌<◌, T, eqb, length, get_or};
ghost use Rattle.lists.specs.Bits.{digit, bit, packed};
ghost use Rattle.diagram.specs.Networks.Diagram.{edge, node_at, refers, gives};
ghost use Rattle.diagram.specs.Orders.Order.{row_under};
ghost use Rattle.table.specs.State.{order_of};
ghost use Rattle.lent.specs.Inner.Cells.{level_bit};
ghost use Rattle.lent.specs.Lent.{lent_cells};
ghost use Rattle.lent.specs.Evaluate.{row_outputs};

use crate::network::Network;

// The edge for a bit, by arithmetic in place of a branch (document 02, 2.5).
fn selected_edge(bit: usize, low: usize, high: usize) -> usize
    requires { bit ≤ 1 }
    ensures { result ≡ cond (eqb bit 1) high low }
{
    (1 - bit) * low + bit * high
}

// Number i of cells that were tested before they are followed: it needs no test of its own.
fn tested_number(cells: &[u16], i: usize) -> usize
    requires { i < length cells.now }
    ensures { result ≡ get_or cells.now i 0 }
{
    cells[i] as usize
}

impl<'a> Network<'a> {
    // The row's bit of variable v, as a number.
    fn variable_bit(&self, row: usize, v: usize) -> usize
        requires { v < self.now.state.n }
        ensures { result ≡ digit (bit self.now.state.n v row) }
    {
        row >> (self.state.n - 1 - v) & 1
    }

    // The row's bits by level, bit p that of level p: a step then shifts by the level and looks up no variable.
    pub(crate) fn level_bits(&self, row: usize) -> usize
        ensures { result ≡ packed self.now.state.n (row_under self.now.state.n (order_of self.now.state) row) }
    {
        let mut bits: usize = 0;
        for (p, v) in self.state.order[..self.state.n].iter().enumerate() {
            bits += self.variable_bit(row, *v) << p;
        }
        bits
    }

    // The edge of the cell behind r for the bit at the cell's level. The bit stays a number: of a bool the compiler would make a jump.
    fn next(&self, bits: usize, r: usize) -> usize
        requires { (2 ≤ r) × T (refers true (lent_cells self.now.state.count self.now.cells.now) r) }
        ensures { result
            ≡ edge (level_bit bits (node_at true (lent_cells self.now.state.count self.now.cells.now) r).level)
            (node_at true (lent_cells self.now.state.count self.now.cells.now) r) }
    {
        let first = 3 * (r / 2 - 1);
        let p = tested_number(self.cells, first);
        let low = tested_number(self.cells, first + 1);
        let high = tested_number(self.cells, first + 2);
        selected_edge(bits >> p & 1, low, high)
    }

    // What the row of these bits gives at a root.
    pub(crate) fn follow(&self, bits: usize, root: usize) -> bool
        requires { T (refers true (lent_cells self.now.state.count self.now.cells.now) root) }
        ensures { result ≡ gives true (lent_cells self.now.state.count self.now.cells.now) (level_bit bits) self.now.state.n root }
    {
        let mut inverted = false;
        let mut r = root;
        while 2 <= r {
            inverted ^= r % 2 == 1;
            r = self.next(bits, r);
        }
        inverted ^ (r == 1)
    }

    // What the row gives at each output's root: bit j is output j. Not inlined: in a loop over rows the compiler lays it out for slower steps.
    #[inline(never)]
    pub(crate) fn outputs(&self, row: usize) -> usize
        ensures { result ≡ row_outputs self.now.state row self.now.roots.now self.now.cells.now }
    {
        let bits = self.level_bits(row);
        let mut total: usize = 0;
        for (j, root) in self.roots[..self.state.m].iter().enumerate() {
            total += usize::from(self.follow(bits, *root as usize)) << j;
        }
        total
    }
}
