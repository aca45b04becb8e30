// Pairs of references: an entry's halves where two levels are exchanged (document 02, 2.7), and its class.
ghost use Rattle.std.specs.Prelude.{◌≡◌, true, ◌<◌};
ghost use Rattle.diagram.specs.Networks.Bound.{most_variables};
ghost use Rattle.diagram.specs.Exchanging.Exchange.{pair, both as twice, opposite_pair, normal_pair, constant_pair, cofactor as cofactor_of};
ghost use Rattle.diagram.specs.Exchanging.Exchange.{half_pair};
ghost use Rattle.network.specs.Levels.{stored_limit};
ghost use Rattle.swapping.specs.Inner.Exchange.{lent_at};

use block::numbers::lent_number;
use network::links::turned;
use std::marker::Model;

// A low reference and a high.
#[derive(Clone, Copy, PartialEq, Eq)]
pub(crate) struct Pair {
    low: u16,
    high: u16,
}

// Clauses see the pair of the definitions.
impl Model for Pair {
    ghost use Rattle.diagram.specs.Exchanging.Exchange as exchange;

    ghost Value = { exchange.Pair };

    ghost view = { λ f. exchange.pair f.low f.high };

    ghost inverse = { λ f. record { low = f.low; high = f.high } };
}

impl Pair {
    pub(crate) fn new(low: usize, high: usize) -> Pair
        requires { (low < stored_limit) × (high < stored_limit) }
        ensures { result ≡ pair low high }
    {
        Pair {
            low: low as u16,
            high: high as u16,
        }
    }

    // One reference, whatever the variable is.
    pub(crate) fn both(r: usize) -> Pair
        requires { r < stored_limit }
        ensures { result ≡ twice r }
    {
        Pair::new(r, r)
    }

    pub(crate) fn low(self) -> usize
        ensures { (result ≡ self.low) × (result < stored_limit) }
    {
        self.low as usize
    }

    pub(crate) fn high(self) -> usize
        ensures { (result ≡ self.high) × (result < stored_limit) }
    {
        self.high as usize
    }

    // Whether it is one constant.
    pub(crate) fn is_constant(self) -> bool
        ensures { result ≡ constant_pair self }
    {
        self.low < 2 && self.low == self.high
    }

    // The pair of the inverse.
    pub(crate) fn opposite(self) -> Pair
        ensures { result ≡ opposite_pair true self }
    {
        Pair::new(turned(self.low(), true), turned(self.high(), true))
    }

    // The normal pair of its class.
    pub(crate) fn normal(self) -> Pair
        ensures { result ≡ normal_pair self }
    {
        if self.low % 2 == 1 {
            return self.opposite();
        }
        self
    }
}

// The cofactor of a reference by the variable at level q.
fn cofactor(cells: &[u16], q: usize, high: bool, r: usize) -> usize
    requires { r < stored_limit }
    ensures { (result ≡ cofactor_of (lent_at cells.now) q high r) × (result < stored_limit) }
{
    if r < 2 {
        return r;
    }
    let first = 3 * (r / 2 - 1);
    if lent_number(cells, first) != q {
        return r;
    }
    let odd = r % 2 == 1;
    if high {
        return turned(lent_number(cells, first + 2), odd);
    }
    turned(lent_number(cells, first + 1), odd)
}

// The half of an entry of level q, where levels p and p + 1 are exchanged.
pub(crate) fn half_pair(cells: &[u16], p: usize, q: usize, high: bool, entry: Pair) -> Pair
    requires { p < most_variables }
    ensures { result ≡ half_pair (lent_at cells.now) p q high entry }
{
    if q == p {
        let low = cofactor(cells, p, false, entry.low());
        let up = cofactor(cells, p, true, entry.high());
        return Pair::new(
            cofactor(cells, p + 1, high, low),
            cofactor(cells, p + 1, high, up),
        );
    }
    let r = if high { entry.high() } else { entry.low() };
    Pair::both(cofactor(cells, q, high, r))
}
