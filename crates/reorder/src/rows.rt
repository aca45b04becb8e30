// The rows of a table reordered under an order: the drawn row behind each.
ghost use Rattle.std.specs.Prelude.{◌≡◌, map as each, ◌++◌, ℕ, suc, ◌+◌, ◌-◌, ◌≤◌, ◌<◌, length, get_or, take, drop};
ghost use Rattle.lists.specs.Lists.{up_to};
ghost use Rattle.diagram.specs.Networks.Bound.{most_variables};
ghost use Rattle.reorder.specs.Gather.{row_map};
ghost use Rattle.reorder.specs.Inner.Rows.{row_shares};

use crate::ROWS;
use diagram::VARIABLES;
use table::order::level_of;

// What each bit of a row adds to the drawn row behind it, the lowest bit first: that of level p is bit n - 1 - p.
fn shares(order: [usize; VARIABLES], n: usize) -> [u16; VARIABLES]
    requires { n ≤ most_variables }
    ensures { result ≡ row_shares n order }
{
    let mut shares = [0u16; VARIABLES];
    for v in 0..n {
        let bit = n.saturating_sub(level_of(order, n, v)).saturating_sub(1);
        shares[bit] += 1u16 << (n - 1 - v);
    }
    shares
}

// The map with one bit more: after its first rows the same again, each with the share of that bit added.
fn double(map: &mut [u16], count: usize, share: u16)
    requires room { count + count ≤ length map.old }
    requires rows_fit { (s : ℕ) → s < count → get_or map.old s 0 + share < 65536 }
    ensures { map.new
        ≡ take count map.old
        ++ (each (λ s. get_or map.old s 0 + share) (up_to count) ++ drop (count + count) map.old) }
{
    let (rows, rest) = map.split_at_mut(count);
    for (s, row) in rows.iter().enumerate() {
        rest[s] = *row + share;
    }
}

// The drawn row behind each row under the order of the first n entries; zeros past the rows, and where n is too large. Not inlined: its
// array would stand on the stack twice for as long as the caller runs.
#[inline(never)]
pub fn row_map(order: [usize; VARIABLES], n: usize) -> [u16; ROWS]
    ensures { result ≡ row_map n order }
{
    let mut map = [0u16; ROWS];
    if VARIABLES < n {
        return map;
    }
    let shares = shares(order, n);
    for (l, share) in shares[..n].iter().enumerate() {
        double(&mut map, 1 << l, *share);
    }
    map
}
