// The numbering of lent cells: level by level from the roots down, the nodes that are seen first must be the next ones.
ghost use Rattle.std.specs.Prelude.{◌≡◌, true, [], ◌∷◌, ℕ, ◌+◌, ◌*◌, ◌≤◌, ◌<◌, eqb, length, get_or, take};
ghost use Rattle.lists.specs.Lists.{firsts};
ghost use Rattle.diagram.specs.Networks.Bound.{most_variables, most_nodes};
ghost use Rattle.diagram.specs.Canonical.Structure.{targets, all_targets, numbered};
ghost use Rattle.canonical.specs.Inner.Walk.{arrived, arrived_all, lent_spread, Own, Markable, followed};
ghost use Rattle.lent.specs.Lent.{lent_cells};

use block::numbers::lent_number;
use diagram::NODES;
use std::marker::Model;

// A list of nodes, each once, as they were seen first. The mark of each of them is the list's stamp, and no other node has it.
#[derive(Drop)]
struct Seen {
    list: [u16; NODES],
    len: usize,
    marks: [u8; NODES],
    stamp: u8,
}

// Clauses see the nodes.
impl Model for Seen {
    ghost use Rattle.std.specs.Prelude.{ℕ, List, take, ◌≤◌};
    ghost use Rattle.diagram.specs.Networks.Bound.{most_nodes};
    ghost use Rattle.canonical.specs.Inner.Walk.{Listed};

    ghost Value = { List ℕ };

    ghost view = { λ s. take s.len s.list };

    ghost invariant = { λ s. (s.len ≤ most_nodes) × Listed s.stamp (take s.len s.list) s.marks };
}

impl Seen {
    fn new() -> Seen
        ensures { result ≡ [] }
    {
        Seen {
            list: [0; NODES],
            len: 0,
            marks: [0; NODES],
            stamp: 1,
        }
    }

    // Empties the list, under a new stamp. The marks are zero again where there are no more stamps.
    fn clear(&mut self)
        ensures { self.new ≡ [] }
    {
        self.len = 0;
        if self.stamp == u8::MAX {
            self.marks.fill(0);
            self.stamp = 0;
        }
        self.stamp += 1;
    }

    // Copies the nodes to the front of a list. Gives how many there are.
    fn copy_to(&self, list: &mut [u16]) -> usize
        requires { most_nodes ≤ length list.old }
        ensures count { (result ≡ length self.now) × (result ≤ most_nodes) }
        ensures copied { take result list.new ≡ self.now }
    {
        let len = self.len;
        list[..len].copy_from_slice(&self.list[..len]);
        len
    }

    // Appends node k, unless it stands in the list.
    fn arrive(&mut self, k: usize)
        requires { k < most_nodes }
        ensures { self.new ≡ arrived self.old k }
    {
        if self.marks[k] == self.stamp {
            return;
        }
        self.marks[k] = self.stamp;
        self.list[self.len] = k as u16;
        self.len += 1;
    }

    // Appends the node that a reference is to, if it is no constant.
    fn arrive_ref(&mut self, r: usize)
        requires { r ≤ most_nodes + most_nodes + 1 }
        ensures { self.new ≡ arrived_all self.old (targets true r) }
    {
        if 2 <= r {
            self.arrive(r / 2 - 1);
        }
    }
}

// Appends what node k is below level p: what its edges are to if it stands there, itself if not.
fn spread_node(cells: &[u16], p: usize, k: usize, below: &mut Seen)
    requires { Markable cells.now k }
    ensures { below.new ≡ arrived_all below.old (lent_spread cells.now p (k ∷ [])) }
{
    let first = 3 * k;
    if lent_number(cells, first) != p {
        below.arrive(k);
        return;
    }
    below.arrive_ref(lent_number(cells, first + 1));
    below.arrive_ref(lent_number(cells, first + 2));
}

// Lists the nodes below level p of the nodes seen at it.
fn spread_level(cells: &[u16], p: usize, level: &[u16], below: &mut Seen)
    requires { (i : ℕ) → i < length level.now → Markable cells.now (get_or level.now i 0) }
    ensures { below.new ≡ firsts eqb (lent_spread cells.now p level.now) }
{
    below.clear();
    for k in level {
        spread_node(cells, p, *k as usize, below);
    }
}

// Lists the nodes that the roots are to.
fn spread_roots(roots: &[u16], top: &mut Seen)
    requires empty { top.old ≡ [] }
    requires roots { (j : ℕ) → j < length roots.now → get_or roots.now j 0 ≤ most_nodes + most_nodes + 1 }
    ensures { top.new ≡ firsts eqb (all_targets true roots.now) }
{
    for r in roots {
        top.arrive_ref(*r as usize);
    }
}

// The number after those of the nodes seen at level p that stand there, where they are the next ones.
fn standing_from(cells: &[u16], p: usize, next: usize, level: &[u16]) -> Option<usize>
    requires { (length level.now ≤ most_nodes) × (next ≤ most_variables * most_nodes) }
    ensures { result ≡ followed cells.now p next level.now }
{
    let mut after = next;
    for node in level {
        let k = *node as usize;
        if lent_number(cells, 3 * k) == p {
            if k != after {
                return None;
            }
            after += 1;
        }
    }
    Some(after)
}

// Whether the numbering is section 4's.
pub(crate) fn numbers_rise(cells: &[u16], count: usize, n: usize, roots: &[u16], m: usize) -> bool
    requires few { (n ≤ most_variables) × (count ≤ most_nodes) × (m ≤ length roots.now) }
    requires edges { Own count cells.now }
    requires roots { (j : ℕ) → j < m → get_or roots.now j 0 ≤ count + count + 1 }
    ensures { result ≡ numbered true (lent_cells count cells.now) n 0 0
        (firsts eqb (all_targets true (take m roots.now))) }
{
    let mut level = [0u16; NODES];
    let mut below = Seen::new();
    spread_roots(&roots[..m], &mut below);
    let mut next = 0;
    for p in 0..n {
        let len = below.copy_to(&mut level);
        let Some(after) = standing_from(cells, p, next, &level[..len]) else {
            return false;
        };
        next = after;
        spread_level(cells, p, &level[..len], &mut below);
    }
    next == count
}
