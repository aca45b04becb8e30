// The nodes of lent cells, one by one: that none is redundant, and that none stands twice.
ghost use Rattle.std.specs.Prelude.{◌≡◌, true, suc, ◌/◌, ◌≤◌, ◌<◌, length};
ghost use Rattle.lists.specs.Lists.{has};
ghost use Rattle.diagram.specs.Networks.Diagram.{same_node};
ghost use Rattle.diagram.specs.Canonical.Structure.{node_reduced};
ghost use Rattle.lent.specs.Lent.{lent_node};
ghost use Rattle.canonical.specs.Inner.Reduced.{lent_nodes, is_new, reduced_nodes, slots, node_slot, Slotted};

use std::marker::Model;

// How many slots the nodes are marked in; specs/Inner/Reduced.antt has the definition, `slots`.
const SLOTS: usize = 65536;

#[derive(Clone, Copy, PartialEq, Eq)]
struct Node {
    level: u16,
    low: u16,
    high: u16,
}

// Clauses see the node of the definitions.
impl Model for Node {
    ghost use Rattle.diagram.specs.Networks.Diagram as diagram;

    ghost Value = { diagram.Node };

    ghost view = { λ c. record { level = c.level; low = c.low; high = c.high } };

    ghost inverse = { λ c. record { level = c.level; low = c.low; high = c.high } };
}

impl Node {
    // Whether its low edge doesn't invert, and its two edges differ.
    fn is_reduced(self) -> bool
        ensures { result ≡ node_reduced true self }
    {
        self.low % 2 != 1 && self.low != self.high
    }

    #[tactic(auto, unfolding(crate::specs::Inner::Reduced::node_slot))]
    fn slot(self) -> usize
        ensures { (result ≡ node_slot self) × (result < slots) }
    {
        (self.level as usize + 31 * self.low as usize + 1021 * self.high as usize) % SLOTS
    }
}

// Node i of lent cells.
fn node_at(cells: &[u16], i: usize) -> Node
    requires { i < length cells.now / 3 }
    ensures { result ≡ lent_node cells.now i }
{
    let first = 3 * i;
    Node {
        level: cells[first],
        low: cells[first + 1],
        high: cells[first + 2],
    }
}

// Whether a node before node i is the same.
fn repeated(cells: &[u16], i: usize) -> bool
    requires { i < length cells.now / 3 }
    ensures { result ≡ has same_node (lent_node cells.now i) (lent_nodes cells.now i) }
{
    let node = node_at(cells, i);
    for j in 0..i {
        if node == node_at(cells, j) {
            return true;
        }
    }
    false
}

// Whether no node before node i is the same, and marks its slot. A slot with no mark yet spares the comparison with the nodes before.
fn is_new(cells: &[u16], i: usize, marks: &mut [bool]) -> bool
    requires { (i < length cells.now / 3) × Slotted cells.now i marks.old }
    ensures tested { result ≡ is_new cells.now i }
    ensures marks { Slotted cells.now (suc i) marks.new }
{
    let slot = node_at(cells, i).slot();
    if marks[slot] {
        return !repeated(cells, i);
    }
    marks[slot] = true;
    true
}

// Whether every node is reduced and new.
pub(crate) fn reduced(cells: &[u16], count: usize) -> bool
    requires { count ≤ length cells.now / 3 }
    ensures { result ≡ reduced_nodes cells.now count }
{
    let mut marks = [false; SLOTS];
    for i in 0..count {
        if !node_at(cells, i).is_reduced() {
            return false;
        }
        if !is_new(cells, i, &mut marks) {
            return false;
        }
    }
    true
}
