// The entries of a level, as pairs: each class once, as it was seen first (document 02, 2.7). Marks in slots tell most classes apart
// without a search.
ghost use Rattle.std.specs.Prelude.{◌≡◌, true, [], ◌≤◌, ◌<◌, ◌++◌, ◌∷◌, length, take, None};
ghost use Rattle.std.specs.List.{position};
ghost use Rattle.diagram.specs.Exchanging.Exchange.{opposite_pair, normal_pair, same_class, entries_after, link_into};
ghost use Rattle.matching.specs.Links.{link_number};
ghost use Rattle.network.specs.Levels.{stored_limit};
ghost use Rattle.swapping.specs.Inner.Exchange.{slots, pair_slot, most_pairs};

use crate::pairs::Pair;
use std::marker::Model;

// How many entries a level may have; specs/Inner/Exchange.antt has the definition, `most_pairs`.
pub(crate) const PAIRS: usize = 4350;

// How many slots there are; specs/Inner/Exchange.antt has the definition, `slots`.
const SLOTS: usize = 8192;

// What a reference is below; network's specs/Levels.antt has the definition, `stored_limit`.
const STORED: usize = 65536;

// The slot of a class, by its normal pair.
#[tactic(auto, unfolding(crate::specs::Inner::Exchange::pair_slot))]
fn slot_of(normal: Pair) -> usize
    ensures { (result ≡ pair_slot normal) × (result < slots) }
{
    let low = normal.low();
    (low / 2 + 1021 * (normal.high() + STORED - low)) % SLOTS
}

// Whether two pairs are of one class, where `opposite` is the inverse of the first.
fn is_alike(pair: Pair, opposite: Pair, entry: Pair) -> bool
    requires { opposite ≡ opposite_pair true pair }
    ensures { result ≡ same_class pair entry }
{
    entry == pair || entry == opposite
}

// A list of pairs, and for each slot a mark: the number of the last entry that was put there, counted from 1.
#[derive(Drop)]
pub(crate) struct Entries {
    list: [Pair; PAIRS],
    len: usize,
    marks: [u16; SLOTS],
}

// Clauses see the entries.
impl Model for Entries {
    ghost use Rattle.std.specs.Prelude.{List, take, ◌≤◌};
    ghost use Rattle.diagram.specs.Exchanging.Exchange as exchange;
    ghost use Rattle.swapping.specs.Inner.Exchange.{most_pairs, Seen};

    ghost Value = { List exchange.Pair };

    ghost view = { λ e. take e.len e.list };

    ghost invariant = { λ e. (e.len ≤ most_pairs) × Seen (take e.len e.list) e.marks };
}

impl Entries {
    pub(crate) fn new() -> Entries
        ensures { result ≡ [] }
    {
        Entries {
            list: [Pair::both(0); PAIRS],
            len: 0,
            marks: [0; SLOTS],
        }
    }

    pub(crate) fn clear(&mut self)
        ensures { self.new ≡ [] }
    {
        self.len = 0;
        self.marks.fill(0);
    }

    // Copies the entries to the front of a list. Gives how many there are.
    pub(crate) fn copy_to(&self, list: &mut [Pair]) -> usize
        requires { most_pairs ≤ length list.old }
        ensures count { (result ≡ length self.now) × (result ≤ most_pairs) }
        ensures copied { take result list.new ≡ self.now }
    {
        let len = self.len;
        list[..len].copy_from_slice(&self.list[..len]);
        len
    }

    // The number of the entry of the pair's class, by the mark of the class's slot where that tells it.
    fn find(&self, pair: Pair, opposite: Pair, slot: usize) -> Option<usize>
        requires slot { (slot ≡ pair_slot (normal_pair pair)) × (slot < slots) }
        requires opposite { opposite ≡ opposite_pair true pair }
        ensures { result ≡ position (same_class pair) self.now }
    {
        let mark = self.marks[slot] as usize;
        if mark == 0 {
            return None;
        }
        if mark <= self.len && is_alike(pair, opposite, self.list[mark - 1]) {
            return Some(mark - 1);
        }
        let len = self.len;
        self.list[..len]
            .iter()
            .position(|entry| is_alike(pair, opposite, *entry))
    }

    // Puts a pair of a new class behind the others.
    fn append(&mut self, pair: Pair, slot: usize)
        requires slot { (slot ≡ pair_slot (normal_pair pair)) × (slot < slots) }
        requires room { length self.old < most_pairs }
        requires new { position (same_class pair) self.old ≡ None }
        ensures { self.new ≡ self.old ++ pair ∷ [] }
    {
        self.list[self.len] = pair;
        self.len += 1;
        self.marks[slot] = self.len as u16;
    }

    // Sees a pair: appends it where its class is new. Gives the number of its link.
    pub(crate) fn place(&mut self, pair: Pair) -> usize
        requires { length self.old < most_pairs }
        ensures entries { self.new ≡ entries_after self.old pair }
        ensures link { (result ≡ link_number (link_into self.new pair)) × (result < stored_limit) }
    {
        if pair.is_constant() {
            return pair.low();
        }
        let opposite = pair.opposite();
        let slot = slot_of(pair.normal());
        if let Some(k) = self.find(pair, opposite, slot) {
            let entry = self.list[k];
            return 2 * (k + 1) + (pair.low() + entry.low()) % 2;
        }
        self.append(pair, slot);
        2 * self.len
    }
}
