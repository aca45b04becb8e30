// The network's nodes, read off the links of the levels.
ghost use Rattle.std.specs.Prelude.{◌≡◌, [], ◌∷◌, ℕ, ◌+◌, ◌-◌, ◌*◌, ◌<◌, ◌≤◌, length, get_or};
ghost use Rattle.std.proofs.lemmas.List.Edits.{sets};
ghost use Rattle.lists.specs.Sums.{sum_below};
ghost use Rattle.diagram.specs.Networks.Bound.{most_variables, most_outputs};
ghost use Rattle.fill.specs.Work.{work_size};
ghost use Rattle.block.specs.Numbers.{number_limit};
ghost use Rattle.network.specs.Levels.{stored_limit, made, entry_made, level_made, level_at, levels_made};

use crate::links::{link_ref, put_stored, stored_at, turned};
use diagram::VARIABLES;
use fill::LINKS;

// Puts the node with index k.
fn put_node(cells: &mut [u16], k: usize, level: usize, low: usize, high: usize)
    requires { (3 * k + 2 < length cells.old) × (level < number_limit) × (low < number_limit) × (high < number_limit) }
    ensures { cells.new ≡ sets cells.old (3 * k) (level ∷ low ∷ high ∷ []) }
{
    let i = 3 * k;
    cells[i] = level as u16;
    cells[i + 1] = low as u16;
    cells[i + 2] = high as u16;
}

// Reads the entry of level p whose links begin at byte i: its node, if its links differ, and its reference. Gives the next node's index.
fn read_entry(
    p: usize,
    work: &mut [u8],
    i: usize,
    below: usize,
    next: usize,
    cells: &mut [u16],
) -> usize
    requires in_work { (p < most_variables) × (below ≤ work_size) × (i < work_size) × (i + 1 < length work.old) }
    requires small { 2 * (entry_made p below i (made work.old cells.old next)).next + 1 < stored_limit }
    requires room { 3 * (entry_made p below i (made work.old cells.old next)).next ≤ length cells.old }
    ensures { made work.new cells.new result ≡ entry_made p below i (made work.old cells.old next) }
{
    let k = stored_at(work, i);
    let l = stored_at(work, i + 2);
    let r = link_ref(work, below, k);
    if k == l {
        put_stored(work, i, r);
        return next;
    }
    let q = link_ref(work, below, l);
    let odd = r % 2 == 1;
    let low = turned(r, odd);
    let high = turned(q, odd);
    put_node(cells, next, p, low, high);
    put_stored(work, i, 2 * (next + 1) + r % 2);
    next + 1
}

// Reads e entries of level p, the first one's links at byte i, with nodes from index base on. Gives the next node's index.
fn read_level(
    p: usize,
    work: &mut [u8],
    i: usize,
    e: usize,
    below: usize,
    base: usize,
    cells: &mut [u16],
) -> usize
    requires in_work { (p < most_variables) × (below ≤ work_size) × (i + 4 * e ≤ work_size) × (i + 4 * e ≤ length work.old) }
    requires small { 2 * (level_made p below i e (made work.old cells.old base)).next + 1 < stored_limit }
    requires room { 3 * (level_made p below i e (made work.old cells.old base)).next ≤ length cells.old }
    ensures { made work.new cells.new result ≡ level_made p below i e (made work.old cells.old base) }
{
    let mut next = base;
    for j in 0..e {
        let at = i + 4 * j;
        next = read_entry(p, work, at, below, next, cells);
    }
    next
}

// Where the links of the n levels end, behind those of m outputs.
pub(crate) fn links_end(n: usize, m: usize, entries: [usize; VARIABLES]) -> usize
    requires { (n ≤ most_variables) × (m ≤ most_outputs) × (level_at m entries n ≤ work_size) }
    ensures { result ≡ level_at m entries n }
{
    let mut end = LINKS + 2 * m;
    for e in &entries[..n] {
        end += 4 * *e;
    }
    end
}

// Reads the n levels, the lowest first; their links end at byte `end`, and their nodes are `total`.
pub(crate) fn read_levels(
    n: usize,
    m: usize,
    entries: [usize; VARIABLES],
    counts: [usize; VARIABLES],
    end: usize,
    total: usize,
    work: &mut [u8],
    cells: &mut [u16],
)
    requires in_work { (n ≤ most_variables) × (end ≡ level_at m entries n) × (end ≤ work_size) × (end ≤ length work.old) }
    requires all_nodes { (total ≡ sum_below (λ q. get_or counts q 0) n) × (2 * total + 1 < stored_limit) × (3 * total ≤ length cells.old) }
    requires nodes_in_all { (q : ℕ) → q < n → (levels_made m entries counts q (n - q) (made work.old cells.old 0)).next ≤ total }
    ensures work { work.new ≡ (levels_made m entries counts 0 n (made work.old cells.old 0)).work }
    ensures cells { cells.new ≡ (levels_made m entries counts 0 n (made work.old cells.old 0)).cells }
{
    let mut below = end;
    let mut base = total;
    for p in (0..n).rev() {
        let e = entries[p];
        let i = below - 4 * e;
        base -= counts[p];
        read_level(p, work, i, e, below, base, cells);
        below = i;
    }
}
