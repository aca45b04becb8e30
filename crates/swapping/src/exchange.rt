// The links of the levels where levels p and p + 1 are exchanged, read off lent cells into the work buffer as the filling leaves its links
// (document 02, 2.7).
ghost use Rattle.std.specs.Prelude.{◌≡◌, [], ◌∷◌, map, ◌+◌, ◌*◌, ◌≤◌, ◌<◌, length, take};
ghost use Rattle.diagram.specs.Networks.Bound.{most_variables, most_outputs};
ghost use Rattle.diagram.specs.Exchanging.Exchange.{both, entries_after, entries_from, links_from, half_pairs, exchanged_trace};
ghost use Rattle.fill.specs.Work.{work_size, links_at, all_links};
ghost use Rattle.network.specs.Levels.{stored_limit, put_stored};
ghost use Rattle.swapping.specs.Inner.Exchange.{most_pairs, lent_at, put_links, Entered};

use crate::pairs::{Pair, half_pair};
use crate::seen::{Entries, PAIRS};
use diagram::VARIABLES;
use fill::LINKS;

// Puts a link's number at byte i, low byte first. As network's own leaf, which asks for room: no call between crates asks for anything.
fn put_stored(work: &mut [u8], i: usize, x: usize)
    requires { (i + 1 < length work.old) × (x < stored_limit) }
    ensures { work.new ≡ put_stored work.old i x }
{
    let [low, high] = (x as u16).to_le_bytes();
    work[i] = low;
    work[i + 1] = high;
}

// Sees a pair, and puts its link at byte `at`.
fn link_pair(pair: Pair, entries: &mut Entries, work: &mut [u8], at: usize)
    requires room { length entries.old < most_pairs }
    requires at_in_bounds { at + 1 < length work.old }
    ensures entries { entries.new ≡ entries_after entries.old pair }
    ensures work { work.new ≡ put_links work.old at (links_from entries.old (pair ∷ [])) }
{
    let link = entries.place(pair);
    put_stored(work, at, link);
}

// Links the two halves of an entry of level q, from byte `at` on.
// Cells and p are no struct: each clause would have to name it twice, as it was passed.
fn link_entry(
    cells: &[u16],
    p: usize,
    q: usize,
    entry: Pair,
    below: &mut Entries,
    work: &mut [u8],
    at: usize,
)
    requires place { p < most_variables }
    requires room { length below.old + 1 < most_pairs }
    requires at_in_bounds { at + 3 < length work.old }
    ensures below { below.new ≡ entries_from below.old (half_pairs (lent_at cells.now) p q (entry ∷ [])) }
    ensures work { work.new ≡ put_links work.old at
        (links_from below.old (half_pairs (lent_at cells.now) p q (entry ∷ []))) }
{
    let low = half_pair(cells, p, q, false, entry);
    link_pair(low, below, work, at);
    let high = half_pair(cells, p, q, true, entry);
    link_pair(high, below, work, at + 2);
}

// Links the halves of the entries of level q, from byte `at` on; the next level's entries come of it.
fn link_level(
    cells: &[u16],
    p: usize,
    q: usize,
    level: &[Pair],
    below: &mut Entries,
    work: &mut [u8],
    at: usize,
)
    requires place { p < most_variables }
    requires room { 2 * length level.now ≤ most_pairs }
    requires links_in_bounds { at + 4 * length level.now ≤ length work.old }
    ensures below { below.new ≡ entries_from [] (half_pairs (lent_at cells.now) p q level.now) }
    ensures work { work.new ≡ put_links work.old at
        (links_from [] (half_pairs (lent_at cells.now) p q level.now)) }
{
    below.clear();
    for (j, entry) in level.iter().enumerate() {
        link_entry(cells, p, q, *entry, below, work, at + 4 * j);
    }
}

// Links the roots; the top level's entries come of it.
fn link_roots(roots: &[u16], top: &mut Entries, work: &mut [u8])
    requires empty { top.old ≡ [] }
    requires room { length roots.now ≤ most_outputs }
    requires links_in_bounds { links_at + 2 * length roots.now ≤ length work.old }
    ensures top { top.new ≡ entries_from [] (map both roots.now) }
    ensures work { work.new ≡ put_links work.old links_at (links_from [] (map both roots.now)) }
{
    for (j, root) in roots.iter().enumerate() {
        let pair = Pair::both(*root as usize);
        link_pair(pair, top, work, LINKS + 2 * j);
    }
}

// Links the outputs and the n levels, from the work buffer's links on, with lists that are lent. Gives how many entries each level has.
fn link_levels(
    cells: &[u16],
    n: usize,
    p: usize,
    roots: &[u16],
    level: &mut [Pair],
    below: &mut Entries,
    work: &mut [u8],
) -> [usize; VARIABLES]
    requires few { (n ≤ most_variables) × (length roots.now ≤ most_outputs) }
    requires empty { below.old ≡ [] }
    requires place { p < most_variables }
    requires links_fit { length (all_links (exchanged_trace (lent_at cells.now) p n (map both roots.now))) ≤ most_pairs }
    requires level_room { most_pairs ≤ length level.old }
    requires work_room { work_size ≤ length work.old }
    ensures entries { Entered (lent_at cells.now) p n (map both roots.now) result }
    ensures work { work.new ≡ put_links work.old links_at
        (all_links (exchanged_trace (lent_at cells.now) p n (map both roots.now))) }
{
    let mut entries = [0usize; VARIABLES];
    link_roots(roots, below, work);
    let mut at = LINKS + 2 * roots.len();
    for q in 0..n {
        let len = below.copy_to(level);
        link_level(cells, p, q, &level[..len], below, work, at);
        entries[q] = len;
        at += 4 * len;
    }
    entries
}

// Links the first m outputs and the n levels where levels p and p + 1 are exchanged, with lists of its own.
pub(crate) fn exchanged_links(
    cells: &[u16],
    n: usize,
    p: usize,
    roots: &[u16],
    m: usize,
    work: &mut [u8],
) -> [usize; VARIABLES]
    requires n_le_most_variables { (n ≤ most_variables) × (p < most_variables) × (m ≤ most_outputs) × (m ≤ length roots.now) }
    requires roots_len_bound { length (all_links (exchanged_trace (lent_at cells.now) p n (map both (take m roots.now)))) ≤ most_pairs }
    requires work_size_in_bounds { work_size ≤ length work.old }
    ensures entries { Entered (lent_at cells.now) p n (map both (take m roots.now)) result }
    ensures work { work.new ≡ put_links work.old links_at
        (all_links (exchanged_trace (lent_at cells.now) p n (map both (take m roots.now)))) }
{
    let mut level = [Pair::both(0); PAIRS];
    let mut below = Entries::new();
    link_levels(cells, n, p, &roots[..m], &mut level, &mut below, work)
}
