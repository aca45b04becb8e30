// The cells of each level, counted from the links in the work buffer: an entry whose two links differ is a cell.
ghost use Rattle.std.specs.Prelude.{◌≡◌, ◌+◌, ◌*◌, ◌/◌, ◌≤◌, leb, length, take};
ghost use mathlib.Core.List.{sum};
ghost use Rattle.diagram.specs.Networks.Bound.{most_variables, most_outputs};
ghost use Rattle.fill.specs.Work.{work_size, links_at};
ghost use Rattle.fill.specs.Calls.{per_level};
ghost use Rattle.fill.specs.Counts.{pair_differs, differing_pairs, counts_at, links_end, links_fit};

use crate::{LINKS, WORK};
use diagram::{OUTPUTS, VARIABLES};

// Whether the links of levels with so many entries each, from byte at on, end at byte end or before it, however many entries are told: no
// sum is too large.
fn ends_within(entries: &[usize], at: usize, end: usize) -> bool
    requires { at ≤ end }
    ensures { result ≡ leb (links_end at entries.now) end }
{
    let mut room = end - at;
    for &pairs in entries {
        if room / 4 < pairs {
            return false;
        }
        room -= 4 * pairs;
    }
    true
}

// Whether a work buffer of so many bytes has its size, and the links of m outputs and n levels lie in it.
#[tactic(auto, unfolding(crate::specs::Counts::links_fit, crate::specs::Work::work_size, crate::specs::Work::links_at))]
pub(crate) fn links_fit(n: usize, m: usize, entries: [usize; VARIABLES], long: usize) -> bool
    ensures { result ≡ links_fit n m entries long }
{
    n <= VARIABLES
        && m <= OUTPUTS
        && WORK <= long
        && ends_within(&entries[..n], LINKS + 2 * m, WORK)
}

// Whether an entry's two links differ.
#[tactic(auto, unfolding(crate::specs::Counts::pair_differs))]
fn pair_differs(pair: &[u8; 4]) -> bool
    ensures { result ≡ pair_differs pair.now 0 }
{
    u16::from_le_bytes([pair[0], pair[1]]) != u16::from_le_bytes([pair[2], pair[3]])
}

// How many entries have two links that differ, of those whose links these are.
pub(crate) fn differing_pairs(links: &[u8]) -> usize
    ensures { result ≡ differing_pairs links.now 0 (length links.now / 4) }
{
    let (pairs, _) = links.as_chunks::<4>();
    pairs.iter().filter(|pair| pair_differs(pair)).count()
}

// The cells of each of n levels, whose links lie behind those of m outputs.
pub(crate) fn level_counts(
    n: usize,
    m: usize,
    entries: [usize; VARIABLES],
    work: &[u8],
) -> [usize; VARIABLES]
    requires { (n ≤ most_variables) × (m ≤ most_outputs) × (links_end (links_at + 2 * m) (take n entries) ≤ length work.now) }
    ensures { result ≡ per_level (counts_at work.now (links_at + 2 * m) (take n entries)) }
{
    // By index: of what is written through a zipped `iter_mut` only the length is known.
    let mut counts = [0usize; VARIABLES];
    let levels = &entries[..n];
    let mut at = LINKS + 2 * m;
    for (p, &pairs) in levels.iter().enumerate() {
        let end = at + 4 * pairs;
        counts[p] = differing_pairs(&work[at..end]);
        at = end;
    }
    counts
}

// All of them.
pub(crate) fn total(counts: [usize; VARIABLES]) -> usize
    requires { sum ◌+◌ 0 counts ≤ work_size }
    ensures { result ≡ sum ◌+◌ 0 counts }
{
    counts.iter().sum()
}
