// The way down: level after level the entries' halves are linked, their parts in two regions in turn, until no entry is left.
ghost use Rattle.std.specs.Prelude.{◌≡◌, [], ◌++◌, suc, ◌+◌, ◌*◌, ◌≤◌, ◌<◌, T, length, replicate};
ghost use Rattle.lists.specs.Written.{splice};
ghost use Rattle.diagram.specs.Networks.Bound.{most_variables};
ghost use Rattle.reorder.specs.Sizes.{width};
ghost use Rattle.matching.specs.Links.{link_bytes};
ghost use Rattle.matching.specs.Fits.{level_fits};
ghost use Rattle.fill.specs.Work.{work_size, links_at, all_links};
ghost use Rattle.matching.specs.Level.{parts_at, written};
ghost use Rattle.fill.specs.Calls.{per_level};
ghost use Rattle.fill.specs.Inner.Descent.{level_below, links_below, counts_below, roomy, holding, links_up_to};

use crate::fitting::{Entries, level};
use crate::outputs::zero;
use diagram::VARIABLES;
use matching::REGION;
use reorder::width::width_of;

// One level: links the halves of the entries' parts among the entries at to, and makes the bytes of those parts zero again. Returns the
// entries at to.
pub(crate) fn level_below(
    d: usize,
    entries: Entries,
    to: usize,
    links: usize,
    work: &mut [u8],
) -> Entries
    requires { T (level_fits d entries.from entries.count to links (length work.old)) }
    ensures from { result.from ≡ to }
    ensures count { result.count
        ≡ length (level_below d (parts_at (suc d) entries.count entries.from work.old)).parts }
    ensures work { work.new
        ≡ splice (written (level_below d (parts_at (suc d) entries.count entries.from work.old)) to links work.old)
        entries.from (replicate (entries.count * (width (suc d) + width (suc d))) 0) }
{
    let below = level(d, entries, to, links, work);
    let v = width_of(d + 1);
    zero(entries.from, entries.count * (v + v), work);
    below
}

// From the count entries of n variables in the first region down to none: their links go to links and behind it. Returns how many entries
// each level has.
pub(crate) fn descend(n: usize, count: usize, links: usize, work: &mut [u8]) -> [usize; VARIABLES]
    requires in_bounds { (n ≤ most_variables) × (links_at ≤ links) × (work_size ≤ length work.old) }
    requires holds_entries { work.old ≡ holding 0 (parts_at n count 0 work.old) (links_up_to links work.old) work.old }
    requires has_room { T (roomy n (parts_at n count 0 work.old)) }
    requires links_fit { links + 2 * length (all_links (links_below n (parts_at n count 0 work.old))) ≤ work_size }
    ensures entries { result ≡ per_level (counts_below n (parts_at n count 0 work.old)) }
    ensures work { work.new
        ≡ holding 0 [] (links_up_to links work.old ++ link_bytes (all_links (links_below n (parts_at n count 0 work.old))))
        work.old }
{
    let mut counts = [0usize; VARIABLES];
    let mut entries = Entries { from: 0, count };
    let mut at = links;
    for d in (0..n).rev() {
        counts[n - 1 - d] = entries.count;
        let below = level_below(d, entries, REGION - entries.from, at, work);
        at += 4 * entries.count;
        entries = below;
    }
    counts
}
