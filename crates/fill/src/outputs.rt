// Level 0: the candidates are the outputs, gathered under the order, and their links are the first in the work buffer.
ghost use Rattle.std.specs.Prelude.{◌≡◌, [], ◌∷◌, map, ◌+◌, ◌*◌, ◌≤◌, ◌<◌, length, replicate};
ghost use Rattle.lists.specs.Lists.{up_to};
ghost use Rattle.lists.specs.Written.{splice};
ghost use Rattle.diagram.specs.Networks.Bound.{most_variables, most_outputs};
ghost use Rattle.reorder.specs.Sizes.{width};
ghost use Rattle.matching.specs.Links.{region_size};
ghost use Rattle.fill.specs.Work.{work_size, links_at};
ghost use Rattle.matching.specs.Parts.{level_parts};
ghost use Rattle.matching.specs.Level.{parts_at, written};
ghost use Rattle.reorder.specs.Gather.{gathered_part};

use crate::LINKS;
use crate::fitting::{Entries, link_part};
use reorder::ROWS;
use reorder::gather::gather_output;
use reorder::width::width_of;

// Writes count zeros, from byte from on.
pub(crate) fn zero(from: usize, count: usize, l: &mut [u8])
    requires { from + count ≤ length l.old }
    ensures { l.new ≡ splice l.old from (replicate count 0) }
{
    l[from..from + count].fill(0);
}

// The planes and the rows go on to `gather_output`, which takes them one by one: a struct of them would be taken apart again.
//
// Links output j among the k entries in the first region, and writes its link. Returns the number of entries.
pub(crate) fn link_output(
    n: usize,
    j: usize,
    k: usize,
    values: &[u8],
    care: &[u8],
    rows: [u16; ROWS],
    work: &mut [u8],
) -> usize
    requires in_bounds { (n ≤ most_variables) × (j < most_outputs) × ((k + 1) * (width n + width n) ≤ region_size) }
    requires long_work { work_size ≤ length work.old }
    ensures entries { result
        ≡ length (level_parts (width n) (parts_at n k 0 work.old)
        (gathered_part values.now care.now rows n j ∷ [])).parts }
    ensures work { work.new
        ≡ written (level_parts (width n) (parts_at n k 0 work.old)
        (gathered_part values.now care.now rows n j ∷ [])) 0 (links_at + 2 * j) work.old }
{
    let part = gather_output(values, care, rows, n, j);
    let w = width_of(n);
    let s = w + w;
    let entries = Entries { from: 0, count: k };
    link_part(n, &part[..s], entries, LINKS + 2 * j, work)
}

// Links the m outputs among the entries in the first region, of which there are none yet. Returns the number of entries.
pub(crate) fn link_outputs(
    n: usize,
    m: usize,
    values: &[u8],
    care: &[u8],
    rows: [u16; ROWS],
    work: &mut [u8],
) -> usize
    requires in_bounds { (n ≤ most_variables) × (m ≤ most_outputs) }
    requires long_work { work_size ≤ length work.old }
    ensures entries { result
        ≡ length (level_parts (width n) []
        (map (gathered_part values.now care.now rows n) (up_to m))).parts }
    ensures work { work.new
        ≡ written (level_parts (width n) []
        (map (gathered_part values.now care.now rows n) (up_to m))) 0 links_at work.old }
{
    let mut k = 0;
    for j in 0..m {
        k = link_output(n, j, k, values, care, rows, work);
    }
    k
}
