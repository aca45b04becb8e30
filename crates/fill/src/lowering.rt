// The top variable of an order at each level in turn. The entries of the levels above it are kept, in two regions in turn; below it the
// levels are made from them in two regions of their own, and only counted.
//
// What holds of the work buffer stands in each contract: it is lent as a `&mut`, and a struct with a ghost field beside one isn't covered.
ghost use Rattle.std.specs.Prelude.{◌≡◌, [], cond, not, suc, ◌+◌, ◌*◌, ◌-◌, ◌≤◌, ◌<◌, T, eqb, length, set, take, drop};
ghost use Rattle.lists.specs.Written.{splice};
ghost use Rattle.diagram.specs.Networks.Bound.{most_variables};
ghost use Rattle.diagram.specs.Networks.Trace.{differing};
ghost use Rattle.table.specs.State.{stage_of, is_nothing};
ghost use Rattle.matching.specs.Links.{region_size};
ghost use Rattle.fill.specs.Work.{work_size, links_at, trials_size};
ghost use Rattle.fill.specs.Calls.{per_level, counts_size, tried_counts};
ghost use Rattle.fill.specs.Counts.{differing_pairs};
ghost use Rattle.matching.specs.Level.{parts_at};
ghost use Rattle.fill.specs.Inner.Descent.{roomy};
ghost use Rattle.fill.specs.Inner.Lowering.{first_regions, first_parts, level_links_at, lowered_below, counts_from};

use crate::cells::differing_pairs;
use crate::counts::write_counts;
use crate::fitting::{Entries, exchange_kept, level};
use crate::outputs::link_outputs;
use diagram::VARIABLES;
use matching::REGION;
use reorder::rows::row_map;
use table::State;

// Where the regions on the way down begin, and where the links of one level go, behind them.
const DOWN: usize = 2 * REGION;

const LEVEL_LINKS: usize = 4 * REGION;

// The kept entries, in one of the first two regions, and the cells of each level above them.
#[derive(Clone, Copy)]
pub(crate) struct Kept {
    pub entries: Entries,
    pub above: [usize; VARIABLES],
    ghost in_region: { T (first_regions entries.from) },
}

// The cells of a level of so many entries, by the links of the one level that are in the work buffer.
fn cells_of(entries: usize, work: &[u8]) -> usize
    requires { level_links_at + 4 * entries ≤ length work.now }
    ensures { result ≡ differing_pairs work.now level_links_at entries }
{
    differing_pairs(&work[LEVEL_LINKS..LEVEL_LINKS + 4 * entries])
}

// Counts the cells of the levels from p on, below the kept entries of d variables, which stay as they are.
pub(crate) fn count_below(p: usize, d: usize, kept: Kept, work: &mut [u8]) -> [usize; VARIABLES]
    requires levels_left { (p + d ≤ most_variables) × (kept.above ≡ per_level (take p kept.above)) }
    requires long_work { work_size ≤ length work.old }
    requires has_room { T (roomy d (parts_at d kept.entries.count kept.entries.from work.old)) }
    ensures counts { result ≡ counts_from p d kept.above (parts_at d kept.entries.count kept.entries.from work.old) }
    ensures kept { take links_at work.new ≡ take links_at work.old }
    ensures behind { drop trials_size work.new ≡ drop trials_size work.old }
{
    let mut counts = kept.above;
    let mut entries = kept.entries;
    let mut to = DOWN;
    for e in (0..d).rev() {
        let below = level(e, entries, to, LEVEL_LINKS, work);
        counts[p + d - 1 - e] = cells_of(entries.count, work);
        entries = below;
        to = 5 * REGION - to;
    }
    counts
}

// Counts with the variable at level p, where d variables are left, and writes the counts, unless p is the level to leave out.
pub(crate) fn count_kept(
    p: usize,
    d: usize,
    except: usize,
    kept: Kept,
    counts: &mut [usize],
    work: &mut [u8],
)
    requires levels_left { (p + d ≤ most_variables) × (p < most_variables) × (kept.above ≡ per_level (take p kept.above)) }
    requires long_buffers { (work_size ≤ length work.old) × (counts_size ≤ length counts.old) }
    requires has_room { T (roomy d (parts_at d kept.entries.count kept.entries.from work.old)) }
    ensures counts { counts.new
        ≡ cond (eqb p except) counts.old
        (splice counts.old (most_variables * p)
        (counts_from p d kept.above (parts_at d kept.entries.count kept.entries.from work.old))) }
    ensures kept { take links_at work.new ≡ take links_at work.old }
    ensures behind { drop trials_size work.new ≡ drop trials_size work.old }
{
    if p == except {
        return;
    }
    let levels = count_below(p, d, kept, work);
    write_counts(p, levels, counts);
}

// The variable goes below level p: the kept entries, of d + 2 variables, have it exchanged with the next one, and the level below them is
// kept in their stead.
pub(crate) fn lower(d: usize, p: usize, kept: Kept, work: &mut [u8]) -> Kept
    requires levels_left { (d + 2 ≤ most_variables) × (p < most_variables) }
    requires long_work { work_size ≤ length work.old }
    requires has_room { T (roomy (suc (suc d)) (parts_at (suc (suc d)) kept.entries.count kept.entries.from work.old))
        × T (roomy (suc d) (lowered_below d (parts_at (suc (suc d)) kept.entries.count kept.entries.from work.old)).parts) }
    ensures from { result.entries.from ≡ region_size - kept.entries.from }
    ensures entries { result.entries.count
        ≡ length (lowered_below d (parts_at (suc (suc d)) kept.entries.count kept.entries.from work.old)).parts }
    ensures above { result.above
        ≡ set kept.above p
        (differing (lowered_below d (parts_at (suc (suc d)) kept.entries.count kept.entries.from work.old)).links) }
    ensures parts { parts_at (suc d) result.entries.count result.entries.from work.new
        ≡ (lowered_below d (parts_at (suc (suc d)) kept.entries.count kept.entries.from work.old)).parts }
    ensures behind { drop trials_size work.new ≡ drop trials_size work.old }
{
    let upper = kept.entries;
    let mut above = kept.above;
    exchange_kept(d, upper, work);
    let entries = level(d + 1, upper, REGION - upper.from, LEVEL_LINKS, work);
    above[p] = cells_of(upper.count, work);
    Kept { entries, above }
}

// What is kept at first: the outputs' entries under the state's order, in the first region, and no level above them.
pub(crate) fn first_kept(state: State, values: &[u8], care: &[u8], work: &mut [u8]) -> Kept
    requires has_table { T (not (is_nothing (stage_of state))) }
    requires long_work { work_size ≤ length work.old }
    ensures from { result.entries.from ≡ 0 }
    ensures entries { result.entries.count ≡ length (first_parts state values.now care.now) }
    ensures above { result.above ≡ per_level [] }
    ensures parts { parts_at state.n result.entries.count 0 work.new ≡ first_parts state values.now care.now }
    ensures behind { drop trials_size work.new ≡ drop trials_size work.old }
{
    let rows = row_map(state.order, state.n);
    let count = link_outputs(state.n, state.m, values, care, rows, work);
    Kept {
        entries: Entries { from: 0, count },
        above: [0; VARIABLES],
    }
}

// All trials of a held table: with the variable at each level in turn, from the top down.
pub(crate) fn try_held(
    state: State,
    except: usize,
    values: &[u8],
    care: &[u8],
    counts: &mut [usize],
    work: &mut [u8],
)
    requires has_table { T (not (is_nothing (stage_of state))) }
    requires long_buffers { (work_size ≤ length work.old) × (counts_size ≤ length counts.old) }
    ensures counts { counts.new
        ≡ tried_counts state except values.now care.now counts.old state.n }
    ensures behind { drop trials_size work.new ≡ drop trials_size work.old }
{
    let mut kept = first_kept(state, values, care, work);
    let n = state.n;
    if n == 0 {
        return;
    }
    for p in 0..n - 1 {
        count_kept(p, n - p, except, kept, counts, work);
        kept = lower(n - p - 2, p, kept, work);
    }
    count_kept(n - 1, 1, except, kept, counts, work);
}
