// One filling of a held table: level 0, the levels below it, and the cells of each.
ghost use Rattle.std.specs.Prelude.{◌≡◌, true, not, [], ◌≤◌, T, length};
ghost use Rattle.diagram.specs.Filling.Fill.{level};
ghost use Rattle.table.specs.State.{stage_of, is_nothing};
ghost use Rattle.fill.specs.Work.{work_size};
ghost use Rattle.fill.specs.Calls.{drawn_outputs, filled_levels};
ghost use Rattle.fill.specs.Inner.Filling.{first_work, filled_work};

use crate::cells::{level_counts, total};
use crate::descent::descend;
use crate::outputs::{link_outputs, zero};
use crate::{LINKS, Levels, WORK};
use reorder::rows::row_map;
use table::State;

// Level 0 in a work buffer that is made zero. Returns the number of entries.
pub(crate) fn first_level(state: State, values: &[u8], care: &[u8], work: &mut [u8]) -> usize
    requires t { T (not (is_nothing (stage_of state))) }
    requires work_size_in_bounds { work_size ≤ length work.old }
    ensures entries { result ≡ length (level true [] (drawn_outputs state values.now care.now)).entries }
    ensures work { work.new ≡ first_work state values.now care.now work.old }
{
    let n = state.n;
    let m = state.m;
    let order = state.order;
    zero(0, WORK, work);
    let rows = row_map(order, n);
    link_outputs(n, m, values, care, rows, work)
}

// All levels, and the cells of each.
pub(crate) fn fill_held(state: State, values: &[u8], care: &[u8], work: &mut [u8]) -> Levels
    requires t { T (not (is_nothing (stage_of state))) }
    requires work_size_in_bounds { work_size ≤ length work.old }
    ensures levels { result ≡ filled_levels state values.now care.now }
    ensures work { work.new ≡ filled_work state values.now care.now work.old }
{
    let n = state.n;
    let m = state.m;
    let count = first_level(state, values, care, work);
    let links = LINKS + 2 * m;
    let entries = descend(n, count, links, work);
    let counts = level_counts(n, m, entries, work);
    Levels {
        cells: total(counts),
        entries,
        counts,
    }
}
