// Reading a network off links in the work buffer: of a filling, or of whoever put them there.
ghost use Rattle.std.specs.Prelude.{◌≡◌, ℕ, ◌+◌, ◌-◌, ◌*◌, ◌<◌, ◌≤◌, length, get_or};
ghost use Rattle.lists.specs.Sums.{sum_below};
ghost use Rattle.lists.specs.Written.{over};
ghost use Rattle.diagram.specs.Networks.Bound.{most_variables, most_outputs};
ghost use Rattle.fill.specs.Work.{work_size, cleared_work};
ghost use Rattle.lent.specs.Lent.{roots_size};
ghost use Rattle.network.specs.Levels.{stored_limit, made, level_at, levels_made, root_at};
ghost use Rattle.network.specs.Reading.{read_links_answer, read_links_roots, read_links_cells, read_links_work};

use crate::levels::{links_end, read_levels};
use crate::roots::write_roots;
use diagram::VARIABLES;
use fill::{LINKS, clear, count_links};
use lent::ROOTS;
use table::{Answer, Refusal};

// Reads the levels and the outputs off the links in the work buffer, and clears it.
pub(crate) fn lay_out(
    n: usize,
    m: usize,
    entries: [usize; VARIABLES],
    counts: [usize; VARIABLES],
    total: usize,
    work: &mut [u8],
    roots: &mut [u16],
    cells: &mut [u16],
)
    requires n_le_most_variables { (n ≤ most_variables) × (m ≤ most_outputs)
        × (level_at m entries n ≤ work_size) × (level_at m entries n ≤ length work.old) }
    requires total_value { (total ≡ sum_below (λ q. get_or counts q 0) n) × (2 * total + 1 < stored_limit) × (3 * total ≤ length cells.old) }
    requires roots_size_in_bounds { roots_size ≤ length roots.old }
    requires by_index { (q : ℕ) → q < n → (levels_made m entries counts q (n - q) (made work.old cells.old 0)).next ≤ total }
    ensures work { work.new ≡ cleared_work (levels_made m entries counts 0 n (made work.old cells.old 0)).work }
    ensures cells { cells.new ≡ (levels_made m entries counts 0 n (made work.old cells.old 0)).cells }
    ensures roots { roots.new
        ≡ over (root_at (levels_made m entries counts 0 n (made work.old cells.old 0)).work m (level_at m entries 0))
        roots_size roots.old }
{
    let end = links_end(n, m, entries);
    read_levels(n, m, entries, counts, end, total, work, cells);
    let first = LINKS + 2 * m;
    write_roots(work, m, first, roots);
    clear(work);
}

// Reads the network off the links of m outputs and n levels, which have so many entries each, whoever put them there. Refuses with 10, then
// 23 with the cells wanted.
pub fn read_links(
    n: usize,
    m: usize,
    entries: [usize; VARIABLES],
    work: &mut [u8],
    roots: &mut [u16],
    cells: &mut [u16],
) -> Answer
    ensures answer { result ≡ read_links_answer n m entries work.old roots.old cells.old }
    ensures roots { roots.new ≡ read_links_roots n m entries work.old roots.old cells.old }
    ensures cells { cells.new ≡ read_links_cells n m entries work.old roots.old cells.old }
    ensures work { work.new ≡ read_links_work n m entries work.old roots.old cells.old }
{
    if roots.len() < ROOTS {
        return Err(Refusal::ShortBuffer);
    }
    let levels = count_links(n, m, entries, work)?;
    let total = levels.cells;
    if cells.len() / 3 < total {
        clear(work);
        return Err(Refusal::TooSmall(total));
    }
    let counts = levels.counts;
    lay_out(n, m, entries, counts, total, work, roots, cells);
    Ok(total)
}
