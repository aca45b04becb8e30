// Filling and counting in a lent work buffer (document 01, section 3).
#![tactic(auto)]

mod cells;
pub mod counts;
mod descent;
mod filling;
mod fitting;
mod lowering;
mod outputs;

ghost use Rattle.std.specs.Prelude.{◌≡◌};
ghost use Rattle.fill.specs.Work.{cleared_work};
ghost use Rattle.fill.specs.Calls.{count_answer, count_work, levels_of, links_work};
ghost use Rattle.fill.specs.Calls.{trials_answer, trials_counts, trials_work};
ghost use Rattle.fill.specs.Counts.{linked_levels};

use crate::cells::{level_counts, links_fit, total};
use crate::filling::fill_held;
use crate::lowering::try_held;
use crate::outputs::zero;
use diagram::VARIABLES;
use matching::REGION;
use table::{Answer, PLANE, Refusal, State};

// Where the links begin, behind two regions, and the bytes of the work buffer; specs/Work.antt has the definitions, `links_at` and
// `work_size`.
pub const LINKS: usize = 2 * REGION;

pub const WORK: usize = 32768;

// The most bytes that the links of a filling take (law `links-room`).
const LINK_BYTES: usize = 8700;

// The bytes of the work buffer that trials use, and how many counts they give: one for each level, with a variable at each level;
// specs/Work.antt and specs/Calls.antt have the definitions, `trials_size` and `counts_size`.
const TRIALS: usize = 5 * REGION;

pub const COUNTS: usize = VARIABLES * VARIABLES;

// What a filling comes to: the cells in all, and the entries and the cells of each level.
#[derive(Clone, Copy)]
pub struct Levels {
    pub cells: usize,
    pub entries: [usize; VARIABLES],
    pub counts: [usize; VARIABLES],
}

// Fills the held table, and leaves the links of its levels in the work buffer. Refuses with 10, then 21; a refusal leaves the work buffer.
pub fn fill_table(
    state: State,
    values: &[u8],
    care: &[u8],
    work: &mut [u8],
) -> Result<Levels, Refusal>
    ensures levels { result ≡ levels_of state values.now care.now work.old }
    ensures work { work.new ≡ links_work state values.now care.now work.old }
{
    if values.len() < PLANE {
        return Err(Refusal::ShortBuffer);
    }
    if care.len() < PLANE {
        return Err(Refusal::ShortBuffer);
    }
    if work.len() < WORK {
        return Err(Refusal::ShortBuffer);
    }
    if state.holds_table() {
        Ok(fill_held(state, values, care, work))
    } else {
        Err(Refusal::NoTable)
    }
}

// Counts the cells of each of n levels from links in the work buffer, whoever put them there: those of m outputs, then those of the levels,
// with so many entries each. Refuses with 10 where they don't lie in it.
pub fn count_links(
    n: usize,
    m: usize,
    entries: [usize; VARIABLES],
    work: &[u8],
) -> Result<Levels, Refusal>
    ensures { result ≡ linked_levels n m entries work.now }
{
    if !links_fit(n, m, entries, work.len()) {
        return Err(Refusal::ShortBuffer);
    }
    let counts = level_counts(n, m, entries, work);
    Ok(Levels {
        cells: total(counts),
        entries,
        counts,
    })
}

// Makes a work buffer of its size zero.
pub fn clear(work: &mut [u8])
    ensures { work.new ≡ cleared_work work.old }
{
    if work.len() < WORK {
        return;
    }
    zero(0, WORK, work);
}

// Counts the cells of each level of the held table's network. A success leaves the work buffer zero.
pub fn count_levels(
    state: State,
    values: &[u8],
    care: &[u8],
    work: &mut [u8],
) -> Result<Levels, Refusal>
    ensures levels { result ≡ levels_of state values.now care.now work.old }
    ensures work { work.new ≡ count_work state values.now care.now work.old }
{
    let levels = fill_table(state, values, care, work)?;
    zero(LINKS, LINK_BYTES, work);
    Ok(levels)
}

// Counts the cells of the held table's network.
pub fn count(state: State, values: &[u8], care: &[u8], work: &mut [u8]) -> Answer
    ensures answer { result ≡ count_answer state values.now care.now work.old }
    ensures work { work.new ≡ count_work state values.now care.now work.old }
{
    Ok(count_levels(state, values, care, work)?.cells)
}

// Counts the cells of each level with the top variable of the state's order at each level in turn, the others in sequence: those with the
// variable at level p go to the lent counts from VARIABLES * p on. A level `except` is left out, and its counts are as found. Answers how
// many levels there are. Refuses with 10, then 21; a refusal leaves the lent buffers, a success zeros what it used of the work buffer.
pub fn try_levels(
    state: State,
    except: usize,
    values: &[u8],
    care: &[u8],
    counts: &mut [usize],
    work: &mut [u8],
) -> Answer
    ensures answer { result
        ≡ trials_answer state values.now care.now counts.old work.old }
    ensures counts { counts.new
        ≡ trials_counts state except values.now care.now counts.old work.old }
    ensures work { work.new
        ≡ trials_work state values.now care.now counts.old work.old }
{
    if values.len() < PLANE {
        return Err(Refusal::ShortBuffer);
    }
    if care.len() < PLANE {
        return Err(Refusal::ShortBuffer);
    }
    if work.len() < WORK {
        return Err(Refusal::ShortBuffer);
    }
    if counts.len() < COUNTS {
        return Err(Refusal::ShortBuffer);
    }
    if !state.holds_table() {
        return Err(Refusal::NoTable);
    }
    try_held(state, except, values, care, counts, work);
    zero(0, TRIALS, work);
    Ok(state.n)
}
