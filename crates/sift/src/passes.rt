// A pass: each variable sifted once, under a limit of orders tried (document 01, section 5).
ghost use Rattle.std.specs.Prelude.{◌≡◌, not, IfOk, ◌<◌, ◌^◌, T, take};
ghost use Rattle.table.specs.State.{good_heading, stage_of, is_nothing};
ghost use Rattle.fill.specs.Work.{trials_zero, zero_work};
ghost use Rattle.fill.specs.Calls.{held_table, enough};
ghost use Rattle.sift.specs.Calls.{pass_of, pass_outcome, pass_work, PassDemand, PassNeverDearer};
ghost use Rattle.sift.specs.Inner.Counts.{counts_under};
ghost use Rattle.sift.specs.Inner.Turns.{progress_of, turn_of};

use crate::choice::fullest;
use crate::order::moved_to;
use crate::room::lent_enough;
use crate::trials::{Counted, reorder, sift_one};
use diagram::VARIABLES;
use table::{Done, Outcome, Refusal, State};

// A pass under way: the order, the nodes of each level under it, a mark for each variable sifted, the turns taken, and the orders tried.
#[derive(Clone, Copy)]
pub(crate) struct Progress {
    pub order: [usize; VARIABLES],
    pub counts: [usize; VARIABLES],
    pub sifted: [bool; VARIABLES],
    pub turns: usize,
    pub tried: usize,
}

// Sifts the variable that comes next.
fn turn(state: State, progress: Progress, values: &[u8], care: &[u8], work: &mut [u8]) -> Progress
    requires enough { T (enough values.now care.now work.old) }
    requires heading { T (good_heading state.n state.m (take state.n progress.order)) }
    requires some_left { (progress.turns < state.n) × (progress.tried < 2 ^ 32) }
    requires counted { progress.counts ≡ counts_under (held_table state values.now care.now) (take state.n progress.order) }
    ensures progress { result ≡ turn_of (held_table state values.now care.now) progress }
    ensures work { work.new ≡ trials_zero work.old }
{
    let order = progress.order;
    let mut sifted = progress.sifted;
    let known = progress.counts;
    let v = fullest(known, order, sifted, state.n);
    let table = Counted {
        state: reorder(state, order),
        known,
        values,
        care,
    };
    let found = sift_one(&table, v, work);
    let best = found.best;
    let counts = found.counts;
    let after = moved_to(order, state.n, v, best.level);
    sifted[v] = true;
    Progress {
        order: after,
        counts,
        sifted,
        turns: progress.turns + 1,
        tried: progress.tried + best.tried,
    }
}

// The turns that the limit allows: none is begun whose n trials would pass it. The order found is counted first; from then on each turn
// leaves the counts of its own.
fn run(state: State, limit: usize, values: &[u8], care: &[u8], work: &mut [u8]) -> Progress
    requires enough { T (enough values.now care.now work.old) }
    requires held { T (not (is_nothing (stage_of state))) }
    requires limit { limit < 2 ^ 32 }
    ensures progress { result ≡ progress_of state values.now care.now (pass_of state limit values.now care.now) }
    ensures work { work.new ≡ zero_work work.old }
{
    let levels = fill::count_levels(state, values, care, work).unwrap();
    let n = state.n;
    let order = state.order;
    let counts = levels.counts;
    let mut progress = Progress {
        order,
        counts,
        sifted: [false; VARIABLES],
        turns: 0,
        tried: 0,
    };
    for turns in 0..n {
        if limit < progress.tried + n {
            return progress;
        }
        progress = turn(state, progress, values, care, work);
    }
    progress
}

// Sifts each variable once, as far as the limit of orders allows; answers the orders tried. Refuses with 10, then 21.
pub fn pass(state: State, limit: u32, values: &[u8], care: &[u8], work: &mut [u8]) -> Outcome
    ensures outcome { result ≡ pass_outcome state limit values.now care.now work.old }
    ensures work { work.new ≡ pass_work state limit values.now care.now work.old }
    ensures demand { IfOk result (PassDemand state limit values.now care.now) }
    ensures never_dearer { IfOk result (PassNeverDearer state limit values.now care.now) }
{
    if !lent_enough(values.len(), care.len(), work.len()) {
        return Err(Refusal::ShortBuffer);
    }
    if !state.holds_table() {
        return Err(Refusal::NoTable);
    }
    let progress = run(state, limit as usize, values, care, work);
    let order = progress.order;
    let left = reorder(state, order);
    Ok(Done {
        value: progress.tried,
        state: left,
    })
}
