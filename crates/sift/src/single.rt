// The sift of a single variable (document 01, section 5).
ghost use Rattle.std.specs.Prelude.{◌≡◌, IfOk};
ghost use Rattle.sift.specs.Calls.{sift_outcome, sift_work, SiftDemand, SiftNeverDearer};

use crate::order::moved_to;
use crate::room::lent_enough;
use crate::trials::{Counted, reorder, sift_one};
use table::{Done, Outcome, Refusal, State};

// Tries the variable at every level and leaves it at the best; answers the nodes there. Refuses with 10, then 21, then 9.
pub fn sift(state: State, variable: usize, values: &[u8], care: &[u8], work: &mut [u8]) -> Outcome
    ensures outcome { result ≡ sift_outcome state variable values.now care.now work.old }
    ensures work { work.new ≡ sift_work state variable values.now care.now work.old }
    ensures demand { IfOk result (SiftDemand variable values.now care.now) }
    ensures never_dearer { IfOk result (SiftNeverDearer state values.now care.now) }
{
    if !lent_enough(values.len(), care.len(), work.len()) {
        return Err(Refusal::ShortBuffer);
    }
    if !state.holds_table() {
        return Err(Refusal::NoTable);
    }
    let n = state.n;
    if n <= variable {
        return Err(Refusal::NoSuch);
    }
    let levels = fill::count_levels(state, values, care, work).unwrap();
    let known = levels.counts;
    let table = Counted {
        state,
        known,
        values,
        care,
    };
    let found = sift_one(&table, variable, work);
    let best = found.best;
    let order = state.order;
    let after = moved_to(order, n, variable, best.level);
    let left = reorder(state, after);
    Ok(Done {
        value: best.cost,
        state: left,
    })
}
