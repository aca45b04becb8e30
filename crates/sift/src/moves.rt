// What moving each variable to each level would bring (document 02, 2.8). Nothing is moved.
ghost use Rattle.std.specs.Prelude.{◌≡◌, true, not, ℕ, ◌+◌, ◌*◌, ◌≤◌, ◌<◌, T, pos, ◌-ℤ◌, length};
ghost use mathlib.Core.List.{sum};
ghost use Rattle.lists.specs.Written.{over};
ghost use Rattle.diagram.specs.Networks.Bound.{most_variables, most_nodes};
ghost use Rattle.diagram.specs.Orders.Moves.{gain as gained, gain_at};
ghost use Rattle.diagram.specs.Table.{cost};
ghost use Rattle.table.specs.Answer.{done};
ghost use Rattle.table.specs.State.{good_heading, order_of, stage_of, is_nothing};
ghost use Rattle.fill.specs.Work.{trials_zero, zero_work};
ghost use Rattle.fill.specs.Calls.{held_table, enough, counts_size, counts_of};
ghost use Rattle.sift.specs.Inner.Counts.{counts_under, counts_gain};
ghost use Rattle.sift.specs.Moves.{moves_answer, moves_gains, moves_work, Reported};

use crate::counts::total_of;
use crate::room::lent_enough;
use crate::trials::{Counted, count_moves};
use diagram::VARIABLES;
use fill::COUNTS;
use table::{Answer, Refusal, State};

// The nodes under a move minus the nodes now.
fn gain(moved: usize, present: usize) -> i32
    requires { (moved ≤ most_nodes) × (present ≤ most_nodes) }
    ensures { result ≡ pos moved -ℤ pos present }
{
    moved as i32 - present as i32
}

// Writes what each level would bring, by the counts of its trial.
fn write_gains(row: &mut [i32], n: usize, present: usize, counts: &[usize])
    requires n_le_most_variables { (n ≤ most_variables) × (n ≤ length row.old) }
    requires counts_size_in_bounds { (counts_size ≤ length counts.now) × (present ≤ most_nodes) }
    requires by_index { (p : ℕ) → p < n → sum ◌+◌ 0 (counts_of p counts.now) ≤ most_nodes }
    ensures { row.new ≡ over (counts_gain present counts.now) n row.old }
{
    for p in 0..n {
        let brought = gain(total_of(counts, p), present);
        row[p] = brought;
    }
}

// Writes what v would bring at each level.
fn report_variable(table: &Counted, v: usize, present: usize, row: &mut [i32], work: &mut [u8])
    requires enough { T (enough table.now.values.now table.now.care.now work.old) }
    requires variable { (v < table.now.state.n) × (table.now.state.n ≤ length row.old) }
    requires present { present ≡ cost (held_table table.now.state table.now.values.now table.now.care.now) (order_of table.now.state) }
    ensures row { row.new
        ≡ over (gained (held_table table.now.state table.now.values.now table.now.care.now) (order_of table.now.state) v) table.now.state.n row.old }
    ensures work { work.new ≡ trials_zero work.old }
{
    let mut counts = [0usize; COUNTS];
    count_moves(table, v, &mut counts, work);
    write_gains(row, table.state.n, present, &counts);
}

// Counts the present order, and writes what each variable would bring, in a part of the list of its own.
fn report(state: State, gains: &mut [i32], values: &[u8], care: &[u8], work: &mut [u8])
    requires enough { T (enough values.now care.now work.old) }
    requires held { T (not (is_nothing (stage_of state))) }
    requires room { state.n * state.n ≤ length gains.old }
    ensures gains { gains.new
        ≡ over (gain_at (held_table state values.now care.now) (order_of state)) (state.n * state.n)
        gains.old }
    ensures work { work.new ≡ zero_work work.old }
{
    let levels = fill::count_levels(state, values, care, work).unwrap();
    let known = levels.counts;
    let table = Counted {
        state,
        known,
        values,
        care,
    };
    let n = state.n;
    for v in 0..n {
        let at = n * v;
        let end = at + n;
        report_variable(&table, v, levels.cells, &mut gains[at..end], work);
    }
}

// Reports, for each variable and each level, the nodes with the variable moved there minus the nodes now: entry n * variable + level.
// The state stays. Refuses with 10, then 21, then 34.
pub fn moves(state: State, gains: &mut [i32], values: &[u8], care: &[u8], work: &mut [u8]) -> Answer
    ensures answer { result
        ≡ moves_answer state gains.old values.now care.now work.old }
    ensures gains { gains.new
        ≡ moves_gains state gains.old values.now care.now work.old }
    ensures work { work.new
        ≡ moves_work state gains.old values.now care.now work.old }
    ensures reported { done result ≡ true → Reported state values.now care.now work.old gains.new }
{
    if !lent_enough(values.len(), care.len(), work.len()) {
        return Err(Refusal::ShortBuffer);
    }
    if !state.holds_table() {
        return Err(Refusal::NoTable);
    }
    let n = state.n;
    if gains.len() < n * n {
        return Err(Refusal::ShortGains);
    }
    report(state, gains, values, care, work);
    Ok(0)
}
