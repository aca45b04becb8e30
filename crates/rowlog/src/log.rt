// Logging the rows that were seen (document 02, 2.4): nothing is counted before every row is known good and the records have room.
ghost use Rattle.std.specs.Prelude.{◌≡◌};
ghost use Rattle.rowlog.specs.Log.{log_answer, log_outcome, log_counts, log_care};

use crate::care::write_care;
use crate::counts::{count_rows, has_room};
use block::numbers::all_below;
use table::{Answer, Done, Outcome, PLANE, Refusal, Stage, State};

// What a log answers: nothing is written yet.
fn log_answer(state: State, rows: &[u16], counts: &[u32], care: &[u8]) -> Answer
    ensures { result ≡ log_answer state rows.now counts.now care.now }
{
    if care.len() < PLANE {
        return Err(Refusal::ShortBuffer);
    }
    if !state.holds_table() {
        return Err(Refusal::NoTable);
    }
    let end: usize = 1 << state.n;
    if counts.len() < end {
        return Err(Refusal::ShortBuffer);
    }
    if !all_below(rows, end) {
        return Err(Refusal::NoRow);
    }
    if !has_room(counts, end, rows.len()) {
        return Err(Refusal::TooManyRecords);
    }
    Ok(0)
}

// Counts the rows, and cares for every row counted `least` times or more. Refuses with 10, 21, 10, 8, 33; a refusal writes nothing.
pub fn log_rows(
    state: State,
    rows: &[u16],
    least: u32,
    counts: &mut [u32],
    care: &mut [u8],
) -> Outcome
    ensures outcome { result ≡ log_outcome state rows.now counts.old care.old }
    ensures counts { counts.new ≡ log_counts state rows.now counts.old care.old }
    ensures care { care.new ≡ log_care state rows.now least counts.old care.old }
{
    let value = log_answer(state, rows, counts, care)?;
    let n = state.n;
    count_rows(rows, counts);
    write_care(counts, least, n, state.m << n, care);
    let order = state.order;
    Ok(Done {
        value,
        state: State {
            n,
            m: state.m,
            order,
            count: 0,
            stage: Stage::Table,
        },
    })
}
