// Evaluation of many rows in one call (document 02, 2.1): the cells are tested once, and nothing is written before every row is known good.
ghost use Rattle.std.specs.Prelude.{◌≡◌, true, map, ◌++◌, ◌≤◌, length, drop};
ghost use Rattle.table.specs.Answer.{done};
ghost use Rattle.lent.specs.Evaluate.{row_outputs};
ghost use Rattle.lent.specs.Rows.{rows_answer, rows_answers, EachAlone};

use crate::ROOTS;
use crate::network::Network;
use block::numbers::all_below;
use table::{Answer, Refusal, State};

// Writes what each row gives. By index: of a walk over both slices at once a proof knows no element that was written.
fn write_answers(network: &Network, rows: &[u16], answers: &mut [u16])
    requires rows_in_bounds { length rows.now ≤ length answers.old }
    ensures { answers.new
        ≡ map (λ row. row_outputs network.now.state row network.now.roots.now network.now.cells.now) rows.now
        ++ drop (length rows.now) answers.old }
{
    for (i, row) in rows.iter().enumerate() {
        answers[i] = network.outputs(*row as usize) as u16;
    }
}

// Evaluates each row into its answer. Refuses with 10, 31, 22, 8, 24; a refusal writes nothing.
#[tactic(auto, using(crate::proofs::Answered::held_few, crate::proofs::Answered::held_rows), unfolding(crate::specs::Rows::rows_answer, crate::specs::Rows::rows_answers, crate::specs::Lent::roots_size))]
pub fn evaluate_rows(
    state: State,
    rows: &[u16],
    answers: &mut [u16],
    roots: &[u16],
    cells: &[u16],
) -> Answer
    ensures answer { result ≡ rows_answer state rows.now answers.old roots.now cells.now }
    ensures answers { answers.new
        ≡ rows_answers state rows.now answers.old roots.now cells.now }
    ensures alone { done result ≡ true → EachAlone state rows.now roots.now cells.now answers.new }
{
    if roots.len() < ROOTS {
        return Err(Refusal::ShortBuffer);
    }
    if answers.len() < rows.len() {
        return Err(Refusal::ShortAnswers);
    }
    if !state.holds_network() {
        return Err(Refusal::NoNetwork);
    }
    if !all_below(rows, 1 << state.n) {
        return Err(Refusal::NoRow);
    }
    let network = Network::tested(state, roots, cells)?;
    write_answers(&network, rows, answers);
    Ok(0)
}
