// Evaluation of a row in lent cells (document 01, sections 4 and 7).
ghost use Rattle.std.specs.Prelude.{◌≡◌};
ghost use Rattle.lent.specs.Evaluate.{evaluate_answer};

use crate::ROOTS;
use crate::network::Network;
use table::{Answer, Refusal, State};

// The outputs at a row, bit j output j. Refuses with 10, 22, 8, 24.
#[tactic(auto, using(crate::proofs::Answered::held_few, crate::proofs::Answered::held_rows), unfolding(crate::specs::Evaluate::evaluate_answer, crate::specs::Lent::roots_size))]
pub fn evaluate(state: State, row: usize, roots: &[u16], cells: &[u16]) -> Answer
    ensures { result ≡ evaluate_answer state row roots.now cells.now }
{
    if roots.len() < ROOTS {
        return Err(Refusal::ShortBuffer);
    }
    if !state.holds_network() {
        return Err(Refusal::NoNetwork);
    }
    if (1 << state.n) <= row {
        return Err(Refusal::NoRow);
    }
    let network = Network::tested(state, roots, cells)?;
    Ok(network.outputs(row))
}
