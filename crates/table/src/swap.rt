// The exchange of two neighbouring levels of the order (document 01, section 2).
ghost use Rattle.std.specs.Prelude.{◌≡◌, suc, ◌<◌};
ghost use Rattle.diagram.specs.Networks.Bound.{most_variables};
ghost use Rattle.table.specs.State.{exchanged};
ghost use Rattle.table.specs.Calls.{swap_outcome};

use crate::{Done, Outcome, Refusal, Stage, State};
use diagram::VARIABLES;

// The order with levels p and p + 1 exchanged.
fn exchange(mut order: [usize; VARIABLES], p: usize) -> [usize; VARIABLES]
    requires { suc p < most_variables }
    ensures { result ≡ exchanged p order }
{
    order.swap(p, p + 1);
    order
}

// Exchanges levels p and p + 1. Refuses with 21, then 9.
#[tactic(auto, unfolding(crate::specs::Calls::swap_outcome, crate::specs::Calls::swap_answer), using(crate::proofs::Held::held_small))]
pub fn swap(state: State, p: usize) -> Outcome
    ensures { result ≡ swap_outcome state p }
{
    if !state.holds_table() {
        return Err(Refusal::NoTable);
    }
    let n = state.n;
    if n == 0 {
        return Err(Refusal::NoSuch);
    }
    if n - 1 <= p {
        return Err(Refusal::NoSuch);
    }
    let order = state.order;
    let after = exchange(order, p);
    Ok(Done {
        value: 0,
        state: State {
            n,
            m: state.m,
            order: after,
            count: 0,
            stage: Stage::Table,
        },
    })
}
