// Building section 4's network in lent cells.
ghost use Rattle.std.specs.Prelude.{◌≡◌, true, IfOk, ◌↔◌};
ghost use Rattle.diagram.specs.Demands.{NoneFits};
ghost use Rattle.table.specs.Answer.{number, answer_of};
ghost use Rattle.table.specs.State.{order_of};
ghost use Rattle.fill.specs.Calls.{held_table};
ghost use Rattle.lent.specs.Lent.{lent_diagram};
ghost use Rattle.network.specs.Build.{capacity, reaches_board, network_state, build_outcome, build_roots, build_cells, build_work, Built};

use crate::reading::lay_out;
use fill::{clear, fill_table};
use lent::ROOTS;
use table::{Done, Outcome, Refusal, Stage, State};

// The state with a network of so many nodes.
pub fn with_network(state: State, count: usize) -> State
    ensures { result ≡ network_state state count }
{
    let order = state.order;
    State {
        n: state.n,
        m: state.m,
        order,
        count,
        stage: Stage::Network,
    }
}

// Builds the network of the table under the state's order. Refuses with 10, then 21, then 23 with the cells wanted.
pub fn build(
    state: State,
    values: &[u8],
    care: &[u8],
    work: &mut [u8],
    roots: &mut [u16],
    cells: &mut [u16],
) -> Outcome
    ensures outcome { result ≡ build_outcome state values.now care.now work.old roots.old cells.old }
    ensures roots { roots.new
        ≡ build_roots state values.now care.now work.old roots.old cells.old }
    ensures cells { cells.new
        ≡ build_cells state values.now care.now work.old roots.old cells.old }
    ensures work { work.new
        ≡ build_work state values.now care.now work.old roots.old cells.old }
    ensures built { IfOk result (λ r. Built state values.now care.now r
        (lent_diagram r.state.count state.m cells.new roots.new) (capacity cells.new)) }
    ensures fit { reaches_board state values.now care.now work.old roots.old ≡ true
        → (number (answer_of result) ≡ 23)
        ↔ NoneFits true (held_table state values.now care.now) (order_of state) (capacity cells.old) }
{
    if roots.len() < ROOTS {
        return Err(Refusal::ShortBuffer);
    }
    let levels = fill_table(state, values, care, work)?;
    let total = levels.cells;
    if cells.len() / 3 < total {
        clear(work);
        return Err(Refusal::TooSmall(total));
    }
    let n = state.n;
    let m = state.m;
    let entries = levels.entries;
    let counts = levels.counts;
    lay_out(n, m, entries, counts, total, work, roots, cells);
    Ok(Done {
        value: total,
        state: with_network(state, total),
    })
}
