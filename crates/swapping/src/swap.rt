// Swapping two neighbouring levels in the held cells, with no table and no filling (document 02, 2.7).
ghost use Rattle.std.specs.Prelude.{◌≡◌, true, ◌↔◌, T, Ok, IfOk, cond, eqb};
ghost use Rattle.diagram.specs.Demands.{NoneFits};
ghost use Rattle.table.specs.Answer.{number, refusal_number, answer_of};
ghost use Rattle.fill.specs.Work.{cleared_work};
ghost use Rattle.lent.specs.Lent.{lent_diagram};
ghost use Rattle.network.specs.Build.{capacity};
ghost use Rattle.swapping.specs.Swap.{cell_table, exchanged_order, swap_checks, reaches_swap, swap_cells_outcome, swap_cells_roots, swap_cells_cells};
ghost use Rattle.swapping.specs.Swap.{swap_cells_work, Swapped};

use crate::exchange::exchanged_links;
use canonical::held::test_held;
use fill::{WORK, clear};
use lent::ROOTS;
use network::build::with_network;
use network::reading::read_links;
use table::swap::swap;
use table::{Answer, Done, Outcome, Refusal, State};

// The checks before 23: 10, 22, 9, 24, 32.
fn swap_checks(state: State, p: usize, work: &[u8], roots: &[u16], cells: &[u16]) -> Answer
    ensures { result ≡ swap_checks state p work.now roots.now cells.now (Ok 0) }
{
    if work.len() < WORK {
        return Err(Refusal::ShortBuffer);
    }
    if roots.len() < ROOTS {
        return Err(Refusal::ShortBuffer);
    }
    if !state.holds_network() {
        return Err(Refusal::NoNetwork);
    }
    swap(state, p)?;
    test_held(state, roots, cells)
}

// Swaps where the checks are passed. Refuses with 23 and the cells wanted.
fn swap_checked(
    state: State,
    p: usize,
    work: &mut [u8],
    roots: &mut [u16],
    cells: &mut [u16],
) -> Outcome
    requires { T (reaches_swap state p work.old roots.old cells.old) }
    ensures outcome { result ≡ swap_cells_outcome state p work.old roots.old cells.old }
    ensures roots { roots.new ≡ swap_cells_roots state p work.old roots.old cells.old }
    ensures cells { cells.new ≡ swap_cells_cells state p work.old roots.old cells.old }
    ensures work { work.new ≡ swap_cells_work state p work.old roots.old cells.old }
{
    let n = state.n;
    let m = state.m;
    let swapped = swap(state, p).unwrap();
    let entries = exchanged_links(cells, n, p, roots, m, work);
    let total = read_links(n, m, entries, work, roots, cells)?;
    Ok(Done {
        value: 0,
        state: with_network(swapped.state, total),
    })
}

// Makes the work buffer zero after 32, the only refusal of the checks that clears it.
fn clear_after(refusal: Refusal, work: &mut [u8])
    ensures { work.new ≡ cond (eqb (refusal_number refusal) 32) (cleared_work work.old) work.old }
{
    if let Refusal::NotCanonical = refusal {
        clear(work);
    }
}

// Exchanges levels p and p + 1 of the held network. Refuses with 10, 22, 9, 24, 32, then 23 with the cells wanted.
pub fn swap_cells(
    state: State,
    p: usize,
    work: &mut [u8],
    roots: &mut [u16],
    cells: &mut [u16],
) -> Outcome
    ensures outcome { result ≡ swap_cells_outcome state p work.old roots.old cells.old }
    ensures roots { roots.new ≡ swap_cells_roots state p work.old roots.old cells.old }
    ensures cells { cells.new ≡ swap_cells_cells state p work.old roots.old cells.old }
    ensures work { work.new ≡ swap_cells_work state p work.old roots.old cells.old }
    ensures swapped { IfOk result (λ r. Swapped state p roots.old cells.old r
        (lent_diagram r.state.count state.m cells.new roots.new) (capacity cells.new)) }
    ensures fit { reaches_swap state p work.old roots.old cells.old ≡ true
        → (number (answer_of result) ≡ 23)
        ↔ NoneFits true (cell_table state roots.old cells.old) (exchanged_order state p) (capacity cells.old) }
{
    let Err(refusal) = swap_checks(state, p, work, roots, cells) else {
        return swap_checked(state, p, work, roots, cells);
    };
    clear_after(refusal, work);
    Err(refusal)
}
