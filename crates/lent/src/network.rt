// Lent cells and roots that were tested: with the state's levels and order they are a network, in which a row can be followed with no test.
ghost use Rattle.std.specs.Prelude.{◌≡◌, true, false, ◌≤◌, length, IfOk};
ghost use Rattle.std.specs.Result.{IfErr};
ghost use Rattle.diagram.specs.Networks.Bound.{most_outputs};
ghost use Rattle.table.specs.declared.Refusal.TheVariants.{BadCells};
ghost use Rattle.table.specs.State.{stage_of, is_network};
ghost use Rattle.lent.specs.Evaluate.{good_cells};
ghost use Rattle.lent.specs.Inner.Tabulate.{Evaluable};

use crate::cells::good_cells;
use table::{Refusal, State};

#[derive(Clone, Copy)]
pub(crate) struct Network<'a> {
    pub(crate) state: State,
    pub(crate) roots: &'a [u16],
    pub(crate) cells: &'a [u16],
    ghost evaluable: { Evaluable state roots.now cells.now },
}

impl<'a> Network<'a> {
    // The lent cells and roots as a network of the state. Refuses with 24.
    pub(crate) fn tested(
        state: State,
        roots: &'a [u16],
        cells: &'a [u16],
    ) -> Result<Network<'a>, Refusal>
        requires held { is_network (stage_of state) ≡ true }
        requires roots_in_bounds { most_outputs ≤ length roots.now }
        ensures good { IfOk result (λ w. good_cells state roots.now cells.now ≡ true) }
        ensures same { IfOk result (λ w. (w.state ≡ state) × (w.roots.now ≡ roots.now) × (w.cells.now ≡ cells.now)) }
        ensures bad { IfErr result (λ e. (e ≡ BadCells) × (good_cells state roots.now cells.now ≡ false)) }
    {
        if !good_cells(state, roots, cells) {
            return Err(Refusal::BadCells);
        }
        Ok(Network {
            state,
            roots,
            cells,
        })
    }
}
