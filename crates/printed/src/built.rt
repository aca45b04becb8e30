// The network of a program's input: the table read, and built in the file's order.
ghost use Rattle.std.specs.Prelude.{◌≡◌};
ghost use Rattle.printed.specs.Input.{input_values, input_care};
ghost use Rattle.printed.specs.BuiltInput.{built_outcome, built_work, built_roots, built_cells};

use crate::input::load_input;
use diagram::NODES;
use network::build::build;
use table::Outcome;

// The numbers of the cells that any table needs.
pub const CELL_NUMBERS: usize = 3 * NODES;

// Reads the table in a program's input, and builds its network in the file's order; or gives the refusal of either.
pub fn build_input(
    file: &[u8],
    values: &mut [u8],
    care: &mut [u8],
    work: &mut [u8],
    roots: &mut [u16],
    cells: &mut [u16],
) -> Outcome
    ensures outcome { result ≡ built_outcome file.now values.old care.old work.old roots.old
        cells.old }
    ensures values { values.new ≡ input_values file.now values.old care.old }
    ensures care { care.new ≡ input_care file.now values.old care.old }
    ensures work { work.new
        ≡ built_work file.now values.old care.old work.old roots.old
        cells.old }
    ensures roots { roots.new
        ≡ built_roots file.now values.old care.old work.old roots.old
        cells.old }
    ensures cells { cells.new
        ≡ built_cells file.now values.old care.old work.old roots.old
        cells.old }
{
    let loaded = load_input(file, values, care)?;
    build(loaded.state, values, care, work, roots, cells)
}
