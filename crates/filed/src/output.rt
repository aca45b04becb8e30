// The network file of the table in a program's input, or a refusal (document 02, 2.2).
ghost use Rattle.std.specs.Prelude.{◌≡◌, suc, min};
ghost use Rattle.diagram.specs.Networks.Bound.{most_nodes};
ghost use Rattle.network_file.specs.File.{cell_blocks};
ghost use Rattle.network_file.specs.Write.{write_work};
ghost use Rattle.text.specs.Written.{Written};
ghost use Rattle.printed.specs.Input.{input_values, input_care};
ghost use Rattle.printed.specs.Built.{output_values, output_care, output_work, output_roots, output_cells, Whole};
ghost use Rattle.printed.specs.BuiltInput.{built_roots, built_cells};
ghost use Rattle.filed.specs.NetworkFile.{network_output_of};
ghost use Rattle.filed.specs.Inner.Filed.{held_file, outcome_file, outcome_work, filed_text, filed_work};

use block::BLOCK;
use diagram::NODES;
use fill::WORK;
use lent::ROOTS;
use network_file::write::write_cells;
use network_file::{BLOCK_CELLS, FILE};
use printed::built::{CELL_NUMBERS, build_input};
use printed::refusal::refusal;
use table::{Outcome, PLANE, State};

// The blocks of the network file of so many cells, its heading among them; past the most cells there can be, those of the longest file.
fn file_blocks(count: usize) -> usize
    ensures { result ≡ suc (cell_blocks (min count most_nodes)) }
{
    if NODES < count {
        return FILE / BLOCK;
    }
    (count + (BLOCK_CELLS - 1)) / BLOCK_CELLS + 1
}

// Writes the file of a held network, or the writer's refusal.
fn write_held(state: State, roots: &[u16], cells: &[u16], work: &mut [u8], out: &mut [u8]) -> usize
    ensures text { Written out.old out.new 0 result
        (held_file state roots.now cells.now work.old out.old) }
    ensures work { work.new ≡ write_work state roots.now cells.now work.old out.old }
{
    let answer = write_cells(state, roots, cells, work, out);
    if answer.is_err() {
        return refusal(out, answer);
    }
    BLOCK * file_blocks(state.count)
}

// Writes the file of the network that a build left, or the build's refusal.
fn write_outcome(
    outcome: Outcome,
    roots: &[u16],
    cells: &[u16],
    work: &mut [u8],
    out: &mut [u8],
) -> usize
    ensures text { Written out.old out.new 0 result
        (outcome_file outcome roots.now cells.now work.old out.old) }
    ensures work { work.new ≡ outcome_work outcome roots.now cells.now work.old out.old }
{
    match outcome {
        Ok(built) => write_held(built.state, roots, cells, work, out),
        Err(refused) => refusal(out, Err(refused)),
    }
}

// Reads the table in a program's input, builds its network in the file's order, and writes its file; or the refusal.
fn write_input(
    file: &[u8],
    values: &mut [u8],
    care: &mut [u8],
    work: &mut [u8],
    roots: &mut [u16],
    cells: &mut [u16],
    out: &mut [u8],
) -> usize
    ensures text { Written out.old out.new 0 result
        (filed_text file.now values.old care.old work.old roots.old
        cells.old out.old) }
    ensures values { values.new ≡ input_values file.now values.old care.old }
    ensures care { care.new ≡ input_care file.now values.old care.old }
    ensures work { work.new
        ≡ filed_work file.now values.old care.old work.old roots.old
        cells.old out.old }
    ensures roots { roots.new
        ≡ built_roots file.now values.old care.old work.old roots.old
        cells.old }
    ensures cells { cells.new
        ≡ built_cells file.now values.old care.old work.old roots.old
        cells.old }
{
    let outcome = build_input(file, values, care, work, roots, cells);
    write_outcome(outcome, roots, cells, work, out)
}

// Writes the network file of the table in a program's input, built in the file's order, or the refusal's line. Whatever the input, the
// output is whole, and its length is answered.
pub fn write_network_file(
    file: &[u8],
    values: &mut [u8; PLANE],
    care: &mut [u8; PLANE],
    work: &mut [u8; WORK],
    roots: &mut [u16; ROOTS],
    cells: &mut [u16; CELL_NUMBERS],
    out: &mut [u8; FILE],
) -> usize
    ensures text { Whole out.old out.new result (network_output_of file.now) }
    ensures values { values.new ≡ output_values file.now values.old }
    ensures care { care.new ≡ output_care file.now care.old }
    ensures work { work.new ≡ output_work file.now work.old }
    ensures roots { roots.new ≡ output_roots file.now roots.old }
    ensures cells { cells.new ≡ output_cells file.now cells.old }
{
    write_input(file, values, care, work, roots, cells, out)
}
