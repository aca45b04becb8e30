// The whole output of the printing program: the network of the table in its input, or a refusal (document 01, section 8).
ghost use Rattle.std.specs.Prelude.{◌≡◌};
ghost use Rattle.table.specs.Answer.{value};
ghost use Rattle.table.specs.Calls.{cared_answer};
ghost use Rattle.text.specs.Written.{Written};
ghost use Rattle.printed.specs.Input.{input_values, input_care};
ghost use Rattle.printed.specs.Built.{output_values, output_care, output_work, output_roots, output_cells, Whole};
ghost use Rattle.printed.specs.Output.{output_of};
ghost use Rattle.printed.specs.BuiltInput.{built_work, built_roots, built_cells};
ghost use Rattle.printed.specs.Inner.Printed.{outcome_text, printed_text};

use crate::built::{CELL_NUMBERS, build_input};
use crate::refusal::refusal;
use fill::WORK;
use lent::ROOTS;
use table::cared::cared;
use table::numbers::value_of;
use table::{Outcome, PLANE, State};
use text::held::network_text;

// The bytes that any output fits in; specs/Output.antt has the definition, `text_size`.
pub const TEXT: usize = 65536;

// The cared bits of a table that is held.
fn cared_bits(state: State, care: &[u8]) -> usize
    ensures { result ≡ value (cared_answer state care.now) }
{
    value_of(cared(state, care))
}

// Prints the network that a build left, or its refusal.
fn print_outcome(
    outcome: Outcome,
    care: &[u8],
    roots: &[u16],
    cells: &[u16],
    out: &mut [u8],
) -> usize
    ensures { Written out.old out.new 0 result
        (outcome_text outcome care.now roots.now cells.now) }
{
    match outcome {
        Ok(built) => {
            let state = built.state;
            network_text(out, state, cared_bits(state, care), roots, cells)
        }
        Err(refused) => refusal(out, Err(refused)),
    }
}

// Reads the table in a program's input, builds its network in the file's order, and prints it as far as there is room; or the refusal.
fn print_input(
    file: &[u8],
    values: &mut [u8],
    care: &mut [u8],
    work: &mut [u8],
    roots: &mut [u16],
    cells: &mut [u16],
    out: &mut [u8],
) -> usize
    ensures text { Written out.old out.new 0 result
        (printed_text file.now values.old care.old work.old roots.old
        cells.old) }
    ensures values { values.new ≡ input_values file.now values.old care.old }
    ensures care { care.new ≡ input_care file.now values.old care.old }
    ensures work { work.new
        ≡ built_work file.now values.old care.old work.old roots.old
        cells.old }
    ensures roots { roots.new
        ≡ built_roots file.now values.old care.old work.old roots.old
        cells.old }
    ensures cells { cells.new
        ≡ built_cells file.now values.old care.old work.old roots.old
        cells.old }
{
    let outcome = build_input(file, values, care, work, roots, cells);
    print_outcome(outcome, care, roots, cells, out)
}

// Prints the network of the table in a program's input, built in the file's order, or the refusal's number. Whatever the input, the text
// is whole, and its length is answered.
pub fn print_table(
    file: &[u8],
    values: &mut [u8; PLANE],
    care: &mut [u8; PLANE],
    work: &mut [u8; WORK],
    roots: &mut [u16; ROOTS],
    cells: &mut [u16; CELL_NUMBERS],
    out: &mut [u8; TEXT],
) -> usize
    ensures text { Whole out.old out.new result (output_of file.now) }
    ensures values { values.new ≡ output_values file.now values.old }
    ensures care { care.new ≡ output_care file.now care.old }
    ensures work { work.new ≡ output_work file.now work.old }
    ensures roots { roots.new ≡ output_roots file.now roots.old }
    ensures cells { cells.new ≡ output_cells file.now cells.old }
{
    print_input(file, values, care, work, roots, cells, out)
}
