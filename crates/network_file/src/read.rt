// Reading a network file: all of it is found good before a byte is written (document 02, 2.2).
ghost use Rattle.std.specs.Prelude.{◌≡◌, IfOk, ◌*◌};
ghost use Rattle.lists.specs.Written.{over};
ghost use Rattle.table.specs.Stream.{plane_byte};
ghost use Rattle.table.specs.Calls.{plane_size};
ghost use Rattle.lent.specs.Lent.{roots_size, lent_diagram};
ghost use Rattle.network.specs.Build.{capacity, long_enough};
ghost use Rattle.network_file.specs.File.{file_count, file_root, cell_number};
ghost use Rattle.network_file.specs.Read.{read_answer, read_state, read_table, read_outcome, read_values, read_care, read_work};
ghost use Rattle.network_file.specs.Read.{read_roots, read_cells, Given};
ghost use Rattle.network_file.specs.Inner.Checked.{Readable};

use crate::copy::{copy_cells, copy_roots};
use crate::file::file_answer;
use crate::numbers::file_count;
use crate::verify::{checked_answer, file_state};
use crate::work::clear_after;
use fill::WORK;
use lent::ROOTS;
use lent::tabulate::tabulate;
use table::{Answer, Done, Outcome, PLANE, Refusal, State};

// Whether no buffer is short.
fn long_enough(values: &[u8], care: &[u8], work: &[u8], roots: &[u16]) -> bool
    ensures { result ≡ long_enough values.now care.now work.now roots.now }
{
    if values.len() < PLANE {
        return false;
    }
    if care.len() < PLANE {
        return false;
    }
    if work.len() < WORK {
        return false;
    }
    ROOTS <= roots.len()
}

// What a reading answers: 10, by the file, 23 with the cells wanted, 24, 32, or 0.
fn answer_of(
    file: &[u8],
    values: &[u8],
    care: &[u8],
    work: &[u8],
    roots: &[u16],
    cells: &[u16],
) -> Answer
    ensures { result ≡ read_answer file.now values.now care.now work.now roots.now
        cells.now }
{
    if !long_enough(values, care, work, roots) {
        return Err(Refusal::ShortBuffer);
    }
    file_answer(file)?;
    let count = file_count(file);
    if cells.len() / 3 < count {
        return Err(Refusal::TooSmall(count));
    }
    checked_answer(file)
}

// Writes what the file says: its roots and cells, and the table that they compute.
fn write_network(
    file: &[u8],
    after: State,
    values: &mut [u8],
    care: &mut [u8],
    roots: &mut [u16],
    cells: &mut [u16],
)
    requires readable { Readable file.now values.old care.old roots.old cells.old }
    requires after_value { after ≡ read_state file.now }
    ensures values { values.new ≡ over (plane_byte (λ x. x.value) (read_table file.now)) plane_size values.old }
    ensures care { care.new ≡ over (plane_byte (λ x. x.care) (read_table file.now)) plane_size care.old }
    ensures roots { roots.new ≡ over (file_root file.now) roots_size roots.old }
    ensures cells { cells.new ≡ over (cell_number file.now) (3 * file_count file.now) cells.old }
{
    let count = file_count(file);
    copy_roots(file, roots);
    copy_cells(file, count, cells);
    let _ = tabulate(after, roots, cells, values, care);
}

// Reads a network file. Refuses with 10, by the file, 23 with its count, 24, 32; a refusal leaves all but the work buffer as it was.
pub fn read_cells(
    file: &[u8],
    values: &mut [u8],
    care: &mut [u8],
    work: &mut [u8],
    roots: &mut [u16],
    cells: &mut [u16],
) -> Outcome
    ensures outcome { result ≡ read_outcome file.now values.old care.old work.old roots.old
        cells.old }
    ensures values { values.new
        ≡ read_values file.now values.old care.old work.old roots.old
        cells.old }
    ensures care { care.new
        ≡ read_care file.now values.old care.old work.old roots.old
        cells.old }
    ensures work { work.new
        ≡ read_work file.now values.old care.old work.old roots.old
        cells.old }
    ensures roots { roots.new
        ≡ read_roots file.now values.old care.old work.old roots.old
        cells.old }
    ensures cells { cells.new
        ≡ read_cells file.now values.old care.old work.old roots.old
        cells.old }
    ensures given { IfOk result (λ r. Given r.state values.new care.new
        (lent_diagram r.state.count r.state.m cells.new roots.new) (capacity cells.new)) }
{
    let answer = answer_of(file, values, care, work, roots, cells);
    clear_after(answer, work);
    let value = answer?;
    let after = file_state(file);
    write_network(file, after, values, care, roots, cells);
    Ok(Done {
        value,
        state: after,
    })
}
