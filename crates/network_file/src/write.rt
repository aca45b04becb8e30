// Writing a network file of held cells (document 02, 2.2).
ghost use Rattle.std.specs.Prelude.{◌≡◌};
ghost use Rattle.network_file.specs.Write.{write_answer, write_work, written_file};

use crate::FILE;
use crate::blocks::write_blocks;
use crate::work::clear_after;
use canonical::held::test_held;
use fill::WORK;
use lent::ROOTS;
use table::{Answer, Refusal, State};

// Writes the network file of the held cells; bytes past it stay. Refuses with 10, 22, 24, 32; a refusal writes no byte of the file.
// The work buffer is zero after a success and after 32.
pub fn write_cells(
    state: State,
    roots: &[u16],
    cells: &[u16],
    work: &mut [u8],
    file: &mut [u8],
) -> Answer
    ensures answer { result ≡ write_answer state roots.now cells.now work.old file.old }
    ensures work { work.new ≡ write_work state roots.now cells.now work.old file.old }
    ensures file { file.new ≡ written_file state roots.now cells.now work.old file.old }
{
    if roots.len() < ROOTS {
        return Err(Refusal::ShortBuffer);
    }
    if work.len() < WORK {
        return Err(Refusal::ShortBuffer);
    }
    if file.len() < FILE {
        return Err(Refusal::ShortBuffer);
    }
    let answer = test_held(state, roots, cells);
    clear_after(answer, work);
    if answer.is_ok() {
        write_blocks(state, roots, cells, file);
    }
    answer
}
