// Writing a network file of held cells, and reading one again, for other languages (document 02, 2.2).
ghost use Rattle.std.specs.Prelude.{◌≡◌, ◌<◌};
ghost use Rattle.lent.specs.Lent.{lent_diagram};
ghost use Rattle.network.specs.Build.{capacity};
ghost use Rattle.network_file.specs.Write.{write_answer, write_work, written_file};
ghost use Rattle.network_file.specs.Read.{read_outcome, read_values, read_care, read_work, read_roots, read_cells, Given};
ghost use Rattle.yavdocsil.specs.Words.{value_limit, state_from};
ghost use Rattle.table.specs.Answer.{answer_of};
ghost use Rattle.yavdocsil.specs.Called.{answer_to, leaves, words_after};

use crate::answer::{answer_word, settle};
use crate::state::{WORDS, read_state};
use network_file::read::read_cells;
use network_file::write::write_cells;
use table::Refusal;

// Writes the network file of the held network.
#[unsafe(no_mangle)]
pub extern "C" fn yav_write_cells(
    words: &[u64],
    roots: &[u16],
    cells: &[u16],
    work: &mut [u8],
    file: &mut [u8],
) -> u64
    ensures answer { result ≡ answer_to words.now
        (λ s. write_answer s roots.now cells.now work.old file.old) }
    ensures work { work.new
        ≡ leaves words.now
        (λ s. write_work s roots.now cells.now work.old file.old)
        work.old }
    ensures file { file.new
        ≡ leaves words.now
        (λ s. written_file s roots.now cells.now work.old file.old)
        file.old }
{
    if words.len() < WORDS {
        return answer_word(Err(Refusal::ShortBuffer));
    }
    answer_word(write_cells(read_state(words), roots, cells, work, file))
}

// Reads a network file into roots and cells, and the table that they compute into values and care. What `network_file::read` owes of its
// outcome, this owes of the answer and the words.
#[unsafe(no_mangle)]
pub extern "C" fn yav_read_cells(
    words: &mut [u64],
    file: &[u8],
    values: &mut [u8],
    care: &mut [u8],
    work: &mut [u8],
    roots: &mut [u16],
    cells: &mut [u16],
) -> u64
    ensures answer { result ≡ answer_to words.old
        (λ _. answer_of (read_outcome file.now values.old care.old work.old roots.old
        cells.old)) }
    ensures words { words.new
        ≡ leaves words.old
        (λ _. words_after
        (read_outcome file.now values.old care.old work.old roots.old
        cells.old)
        words.old)
        words.old }
    ensures values { values.new
        ≡ leaves words.old
        (λ _. read_values file.now values.old care.old work.old roots.old
        cells.old)
        values.old }
    ensures care { care.new
        ≡ leaves words.old
        (λ _. read_care file.now values.old care.old work.old roots.old
        cells.old)
        care.old }
    ensures work { work.new
        ≡ leaves words.old
        (λ _. read_work file.now values.old care.old work.old roots.old
        cells.old)
        work.old }
    ensures roots { roots.new
        ≡ leaves words.old
        (λ _. read_roots file.now values.old care.old work.old roots.old
        cells.old)
        roots.old }
    ensures cells { cells.new
        ≡ leaves words.old
        (λ _. read_cells file.now values.old care.old work.old roots.old
        cells.old)
        cells.old }
    ensures given { result < value_limit → Given (state_from words.new) values.new care.new
        (lent_diagram (state_from words.new).count (state_from words.new).m cells.new roots.new)
        (capacity cells.new) }
{
    if words.len() < WORDS {
        return answer_word(Err(Refusal::ShortBuffer));
    }
    let outcome = read_cells(file, values, care, work, roots, cells);
    settle(outcome, words)
}
