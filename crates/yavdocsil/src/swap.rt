// Swapping two levels of the held network in its cells, for other languages.
ghost use Rattle.std.specs.Prelude.{◌≡◌, true, ◌↔◌, ◌/◌, ◌<◌};
ghost use Rattle.diagram.specs.Demands.{NoneFits};
ghost use Rattle.lent.specs.Lent.{lent_diagram};
ghost use Rattle.network.specs.Build.{capacity};
ghost use Rattle.swapping.specs.Swap.{cell_table, exchanged_order, reaches_swap, swap_cells_outcome, swap_cells_roots, swap_cells_cells};
ghost use Rattle.swapping.specs.Swap.{swap_cells_work, Swapped};
ghost use Rattle.yavdocsil.specs.Words.{value_limit, state_from};
ghost use Rattle.table.specs.Answer.{answer_of};
ghost use Rattle.yavdocsil.specs.Called.{is_state, answer_to, leaves, words_after, success};

use crate::answer::{answer_word, settle};
use crate::state::{WORDS, read_state};
use swapping::swap::swap_cells;
use table::Refusal;

// Exchanges levels `level` and `level` + 1 in the held cells. What `swap_cells` owes of its outcome, this owes of the answer and the words.
#[unsafe(no_mangle)]
pub extern "C" fn yav_swap_cells(
    words: &mut [u64],
    level: u64,
    work: &mut [u8],
    roots: &mut [u16],
    cells: &mut [u16],
) -> u64
    ensures answer { result ≡ answer_to words.old
        (λ s. answer_of (swap_cells_outcome s level work.old roots.old cells.old)) }
    ensures words { words.new
        ≡ leaves words.old
        (λ s. words_after (swap_cells_outcome s level work.old roots.old cells.old) words.old)
        words.old }
    ensures work { work.new
        ≡ leaves words.old (λ s. swap_cells_work s level work.old roots.old cells.old)
        work.old }
    ensures roots { roots.new
        ≡ leaves words.old (λ s. swap_cells_roots s level work.old roots.old cells.old)
        roots.old }
    ensures cells { cells.new
        ≡ leaves words.old (λ s. swap_cells_cells s level work.old roots.old cells.old)
        cells.old }
    ensures swapped { result < value_limit → Swapped (state_from words.old) level roots.old cells.old
        (success result words.new)
        (lent_diagram (state_from words.new).count (state_from words.old).m cells.new roots.new)
        (capacity cells.new) }
    ensures fit { is_state words.old ≡ true
        → reaches_swap (state_from words.old) level work.old roots.old cells.old ≡ true
        → (result / value_limit ≡ 23)
        ↔ NoneFits true (cell_table (state_from words.old) roots.old cells.old)
        (exchanged_order (state_from words.old) level) (capacity cells.old) }
{
    if words.len() < WORDS {
        return answer_word(Err(Refusal::ShortBuffer));
    }
    let outcome = swap_cells(read_state(words), level as usize, work, roots, cells);
    settle(outcome, words)
}
