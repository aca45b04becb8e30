// Counting the nodes of a network, and building it, for other languages.
ghost use Rattle.std.specs.Prelude.{◌≡◌, true, ◌↔◌, ◌/◌, ◌<◌};
ghost use Rattle.diagram.specs.Demands.{NoneFits};
ghost use Rattle.table.specs.State.{order_of};
ghost use Rattle.fill.specs.Calls.{held_table, count_answer, count_work};
ghost use Rattle.lent.specs.Lent.{lent_diagram};
ghost use Rattle.network.specs.Build.{capacity, reaches_board, build_outcome, build_roots, build_cells, build_work, Built};
ghost use Rattle.yavdocsil.specs.Words.{value_limit, state_from};
ghost use Rattle.table.specs.Answer.{answer_of};
ghost use Rattle.yavdocsil.specs.Called.{is_state, answer_to, leaves, words_after, success};

use crate::answer::{answer_word, settle};
use crate::state::{WORDS, read_state};
use fill::count;
use network::build::build;
use table::Refusal;

// The nodes that the held table's network takes.
#[unsafe(no_mangle)]
pub extern "C" fn yav_count(words: &[u64], values: &[u8], care: &[u8], work: &mut [u8]) -> u64
    ensures answer { result ≡ answer_to words.now (λ s. count_answer s values.now care.now work.old) }
    ensures work { work.new
        ≡ leaves words.now (λ s. count_work s values.now care.now work.old)
        work.old }
{
    if words.len() < WORDS {
        return answer_word(Err(Refusal::ShortBuffer));
    }
    answer_word(count(read_state(words), values, care, work))
}

// Builds the held table's network in roots and cells. What `network::build` owes of its outcome, this owes of the answer and the words.
#[unsafe(no_mangle)]
pub extern "C" fn yav_build(
    words: &mut [u64],
    values: &[u8],
    care: &[u8],
    work: &mut [u8],
    roots: &mut [u16],
    cells: &mut [u16],
) -> u64
    ensures answer { result ≡ answer_to words.old
        (λ s. answer_of (build_outcome s values.now care.now work.old roots.old cells.old)) }
    ensures words { words.new
        ≡ leaves words.old
        (λ s. words_after
        (build_outcome s values.now care.now work.old roots.old cells.old)
        words.old)
        words.old }
    ensures work { work.new
        ≡ leaves words.old
        (λ s. build_work s values.now care.now work.old roots.old cells.old)
        work.old }
    ensures roots { roots.new
        ≡ leaves words.old
        (λ s. build_roots s values.now care.now work.old roots.old cells.old)
        roots.old }
    ensures cells { cells.new
        ≡ leaves words.old
        (λ s. build_cells s values.now care.now work.old roots.old cells.old)
        cells.old }
    ensures built { result < value_limit → Built (state_from words.old) values.now care.now (success result words.new)
        (lent_diagram (state_from words.new).count (state_from words.old).m cells.new roots.new)
        (capacity cells.new) }
    ensures fit { is_state words.old ≡ true
        → reaches_board (state_from words.old) values.now care.now work.old roots.old
        ≡ true
        → (result / value_limit ≡ 23)
        ↔ NoneFits true (held_table (state_from words.old) values.now care.now)
        (order_of (state_from words.old)) (capacity cells.old) }
{
    if words.len() < WORDS {
        return answer_word(Err(Refusal::ShortBuffer));
    }
    let outcome = build(read_state(words), values, care, work, roots, cells);
    settle(outcome, words)
}
