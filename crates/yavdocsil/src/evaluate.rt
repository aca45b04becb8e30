// Evaluating one row or many, for other languages.
ghost use Rattle.std.specs.Prelude.{◌≡◌, ◌<◌};
ghost use Rattle.lent.specs.Evaluate.{evaluate_answer};
ghost use Rattle.lent.specs.Rows.{rows_answer, rows_answers, EachAlone};
ghost use Rattle.yavdocsil.specs.Words.{value_limit, state_from};
ghost use Rattle.yavdocsil.specs.Called.{answer_to, leaves};

use crate::answer::answer_word;
use crate::state::{WORDS, read_state};
use lent::evaluate::evaluate;
use lent::rows::evaluate_rows;
use table::Refusal;

// The outputs that the lent network gives at a row, bit j output j.
#[unsafe(no_mangle)]
pub extern "C" fn yav_evaluate(words: &[u64], row: u64, roots: &[u16], cells: &[u16]) -> u64
    ensures { result ≡ answer_to words.now (λ s. evaluate_answer s row roots.now cells.now) }
{
    if words.len() < WORDS {
        return answer_word(Err(Refusal::ShortBuffer));
    }
    answer_word(evaluate(read_state(words), row as usize, roots, cells))
}

// The outputs at each row of a list, each as evaluating that row alone answers.
#[unsafe(no_mangle)]
pub extern "C" fn yav_evaluate_rows(
    words: &[u64],
    rows: &[u16],
    answers: &mut [u16],
    roots: &[u16],
    cells: &[u16],
) -> u64
    ensures answer { result ≡ answer_to words.now
        (λ s. rows_answer s rows.now answers.old roots.now cells.now) }
    ensures answers { answers.new
        ≡ leaves words.now
        (λ s. rows_answers s rows.now answers.old roots.now cells.now)
        answers.old }
    ensures alone { result < value_limit
        → EachAlone (state_from words.now) rows.now roots.now cells.now
        answers.new }
{
    if words.len() < WORDS {
        return answer_word(Err(Refusal::ShortBuffer));
    }
    answer_word(evaluate_rows(read_state(words), rows, answers, roots, cells))
}
