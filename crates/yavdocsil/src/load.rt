// Loading a table, and its cared bits, for other languages.
ghost use Rattle.std.specs.Prelude.{◌≡◌};
ghost use Rattle.table.specs.Calls.{load_outcome, load_values, load_care, cared_answer};
ghost use Rattle.table.specs.Answer.{answer_of};
ghost use Rattle.yavdocsil.specs.Called.{answer_to, leaves, words_after};

use crate::answer::{answer_word, settle};
use crate::state::{WORDS, read_state};
use table::Refusal;
use table::cared::cared;
use table::load::load;

// Loads a table file into values and care.
#[unsafe(no_mangle)]
pub extern "C" fn yav_load(
    words: &mut [u64],
    file: &[u8],
    values: &mut [u8],
    care: &mut [u8],
) -> u64
    ensures answer { result ≡ answer_to words.old
        (λ _. answer_of (load_outcome file.now values.old care.old)) }
    ensures words { words.new
        ≡ leaves words.old
        (λ _. words_after (load_outcome file.now values.old care.old) words.old)
        words.old }
    ensures values { values.new
        ≡ leaves words.old (λ _. load_values file.now values.old care.old)
        values.old }
    ensures care { care.new
        ≡ leaves words.old (λ _. load_care file.now values.old care.old)
        care.old }
{
    if words.len() < WORDS {
        return answer_word(Err(Refusal::ShortBuffer));
    }
    let outcome = load(file, values, care);
    settle(outcome, words)
}

// The number of cared bits in the held table's stream.
#[unsafe(no_mangle)]
pub extern "C" fn yav_cared(words: &[u64], care: &[u8]) -> u64
    ensures { result ≡ answer_to words.now (λ s. cared_answer s care.now) }
{
    if words.len() < WORDS {
        return answer_word(Err(Refusal::ShortBuffer));
    }
    answer_word(cared(read_state(words), care))
}
