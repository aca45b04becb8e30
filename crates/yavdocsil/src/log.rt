// Logging the rows that were seen, for other languages.
ghost use Rattle.std.specs.Prelude.{◌≡◌};
ghost use Rattle.rowlog.specs.Log.{log_outcome, log_counts, log_care};
ghost use Rattle.table.specs.Answer.{answer_of};
ghost use Rattle.yavdocsil.specs.Called.{answer_to, leaves, words_after};

use crate::answer::{answer_word, settle};
use crate::state::{WORDS, read_state};
use rowlog::log::log_rows;
use table::Refusal;

// Counts each row of a list, and cares for every row counted `least` times or more.
#[unsafe(no_mangle)]
pub extern "C" fn yav_log_rows(
    words: &mut [u64],
    rows: &[u16],
    least: u32,
    counts: &mut [u32],
    care: &mut [u8],
) -> u64
    ensures answer { result ≡ answer_to words.old
        (λ s. answer_of (log_outcome s rows.now counts.old care.old)) }
    ensures words { words.new
        ≡ leaves words.old
        (λ s. words_after (log_outcome s rows.now counts.old care.old) words.old)
        words.old }
    ensures counts { counts.new
        ≡ leaves words.old (λ s. log_counts s rows.now counts.old care.old)
        counts.old }
    ensures care { care.new
        ≡ leaves words.old (λ s. log_care s rows.now least counts.old care.old)
        care.old }
{
    if words.len() < WORDS {
        return answer_word(Err(Refusal::ShortBuffer));
    }
    let outcome = log_rows(read_state(words), rows, least, counts, care);
    settle(outcome, words)
}
