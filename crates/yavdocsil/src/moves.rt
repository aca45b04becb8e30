// What moving each variable to each level would bring, for other languages.
ghost use Rattle.std.specs.Prelude.{◌≡◌, ◌<◌};
ghost use Rattle.sift.specs.Moves.{moves_answer, moves_gains, moves_work, Reported};
ghost use Rattle.yavdocsil.specs.Words.{value_limit, state_from};
ghost use Rattle.yavdocsil.specs.Called.{answer_to, leaves};

use crate::answer::answer_word;
use crate::state::{WORDS, read_state};
use sift::moves::moves;
use table::Refusal;

// Reports the nodes with each variable at each level minus the nodes now. What `sift::moves` owes of its list, this owes of it too.
#[unsafe(no_mangle)]
pub extern "C" fn yav_moves(
    words: &[u64],
    gains: &mut [i32],
    values: &[u8],
    care: &[u8],
    work: &mut [u8],
) -> u64
    ensures answer { result ≡ answer_to words.now
        (λ s. moves_answer s gains.old values.now care.now work.old) }
    ensures gains { gains.new
        ≡ leaves words.now
        (λ s. moves_gains s gains.old values.now care.now work.old)
        gains.old }
    ensures work { work.new
        ≡ leaves words.now
        (λ s. moves_work s gains.old values.now care.now work.old)
        work.old }
    ensures reported { result < value_limit
        → Reported (state_from words.now) values.now care.now work.old
        gains.new }
{
    if words.len() < WORDS {
        return answer_word(Err(Refusal::ShortBuffer));
    }
    answer_word(moves(read_state(words), gains, values, care, work))
}
