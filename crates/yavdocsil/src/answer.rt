// An answer as one word, and an outcome as an answer and the state's words.
ghost use Rattle.std.specs.Prelude.{◌≡◌, ◌<◌, ◌≤◌, length, Ok};
ghost use Rattle.table.specs.Answer.{value, answer_of};
ghost use Rattle.yavdocsil.specs.Words.{state_words, value_limit, answer_word};
ghost use Rattle.yavdocsil.specs.Called.{words_after, success};

use crate::state::write_state;
use table::numbers::{number_of, value_of};
use table::{Answer, Outcome};

// Answers' numbers stand above their values, which are below this; specs/Words.antt has the definition, `value_limit`.
const VALUES: usize = 4294967296;

// An answer's number and value in one word.
pub(crate) fn answer_word(answer: Answer) -> u64
    requires { value answer < value_limit }
    ensures { result ≡ answer_word answer }
{
    (number_of(answer) * VALUES + value_of(answer)) as u64
}

// Answers an outcome; the state of a success is written into the words, so the outcome can be read off both.
pub(crate) fn settle(outcome: Outcome, words: &mut [u64]) -> u64
    requires { (state_words ≤ length words.old) × (value (answer_of outcome) < value_limit) }
    ensures answer { result ≡ answer_word (answer_of outcome) }
    ensures words { words.new ≡ words_after outcome words.old }
    ensures success { result < value_limit → Ok (success result words.new) ≡ outcome }
{
    match outcome {
        Ok(done) => {
            write_state(done.state, words);
            answer_word(Ok(done.value))
        }
        Err(refusal) => answer_word(Err(refusal)),
    }
}
