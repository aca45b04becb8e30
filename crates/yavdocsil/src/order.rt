// Changing the order of the variables, for other languages: swapping two levels, sifting one variable, and a pass over all.
ghost use Rattle.std.specs.Prelude.{◌≡◌, ◌<◌};
ghost use Rattle.table.specs.Calls.{swap_outcome};
ghost use Rattle.sift.specs.Calls.{sift_outcome, sift_work, SiftDemand, SiftNeverDearer, pass_outcome, pass_work, PassDemand, PassNeverDearer};
ghost use Rattle.yavdocsil.specs.Words.{value_limit, state_from};
ghost use Rattle.table.specs.Answer.{answer_of};
ghost use Rattle.yavdocsil.specs.Called.{answer_to, leaves, words_after, success};

use crate::answer::{answer_word, settle};
use crate::state::{WORDS, read_state};
use sift::passes::pass;
use sift::single::sift;
use table::Refusal;
use table::swap::swap;

// Exchanges levels `level` and `level` + 1 of the order.
#[unsafe(no_mangle)]
pub extern "C" fn yav_swap(words: &mut [u64], level: u64) -> u64
    ensures answer { result ≡ answer_to words.old (λ s. answer_of (swap_outcome s level)) }
    ensures words { words.new
        ≡ leaves words.old (λ s. words_after (swap_outcome s level) words.old) words.old }
{
    if words.len() < WORDS {
        return answer_word(Err(Refusal::ShortBuffer));
    }
    let outcome = swap(read_state(words), level as usize);
    settle(outcome, words)
}

// Moves a variable to the level where the network takes the fewest nodes. No other level is cheaper then, nor was the order found.
#[unsafe(no_mangle)]
pub extern "C" fn yav_sift(
    words: &mut [u64],
    variable: u64,
    values: &[u8],
    care: &[u8],
    work: &mut [u8],
) -> u64
    ensures answer { result ≡ answer_to words.old
        (λ s. answer_of (sift_outcome s variable values.now care.now work.old)) }
    ensures words { words.new
        ≡ leaves words.old
        (λ s. words_after (sift_outcome s variable values.now care.now work.old) words.old)
        words.old }
    ensures work { work.new
        ≡ leaves words.old (λ s. sift_work s variable values.now care.now work.old)
        work.old }
    ensures demand { result < value_limit → SiftDemand variable values.now care.now (success result words.new) }
    ensures never_dearer { result < value_limit
        → SiftNeverDearer (state_from words.old) values.now care.now (success result words.new) }
{
    if words.len() < WORDS {
        return answer_word(Err(Refusal::ShortBuffer));
    }
    let outcome = sift(read_state(words), variable as usize, values, care, work);
    settle(outcome, words)
}

// Sifts each variable once, as far as the limit of orders allows; answers the orders tried.
#[unsafe(no_mangle)]
pub extern "C" fn yav_pass(
    words: &mut [u64],
    limit: u32,
    values: &[u8],
    care: &[u8],
    work: &mut [u8],
) -> u64
    ensures answer { result ≡ answer_to words.old
        (λ s. answer_of (pass_outcome s limit values.now care.now work.old)) }
    ensures words { words.new
        ≡ leaves words.old
        (λ s. words_after (pass_outcome s limit values.now care.now work.old) words.old)
        words.old }
    ensures work { work.new
        ≡ leaves words.old (λ s. pass_work s limit values.now care.now work.old)
        work.old }
    ensures demand { result < value_limit
        → PassDemand (state_from words.old) limit values.now care.now (success result words.new) }
    ensures never_dearer { result < value_limit
        → PassNeverDearer (state_from words.old) limit values.now care.now (success result words.new) }
{
    if words.len() < WORDS {
        return answer_word(Err(Refusal::ShortBuffer));
    }
    let outcome = pass(read_state(words), limit, values, care, work);
    settle(outcome, words)
}
