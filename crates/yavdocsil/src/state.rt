// The state as 64-bit words: read before a call, and written back after one that changes it.
ghost use Rattle.std.specs.Prelude.{◌≡◌, ◌+◌, ◌≤◌, length, take, drop};
ghost use Rattle.std.proofs.Math.Seq.{paste};
ghost use Rattle.diagram.specs.Networks.Bound.{most_variables};
ghost use Rattle.yavdocsil.specs.Words.{state_words, order_at, stage_from, stage_word, state_from, with_state};

use diagram::VARIABLES;
use table::{Stage, State};

// How many words a state takes, and where its order begins; specs/Words.antt has the definitions, `state_words` and `order_at`.
pub(crate) const WORDS: usize = 40;

const ORDER: usize = 8;

// The stage that a word says. By hand, and no `From`: the words are the interface's for C, and `Stage` is another crate's.
fn stage_from(word: u64) -> Stage
    ensures { result ≡ stage_from word }
{
    match word {
        1 => Stage::Table,
        2 => Stage::Network,
        _ => Stage::Nothing,
    }
}

// The word of a stage.
fn stage_word(stage: Stage) -> usize
    ensures { result ≡ stage_word stage }
{
    match stage {
        Stage::Nothing => 0,
        Stage::Table => 1,
        Stage::Network => 2,
    }
}

// The order in the words.
fn read_order(words: &[u64]) -> [usize; VARIABLES]
    requires { state_words ≤ length words.now }
    ensures { result ≡ take most_variables (drop order_at words.now) }
{
    let mut order = [0usize; VARIABLES];
    for p in 0..VARIABLES {
        order[p] = words[ORDER + p] as usize;
    }
    order
}

// The state in the words.
pub(crate) fn read_state(words: &[u64]) -> State
    requires { state_words ≤ length words.now }
    ensures { result ≡ state_from words.now }
{
    let order = read_order(words);
    let stage = stage_from(words[3]);
    State {
        n: words[0] as usize,
        m: words[1] as usize,
        order,
        count: words[2] as usize,
        stage,
    }
}

// Writes numbers to the words from `at` on.
fn write_words(numbers: &[usize], words: &mut [u64], at: usize)
    requires { (at + length numbers.now ≤ state_words) × (state_words ≤ length words.old) }
    ensures { words.new ≡ paste words.old at numbers.now (length numbers.now) }
{
    for i in 0..numbers.len() {
        words[at + i] = numbers[i] as u64;
    }
}

// Writes an order's entries to their words; it has one for each variable there can be.
fn write_order(order: [usize; VARIABLES], words: &mut [u64])
    requires { state_words ≤ length words.old }
    ensures { (words.new ≡ paste words.old order_at order most_variables) × (length order ≡ most_variables) }
{
    write_words(&order, words, ORDER);
}

// Writes a state into its words; reading them gives the state again.
pub(crate) fn write_state(state: State, words: &mut [u64])
    requires { state_words ≤ length words.old }
    ensures words { words.new ≡ with_state state words.old }
    ensures again { state_from words.new ≡ state }
{
    let stage = state.stage;
    let heading = [state.n, state.m, state.count, stage_word(stage)];
    write_words(&heading, words, 0);
    let order = state.order;
    write_order(order, words);
}
