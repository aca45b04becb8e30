// The table file, the state that every call takes and gives back, and what a call answers (document 01, sections 1, 2, 6 and 7).
#![tactic(auto)]

pub mod cared;
mod file;
pub mod load;
pub mod numbers;
pub mod order;
pub mod shape;
pub mod swap;
pub mod valid;

use diagram::VARIABLES;

// The bytes of values or care that a call uses; specs/Calls.antt has the definition, `plane_size`.
pub const PLANE: usize = 2048;

#[derive(Clone, Copy)]
pub enum Stage {
    Nothing,
    Table,
    Network,
}

// What is held: n variables, m outputs, the variable at each level, and the nodes of the network if one is held.
#[derive(Clone, Copy)]
pub struct State {
    pub n: usize,
    pub m: usize,
    pub order: [usize; VARIABLES],
    pub count: usize,
    pub stage: Stage,
}

// Why a call is refused; specs/Answer.antt has each one's number. `NoSuch` is 9: no such input, or p + 1 not below n. `TooSmall` has the
// cells wanted.
#[derive(Clone, Copy, Debug, PartialEq, Eq)]
pub enum Refusal {
    BadLength,
    BadCheck,
    BadKind,
    BadInputs,
    BadOutputs,
    BadOrder,
    BadContent,
    NoRow,
    NoSuch,
    ShortBuffer,
    NoTable,
    NoNetwork,
    TooSmall(usize),
    BadCells,
    ShortAnswers,
    NotCanonical,
    TooManyRecords,
    ShortGains,
}

// What a call answers: the value of a success, or why it is refused.
pub type Answer = Result<usize, Refusal>;

// What a call that is done answers, and the state after it.
#[derive(Clone, Copy)]
pub struct Done {
    pub value: usize,
    pub state: State,
}

// What comes of a call that changes the state: a refusal leaves the state.
pub type Outcome = Result<Done, Refusal>;
