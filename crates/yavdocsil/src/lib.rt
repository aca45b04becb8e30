// The calls for C, Python and every language that calls C: fixed names, slices as a pointer and a length, the state as words.
#![tactic(auto)]

mod answer;
pub mod build;
pub mod cells;
pub mod evaluate;
pub mod load;
pub mod log;
pub mod moves;
pub mod order;
mod state;
pub mod swap;
