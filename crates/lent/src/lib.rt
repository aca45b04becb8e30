// Lent cells and roots as a diagram (document 01, section 4): their test, evaluation, and the table that they compute (document 02, 2.2).
#![tactic(auto)]

pub mod cells;
pub mod evaluate;
mod follow;
mod network;
pub mod rows;
pub mod tabulate;

use diagram::OUTPUTS;

// How many roots are lent: one for each output there can be.
pub const ROOTS: usize = OUTPUTS;
