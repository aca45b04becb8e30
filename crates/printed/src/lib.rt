// A program's input, and what is made of it: the network that is built, a refusal's line, and the whole output of the printing program
// (document 01, section 8).
#![tactic(auto)]

pub mod built;
pub mod input;
pub mod output;
pub mod refusal;
