// Swapping two neighbouring levels of a held network in its cells (document 02, 2.7).
#![tactic(auto)]

mod exchange;
mod pairs;
mod seen;
pub mod swap;
