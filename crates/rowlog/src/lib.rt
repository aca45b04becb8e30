// Free rows from the floor's record (document 02, 2.4): rows are logged into lent counts, and the counts say which rows are cared.
#![tactic(auto)]

mod care;
mod counts;
pub mod log;
