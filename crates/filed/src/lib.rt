// The network file of the table in a program's input (document 02, 2.2).
#![tactic(auto)]

pub mod output;
