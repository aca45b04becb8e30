// The theory of the tool: definitions in specs/, laws in proofs/. It has no function of its own.
#![tactic(auto)]

// The most variables and outputs of a table, and the most nodes that one needs; specs/Networks/Bound.antt has the definitions of the
// same names.
pub const VARIABLES: usize = 10;

pub const OUTPUTS: usize = 16;

pub const NODES: usize = 2159;
