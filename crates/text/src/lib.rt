// Section 8's text, written into a lent buffer: each function answers how many bytes it wrote, and what would lie past the buffer's end is
// not written.
#![tactic(auto)]

pub mod held;
pub mod line;
mod put;
