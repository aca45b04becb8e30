// Sifting one variable, a pass over all of them (document 01, section 5), and what each move would bring (document 02, 2.8). It uses
// nothing of the filling but its contracts.
#![tactic(auto)]

mod choice;
mod counts;
pub mod moves;
mod order;
pub mod passes;
mod room;
pub mod single;
mod trials;
