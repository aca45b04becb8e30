// Whether lent cells and roots are section 4's network of what they compute (document 02, 2.2, number 32), by their structure.
#![tactic(auto)]

pub mod held;
mod reduced;
mod walk;
