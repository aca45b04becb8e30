// Making networks in lent cells (document 01, section 4): building one, and reading one off links in the work buffer.
#![tactic(auto)]

pub mod build;
mod levels;
pub mod links;
pub mod reading;
mod roots;
