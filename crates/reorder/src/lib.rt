// Document 01, section 3: 'Reorder the table so that the top place is the most significant row bit.' The drawn row behind each row
// under an order, and an output's rows gathered into packed bytes.
#![tactic(auto)]

pub mod gather;
pub mod rows;
pub mod width;

use diagram::VARIABLES;

// The rows of the most variables, and the bytes of their values and care; specs/Sizes.antt has the definitions, `most_rows` and `part_size`.
pub const ROWS: usize = 1 << VARIABLES;

pub const PART: usize = 2 * ROWS / 8;
