// The input of a program: a table file, of which no more than 65,536 bytes are taken (document 01, section 8).
ghost use Rattle.std.specs.Prelude.{◌≡◌};
ghost use Rattle.printed.specs.Input.{input_outcome, input_values, input_care};

use table::load::load;
use table::{Outcome, Refusal};

// The longest input; specs/Input.antt has the definition, `longest_input`.
pub const LONGEST: usize = 65536;

// Loads a program's input. Refuses with 1 if it is too long, then as load does.
pub(crate) fn load_input(file: &[u8], values: &mut [u8], care: &mut [u8]) -> Outcome
    ensures outcome { result ≡ input_outcome file.now values.old care.old }
    ensures values { values.new ≡ input_values file.now values.old care.old }
    ensures care { care.new ≡ input_care file.now values.old care.old }
{
    if LONGEST < file.len() {
        return Err(Refusal::BadLength);
    }
    load(file, values, care)
}
