// The heading of a file, whatever its kind: n, m and the order (document 01, section 1).
ghost use Rattle.std.specs.Prelude.{◌≡◌};
ghost use Rattle.table.specs.File.{shape_answer};

use crate::order::{is_order, read_order};
use crate::{Answer, Refusal};
use block::block::Block;
use diagram::{OUTPUTS, VARIABLES};

// The heading's n, m and order: 4, 5, 6, or 0.
#[tactic(auto, unfolding(crate::specs::File::shape_answer), using(crate::proofs::Files::Heading::order_read))]
pub fn shape_answer(file: &[u8]) -> Answer
    ensures { result ≡ shape_answer file.now }
{
    let heading = Block { file, number: 0 };
    let n = heading.byte(4);
    if VARIABLES < n {
        return Err(Refusal::BadInputs);
    }
    if !(1..=OUTPUTS).contains(&heading.byte(5)) {
        return Err(Refusal::BadOutputs);
    }
    if !is_order(read_order(file, n), n) {
        return Err(Refusal::BadOrder);
    }
    Ok(0)
}
