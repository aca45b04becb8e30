// The care that the counts give: a row counted often enough is cared in every output.
ghost use Rattle.std.specs.Prelude.{◌≡◌, ◌≤◌, ◌<◌, length};
ghost use Rattle.lists.specs.Written.{over};
ghost use Rattle.diagram.specs.Networks.Bound.{most_variables};
ghost use Rattle.table.specs.Calls.{plane_size};
ghost use Rattle.rowlog.specs.Inner.Care.{care_bit, counted_byte};

use crate::counts::lent_count;
use table::PLANE;

// Bit x of the stream of care: each output has 2ⁿ rows, and past the stream's end there is none.
#[tactic(auto, unfolding(crate::specs::Inner::Care::care_bit))]
fn care_bit(counts: &[u32], least: u32, n: usize, end: usize, x: usize) -> bool
    requires { n ≤ most_variables }
    ensures { result ≡ care_bit counts.now least n end x }
{
    if end <= x {
        return false;
    }
    let row = x & ((1 << n) - 1);
    least as usize <= lent_count(counts, row)
}

// Byte i of the stream of care, the first bit the lowest.
fn care_byte(counts: &[u32], least: u32, n: usize, end: usize, i: usize) -> u8
    requires { (n ≤ most_variables) × (i < plane_size) }
    ensures { result ≡ counted_byte counts.now least n end i }
{
    let mut byte: u8 = 0;
    for b in 0..8 {
        if care_bit(counts, least, n, end, 8 * i + b) {
            byte |= 1u8 << b;
        }
    }
    byte
}

// Writes the stream of care, and zeros to the plane's end.
pub(crate) fn write_care(counts: &[u32], least: u32, n: usize, end: usize, care: &mut [u8])
    requires { (n ≤ most_variables) × (plane_size ≤ length care.old) }
    ensures { care.new ≡ over (counted_byte counts.now least n end) plane_size care.old }
{
    let plane = &mut care[..PLANE];
    for (i, byte) in plane.iter_mut().enumerate() {
        *byte = care_byte(counts, least, n, end, i);
    }
}
