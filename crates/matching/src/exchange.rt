// The two top variables of parts exchanged, in place: the part's quarters are put together anew. d variables are below the two.
ghost use Rattle.std.specs.Prelude.{◌≡◌, ◌++◌, map, suc, ◌+◌, ◌*◌, ◌^◌, ◌≤◌, ◌<◌, length, take, drop};
ghost use Rattle.lists.specs.Written.{splice};
ghost use Rattle.diagram.specs.Networks.Bound.{most_variables};
ghost use Rattle.reorder.specs.Sizes.{width};
ghost use Rattle.matching.specs.Parts.{flat};
ghost use Rattle.matching.specs.Level.{parts_at};
ghost use Rattle.matching.specs.Exchange.{join_byte, paired_byte, exchanged_byte, exchanged_plane, exchanged_part};

use crate::halves::half_byte;
use reorder::width::width_of;

// Two halves of d variables as one byte, the first in the lowest bits.
fn join_byte(d: usize, low: u8, high: u8) -> u8
    requires below_a_byte { d < 3 }
    requires halves_fit { (low < 2 ^ (2 ^ d)) × (high < 2 ^ (2 ^ d)) }
    ensures { result ≡ join_byte d low high }
{
    (high << (1usize << d)) + low
}

// Halves b of two bytes as one.
fn paired_byte(b: bool, d: usize, low: u8, high: u8) -> u8
    requires { d < 3 }
    ensures { result ≡ paired_byte b d low high }
{
    join_byte(d, half_byte(b, d, low), half_byte(b, d, high))
}

// A plane of one byte.
fn exchange_byte(d: usize, x: u8) -> u8
    requires { d < 2 }
    ensures { result ≡ exchanged_byte d x }
{
    let low = half_byte(false, d + 1, x);
    let high = half_byte(true, d + 1, x);
    join_byte(
        d + 1,
        paired_byte(false, d, low, high),
        paired_byte(true, d, low, high),
    )
}

// A plane of two bytes, whose quarters are half a byte each.
fn exchange_nibbles(plane: &mut [u8])
    requires { length plane.old ≡ 2 }
    ensures { plane.new ≡ exchanged_plane 2 plane.old }
{
    let low = plane[0];
    let high = plane[1];
    plane[0] = paired_byte(false, 2, low, high);
    plane[1] = paired_byte(true, 2, low, high);
}

// The second and the third of four blocks of q bytes.
fn exchange_blocks(q: usize, plane: &mut [u8])
    requires { length plane.old ≡ 4 * q }
    ensures { plane.new
        ≡ (take q plane.old ++ take q (drop (2 * q) plane.old)) ++ (take q (drop q plane.old) ++ drop (3 * q) plane.old) }
{
    let (front, back) = plane.split_at_mut(2 * q);
    front[q..].swap_with_slice(&mut back[..q]);
}

// A plane of d + 2 variables.
fn exchange_plane(d: usize, plane: &mut [u8])
    requires variables { d + 2 ≤ most_variables }
    requires plane_len { length plane.old ≡ width (suc (suc d)) }
    ensures { plane.new ≡ exchanged_plane d plane.old }
{
    match d {
        0 | 1 => plane[0] = exchange_byte(d, plane[0]),
        2 => exchange_nibbles(plane),
        _ => exchange_blocks(width_of(d), plane),
    }
}

// The count parts of d + 2 variables at from. Planes are cut by index: `chunks_exact_mut` says nothing of what it leaves.
pub(crate) fn exchange_parts(d: usize, from: usize, count: usize, work: &mut [u8])
    requires variables { d + 2 ≤ most_variables }
    requires in_work { from + count * (width (suc (suc d)) + width (suc (suc d))) ≤ length work.old }
    ensures { work.new
        ≡ splice work.old from (flat (map (exchanged_part d) (parts_at (suc (suc d)) count from work.old))) }
{
    let w = width_of(d + 2);
    let planes = 2 * count;
    for i in 0..planes {
        let a = from + i * w;
        let b = a + w;
        exchange_plane(d, &mut work[a..b]);
    }
}
