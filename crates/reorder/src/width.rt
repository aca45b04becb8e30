// How many bytes the rows of some variables take, and how many rows stand in each.
ghost use Rattle.std.specs.Prelude.{◌≡◌, ◌^◌, ◌≤◌, min};
ghost use Rattle.diagram.specs.Networks.Bound.{most_variables};
ghost use Rattle.reorder.specs.Sizes.{width_up_to};

use diagram::VARIABLES;

// How many bytes the rows of d variables take; 0 where they are too many.
pub fn width_of(d: usize) -> usize
    ensures { result ≡ width_up_to d }
{
    match d {
        0..3 => 1,
        3..=VARIABLES => 1 << (d - 3),
        _ => 0,
    }
}

// The rows in each byte of those of n variables.
pub(crate) fn rows_in(n: usize) -> usize
    requires { n ≤ most_variables }
    ensures { result ≡ min 8 (2 ^ n) }
{
    (1usize << n).min(8)
}
