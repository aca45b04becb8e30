// The rows of an output, reordered, gathered into packed bytes.
ghost use Rattle.std.specs.Prelude.{◌≡◌, ◌++◌, ◌+◌, ◌*◌, ◌/◌, ◌^◌, ◌≤◌, ◌<◌, length, get_or, drop};
ghost use Rattle.lists.specs.Bits.{digit, packed};
ghost use Rattle.diagram.specs.Networks.Bound.{most_variables, most_outputs};
ghost use Rattle.block.specs.Bits.{stream_bit};
ghost use Rattle.reorder.specs.Sizes.{width};
ghost use Rattle.reorder.specs.Gather.{gathered_plane, output_part};

use crate::width::{rows_in, width_of};
use crate::{PART, ROWS};
use block::bits::digit_at;
use diagram::{OUTPUTS, VARIABLES};

// Rows of both planes, the first in the lowest bit.
#[derive(Clone, Copy)]
struct Gathered {
    values: u8,
    care: u8,
}

// The drawn planes. Below byte `both` one test stands for both lengths.
#[derive(Clone, Copy)]
struct Planes<'a> {
    values: &'a [u8],
    care: &'a [u8],
    both: usize,
    ghost in_values: { both ≤ length values.now },
    ghost in_care: { both ≤ length care.now },
}

// Bit i of a plane that has it.
fn digit_within(plane: &[u8], i: usize) -> u8
    requires { i / 8 < length plane.now }
    ensures { result ≡ digit (stream_bit plane.now i) }
{
    plane[i >> 3] >> (i & 7) & 1
}

impl Planes<'_> {
    // Bit i of both planes.
    fn bit(&self, i: usize) -> Gathered
        ensures values { result.values ≡ digit (stream_bit self.now.values.now i) }
        ensures care { result.care ≡ digit (stream_bit self.now.care.now i) }
    {
        if i / 8 < self.both {
            return Gathered {
                values: digit_within(self.values, i),
                care: digit_within(self.care, i),
            };
        }
        Gathered {
            values: digit_at(self.values, i),
            care: digit_at(self.care, i),
        }
    }

    // The drawn rows given, at most eight, as a byte of each plane; the output's rows begin at bit base.
    fn gathered(&self, base: usize, rows: &[u16]) -> Gathered
        requires at_most_eight { length rows.now ≤ 8 }
        requires base_bound { base < most_outputs * 2 ^ most_variables }
        ensures values { result.values ≡ packed (length rows.now) (λ b. stream_bit self.now.values.now (base + get_or rows.now b 0)) }
        ensures care { result.care ≡ packed (length rows.now) (λ b. stream_bit self.now.care.now (base + get_or rows.now b 0)) }
    {
        let mut bytes = Gathered { values: 0, care: 0 };
        for (b, row) in rows.iter().enumerate() {
            let bit = self.bit(base + *row as usize);
            bytes.values |= bit.values << b;
            bytes.care |= bit.care << b;
        }
        bytes
    }
}

// All rows of an output: the values from the front on, then the care. By index, since both planes are written in step.
fn gather(planes: &Planes, base: usize, map: &[u16], n: usize, part: &mut [u8])
    requires variables { n ≤ most_variables }
    requires base_bound { base < most_outputs * 2 ^ most_variables }
    requires rows_mapped { 2 ^ n ≤ length map.now }
    requires room { width n + width n ≤ length part.old }
    ensures { part.new
        ≡ gathered_plane planes.now.values.now base map.now n
        ++ gathered_plane planes.now.care.now base map.now n
        ++ drop (width n + width n) part.old }
{
    let w = width_of(n);
    let k = rows_in(n);
    let (values, care) = part.split_at_mut(w);
    for i in 0..w {
        let start = 8 * i;
        let bytes = planes.gathered(base, &map[start..start + k]);
        values[i] = bytes.values;
        care[i] = bytes.care;
    }
}

// All rows of output j: the values, then the care, then zeros. Zeros alone where the variables are too many, or there is no such output.
pub fn gather_output(values: &[u8], care: &[u8], map: [u16; ROWS], n: usize, j: usize) -> [u8; PART]
    ensures { result ≡ output_part values.now care.now map n j }
{
    let mut part = [0u8; PART];
    if n <= VARIABLES && j < OUTPUTS {
        let both = values.len().min(care.len());
        let planes = Planes { values, care, both };
        gather(&planes, j << n, &map, n, &mut part);
    }
    part
}
