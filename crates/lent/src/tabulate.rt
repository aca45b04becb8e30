// The table that lent cells compute, written as values and care (document 02, 2.2): the cells are tested once, before anything is written.
ghost use Rattle.std.specs.Prelude.{◌≡◌, ◌≤◌, ◌<◌, length};
ghost use Rattle.lists.specs.Written.{over};
ghost use Rattle.table.specs.Stream.{plane_byte};
ghost use Rattle.table.specs.Calls.{plane_size};
ghost use Rattle.lent.specs.Tabulate.{tabulate_answer, lent_table, tabulate_values, tabulate_care};
ghost use Rattle.lent.specs.Inner.Tabulate.{table_bit, ones_byte};

use crate::ROOTS;
use crate::network::Network;
use table::{Answer, PLANE, Refusal, State};

// Byte i of a stream of `end` ones, and zeros past it.
fn ones_byte(end: usize, i: usize) -> u8
    requires { i < plane_size }
    ensures { result ≡ ones_byte end i }
{
    let left = end.saturating_sub(8 * i).min(8);
    ((1u16 << left) - 1) as u8
}

impl<'a> Network<'a> {
    // Bit x of the stream of values: each output has 2ⁿ rows, and past the last output there is none.
    fn value_bit(&self, x: usize) -> bool
        ensures { result ≡ table_bit (λ v. v.value) (lent_table self.now.state self.now.roots.now self.now.cells.now) x }
    {
        let n = self.state.n;
        if self.state.m << n <= x {
            return false;
        }
        let bits = self.level_bits(x & ((1 << n) - 1));
        self.follow(bits, self.roots[x >> n] as usize)
    }

    // Byte i of the stream of values, the first bit the lowest.
    fn value_byte(&self, i: usize) -> u8
        requires { i < plane_size }
        ensures { result ≡ plane_byte (λ x. x.value) (lent_table self.now.state self.now.roots.now self.now.cells.now) i }
    {
        let mut byte: u8 = 0;
        for b in 0..8 {
            if self.value_bit(8 * i + b) {
                byte |= 1u8 << b;
            }
        }
        byte
    }

    // Writes all of the values.
    fn write_values(&self, values: &mut [u8])
        requires { plane_size ≤ length values.old }
        ensures { values.new
            ≡ over (plane_byte (λ x. x.value) (lent_table self.now.state self.now.roots.now self.now.cells.now)) plane_size values.old }
    {
        for (i, byte) in values[..PLANE].iter_mut().enumerate() {
            *byte = self.value_byte(i);
        }
    }

    // Writes all of the care: every row is cared.
    fn write_care(&self, care: &mut [u8])
        requires { plane_size ≤ length care.old }
        ensures { care.new
            ≡ over (plane_byte (λ x. x.care) (lent_table self.now.state self.now.roots.now self.now.cells.now)) plane_size care.old }
    {
        let end = self.state.m << self.state.n;
        for (i, byte) in care[..PLANE].iter_mut().enumerate() {
            *byte = ones_byte(end, i);
        }
    }
}

// Writes the table that the cells compute. Refuses with 10, 22, 24; a refusal writes nothing.
#[tactic(auto, using(crate::proofs::Sizes::sizes), unfolding(crate::specs::Tabulate::tabulate_answer, crate::specs::Tabulate::tabulate_values, crate::specs::Tabulate::tabulate_care, crate::specs::Lent::roots_size))]
pub fn tabulate(
    state: State,
    roots: &[u16],
    cells: &[u16],
    values: &mut [u8],
    care: &mut [u8],
) -> Answer
    ensures answer { result ≡ tabulate_answer state roots.now cells.now values.old care.old }
    ensures values { values.new
        ≡ tabulate_values state roots.now cells.now values.old care.old }
    ensures care { care.new
        ≡ tabulate_care state roots.now cells.now values.old care.old }
{
    if roots.len() < ROOTS {
        return Err(Refusal::ShortBuffer);
    }
    if values.len() < PLANE {
        return Err(Refusal::ShortBuffer);
    }
    if care.len() < PLANE {
        return Err(Refusal::ShortBuffer);
    }
    if !state.holds_network() {
        return Err(Refusal::NoNetwork);
    }
    let network = Network::tested(state, roots, cells)?;
    network.write_values(values);
    network.write_care(care);
    Ok(0)
}
